//! What an atom leaves of those that are wanted.
ghost use Rattle.std.specs.Prelude.{◌≡◌, ◌↔◌, ◌+◌, ◌<◌, ◌≤◌, List, ◌∷◌, length, IsTrue, slice_index_or};
ghost use Rattle.lin_model.specs.KeyAtom.{PlainKeyAtom};
ghost use Rattle.atom_implies.specs.Implies.{Implies, Covers};
ghost use Rattle.key_tree.specs.Prints.{hash_of};
ghost use Rattle.key_tree.specs.Asked.{no_atom};
ghost use Rattle.key_tree.specs.Runs.{IsRunOf};
ghost use Rattle.sat_trie.specs.Left.{has_place};
ghost use Rattle.sat_trie.specs.Wanted.{atoms_left, IsLeft, IsCompared};

use crate::left::Left;
use atom_implies::{Steps, implies};
use key_tree::{Asked, Run, prints_are_right};
use lin_model::KeyAtom;
use std::sync::ledger::Ledger;

/// What is left while an atom is compared with those of its form: the places, and the needs of the atoms that it implies
/// and of those that it doesn't.
#[derive(Drop)]
struct Rest {
    left: Left,
    gone: u64,
    kept: u64,
}

/// Those of some places whose atoms this one, whose form has this hash, doesn't imply. The run is that of the hash.
pub(crate) fn left_without<L: Ledger>(
    asked: &Asked,
    before: &Left,
    run: Run,
    atom: &KeyAtom,
    hash: u32,
    steps: &mut Steps<L>,
) -> Left
    requires hash { hash ≡ hash_of atom.now.form }
    requires run { IsRunOf asked.now hash run }
    requires few { length asked.now ≤ 384 }
    requires left { IsLeft asked.now before.now (length asked.now) }
    ensures left { IsLeft asked.now result (length asked.now) }
    ensures rest { (rest : List PlainKeyAtom) → Covers rest (atoms_left asked.now result (length asked.now))
        ↔ Covers (atom.now ∷ rest) (atoms_left asked.now before.now (length asked.now)) }
    ensures fewer { length (atoms_left asked.now result (length asked.now))
        ≤ length (atoms_left asked.now before.now (length asked.now)) }
    ensures cost { steps.new ≤ steps.old + length (atoms_left asked.now before.now (length asked.now)) }
{
    prints_are_right();
    let mut rest = Rest {
        left: *before,
        gone: 0,
        kept: 0,
    };
    for place in run.first..run.end {
        compare(asked, place, atom, hash, &mut rest, steps);
    }
    let mut left = rest.left;
    left.lessen_needs(rest.gone, rest.kept);
    left
}

/// Compares the atom, whose form has this hash, with the one at a place, if that is left.
fn compare<L: Ledger>(
    asked: &Asked,
    place: u16,
    atom: &KeyAtom,
    hash: u32,
    rest: &mut Rest,
    steps: &mut Steps<L>,
)
    requires place { place < length asked.now }
    requires few { length asked.now ≤ 384 }
    requires hash { hash ≡ hash_of atom.now.form }
    requires some { has_place rest.old.left.words place ≡ 1 → 0 < rest.old.left.count }
    ensures compared { IsCompared asked.now atom.now place rest.old rest.new }
    ensures cost { steps.new ≤ steps.old + has_place rest.old.left.words place }
{
    if !rest.left.has(place) {
        return;
    }
    if is_implied(asked, place, atom, hash, steps) {
        rest.left.remove(place);
        rest.gone |= asked.needs(place);
    } else {
        rest.kept |= asked.needs(place);
    }
}

/// Whether the atom, whose form has this hash, implies the asked one at this place.
fn is_implied<L: Ledger>(
    asked: &Asked,
    place: u16,
    atom: &KeyAtom,
    hash: u32,
    steps: &mut Steps<L>,
) -> bool
    requires place { place < length asked.now }
    requires hash { hash ≡ hash_of atom.now.form }
    ensures exact { IsTrue result ↔ Implies atom.now (slice_index_or asked.now place no_atom) }
    ensures cost { steps.new ≤ steps.old + 1 }
{
    if asked.hash(place) != hash {
        return false;
    }
    implies(atom, asked.atom(place), steps)
}
