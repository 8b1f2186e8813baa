//! The walk for keys that the asked key covers.
ghost use Rattle.std.specs.Prelude.{◌≡◌, ◌↔◌, ℕ, ◌+◌, ◌*◌, ◌<◌, ◌≤◌, ◌∷◌};
ghost use Rattle.std.specs.Prelude.{length, Any, IsTrue};
ghost use Rattle.atom_implies.specs.Implies.{Covers, Implies};
ghost use Rattle.key_tree.specs.Prints.{hash_of as form_hash};
ghost use Rattle.key_tree.specs.Asked.{atom_hash};
ghost use Rattle.key_tree.specs.Held.{IsLeastOf};
ghost use Rattle.key_tree.specs.Runs.{IsRunOf};
ghost use Rattle.key_tree.specs.Tree.{TellsOfBranch, branch_to, pairs_of};
ghost use Rattle.key_tree.specs.Walks.{IsLeastFound, IsAtOrBehind, IsBehind, Visits};

use atom_implies::{Steps, implies};
use key_tree::{
    ABOVE_ALL, Asked, KeyTree, Kid, Run, lesser, number_of, prints_are_right, visits_go_on,
    walks_go_on,
};
use lin_model::KeyAtom;
use std::sync::ledger::Ledger;

/// The least number of a key held that the asked key covers. It takes at most as many steps at each place but the root
/// as there are atoms asked.
pub(crate) fn first_of<L: Ledger>(
    tree: &KeyTree,
    asked: &Asked,
    steps: &mut Steps<L>,
) -> Option<u32>
    ensures first { IsLeastOf (λ key. Covers asked.now key) (pairs_of tree.now) result }
    ensures cost { (nodes : ℕ) → nodes + 1 ≡ length tree.now.places
        → steps.new ≤ steps.old + nodes * length asked.now }
{
    visits_go_on();
    number_of(walk(tree, tree.root(), asked, ABOVE_ALL, steps))
}

/// The least of `best` and the numbers of keys held at or behind a place of which the asked key covers what is behind
/// the way to it. The atoms of the way are implied already.
#[cycle(walking)]
fn walk<L: Ledger>(
    tree: &KeyTree,
    place: u32,
    asked: &Asked,
    best: u64,
    steps: &mut Steps<L>,
) -> u64
    requires { place < length tree.now.places }
    ensures found { IsLeastFound tree.now place (λ rest. Covers asked.now rest) best result }
    ensures cost { Visits (IsBehind tree.now place) (length asked.now) steps.old steps.new }
{
    walks_go_on();
    visits_go_on();
    let mut found = lesser(best, tree.number(place));
    for kid in tree.kids(place) {
        found = look(tree, kid, asked, found, steps);
    }
    found
}

/// The same of a branch: the asked key has to cover its atom too.
#[cycle(walking)]
fn look<L: Ledger>(tree: &KeyTree, kid: &Kid, asked: &Asked, best: u64, steps: &mut Steps<L>) -> u64
    requires { TellsOfBranch tree.now kid.now }
    ensures found { IsLeastFound tree.now kid.now.place
        (λ rest. Covers asked.now ((branch_to tree.now kid.now.place).atom ∷ rest)) best result }
    ensures cost { Visits (IsAtOrBehind tree.now kid.now.place) (length asked.now) steps.old steps.new }
{
    visits_go_on();
    let atom = tree.atom(kid.place);
    if u64::from(kid.least) >= best || !is_implied(asked, kid.hash, atom, steps) {
        return best;
    }
    walk(tree, kid.place, asked, best, steps)
}

/// Whether some asked atom implies this one, whose form has this hash.
fn is_implied<L: Ledger>(asked: &Asked, hash: u32, atom: &KeyAtom, steps: &mut Steps<L>) -> bool
    requires { hash ≡ form_hash atom.now.form }
    ensures exact { IsTrue result ↔ Any (λ b. Implies b atom.now) asked.now }
    ensures cost { steps.new ≤ steps.old + length asked.now }
{
    some_implies(asked, asked.run(hash), hash, atom, steps)
}

/// The same, where the run is that of the hash.
fn some_implies<L: Ledger>(
    asked: &Asked,
    run: Run,
    hash: u32,
    atom: &KeyAtom,
    steps: &mut Steps<L>,
) -> bool
    requires run { IsRunOf asked.now hash run }
    requires hash { hash ≡ form_hash atom.now.form }
    ensures exact { IsTrue result ↔ Any (λ b. Implies b atom.now) asked.now }
    ensures cost { steps.new ≤ steps.old + length asked.now }
{
    prints_are_right();
    for place in run.first..run.end {
        if implies_if_alike(asked.atom(place), asked.hash(place), hash, atom, steps) {
            return true;
        }
    }
    false
}

/// Whether an asked atom implies this one: their forms have to have one hash.
fn implies_if_alike<L: Ledger>(
    asked: &KeyAtom,
    own_hash: u32,
    hash: u32,
    atom: &KeyAtom,
    steps: &mut Steps<L>,
) -> bool
    requires own_hash { own_hash ≡ atom_hash asked.now }
    requires hash { hash ≡ form_hash atom.now.form }
    ensures exact { IsTrue result ↔ Implies asked.now atom.now }
    ensures cost { steps.new ≤ steps.old + 1 }
{
    own_hash == hash && implies(asked, atom, steps)
}
