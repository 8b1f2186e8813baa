//! The walk for keys that cover what is asked.
ghost use Rattle.std.specs.Prelude.{◌≡◌, ◌⊎◌, ℕ, ◌+◌, ◌*◌, ◌<◌, ◌≤◌, false, ◌∷◌, length};
ghost use Rattle.atom_implies.specs.Implies.{Covers};
ghost use Rattle.key_tree.specs.Held.{IsLeastOf};
ghost use Rattle.key_tree.specs.Prints.{gives_of, IsWithin};
ghost use Rattle.key_tree.specs.Tree.{TellsOfBranch, IsTree, Holds, branch_to, place_at, pairs_of};
ghost use Rattle.key_tree.specs.Walks.{Meets, covering, PassesBehind, IsLeastFound, IsLeastSoFar};
ghost use Rattle.key_tree.specs.Walks.{IsAtOrBehind, IsBehind, Visits};

use crate::wanted::Wanted;
use atom_implies::Steps;
use key_tree::{
    ABOVE_ALL, Asked, KeyTree, Kid, is_within, lesser, masks_are_right, number_of,
    prints_are_right, visits_go_on, walks_go_on,
};
use std::sync::ledger::Ledger;

/// The least number of a key held that covers the asked key. It takes at most as many steps at each place but the root
/// as there are atoms asked. Where the very key is held, the walk begins with its number, and looks only for a lesser one.
pub(crate) fn first_of<L: Ledger>(
    tree: &KeyTree,
    asked: &Asked,
    steps: &mut Steps<L>,
) -> Option<u32>
    ensures first { IsLeastOf (λ key. Covers key asked.now) (pairs_of tree.now) result }
    ensures cost { (nodes : ℕ) → nodes + 1 ≡ length tree.now.places
        → steps.new ≤ steps.old + nodes * length asked.now }
{
    visits_go_on();
    let wanted = Wanted::all(asked);
    number_of(enter(tree, tree.root(), &wanted, own_number(tree, asked), steps))
}

/// The number under which the very key is held that is asked, or else one above all numbers.
fn own_number(tree: &KeyTree, asked: &Asked) -> u64
    ensures number { (result ≡ ABOVE_ALL) ⊎ Holds tree.now asked.now result }
    ensures small { result ≤ ABOVE_ALL }
{
    match tree.find(asked.key()) {
        Some(number) => u64::from(number),
        None => ABOVE_ALL,
    }
}

/// The least of `best` and the numbers of keys held at or behind a place of which what is behind the way to it covers
/// all that is wanted.
#[cycle(walking)]
fn walk<L: Ledger>(
    tree: &KeyTree,
    place: u32,
    wanted: &Wanted,
    best: u64,
    steps: &mut Steps<L>,
) -> u64
    requires { place < length tree.now.places }
    ensures found { IsLeastFound tree.now place (λ rest. Covers rest wanted.now) best result }
    ensures cost { (each : ℕ) → length wanted.now ≤ each → Visits (IsBehind tree.now place) each steps.old steps.new }
{
    walks_go_on();
    visits_go_on();
    let mut found = with_own(tree, place, wanted, best);
    let masks = tree.masks(place);
    for (k, kid) in tree.kids(place).iter().enumerate() {
        found = look(tree, kid, masks[k], wanted, found, steps);
    }
    found
}

/// The same of a branch, whose atom may cover some of what is wanted. The mask is that beside the kid: most branches are
/// passed over by it, or by the least number behind them, so nothing else of them is read.
#[cycle(walking)]
fn look<L: Ledger>(
    tree: &KeyTree,
    kid: &Kid,
    mask: u64,
    wanted: &Wanted,
    best: u64,
    steps: &mut Steps<L>,
) -> u64
    requires tells { TellsOfBranch tree.now kid.now }
    requires own { IsWithin (gives_of (branch_to tree.now kid.now.place).atom) mask }
    requires behind { IsWithin (place_at tree.now kid.now.place).below mask }
    ensures found { IsLeastFound tree.now kid.now.place
        (λ rest. Covers ((branch_to tree.now kid.now.place).atom ∷ rest) wanted.now) best result }
    ensures cost { (each : ℕ) → length wanted.now ≤ each
        → Visits (IsAtOrBehind tree.now kid.now.place) each steps.old steps.new }
{
    prints_are_right();
    visits_go_on();
    if !may_lead(tree, kid, mask, wanted) {
        return best;
    }
    let atom = tree.atom(kid.place);
    if u64::from(kid.least) >= best {
        return best;
    }
    if !wanted.has_form(kid.hash) {
        return enter(tree, kid.place, wanted, best, steps);
    }
    let left = wanted.without(atom, kid.hash, steps);
    if left.is_empty() {
        return u64::from(kid.least);
    }
    enter(tree, kid.place, &left, best, steps)
}

/// The same of a place, behind which nothing is looked at where its mask lacks what is wanted.
#[cycle(walking)]
fn enter<L: Ledger>(
    tree: &KeyTree,
    place: u32,
    wanted: &Wanted,
    best: u64,
    steps: &mut Steps<L>,
) -> u64
    requires { place < length tree.now.places }
    ensures found { IsLeastFound tree.now place (λ rest. Covers rest wanted.now) best result }
    ensures cost { (each : ℕ) → length wanted.now ≤ each → Visits (IsBehind tree.now place) each steps.old steps.new }
{
    if !may_cover(tree, place, wanted) {
        return best;
    }
    walk(tree, place, wanted, best, steps)
}

/// Whether the atom of a branch and those behind its place may cover all that is wanted, as the mask beside it tells.
fn may_lead(tree: &KeyTree, kid: &Kid, mask: u64, wanted: &Wanted) -> bool
    requires tells { TellsOfBranch tree.now kid.now }
    requires own { IsWithin (gives_of (branch_to tree.now kid.now.place).atom) mask }
    requires behind { IsWithin (place_at tree.now kid.now.place).below mask }
    ensures { result ≡ false → (number : ℕ) → ¬ PassesBehind tree.now kid.now.place
        (λ rest. Covers ((branch_to tree.now kid.now.place).atom ∷ rest) wanted.now) number }
{
    prints_are_right();
    masks_are_right();
    // The proof knows what each tree keeps where one of its methods is called.
    let _root = tree.root();
    is_within(wanted.needs(), mask)
}

/// Whether the atoms behind a place may cover all that is wanted, as its mask tells.
fn may_cover(tree: &KeyTree, place: u32, wanted: &Wanted) -> bool
    requires { place < length tree.now.places }
    ensures { result ≡ false → (number : ℕ) → ¬ PassesBehind tree.now place (λ rest. Covers rest wanted.now) number }
{
    prints_are_right();
    masks_are_right();
    is_within(wanted.needs(), tree.below(place))
}

/// The lesser of `best` and the number that the place has, if nothing is wanted.
fn with_own(tree: &KeyTree, place: u32, wanted: &Wanted, best: u64) -> u64
    requires { place < length tree.now.places }
    ensures { IsLeastSoFar tree.now place (Meets (covering wanted.now)) 0 best result }
{
    let number = tree.number(place);
    if wanted.is_empty() {
        lesser(best, number)
    } else {
        best
    }
}
