//! What is written where a tree grows.
ghost use Rattle.std.specs.Prelude.{
  ◌≡◌,
  ◌+◌,
  ◌<◌,
  ◌≤◌,
  [],
  ◌∷◌,
  ◌++◌,
  length,
  OnOk,
  OnErr,
  set,
  slice_index_or,
};
ghost use Rattle.std.specs.Vec.{vec_capacity};
ghost use Rattle.key_tree.specs.Places.{no_place, with_kid, with_number, AreApart, AreWidened};
ghost use Rattle.key_tree.specs.Growth.{MayWiden, AreSameButMasks, AreMasked};

use crate::branch::Branch;
use crate::chain::Chain;
use crate::front::Front;
use crate::held::Held;
use crate::kid::Kid;
use crate::mask::gives_of;
use crate::place::Place;
use crate::position::position_of;
use outside::NoMemory;

/// Makes a chain part of a tree. All that has to grow grows before anything else changes.
pub(crate) fn join_chain(
    branches: &mut Vec<Branch>,
    root: &mut Place,
    others: &mut Vec<Place>,
    held: &mut Vec<Held>,
    front: Front,
    chain: Chain,
) -> Result<(), NoMemory>
    requires within { front.place < length (root.old ∷ others.old.items) }
    requires at { front.at ≤ length (slice_index_or (root.old ∷ others.old.items) front.place no_place).kids }
    requires masks { length (slice_index_or (root.old ∷ others.old.items) front.place no_place).masks
        ≡ length (slice_index_or (root.old ∷ others.old.items) front.place no_place).kids }
    ensures branches { OnOk result (branches.new.items ≡ branches.old.items ++ chain.branches.items) }
    ensures places { OnOk result (root.new ∷ others.new.items
        ≡ set (root.old ∷ others.old.items) front.place
        (with_kid front.at chain.kid chain.gives (slice_index_or (root.old ∷ others.old.items) front.place no_place))
        ++ chain.places.items) }
    ensures held { OnOk result (held.new.items ≡ held.old.items ++ chain.held ∷ []) }
    ensures unchanged { OnErr result ((branches.new.items ≡ branches.old.items) × (root.new ≡ root.old)
        × (others.new.items ≡ others.old.items) × (held.new.items ≡ held.old.items)) }
{
    let Chain {
        branches: mut more_branches,
        places: mut more_places,
        kid,
        gives,
        held: last,
    } = chain;
    branches.reserve(more_branches.len())?;
    others.reserve(more_places.len())?;
    held.reserve(1)?;
    add_kid(root, others, front.place, front.at, kid, gives)?;
    append_reserved(branches, &mut more_branches);
    append_reserved(others, &mut more_places);
    held.push_reserved(last);
    Ok(())
}

/// Moves the elements of one list behind those of another, which has the room.
fn append_reserved<T: Drop>(list: &mut Vec<T>, more: &mut Vec<T>)
    requires { length list.old.items + length more.old.items ≤ vec_capacity list.old }
    ensures { list.new.items ≡ list.old.items ++ more.old.items }
{
    let appended = list.append(more);
    prove!(appended.is_ok());
}

/// Puts a kid at this position of a place, with this mask beside it.
fn add_kid(
    root: &mut Place,
    others: &mut Vec<Place>,
    place: u32,
    at: usize,
    kid: Kid,
    mask: u64,
) -> Result<(), NoMemory>
    requires within { place < length (root.old ∷ others.old.items) }
    requires at { at ≤ length (slice_index_or (root.old ∷ others.old.items) place no_place).kids }
    requires masks { length (slice_index_or (root.old ∷ others.old.items) place no_place).masks
        ≡ length (slice_index_or (root.old ∷ others.old.items) place no_place).kids }
    ensures added { OnOk result (root.new ∷ others.new.items
        ≡ set (root.old ∷ others.old.items) place (with_kid at kid mask (slice_index_or (root.old ∷ others.old.items) place no_place))) }
    ensures unchanged { OnErr result ((root.new ≡ root.old) × (others.new.items ≡ others.old.items)) }
    ensures room { vec_capacity others.new ≡ vec_capacity others.old }
{
    if place == 0 {
        return root.add(at, kid, mask);
    }
    others[place as usize - 1].add(at, kid, mask)
}

/// Holds a number at a place, unless one is held there already.
pub(crate) fn number_place(root: &mut Place, others: &mut Vec<Place>, place: u32, number: u32)
    requires { place < length (root.old ∷ others.old.items) }
    ensures { root.new ∷ others.new.items
        ≡ set (root.old ∷ others.old.items) place (with_number number (slice_index_or (root.old ∷ others.old.items) place no_place)) }
{
    if place == 0 {
        root.hold(number);
        return;
    }
    others[place as usize - 1].hold(number);
}

/// Adds what the atoms on the way to the last place give to the masks of the places before them.
pub(crate) fn widen_to(branches: &[Branch], root: &mut Place, others: &mut Vec<Place>, last: u32)
    requires { MayWiden branches.now (root.old ∷ others.old.items) last }
    ensures same { AreSameButMasks (root.old ∷ others.old.items) (root.new ∷ others.new.items) }
    ensures masked { AreMasked branches.now (root.new ∷ others.new.items) }
{
    let mut place = last;
    let mut mask = 0;
    while place != 0 {
        let branch = &branches[place as usize - 1];
        let kid = place;
        let behind = mask;
        mask |= gives_of(&branch.atom);
        place = branch.from;
        widen_place(branches, root, others, branch, kid, behind, mask);
    }
}

/// Adds bits to the mask of the place from which a branch comes, and what is behind the kid that it leads to to the mask
/// beside that.
fn widen_place(
    branches: &[Branch],
    root: &mut Place,
    others: &mut Vec<Place>,
    branch: &Branch,
    kid: u32,
    behind: u64,
    mask: u64,
)
    requires within { branch.now.from < length (root.old ∷ others.old.items) }
    requires masks { length (slice_index_or (root.old ∷ others.old.items) branch.now.from no_place).masks
        ≡ length (slice_index_or (root.old ∷ others.old.items) branch.now.from no_place).kids }
    requires apart { AreApart (slice_index_or (root.old ∷ others.old.items) branch.now.from no_place).kids }
    ensures { AreWidened branch.now.from kid behind mask (root.old ∷ others.old.items) (root.new ∷ others.new.items) }
{
    if branch.from == 0 {
        let at = position_of(branches, root.kids(), &branch.atom);
        root.widen(at, kid, behind, mask);
        return;
    }
    let place = &mut others[branch.from as usize - 1];
    let at = position_of(branches, place.kids(), &branch.atom);
    place.widen(at, kid, behind, mask);
}
