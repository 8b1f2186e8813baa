//! Chains of new places.
ghost use Rattle.std.specs.Prelude.{◌≡◌, ◌+◌, ◌^◌, ◌<◌, length, IfOk};
ghost use Rattle.key_tree.specs.Growth.{
  IsChain,
  chain_kid,
  branches_of_chain,
  places_of_chain,
  place_before_chain,
};

use crate::branch::Branch;
use crate::held::Held;
use crate::kid::Kid;
use crate::mask::{gives_of, hash_of};
use crate::place::Place;
use lin_model::KeyAtom;
use outside::NoMemory;
use std::alloc::Global;

/// A chain of new places that is no part of a tree yet.
#[derive(Drop)]
pub(crate) struct Chain {
    /// The branches to the new places.
    pub(crate) branches: Vec<Branch>,
    /// The new places.
    pub(crate) places: Vec<Place>,
    /// The first branch, as the place sees it where the chain begins.
    pub(crate) kid: Kid,
    /// What its atom gives.
    pub(crate) gives: u64,
    /// What is held at the last place.
    pub(crate) held: Held,
}

/// The chain by these atoms behind a place of a tree that has so many places besides the root.
pub(crate) fn chain_behind(
    alloc: Global,
    from: u32,
    others: usize,
    atoms: &[KeyAtom],
    number: u32,
) -> Result<Chain, NoMemory>
    requires others { others < 2 ^ 63 }
    requires some { 0 < length atoms.now }
    requires few { length atoms.now < 2 ^ 62 }
    ensures { IfOk result (λ chain.
        IsChain from (others + 1) atoms.now number chain.branches.items chain.places.items chain.kid chain.gives chain.held) }
{
    let behind = number_behind(others, atoms.len())?;
    let next = others as u32 + 1;
    Ok(Chain {
        branches: chain_branches(alloc, from, next, atoms, number)?,
        places: chain_places(alloc, next, atoms, number)?,
        kid: kid_of(next, &atoms[0], number),
        gives: gives_of(&atoms[0]),
        held: Held {
            place: behind - 1,
            number,
        },
    })
}

/// The number behind those of the root, of so many others, and of so many more.
fn number_behind(others: usize, more: usize) -> Result<u32, NoMemory>
    requires others { others < 2 ^ 63 }
    requires more { more < 2 ^ 62 }
    ensures { IfOk result (λ n. n ≡ others + 1 + more) }
{
    match u32::try_from(others + 1 + more) {
        Ok(number) => Ok(number),
        Err(_) => Err(NoMemory),
    }
}

/// The kid for a branch by this atom to this place, behind which nothing but this number is held.
fn kid_of(place: u32, atom: &KeyAtom, number: u32) -> Kid
    ensures { result ≡ chain_kid place atom.now number }
{
    Kid {
        place,
        least: number,
        hash: hash_of(atom.form()),
    }
}

/// The branches by these atoms, one behind the other, from an older place to the places from `next` on.
fn chain_branches(
    alloc: Global,
    from: u32,
    next: u32,
    atoms: &[KeyAtom],
    number: u32,
) -> Result<Vec<Branch>, NoMemory>
    requires { next + length atoms.now < 2 ^ 32 }
    ensures { IfOk result (λ v. v.items ≡ branches_of_chain from next atoms.now number) }
{
    let mut branches = Vec::with_capacity(alloc, atoms.len())?;
    let mut from = from;
    for (count, atom) in atoms.iter().enumerate() {
        branches.push(Branch {
            from,
            atom: atom.clone()?,
            least: number,
        })?;
        from = next + count as u32;
    }
    Ok(branches)
}

/// The places from `next` on to which these atoms lead, one behind the other. The number is held at the last.
fn chain_places(
    alloc: Global,
    next: u32,
    atoms: &[KeyAtom],
    number: u32,
) -> Result<Vec<Place>, NoMemory>
    requires { next + length atoms.now < 2 ^ 32 }
    ensures { IfOk result (λ v. v.items ≡ places_of_chain next atoms.now number) }
{
    let mut places = Vec::with_capacity(alloc, atoms.len())?;
    for count in 0..atoms.len() {
        let rest = &atoms[count + 1..];
        let place = place_before(alloc, next + count as u32 + 1, rest, number)?;
        places.push(place)?;
    }
    Ok(places)
}

/// The place that begins a chain by these atoms to the places from `next` on. Without atoms the number is held there.
fn place_before(alloc: Global, next: u32, atoms: &[KeyAtom], number: u32) -> Result<Place, NoMemory>
    ensures { IfOk result (λ place. place ≡ place_before_chain next atoms.now number) }
{
    let mut place = Place::new(alloc);
    match atoms.first() {
        Some(atom) => place.add(0, kid_of(next, atom, number), gives_of(atom))?,
        None => place.hold(number),
    }
    Ok(place)
}
