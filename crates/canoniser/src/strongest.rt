//! The strongest of some atoms, as a key.
ghost use Rattle.std.specs.Prelude.{◌≡◌, ◌≤◌, ◌<◌, ◌↔◌, length, IfOk, AllPairs, Contains};
ghost use Rattle.std.specs.List.Sorted.{IsPermutation, IsSorted};
ghost use Rattle.lin_model.specs.AtomOrder.{compare_atoms};
ghost use Rattle.lin_model.specs.KeyAtom.{PlainKeyAtom};
ghost use Rattle.lin_model.specs.Key.{Ascends};
ghost use Rattle.atom_implies.specs.Implies.{Implies, Covers};
ghost use Rattle.canoniser.specs.Keys.{IsStrongest};
ghost use Rattle.canoniser.specs.Parts.{IsPartOf, StandTogether};

use crate::implied::without_implied;
use atom_implies::{Steps, table_is_right};
use lin_model::{Key, KeyAtom, cmp_atoms, order_is_total};
use outside::NoMemory;
use std::alloc::Global;
use std::marker::Brand;
use std::sync::ledger::{Blank, Ledger};

/// Those of the atoms that no other of them implies, sorted and without repeats.
pub(crate) fn strongest(alloc: Global, atoms: Vec<KeyAtom>) -> Result<Key, NoMemory>
    requires { length atoms.items ≤ 384 }
    ensures ascends { IfOk result Ascends }
    ensures just { IfOk result
        (λ key. (a : PlainKeyAtom) → Contains key a ↔ IsStrongest (Contains atoms.items) a) }
    ensures covers { IfOk result (λ key. Covers key atoms.items) }
{
    order_is_total();
    table_is_right();
    let sorted = sorted(atoms);
    let kept = unimplied::<Brand>(alloc, sorted, Blank::new(1))?;
    match Key::of(kept) {
        Ok(key) => Ok(key),
        Err(_) => unreachable!(),
    }
}

/// The atoms in their order.
fn sorted(atoms: Vec<KeyAtom>) -> Vec<KeyAtom>
    ensures permutation { IsPermutation atoms.items result.items }
    ensures sorted { IsSorted compare_atoms result.items }
{
    order_is_total();
    let mut atoms = atoms;
    atoms.sort_unstable_by(|a, b| cmp_atoms(a, b));
    atoms
}

/// The atoms that no other implies, in their order.
fn unimplied<L: Ledger>(
    alloc: Global,
    atoms: Vec<KeyAtom>,
    blank: Blank,
) -> Result<Vec<KeyAtom>, NoMemory>
    requires name { blank.name ≡ L.name }
    requires parts { blank.parts ≡ L.parts }
    requires some { 0 < blank.parts }
    requires together { StandTogether atoms.items }
    ensures part { IfOk result (λ kept. IsPartOf kept.items atoms.items) }
    ensures covers { IfOk result (λ kept. Covers kept.items atoms.items) }
    ensures apart { IfOk result (λ kept. AllPairs (λ a b. ¬ Implies a b) kept.items) }
    ensures apart_back { IfOk result (λ kept. AllPairs (λ a b. ¬ Implies b a) kept.items) }
{
    let mut steps: Steps<L> = Steps::new(blank);
    let mut kept = without_implied(alloc, atoms, &mut steps)?;
    kept.reverse();
    let mut strongest = without_implied(alloc, kept, &mut steps)?;
    strongest.reverse();
    Ok(strongest)
}
