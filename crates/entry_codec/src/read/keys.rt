//! Keys.
ghost use Rattle.std.specs.Prelude.{◌≡◌};
ghost use Rattle.lin_model.specs.Key.{key_width};
ghost use Rattle.entry_codec.specs.Reading.{list_at};
ghost use Rattle.entry_codec.specs.Gives.{Gives};
ghost use Rattle.entry_codec.specs.AtomReading.{atom_at, key_at};

use super::atoms::atom_at;
use super::fields::atom_count_at;
use crate::fault::ReadFault;
use lin_model::{Key, KeyAtom};
use std::alloc::Global;

/// So many atoms, each behind those before it.
fn atom_list_at(alloc: Global, count: u16, bytes: &[u8]) -> Result<(Vec<KeyAtom>, &[u8]), ReadFault>
    ensures { Gives (λ x. (x.0.items, x.1.now)) result (list_at atom_at count bytes.now) }
{
    let mut atoms = Vec::new(alloc);
    let mut rest = bytes;
    for _ in 0..count {
        let (atom, after) = atom_at(alloc, &atoms, rest)?;
        atoms.push(atom)?;
        rest = after;
    }
    Ok((atoms, rest))
}

/// The atoms of a key, behind their number.
#[tactic(auto, unfolding(crate::specs::AtomReading::key_at))]
fn atoms_at(alloc: Global, bytes: &[u8]) -> Result<(Vec<KeyAtom>, &[u8]), ReadFault>
    ensures { Gives (λ x. (x.0.items, x.1.now)) result (key_at bytes.now) }
{
    let (count, rest) = atom_count_at(bytes)?;
    atom_list_at(alloc, count, rest)
}

/// A key.
pub(crate) fn key_at(alloc: Global, bytes: &[u8]) -> Result<(Key, &[u8]), ReadFault>
    ensures { Gives (λ x. (x.0, x.1.now)) result (key_at bytes.now) }
{
    let (atoms, rest) = atoms_at(alloc, bytes)?;
    match Key::of(atoms) {
        Ok(key) => Ok((key, rest)),
        Err(_) => unreachable!(),
    }
}
