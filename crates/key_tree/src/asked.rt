//! What is asked.
ghost use Rattle.std.specs.Prelude.{◌≡◌, ◌<◌, ◌≤◌, ℕ, length, map, All, IsTrue, slice_index_or};
ghost use Rattle.lin_model.specs.Key.{IsKey};
ghost use Rattle.key_tree.specs.Prints.{hash_of, needs_of, IsWithin};
ghost use Rattle.key_tree.specs.Asked.{atom_hash, no_atom};
ghost use Rattle.key_tree.specs.Runs.{IsRunOf};

use crate::mask::{hash_of as form_hash, needs_of as atom_needs};
use crate::runs::{Run, Runs};
use arrayvec::ArrayVec;
use lin_model::{Key, KeyAtom};
use std::marker::Model;

/// A key that is looked up, with what is made once for all walks: the hashes of its forms, where the atoms of one form
/// stand, and what all atoms need.
#[derive(Drop)]
pub struct Asked<'a> {
    key: &'a Key,
    hashes: ArrayVec<u32, 384>,
    runs: Runs,
    needs: u64,
}

impl<'a> Model for Asked<'a> {
    ghost use Rattle.std.specs.Prelude.{List};
    ghost use Rattle.lin_model.specs.KeyAtom.{PlainKeyAtom};
    ghost use Rattle.key_tree.specs.Asked.{IsAsked};

    ghost Value = { List PlainKeyAtom };

    ghost view = { λ asked. asked.key.now };

    ghost invariant = { λ asked. IsAsked asked.key.now asked.hashes.items asked.runs asked.needs };
}

impl<'a> Asked<'a> {
    /// The key, with the hashes of its forms.
    pub fn of(key: &'a Key) -> Asked<'a>
        ensures { result ≡ key.now }
    {
        let mut hashes = ArrayVec::new();
        for atom in key.atoms() {
            hashes.push(form_hash(atom.form()));
        }
        let runs = Runs::of(&hashes);
        let needs = needs_together(key.atoms(), &hashes);
        Asked {
            key,
            hashes,
            runs,
            needs,
        }
    }

    /// The key itself.
    pub fn key(&self) -> &Key
        ensures { result.now ≡ self.now }
    {
        self.key
    }

    /// How many atoms are asked, at most 384.
    pub fn count(&self) -> u16
        ensures count { result ≡ length self.now }
        ensures few { result ≤ 384 }
        ensures key { IsKey self.now }
    {
        self.key.atoms().len() as u16
    }

    /// The asked atom at this place.
    pub fn atom(&self, place: u16) -> &KeyAtom
        requires { place < length self.now }
        ensures { result.now ≡ slice_index_or self.now place no_atom }
    {
        &self.key.atoms()[usize::from(place)]
    }

    /// The hash of its form.
    pub fn hash(&self, place: u16) -> u32
        requires { place < length self.now }
        ensures { result ≡ atom_hash (slice_index_or self.now place no_atom) }
    {
        self.hashes[usize::from(place)]
    }

    /// A mask that is within the mask of each atom that implies it.
    pub fn needs(&self, place: u16) -> u64
        requires { place < length self.now }
        ensures { result ≡ needs_of (slice_index_or self.now place no_atom) }
    {
        atom_needs(self.atom(place), self.hash(place))
    }

    /// What all atoms need together: a mask that has what each needs, and is within each mask that has.
    pub fn all_needs(&self) -> u64
        ensures each { All (λ a. IsWithin (needs_of a) result) self.now }
        ensures least { (mask : ℕ) → All (λ a. IsWithin (needs_of a) mask) self.now → IsWithin result mask }
    {
        self.needs
    }

    /// The places among which all atoms of forms with this hash stand.
    pub fn run(&self, hash: u32) -> Run
        ensures run { IsRunOf self.now hash result }
        ensures few { length self.now ≤ 384 }
    {
        self.runs.run(hash)
    }

    /// Whether an atom of a form with this hash may be asked. The answer is no only where none is.
    pub fn has_form(&self, hash: u32) -> bool
        ensures { All (λ a. hash_of a.form ≡ hash → IsTrue result) self.now }
    {
        let run = self.run(hash);
        run.first < run.end
    }
}

/// What all of these atoms need, whose forms have these hashes.
fn needs_together(atoms: &[KeyAtom], hashes: &[u32]) -> u64
    requires { hashes.now ≡ map atom_hash atoms.now }
    ensures each { All (λ a. IsWithin (needs_of a) result) atoms.now }
    ensures least { (mask : ℕ) → All (λ a. IsWithin (needs_of a) mask) atoms.now → IsWithin result mask }
{
    let mut needs = 0;
    for (place, atom) in atoms.iter().enumerate() {
        needs |= atom_needs(atom, hashes[place]);
    }
    needs
}
