//! Keys: what a slice of a condition comes to, as a sorted list of canonical atoms.

ghost use Rattle.std.specs.Prelude.{◌≡◌, ◌≤◌, ◌↔◌, length, IsOk, IsTrue, IfOk, IfErr};
ghost use Rattle.std.specs.List.{All};
ghost use Rattle.lin_model.specs.KeyAtom.{IsCanonical};
ghost use Rattle.lin_model.specs.Key.{FitsKey, IsKey, Ascends, key_width, KeyHolds};
ghost use Rattle.lin_model.specs.Point.{AreSides};

use crate::key_atom::{KeyAtom, MAX_KEY_VARS};
use crate::order::cmp_atoms;
use crate::point::Point;
use std::alloc::AllocError;
use std::marker::Model;

/// The most atoms of a key.
pub const MAX_KEY_ATOMS: usize = 384;

/// At most 384 canonical atoms, each before the next in the order of atoms.
#[derive(Debug, Drop)]
pub struct Key {
    atoms: Vec<KeyAtom>,
    width: u8,
}

impl Model for Key {
    ghost use Rattle.std.specs.Prelude.{◌≡◌, ◌≤◌, List};
    ghost use Rattle.lin_model.specs.KeyAtom.{PlainKeyAtom};
    ghost use Rattle.lin_model.specs.declared.key_atom.TheConstants.{MAX_KEY_VARS};
    ghost use Rattle.lin_model.specs.Key.{IsKey, key_width};

    ghost Value = { List PlainKeyAtom };

    ghost view = { λ k. k.atoms.items };

    ghost invariant = { λ k. IsKey k.atoms.items × (k.width ≡ key_width k.atoms.items) × (k.width ≤ MAX_KEY_VARS) };
}

impl Clone for Key {
    /// A copy equals what it was made of.
    ghost is_clone = { λ key copy. copy ≡ key };

    fn clone(&self) -> Result<Key, AllocError> {
        Ok(Key {
            atoms: self.atoms.clone()?,
            width: self.width,
        })
    }
}

impl Key {
    /// The key of these atoms, or the list back where they don't ascend strictly or are more than 384.
    pub fn of(atoms: Vec<KeyAtom>) -> Result<Key, Vec<KeyAtom>>
        ensures fits { IsOk result ↔ FitsKey atoms.items }
        ensures key { IfOk result (λ key. key ≡ atoms.items) }
        ensures handed_back { IfErr result (λ back. back.items ≡ atoms.items) }
    {
        if fits_key(&atoms) {
            let width = width_of(&atoms);
            Ok(Key { atoms, width })
        } else {
            Err(atoms)
        }
    }

    /// The atoms, in their order.
    pub fn atoms(&self) -> &[KeyAtom]
        ensures atoms { result.now ≡ self.now }
        ensures key { IsKey self.now }
    {
        &self.atoms
    }

    /// Gives the atoms back.
    pub fn into_atoms(self) -> Vec<KeyAtom>
        ensures atoms { result.items ≡ self }
    {
        let Key { atoms, .. } = self;
        atoms
    }

    /// One more than the greatest variable number, 0 where there is no atom.
    pub fn width(&self) -> u8
        ensures width { result ≡ key_width self.now }
        ensures within { result ≤ MAX_KEY_VARS }
    {
        self.width
    }

    /// Whether both have the same atoms, one by one.
    pub fn equals(&self, other: &Key) -> bool
        ensures { IsTrue result ↔ (self.now ≡ other.now) }
    {
        same_atoms(&self.atoms, &other.atoms)
    }

    /// Whether every atom holds at the point.
    pub fn holds(&self, point: &Point) -> bool
        requires { key_width self.now ≤ length point.now }
        ensures { IsTrue result ↔ KeyHolds self.now point.now }
    {
        self.holds_at(point.values())
    }

    /// Whether every atom holds where the variables have these values, each at the place of its number. They may be
    /// as large as the sides of a box, so no point has to be made of them.
    pub fn holds_at(&self, values: &[i64]) -> bool
        requires small { AreSides values.now }
        requires wide { key_width self.now ≤ length values.now }
        ensures { IsTrue result ↔ KeyHolds self.now values.now }
    {
        atoms_hold(self.atoms(), values)
    }

    /// The law that a key keeps its limits: at most 384 canonical atoms, each before the next.
    pub fn keeps_limits(&self)
        ensures { IsKey self.now }
    {
        let _width = self.width;
    }
}

/// Whether these atoms ascend strictly and are at most 384.
fn fits_key(atoms: &[KeyAtom]) -> bool
    ensures { IsTrue result ↔ FitsKey atoms.now }
{
    atoms.len() <= MAX_KEY_ATOMS && ascends(atoms)
}

/// Whether each atom comes before the next.
fn ascends(atoms: &[KeyAtom]) -> bool
    ensures { IsTrue result ↔ Ascends atoms.now }
{
    atoms
        .windows(2)
        .all(|pair| cmp_atoms(&pair[0], &pair[1]).is_lt())
}

/// One more than the greatest variable number of the atoms, 0 where there is none.
fn width_of(atoms: &[KeyAtom]) -> u8
    ensures width { result ≡ key_width atoms.now }
    ensures within { result ≤ MAX_KEY_VARS }
    ensures canonical { All IsCanonical atoms.now }
{
    let mut width = 0;
    for atom in atoms {
        width = atom.width().max(width);
    }
    width
}

/// Whether every atom holds at these values.
fn atoms_hold(atoms: &[KeyAtom], values: &[i64]) -> bool
    requires small { AreSides values.now }
    requires wide { key_width atoms.now ≤ length values.now }
    ensures { IsTrue result ↔ KeyHolds atoms.now values.now }
{
    for atom in atoms {
        if !atom.holds_at(values) {
            return false;
        }
    }
    true
}

/// Whether the atoms are the same, one by one.
fn same_atoms(a: &[KeyAtom], b: &[KeyAtom]) -> bool
    ensures { IsTrue result ↔ (a.now ≡ b.now) }
{
    if a.len() != b.len() {
        return false;
    }
    for (k, atom) in a.iter().enumerate() {
        if !atom.equals(&b[k]) {
            return false;
        }
    }
    true
}
