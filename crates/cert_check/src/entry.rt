//! Entries: keys with the evidence that decides them.
ghost use Rattle.std.specs.Prelude.{◌≡◌};
ghost use Rattle.lin_model.specs.Key.{IsKey};
ghost use Rattle.cert_check.specs.Entries.{IsRefuted, IsSatisfied};
ghost use Rattle.cert_check.specs.Decides.{IsChecked, key_of};

use lin_model::{Key, Point};
use refutation::Tree;
use std::marker::Model;

/// A key with a point of as many values as the key's width, which satisfies it. It exists only so.
#[derive(Debug, Drop)]
pub struct SatEntry {
    key: Key,
    point: Point,
}

impl Model for SatEntry {
    ghost use Rattle.cert_check.specs.Entries.{PlainSatEntry, IsSatisfied};

    ghost Value = { PlainSatEntry };

    ghost view = { λ e. record { key = e.key; point = e.point } };

    ghost invariant = { λ e. IsSatisfied (record { key = e.key; point = e.point }) };
}

impl SatEntry {
    /// The entry of this key and this point, which satisfies it.
    pub(crate) fn new(key: Key, point: Point) -> SatEntry
        requires { IsSatisfied (record { key = key; point = point }) }
        ensures { result ≡ record { key = key; point = point } }
    {
        SatEntry { key, point }
    }

    /// The key.
    pub fn key(&self) -> &Key
        ensures key { result.now ≡ self.now.key }
        ensures is_key { IsKey self.now.key }
        ensures satisfied { IsSatisfied self.now }
    {
        known_key(&self.key)
    }

    /// A value for each variable of the key, which together satisfy it.
    pub fn point(&self) -> &Point
        ensures point { result.now ≡ self.now.point }
        ensures satisfied { IsSatisfied self.now }
    {
        &self.point
    }
}

/// A key with a tree that refutes it: a core. It exists only so.
#[derive(Debug, Drop)]
pub struct UnsatEntry {
    key: Key,
    tree: Tree,
}

impl Model for UnsatEntry {
    ghost use Rattle.cert_check.specs.Entries.{PlainUnsatEntry, IsRefuted};

    ghost Value = { PlainUnsatEntry };

    ghost view = { λ e. record { key = e.key; tree = e.tree } };

    ghost invariant = { λ e. IsRefuted (record { key = e.key; tree = e.tree }) };
}

impl UnsatEntry {
    /// The entry of this key and this tree, which refutes it.
    pub(crate) fn new(key: Key, tree: Tree) -> UnsatEntry
        requires { IsRefuted (record { key = key; tree = tree }) }
        ensures { result ≡ record { key = key; tree = tree } }
    {
        UnsatEntry { key, tree }
    }

    /// The key, which no point satisfies.
    pub fn key(&self) -> &Key
        ensures key { result.now ≡ self.now.key }
        ensures is_key { IsKey self.now.key }
        ensures refuted { IsRefuted self.now }
    {
        known_key(&self.key)
    }

    /// The tree that refutes it.
    pub fn tree(&self) -> &Tree
        ensures tree { result.now ≡ self.now.tree }
        ensures refuted { IsRefuted self.now }
    {
        &self.tree
    }
}

/// A key that is decided, with its evidence.
#[derive(Debug, Drop)]
pub enum Entry {
    /// A point satisfies the key.
    Sat(SatEntry),
    /// A tree refutes it.
    Unsat(UnsatEntry),
}

impl Entry {
    /// The key of the entry.
    pub fn key(&self) -> &Key
        ensures key { result.now ≡ key_of self.now }
        ensures checked { IsChecked self.now }
    {
        match self {
            Entry::Sat(entry) => entry.key(),
            Entry::Unsat(entry) => entry.key(),
        }
    }
}

/// The key, of which its type keeps that it is one.
fn known_key(key: &Key) -> &Key
    ensures same { result.now ≡ key.now }
    ensures is_key { IsKey key.now }
{
    let _atoms = key.atoms();
    key
}
