//! Keys that are satisfied, each under a number.
ghost use Rattle.std.specs.Prelude.{◌≡◌, ℕ, ◌+◌, ◌*◌, ◌^◌, ◌<◌, ◌≤◌, [], ◌∷◌, ◌++◌, length, All, OnOk, OnErr};
ghost use Rattle.atom_implies.specs.Implies.{Covers};
ghost use Rattle.key_tree.specs.Held.{HavePrefixes, IsLeastOf};

use crate::walk::first_of;
use atom_implies::Steps;
use key_tree::{Asked, KeyTree, prefixes_are_counted};
use lin_model::Key;
use outside::NoMemory;
use std::alloc::Global;
use std::marker::Model;
use std::sync::ledger::Ledger;

/// Keys that are satisfied, each under a number. Keys with equal fronts share nodes.
#[derive(Debug, Drop)]
pub struct SatTrie {
    tree: KeyTree,
}

impl Model for SatTrie {
    ghost use Rattle.std.specs.Prelude.{List};
    ghost use Rattle.key_tree.specs.Tree.{Pair, pairs_of};

    ghost Value = { List Pair };

    ghost view = { λ trie. pairs_of trie.tree };
}

impl SatTrie {
    /// A trie that holds no key. It takes no memory.
    pub fn new(alloc: Global) -> SatTrie
        ensures { result ≡ [] }
    {
        SatTrie {
            tree: KeyTree::new(alloc),
        }
    }

    /// Holds the key under this number, which is above all numbers held. The answer is `NoMemory` where there is no
    /// memory for what the key adds, or where the trie would have more nodes than numbers of 32 bits tell apart. All
    /// that has to grow grows before anything else changes, so then the trie stays as it was.
    pub fn insert(&mut self, key: &Key, number: u32) -> Result<(), NoMemory>
        requires { All (λ p. p.number < number) self.old }
        ensures inserted { OnOk result (self.new ≡ self.old ++ record { key = key.now; number = number } ∷ []) }
        ensures unchanged { OnErr result (self.new ≡ self.old) }
    {
        self.tree.insert(key, number)
    }

    /// How many nodes the trie has: lists of atoms, other than the empty one, that are prefixes of keys held.
    pub fn nodes(&self) -> u64
        ensures prefixes { HavePrefixes self.now result }
        ensures few { result < 2 ^ 32 }
    {
        self.tree.nodes()
    }

    /// The least number under which the very key is held, or none. It takes no steps and no memory.
    pub fn find(&self, key: &Key) -> Option<u32>
        ensures { IsLeastOf (λ held. held ≡ key.now) self.now result }
    {
        self.tree.find(key)
    }

    /// The least number of a key held that covers the key: each atom of the key is implied by some atom of the one held.
    /// None where none covers it. It takes at most one step for each node and each atom of the key, and no memory.
    pub fn first<L: Ledger>(&self, key: &Key, steps: &mut Steps<L>) -> Option<u32>
        ensures first { IsLeastOf (λ held. Covers held key.now) self.now result }
        ensures cost { (nodes : ℕ) → HavePrefixes self.now nodes → steps.new ≤ steps.old + nodes * length key.now }
    {
        self.first_for(&Asked::of(key), steps)
    }

    /// The same of a key that was made ready for being looked up, maybe in more than one trie.
    pub fn first_for<L: Ledger>(&self, asked: &Asked, steps: &mut Steps<L>) -> Option<u32>
        ensures first { IsLeastOf (λ held. Covers held asked.now) self.now result }
        ensures cost { (nodes : ℕ) → HavePrefixes self.now nodes → steps.new ≤ steps.old + nodes * length asked.now }
    {
        prefixes_are_counted();
        let _nodes = self.tree.nodes();
        first_of(&self.tree, asked, steps)
    }
}
