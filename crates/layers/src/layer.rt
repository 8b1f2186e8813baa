//! One layer of a list of entries.
ghost use Rattle.std.specs.Prelude.{◌≡◌, ◌↔◌, ◌+◌, ◌*◌, ◌^◌, ◌<◌, ◌≤◌, ℕ, [], Some, All, IfOk, IsSomeAnd, IsTrue, length, slice_get, take};
ghost use Rattle.cert_check.specs.Machine.{max_entries};
ghost use Rattle.cert_check.specs.Decides.{IsChecked, NoneDecides, IsFirst, key_of};
ghost use Rattle.layers.specs.Layers.{IsFirstFrom};
ghost use Rattle.layers.specs.Tries.{LayerHasNodes};

use crate::tries::{Tries, tries_of};
use atom_implies::Steps;
use cert_check::{Entry, Shared, decides, deciding_entries_settle, entries_decide_their_keys};
use key_tree::Asked;
use lin_model::Key;
use outside::NoMemory;
use sat_trie::SatTrie;
use std::alloc::Global;
use std::marker::Model;
use std::sync::ledger::Ledger;
use unsat_trie::UnsatTrie;

/// At most 2^20 entries, in their order, with a trie of the keys that are satisfied and one of the cores.
#[derive(Drop)]
pub struct Layer {
    entries: Vec<Shared<Entry>>,
    satisfied: SatTrie,
    refuted: UnsatTrie,
}

impl Model for Layer {
    ghost use Rattle.std.specs.Prelude.{List};
    ghost use Rattle.cert_check.specs.declared.entry.Entry.{Entry};
    ghost use Rattle.layers.specs.Tries.{IsLayer};

    ghost Value = { List Entry };

    ghost view = { λ layer. layer.entries.items };

    ghost invariant = { λ layer. IsLayer layer.entries.items layer.satisfied layer.refuted };
}

impl Layer {
    /// The layer of these entries, at most 2^20.
    pub fn of(alloc: Global, entries: Vec<Shared<Entry>>) -> Result<Layer, NoMemory>
        requires { length entries.items ≤ max_entries }
        ensures entries { IfOk result (λ layer. layer ≡ entries.items) }
        ensures checked { IfOk result (λ layer. All IsChecked layer) }
    {
        let Tries { satisfied, refuted } = tries_of(alloc, &entries)?;
        Ok(Layer {
            entries,
            satisfied,
            refuted,
        })
    }

    /// The entries, in their order.
    pub fn entries(&self) -> &[Shared<Entry>]
        ensures entries { result.now ≡ self.now }
        ensures few { length self.now ≤ max_entries }
    {
        &self.entries
    }

    /// How many entries there are.
    pub fn len(&self) -> u32
        ensures len { result ≡ length self.now }
        ensures few { length self.now ≤ max_entries }
    {
        self.entries.len() as u32
    }

    /// Whether there is no entry.
    pub fn is_empty(&self) -> bool
        ensures { IsTrue result ↔ (self.now ≡ []) }
    {
        self.entries.is_empty()
    }

    /// How many lists, other than the empty one, are prefixes of the satisfied keys, and how many of the cores, together.
    pub fn nodes(&self) -> u64
        ensures nodes { LayerHasNodes self.now result }
        ensures few { result < 2 ^ 33 }
    {
        self.satisfied.nodes() + self.refuted.nodes()
    }

    /// The least place, from 0, of an entry whose key is this one, or none. It takes no steps and no memory.
    pub fn find(&self, key: &Key) -> Option<u32>
        ensures { IsFirst (λ e. key_of e ≡ key.now) self.now result }
    {
        entries_decide_their_keys();
        deciding_entries_settle();
        match self.satisfied.find(key) {
            Some(place) => Some(place),
            None => self.refuted.find(key),
        }
    }

    /// The least place at or after n, from 0, of an entry that decides the key. The tries are walked where the layer is
    /// longer than n; only where they find a place before n are the entries from n on tried one after another. So where
    /// none before n decides the key, it takes at most `nodes()` steps for each of its atoms.
    pub fn first_from<L: Ledger>(&self, n: u32, asked: &Asked, steps: &mut Steps<L>) -> Option<u32>
        ensures first { IsFirstFrom n self.now asked.now result }
        ensures cost { NoneDecides (take n self.now) asked.now → (nodes : ℕ) → LayerHasNodes self.now nodes
            → steps.new ≤ steps.old + nodes * length asked.now }
    {
        if n >= self.len() {
            return None;
        }
        let first = self.first(asked, steps);
        if is_before(first, n) {
            return self.scan_from(n, asked.key(), steps);
        }
        first
    }

    /// The least place of an entry that decides the key. Where a satisfied key of the layer decides it, no core does: the
    /// key has a point.
    fn first<L: Ledger>(&self, asked: &Asked, steps: &mut Steps<L>) -> Option<u32>
        ensures first { IsFirstFrom 0 self.now asked.now result }
        ensures cost { (nodes : ℕ) → LayerHasNodes self.now nodes → steps.new ≤ steps.old + nodes * length asked.now }
    {
        deciding_entries_settle();
        match self.satisfied.first_for(asked, steps) {
            Some(place) => Some(place),
            None => self.refuted.first_for(asked, steps),
        }
    }

    /// The least place at or after n of an entry that decides the key, each entry being tried in turn.
    fn scan_from<L: Ledger>(&self, n: u32, key: &Key, steps: &mut Steps<L>) -> Option<u32>
        ensures { IsFirstFrom n self.now key.now result }
    {
        for place in n..self.len() {
            if decides(self.entry(place), key, steps) {
                return Some(place);
            }
        }
        None
    }

    /// The entry at this place.
    fn entry(&self, place: u32) -> &Entry
        requires { place < length self.now }
        ensures { slice_get self.now place ≡ Some result.now }
    {
        self.entries[place as usize].get()
    }
}

/// Whether there is a place, and it is before n.
fn is_before(place: Option<u32>, n: u32) -> bool
    ensures { IsTrue result ↔ IsSomeAnd place (λ p. p < n) }
{
    match place {
        Some(place) => place < n,
        None => false,
    }
}
