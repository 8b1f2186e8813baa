//! A frozen list of entries.
ghost use Rattle.std.specs.Prelude.{◌≡◌, ◌↔◌, ◌+◌, ◌*◌, ◌<◌, ◌≤◌, [], ◌∷◌, ◌++◌, Some, IfOk, IfSome, IsTrue, length, take};
ghost use Rattle.std.specs.Prelude.{slice_get};
ghost use Rattle.std.specs.Prelude.{ℕ};
ghost use Rattle.cert_check.specs.Decides.{IsFirstDeciding, NoneDecides};
ghost use Rattle.cert_check.specs.Machine.{max_entries};
ghost use Rattle.layers.specs.Layers.{DecidesMore, IsFirstAtFrom, IsFirstFrom, joined, one_layer};
ghost use Rattle.layers.specs.Tries.{LayersHaveNodes};
ghost use Rattle.layers.specs.Halving.{AreGrown, AreHalving, IsVersion, IsWithinDigits};

use crate::firsts::{Firsts, own_place, with_flag};
use crate::growth::{entries_of, kept_layers, with_entry};
use crate::laws::later_firsts_are_first;
use crate::layer::Layer;
use crate::sharing::with_last;
use atom_implies::Steps;
use cert_check::{Entry, Shared, deciding_entries_settle, entries_decide_their_keys};
use key_tree::Asked;
use lin_model::Key;
use outside::NoMemory;
use std::alloc::Global;
use std::marker::{Brand, Model};
use std::sync::ledger::{Blank, Ledger};

/// A list of at most 2^20 entries that never changes, in layers that versions share, each with its tries. Each layer is at
/// least twice as long as the next, so there are no more layers than the length has binary digits. Beside each layer stand
/// flags: of which of its entries it is known that no entry before decides their keys.
#[derive(Drop)]
pub struct Version {
    layers: Vec<Shared<Layer>>,
    firsts: Vec<Shared<Firsts>>,
    len: u32,
}

impl Model for Version {
    ghost use Rattle.std.specs.Prelude.{List};
    ghost use Rattle.cert_check.specs.declared.entry.Entry.{Entry};
    ghost use Rattle.layers.specs.Halving.{IsVersion};
    ghost use Rattle.layers.specs.Firsts.{AreFirsts};

    ghost Value = { List (List Entry) };

    ghost view = { λ version. version.layers.items };

    ghost invariant = { λ version. IsVersion version.layers.items version.len
        × AreFirsts version.layers.items version.firsts.items };
}

impl Version {
    /// The version of these entries, at most 2^20, in one layer.
    pub fn of(alloc: Global, entries: Vec<Shared<Entry>>) -> Result<Version, NoMemory>
        requires { length entries.items ≤ max_entries }
        ensures entries { IfOk result (λ version. joined version ≡ entries.items) }
        ensures layers { IfOk result (λ version. version ≡ one_layer entries.items) }
    {
        if entries.is_empty() {
            return Ok(Version {
                layers: Vec::new(alloc),
                firsts: Vec::new(alloc),
                len: 0,
            });
        }
        let len = entries.len() as u32;
        let firsts = Firsts::unset(alloc, entries.len())?;
        let layer = Layer::of(alloc, entries)?;
        Ok(Version {
            layers: with_last(alloc, &[], layer)?,
            firsts: with_last(alloc, &[], firsts)?,
            len,
        })
    }

    /// The list with the entry at its end. The layers that are less than twice as long as what is behind them become
    /// one new layer with it; this version and all others stay as they are.
    pub fn add(&self, alloc: Global, entry: Shared<Entry>) -> Result<Version, NoMemory>
        requires { length (joined self.now) < max_entries }
        ensures entries { IfOk result (λ version. joined version ≡ joined self.now ++ entry ∷ []) }
        ensures grown { IfOk result (AreGrown self.now entry) }
    {
        entries_decide_their_keys();
        self.add_seen(alloc, entry, 0)
    }

    /// The same of an entry that decides a key which none of the first `seen` entries decides. Those are not looked at.
    pub fn add_seen(
        &self,
        alloc: Global,
        entry: Shared<Entry>,
        seen: u32,
    ) -> Result<Version, NoMemory>
        requires room { length (joined self.now) < max_entries }
        requires more { DecidesMore (take seen (joined self.now)) entry }
        ensures entries { IfOk result (λ version. joined version ≡ joined self.now ++ entry ∷ []) }
        ensures grown { IfOk result (AreGrown self.now entry) }
    {
        deciding_entries_settle();
        entries_decide_their_keys();
        let kept = kept_layers(&self.layers);
        let is_first = self.is_undecided(entry.get().key(), seen);
        let firsts = with_flag(alloc, &self.firsts, kept, is_first)?;
        let layers = with_entry(alloc, &self.layers, kept, entry)?;
        Ok(Version {
            layers,
            firsts,
            len: self.len + 1,
        })
    }

    /// How many entries there are.
    pub fn len(&self) -> u32
        ensures len { result ≡ length (joined self.now) }
        ensures few { result ≤ max_entries }
    {
        self.len
    }

    /// How many layers there are: at most as many as the length has binary digits.
    pub fn layer_count(&self) -> u32
        ensures count { result ≡ length self.now }
        ensures few { IsWithinDigits result (length (joined self.now)) }
    {
        count_of(&self.layers)
    }

    /// The entry at this place, from 0.
    pub fn entry(&self, place: u32) -> &Shared<Entry>
        requires { place < length (joined self.now) }
        ensures { slice_get (joined self.now) place ≡ Some result.now }
    {
        entry_at(&self.layers, place)
    }

    /// One owner more of each entry, in their order.
    pub fn entries(&self, alloc: Global) -> Result<Vec<Shared<Entry>>, NoMemory>
        ensures { IfOk result (λ entries. entries.items ≡ joined self.now) }
    {
        entries_of(alloc, &self.layers)
    }

    /// How many lists, other than the empty one, are prefixes of satisfied keys, and how many of cores, each layer counted
    /// by itself.
    pub fn nodes(&self) -> u64
        ensures { LayersHaveNodes self.now result }
    {
        nodes_of(&self.layers)
    }

    /// The least place, from 0, of an entry that decides the key. It takes at most `nodes()` steps for each atom of the
    /// key, and no memory.
    pub fn first<L: Ledger>(&self, key: &Key, steps: &mut Steps<L>) -> Option<u32>
        ensures first { IsFirstDeciding (joined self.now) key.now result }
        ensures cost { (nodes : ℕ) → LayersHaveNodes self.now nodes → steps.new ≤ steps.old + nodes * length key.now }
    {
        self.first_from(0, key, steps)
    }

    /// The least place at or after n of an entry that decides the key. It takes no memory, and where none before n
    /// decides the key, at most `nodes()` steps for each of its atoms.
    pub fn first_from<L: Ledger>(&self, n: u32, key: &Key, steps: &mut Steps<L>) -> Option<u32>
        ensures first { IsFirstFrom n (joined self.now) key.now result }
        ensures cost { NoneDecides (take n (joined self.now)) key.now → (nodes : ℕ) → LayersHaveNodes self.now nodes
            → steps.new ≤ steps.old + nodes * length key.now }
    {
        if n >= self.len {
            return None;
        }
        if let Some(place) = self.own_from(n, key) {
            return Some(place);
        }
        let asked = Asked::of(key);
        first_in(&self.layers, n, &asked, steps)
    }

    /// The place of an entry of this key, where that is n or later and is known to be the first that decides the key.
    fn own_from(&self, n: u32, key: &Key) -> Option<u32>
        ensures { IfSome result (IsFirstAtFrom n (joined self.now) key.now) }
    {
        match own_place(&self.layers, &self.firsts, key) {
            Some(place) if place >= n => Some(place),
            _ => None,
        }
    }

    /// Whether no entry decides the key, where none of the first `seen` entries does.
    fn is_undecided(&self, key: &Key, seen: u32) -> bool
        requires { NoneDecides (take seen (joined self.now)) key.now }
        ensures { IsTrue result ↔ NoneDecides (joined self.now) key.now }
    {
        first_by::<Brand>(self, seen, key, Blank::new(1)).is_none()
    }
}

/// The least place of an entry that decides the key, where none of the first n entries does, by a ledger for the steps
/// that nobody reads.
fn first_by<L: Ledger>(version: &Version, n: u32, key: &Key, blank: Blank) -> Option<u32>
    requires name { blank.name ≡ L.name }
    requires parts { blank.parts ≡ L.parts }
    requires some { 0 < blank.parts }
    requires none { NoneDecides (take n (joined version.now)) key.now }
    ensures { IsFirstDeciding (joined version.now) key.now result }
{
    later_firsts_are_first();
    let mut steps: Steps<L> = Steps::new(blank);
    version.first_from(n, key, &mut steps)
}

/// How many layers there are.
fn count_of(layers: &[Shared<Layer>]) -> u32
    requires halving { AreHalving layers.now }
    requires few { length (joined layers.now) ≤ max_entries }
    ensures count { result ≡ length layers.now }
    ensures few { IsWithinDigits result (length (joined layers.now)) }
{
    layers.len() as u32
}

/// How many prefixes the layers have, each by itself, all together.
fn nodes_of(layers: &[Shared<Layer>]) -> u64
    requires halving { AreHalving layers.now }
    requires few { length (joined layers.now) ≤ max_entries }
    ensures { LayersHaveNodes layers.now result }
{
    let mut nodes = 0;
    for layer in layers {
        nodes += layer.get().nodes();
    }
    nodes
}

/// The least place at or after n of an entry of the layers that decides the key.
fn first_in<L: Ledger>(
    layers: &[Shared<Layer>],
    n: u32,
    asked: &Asked,
    steps: &mut Steps<L>,
) -> Option<u32>
    requires { length (joined layers.now) ≤ max_entries }
    ensures first { IsFirstFrom n (joined layers.now) asked.now result }
    ensures cost { NoneDecides (take n (joined layers.now)) asked.now → (nodes : ℕ) → LayersHaveNodes layers.now nodes
        → steps.new ≤ steps.old + nodes * length asked.now }
{
    let mut start = 0;
    for layer in layers {
        let layer = layer.get();
        if let Some(place) = layer.first_from(n.saturating_sub(start), asked, steps) {
            return Some(start + place);
        }
        start += layer.len();
    }
    None
}

/// The entry at this place of the layers.
fn entry_at(layers: &[Shared<Layer>], place: u32) -> &Shared<Entry>
    requires { place < length (joined layers.now) }
    ensures { slice_get (joined layers.now) place ≡ Some result.now }
{
    let mut rest = place;
    for layer in layers {
        let layer = layer.get();
        if rest < layer.len() {
            return &layer.entries()[rest as usize];
        }
        rest -= layer.len();
    }
    unreachable!()
}
