//! The tries of a layer.
ghost use Rattle.std.specs.Prelude.{◌≡◌, ◌<◌, ◌≤◌, [], ◌∷◌, ◌++◌, All, IfOk, OnOk, length};
ghost use Rattle.cert_check.specs.Decides.{IsChecked};
ghost use Rattle.cert_check.specs.Machine.{max_entries};
ghost use Rattle.layers.specs.Tries.{satisfied_keys, cores, IsLayer};

use cert_check::{Entry, Shared};
use outside::NoMemory;
use sat_trie::SatTrie;
use std::alloc::Global;
use unsat_trie::UnsatTrie;

/// The satisfied keys and the cores of a layer, each under the place of its entry.
#[derive(Drop)]
pub(crate) struct Tries {
    /// The satisfied keys.
    pub(crate) satisfied: SatTrie,
    /// The cores.
    pub(crate) refuted: UnsatTrie,
}

/// The tries of these entries.
pub(crate) fn tries_of(alloc: Global, entries: &[Shared<Entry>]) -> Result<Tries, NoMemory>
    requires { length entries.now ≤ max_entries }
    ensures { IfOk result (λ tries. IsLayer entries.now tries.satisfied tries.refuted) }
{
    let mut tries = Tries {
        satisfied: SatTrie::new(alloc),
        refuted: UnsatTrie::new(alloc),
    };
    for (place, entry) in entries.iter().enumerate() {
        hold(&mut tries, entry.get(), place as u32)?;
    }
    Ok(tries)
}

/// Holds the key of an entry under its place, which is behind those of all keys that are held.
fn hold(tries: &mut Tries, entry: &Entry, place: u32) -> Result<(), NoMemory>
    requires satisfied { All (λ p. p.number < place) tries.old.satisfied }
    requires refuted { All (λ p. p.number < place) tries.old.refuted }
    ensures satisfied { OnOk result (tries.new.satisfied
        ≡ tries.old.satisfied ++ satisfied_keys place (entry.now ∷ [])) }
    ensures refuted { OnOk result (tries.new.refuted ≡ tries.old.refuted ++ cores place (entry.now ∷ [])) }
    ensures checked { IsChecked entry.now }
{
    let key = entry.key();
    match entry {
        Entry::Sat(_) => tries.satisfied.insert(key, place),
        Entry::Unsat(_) => tries.refuted.insert(key, place),
    }
}
