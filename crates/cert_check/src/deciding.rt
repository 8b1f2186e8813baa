//! Whether an entry decides a key (after Jia, Ghezzi and Ying, "GreenTrie", ISSTA 2015).
ghost use Rattle.std.specs.Prelude.{◌↔◌, ◌+◌, ◌*◌, ◌≤◌, length, Any, IsTrue};
ghost use Rattle.atom_implies.specs.Implies.{Covers, Implies};
ghost use Rattle.cert_check.specs.Decides.{Decides, key_of};

use crate::entry::{Entry, SatEntry, UnsatEntry};
use atom_implies::{Steps, implies};
use lin_model::{Key, KeyAtom};
use std::sync::ledger::Ledger;

/// Whether the entry decides the key: a satisfiable one where each atom of the key is implied by some atom of its own,
/// a core where each atom of its own is implied by some atom of the key. It takes at most as many steps as there are
/// pairs of an atom of the one and an atom of the other.
pub fn decides<L: Ledger>(entry: &Entry, key: &Key, steps: &mut Steps<L>) -> bool
    ensures exact { IsTrue result ↔ Decides entry.now key.now }
    ensures cost { steps.new ≤ steps.old + length (key_of entry.now) * length key.now }
{
    match entry {
        Entry::Sat(entry) => sat_decides(entry, key, steps),
        Entry::Unsat(entry) => core_decides(entry, key, steps),
    }
}

/// Whether a satisfiable entry decides the key: it covers it.
fn sat_decides<L: Ledger>(entry: &SatEntry, key: &Key, steps: &mut Steps<L>) -> bool
    ensures exact { IsTrue result ↔ Covers entry.now.key key.now }
    ensures cost { steps.new ≤ steps.old + length entry.now.key * length key.now }
{
    covers(entry.key(), key, steps)
}

/// Whether a core decides the key: the key covers it.
fn core_decides<L: Ledger>(entry: &UnsatEntry, key: &Key, steps: &mut Steps<L>) -> bool
    ensures exact { IsTrue result ↔ Covers key.now entry.now.key }
    ensures cost { steps.new ≤ steps.old + length entry.now.key * length key.now }
{
    covers(key, entry.key(), steps)
}

/// Whether each atom of the second key is implied by some atom of the first.
fn covers<L: Ledger>(key: &Key, other: &Key, steps: &mut Steps<L>) -> bool
    ensures exact { IsTrue result ↔ Covers key.now other.now }
    ensures cost { steps.new ≤ steps.old + length key.now * length other.now }
{
    for atom in other.atoms() {
        if !is_implied(key.atoms(), atom, steps) {
            return false;
        }
    }
    true
}

/// Whether some atom of the list implies the other one.
fn is_implied<L: Ledger>(atoms: &[KeyAtom], other: &KeyAtom, steps: &mut Steps<L>) -> bool
    ensures exact { IsTrue result ↔ Any (λ a. Implies a other.now) atoms.now }
    ensures cost { steps.new ≤ steps.old + length atoms.now }
{
    for atom in atoms {
        if implies(atom, other, steps) {
            return true;
        }
    }
    false
}
