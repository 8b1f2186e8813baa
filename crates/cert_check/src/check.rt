//! Making entries of keys and evidence that nobody has to trust.
ghost use Rattle.std.specs.Prelude.{◌≡◌, ◌≤◌, length, MatchOption, MatchResult};
ghost use Rattle.lin_model.specs.Key.{KeyHolds, key_width};
ghost use Rattle.cert_check.specs.Refusals.{FailsFirst, IsNotUnsat, IsPointRefusal};
ghost use Rattle.cert_check.specs.declared.entry.Entry.TheVariants.{Sat, Unsat};

use crate::entry::{Entry, SatEntry, UnsatEntry};
use crate::refused::{NotUnsat, Refused};
use lin_model::{Key, Point};
use refutation::{Tree, refutes};
use std::alloc::Global;

/// The entry of a key and a point that satisfies it. Where the point doesn't, `PointFails` names the first atom that
/// fails, and both are handed back. It takes no memory.
pub fn check_sat(key: Key, point: Point) -> Result<Entry, (Refused, Key, Point)>
    requires { length point ≡ key_width key }
    ensures { MatchResult result
        (λ entry. entry ≡ Sat (record { key = key; point = point }))
        (λ refusal. IsPointRefusal key point refusal.0 × (refusal.1 ≡ key) × (refusal.2 ≡ point)) }
{
    match first_failing(&key, &point) {
        Some(atom) => Err((Refused::PointFails(atom), key, point)),
        None => Ok(Entry::Sat(SatEntry::new(key, point))),
    }
}

/// The number of the first atom that fails at the point.
fn first_failing(key: &Key, point: &Point) -> Option<u32>
    requires { key_width key.now ≤ length point.now }
    ensures { MatchOption result (KeyHolds key.now point.now) (FailsFirst key.now point.now) }
{
    for (number, atom) in key.atoms().iter().enumerate() {
        if !atom.holds(point) {
            return Some(number as u32);
        }
    }
    None
}

/// The entry of a key and a tree that refutes it. Where the tree doesn't, the refusal is that of `refutes`, and both
/// are handed back.
pub fn check_unsat(alloc: Global, key: Key, tree: Tree) -> Result<Entry, (NotUnsat, Key, Tree)>
    ensures { MatchResult result
        (λ entry. entry ≡ Unsat (record { key = key; tree = tree }))
        (λ refusal. IsNotUnsat key tree refusal.0 × (refusal.1 ≡ key) × (refusal.2 ≡ tree)) }
{
    match refutes(alloc, &key, tree.nodes(), tree.terms()) {
        Ok(()) => Ok(Entry::Unsat(UnsatEntry::new(key, tree))),
        Err(fault) => Err((NotUnsat::from(fault), key, tree)),
    }
}
