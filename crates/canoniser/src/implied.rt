//! Leaves out the atoms that others imply.
ghost use Rattle.std.specs.Prelude.{◌≡◌, ◌↔◌, IsTrue, IfOk, AllPairs, Any};
ghost use Rattle.atom_implies.specs.Implies.{Implies, Covers};
ghost use Rattle.canoniser.specs.Parts.{IsPartOf, StandTogether, StandAtEnd};

use atom_implies::{Steps, implies};
use lin_model::KeyAtom;
use outside::NoMemory;
use std::alloc::Global;
use std::sync::ledger::Ledger;

/// The atoms that no earlier one implies, in their order.
pub(crate) fn without_implied<L: Ledger>(
    alloc: Global,
    atoms: Vec<KeyAtom>,
    steps: &mut Steps<L>,
) -> Result<Vec<KeyAtom>, NoMemory>
    requires { StandTogether atoms.items }
    ensures part { IfOk result (λ kept. IsPartOf kept.items atoms.items) }
    ensures covers { IfOk result (λ kept. Covers kept.items atoms.items) }
    ensures apart { IfOk result (λ kept. AllPairs (λ a b. ¬ Implies a b) kept.items) }
{
    let mut kept = Vec::new(alloc);
    for atom in atoms {
        if !is_implied(&kept, &atom, steps) {
            kept.push(atom)?;
        }
    }
    Ok(kept)
}

/// Whether one of these atoms implies this one. Those of its form stand at the end.
fn is_implied<L: Ledger>(atoms: &[KeyAtom], atom: &KeyAtom, steps: &mut Steps<L>) -> bool
    requires { StandAtEnd atom.now.form atoms.now }
    ensures { IsTrue result ↔ Any (λ b. Implies b atom.now) atoms.now }
{
    for k in (0..atoms.len()).rev() {
        let other = &atoms[k];
        if !other.form().equals(atom.form()) {
            return false;
        }
        if implies(other, atom, steps) {
            return true;
        }
    }
    false
}
