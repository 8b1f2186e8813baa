//! The test that no integers satisfy an atom.
ghost use Rattle.std.specs.Prelude.{◌↔◌, IfOk, IsTrue};
ghost use Rattle.lin_model.specs.Conditions.{AtomNamesBelow};
ghost use Rattle.canoniser.specs.Solutions.{IsFalse};

use crate::atom_form::{AtomForm, canonical_form};
use crate::numbering::order_in;
use lin_model::Atom;
use outside::NoMemory;
use std::alloc::Global;

/// Whether no integers satisfy the atom, bounds left aside. The atom is one of a condition, so that its variables
/// are below 64.
pub fn is_false(alloc: Global, atom: &Atom) -> Result<bool, NoMemory>
    requires { AtomNamesBelow 64 atom.now }
    ensures { IfOk result (λ yes. IsTrue yes ↔ IsFalse atom.now) }
{
    let order = order_in(alloc, atom)?;
    match canonical_form(alloc, &order, atom)? {
        AtomForm::True => Ok(false),
        AtomForm::False => Ok(true),
        AtomForm::KeyAtom(_) => Ok(false),
    }
}
