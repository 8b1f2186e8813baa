//! The order of canonical atoms.

ghost use Rattle.std.specs.Prelude.{◌≡◌};
ghost use Rattle.lin_model.specs.AtomOrder.{compare_atoms, compare_forms, IsAtomOrder};

use crate::form::FormTerm;
use crate::key_atom::KeyAtom;
use std::cmp::Ordering;

/// Compares two atoms by form, then by the code of the op, then by constant. Forms compare term by term, the variable
/// before the coefficient, and a proper prefix comes before.
pub fn cmp_atoms(a: &KeyAtom, b: &KeyAtom) -> Ordering
    ensures { result ≡ compare_atoms a.now b.now }
{
    cmp_forms(a.form().terms(), b.form().terms())
        .then(a.op().code().cmp(&b.op().code()))
        .then(a.constant().cmp(&b.constant()))
}

/// Compares two forms as lists of terms.
fn cmp_forms(a: &[FormTerm], b: &[FormTerm]) -> Ordering
    ensures { result ≡ compare_forms a.now b.now }
{
    a.cmp(b)
}

/// The law that the order of atoms is total, and that it tells apart all atoms that differ.
pub fn order_is_total()
    ensures { IsAtomOrder }
{}
