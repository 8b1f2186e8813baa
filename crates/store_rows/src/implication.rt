//! The call on implication: `implied`.
use crate::reading::{atom_of, halves};
use atom_implies::{Steps, implies};
use lin_model::KeyAtom;
use row_table::RowFault;
use std::alloc::Global;
use std::sync::ledger::Ledger;

/// Of `ATOM | FORM`: the tests of the form with constants from -2 to 2 that the atom implies, for each comparison its
/// constants, or `none`.
pub fn implied<L: Ledger>(
    alloc: Global,
    argument: &str,
    steps: &mut Steps<L>,
) -> Result<String, RowFault> {
    let (atom, form) = halves(argument);
    let atom = atom_of(alloc, atom)?;
    let mut text = String::new(alloc);
    for comparison in ["<=", ">=", "=", "!="] {
        let found = constants(alloc, &atom, form, comparison, steps)?;
        push_constants(&mut text, comparison, found.as_str())?;
    }
    if text.is_empty() {
        text.push_str("none")?;
    }
    Ok(text)
}

/// The constants with which the atom implies this comparison of the form, a blank in front of each.
fn constants<L: Ledger>(
    alloc: Global,
    atom: &KeyAtom,
    form: &str,
    comparison: &str,
    steps: &mut Steps<L>,
) -> Result<String, RowFault> {
    let mut text = String::new(alloc);
    for constant in -2..3 {
        let other = format!(in alloc; "{form} {comparison} {constant}")?;
        if implies(atom, &atom_of(alloc, other.as_str())?, steps) {
            text.push_str(&format!(in alloc; " {constant}")?)?;
        }
    }
    Ok(text)
}

/// Adds a comparison with its constants, if there are any.
fn push_constants(text: &mut String, comparison: &str, constants: &str) -> Result<(), RowFault> {
    if constants.is_empty() {
        return Ok(());
    }
    if !text.is_empty() {
        text.push_str(", ")?;
    }
    text.push_str(comparison)?;
    Ok(text.push_str(constants)?)
}
