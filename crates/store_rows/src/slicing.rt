//! The call on slices: `slices`.
use crate::reading::condition_of;
use outside::NoMemory;
use row_table::RowFault;
use slicer::{Slice, slices};
use std::alloc::{AllocError, Global};

/// Of a condition: its slices. Where they come to something else when they are taken apart and put together again, both
/// are told.
pub fn slices_of(alloc: Global, argument: &str) -> Result<String, RowFault> {
    let condition = condition_of(alloc, argument)?;
    let found = slices(alloc, &condition)?;
    let text = spelled(alloc, &found)?;
    let again = spelled(alloc, &put_together(alloc, found)?)?;
    if text.as_str() != again.as_str() {
        return Ok(format!(in alloc; "{text}, then {again}")?);
    }
    Ok(text)
}

/// Slices as a text, each with the numbers of its variables and, behind a bar, of its atoms: `(0 1 | 0)`; `none` where
/// there are none.
fn spelled(alloc: Global, slices: &[Slice]) -> Result<String, AllocError> {
    if slices.is_empty() {
        return String::from_str(alloc, "none");
    }
    let mut text = String::new(alloc);
    for slice in slices {
        push_slice(alloc, &mut text, slice)?;
    }
    Ok(text)
}

fn push_slice(alloc: Global, text: &mut String, slice: &Slice) -> Result<(), AllocError> {
    text.push_str("(")?;
    for var in slice.vars() {
        text.push_str(&format!(in alloc; "{var} ")?)?;
    }
    text.push_str("|")?;
    for atom in slice.atoms() {
        text.push_str(&format!(in alloc; " {atom}")?)?;
    }
    text.push_str(")")
}

/// The slices, each made again from its parts.
fn put_together(alloc: Global, slices: Vec<Slice>) -> Result<Vec<Slice>, NoMemory> {
    let mut again = Vec::new(alloc);
    for slice in slices {
        let (vars, atoms) = slice.into_parts();
        again.push(Slice::new(vars, atoms))?;
    }
    Ok(again)
}
