//! The call on keys of slices: `key`.
use crate::reading::condition_of;
use canoniser::{Back, Canonical, canonise};
use lin_model::{Condition, KeyAtom};
use lin_text::push_key_atom;
use outside::NoMemory;
use row_table::RowFault;
use slicer::slices;
use std::alloc::Global;

/// Of a condition: what its first slice comes to. That is the names of the slice's variables in the order of their
/// numbers in the key and, behind a bar, the atoms of the key, or `false` with the number of an atom that no integers
/// satisfy.
pub fn first_key(alloc: Global, argument: &str) -> Result<String, RowFault> {
    let condition = condition_of(alloc, argument)?;
    match first(alloc, &condition)? {
        Canonical::False(atom) => Ok(format!(in alloc; "false {atom}")?),
        Canonical::Key { key, back } => {
            let text = spelled(alloc, &condition, &back, key.atoms())?;
            Ok(String::from_utf8(text)?)
        }
    }
}

/// What the first slice of the condition comes to.
pub fn first(alloc: Global, condition: &Condition) -> Result<Canonical, RowFault> {
    let found = slices(alloc, condition)?;
    if found.is_empty() {
        return Err(RowFault::NoCall);
    }
    Ok(canonise(alloc, condition, &found[0])?)
}

/// The variables and the atoms as a text.
fn spelled(
    alloc: Global,
    condition: &Condition,
    back: &Back,
    atoms: &[KeyAtom],
) -> Result<Vec<u8>, NoMemory> {
    let mut text = Vec::new(alloc);
    for v in 0..back.width() {
        push_name(&mut text, condition, back.var(v))?;
    }
    text.push(b'|')?;
    for (number, atom) in atoms.iter().enumerate() {
        push_atom(&mut text, number == 0, atom)?;
    }
    Ok(text)
}

/// Adds the name of a variable, and a blank.
fn push_name(text: &mut Vec<u8>, condition: &Condition, var: u32) -> Result<(), NoMemory> {
    match condition.vars().get(var as usize) {
        Some(var) => text.extend_from_slice(var.name().as_bytes())?,
        None => text.push(b'?')?,
    }
    text.push(b' ')?;
    Ok(())
}

/// Adds an atom, with a blank in front of it if it is the first, and else a semicolon.
fn push_atom(text: &mut Vec<u8>, is_first: bool, atom: &KeyAtom) -> Result<(), NoMemory> {
    text.push(if is_first { b' ' } else { b';' })?;
    push_key_atom(text, atom)
}
