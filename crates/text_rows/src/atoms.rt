//! Texts of canonical atoms: what is read of them.
use crate::faults::{told, told_with_place};
use lin_model::KeyAtom;
use lin_text::{ReadError, TextKind, read_atom, read_atom_at, read_atom_from, write_atom};
use row_table::RowFault;
use std::alloc::Global;

/// How many bytes the word has, with the blank behind it, that may stand before an atom.
const WORD: usize = 5;

/// What is read of the text of one atom, written again, or its first fault.
pub fn read(alloc: Global, text: &[u8]) -> Result<Vec<u8>, RowFault> {
    match read_atom(alloc, text) {
        Ok(atom) => Ok(write_atom(alloc, &atom)?),
        Err(fault) => told(alloc, fault),
    }
}

/// What is read behind the first five bytes, to the end of the line, written again, or the first fault. Where it matters
/// whether the text is a proof, both answers are told, the one in a proof first.
pub fn read_to_end(alloc: Global, text: &[u8]) -> Result<Vec<u8>, RowFault> {
    let mut inside = told_to_end(alloc, text, true)?;
    let outside = told_to_end(alloc, text, false)?;
    if inside != outside {
        inside.extend_from_slice(b" | ")?;
        inside.extend_from_slice(&outside)?;
    }
    Ok(inside)
}

/// What is read behind the first five bytes, to the end of the line, in a proof or not.
fn told_to_end(alloc: Global, text: &[u8], in_proof: bool) -> Result<Vec<u8>, RowFault> {
    let at = text.len().min(WORD);
    match read_atom_at(alloc, text, in_proof, at) {
        Ok(atom) => Ok(write_atom(alloc, &atom)?),
        Err(error) => told_with_place(alloc, error),
    }
}

/// What is read behind the first five bytes of a line of a proof, whatever stands behind it, written again behind the
/// place of its end, or the first fault.
pub fn read_with_end(alloc: Global, text: &[u8]) -> Result<Vec<u8>, RowFault> {
    let at = text.len().min(WORD);
    told_with_end(alloc, read_atom_from(alloc, text, true, at))
}

/// What is told of an atom that was read, and of the place of its end.
fn told_with_end(
    alloc: Global,
    read: Result<(KeyAtom, usize), ReadError<TextKind>>,
) -> Result<Vec<u8>, RowFault> {
    match read {
        Ok((atom, end)) => {
            let mut answer = format!(in alloc; "{end} ")?.into_bytes();
            answer.extend_from_slice(&write_atom(alloc, &atom)?)?;
            Ok(answer)
        }
        Err(error) => told_with_place(alloc, error),
    }
}
