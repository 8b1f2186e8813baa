//! Frames in front of bytes, and frames of entries.
use crate::pieces::Pieces;
use crate::spans::Spans;
use crate::stored::{entry_of, text_of};
use cert_check::Entry;
use entry_codec::{read_frame, write_frame};
use row_table::RowFault;
use std::alloc::Global;

/// What is read in front of the bytes: the kind of the entry and how many bytes its frame takes, or the end.
pub fn told(alloc: Global, bytes: &[u8]) -> Result<String, RowFault> {
    match read_frame(alloc, bytes) {
        Ok((Entry::Sat(_), taken)) => Ok(format!(in alloc; "Sat {taken}")?),
        Ok((Entry::Unsat(_), taken)) => Ok(format!(in alloc; "Unsat {taken}")?),
        Err(end) => Ok(format!(in alloc; "{end:?}")?),
    }
}

/// What is read in front of each front of the bytes, from none to all of them.
pub fn told_of_cuts(alloc: Global, bytes: &[u8]) -> Result<String, RowFault> {
    let mut spans = Spans::new(alloc, "; ");
    for size in 0..=bytes.len() {
        let front = bytes.get(..size).unwrap_or(&[]);
        spans.push(alloc, size as u64, told(alloc, front)?)?;
    }
    spans.text(alloc)
}

/// The entry in front of the bytes.
pub fn entry(alloc: Global, bytes: &[u8]) -> Result<String, RowFault> {
    match read_frame(alloc, bytes) {
        Ok((entry, _)) => text_of(alloc, &entry),
        Err(_) => Err(RowFault::NoCall),
    }
}

/// The frame of the entry of a text.
pub fn written(alloc: Global, pieces: &Pieces, text: &str) -> Result<String, RowFault> {
    let entry = entry_of(alloc, text)?;
    let frame = write_frame(alloc, entry.get())?;
    pieces.spelled(alloc, &frame)
}
