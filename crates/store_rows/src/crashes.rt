//! What crashes leave on a disk.
use crate::pieces::Pieces;
use crate::recovery::listed;
use crate::spans::Spans;
use devices::MemDisk;
use row_table::RowFault;
use std::alloc::Global;

/// How many bytes the piece of a call has.
pub fn piece(alloc: Global, disk: &MemDisk, text: &str) -> Result<String, RowFault> {
    let call = text.parse::<u64>()?;
    if call >= disk.calls() {
        return Err(RowFault::NoCall);
    }
    let size = disk.piece(call);
    Ok(format!(in alloc; "{size}")?)
}

/// The bytes that a crash leaves within a call, with so many bytes of its piece; both numbers are in the text.
pub fn image(alloc: Global, disk: &MemDisk, text: &str) -> Result<Vec<u8>, RowFault> {
    let (call, kept) = text.split_once(' ').ok_or(RowFault::NoCall)?;
    let call = call.parse::<u64>()?;
    let kept = kept.parse::<u64>()?;
    image_of(disk, call, kept)
}

/// The same, of the numbers.
fn image_of(disk: &MemDisk, call: u64, kept: u64) -> Result<Vec<u8>, RowFault> {
    if call >= disk.calls() || kept > disk.piece(call) {
        return Err(RowFault::NoCall);
    }
    Ok(disk.image(call, kept)?)
}

/// For each call the entries that its images recover to, by the number of bytes that are kept of its piece.
pub fn after_each(alloc: Global, pieces: &Pieces, disk: &MemDisk) -> Result<String, RowFault> {
    let mut spans = Spans::new(alloc, "; ");
    for call in 0..disk.calls() {
        spans.push(alloc, call, within(alloc, pieces, disk, call)?)?;
    }
    spans.text(alloc)
}

/// The same for one call; only the entries where it has no piece.
fn within(alloc: Global, pieces: &Pieces, disk: &MemDisk, call: u64) -> Result<String, RowFault> {
    if call >= disk.calls() {
        return Err(RowFault::NoCall);
    }
    let size = disk.piece(call);
    if size == 0 {
        return listed(alloc, pieces, image_of(disk, call, 0)?);
    }
    let mut spans = Spans::new(alloc, ", ");
    for kept in 0..=size {
        let list = listed(alloc, pieces, image_of(disk, call, kept)?)?;
        spans.push(alloc, kept, list)?;
    }
    let text = spans.text(alloc)?;
    Ok(format!(in alloc; "keeps {text}")?)
}
