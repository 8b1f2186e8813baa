//! A disk in memory, and the calls that every disk has.
use crate::told::{told, told_number, told_read, word};
use crate::words::{number_of, numbers_of, split};
use devices::MemDisk;
use outside::Disk;
use row_table::RowFault;
use std::alloc::Global;

/// The answer to a call of the disk in memory.
pub fn called(
    alloc: Global,
    disk: &mut MemDisk,
    call: &str,
    text: &str,
) -> Result<Vec<u8>, RowFault> {
    match call {
        "new" => begin(alloc, disk, text),
        "write_at" => write_at(alloc, disk, text),
        "bytes" => Ok(disk.bytes().to_vec(alloc)?),
        "calls" => told_number(alloc, Ok(disk.calls())),
        "starved" => told_number(alloc, Ok(disk.starved())),
        "piece" => piece(alloc, disk, text),
        "image" => image(disk, text),
        _ => called_of_any(alloc, disk, call, text),
    }
}

/// Begins a disk, as `123 1`.
fn begin(alloc: Global, disk: &mut MemDisk, text: &str) -> Result<Vec<u8>, RowFault> {
    let (bytes, failing) = split(text);
    let failing = numbers_of(alloc, failing)?;
    *disk = MemDisk::new(alloc, bytes.as_bytes().to_vec(alloc)?, failing);
    word(alloc, "new")
}

/// Writes at a place that isn't behind the end, as `3 567`.
fn write_at(alloc: Global, disk: &mut MemDisk, text: &str) -> Result<Vec<u8>, RowFault> {
    let (at, piece) = split(text);
    let at = number_of(at)?;
    if at > disk.bytes().len() as u64 {
        return Err(RowFault::NoCall);
    }
    told(alloc, disk.write_at(at, piece.as_bytes()))
}

/// The length of the piece of the call of this number.
fn piece(alloc: Global, disk: &MemDisk, text: &str) -> Result<Vec<u8>, RowFault> {
    let call = number_of(text)?;
    if call >= disk.calls() {
        return Err(RowFault::NoCall);
    }
    told_number(alloc, Ok(disk.piece(call)))
}

/// The image with so many bytes of the piece of a call, as `1 2`.
fn image(disk: &MemDisk, text: &str) -> Result<Vec<u8>, RowFault> {
    let (call, kept) = split(text);
    let call = number_of(call)?;
    let kept = number_of(kept)?;
    if call >= disk.calls() || kept > disk.piece(call) {
        return Err(RowFault::NoCall);
    }
    Ok(disk.image(call, kept)?)
}

/// The answer to a call that every disk has, but for a write.
pub fn called_of_any<D: Disk>(
    alloc: Global,
    disk: &mut D,
    call: &str,
    text: &str,
) -> Result<Vec<u8>, RowFault> {
    match call {
        "bind" => told(alloc, disk.bind(text)),
        "len" => told_number(alloc, disk.len()),
        "read_at" => read_at(alloc, disk, text),
        "sync" => told(alloc, disk.sync()),
        _ => Err(RowFault::NoCall),
    }
}

/// Reads from a place on, into a buffer that holds a text, as `0 ..`.
fn read_at<D: Disk>(alloc: Global, disk: &mut D, text: &str) -> Result<Vec<u8>, RowFault> {
    let (at, text) = split(text);
    let at = number_of(at)?;
    let mut buffer = text.as_bytes().to_vec(alloc)?;
    let outcome = disk.read_at(at, &mut buffer);
    told_read(alloc, outcome, &buffer)
}
