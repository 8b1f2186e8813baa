//! What crashes leave of a file.
ghost use Rattle.std.specs.Prelude.{◌<◌};

use devices::MemDisk;
use journal::scan;
use outside::NoMemory;
use row_table::RowFault;
use std::alloc::Global;

/// Looks at every image that a crash within a call on the disk may leave: of a write with each number of bytes in place. No
/// call may have failed, and the first write is that of the header. Each image has to recover to a front of what the file
/// has now, with at least the entries that were saved before the call: a write and the call behind it, its sync, save one.
/// Tells how many images there were, or the first that has less.
pub fn images(alloc: Global, disk: &MemDisk) -> Result<String, RowFault> {
    let mut count = 0u64;
    let mut written = 0u64;
    let mut synced = 0u64;
    for call in 0..disk.calls() {
        let piece = disk.piece(call);
        if let Some(kept) = first_short(alloc, disk, call, synced.saturating_sub(1))? {
            return Ok(format!(in alloc; "call {call} with {kept} bytes")?);
        }
        count = count.saturating_add(piece).saturating_add(1);
        synced = written;
        if piece > 0 {
            written = written.saturating_add(1);
        }
    }
    let saved = synced.saturating_sub(1);
    Ok(format!(in alloc; "{count} images, {saved} entries")?)
}

/// The least number of bytes in place with which a crash within the call leaves a file that lacks one of the first entries.
fn first_short(
    alloc: Global,
    disk: &MemDisk,
    call: u64,
    saved: u64,
) -> Result<Option<u64>, RowFault>
    requires { call < disk.now.calls }
{
    for kept in 0..=disk.piece(call) {
        if !holds(alloc, disk, disk.image(call, kept)?, saved)? {
            return Ok(Some(kept));
        }
    }
    Ok(None)
}

/// Whether the image recovers to a front of the disk's file, with at least so many entries.
fn holds(alloc: Global, disk: &MemDisk, image: Vec<u8>, saved: u64) -> Result<bool, RowFault> {
    let mut left = MemDisk::new(alloc, image, Vec::new(alloc));
    let (count, end) = recovered(alloc, &mut left)?;
    Ok(count >= saved && (count == 0 || is_front(left.bytes(), disk.bytes(), end)))
}

/// How many entries the disk's file recovers to, and where their run ends.
fn recovered(alloc: Global, disk: &mut MemDisk) -> Result<(u64, usize), RowFault> {
    match scan(alloc, disk) {
        Ok(recovered) => Ok((recovered.entries.len() as u64, recovered.end_at as usize)),
        Err(_) => Err(RowFault::NoCall),
    }
}

/// Whether both have the same bytes up to here.
fn is_front(one: &[u8], other: &[u8], end: usize) -> bool {
    match (one.get(..end), other.get(..end)) {
        (Some(front), Some(same)) => front == same,
        _ => false,
    }
}
