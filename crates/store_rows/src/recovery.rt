//! What files recover to.
use crate::pieces::{Pieces, push_word};
use crate::spans::Spans;
use crate::stored::entry_of;
use cert_check::{Entry, Shared};
use devices::MemDisk;
use journal::{Journal, Recovered, StartFault, scan};
use row_table::RowFault;
use std::alloc::Global;

/// How many entries were recovered, where their run ends, and why it ends before the file does.
pub fn recovered_text(alloc: Global, recovered: &Recovered) -> Result<String, RowFault> {
    let count = recovered.entries.len();
    let at = recovered.end_at;
    match recovered.stopped {
        None => Ok(format!(in alloc; "entries {count}, end {at}")?),
        Some(stop) => Ok(format!(in alloc; "entries {count}, stopped {at} {stop:?}")?),
    }
}

/// What these bytes recover to, or why they can't be read.
pub fn scanned(alloc: Global, bytes: Vec<u8>) -> Result<String, RowFault> {
    match scan_bytes(alloc, bytes) {
        Ok(recovered) => recovered_text(alloc, &recovered),
        Err(fault) => Ok(format!(in alloc; "{fault:?}")?),
    }
}

/// The entries that these bytes recover to, by their names.
pub fn listed(alloc: Global, pieces: &Pieces, bytes: Vec<u8>) -> Result<String, RowFault> {
    match scan_bytes(alloc, bytes) {
        Ok(recovered) => names_of(alloc, pieces, &recovered.entries),
        Err(fault) => Ok(format!(in alloc; "{fault:?}")?),
    }
}

/// Scans a disk with these bytes.
fn scan_bytes(alloc: Global, bytes: Vec<u8>) -> Result<Recovered, StartFault> {
    let mut disk = MemDisk::new(alloc, bytes, Vec::new(alloc));
    scan(alloc, &mut disk)
}

/// The names of entries, `none` where there is none.
fn names_of(alloc: Global, pieces: &Pieces, entries: &[Shared<Entry>]) -> Result<String, RowFault> {
    let mut names = String::new(alloc);
    for entry in entries {
        let name = pieces.entry_name(alloc, entry.get())?;
        push_word(&mut names, name.as_str())?;
    }
    if names.is_empty() {
        names.push_str("none")?;
    }
    Ok(names)
}

/// Recovery from these bytes with no call failing and with each of its calls failing in turn, and the file behind it.
pub fn with_each_fault(alloc: Global, pieces: &Pieces, bytes: &[u8]) -> Result<String, RowFault> {
    let mut spans = Spans::new(alloc, "; ");
    for call in 0..=calls_of_opening(alloc, bytes)? {
        spans.push(alloc, call, with_fault(alloc, pieces, bytes, call)?)?;
    }
    spans.text(alloc)
}

/// How many calls an opening of these bytes makes.
fn calls_of_opening(alloc: Global, bytes: &[u8]) -> Result<u64, RowFault> {
    let bytes = Vec::from_slice(alloc, bytes)?;
    let (_, disk) = opened(alloc, MemDisk::new(alloc, bytes, Vec::new(alloc)))?;
    Ok(disk.calls())
}

/// Recovery from these bytes with this call failing, and the file behind it.
fn with_fault(alloc: Global, pieces: &Pieces, bytes: &[u8], call: u64) -> Result<String, RowFault> {
    let content = Vec::from_slice(alloc, bytes)?;
    let failing = Vec::from_slice(alloc, &[call])?;
    let (answer, disk) = opened(alloc, MemDisk::new(alloc, content, failing))?;
    let left = left_text(alloc, pieces, bytes, disk.bytes())?;
    Ok(format!(in alloc; "{answer}, {left}")?)
}

/// The file behind some calls: `as before`, or what it is.
fn left_text(
    alloc: Global,
    pieces: &Pieces,
    before: &[u8],
    behind: &[u8],
) -> Result<String, RowFault> {
    if before == behind {
        return Ok(String::from_str(alloc, "as before")?);
    }
    let text = pieces.spelled(alloc, behind)?;
    Ok(format!(in alloc; "leaves {text}")?)
}

/// What the disk recovers to, and the disk behind it.
fn opened(alloc: Global, disk: MemDisk) -> Result<(String, MemDisk), RowFault> {
    match Journal::recover(alloc, disk) {
        Ok((journal, recovered)) => { Ok((recovered_text(alloc, &recovered)?, journal.close())) }
        Err((fault, disk)) => Ok((format!(in alloc; "{fault:?}")?, disk)),
    }
}

/// For each front of the bytes, from none to all of them: what it recovers to, what an append of the entry of a text
/// answers then, and the file behind it.
pub fn appended_to_cuts(
    alloc: Global,
    pieces: &Pieces,
    bytes: &[u8],
    entry: &str,
) -> Result<String, RowFault> {
    let mut spans = Spans::new(alloc, "; ");
    for size in 0..=bytes.len() {
        let front = bytes.get(..size).unwrap_or(&[]);
        spans.push(
            alloc,
            size as u64,
            appended_to(alloc, pieces, front, entry)?,
        )?;
    }
    spans.text(alloc)
}

/// The same for these bytes.
fn appended_to(
    alloc: Global,
    pieces: &Pieces,
    bytes: &[u8],
    entry: &str,
) -> Result<String, RowFault> {
    let entry = entry_of(alloc, entry)?;
    let disk = MemDisk::new(alloc, Vec::from_slice(alloc, bytes)?, Vec::new(alloc));
    match Journal::recover(alloc, disk) {
        Ok((mut journal, recovered)) => {
            let told = recovered_text(alloc, &recovered)?;
            let saved = journal.append(1, &entry)?;
            let text = pieces.spelled(alloc, journal.close().bytes())?;
            Ok(format!(in alloc; "{told}, {saved:?}, leaves {text}")?)
        }
        Err((fault, _)) => Ok(format!(in alloc; "{fault:?}")?),
    }
}
