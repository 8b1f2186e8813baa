//! Calls of the program over objects in memory.
use crate::arguments::words_of;
use devices::{MemDisk, MemSink, MemSource};
use green_cli::{Budget, Command, Outcome, Report, green, run_once};
use outside::{NoGate, NoMemory, Source};
use row_table::RowFault;
use std::alloc::Global;

/// A disk with an empty file.
pub fn empty_disk(alloc: Global) -> MemDisk {
    MemDisk::new(alloc, Vec::new(alloc), Vec::new(alloc))
}

/// What a call left.
#[derive(Drop)]
pub struct Left {
    /// The status.
    pub status: u8,
    /// What the sink has.
    pub output: String,
    /// The report.
    pub report: Report,
    /// The disk that the words name a file of.
    pub disk: MemDisk,
    /// The other disk.
    pub other: MemDisk,
}

/// Calls `green` with the words of a command line; the sink fails at these calls.
pub fn run<S: Source>(
    alloc: Global,
    line: &str,
    source: &mut S,
    writes: &[u64],
    (disk, other): (MemDisk, MemDisk),
) -> Result<Left, RowFault> {
    let words = words_of(alloc, line)?;
    let mut sink = MemSink::new(alloc, writes.to_vec(alloc)?);
    let outcome = green(
        alloc,
        words.as_slice(),
        source,
        &mut sink,
        disk,
        other,
        &NoGate,
    );
    left_by(alloc, outcome, &sink)
}

/// Calls `run_once` for `solve` with the usual budget and no file, over this text.
pub fn run_solve(alloc: Global, text: &str) -> Result<Left, RowFault> {
    let mut source = source_of(alloc, text, &[])?;
    let mut sink = MemSink::new(alloc, Vec::new(alloc));
    let command = Command::Solve {
        store: None,
        budget: Budget::new(4_096),
    };
    let (disk, other) = (empty_disk(alloc), empty_disk(alloc));
    let outcome = run_once(alloc, &command, &mut source, &mut sink, disk, other);
    left_by(alloc, outcome, &sink)
}

fn left_by(alloc: Global, outcome: Outcome<MemDisk>, sink: &MemSink) -> Result<Left, RowFault> {
    let output = text_of(alloc, sink)?;
    let Outcome {
        status,
        report,
        disk,
        other,
    } = outcome;
    Ok(Left {
        status,
        output,
        report,
        disk,
        other,
    })
}

/// What the sink has.
fn text_of(alloc: Global, sink: &MemSink) -> Result<String, RowFault> {
    Ok(String::from_utf8(sink.bytes().to_vec(alloc)?)?)
}

/// A source of this text that fails at these calls.
pub fn source_of(alloc: Global, text: &str, failing: &[u64]) -> Result<MemSource, NoMemory> {
    let bytes = text.as_bytes().to_vec(alloc)?;
    Ok(MemSource::new(bytes, failing.to_vec(alloc)?))
}
