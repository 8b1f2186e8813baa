//! The calls on frames, files and disks.
use crate::bench::Bench;
use crate::crashes::{after_each, image, piece};
use crate::frames::{entry, told, told_of_cuts, written};
use crate::pieces::{Pieces, hex};
use crate::recovery::{appended_to_cuts, listed, scanned, with_each_fault};
use row_table::RowFault;
use std::alloc::Global;

/// Named pieces of bytes, and a disk with a journal.
#[derive(Drop)]
pub struct Machine {
    pieces: Pieces,
    bench: Bench,
}

impl Machine {
    /// No names, and no disk.
    pub fn new(alloc: Global) -> Machine {
        Machine {
            pieces: Pieces::new(alloc),
            bench: Bench::Empty,
        }
    }

    /// The answer to a call on frames, files and disks.
    pub fn called(&mut self, alloc: Global, name: &str, text: &str) -> Result<String, RowFault> {
        match name {
            "name" => self.pieces.name(alloc, text),
            "disk" => self.bench.begin(alloc, &self.pieces, text),
            "open" => self.bench.open(alloc),
            "off" => self.bench.off(alloc),
            "append" => self.bench.append(alloc, text),
            "len" => self.bench.len(alloc),
            "close" => self.bench.close(alloc),
            "calls" => self.bench.calls(alloc),
            "write" => written(alloc, &self.pieces, text),
            "cuts" => self.cuts(alloc, text),
            "content" => self.pieces.spelled(alloc, self.bench.disk()?.bytes()),
            "hex" => hex(alloc, self.bench.disk()?.bytes()),
            "piece" => piece(alloc, self.bench.disk()?, text),
            "image" => self
                .pieces
                .spelled(alloc, &image(alloc, self.bench.disk()?, text)?),
            "recovers" => listed(alloc, &self.pieces, image(alloc, self.bench.disk()?, text)?),
            "crashes" => after_each(alloc, &self.pieces, self.bench.disk()?),
            _ => self.of_bytes(alloc, name, self.pieces.bytes_of(alloc, text)?),
        }
    }

    /// The answer to a call whose argument is bytes.
    fn of_bytes(&self, alloc: Global, name: &str, bytes: Vec<u8>) -> Result<String, RowFault> {
        match name {
            "frame" => told(alloc, &bytes),
            "fronts" => told_of_cuts(alloc, &bytes),
            "entry" => entry(alloc, &bytes),
            "scan" => scanned(alloc, bytes),
            "list" => listed(alloc, &self.pieces, bytes),
            "faults" => with_each_fault(alloc, &self.pieces, &bytes),
            _ => Err(RowFault::NoCall),
        }
    }

    /// Appends of an entry to each front of some bytes; the text is `BYTES + ENTRY`.
    fn cuts(&self, alloc: Global, text: &str) -> Result<String, RowFault> {
        let (bytes, entry) = text.split_once(" + ").ok_or(RowFault::NoCall)?;
        let bytes = self.pieces.bytes_of(alloc, bytes)?;
        appended_to_cuts(alloc, &self.pieces, &bytes, entry)
    }
}
