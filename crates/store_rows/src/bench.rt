//! A disk, and a journal over it.
use crate::pieces::Pieces;
use crate::recovery::recovered_text;
use crate::stored::entry_of;
use devices::MemDisk;
use journal::Journal;
use row_table::RowFault;
use std::alloc::Global;
use std::mem;

/// A disk in memory, by itself or with a journal over it.
#[derive(Drop)]
pub enum Bench {
    /// There is no disk.
    Empty,
    /// A disk by itself.
    Disk(MemDisk),
    /// A journal over a disk.
    Journal(Journal<MemDisk>),
}

impl Bench {
    /// Takes the disk, which stands by itself.
    fn take_disk(&mut self) -> Result<MemDisk, RowFault> {
        match mem::replace(self, Bench::Empty) {
            Bench::Disk(disk) => Ok(disk),
            bench => {
                *self = bench;
                Err(RowFault::NoCall)
            }
        }
    }

    /// The disk, which stands by itself.
    pub fn disk(&self) -> Result<&MemDisk, RowFault> {
        match self {
            Bench::Disk(disk) => Ok(disk),
            _ => Err(RowFault::NoCall),
        }
    }

    /// The journal.
    fn journal(&mut self) -> Result<&mut Journal<MemDisk>, RowFault> {
        match self {
            Bench::Journal(journal) => Ok(journal),
            _ => Err(RowFault::NoCall),
        }
    }

    /// Begins a disk with the bytes of a text. Behind `fails` the text may have the numbers of the calls that are to
    /// fail. The answer is how many bytes there are.
    pub fn begin(
        &mut self,
        alloc: Global,
        pieces: &Pieces,
        text: &str,
    ) -> Result<String, RowFault> {
        let (bytes, failing) = text.split_once("fails").unwrap_or((text, ""));
        let bytes = pieces.bytes_of(alloc, bytes)?;
        let size = bytes.len();
        let failing = numbers_of(alloc, failing)?;
        *self = Bench::Disk(MemDisk::new(alloc, bytes, failing));
        Ok(format!(in alloc; "{size}")?)
    }

    /// Opens the disk as a journal: what it recovers to, or the fault, after which it is a disk again.
    pub fn open(&mut self, alloc: Global) -> Result<String, RowFault> {
        match Journal::recover(alloc, self.take_disk()?) {
            Ok((journal, recovered)) => {
                *self = Bench::Journal(journal);
                recovered_text(alloc, &recovered)
            }
            Err((fault, disk)) => {
                *self = Bench::Disk(disk);
                Ok(format!(in alloc; "{fault:?}")?)
            }
        }
    }

    /// Makes a journal that is off. The answer is how many entries it has.
    pub fn off(&mut self, alloc: Global) -> Result<String, RowFault> {
        *self = Bench::Journal(Journal::off(alloc, self.take_disk()?));
        self.len(alloc)
    }

    /// Appends the entry of a text.
    pub fn append(&mut self, alloc: Global, text: &str) -> Result<String, RowFault> {
        let entry = entry_of(alloc, text)?;
        let saved = self.journal()?.append(1, &entry)?;
        Ok(format!(in alloc; "{saved:?}")?)
    }

    /// How many entries the journal has.
    pub fn len(&mut self, alloc: Global) -> Result<String, RowFault> {
        let len = self.journal()?.len();
        Ok(format!(in alloc; "{len}")?)
    }

    /// Closes the journal. The answer is how many calls its disk has seen.
    pub fn close(&mut self, alloc: Global) -> Result<String, RowFault> {
        match mem::replace(self, Bench::Empty) {
            Bench::Journal(journal) => {
                *self = Bench::Disk(journal.close());
                self.calls(alloc)
            }
            bench => {
                *self = bench;
                Err(RowFault::NoCall)
            }
        }
    }

    /// How many calls the disk has seen.
    pub fn calls(&self, alloc: Global) -> Result<String, RowFault> {
        let calls = self.disk()?.calls();
        Ok(format!(in alloc; "{calls} calls")?)
    }
}

/// The numbers of a text, with blanks between them.
fn numbers_of(alloc: Global, text: &str) -> Result<Vec<u64>, RowFault> {
    let mut numbers = Vec::new(alloc);
    for word in text.split_whitespace() {
        numbers.push(word.parse::<u64>()?)?;
    }
    Ok(numbers)
}
