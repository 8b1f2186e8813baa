//! Sources: one in memory, and two over readers of std.
use crate::told::{told_read, word};
use crate::words::{numbers_of, split};
use devices::{MemSource, StdSource};
use outside::Source;
use row_table::RowFault;
use std::alloc::Global;
use std::io;
use std::io::{Cursor, ErrorKind, Read};

/// A source of each kind.
#[derive(Drop)]
pub struct Sources {
    memory: MemSource,
    cursor: StdSource<Cursor<Vec<u8>>>,
    reader: StdSource<Reader>,
}

impl Sources {
    /// Sources without bytes that fail at no call.
    pub fn new(alloc: Global) -> Sources {
        Sources {
            memory: MemSource::new(Vec::new(alloc), Vec::new(alloc)),
            cursor: StdSource::new(Cursor::new(Vec::new(alloc))),
            reader: StdSource::new(Reader { failing: None }),
        }
    }

    /// The answer to a call of the source of this name.
    pub fn called(
        &mut self,
        alloc: Global,
        name: &str,
        call: &str,
        text: &str,
    ) -> Result<Vec<u8>, RowFault> {
        match (name, call) {
            ("source", "new") => self.begin(alloc, text),
            ("source", "read") => read(alloc, &mut self.memory, text),
            ("cursor", "new") => self.begin_cursor(alloc, text),
            ("cursor", "read") => read(alloc, &mut self.cursor, text),
            ("reader", "new") => self.begin_reader(alloc, text),
            ("reader", "read") => read(alloc, &mut self.reader, text),
            _ => Err(RowFault::NoCall),
        }
    }

    /// Begins a source in memory, as `123 1`.
    fn begin(&mut self, alloc: Global, text: &str) -> Result<Vec<u8>, RowFault> {
        let (bytes, failing) = split(text);
        let failing = numbers_of(alloc, failing)?;
        self.memory = MemSource::new(bytes.as_bytes().to_vec(alloc)?, failing);
        word(alloc, "new")
    }

    /// Begins a source over a reader of these bytes.
    fn begin_cursor(&mut self, alloc: Global, text: &str) -> Result<Vec<u8>, RowFault> {
        self.cursor = StdSource::new(Cursor::new(text.as_bytes().to_vec(alloc)?));
        word(alloc, "new")
    }

    /// Begins a source over a reader whose first call fails with this kind of error.
    fn begin_reader(&mut self, alloc: Global, text: &str) -> Result<Vec<u8>, RowFault> {
        let failing = failing_of(text)?;
        self.reader = StdSource::new(Reader { failing });
        word(alloc, "new")
    }
}

/// Reads into a buffer that holds the text.
fn read<S: Source>(alloc: Global, source: &mut S, text: &str) -> Result<Vec<u8>, RowFault> {
    let mut buffer = text.as_bytes().to_vec(alloc)?;
    let outcome = source.read(&mut buffer);
    told_read(alloc, outcome, &buffer)
}

/// Fails at its first call, where it is told with what, and then gives bytes `7`, one a call.
#[derive(Drop)]
struct Reader {
    failing: Option<ErrorKind>,
}

impl Read for Reader {
    fn read(&mut self, buf: &mut [u8]) -> io::Result<usize> {
        if let Some(kind) = self.failing.take() {
            return Err(io::Error::from(kind));
        }
        if buf.is_empty() {
            return Ok(0);
        }
        buf[0] = b'7';
        Ok(1)
    }
}

/// The kind of error of this name, or None.
pub fn failing_of(name: &str) -> Result<Option<ErrorKind>, RowFault> {
    match name {
        "None" => Ok(None),
        "Interrupted" => Ok(Some(ErrorKind::Interrupted)),
        "WouldBlock" => Ok(Some(ErrorKind::WouldBlock)),
        _ => Err(RowFault::NoCall),
    }
}
