//! Sinks over writers of std.
use crate::sinks::write;
use crate::sources::failing_of;
use crate::words::{number_of, split};
use devices::StdSink;
use row_table::RowFault;
use std::alloc::Global;
use std::io;
use std::io::{ErrorKind, Write};

/// Fails at its first call, where it is told with what, and then takes at most so many bytes a call. Its flush fails
/// where it is told so.
#[derive(Drop)]
struct Writer {
    failing: Option<ErrorKind>,
    step: usize,
    flushes: bool,
}

impl Write for Writer {
    fn write(&mut self, buf: &[u8]) -> io::Result<usize> {
        if let Some(kind) = self.failing.take() {
            return Err(io::Error::from(kind));
        }
        Ok(buf.len().min(self.step))
    }

    fn flush(&mut self) -> io::Result<()> {
        if self.flushes {
            Ok(())
        } else {
            Err(io::Error::from(ErrorKind::WouldBlock))
        }
    }
}

/// The answer to a write of a text: to bytes in memory, as `memory 123`, or to a writer of its own, which is told by the
/// kind of its failure, its step and whether it `flushes`, as `None 2 flushes 123`.
pub fn called(alloc: Global, call: &str, text: &str) -> Result<Vec<u8>, RowFault> {
    match call {
        "memory" => taken(alloc, text),
        _ => written(alloc, call, text),
    }
}

/// The outcome, and the bytes in memory behind it.
fn taken(alloc: Global, text: &str) -> Result<Vec<u8>, RowFault> {
    let mut taken: Vec<u8> = Vec::new(alloc);
    let mut told = write(alloc, &mut StdSink::new(&mut taken), text)?;
    told.push(b' ')?;
    told.extend_from_slice(&taken)?;
    Ok(told)
}

/// The outcome at a writer of its own.
fn written(alloc: Global, kind: &str, text: &str) -> Result<Vec<u8>, RowFault> {
    let (step, text) = split(text);
    let (flush, text) = split(text);
    let mut sink = StdSink::new(Writer {
        failing: failing_of(kind)?,
        step: number_of(step)? as usize,
        flushes: flush == "flushes",
    });
    write(alloc, &mut sink, text)
}
