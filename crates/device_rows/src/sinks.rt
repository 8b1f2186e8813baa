//! A sink in memory.
use crate::told::{told, told_number, word};
use crate::words::numbers_of;
use devices::MemSink;
use outside::Sink;
use row_table::RowFault;
use std::alloc::Global;

/// The answer to a call of the sink.
pub fn called(
    alloc: Global,
    sink: &mut MemSink,
    call: &str,
    text: &str,
) -> Result<Vec<u8>, RowFault> {
    match call {
        "new" => begin(alloc, sink, text),
        "write" => write(alloc, sink, text),
        "bytes" => Ok(sink.bytes().to_vec(alloc)?),
        "starved" => told_number(alloc, Ok(sink.starved())),
        _ => Err(RowFault::NoCall),
    }
}

/// Begins an empty sink, that fails at these calls.
fn begin(alloc: Global, sink: &mut MemSink, text: &str) -> Result<Vec<u8>, RowFault> {
    *sink = MemSink::new(alloc, numbers_of(alloc, text)?);
    word(alloc, "new")
}

/// Writes the text.
pub fn write<S: Sink>(alloc: Global, sink: &mut S, text: &str) -> Result<Vec<u8>, RowFault> {
    told(alloc, sink.write(text.as_bytes()))
}
