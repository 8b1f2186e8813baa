//! Texts of queries: what is read, where a query ends, and its plain spelling.
ghost use Rattle.lin_text.specs.Lines.{StartsLine};

use crate::faults::told;
use lin_model::Condition;
use lin_text::{TextFault, line_below, read_query, write_query};
use row_table::RowFault;
use std::alloc::Global;

/// `read`, or the first fault of the query that the whole text is to be.
pub fn read(alloc: Global, text: &[u8]) -> Result<Vec<u8>, RowFault> {
    told_read(alloc, &read_query(alloc, text, 0, false))
}

/// The same of a query of two lines, of which the text is the second, and the first one declares `x` from 0 to 9.
pub fn read_line(alloc: Global, line: &[u8]) -> Result<Vec<u8>, RowFault> {
    let text = surrounded(alloc, "var x 0 9\n", line, "")?;
    read(alloc, &text)
}

/// The same of the first query of a session, whose lines stand on the session's line 4 and below.
pub fn read_first(alloc: Global, query: &[u8]) -> Result<Vec<u8>, RowFault> {
    let text = surrounded(alloc, "green 1\nexecutor\nquery\n", query, "end\n")?;
    let at = fourth_line(&text);
    told_read(alloc, &read_query(alloc, &text, at, false))
}

/// Where the query ends that stands first in the text, or its first fault.
pub fn end(alloc: Global, text: &[u8], in_proof: bool) -> Result<Vec<u8>, RowFault> {
    match read_query(alloc, text, 0, in_proof) {
        Ok((_, end)) => Ok(format!(in alloc; "{end}")?.into_bytes()),
        Err(fault) => told(alloc, fault),
    }
}

/// The plain spelling of a copy of the query that the text spells, or its first fault.
pub fn plain(alloc: Global, text: &[u8]) -> Result<Vec<u8>, RowFault> {
    match read_query(alloc, text, 0, false) {
        Ok((query, _)) => written(alloc, &query),
        Err(fault) => told(alloc, fault),
    }
}

/// The plain spelling of a copy of the query.
fn written(alloc: Global, query: &Condition) -> Result<Vec<u8>, RowFault> {
    let copy = query.clone()?;
    Ok(write_query(alloc, &copy)?)
}

/// What is told of a read.
fn told_read(
    alloc: Global,
    read: &Result<(Condition, usize), TextFault>,
) -> Result<Vec<u8>, RowFault> {
    match read {
        Ok(_) => Ok(Vec::from_slice(alloc, b"read")?),
        Err(fault) => told(alloc, *fault),
    }
}

/// The text between the two others.
fn surrounded(alloc: Global, front: &str, text: &[u8], back: &str) -> Result<Vec<u8>, RowFault> {
    Ok([front.as_bytes(), text, back.as_bytes()].concat(alloc)?)
}

/// Where the fourth line begins.
fn fourth_line(bytes: &[u8]) -> usize
    ensures { StartsLine bytes.now result }
{
    line_below(bytes, line_below(bytes, line_below(bytes, 0)))
}
