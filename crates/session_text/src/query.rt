//! The queries of one executor.
ghost use Rattle.std.specs.Prelude.{◌≡◌, ◌≢◌, ◌≤◌, ◌+◌, ◌↔◌, false, [], length, IsTrue, IfOk, IfErr};
ghost use Rattle.lin_text.specs.Lines.{StartsLine, line_from};
ghost use Rattle.lin_text.specs.Queries.{Spells};
ghost use Rattle.session_text.specs.Words.{query_word, token_at, BeginsWith};
ghost use Rattle.session_text.specs.Classes.{class_of, query_refusal};
ghost use Rattle.session_text.specs.Sessions.{IsQuery, AreQueries};
ghost use Rattle.session_text.specs.Faults.{executor, query};
ghost use Rattle.session_text.specs.Reading.{IsReadError, seen_with};

use crate::class::{Class, next_lexeme};
use crate::laws::texts_are_lawful;
use crate::line::{below_word, line_at};
use crate::refusal::{Counts, refusal};
use lin_model::{Condition, MAX_QUERIES, Script};
use lin_text::{
    Fault, ReadError, SessionKind, TextKind, fault_at, lines_are_in_order, read_lines,
    words_stand_in_no_line,
};
use std::alloc::Global;

/// A fault of a query's text, as a fault of the session's. Where a token can't come, it may be the word
/// that comes once too often; the words came so often before the query's lines.
fn query_fault(bytes: &[u8], fault: Fault<TextKind>, counts: Counts) -> Fault<SessionKind>
    requires { fault.at ≤ length bytes.now }
    ensures kind { result.kind
        ≡ query_refusal fault.kind (class_of (token_at bytes.now fault.at).piece) counts.executors counts.queries }
    ensures place { (token_at bytes.now fault.at).from ≡ fault.at → result.at ≡ fault.at }
{
    match fault.kind {
        TextKind::Syntax => refusal(next_lexeme(bytes, fault.at), counts),
        kind => fault_at(SessionKind::from(kind), fault.at),
    }
}

/// Reads the lines of a query from `at` on, and names a fault as one of the session's.
fn read_body(
    alloc: Global,
    bytes: &[u8],
    at: usize,
    counts: Counts,
) -> Result<(Condition, usize), ReadError<SessionKind>>
    requires { StartsLine bytes.now at }
    ensures read { IfOk result (λ r. Spells false bytes.now at r.0 r.1) }
    ensures starts { IfOk result (λ r. StartsLine bytes.now r.1) }
    ensures fault { IfErr result (IsReadError (seen_with (query []) counts) bytes.now at) }
{
    lines_are_in_order();
    words_stand_in_no_line();
    match read_lines(alloc, bytes, false, at) {
        Ok(read) => Ok(read),
        Err(ReadError::NoMemory) => Err(ReadError::NoMemory),
        Err(ReadError::Fault(fault)) => Err(ReadError::Fault(query_fault(bytes, fault, counts))),
    }
}

/// Reads a query line and the lines of the query, from the first line on that isn't skipped, which begins
/// with the word `query`. The words came so often above it.
fn read_query(
    alloc: Global,
    bytes: &[u8],
    at: usize,
    counts: Counts,
) -> Result<(Condition, usize), ReadError<SessionKind>>
    requires starts { StartsLine bytes.now at }
    requires begins { BeginsWith query_word bytes.now at }
    requires counts { counts.queries ≤ MAX_QUERIES }
    ensures read { IfOk result (λ r. IsQuery bytes.now at r.0 r.1) }
    ensures few { IfOk result (λ r. counts.queries ≢ MAX_QUERIES) }
    ensures starts { IfOk result (λ r. StartsLine bytes.now r.1) }
    ensures fault { IfErr result (IsReadError (seen_with executor counts) bytes.now at) }
{
    lines_are_in_order();
    let line = line_at(bytes, at);
    if counts.queries == MAX_QUERIES {
        return Err(ReadError::Fault(fault_at(SessionKind::TooManyQueries, line.first.from)));
    }
    let counts = counts.with_query();
    let below = below_word(bytes, line, counts)?;
    read_body(alloc, bytes, below, counts)
}

/// Whether the first line from `at` on that isn't skipped begins with a word of this class.
pub fn begins_with(bytes: &[u8], at: usize, class: Class) -> bool
    requires { StartsLine bytes.now at }
    ensures { IsTrue result ↔ (class_of (token_at bytes.now (line_from bytes.now at)).piece ≡ class) }
{
    line_at(bytes, at).first.class == class
}

/// Reads the queries of an executor from `start` on, below its line, up to the first line that begins with
/// anything but the word `query`. The words came so often above `start`.
pub fn read_script(
    alloc: Global,
    bytes: &[u8],
    start: usize,
    counts: Counts,
) -> Result<(Script, usize), ReadError<SessionKind>>
    requires starts { StartsLine bytes.now start }
    requires few { counts.queries ≤ MAX_QUERIES }
    ensures read { IfOk result (λ r. AreQueries bytes.now start r.0 r.1) }
    ensures few { IfOk result (λ r. counts.queries + length r.0 ≤ MAX_QUERIES) }
    ensures starts { IfOk result (λ r. StartsLine bytes.now r.1) }
    ensures ends { IfOk result (λ r. ¬ BeginsWith query_word bytes.now r.1) }
    ensures fault { IfErr result (IsReadError (seen_with executor counts) bytes.now start) }
{
    texts_are_lawful();
    let mut queries = Vec::new(alloc);
    let mut so_far = counts;
    let mut at = start;
    while begins_with(bytes, at, Class::Query) {
        let (query, stop) = read_query(alloc, bytes, at, so_far)?;
        queries.push(query)?;
        so_far = so_far.with_query();
        at = stop;
    }
    Ok((Script::new(queries), at))
}
