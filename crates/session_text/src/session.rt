//! Reading whole sessions.
ghost use Rattle.std.specs.Prelude.{◌≡◌, ◌≢◌, ◌≤◌, ◌+◌, ◌↔◌, length, sum_by, IsTrue, IfOk, IfErr, OnOk};
ghost use Rattle.lin_model.specs.Conditions.{IsSession};
ghost use Rattle.lin_text.specs.Lines.{StartsLine, line_from};
ghost use Rattle.session_text.specs.Words.{executor_word, query_word, BeginsWith};
ghost use Rattle.session_text.specs.Sessions.{IsExecutor, AreExecutors, IsEnd, SpellsSession};
ghost use Rattle.session_text.specs.Faults.{ended, nothing_seen};
ghost use Rattle.session_text.specs.Answers.{IsFault};
ghost use Rattle.session_text.specs.Reading.{IsFaultFrom, IsReadError, IsSessionError, seen_with, seen_between};

use crate::class::{Class, next_lexeme};
use crate::laws::texts_are_lawful;
use crate::line::{below_word, is_header, line_at};
use crate::query::{begins_with, read_script};
use crate::refusal::{Counts, refusal};
use lin_model::{MAX_EXECUTORS, MAX_QUERIES, Script, Session};
use lin_text::{
    Fault, ReadError, SessionFault, SessionKind, column, fault_at, line_below, line_number,
    lines_are_in_order, next_line,
};
use std::alloc::Global;

/// Reads an executor line and its queries, from the first line on that isn't skipped, which begins with the
/// word `executor`. The words came so often above it.
fn read_executor(
    alloc: Global,
    bytes: &[u8],
    at: usize,
    counts: Counts,
) -> Result<(Script, usize), ReadError<SessionKind>>
    requires starts { StartsLine bytes.now at }
    requires begins { BeginsWith executor_word bytes.now at }
    requires executors { counts.executors ≤ MAX_EXECUTORS }
    requires queries { counts.queries ≤ MAX_QUERIES }
    ensures read { IfOk result (λ r. IsExecutor bytes.now at r.0 r.1) }
    ensures few_executors { IfOk result (λ r. counts.executors ≢ MAX_EXECUTORS) }
    ensures few_queries { IfOk result (λ r. counts.queries + length r.0 ≤ MAX_QUERIES) }
    ensures starts { IfOk result (λ r. StartsLine bytes.now r.1) }
    ensures ends { IfOk result (λ r. ¬ BeginsWith query_word bytes.now r.1) }
    ensures fault { IfErr result (IsReadError (seen_between counts) bytes.now at) }
{
    lines_are_in_order();
    let line = line_at(bytes, at);
    if counts.executors == MAX_EXECUTORS {
        return Err(ReadError::Fault(fault_at(SessionKind::TooManyExecutors, line.first.from)));
    }
    let counts = counts.with_executor();
    let below = below_word(bytes, line, counts)?;
    read_script(alloc, bytes, below, counts)
}

/// What was read of a session before its end line.
#[derive(Drop)]
struct Executors {
    scripts: Vec<Script>,
    /// Where the text goes on.
    stop: usize,
    /// How often the words came.
    counts: Counts,
}

/// Reads executors from `start` on, below the header, up to the first line that begins with anything but
/// the word `executor`.
fn read_executors(
    alloc: Global,
    bytes: &[u8],
    start: usize,
) -> Result<Executors, ReadError<SessionKind>>
    requires { StartsLine bytes.now start }
    ensures read { IfOk result (λ r. AreExecutors bytes.now start r.scripts.items r.stop) }
    ensures fits { IfOk result (λ r. IsSession r.scripts.items) }
    ensures executors { IfOk result (λ r. r.counts.executors ≡ length r.scripts.items) }
    ensures queries { IfOk result (λ r. r.counts.queries ≡ sum_by length r.scripts.items) }
    ensures starts { IfOk result (λ r. StartsLine bytes.now r.stop) }
    ensures ends { IfOk result (λ r. ¬ BeginsWith executor_word bytes.now r.stop) }
    ensures no_query { IfOk result (λ r. BeginsWith query_word bytes.now r.stop → r.counts.executors ≡ 0) }
    ensures fault { IfErr result (IsReadError nothing_seen bytes.now start) }
{
    texts_are_lawful();
    let mut scripts = Vec::new(alloc);
    let mut counts = Counts {
        executors: 0,
        queries: 0,
    };
    let mut stop = start;
    while begins_with(bytes, stop, Class::Executor) {
        let (script, next) = read_executor(alloc, bytes, stop, counts)?;
        counts = counts.with_script(script.queries().len());
        scripts.push(script)?;
        stop = next;
    }
    Ok(Executors {
        scripts,
        stop,
        counts,
    })
}

/// Whether the token is the word `end`.
fn is_end(class: Class) -> bool
    ensures { IsTrue result ↔ class ≡ Class.End }
{
    matches!(class, Class::End)
}

/// Reads the end line, which is the first one from `at` on that isn't skipped, and what is left of the
/// input. The words came so often above it.
fn read_end(bytes: &[u8], at: usize, counts: Counts) -> Result<(), Fault<SessionKind>>
    requires starts { StartsLine bytes.now at }
    requires no_executor { ¬ BeginsWith executor_word bytes.now at }
    requires no_query { BeginsWith query_word bytes.now at → counts.executors ≡ 0 }
    ensures read { OnOk result (IsEnd bytes.now at) }
    ensures fault { IfErr result (IsFaultFrom (seen_between counts) bytes.now at) }
{
    lines_are_in_order();
    let line = line_at(bytes, at);
    if line.start == bytes.len() {
        return Err(fault_at(SessionKind::NoEnd, bytes.len()));
    }
    if !is_end(line.first.class) {
        return Err(refusal(line.first, counts));
    }
    let below = below_word(bytes, line, counts)?;
    read_rest(bytes, below, counts)
}

/// Reads what comes below the end line: skipped lines alone.
fn read_rest(bytes: &[u8], at: usize, counts: Counts) -> Result<(), Fault<SessionKind>>
    requires { StartsLine bytes.now at }
    ensures read { OnOk result (line_from bytes.now at ≡ length bytes.now) }
    ensures fault { IfErr result (IsFaultFrom (seen_with ended counts) bytes.now at) }
{
    lines_are_in_order();
    let line = line_at(bytes, at);
    if line.start == bytes.len() {
        Ok(())
    } else {
        Err(refusal(line.first, counts))
    }
}

/// Reads a whole session, and names a fault by its place among the bytes.
fn read_whole(alloc: Global, bytes: &[u8]) -> Result<Session, ReadError<SessionKind>>
    ensures read { IfOk result (SpellsSession bytes.now) }
    ensures fault { IfErr result (IsSessionError bytes.now) }
{
    texts_are_lawful();
    let first = next_line(bytes, 0);
    if !is_header(bytes, first) {
        return Err(ReadError::Fault(fault_at(
            SessionKind::BadHeader,
            next_lexeme(bytes, first).from,
        )));
    }
    let Executors {
        scripts,
        stop,
        counts,
    } = read_executors(alloc, bytes, line_below(bytes, first))?;
    read_end(bytes, stop, counts)?;
    Ok(Session::new(scripts))
}

/// Reads a session: the header `green 1`, for each executor the line `executor` and its queries, each the
/// line `query` and the lines of a condition, and then the line `end`, each on a line of its own. Lines
/// with blanks alone and lines that begin with `#` are skipped. A session is answered only where nothing
/// of the input is left.
///
/// The fault at the least place is answered, with its line and its column from the input's start; at one place the one
/// that goes first: `BadHeader`, `TooManyExecutors`, `TooManyQueries`, the kinds of `TextKind` as `read_query` orders
/// them, `NoEnd`. Where memory runs out, `NoMemory` is answered, with line and column 0.
pub fn read_session(alloc: Global, bytes: &[u8]) -> Result<Session, SessionFault>
    ensures read { IfOk result (SpellsSession bytes.now) }
    ensures fault { IfErr result (IsFault bytes.now) }
{
    match read_whole(alloc, bytes) {
        Ok(session) => Ok(session),
        Err(ReadError::NoMemory) => Err(SessionFault {
            line: 0,
            column: 0,
            kind: SessionKind::NoMemory,
        }),
        Err(ReadError::Fault(fault)) => Err(SessionFault {
            line: line_number(bytes, fault.at),
            column: column(bytes, fault.at),
            kind: fault.kind,
        }),
    }
}
