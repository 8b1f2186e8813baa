//! Reading the text of a query.
ghost use Rattle.std.specs.Prelude.{◌≡◌, ◌≤◌, length, IfOk, IfErr};
ghost use Rattle.lin_text.specs.Lines.{StartsLine};
ghost use Rattle.lin_text.specs.Queries.{Spells};
ghost use Rattle.lin_text.specs.Reading.{is_word_class};
ghost use Rattle.lin_text.specs.Answers.{IsReadError, IsFault};

use crate::class::{Class, next_lexeme};
use crate::draft::Draft;
use crate::fault::{TextFault, TextKind};
use crate::lines::{column, first_line, line_below, line_number};
use crate::refusal::ReadError;
use lin_model::Condition;
use std::alloc::Global;

/// Whether the token is a reserved word other than `var`.
fn is_word(class: Class) -> bool
    ensures { result ≡ is_word_class class }
{
    matches!(class, Class::Word)
}

/// Reads the lines of a query from `start` on, as `read_query` does, and names a fault by its place among
/// the bytes.
pub fn read_lines(
    alloc: Global,
    bytes: &[u8],
    in_proof: bool,
    start: usize,
) -> Result<(Condition, usize), ReadError<TextKind>>
    requires { start ≤ length bytes.now }
    ensures read { IfOk result (λ r. Spells in_proof bytes.now start r.0 r.1) }
    ensures fault { IfErr result (IsReadError in_proof bytes.now start) }
    ensures starts { StartsLine bytes.now start → IfOk result (λ r. StartsLine bytes.now r.1) }
{
    let mut query = Draft::new(alloc);
    let mut at = first_line(bytes, start);
    while at < bytes.len() {
        let first = next_lexeme(bytes, in_proof, at);
        if is_word(first.class) {
            return Ok((query.into_condition(), at));
        }
        query = query.with_line(alloc, bytes, in_proof, first)?;
        at = first_line(bytes, line_below(bytes, at));
    }
    Ok((query.into_condition(), at))
}

/// Reads a query, whose first line starts at `at`. The query is over where a line begins with a reserved
/// word, `var` aside: beside the condition stands the place where that line starts, or the input's length
/// where none comes. With `in_proof` the words `answer`, `core` and `node` are reserved too.
///
/// The fault at the least place is answered, with its line and its column from the start of the whole
/// input; at one place the one that goes first: `TooManyVars`, `TooManyAtoms`, `TooManyTerms`, `Token`,
/// `Syntax`, `NumberTooLarge`, `UnknownName`, `NameTwice`, `EmptyRange`. Where memory runs out, `NoMemory` is answered.
pub fn read_query(
    alloc: Global,
    bytes: &[u8],
    at: usize,
    in_proof: bool,
) -> Result<(Condition, usize), TextFault>
    requires { StartsLine bytes.now at }
    ensures read { IfOk result (λ r. Spells in_proof bytes.now at r.0 r.1) }
    ensures fault { IfErr result (IsFault in_proof bytes.now at) }
    ensures starts { IfOk result (λ r. StartsLine bytes.now r.1) }
{
    match read_lines(alloc, bytes, in_proof, at) {
        Ok(read) => Ok(read),
        Err(ReadError::NoMemory) => Err(TextFault {
            line: 0,
            column: 0,
            kind: TextKind::NoMemory,
        }),
        Err(ReadError::Fault(fault)) => Err(TextFault {
            line: line_number(bytes, fault.at),
            column: column(bytes, fault.at),
            kind: fault.kind,
        }),
    }
}
