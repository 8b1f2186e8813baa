//! The lines of a session's own: the header, and lines of one word.
ghost use Rattle.std.specs.Prelude.{◌≡◌, ◌≢◌, ◌≤◌, ◌↔◌, length, IsTrue, IfOk, IfErr, bytes_eq, slice_range};
ghost use Rattle.lin_text.specs.Pieces.{line_end};
ghost use Rattle.lin_text.specs.Lines.{StartsLine, line_from, line_below};
ghost use Rattle.session_text.specs.Words.{token_at, second_at, IsHeader};
ghost use Rattle.session_text.specs.Classes.{class_of, refusal_kind};

use crate::class::{Class, Lexeme, is_text, next_lexeme};
use crate::refusal::{Counts, refusal};
use lin_text::{Fault, SessionKind, Token, TokenKind, line_below, next_line, next_token};

/// A line that isn't skipped, or the end of the input: where it starts, and its first token.
#[derive(Clone, Copy, Debug)]
pub struct Line {
    pub start: usize,
    pub first: Lexeme,
}

/// The first line from `at` on that isn't skipped, or the end of the input.
pub fn line_at(bytes: &[u8], at: usize) -> Line
    requires { StartsLine bytes.now at }
    ensures start { result.start ≡ line_from bytes.now at }
    ensures starts { StartsLine bytes.now result.start }
    ensures within { result.start ≤ length bytes.now }
    ensures class { result.first.class ≡ class_of (token_at bytes.now (line_from bytes.now at)).piece }
    ensures from { result.first.from ≡ (token_at bytes.now (line_from bytes.now at)).from }
    ensures to { result.first.to ≡ (token_at bytes.now (line_from bytes.now at)).to }
    ensures end { result.first.to ≤ length bytes.now }
{
    let start = next_line(bytes, at);
    Line {
        start,
        first: next_lexeme(bytes, start),
    }
}

/// The start of the line below, where nothing comes behind the first word of the line. Else the fault of
/// the second token; the words came so often before it.
pub fn below_word(bytes: &[u8], line: Line, counts: Counts) -> Result<usize, Fault<SessionKind>>
    requires start { line.start ≤ length bytes.now }
    requires to { line.first.to ≡ (token_at bytes.now line.start).to }
    requires end { line.first.to ≤ length bytes.now }
    ensures ends { IfOk result (λ below. (second_at bytes.now line.start).piece ≡ line_end) }
    ensures next { IfOk result (λ below. below ≡ line_below bytes.now line.start) }
    ensures starts { IfOk result (StartsLine bytes.now) }
    ensures goes_on { IfErr result (λ f. (second_at bytes.now line.start).piece ≢ line_end) }
    ensures kind { IfErr result (λ f. f.kind
        ≡ refusal_kind (class_of (second_at bytes.now line.start).piece) counts.executors counts.queries) }
    ensures place { IfErr result (λ f. f.at ≡ (second_at bytes.now line.start).from) }
{
    let second = next_lexeme(bytes, line.first.to);
    match second.class {
        Class::LineEnd => Ok(line_below(bytes, line.start)),
        _ => Err(refusal(second, counts)),
    }
}

/// Whether these are the bytes of the token.
fn has_text(bytes: &[u8], token: Token, text: &str) -> bool
    requires order { token.from ≤ token.to }
    requires within { token.to ≤ length bytes.now }
    ensures { result ≡ bytes_eq (slice_range bytes.now token.from token.to) text.now }
{
    is_text(&bytes[token.from..token.to], text)
}

fn is_line_end(kind: TokenKind) -> bool
    ensures { IsTrue result ↔ kind ≡ TokenKind.LineEnd }
{
    matches!(kind, TokenKind::LineEnd)
}

/// Whether the line that starts here is the header.
pub fn is_header(bytes: &[u8], at: usize) -> bool
    requires { at ≤ length bytes.now }
    ensures { IsTrue result ↔ IsHeader bytes.now at }
{
    let green = next_token(bytes, at);
    let one = next_token(bytes, green.to);
    let end = next_token(bytes, one.to);
    if !has_text(bytes, green, "green") {
        return false;
    }
    if !has_text(bytes, one, "1") {
        return false;
    }
    is_line_end(end.kind)
}
