//! Tokens: names, numbers and symbols, each the longest that begins where it does.
ghost use Rattle.std.specs.Prelude.{◌≡◌, ◌≤◌, ◌+◌, ◌<◌, ◌^◌, ◌∷◌, length};
ghost use Rattle.lin_text.specs.Tokens.{token_length, symbol_length, begins_equal, kind_of, token_of, token_here};
ghost use Rattle.lin_text.specs.Tokens.{token_from};

use crate::run::{Run, bytes_from, is_feed, run_length};
use lin_model::{MAX_NAME, begins_name};

/// What stands at a place of a line.
#[derive(Clone, Copy, Debug, PartialEq, Eq)]
pub enum TokenKind {
    /// A name or a reserved word, of at most 64 bytes.
    Name,
    /// One or more digits.
    Number,
    /// One of `+`, `-`, `*`, `<=`, `<`, `>=`, `>`, `=`, `==` and `!=`.
    Symbol,
    /// A byte that begins no token, or a name of more than 64 bytes.
    Bad,
    /// The end of the line.
    LineEnd,
}

/// A token, from the place of its first byte to the place behind its last. For `Bad` and `LineEnd` both
/// are the place where it stands.
#[derive(Clone, Copy, Debug)]
pub struct Token {
    /// What kind of token it is.
    pub kind: TokenKind,
    /// The place of its first byte, from 0.
    pub from: usize,
    /// The place behind its last byte.
    pub to: usize,
}

#[tactic(auto, using(crate::proofs::LineLemmas::firsts))]
fn begins_equal(bytes: &[u8]) -> bool
    ensures { result ≡ begins_equal bytes.now }
{
    !bytes.is_empty() && bytes[0] == b'='
}

/// How long the symbol is that begins with `first` and goes on with `rest`, or 0 where there is none.
#[tactic(auto, using(crate::proofs::LineLemmas::firsts))]
fn symbol_length(first: u8, rest: &[u8]) -> usize
    ensures length { result ≡ symbol_length first rest.now }
    ensures within { result ≤ length rest.now + 1 }
{
    let pairs = matches!(first, b'<' | b'>' | b'=' | b'!');
    if pairs && begins_equal(rest) {
        return 2;
    }
    if matches!(first, b'+' | b'-' | b'*' | b'<' | b'>' | b'=') {
        1
    } else {
        0
    }
}

/// How long the longest token at the front is, a name of any length among them, or 0 where there is none.
#[tactic(auto, unfolding(crate::specs::Tokens::token_length))]
fn token_length(first: u8, rest: &[u8]) -> usize
    requires { length rest.now + 1 < 2 ^ 64 }
    ensures length { result ≡ token_length (first ∷ rest.now) }
    ensures within { result ≤ length rest.now + 1 }
{
    if begins_name(first) {
        1 + run_length(Run::Name, rest)
    } else if first.is_ascii_digit() {
        1 + run_length(Run::Digits, rest)
    } else {
        symbol_length(first, rest)
    }
}

/// The kind of the token that begins with the byte and is so long.
fn kind_of(first: u8, len: usize) -> TokenKind
    ensures { result ≡ kind_of first len }
{
    if begins_name(first) {
        if len > MAX_NAME {
            TokenKind::Bad
        } else {
            TokenKind::Name
        }
    } else if first.is_ascii_digit() {
        TokenKind::Number
    } else if len == 0 {
        TokenKind::Bad
    } else {
        TokenKind::Symbol
    }
}

/// The token of this kind and length at a place. `Bad` and `LineEnd` have no bytes.
fn token_of(kind: TokenKind, at: usize, len: usize) -> Token
    requires { at + len < 2 ^ 64 }
    ensures token { result ≡ token_of kind at len }
    ensures order { result.from ≤ result.to }
    ensures within { result.to ≤ at + len }
{
    let to = if kind == TokenKind::Bad { at } else { at + len };
    Token { kind, from: at, to }
}

/// What stands at a place that has no blank: `bytes` are the bytes from there on.
#[tactic(auto, using(crate::proofs::LineLemmas::firsts))]
fn token_here(at: usize, bytes: &[u8]) -> Token
    requires { at + length bytes.now < 2 ^ 64 }
    ensures token { result ≡ token_here at bytes.now }
    ensures order { result.from ≤ result.to }
    ensures within { result.to ≤ at + length bytes.now }
{
    if bytes.is_empty() || is_feed(bytes[0]) {
        return token_of(TokenKind::LineEnd, at, 0);
    }
    let len = token_length(bytes[0], bytes_from(bytes, 1));
    token_of(kind_of(bytes[0], len), at, len)
}

/// The first token from `at` on, within its line. `Bad` comes exactly where a byte stands that begins no
/// token, or a name of more than 64 bytes; `LineEnd` exactly where only blanks stand before the end of
/// the line, which is `from`. For both `to` is `from`. The longest token is taken.
#[tactic(auto, unfolding(crate::specs::Tokens::token_from))]
pub fn next_token(bytes: &[u8], at: usize) -> Token
    requires { at ≤ length bytes.now }
    ensures token { result ≡ token_from bytes.now at }
    ensures order { result.from ≤ result.to }
    ensures within { result.to ≤ length bytes.now }
{
    let from = at + run_length(Run::Blanks, bytes_from(bytes, at));
    token_here(from, bytes_from(bytes, from))
}
