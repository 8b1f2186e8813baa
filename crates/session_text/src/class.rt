//! What a token is for a session: which of its words, or something else.
ghost use Rattle.std.specs.Prelude.{◌≡◌, ◌≤◌, false, length, bytes_eq};
ghost use Rattle.lin_text.specs.Pieces.{name_piece, piece_of};
ghost use Rattle.session_text.specs.Words.{token_at, executor_word, query_word, end_word};
ghost use Rattle.session_text.specs.Classes.{class_of};

use lin_text::{TokenKind, next_token};

/// What a token is for a session.
#[derive(Clone, Copy, Debug, PartialEq, Eq)]
pub enum Class {
    Executor,
    Query,
    End,
    /// Any other token.
    Other,
    /// What is no token.
    Bad,
    LineEnd,
}

/// A token, from the place of its first byte to the place behind its last.
#[derive(Clone, Copy, Debug)]
pub struct Lexeme {
    pub class: Class,
    pub from: usize,
    pub to: usize,
}

/// Whether the bytes are the text.
pub fn is_text(bytes: &[u8], text: &str) -> bool
    ensures { result ≡ bytes_eq bytes.now text.now }
{
    bytes == text.as_bytes()
}

/// What a name or a word is.
#[tactic(auto, using(crate::proofs::WordLemmas::class_of_name), unfolding(crate::specs::Words::executor_word, crate::specs::Words::query_word, crate::specs::Words::end_word))]
fn class_of_name(text: &[u8]) -> Class
    ensures { result ≡ class_of (name_piece false text.now) }
{
    if is_text(text, "executor") {
        Class::Executor
    } else if is_text(text, "query") {
        Class::Query
    } else if is_text(text, "end") {
        Class::End
    } else {
        Class::Other
    }
}

/// What a token of this kind and text is.
#[tactic(auto, using(crate::proofs::WordLemmas::class_of_others), unfolding(lin_text::specs::Pieces::piece_of))]
fn class_of(kind: TokenKind, text: &[u8]) -> Class
    ensures { result ≡ class_of (piece_of false kind text.now) }
{
    match kind {
        TokenKind::Name => class_of_name(text),
        TokenKind::Bad => Class::Bad,
        TokenKind::LineEnd => Class::LineEnd,
        TokenKind::Number | TokenKind::Symbol => Class::Other,
    }
}

/// The first token from a place on, within its line.
#[tactic(auto, unfolding(lin_text::specs::Pieces::plain_token))]
pub fn next_lexeme(bytes: &[u8], at: usize) -> Lexeme
    requires { at ≤ length bytes.now }
    ensures class { result.class ≡ class_of (token_at bytes.now at).piece }
    ensures from { result.from ≡ (token_at bytes.now at).from }
    ensures to { result.to ≡ (token_at bytes.now at).to }
    ensures order { result.from ≤ result.to }
    ensures within { result.to ≤ length bytes.now }
{
    let token = next_token(bytes, at);
    Lexeme {
        class: class_of(token.kind, &bytes[token.from..token.to]),
        from: token.from,
        to: token.to,
    }
}
