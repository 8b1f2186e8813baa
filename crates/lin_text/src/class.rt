//! What a token is for the grammar: which word, which sign, which number.
ghost use Rattle.std.specs.Prelude.{◌≡◌, ◌≤◌, min, length, slice_range, bytes_eq};
ghost use Rattle.lin_model.specs.Names.{IsName};
ghost use Rattle.lin_text.specs.Pieces.{number_of, piece_of, cmp_of, sign_of, name_piece, symbol_piece, is_word};
ghost use Rattle.lin_text.specs.Pieces.{is_claim_word, first_token};
ghost use Rattle.lin_text.specs.Classes.{class_of, shown};

use crate::token::{TokenKind, next_token};
use lin_model::{CONSTANT_LIMIT, Cmp, is_reserved};

/// A sign that compares, as it is spelled. `==` means what `=` means.
#[derive(Clone, Copy, Debug, PartialEq, Eq)]
pub enum Sign {
    Le,
    Lt,
    Ge,
    Gt,
    Eq,
    DoubleEq,
    Ne,
}

impl Sign {
    /// How it compares.
    pub fn cmp(self) -> Cmp
        ensures { result ≡ cmp_of self }
    {
        match self {
            Sign::Le => Cmp::Le,
            Sign::Lt => Cmp::Lt,
            Sign::Ge => Cmp::Ge,
            Sign::Gt => Cmp::Gt,
            Sign::Eq | Sign::DoubleEq => Cmp::Eq,
            Sign::Ne => Cmp::Ne,
        }
    }
}

/// What a token is for the grammar. A number that is too large for any text is `TOO_LARGE`.
#[derive(Clone, Copy, Debug, PartialEq, Eq)]
pub enum Class {
    /// The word `var`.
    Var,
    /// Another reserved word.
    Word,
    Name,
    Number(u64),
    Plus,
    Minus,
    Times,
    Compare(Sign),
    /// What is no token.
    Bad,
    LineEnd,
}

/// A token, from the place of its first byte to the place behind its last.
#[derive(Clone, Copy, Debug)]
pub struct Lexeme {
    pub class: Class,
    pub from: usize,
    pub to: usize,
}

/// The least number that is too large for any text: the constants of canonical atoms, which have the widest limit, are
/// smaller.
pub const TOO_LARGE: u64 = CONSTANT_LIMIT;

/// The number that the digits are, or the least that is too large for any text.
pub fn number_of(digits: &[u8]) -> u64
    ensures { result ≡ min (number_of digits.now) TOO_LARGE }
{
    let mut number = 0;
    for digit in digits {
        number = (10 * number + u64::from(digit.saturating_sub(b'0'))).min(TOO_LARGE);
    }
    number
}

fn is_text(bytes: &[u8], text: &str) -> bool
    ensures { result ≡ bytes_eq bytes.now text.now }
{
    bytes == text.as_bytes()
}

/// Whether the bytes are one of the words that a proof text reserves besides.
fn is_claim_word(bytes: &[u8]) -> bool
    ensures { result ≡ is_claim_word bytes.now }
{
    is_text(bytes, "answer") || is_text(bytes, "core") || is_text(bytes, "node")
}

/// Whether the bytes are no name but a word.
fn is_word(bytes: &[u8], in_proof: bool) -> bool
    ensures { result ≡ is_word in_proof bytes.now }
{
    is_reserved(bytes) || in_proof && is_claim_word(bytes)
}

/// What a name or a word is.
#[tactic(auto, using(crate::proofs::WordLemmas::named))]
fn class_of_name(text: &[u8], in_proof: bool) -> Class
    ensures { result ≡ class_of (name_piece in_proof text.now) }
{
    if is_text(text, "var") {
        Class::Var
    } else if is_word(text, in_proof) {
        Class::Word
    } else {
        Class::Name
    }
}

/// Which sign a symbol is. One that is none of the others is `=`.
fn sign_of(text: &[u8]) -> Sign
    ensures { result ≡ sign_of text.now }
{
    if is_text(text, "<=") {
        Sign::Le
    } else if is_text(text, "<") {
        Sign::Lt
    } else if is_text(text, ">=") {
        Sign::Ge
    } else if is_text(text, ">") {
        Sign::Gt
    } else if is_text(text, "!=") {
        Sign::Ne
    } else if is_text(text, "==") {
        Sign::DoubleEq
    } else {
        Sign::Eq
    }
}

/// What a symbol is.
#[tactic(auto, unfolding(crate::specs::Pieces::symbol_piece))]
fn class_of_symbol(text: &[u8]) -> Class
    ensures { result ≡ class_of (symbol_piece text.now) }
{
    if is_text(text, "+") {
        Class::Plus
    } else if is_text(text, "-") {
        Class::Minus
    } else if is_text(text, "*") {
        Class::Times
    } else {
        Class::Compare(sign_of(text))
    }
}

/// What a token of this kind and text is.
#[tactic(auto, unfolding(crate::specs::Pieces::piece_of))]
fn class_of(kind: TokenKind, text: &[u8], in_proof: bool) -> Class
    ensures { result ≡ class_of (piece_of in_proof kind text.now) }
{
    match kind {
        TokenKind::Name => class_of_name(text, in_proof),
        TokenKind::Number => Class::Number(number_of(text)),
        TokenKind::Symbol => class_of_symbol(text),
        TokenKind::Bad => Class::Bad,
        TokenKind::LineEnd => Class::LineEnd,
    }
}

/// The first token from a place on, within its line.
#[tactic(auto, unfolding(crate::specs::Pieces::plain_token))]
pub fn next_lexeme(bytes: &[u8], in_proof: bool, at: usize) -> Lexeme
    requires { at ≤ length bytes.now }
    ensures shown { result ≡ shown (first_token in_proof bytes.now at) }
    ensures order { result.from ≤ result.to }
    ensures within { result.to ≤ length bytes.now }
    ensures name { result.class ≡ Class.Name → IsName (slice_range bytes.now result.from result.to) }
{
    let token = next_token(bytes, at);
    Lexeme {
        class: class_of(token.kind, &bytes[token.from..token.to], in_proof),
        from: token.from,
        to: token.to,
    }
}
