//! How the reader refuses: the kind of the fault and its place among the bytes, or `NoMemory`.
ghost use Rattle.std.specs.Prelude.{◌≡◌};
ghost use Rattle.lin_text.specs.Reading.{refusal, fault_at};

use crate::class::{Class, Lexeme};
use crate::fault::TextKind;
use outside::NoMemory;
use std::alloc::{AllocError, AllocFailed};

/// A fault, at a place among the bytes, counted from 0.
#[derive(Clone, Copy, Debug)]
pub struct Fault<K> {
    /// What is wrong there.
    pub kind: K,
    /// The place of the byte.
    pub at: usize,
}

/// Why a part wasn't read.
#[derive(Clone, Copy, Debug)]
pub enum ReadError<K> {
    /// Memory ran out.
    NoMemory,
    /// The first fault of the text.
    Fault(Fault<K>),
}

impl<K> From<AllocError> for ReadError<K> {
    ghost use Rattle.lin_text.specs.declared.refusal.ReadError.TheVariants as errors;

    ghost from_gives = { λ _ e. e ≡ errors.NoMemory };

    fn from(_error: AllocError) -> ReadError<K> {
        ReadError::NoMemory
    }
}

impl<K, T: Drop> From<AllocFailed<T>> for ReadError<K> {
    ghost use Rattle.lin_text.specs.declared.refusal.ReadError.TheVariants as errors;

    ghost from_gives = { λ _ e. e ≡ errors.NoMemory };

    fn from(_error: AllocFailed<T>) -> ReadError<K> {
        ReadError::NoMemory
    }
}

impl<K> From<NoMemory> for ReadError<K> {
    ghost use Rattle.lin_text.specs.declared.refusal.ReadError.TheVariants as errors;

    ghost from_gives = { λ _ e. e ≡ errors.NoMemory };

    fn from(_error: NoMemory) -> ReadError<K> {
        ReadError::NoMemory
    }
}

impl<K> From<Fault<K>> for ReadError<K> {
    ghost use Rattle.lin_text.specs.declared.refusal.ReadError.TheVariants as errors;

    ghost from_gives = { λ f e. e ≡ errors.Fault f };

    fn from(fault: Fault<K>) -> ReadError<K> {
        ReadError::Fault(fault)
    }
}

/// The fault of this kind at a place.
pub fn fault_at<K>(kind: K, at: usize) -> Fault<K>
    ensures { result ≡ fault_at kind at }
{
    Fault { kind, at }
}

/// The fault of a token that can't come next: it is no token, or it doesn't fit the grammar.
pub fn refusal(token: Lexeme) -> Fault<TextKind>
    ensures { result ≡ refusal token }
{
    let kind = match token.class {
        Class::Bad => TextKind::Token,
        _ => TextKind::Syntax,
    };
    fault_at(kind, token.from)
}
