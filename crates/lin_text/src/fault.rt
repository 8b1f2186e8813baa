//! What can be wrong with a text, and where.
ghost use Rattle.std.specs.Prelude.{◌≡◌};

use thiserror::Error;

/// What is wrong with the text of a query.
#[derive(Clone, Copy, Debug, PartialEq, Eq, Error)]
pub enum TextKind {
    /// A byte that begins no token, or a name of more than 64 bytes.
    #[error("this is no token")]
    Token,
    /// A token that can't come next, or the end of a line where more must come.
    #[error("this can't come here")]
    Syntax,
    /// A bound or a factor above 2^31, or a constant above 2^40.
    #[error("the number is too large")]
    NumberTooLarge,
    /// A name in a comparison that isn't declared above it.
    #[error("the name isn't declared above")]
    UnknownName,
    /// A name in a declaration that is declared above it.
    #[error("the name is declared above")]
    NameTwice,
    /// A lower bound above the upper one.
    #[error("the lower bound is above the upper one")]
    EmptyRange,
    /// The 65th declaration of a query.
    #[error("a query has at most 64 variables")]
    TooManyVars,
    /// The 257th comparison of a query.
    #[error("a query has at most 256 comparisons")]
    TooManyAtoms,
    /// The 65th term of a side.
    #[error("a side has at most 64 terms")]
    TooManyTerms,
    /// Memory ran out.
    #[error("out of memory")]
    NoMemory,
}

/// A fault of a query's text, at a line and a column, both counted from 1. For `NoMemory` both are 0.
#[derive(Clone, Copy, Debug)]
pub struct TextFault {
    /// The line, from 1.
    pub line: u64,
    /// The byte of the line, from 1.
    pub column: u64,
    /// What is wrong there.
    pub kind: TextKind,
}

/// What is wrong with the text of a session: the kinds of `TextKind`, and four more.
#[derive(Clone, Copy, Debug, PartialEq, Eq, Error)]
pub enum SessionKind {
    /// The first line isn't the header.
    #[error("the first line isn't the header")]
    BadHeader,
    /// The 65th word `executor`.
    #[error("a session has at most 64 executors")]
    TooManyExecutors,
    /// The 100,001st word `query`.
    #[error("a session has at most 100000 queries")]
    TooManyQueries,
    /// The input ends before the end line.
    #[error("the end line is missing")]
    NoEnd,
    /// As `TextKind::Token`.
    #[error("this is no token")]
    Token,
    /// As `TextKind::Syntax`.
    #[error("this can't come here")]
    Syntax,
    /// As `TextKind::NumberTooLarge`.
    #[error("the number is too large")]
    NumberTooLarge,
    /// As `TextKind::UnknownName`.
    #[error("the name isn't declared above")]
    UnknownName,
    /// As `TextKind::NameTwice`.
    #[error("the name is declared above")]
    NameTwice,
    /// As `TextKind::EmptyRange`.
    #[error("the lower bound is above the upper one")]
    EmptyRange,
    /// As `TextKind::TooManyVars`.
    #[error("a query has at most 64 variables")]
    TooManyVars,
    /// As `TextKind::TooManyAtoms`.
    #[error("a query has at most 256 comparisons")]
    TooManyAtoms,
    /// As `TextKind::TooManyTerms`.
    #[error("a side has at most 64 terms")]
    TooManyTerms,
    /// Memory ran out.
    #[error("out of memory")]
    NoMemory,
}

impl From<TextKind> for SessionKind {
    ghost use Rattle.lin_text.specs.Kinds.{session_kind};

    ghost from_gives = { λ text session. session ≡ session_kind text };

    /// The kind of a fault of a query's text, as a kind of a session's.
    fn from(kind: TextKind) -> SessionKind {
        match kind {
            TextKind::Token => SessionKind::Token,
            TextKind::Syntax => SessionKind::Syntax,
            TextKind::NumberTooLarge => SessionKind::NumberTooLarge,
            TextKind::UnknownName => SessionKind::UnknownName,
            TextKind::NameTwice => SessionKind::NameTwice,
            TextKind::EmptyRange => SessionKind::EmptyRange,
            TextKind::TooManyVars => SessionKind::TooManyVars,
            TextKind::TooManyAtoms => SessionKind::TooManyAtoms,
            TextKind::TooManyTerms => SessionKind::TooManyTerms,
            TextKind::NoMemory => SessionKind::NoMemory,
        }
    }
}

/// A fault of a session's text, at a line and a column, both counted from 1. For `NoMemory` both are 0.
#[derive(Clone, Copy, Debug)]
pub struct SessionFault {
    /// The line of the whole input, from 1.
    pub line: u64,
    /// The byte of the line, from 1.
    pub column: u64,
    /// What is wrong there.
    pub kind: SessionKind,
}
