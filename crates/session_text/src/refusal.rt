//! How a token is refused, by how often the words came before it.
ghost use Rattle.std.specs.Prelude.{◌≡◌, ◌+◌, ◌<◌, ◌^◌};
ghost use Rattle.session_text.specs.Classes.{refusal_kind};

use crate::class::{Class, Lexeme};
use lin_model::{MAX_EXECUTORS, MAX_QUERIES};
use lin_text::{Fault, SessionKind, fault_at};

/// How often the words `executor` and `query` came so far.
#[derive(Clone, Copy, Debug)]
pub struct Counts {
    pub executors: usize,
    pub queries: usize,
}

impl Counts {
    /// With one word `executor` more.
    pub fn with_executor(self) -> Counts
        requires { self.executors < 2 ^ 63 }
        ensures { result ≡ record self { executors = self.executors + 1 } }
    {
        Counts {
            executors: self.executors + 1,
            queries: self.queries,
        }
    }

    /// With one word `executor` more, and the queries of its executor.
    pub fn with_script(self, queries: usize) -> Counts
        requires executors { self.executors < 2 ^ 63 }
        requires queries { self.queries + queries < 2 ^ 63 }
        ensures { result ≡ record { executors = self.executors + 1; queries = self.queries + queries } }
    {
        Counts {
            executors: self.executors + 1,
            queries: self.queries + queries,
        }
    }

    /// With one word `query` more.
    pub fn with_query(self) -> Counts
        requires { self.queries < 2 ^ 63 }
        ensures { result ≡ record self { queries = self.queries + 1 } }
    {
        Counts {
            executors: self.executors,
            queries: self.queries + 1,
        }
    }
}

/// What is wrong with a token that can't come next, before which the words came so often.
fn refusal_kind(class: Class, counts: Counts) -> SessionKind
    ensures { result ≡ refusal_kind class counts.executors counts.queries }
{
    match class {
        Class::Executor if counts.executors == MAX_EXECUTORS => SessionKind::TooManyExecutors,
        Class::Query if counts.queries == MAX_QUERIES => SessionKind::TooManyQueries,
        Class::Bad => SessionKind::Token,
        _ => SessionKind::Syntax,
    }
}

/// The fault of a token that can't come next, before which the words came so often.
pub fn refusal(token: Lexeme, counts: Counts) -> Fault<SessionKind>
    ensures kind { result.kind ≡ refusal_kind token.class counts.executors counts.queries }
    ensures place { result.at ≡ token.from }
{
    fault_at(refusal_kind(token.class, counts), token.from)
}
