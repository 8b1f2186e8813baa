//! Sessions: the conditions that each executor asks.

ghost use Rattle.std.specs.Prelude.{◌≡◌};
ghost use Rattle.lin_model.specs.Conditions.{IsSession};

use crate::condition::Condition;
use std::marker::Model;

/// The most executors that a session has.
pub const MAX_EXECUTORS: usize = 64;

/// The most queries that a session has, over all executors.
pub const MAX_QUERIES: usize = 100_000;

/// What one executor asks, in order.
#[derive(Debug, Drop)]
pub struct Script {
    queries: Vec<Condition>,
}

impl Model for Script {
    ghost use Rattle.std.specs.Prelude.{List};
    ghost use Rattle.lin_model.specs.Conditions.{PlainCondition};

    ghost Value = { List PlainCondition };

    ghost view = { λ script. script.queries.items };
}

impl Script {
    /// The script of these queries.
    pub fn new(queries: Vec<Condition>) -> Script
        ensures { result ≡ queries.items }
    {
        Script { queries }
    }

    /// The queries, in the order in which they are asked.
    pub fn queries(&self) -> &[Condition]
        ensures { result.now ≡ self.now }
    {
        &self.queries
    }
}

/// One script for each executor: at most 64, and at most 100,000 queries in all.
#[derive(Debug, Drop)]
pub struct Session {
    executors: Vec<Script>,
}

impl Model for Session {
    ghost use Rattle.std.specs.Prelude.{List};
    ghost use Rattle.lin_model.specs.Conditions.{PlainCondition, IsSession};

    ghost Value = { List (List PlainCondition) };

    ghost view = { λ session. session.executors.items };

    ghost invariant = { λ session. IsSession session.executors.items };
}

impl Session {
    /// The session of these scripts.
    pub fn new(executors: Vec<Script>) -> Session
        requires { IsSession executors.items }
        ensures { result ≡ executors.items }
    {
        Session { executors }
    }

    /// The scripts, in the order of the executors.
    pub fn executors(&self) -> &[Script]
        ensures executors { result.now ≡ self.now }
        ensures fits { IsSession self.now }
    {
        &self.executors
    }
}
