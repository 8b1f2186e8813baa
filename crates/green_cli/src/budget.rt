//! How many splits are given, and how words spell it.
ghost use Rattle.std.specs.Prelude.{◌≡◌, ◌<◌, ◌≤◌, ◌^◌, ℕ, MatchOption};
ghost use Rattle.green_cli.specs.Words.{IsNumber, SpellsBudget};

use std::marker::Model;

/// The most splits that a query may be given for a slice.
pub const MAX_BUDGET: u32 = 100_000;

/// The splits that a query is given for a slice where the words don't say.
pub const DEFAULT_BUDGET: u32 = 4_096;

/// The most digits that a number in the words may have.
const MAX_DIGITS: usize = 10;

/// How many splits a query is given for each of its slices: 1 to 100,000.
#[derive(Clone, Copy, Debug, PartialEq, Eq)]
pub struct Budget {
    splits: u32,
}

impl Model for Budget {
    ghost use Rattle.std.specs.Prelude.{ℕ, ◌≤◌};

    ghost Value = { ℕ };

    ghost view = { λ budget. budget.splits };

    ghost invariant = { λ budget. (1 ≤ budget.splits) × (budget.splits ≤ 100000) };

    ghost inverse = { λ n. record { splits = n } };
}

impl Budget {
    /// The budget of this many splits.
    pub fn new(splits: u32) -> Budget
        requires some { 1 ≤ splits }
        requires few { splits ≤ 100000 }
        ensures { result ≡ splits }
    {
        Budget { splits }
    }

    /// How many splits it is.
    pub fn splits(self) -> u32
        ensures splits { result ≡ self }
        ensures some { 1 ≤ result }
        ensures few { result ≤ 100000 }
    {
        self.splits
    }
}

/// The budget that a text spells, where it does.
pub fn parse_budget(text: &str) -> Option<Budget>
    ensures { MatchOption result ((splits : ℕ) → ¬ SpellsBudget text.now splits) (SpellsBudget text.now) }
{
    match parse_number(text) {
        Some(splits) if 1 <= splits && splits <= MAX_BUDGET => Some(Budget::new(splits)),
        _ => None,
    }
}

/// The number that a text of 1 to 10 digits spells, where it is one below 2^32.
fn parse_number(text: &str) -> Option<u32>
    ensures { MatchOption result ((n : ℕ) → n < 2 ^ 32 → ¬ IsNumber text.now n) (IsNumber text.now) }
{
    if text.len() > MAX_DIGITS || text.starts_with('+') {
        return None;
    }
    text.parse::<u32>().ok()
}
