//! The way from a key back to its condition.
ghost use Rattle.std.specs.Prelude.{◌≡◌, ◌≢◌, ◌<◌, ◌≤◌, ℕ, MatchOption, AllPairs, Contains, length, slice_index};

use std::marker::Model;

/// The condition's variable of each number of a key.
#[derive(Debug, Drop)]
pub struct Back {
    order: Vec<u32>,
}

impl Model for Back {
    ghost use Rattle.std.specs.Prelude.{◌≢◌, ◌≤◌, ℕ, List, AllPairs, length};

    ghost Value = { List ℕ };

    ghost view = { λ back. back.order.items };

    ghost invariant = { λ back. (AllPairs ◌≢◌ back.order.items) × (length back.order.items ≤ 64) };
}

impl Back {
    /// The variables in the order of their numbers, each once and at most 64.
    pub(crate) fn new(order: Vec<u32>) -> Back
        requires distinct { AllPairs ◌≢◌ order.items }
        requires few { length order.items ≤ 64 }
        ensures { result ≡ order.items }
    {
        Back { order }
    }

    /// The condition's variable of the number `v`, which is below the key's width.
    pub fn var(&self, v: u8) -> u32
        requires { v < length self.now }
        ensures var { result ≡ slice_index self.now v }
        ensures distinct { AllPairs ◌≢◌ self.now }
    {
        self.order[usize::from(v)]
    }

    /// The number of the condition's variable in the key, or None where the variable isn't in the slice.
    pub fn of(&self, var: u32) -> Option<u8>
        ensures number { MatchOption result
            (¬ Contains self.now var)
            (λ v. (v < length self.now) × (slice_index self.now v ≡ var)) }
        ensures distinct { AllPairs ◌≢◌ self.now }
    {
        for (v, other) in self.order.iter().enumerate() {
            if *other == var {
                return Some(v as u8);
            }
        }
        None
    }

    /// How many variables the slice has.
    pub fn width(&self) -> u8
        ensures width { result ≡ length self.now }
        ensures few { result ≤ 64 }
    {
        self.order.len() as u8
    }
}
