//! Answers to whole queries, by their slices.
#![tactic(auto)]

mod answers;
mod asking;
mod laws;
mod model;
mod query;
mod slice_keys;
mod verdicts;

pub use answers::{Answer, Verdict};
pub use laws::{
    answering_keeps_answers, answers_are_right, answers_exist, sufficient_budgets_decide,
};
pub use query::answer;
