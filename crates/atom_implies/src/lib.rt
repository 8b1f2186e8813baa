//! Implication between canonical atoms of equal form, at a counted step each.
#![tactic(auto)]

mod implication;
mod laws;
mod steps;

pub use implication::implies;
pub use laws::{covered_keys_hold, table_is_right};
pub use steps::Steps;
