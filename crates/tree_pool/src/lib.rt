//! Lists whose room is reserved once, so that a search pushes and pops without memory.
#![tactic(auto)]

mod mark;
mod region;

pub use mark::Mark;
pub use region::{MAX_SPLITS, Region};
