//! Frozen lists of entries in layers, and the first entry that decides a key.
#![tactic(auto)]

mod firsts;
mod growth;
mod laws;
mod layer;
mod sharing;
mod tries;
mod version;

pub use laws::{growth_is_determined, later_firsts_are_first};
pub use layer::Layer;
pub use version::Version;
