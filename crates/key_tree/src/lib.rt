//! Trees of keys, each under a number: what the tries of satisfied keys and of cores are walks of.
#![tactic(auto)]

mod asked;
mod branch;
mod chain;
mod front;
mod growth;
mod held;
mod kid;
mod laws;
mod mask;
mod numbers;
mod place;
mod position;
mod runs;
mod tree;

pub use asked::Asked;
pub use kid::Kid;
pub use laws::{
    masks_are_right, prefixes_are_counted, prints_are_right, visits_go_on, walks_go_on,
};
pub use mask::is_within;
pub use numbers::{ABOVE_ALL, lesser, number_of};
pub use runs::Run;
pub use tree::KeyTree;
