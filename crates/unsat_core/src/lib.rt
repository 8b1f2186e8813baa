//! Cores: the atoms of a refuted key that its tree needs.
#![tactic(auto)]

mod chosen;
mod core_laws;
mod find;
mod laws;
mod least;
mod named;
mod refuted;

pub use core_laws::{chosen_are_keys, refuted_keys_have_cores};
pub use find::find_core;
pub use laws::{choices_are_closed_alike, others_can_go};
