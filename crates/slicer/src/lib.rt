//! Cuts a condition into slices that share no variable.
#![tactic(auto)]

mod classes;
mod division;
mod laws;
mod members;
mod named;
mod slice;
mod spread;
mod var_set;

pub use division::slices;
pub use laws::{slices_are_a_partition, slices_are_unique, slices_exist};
pub use slice::Slice;
