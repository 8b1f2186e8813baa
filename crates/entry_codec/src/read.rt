//! Reading: each call takes a part from the front of some bytes and answers what is behind it, or where the first fault
//! is.

mod atoms;
pub(crate) mod bodies;
mod fields;
mod keys;
mod nodes;
mod numbers;
mod points;
mod trees;
