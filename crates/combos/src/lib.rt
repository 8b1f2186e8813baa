//! What closes a box: an atom, the sum of two, or a combination of more that elimination finds.
#![tactic(auto)]

mod column;
mod corner;
mod elimination;
mod fixed;
mod found;
mod pair;
mod pivot;
mod row;
mod tableau;
mod term;
mod unit;
mod worths;

pub use found::find_combo;
