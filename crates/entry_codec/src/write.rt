//! Writing: each call adds a part at the end of some bytes. Where memory runs out, what was added is no part.

mod atoms;
mod frame;
mod nodes;
mod numbers;

pub use frame::write_frame;
