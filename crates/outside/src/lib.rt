//! The world as traits: sources, sinks and disks, each with a count of its faults, and gates.
#![tactic(auto)]

mod disk;
mod errors;
mod gate;
mod sink;
mod source;

pub use disk::Disk;
pub use errors::{Failed, NoMemory};
pub use gate::{Gate, NoGate};
pub use sink::Sink;
pub use source::Source;
