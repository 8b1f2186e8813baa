//! Sources, sinks and disks: in memory, where they fail as a test wants, and those of a real program.
#![tactic(auto)]

mod file_disk;
mod mem_disk;
mod mem_sink;
mod mem_source;
mod patch;
mod std_sink;
mod std_source;
mod step;
mod steps;

pub use file_disk::FileDisk;
pub use mem_disk::MemDisk;
pub use mem_sink::MemSink;
pub use mem_source::MemSource;
pub use std_sink::StdSink;
pub use std_source::StdSource;
