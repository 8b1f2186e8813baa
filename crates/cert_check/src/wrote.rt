//! What the journal did for a seat.
use crate::entry::Entry;
use crate::shared::Shared;

/// One append to the journal, with the seat for which it was made.
#[derive(Drop)]
pub enum Wrote {
    /// The frame of the entry was written at this byte of the file.
    At {
        seat: u32,
        at: u64,
        entry: Shared<Entry>,
    },
    /// The disk failed.
    Fault {
        seat: u32,
    },
    /// There was no room for the entry.
    Full {
        seat: u32,
        entry: Shared<Entry>,
    },
}
