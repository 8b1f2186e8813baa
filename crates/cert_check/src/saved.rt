//! What became of an entry in the journal.

/// Whether an entry was written to the journal.
#[derive(Clone, Copy, Debug, PartialEq, Eq)]
pub enum Saved {
    /// Its frame stands at this byte of the file, and survives a crash.
    At(u64),
    /// The disk failed.
    Fault,
    /// The journal has no room for it.
    Full,
    /// There is no journal.
    Off,
}
