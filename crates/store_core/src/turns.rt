//! What is asked of a core, and what it answers.
use cert_check::{Entry, Shared};

/// The answer to a seat that wants to begin a flight.
#[derive(Clone, Copy, Debug, PartialEq, Eq)]
pub enum Enter {
    /// There are entries that the seat hasn't seen.
    Newer,
    /// The seat of this number has a flight on the key.
    Joined(u32),
    /// The flight has begun.
    Began,
}

/// How a flight ends.
#[derive(Drop)]
pub enum How {
    /// With this entry, which goes to the end of the list.
    Kept(Shared<Entry>),
    /// With an entry for which there is no room.
    Unkept,
    /// With its budget of splits spent.
    Spent,
    /// With memory run out.
    Failed,
}
