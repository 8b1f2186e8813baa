//! What happens to the flights of a store.
use crate::shared::Shared;
use lin_model::Key;

/// How a flight ended.
#[derive(Clone, Copy, Debug, PartialEq, Eq)]
pub enum Ending {
    /// Its entry went to this place, from 0, the end of the list.
    Kept(u32),
    /// It had an entry, for which there was no room.
    Unkept,
    /// It spent its budget of splits.
    Spent,
    /// Memory ran out.
    Failed,
}

/// One change of the core machine: a flight, one seat's attempt to answer one key, began or ended.
#[derive(Drop)]
pub enum Event {
    /// The seat began a flight on the key, when it had seen the first n entries, which were all.
    Begun { seat: u32, key: Shared<Key>, n: u32 },
    /// The flight of the seat ended.
    Ended { seat: u32, how: Ending },
}
