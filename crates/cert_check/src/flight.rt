//! Open flights.
use crate::shared::Shared;
use lin_model::Key;

/// A flight that is open: one seat's attempt to answer one key.
#[derive(Drop)]
pub struct Flight {
    /// The number of the seat.
    pub seat: u32,
    /// The key that it is on.
    pub key: Shared<Key>,
}
