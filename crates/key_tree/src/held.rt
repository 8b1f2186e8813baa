//! What is held.

/// A key that is held: the place that its atoms lead to, and its number.
#[derive(Clone, Copy, Debug)]
pub struct Held {
    /// The place.
    pub place: u32,
    /// The number.
    pub number: u32,
}
