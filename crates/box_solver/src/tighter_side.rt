//! Sides that atoms give.

/// A side of a variable of a box that an atom gives, tighter than the box's own.
#[derive(Clone, Copy, Debug, PartialEq, Eq)]
pub struct TighterSide {
    /// The least or the greatest value that the atom leaves.
    pub value: i64,
    /// Whether it is the greatest.
    pub upper: bool,
}
