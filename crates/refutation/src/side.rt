//! Sides: what the two boxes of a split by an atom `form != c` keep besides the bounds.

/// One side of the atom `form != c` of this number: `form <= c - 1`, or with `upper` `form >= c + 1`.
#[derive(Clone, Copy, Debug, Default, PartialEq, Eq)]
pub struct Side {
    /// The number of the atom in the key, from 0.
    pub atom: u16,
    /// Whether it is the side above the constant.
    pub upper: bool,
}
