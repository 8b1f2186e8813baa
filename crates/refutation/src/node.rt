//! Nodes of refutation trees and search trees, in preorder.

/// One node. It treats the first undecided box. Atoms and variables are known by their numbers from 0.
#[derive(Clone, Copy, Debug, PartialEq, Eq)]
pub enum Node {
    /// Splits the box: first the half with the variable at most `cut`, then the half with it at least `cut + 1`.
    Split { var: u8, cut: i64 },
    /// Splits the box by the atom `form != c` of this number: first the half with `form <= c - 1`, then the half with
    /// `form >= c + 1`.
    NeSplit { atom: u16 },
    /// Closes the box by a combination of the `count` terms that come next.
    Combo { count: u8 },
    /// Closes the box by an atom whose form has one value there.
    Fixed { atom: u16 },
    /// Closes a box that is empty.
    Empty,
    /// Leaves the box undecided. It stands in open trees alone.
    Left,
}
