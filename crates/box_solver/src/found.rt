//! What a search comes to.

use arrayvec::ArrayVec;

/// How a search ended.
#[derive(Debug, Drop)]
pub enum Found {
    /// A point that satisfies the key: one value for each variable below the key's width.
    Model(ArrayVec<i64, 64>),
    /// The tree refutes the key.
    Refuted,
    /// The budget of splits is used up, and the tree marks the boxes that are left.
    Spent,
}
