//! The region that trees are built in.

use refutation::{LeafTerm, Node};
use tree_pool::Region;

/// Nodes of trees, the terms of their combinations in the same order, and the trail of a search: for each split above the
/// box at hand the variable or the atom that it is by, what undoes it, and which half the search is in.
pub type TreeRegion = Region<Node, LeafTerm, (u8, i64, bool)>;
