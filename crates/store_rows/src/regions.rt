//! Calls on the region that trees are built in: `room`, `pushed`, `released`.
use crate::reading::{budget_of, halves};
use crate::searches::boxed;
use crate::writing::nodes_text;
use box_solver::{TreeRegion, solve};
use refutation::Node;
use row_table::RowFault;
use std::alloc::Global;

/// Of `SPLITS`: the room of a region that was reserved for so many, and what its trail has.
pub fn room(alloc: Global, argument: &str) -> Result<String, RowFault> {
    let mut region = TreeRegion::reserve(alloc, budget_of(argument)?)?;
    let nodes = region.spare_nodes();
    let terms = region.spare_terms();
    let trail = region.spare_trail();
    let has = if region.pop_trail().is_some() {
        "an item"
    } else {
        "nothing"
    };
    Ok(format!(in alloc; "{nodes} nodes, {terms} terms, {trail} on the trail, which has {has}")?)
}

/// A region for one split is filled with `empty, left, empty` and cut back to two nodes: what stands there, and the room
/// for nodes.
pub fn cut_back(alloc: Global) -> Result<String, RowFault> {
    let mut region = TreeRegion::reserve(alloc, 1)?;
    region.push_node(Node::Empty);
    region.push_node(Node::Left);
    let mark = region.mark();
    region.push_node(Node::Empty);
    region.release(mark);
    let nodes = nodes_text(alloc, region.nodes())?;
    let spare = region.spare_nodes();
    Ok(format!(in alloc; "{nodes}, and room for {spare}")?)
}

/// Of `BUDGET | KEY`: how many nodes a region has behind a search, and how many where it was cut back to before it.
pub fn cut_back_search(alloc: Global, argument: &str) -> Result<String, RowFault> {
    let (budget, key) = halves(argument);
    let budget = budget_of(budget)?;
    let key = boxed(alloc, key)?;
    let mut region = TreeRegion::reserve(alloc, budget)?;
    let mark = region.mark();
    let _found = solve(&key, budget, &mut region);
    let behind = region.nodes().len();
    region.release(mark);
    let left = region.nodes().len();
    Ok(format!(in alloc; "{behind} nodes, then {left}")?)
}
