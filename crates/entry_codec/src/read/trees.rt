//! Trees.
ghost use Rattle.std.specs.Prelude.{◌≡◌};
ghost use Rattle.entry_codec.specs.Reading.{mapped_at, list_at};
ghost use Rattle.entry_codec.specs.Gives.{Gives};
ghost use Rattle.entry_codec.specs.Nodes.{tree_of};
ghost use Rattle.entry_codec.specs.NodeReading.{node_at};
ghost use Rattle.entry_codec.specs.TreeReading.{tree_at};

use super::fields::node_count_at;
use super::nodes::node_at;
use crate::fault::ReadFault;
use refutation::Tree;
use std::alloc::Global;

/// The tree of so many nodes.
fn node_list_at(alloc: Global, count: u32, bytes: &[u8]) -> Result<(Tree, &[u8]), ReadFault>
    ensures { Gives (λ x. (x.0, x.1.now)) result
        (mapped_at tree_of (list_at (λ before. node_at) count) bytes.now) }
{
    let mut nodes = Vec::new(alloc);
    let mut terms = Vec::new(alloc);
    let mut rest = bytes;
    for _ in 0..count {
        let (node, after) = node_at(&mut terms, rest)?;
        nodes.push(node)?;
        rest = after;
    }
    Ok((Tree::new(nodes, terms), rest))
}

/// A tree: the number of its nodes, the nodes.
#[tactic(auto, unfolding(crate::specs::NodeReading::nodes_at, crate::specs::TreeReading::tree_at))]
pub(crate) fn tree_at(alloc: Global, bytes: &[u8]) -> Result<(Tree, &[u8]), ReadFault>
    ensures { Gives (λ x. (x.0, x.1.now)) result (tree_at bytes.now) }
{
    let (count, rest) = node_count_at(bytes)?;
    node_list_at(alloc, count, rest)
}
