//! What a search writes into its region: the nodes of its tree with their terms, and the end of its trail.

ghost use Rattle.std.specs.Prelude.{◌≡◌, ◌+◌, ◌<◌, ◌≤◌, [], ◌∷◌, ◌++◌, length, replicate};
ghost use Rattle.refutation.specs.Leaf.{leaf_of};
ghost use Rattle.box_solver.specs.Nodes.{leaf_node, leaf_terms, halves, IsSplitOf, Enters};
ghost use Rattle.box_solver.specs.Region.{Adds, KeepsTrail, EmptiesTrail};
ghost use Rattle.box_solver.specs.Trail.{IsTrail, waiting, waiting_count, undecided};

use crate::position::Position;
use crate::region::TreeRegion;
use refutation::{Leaf, LeafTerm, Node};

/// Appends the node of a leaf and its terms.
pub(crate) fn push_leaf(region: &mut TreeRegion, leaf: &Leaf)
    requires nodes { 1 ≤ region.old.spare_nodes }
    requires terms { 8 ≤ region.old.spare_terms }
    ensures adds { Adds region.old region.new (leaf_node (leaf_of leaf.now) ∷ []) (leaf_terms (leaf_of leaf.now)) }
    ensures trail { KeepsTrail region.old region.new }
{
    match leaf {
        Leaf::Combo(terms) => push_combo(region, terms.as_slice()),
        Leaf::Fixed(atom) => region.push_node(Node::Fixed { atom: *atom }),
        Leaf::Empty => region.push_node(Node::Empty),
    }
}

/// Appends a combination of these terms.
fn push_combo(region: &mut TreeRegion, terms: &[LeafTerm])
    requires few { length terms.now ≤ 8 }
    requires nodes { 1 ≤ region.old.spare_nodes }
    requires terms { 8 ≤ region.old.spare_terms }
    ensures adds { Adds region.old region.new (Node.Combo (length terms.now) ∷ []) terms.now }
    ensures trail { KeepsTrail region.old region.new }
{
    let count = terms.len() as u8;
    region.push_node(Node::Combo { count });
    for term in terms {
        region.push_term(*term);
    }
}

/// Appends the node of a split, and goes to the first of its halves, while the other one waits.
pub(crate) fn enter(position: &mut Position, region: &mut TreeRegion, node: Node)
    requires split { IsSplitOf position.old node }
    requires nodes { 1 ≤ region.old.spare_nodes }
    requires room { 1 ≤ region.old.spare_trail }
    requires trail { IsTrail position.old.bounds region.old.trail }
    ensures boxes { undecided region.new.trail position.new
        ≡ halves node position.old ++ waiting region.old.trail position.old }
    ensures enters { Enters node region.old region.new }
    ensures trail { IsTrail position.new.bounds region.new.trail }
{
    region.push_node(node);
    match node {
        Node::Split { var, cut } => position.cut_left(region, var, cut),
        Node::NeSplit { atom } => position.ne_left(region, atom),
        Node::Combo { .. } | Node::Fixed { .. } | Node::Empty | Node::Left => unreachable!(),
    }
}

/// Marks the box at hand and each that waits as left, and empties the trail.
pub(crate) fn leave_open(region: &mut TreeRegion)
    requires { waiting_count region.old.trail < region.old.spare_nodes }
    ensures left { Adds region.old region.new (replicate (waiting_count region.old.trail + 1) Node.Left) [] }
    ensures trail { EmptiesTrail region.old region.new }
{
    region.push_node(Node::Left);
    while let Some((_, _, in_second_half)) = region.pop_trail() {
        if !in_second_half {
            region.push_node(Node::Left);
        }
    }
}

/// Empties the trail.
pub(crate) fn empty_trail(region: &mut TreeRegion)
    ensures adds_none { Adds region.old region.new [] [] }
    ensures trail { EmptiesTrail region.old region.new }
{
    while region.pop_trail().is_some() {}
}
