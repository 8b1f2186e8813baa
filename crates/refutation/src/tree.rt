//! Trees: nodes in preorder, and the terms of their combinations.

ghost use Rattle.std.specs.Prelude.{◌≡◌};

use crate::leaf::LeafTerm;
use crate::node::Node;
use std::marker::Model;

/// The nodes of a tree in preorder, and the terms of all its combinations in the same order: a combination takes the
/// next `count` of them. What it refutes is for `refutes` to say.
#[derive(Debug, Drop)]
pub struct Tree {
    nodes: Vec<Node>,
    terms: Vec<LeafTerm>,
}

impl Model for Tree {
    ghost use Rattle.refutation.specs.Tree.{PlainTree};

    ghost Value = { PlainTree };

    ghost view = { λ t. record { nodes = t.nodes.items; terms = t.terms.items } };
}

impl Tree {
    /// The tree of these nodes and terms.
    pub fn new(nodes: Vec<Node>, terms: Vec<LeafTerm>) -> Tree
        ensures { result ≡ record { nodes = nodes.items; terms = terms.items } }
    {
        Tree { nodes, terms }
    }

    /// The nodes, in preorder.
    pub fn nodes(&self) -> &[Node]
        ensures { result.now ≡ self.now.nodes }
    {
        &self.nodes
    }

    /// The terms, in the order of the combinations that take them.
    pub fn terms(&self) -> &[LeafTerm]
        ensures { result.now ≡ self.now.terms }
    {
        &self.terms
    }

    /// Gives the nodes and the terms back.
    pub fn into_parts(self) -> (Vec<Node>, Vec<LeafTerm>)
        ensures nodes { result.0.items ≡ self.nodes }
        ensures terms { result.1.items ≡ self.terms }
    {
        let Tree { nodes, terms } = self;
        (nodes, terms)
    }
}
