//! The nodes of trees. The terms of all combinations go into one vector, in order.
ghost use Rattle.std.specs.Prelude.{◌≡◌};
ghost use Rattle.entry_codec.specs.Reading.{pushed_at, repeat};
ghost use Rattle.entry_codec.specs.Gives.{Gives};
ghost use Rattle.entry_codec.specs.Nodes.{split};
ghost use Rattle.entry_codec.specs.NodeReading.{on_of, on_at, leaf_term_at, split_at};
ghost use Rattle.entry_codec.specs.TreeReading.{own_terms_at, node_behind, fields_behind};

use super::fields::{
    cut_at, factor_at, leaf_count_at, node_kind_at, on_kind_at, reference_at, split_var_at,
};
use crate::fault::ReadFault;
use crate::kind::{NodeKind, OnKind};
use refutation::{LeafTerm, Node, On};

/// What a term of a combination is on.
#[tactic(auto, unfolding(crate::specs::NodeReading::on_at))]
fn on_at(bytes: &[u8]) -> Result<(On, &[u8]), ReadFault>
    ensures { Gives (λ x. (x.0, x.1.now)) result (on_at bytes.now) }
{
    let (kind, rest) = on_kind_at(bytes)?;
    let (number, rest) = reference_at(rest)?;
    Ok((on_of(kind, number), rest))
}

/// The atom or the side of this number.
fn on_of(kind: OnKind, number: u16) -> On
    ensures { result ≡ on_of kind number }
{
    match kind {
        OnKind::Atom => On::Atom(number),
        OnKind::Side => On::Side(number),
    }
}

/// A term of a combination.
#[tactic(auto, unfolding(crate::specs::NodeReading::leaf_term_at))]
fn leaf_term_at(bytes: &[u8]) -> Result<(LeafTerm, &[u8]), ReadFault>
    ensures { Gives (λ x. (x.0, x.1.now)) result (leaf_term_at bytes.now) }
{
    let (on, rest) = on_at(bytes)?;
    let (factor, rest) = factor_at(rest)?;
    Ok((LeafTerm { on, factor }, rest))
}

/// Puts so many terms behind those that stand there, and answers what is behind them.
fn push_leaf_terms<'a>(
    terms: &mut Vec<LeafTerm>,
    count: u8,
    bytes: &'a [u8],
) -> Result<&'a [u8], ReadFault>
    ensures { Gives (λ rest. (terms.new.items, rest.now)) result
        (repeat (pushed_at (λ before. leaf_term_at)) count terms.old.items bytes.now) }
{
    let mut rest = bytes;
    for _ in 0..count {
        let (term, after) = leaf_term_at(rest)?;
        terms.push(term)?;
        rest = after;
    }
    Ok(rest)
}

/// Puts the terms of a combination behind those of others, and answers their number and what is behind them.
fn leaf_terms_at<'a>(
    terms: &mut Vec<LeafTerm>,
    bytes: &'a [u8],
) -> Result<(u8, &'a [u8]), ReadFault>
    ensures { Gives (λ x. ((x.0, terms.new.items), x.1.now)) result
        (own_terms_at terms.old.items bytes.now) }
{
    let (count, rest) = leaf_count_at(bytes)?;
    let rest = push_leaf_terms(terms, count, rest)?;
    Ok((count, rest))
}

/// The variable and the cut of a split.
#[tactic(auto, unfolding(crate::specs::NodeReading::split_at))]
fn split_at(bytes: &[u8]) -> Result<(u8, i64, &[u8]), ReadFault>
    ensures { Gives (λ x. (split x.0 x.1, x.2.now)) result (split_at bytes.now) }
{
    let (var, rest) = split_var_at(bytes)?;
    let (cut, rest) = cut_at(rest)?;
    Ok((var, cut, rest))
}

/// A node of this kind. Its terms come behind those of the nodes before it.
#[tactic(auto, unfolding(crate::specs::NodeReading::node_fields_at, crate::specs::TreeReading::own_terms_at, crate::specs::TreeReading::fields_behind))]
fn node_fields_at<'a>(
    kind: NodeKind,
    terms: &mut Vec<LeafTerm>,
    bytes: &'a [u8],
) -> Result<(Node, &'a [u8]), ReadFault>
    ensures { Gives (λ x. ((x.0, terms.new.items), x.1.now)) result
        (fields_behind kind terms.old.items bytes.now) }
{
    match kind {
        NodeKind::Split => {
            let (var, cut, rest) = split_at(bytes)?;
            Ok((Node::Split { var, cut }, rest))
        }
        NodeKind::NeSplit => {
            let (atom, rest) = reference_at(bytes)?;
            Ok((Node::NeSplit { atom }, rest))
        }
        NodeKind::Combo => {
            let (count, rest) = leaf_terms_at(terms, bytes)?;
            Ok((Node::Combo { count }, rest))
        }
        NodeKind::Fixed => {
            let (atom, rest) = reference_at(bytes)?;
            Ok((Node::Fixed { atom }, rest))
        }
        NodeKind::Empty => Ok((Node::Empty, bytes)),
    }
}

/// A node. Its terms come behind those of the nodes before it.
#[tactic(auto, unfolding(crate::specs::NodeReading::node_at, crate::specs::TreeReading::node_behind, crate::specs::TreeReading::fields_behind))]
pub(crate) fn node_at<'a>(
    terms: &mut Vec<LeafTerm>,
    bytes: &'a [u8],
) -> Result<(Node, &'a [u8]), ReadFault>
    ensures { Gives (λ x. ((x.0, terms.new.items), x.1.now)) result
        (node_behind terms.old.items bytes.now) }
{
    let (kind, rest) = node_kind_at(bytes)?;
    node_fields_at(kind, terms, rest)
}
