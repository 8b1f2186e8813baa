//! The nodes of trees.
ghost use Rattle.std.specs.Prelude.{◌≡◌, ◌≤◌, ◌<◌, ◌^◌, ◌++◌, [], ◌∷◌, length, take, drop, OnOk, IfOk};
ghost use Rattle.entry_codec.specs.Grammar.{spell_list, counted};
ghost use Rattle.entry_codec.specs.Nodes.{on, leaf_term, node, nodes_of, split, ne_split, combo, fixed, empty};
ghost use Rattle.entry_codec.specs.Writing.{taken_by, taken_by_all, HasShortSide, NamesShortSides};

use super::numbers::{push_integer, push_short, push_small};
use crate::kind::{NodeKind, OnKind};
use outside::NoMemory;
use refutation::{LeafTerm, Node, On};

/// Adds the nodes of a tree, each combination with the terms that come next, of which none is left over. Where this
/// succeeds, the number of each side is known to fit its field, as the type of terms keeps.
pub(crate) fn push_nodes(
    out: &mut Vec<u8>,
    nodes: &[Node],
    terms: &[LeafTerm],
) -> Result<(), NoMemory>
    requires { taken_by_all nodes.now ≡ length terms.now }
    ensures bytes { OnOk result
        (out.new.items ≡ out.old.items ++ spell_list (λ before. node) (nodes_of nodes.now terms.now)) }
    ensures short { OnOk result (NamesShortSides terms.now) }
{
    let mut rest = terms;
    for each in nodes {
        rest = push_node(out, *each, rest)?;
    }
    Ok(())
}

/// Adds a node, a combination with the first of these terms. Answers the terms behind them.
fn push_node<'a>(
    out: &mut Vec<u8>,
    one: Node,
    terms: &'a [LeafTerm],
) -> Result<&'a [LeafTerm], NoMemory>
    requires { taken_by one ≤ length terms.now }
    ensures bytes { OnOk result
        (out.new.items ≡ out.old.items ++ spell_list (λ before. node) (nodes_of (one ∷ []) terms.now)) }
    ensures rest { IfOk result (λ rest. rest.now ≡ drop (taken_by one) terms.now) }
    ensures short { OnOk result (NamesShortSides (take (taken_by one) terms.now)) }
{
    match one {
        Node::Split { var, cut } => push_split(out, var, cut)?,
        Node::NeSplit { atom } => push_ne_split(out, atom)?,
        Node::Combo { count } => {
            let (own, rest) = terms.split_at(usize::from(count));
            push_combo(out, own)?;
            return Ok(rest);
        }
        Node::Fixed { atom } => push_fixed(out, atom)?,
        Node::Empty => push_empty(out)?,
        Node::Left => {}
    }
    Ok(terms)
}

/// Adds a split of a variable.
#[tactic(auto, unfolding(crate::specs::Nodes::node, crate::specs::Nodes::node_fields, crate::specs::Fields::node_kind, crate::specs::Fields::split_var, crate::specs::Fields::cut))]
fn push_split(out: &mut Vec<u8>, var: u8, at: i64) -> Result<(), NoMemory>
    ensures { OnOk result (out.new.items ≡ out.old.items ++ node.spell (split var at)) }
{
    out.push(NodeKind::Split.code())?;
    push_small(out, var)?;
    push_integer(out, at)
}

/// Adds a split by an atom.
#[tactic(auto, unfolding(crate::specs::Nodes::node, crate::specs::Nodes::node_fields, crate::specs::Fields::node_kind, crate::specs::Fields::reference))]
fn push_ne_split(out: &mut Vec<u8>, atom: u16) -> Result<(), NoMemory>
    ensures { OnOk result (out.new.items ≡ out.old.items ++ node.spell (ne_split atom)) }
{
    out.push(NodeKind::NeSplit.code())?;
    push_short(out, atom)
}

/// Adds a combination of these terms.
#[tactic(auto, unfolding(crate::specs::Nodes::node, crate::specs::Nodes::node_fields, crate::specs::Fields::node_kind, crate::specs::Fields::leaf_count))]
fn push_combo(out: &mut Vec<u8>, terms: &[LeafTerm]) -> Result<(), NoMemory>
    requires { length terms.now < 2 ^ 8 }
    ensures bytes { OnOk result (out.new.items ≡ out.old.items ++ node.spell (combo terms.now)) }
    ensures short { OnOk result (NamesShortSides terms.now) }
{
    out.push(NodeKind::Combo.code())?;
    push_small(out, terms.len() as u8)?;
    push_leaf_terms(out, terms)
}

/// Adds an atom of one value.
#[tactic(auto, unfolding(crate::specs::Nodes::node, crate::specs::Nodes::node_fields, crate::specs::Fields::node_kind, crate::specs::Fields::reference))]
fn push_fixed(out: &mut Vec<u8>, atom: u16) -> Result<(), NoMemory>
    ensures { OnOk result (out.new.items ≡ out.old.items ++ node.spell (fixed atom)) }
{
    out.push(NodeKind::Fixed.code())?;
    push_short(out, atom)
}

/// Adds that the box is empty.
#[tactic(auto, unfolding(crate::specs::Nodes::node, crate::specs::Nodes::node_fields, crate::specs::Fields::node_kind))]
fn push_empty(out: &mut Vec<u8>) -> Result<(), NoMemory>
    ensures { OnOk result (out.new.items ≡ out.old.items ++ node.spell empty) }
{
    out.push(NodeKind::Empty.code())?;
    Ok(())
}

/// Adds the terms of a combination, one behind the other.
fn push_leaf_terms(out: &mut Vec<u8>, terms: &[LeafTerm]) -> Result<(), NoMemory>
    ensures bytes { OnOk result (out.new.items ≡ out.old.items ++ spell_list (λ before. leaf_term) terms.now) }
    ensures short { OnOk result (NamesShortSides terms.now) }
{
    for each in terms {
        push_leaf_term(out, *each)?;
    }
    Ok(())
}

/// Adds a term of a combination: what it is on, and its factor.
#[tactic(auto, unfolding(crate::specs::Nodes::leaf_term, crate::specs::Fields::factor))]
fn push_leaf_term(out: &mut Vec<u8>, one: LeafTerm) -> Result<(), NoMemory>
    ensures bytes { OnOk result (out.new.items ≡ out.old.items ++ leaf_term.spell one) }
    ensures short { OnOk result (HasShortSide one.on) }
{
    push_on(out, one.on)?;
    push_integer(out, one.factor)
}

/// Adds an atom or a side.
#[tactic(auto, unfolding(crate::specs::Nodes::on, crate::specs::Fields::on_kind, crate::specs::Fields::reference))]
fn push_on(out: &mut Vec<u8>, one: On) -> Result<(), NoMemory>
    ensures bytes { OnOk result (out.new.items ≡ out.old.items ++ on.spell one) }
    ensures short { OnOk result (HasShortSide one) }
{
    match one {
        On::Atom(number) => {
            out.push(OnKind::Atom.code())?;
            push_short(out, number)
        }
        On::Side(number) => {
            out.push(OnKind::Side.code())?;
            push_short(out, number)
        }
    }
}
