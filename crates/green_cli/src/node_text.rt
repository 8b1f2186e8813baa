//! Trees as text: a line for each node.
ghost use Rattle.std.specs.Prelude.{◌≡◌, ◌++◌, ℕ, OnOk, codes, decimal, drop, flat_map, take};
ghost use Rattle.lin_text.specs.Spelling.{integer, line};
ghost use Rattle.green_cli.specs.DumpText.{node_text, nodes_text, on_text, own_terms, term_text};

use lin_text::{push_integer, push_number, push_str};
use outside::NoMemory;
use refutation::{LeafTerm, Node, On};

/// Adds a line for each node. Each combination takes the terms that come next.
pub fn push_nodes(out: &mut Vec<u8>, nodes: &[Node], terms: &[LeafTerm]) -> Result<(), NoMemory>
    ensures { OnOk result (out.new.items ≡ out.old.items ++ nodes_text nodes.now terms.now) }
{
    let mut terms = terms;
    for node in nodes {
        let (own, rest) = split_terms(terms, own_terms(*node));
        push_line(out, *node, own)?;
        terms = rest;
    }
    Ok(())
}

/// How many terms are a node's own.
fn own_terms(node: Node) -> usize
    ensures { result ≡ own_terms node }
{
    match node {
        Node::Combo { count } => usize::from(count),
        _ => 0,
    }
}

/// The first `count` terms, or all where there are fewer, and the terms behind them.
fn split_terms(terms: &[LeafTerm], count: usize) -> (&[LeafTerm], &[LeafTerm])
    ensures own { result.0.now ≡ take count terms.now }
    ensures rest { result.1.now ≡ drop count terms.now }
{
    terms.split_at(count.min(terms.len()))
}

/// Adds the line of a node, whose own terms these are.
fn push_line(out: &mut Vec<u8>, node: Node, terms: &[LeafTerm]) -> Result<(), NoMemory>
    ensures { OnOk result (out.new.items ≡ out.old.items ++ line (codes "node " ++ node_text node terms.now)) }
{
    push_str(out, "node ")?;
    push_node(out, node, terms)?;
    push_str(out, "\n")
}

#[tactic(auto, unfolding(crate::specs::DumpText::node_text))]
fn push_node(out: &mut Vec<u8>, node: Node, terms: &[LeafTerm]) -> Result<(), NoMemory>
    ensures { OnOk result (out.new.items ≡ out.old.items ++ node_text node terms.now) }
{
    match node {
        Node::Split { var, cut } => push_split(out, var, cut),
        Node::NeSplit { atom } => push_numbered(out, "nesplit a", atom),
        Node::Combo { .. } => {
            push_str(out, "combo")?;
            push_terms(out, terms)
        }
        Node::Fixed { atom } => push_numbered(out, "fixed a", atom),
        Node::Empty => push_str(out, "empty"),
        Node::Left => push_str(out, "left"),
    }
}

fn push_split(out: &mut Vec<u8>, var: u8, cut: i64) -> Result<(), NoMemory>
    ensures { OnOk result (out.new.items
        ≡ out.old.items ++ (codes "split v" ++ decimal var ++ codes " " ++ integer cut)) }
{
    push_str(out, "split v")?;
    push_number(out, u64::from(var))?;
    push_str(out, " ")?;
    push_integer(out, cut)
}

/// Adds words that end in a number.
fn push_numbered(out: &mut Vec<u8>, words: &str, number: u16) -> Result<(), NoMemory>
    ensures { OnOk result (out.new.items ≡ out.old.items ++ (words.now ++ decimal number)) }
{
    push_str(out, words)?;
    push_number(out, u64::from(number))
}

fn push_terms(out: &mut Vec<u8>, terms: &[LeafTerm]) -> Result<(), NoMemory>
    ensures { OnOk result (out.new.items ≡ out.old.items ++ flat_map term_text terms.now) }
{
    for term in terms {
        push_term(out, *term)?;
    }
    Ok(())
}

#[tactic(auto, unfolding(crate::specs::DumpText::term_text))]
fn push_term(out: &mut Vec<u8>, term: LeafTerm) -> Result<(), NoMemory>
    ensures { OnOk result (out.new.items ≡ out.old.items ++ term_text term) }
{
    push_str(out, " ")?;
    push_integer(out, term.factor)?;
    push_str(out, "*")?;
    push_on(out, term.on)
}

#[tactic(auto, unfolding(crate::specs::DumpText::on_text))]
fn push_on(out: &mut Vec<u8>, on: On) -> Result<(), NoMemory>
    ensures { OnOk result (out.new.items ≡ out.old.items ++ on_text on) }
{
    match on {
        On::Atom(number) => push_numbered(out, "a", number),
        On::Side(number) => push_numbered(out, "s", number),
    }
}
