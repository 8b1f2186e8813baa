//! Answers as texts, spelled as arguments are.
use lin_model::{Key, KeyAtom};
use lin_text::push_key_atom;
use outside::NoMemory;
use refutation::{LeafTerm, Node, On};
use row_table::RowFault;
use std::alloc::{AllocError, Global};
use std::fmt;

/// A node, as arguments spell it.
#[derive(Drop)]
pub struct Spelled(pub Node);

impl fmt::Display for Spelled {
    fn fmt<W: fmt::Write>(&self, f: &mut fmt::Formatter<W>) -> fmt::Result {
        match self.0 {
            Node::Split { var, cut } => write!(f, "split v{var} {cut}"),
            Node::NeSplit { atom } => write!(f, "ne {atom}"),
            Node::Combo { count } => write!(f, "sum {count}"),
            Node::Fixed { atom } => write!(f, "fixed {atom}"),
            Node::Empty => write!(f, "empty"),
            Node::Left => write!(f, "left"),
        }
    }
}

/// A tree: its nodes and, if it has any, its terms.
pub fn tree_text(alloc: Global, nodes: &[Node], terms: &[LeafTerm]) -> Result<String, AllocError> {
    let mut text = nodes_text(alloc, nodes)?;
    if !terms.is_empty() {
        text.push_str(" |")?;
    }
    push_terms(alloc, &mut text, terms)?;
    Ok(text)
}

/// Nodes with commas between them.
pub fn nodes_text(alloc: Global, nodes: &[Node]) -> Result<String, AllocError> {
    let mut text = String::new(alloc);
    for node in nodes {
        push_comma(&mut text)?;
        text.push_str(&format!(in alloc; "{}", Spelled(*node))?)?;
    }
    Ok(text)
}

/// Adds what stands in front of an item, unless it is the first.
fn push_comma(text: &mut String) -> Result<(), AllocError> {
    if text.is_empty() {
        return Ok(());
    }
    text.push_str(", ")
}

/// Adds terms, a blank in front of each.
pub fn push_terms(alloc: Global, text: &mut String, terms: &[LeafTerm]) -> Result<(), AllocError> {
    for term in terms {
        text.push_str(&term_text(alloc, *term)?)?;
    }
    Ok(())
}

fn term_text(alloc: Global, term: LeafTerm) -> Result<String, AllocError> {
    let (letter, number) = match term.on {
        On::Atom(number) => ('a', number),
        On::Side(number) => ('s', number),
    };
    let factor = term.factor;
    if factor == 1 {
        format!(in alloc; " {letter}{number}")
    } else {
        format!(in alloc; " {letter}{number}*{factor}")
    }
}

/// Adds values, a blank in front of each.
pub fn push_values(alloc: Global, text: &mut String, values: &[i64]) -> Result<(), AllocError> {
    for value in values {
        text.push_str(&format!(in alloc; " {value}")?)?;
    }
    Ok(())
}

/// The atoms of a key with semicolons between them.
pub fn key_text(alloc: Global, key: &Key) -> Result<String, RowFault> {
    let mut text = Vec::new(alloc);
    for atom in key.atoms() {
        push_atom(&mut text, atom)?;
    }
    Ok(String::from_utf8(text)?)
}

/// Adds an atom, with a semicolon in front of it unless it is the first.
fn push_atom(text: &mut Vec<u8>, atom: &KeyAtom) -> Result<(), NoMemory> {
    if !text.is_empty() {
        text.push(b';')?;
    }
    push_key_atom(text, atom)
}

/// A place that was found, or `none`.
pub fn place_text(alloc: Global, place: Option<u32>) -> Result<String, AllocError> {
    match place {
        Some(place) => format!(in alloc; "{place}"),
        None => String::from_str(alloc, "none"),
    }
}

/// `yes` or `no`.
pub fn yes_or_no(alloc: Global, yes: bool) -> Result<String, AllocError> {
    String::from_str(alloc, if yes { "yes" } else { "no" })
}
