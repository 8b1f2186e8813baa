//! What the arguments of calls say: conditions, keys, points, nodes of trees and the terms of their leaves.
ghost use Rattle.std.specs.Prelude.{◌≤◌, IfOk};

use lin_model::{Condition, Key, KeyAtom, Point};
use lin_text::{TextKind, read_atom, read_query};
use refutation::{LeafTerm, Node, On};
use row_table::RowFault;
use std::alloc::Global;

/// The text in front of the first bar and the text behind it, which is empty where there is no bar.
pub fn halves(text: &str) -> (&str, &str) {
    match text.split_once('|') {
        Some((front, behind)) => (front.trim(), behind.trim()),
        None => (text.trim(), ""),
    }
}

/// The condition that the whole text spells, with a semicolon in place of each line feed.
pub fn condition_of(alloc: Global, text: &str) -> Result<Condition, RowFault> {
    let lines = text.replace(alloc, ';', "\n")?;
    match read_query(alloc, lines.as_bytes(), 0, false) {
        Ok((condition, end)) if end == lines.len() => Ok(condition),
        Err(fault) if fault.kind == TextKind::NoMemory => Err(RowFault::NoMemory),
        _ => Err(RowFault::NoCall),
    }
}

/// The key of these canonical atoms, which stand in order with a semicolon between each two.
pub fn key_of(alloc: Global, text: &str) -> Result<Key, RowFault> {
    match Key::of(atoms_of(alloc, text)?) {
        Ok(key) => Ok(key),
        Err(_) => Err(RowFault::NoCall),
    }
}

fn atoms_of(alloc: Global, text: &str) -> Result<Vec<KeyAtom>, RowFault> {
    let mut atoms = Vec::new(alloc);
    if text.is_empty() {
        return Ok(atoms);
    }
    for atom in text.split(';') {
        atoms.push(atom_of(alloc, atom.trim())?)?;
    }
    Ok(atoms)
}

/// The canonical atom that the whole text spells.
pub fn atom_of(alloc: Global, text: &str) -> Result<KeyAtom, RowFault> {
    match read_atom(alloc, text.as_bytes()) {
        Ok(atom) => Ok(atom),
        Err(fault) if fault.kind == TextKind::NoMemory => Err(RowFault::NoMemory),
        Err(_) => Err(RowFault::NoCall),
    }
}

/// The point of these values, with blanks between them.
pub fn point_of(alloc: Global, text: &str) -> Result<Point, RowFault> {
    let mut values = Vec::new(alloc);
    for value in text.split_whitespace() {
        values.push(number_of(value)?)?;
    }
    match Point::of(values) {
        Ok(point) => Ok(point),
        Err(_) => Err(RowFault::NoCall),
    }
}

/// A tree as far as rows spell it: its nodes, and the terms of all its combinations.
#[derive(Drop)]
pub struct SpelledTree {
    pub nodes: Vec<Node>,
    pub terms: Vec<LeafTerm>,
}

/// The tree of nodes, in preorder with commas between them, and behind a bar of terms with blanks between them.
pub fn tree_of(alloc: Global, text: &str) -> Result<SpelledTree, RowFault> {
    let (nodes, terms) = halves(text);
    Ok(SpelledTree {
        nodes: nodes_of(alloc, nodes)?,
        terms: terms_of(alloc, terms)?,
    })
}

fn nodes_of(alloc: Global, text: &str) -> Result<Vec<Node>, RowFault> {
    let mut nodes = Vec::new(alloc);
    for node in text.split(',') {
        push_node(&mut nodes, node.trim())?;
    }
    Ok(nodes)
}

/// Adds the node, unless the text is empty.
fn push_node(nodes: &mut Vec<Node>, text: &str) -> Result<(), RowFault> {
    if !text.is_empty() {
        nodes.push(node_of(text)?)?;
    }
    Ok(())
}

/// The node that its name and its numbers spell, as `split v1 0`, `ne 2`, `sum 2`, `fixed 0`, `empty` and `left`.
pub fn node_of(text: &str) -> Result<Node, RowFault> {
    let (name, rest) = text.split_once(' ').unwrap_or((text, ""));
    match name {
        "split" => split_of(rest),
        "ne" => Ok(Node::NeSplit {
            atom: place_of(rest)?,
        }),
        "sum" => Ok(Node::Combo {
            count: count_of(rest)?,
        }),
        "fixed" => Ok(Node::Fixed {
            atom: place_of(rest)?,
        }),
        "empty" => Ok(Node::Empty),
        "left" => Ok(Node::Left),
        _ => Err(RowFault::NoCall),
    }
}

/// The split of a variable at a cut, as `v1 0`.
fn split_of(text: &str) -> Result<Node, RowFault> {
    let (var, cut) = text.split_once(' ').ok_or(RowFault::NoCall)?;
    Ok(Node::Split {
        var: variable_of(var)?,
        cut: number_of(cut)?,
    })
}

/// The number of a variable, as `v1`.
pub fn variable_of(text: &str) -> Result<u8, RowFault> {
    count_of(text.strip_prefix('v').ok_or(RowFault::NoCall)?)
}

/// Terms with blanks between them.
pub fn terms_of(alloc: Global, text: &str) -> Result<Vec<LeafTerm>, RowFault> {
    let mut terms = Vec::new(alloc);
    for term in text.split_whitespace() {
        terms.push(term_of(term)?)?;
    }
    Ok(terms)
}

/// The term of an atom, as `a0`, or of a side, as `s0`; behind a `*` its factor, if that isn't 1.
fn term_of(text: &str) -> Result<LeafTerm, RowFault> {
    let (on, factor) = text.split_once('*').unwrap_or((text, "1"));
    Ok(LeafTerm {
        on: on_of(on)?,
        factor: number_of(factor)?,
    })
}

fn on_of(text: &str) -> Result<On, RowFault> {
    match text.strip_prefix('a') {
        Some(number) => Ok(On::Atom(place_of(number)?)),
        None => Ok(On::Side(place_of(text.strip_prefix('s').ok_or(RowFault::NoCall)?)?)),
    }
}

/// The number of an atom or a side.
pub fn place_of(text: &str) -> Result<u16, RowFault> {
    Ok(text.parse::<u16>()?)
}

fn count_of(text: &str) -> Result<u8, RowFault> {
    Ok(text.parse::<u8>()?)
}

fn number_of(text: &str) -> Result<i64, RowFault> {
    Ok(text.parse::<i64>()?)
}

/// How many splits there may be: 1 to 100,000.
pub fn budget_of(text: &str) -> Result<u32, RowFault>
    ensures some { IfOk result (λ budget. 1 ≤ budget) }
    ensures few { IfOk result (λ budget. budget ≤ 100000) }
{
    let budget = text.parse::<u32>()?;
    if budget < 1 || budget > 100_000 {
        return Err(RowFault::NoCall);
    }
    Ok(budget)
}
