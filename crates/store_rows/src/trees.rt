//! Calls on leaves and trees: `refutes`, `closes`, `chosen`.
use crate::reading::{SpelledTree, halves, key_of, node_of, place_of, terms_of, tree_of};
use crate::writing::yes_or_no;
use arrayvec::ArrayVec;
use refutation::{Bounds, Leaf, LeafTerm, Node, Side, TreeFault, closes, closes_chosen, refutes};
use row_table::RowFault;
use std::alloc::Global;

/// Of `KEY | NODES | TERMS`: `refuted`, or why not.
pub fn refuted(alloc: Global, argument: &str) -> Result<String, RowFault> {
    let (key, tree) = halves(argument);
    let key = key_of(alloc, key)?;
    let SpelledTree { nodes, terms } = tree_of(alloc, tree)?;
    match refutes(alloc, &key, &nodes, &terms) {
        Ok(()) => Ok(String::from_str(alloc, "refuted")?),
        Err(TreeFault::NoMemory) => Err(RowFault::NoMemory),
        Err(fault) => Ok(format!(in alloc; "{fault}")?),
    }
}

/// Of `KEY | SIDES | LEAF | TERMS`: whether the leaf closes the box of the key's bounds and these sides.
pub fn closed(alloc: Global, argument: &str) -> Result<String, RowFault> {
    let (key, rest) = halves(argument);
    let (sides, leaf) = halves(rest);
    let key = key_of(alloc, key)?;
    let sides = sides_of(alloc, sides)?;
    let leaf = leaf_of(alloc, leaf)?;
    let is_closed = closes(&key, &Bounds::of(&key), &sides, &leaf);
    Ok(yes_or_no(alloc, is_closed)?)
}

/// Sides with commas between them.
fn sides_of(alloc: Global, text: &str) -> Result<Vec<Side>, RowFault> {
    let mut sides = Vec::new(alloc);
    for side in text.split(',') {
        sides.push(side_of(side.trim())?)?;
    }
    Ok(sides)
}

/// The side of an atom, as `above 2` or `below 2`.
fn side_of(text: &str) -> Result<Side, RowFault> {
    let (name, atom) = text.split_once(' ').ok_or(RowFault::NoCall)?;
    let atom = place_of(atom)?;
    match name {
        "above" => Ok(Side { atom, upper: true }),
        "below" => Ok(Side { atom, upper: false }),
        _ => Err(RowFault::NoCall),
    }
}

/// The leaf that a node and its terms spell.
fn leaf_of(alloc: Global, text: &str) -> Result<Leaf, RowFault> {
    let (node, terms) = halves(text);
    match node_of(node)? {
        Node::Combo { .. } => combination_of(&terms_of(alloc, terms)?),
        Node::Fixed { atom } => Ok(Leaf::Fixed(atom)),
        Node::Empty => Ok(Leaf::Empty),
        _ => Err(RowFault::NoCall),
    }
}

/// The combination of at most eight terms.
fn combination_of(terms: &[LeafTerm]) -> Result<Leaf, RowFault> {
    let mut leaf = ArrayVec::new();
    for term in terms {
        if leaf.is_full() {
            return Err(RowFault::NoCall);
        }
        leaf.push(*term);
    }
    Ok(Leaf::Combo(leaf))
}

/// Of `CHOICE | KEY | NODES | TERMS`: whether the tree closes the box that the chosen atoms of the key bound. The choice
/// has one letter for each atom, `y` where it is chosen.
pub fn closed_by_chosen(alloc: Global, argument: &str) -> Result<String, RowFault> {
    let (choice, rest) = halves(argument);
    let (key, tree) = halves(rest);
    let key = key_of(alloc, key)?;
    let choice = choice_of(alloc, choice)?;
    let SpelledTree { nodes, terms } = tree_of(alloc, tree)?;
    if choice.len() != key.atoms().len() {
        return Err(RowFault::NoCall);
    }
    let is_closed = closes_chosen(alloc, &key, &choice, &nodes, &terms)?;
    Ok(yes_or_no(alloc, is_closed)?)
}

fn choice_of(alloc: Global, text: &str) -> Result<Vec<bool>, RowFault> {
    let mut choice = Vec::new(alloc);
    for letter in text.bytes() {
        choice.push(letter == b'y')?;
    }
    Ok(choice)
}
