//! Which atoms of a key a tree names.

ghost use Rattle.std.specs.Prelude.{◌≡◌, ◌==◌, IfOk};
ghost use Rattle.std.specs.List.{list_any};
ghost use Rattle.unsat_core.specs.Named.{AreNamed, Raises};
ghost use Rattle.unsat_core.specs.Renumbered.{names, node_names, on_names};

use lin_model::Key;
use outside::NoMemory;
use refutation::{LeafTerm, Node, On};
use std::alloc::Global;

/// A flag for each atom of the key, raised where the tree of these nodes and terms names it.
pub(crate) fn named_atoms(
    alloc: Global,
    key: &Key,
    nodes: &[Node],
    terms: &[LeafTerm],
) -> Result<Vec<bool>, NoMemory>
    ensures { IfOk result (λ named.
        AreNamed key.now (record { nodes = nodes.now; terms = terms.now }) named.items) }
{
    let mut named = vec![in alloc; false; key.atoms().len()]?;
    raise_all(&mut named, nodes, terms);
    Ok(named)
}

/// Raises the flags of the atoms that nodes or terms name.
fn raise_all(flags: &mut [bool], nodes: &[Node], terms: &[LeafTerm])
    ensures { Raises (names (record { nodes = nodes.now; terms = terms.now })) flags.old flags.new }
{
    raise_by_nodes(flags, nodes);
    raise_by_terms(flags, terms);
}

/// Raises the flags of the atoms that nodes name.
fn raise_by_nodes(flags: &mut [bool], nodes: &[Node])
    ensures { Raises (λ i. list_any (node_names i) nodes.now) flags.old flags.new }
{
    for node in nodes {
        raise_by_node(flags, *node);
    }
}

/// Raises the flags of the atoms that terms name.
fn raise_by_terms(flags: &mut [bool], terms: &[LeafTerm])
    ensures { Raises (λ i. list_any (λ term. on_names i term.on) terms.now) flags.old flags.new }
{
    for term in terms {
        raise_by_term(flags, term.on);
    }
}

/// Raises the flag of the atom that the node names, if there is one.
fn raise_by_node(flags: &mut [bool], node: Node)
    ensures { Raises (λ i. node_names i node) flags.old flags.new }
{
    match node {
        Node::NeSplit { atom } => raise(flags, atom),
        Node::Fixed { atom } => raise(flags, atom),
        Node::Split { .. } | Node::Combo { .. } | Node::Empty | Node::Left => {}
    }
}

/// Raises the flag of the atom that a term names, if there is one.
fn raise_by_term(flags: &mut [bool], on: On)
    ensures { Raises (λ i. on_names i on) flags.old flags.new }
{
    match on {
        On::Atom(atom) => raise(flags, atom),
        On::Side(_) => {}
    }
}

/// Raises the flag of this number, if there is one.
fn raise(flags: &mut [bool], number: u16)
    ensures { Raises (λ i. i == number) flags.old flags.new }
{
    let number = usize::from(number);
    if number < flags.len() {
        flags[number] = true;
    }
}
