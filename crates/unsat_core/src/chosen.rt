//! The chosen atoms of a key, and the numbers that they have among themselves.

ghost use Rattle.std.specs.Prelude.{◌≡◌, ◌≤◌, length, map, IfOk};
ghost use Rattle.refutation.specs.Chosen.{chosen};
ghost use Rattle.unsat_core.specs.Numbers.{AreNumbers};
ghost use Rattle.unsat_core.specs.Renumbered.{new_number, renumbered, renumbered_node, renumbered_on, renumbered_term};

use crate::core_laws::chosen_are_keys;
use lin_model::{Key, KeyAtom, MAX_KEY_ATOMS};
use outside::NoMemory;
use refutation::{LeafTerm, Node, On, Tree};
use std::alloc::Global;
use std::marker::Model;

/// A choice among the atoms of a key, with the number that each has among the chosen ones.
#[derive(Drop)]
pub(crate) struct Chosen {
    choice: Vec<bool>,
    numbers: Vec<u16>,
    count: u16,
}

impl Model for Chosen {
    ghost use Rattle.std.specs.Prelude.{Bool, List};
    ghost use Rattle.unsat_core.specs.Numbers.{AreNumbers};

    ghost Value = { List Bool };

    ghost view = { λ c. c.choice.items };

    ghost invariant = { λ c. AreNumbers c.choice.items c.numbers.items c.count };
}

impl Chosen {
    /// The choice, with its numbers.
    pub(crate) fn of(alloc: Global, choice: Vec<bool>) -> Result<Chosen, NoMemory>
        requires { length choice.items ≤ MAX_KEY_ATOMS }
        ensures { IfOk result (λ chosen. chosen ≡ choice.items) }
    {
        let (numbers, count) = numbers_of(alloc, &choice)?;
        Ok(Chosen {
            choice,
            numbers,
            count,
        })
    }

    /// The chosen atoms of the key.
    pub(crate) fn key(&self, alloc: Global, key: &Key) -> Result<Key, NoMemory>
        requires { length self.now ≡ length key.now }
        ensures { IfOk result (λ core. core ≡ chosen key.now self.now) }
    {
        chosen_are_keys();
        match Key::of(chosen_atoms(alloc, key.atoms(), &self.choice)?) {
            Ok(core) => Ok(core),
            Err(_) => unreachable!(),
        }
    }

    /// The tree of these nodes and terms, by the new numbers.
    pub(crate) fn tree(
        &self,
        alloc: Global,
        nodes: &[Node],
        terms: &[LeafTerm],
    ) -> Result<Tree, NoMemory>
        ensures { IfOk result (λ tree. tree
            ≡ renumbered self.now (record { nodes = nodes.now; terms = terms.now })) }
    {
        Ok(Tree::new(self.nodes(alloc, nodes)?, self.terms(alloc, terms)?))
    }

    /// The nodes, by the new numbers.
    fn nodes(&self, alloc: Global, nodes: &[Node]) -> Result<Vec<Node>, NoMemory>
        ensures { IfOk result (λ renumbered. renumbered.items ≡ map (renumbered_node self.now) nodes.now) }
    {
        let mut renumbered = Vec::with_capacity(alloc, nodes.len())?;
        for node in nodes {
            renumbered.push(self.node(*node))?;
        }
        Ok(renumbered)
    }

    /// The terms, by the new numbers.
    fn terms(&self, alloc: Global, terms: &[LeafTerm]) -> Result<Vec<LeafTerm>, NoMemory>
        ensures { IfOk result (λ renumbered. renumbered.items ≡ map (renumbered_term self.now) terms.now) }
    {
        let mut renumbered = Vec::with_capacity(alloc, terms.len())?;
        for term in terms {
            renumbered.push(self.term(*term))?;
        }
        Ok(renumbered)
    }

    /// The node, by the new numbers.
    fn node(&self, node: Node) -> Node
        ensures { result ≡ renumbered_node self.now node }
    {
        match node {
            Node::NeSplit { atom } => Node::NeSplit {
                atom: self.number(atom),
            },
            Node::Fixed { atom } => Node::Fixed {
                atom: self.number(atom),
            },
            Node::Split { .. } | Node::Combo { .. } | Node::Empty | Node::Left => node,
        }
    }

    /// The term, by the new numbers.
    fn term(&self, term: LeafTerm) -> LeafTerm
        ensures { result ≡ renumbered_term self.now term }
    {
        LeafTerm {
            on: self.on(term.on),
            factor: term.factor,
        }
    }

    /// What a term names, by the new number.
    fn on(&self, on: On) -> On
        ensures { result ≡ renumbered_on self.now on }
    {
        match on {
            On::Atom(atom) => On::Atom(self.number(atom)),
            On::Side(side) => On::Side(side),
        }
    }

    /// The number that an atom has among the chosen ones; of a number beyond the key, how many are chosen.
    fn number(&self, atom: u16) -> u16
        ensures { result ≡ new_number self.now atom }
    {
        match self.numbers.get(usize::from(atom)) {
            Some(number) => *number,
            None => self.count,
        }
    }
}

/// For each atom how many before it are chosen, and how many are in all.
fn numbers_of(alloc: Global, choice: &[bool]) -> Result<(Vec<u16>, u16), NoMemory>
    requires { length choice.now ≤ MAX_KEY_ATOMS }
    ensures { IfOk result (λ numbers. AreNumbers choice.now numbers.0.items numbers.1) }
{
    let mut numbers = Vec::with_capacity(alloc, choice.len())?;
    let mut count = 0;
    for is_chosen in choice {
        numbers.push(count)?;
        if *is_chosen {
            count += 1;
        }
    }
    Ok((numbers, count))
}

/// The atoms at whose place the choice has true.
fn chosen_atoms(alloc: Global, atoms: &[KeyAtom], choice: &[bool]) -> Result<Vec<KeyAtom>, NoMemory>
    requires { length choice.now ≡ length atoms.now }
    ensures { IfOk result (λ kept. kept.items ≡ chosen atoms.now choice.now) }
{
    let mut kept = Vec::new(alloc);
    for (place, atom) in atoms.iter().enumerate() {
        if choice[place] {
            kept.push(atom.clone()?)?;
        }
    }
    Ok(kept)
}
