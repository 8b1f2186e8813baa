//! A key with the tree that refutes it.

ghost use Rattle.std.specs.Prelude.{◌≡◌, ◌&&◌, ◌==◌, ◌<◌, ◌↔◌, not, length, IsTrue, IfOk};
ghost use Rattle.refutation.specs.Reading.{Refutes};
ghost use Rattle.unsat_core.specs.Cores.{HasNamed, RefutesChosen, is_bound};
ghost use Rattle.unsat_core.specs.Renumbered.{names};
ghost use Rattle.unsat_core.specs.Steps.{AddsBounds, Suffices};

use crate::laws::{choices_are_closed_alike, others_can_go};
use crate::named::named_atoms;
use lin_model::{Key, KeyAtom, Op};
use outside::NoMemory;
use refutation::{LeafTerm, Node, closes_chosen};
use std::alloc::Global;
use std::marker::Model;

/// A key, the tree that refutes it, and which of the key's atoms the tree names.
#[derive(Drop)]
pub(crate) struct Refuted<'a> {
    key: &'a Key,
    nodes: &'a [Node],
    terms: &'a [LeafTerm],
    named: Vec<bool>,
}

impl<'a> Model for Refuted<'a> {
    ghost use Rattle.unsat_core.specs.Steps.{PlainRefuted, IsRefutedWithNames};

    ghost Value = { PlainRefuted };

    ghost view = { λ r. record { key = r.key.now; tree = record { nodes = r.nodes.now; terms = r.terms.now } } };

    ghost invariant = { λ r. IsRefutedWithNames (record {
      key = r.key.now;
      tree = record { nodes = r.nodes.now; terms = r.terms.now };
    }) r.named.items };
}

impl<'a> Refuted<'a> {
    /// The key with this tree.
    pub(crate) fn of(
        alloc: Global,
        key: &'a Key,
        nodes: &'a [Node],
        terms: &'a [LeafTerm],
    ) -> Result<Refuted<'a>, NoMemory>
        requires { Refutes key.now nodes.now terms.now }
        ensures { IfOk result (λ refuted. refuted
            ≡ record { key = key.now; tree = record { nodes = nodes.now; terms = terms.now } }) }
    {
        let named = named_atoms(alloc, key, nodes, terms)?;
        Ok(Refuted {
            key,
            nodes,
            terms,
            named,
        })
    }

    /// Whether the tree names the atom.
    pub(crate) fn names(&self, atom: usize) -> bool
        requires { atom < length self.now.key }
        ensures { result ≡ names self.now.tree atom }
    {
        self.named[atom]
    }

    /// The choice of all atoms that the tree names or that may give a bound.
    pub(crate) fn first_choice(&self, alloc: Global) -> Result<Vec<bool>, NoMemory>
        ensures { IfOk result (λ choice. Suffices self.now choice.items) }
    {
        others_can_go();
        with_bounds(alloc, self.key.atoms(), &self.named)
    }

    /// Whether the tree, by the new numbers, refutes the chosen atoms.
    pub(crate) fn closes(&self, alloc: Global, choice: &[bool]) -> Result<bool, NoMemory>
        requires one_each { length choice.now ≡ length self.now.key }
        requires named { HasNamed self.now.key self.now.tree choice.now }
        ensures { IfOk result (λ closed. IsTrue closed
            ↔ RefutesChosen self.now.key self.now.tree choice.now) }
    {
        choices_are_closed_alike();
        closes_chosen(alloc, self.key, choice, self.nodes, self.terms)
    }
}

/// The choice of the atoms whose flags are raised, and of those that may give a bound.
fn with_bounds(alloc: Global, atoms: &[KeyAtom], flags: &[bool]) -> Result<Vec<bool>, NoMemory>
    requires { length flags.now ≡ length atoms.now }
    ensures { IfOk result (λ choice. AddsBounds atoms.now flags.now choice.items) }
{
    let mut choice = Vec::with_capacity(alloc, atoms.len())?;
    for (place, atom) in atoms.iter().enumerate() {
        choice.push(flags[place] || is_bound(atom))?;
    }
    Ok(choice)
}

/// Whether the atom may give a bound: it has one variable, and isn't `v != c`.
fn is_bound(atom: &KeyAtom) -> bool
    ensures { result ≡ is_bound atom.now }
{
    atom.form().terms().len() == 1 && !matches!(atom.op(), Op::Ne)
}
