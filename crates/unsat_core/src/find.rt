//! The core of a refuted key.

ghost use Rattle.std.specs.Prelude.{IfOk};
ghost use Rattle.refutation.specs.Reading.{Refutes};
ghost use Rattle.unsat_core.specs.Cores.{IsCoreOf};

use crate::chosen::Chosen;
use crate::least::least_choice;
use crate::refuted::Refuted;
use lin_model::Key;
use outside::NoMemory;
use refutation::{LeafTerm, Node, Tree};
use std::alloc::Global;

/// The core of a key that a tree refutes: a choice of its atoms that the same tree, with the numbers of atoms adjusted,
/// refutes too, and of which it needs each. Every atom that the tree names stays. Of the others those stay that give a
/// bound without which the tree doesn't refute the rest.
///
/// Atoms keep their order. Each pass over the key reads the tree once for each bound that isn't named, and passes go on
/// while one leaves some out. `NoMemory` comes only where memory runs out.
pub fn find_core(
    alloc: Global,
    key: &Key,
    nodes: &[Node],
    terms: &[LeafTerm],
) -> Result<(Key, Tree), NoMemory>
    requires { Refutes key.now nodes.now terms.now }
    ensures { IfOk result (λ core.
        IsCoreOf key.now (record { nodes = nodes.now; terms = terms.now }) core.0 core.1) }
{
    let refuted = Refuted::of(alloc, key, nodes, terms)?;
    key.keeps_limits();
    let choice = least_choice(alloc, &refuted)?;
    let chosen = Chosen::of(alloc, choice)?;
    let core = chosen.key(alloc, key)?;
    let tree = chosen.tree(alloc, nodes, terms)?;
    Ok((core, tree))
}
