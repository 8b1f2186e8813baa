//! Entries of cores.
ghost use Rattle.std.specs.Prelude.{IfOk};
ghost use Rattle.refutation.specs.Reading.{Refutes};
ghost use Rattle.cert_check.specs.Shrunk.{IsShrunk};

use crate::entry::{Entry, UnsatEntry};
use lin_model::Key;
use outside::NoMemory;
use refutation::{LeafTerm, Node};
use std::alloc::Global;
use unsat_core::find_core;

/// The entry of a core of a key that a tree refutes: some of the key's atoms, in their order, with the tree by their
/// numbers in the core. The tree names each atom of the core that is no bound, and without any one bound that it doesn't
/// name it no longer refutes the rest.
pub fn shrink(
    alloc: Global,
    key: &Key,
    nodes: &[Node],
    terms: &[LeafTerm],
) -> Result<Entry, NoMemory>
    requires { Refutes key.now nodes.now terms.now }
    ensures { IfOk result (IsShrunk key.now (record { nodes = nodes.now; terms = terms.now })) }
{
    let (core, tree) = find_core(alloc, key, nodes, terms)?;
    Ok(Entry::Unsat(UnsatEntry::new(core, tree)))
}
