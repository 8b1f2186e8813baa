//! The call on cores of refuted keys: `core`.
use crate::reading::{SpelledTree, halves, key_of, tree_of};
use crate::writing::{key_text, tree_text};
use refutation::refutes;
use row_table::RowFault;
use std::alloc::Global;
use unsat_core::find_core;

/// Of `KEY | NODES | TERMS`, where the tree refutes the key: the core with its tree, spelled so too.
pub fn core(alloc: Global, argument: &str) -> Result<String, RowFault> {
    let (key, tree) = halves(argument);
    let key = key_of(alloc, key)?;
    let SpelledTree { nodes, terms } = tree_of(alloc, tree)?;
    if refutes(alloc, &key, &nodes, &terms).is_err() {
        return Err(RowFault::NoCall);
    }
    let (core, tree) = find_core(alloc, &key, &nodes, &terms)?;
    let core = key_text(alloc, &core)?;
    let tree = tree_text(alloc, tree.nodes(), tree.terms())?;
    Ok(format!(in alloc; "{core} | {tree}")?)
}
