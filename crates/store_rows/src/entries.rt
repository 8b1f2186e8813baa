//! Entries of arguments, and why there is none.
use crate::reading::{SpelledTree, halves, key_of, point_of, tree_of};
use cert_check::{Entry, NotUnsat, Refused, check_sat, check_unsat};
use refutation::Tree;
use row_table::RowFault;
use std::alloc::Global;

/// Of `KEY | POINT`: the entry, or why it is refused.
pub fn sat_entry(alloc: Global, argument: &str) -> Result<Result<Entry, Refused>, RowFault> {
    let (key, point) = halves(argument);
    let key = key_of(alloc, key)?;
    let point = point_of(alloc, point)?;
    if point.values().len() != usize::from(key.width()) {
        return Err(RowFault::NoCall);
    }
    match check_sat(key, point) {
        Ok(entry) => Ok(Ok(entry)),
        Err((refused, _, _)) => Ok(Err(refused)),
    }
}

/// Of `KEY | NODES | TERMS`: the entry, or why it is refused.
pub fn unsat_entry(alloc: Global, argument: &str) -> Result<Result<Entry, Refused>, RowFault> {
    let (key, tree) = halves(argument);
    let key = key_of(alloc, key)?;
    let SpelledTree { nodes, terms } = tree_of(alloc, tree)?;
    match check_unsat(alloc, key, Tree::new(nodes, terms)) {
        Ok(entry) => Ok(Ok(entry)),
        Err((NotUnsat::Refused(refused), _, _)) => Ok(Err(refused)),
        Err((NotUnsat::NoMemory, _, _)) => Err(RowFault::NoMemory),
    }
}

/// Which kind of entry it is.
pub fn kind_of(entry: &Entry) -> &'static str {
    match entry {
        Entry::Sat(_) => "a key with a point",
        Entry::Unsat(_) => "a core with a tree",
    }
}
