//! The call on keys that are copied and compared: `copy`.
use crate::reading::{halves, key_of};
use row_table::RowFault;
use std::alloc::Global;

/// Of `KEY | KEY`: whether a copy of the first equals the first, and whether it equals the second.
pub fn copied(alloc: Global, argument: &str) -> Result<String, RowFault> {
    let (key, other) = halves(argument);
    let key = key_of(alloc, key)?;
    let other = key_of(alloc, other)?;
    let copy = key.clone()?;
    let own = copy.equals(&key);
    let others = copy.equals(&other);
    Ok(format!(in alloc; "{own} {others}")?)
}
