//! The call on atoms that no integers satisfy: `is_false`.
use crate::reading::condition_of;
use canoniser::is_false;
use row_table::RowFault;
use std::alloc::Global;

/// Of a condition: `yes` where no integers satisfy its first atom, be it beyond the bounds, and else `no`.
pub fn first_is_false(alloc: Global, argument: &str) -> Result<String, RowFault> {
    let condition = condition_of(alloc, argument)?;
    let atom = condition.atoms().first().ok_or(RowFault::NoCall)?;
    let yes = is_false(alloc, atom)?;
    Ok(String::from_str(alloc, if yes { "yes" } else { "no" })?)
}
