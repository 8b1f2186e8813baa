//! What is added to a text.
use lin_text::{push_integer, push_number, push_str};
use row_table::RowFault;
use std::alloc::Global;

/// A word and a blank, then the greatest number, then the least integer.
pub fn added(alloc: Global) -> Result<Vec<u8>, RowFault> {
    let mut text = Vec::new(alloc);
    push_str(&mut text, "x ")?;
    push_number(&mut text, u64::MAX)?;
    push_integer(&mut text, i64::MIN)?;
    Ok(text)
}
