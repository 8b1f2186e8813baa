//! The words of a call.
use row_table::RowFault;
use std::alloc::Global;

/// What stands before the first blank, and behind it.
pub fn split(text: &str) -> (&str, &str) {
    text.split_once(' ').unwrap_or((text, ""))
}

/// The number of this digit.
pub fn number_of(digit: &str) -> Result<u64, RowFault> {
    match digit.as_bytes() {
        [digit @ b'0'..=b'9'] => Ok(u64::from(*digit - b'0')),
        _ => Err(RowFault::NoCall),
    }
}

/// The numbers of these digits, with blanks between them.
pub fn numbers_of(alloc: Global, digits: &str) -> Result<Vec<u64>, RowFault> {
    let mut numbers = Vec::new(alloc);
    for digit in digits.split_whitespace() {
        numbers.push(number_of(digit)?)?;
    }
    Ok(numbers)
}
