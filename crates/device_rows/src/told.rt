//! How the outcome of a call is told.
use outside::Failed;
use row_table::RowFault;
use std::alloc::Global;

/// `Ok` or `Failed`.
pub fn told(alloc: Global, outcome: Result<(), Failed>) -> Result<Vec<u8>, RowFault> {
    word(alloc, if outcome.is_ok() { "Ok" } else { "Failed" })
}

/// The number, or `Failed`.
pub fn told_number(alloc: Global, outcome: Result<u64, Failed>) -> Result<Vec<u8>, RowFault> {
    match outcome {
        Ok(number) => Ok(format!(in alloc; "{number}")?.into_bytes()),
        Err(Failed) => word(alloc, "Failed"),
    }
}

/// How many bytes were read, or `Failed`, and what the buffer then holds.
pub fn told_read(
    alloc: Global,
    outcome: Result<usize, Failed>,
    buffer: &[u8],
) -> Result<Vec<u8>, RowFault> {
    let mut told = match outcome {
        Ok(read) => told_number(alloc, Ok(read as u64))?,
        Err(Failed) => word(alloc, "Failed")?,
    };
    told.push(b' ')?;
    told.extend_from_slice(buffer)?;
    Ok(told)
}

/// A word.
pub fn word(alloc: Global, word: &str) -> Result<Vec<u8>, RowFault> {
    Ok(Vec::from_slice(alloc, word.as_bytes())?)
}
