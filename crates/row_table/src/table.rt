//! A table, and what answers its calls.
use crate::escapes::{escaped, unescaped};
use outside::NoMemory;
use std::alloc::{AllocError, AllocFailed, Global};
use std::num::ParseIntError;
use std::string::FromUtf8Error;

/// What answers the calls of a table.
pub trait Subject {
    /// The answer to the call of this name with this argument; None where there is no call of the name, or where it can't
    /// be made with the argument.
    fn answer(
        &mut self,
        alloc: Global,
        name: &str,
        argument: &[u8],
    ) -> Result<Option<Vec<u8>>, NoMemory>;
}

/// Why a row has no answer that could be compared.
#[derive(Clone, Copy, Debug, PartialEq, Eq)]
pub enum RowFault {
    /// It has no ` => `.
    NoArrow,
    /// What stands behind a backslash is no escape.
    BadEscape,
    /// There is no such call, or it can't be made with the argument.
    NoCall,
    /// Memory ran out.
    NoMemory,
}

impl From<NoMemory> for RowFault {
    fn from(_: NoMemory) -> RowFault {
        RowFault::NoMemory
    }
}

impl From<AllocError> for RowFault {
    fn from(_: AllocError) -> RowFault {
        RowFault::NoMemory
    }
}

impl<T: Drop> From<AllocFailed<T>> for RowFault {
    fn from(_: AllocFailed<T>) -> RowFault {
        RowFault::NoMemory
    }
}

impl From<ParseIntError> for RowFault {
    fn from(_: ParseIntError) -> RowFault {
        RowFault::NoCall
    }
}

impl From<FromUtf8Error> for RowFault {
    fn from(_: FromUtf8Error) -> RowFault {
        RowFault::NoCall
    }
}

/// Makes the calls of a table in their order, and tells the rows whose answer is another than the expected one, and at
/// last how many rows there were and how many of them differ.
///
/// A row is a line `NAME ARGUMENT => ANSWER` or `NAME => ANSWER`, in which argument and answer may have escapes. Lines
/// that are empty or begin with `#` are no rows. A row that can't be compared differs.
pub fn check_table<S: Subject>(
    alloc: Global,
    table: &str,
    subject: &mut S,
) -> Result<String, NoMemory> {
    let mut told = String::new(alloc);
    let mut rows = 0u64;
    let mut differ = 0u64;
    for (number, line) in table.lines().enumerate() {
        if line.is_empty() || line.starts_with('#') {
            continue;
        }
        rows = rows.saturating_add(1);
        if let Some(difference) = difference_at(alloc, line, subject)? {
            differ = differ.saturating_add(1);
            push_difference(alloc, &mut told, number, line, difference.as_str())?;
        }
    }
    told.push_str(&format!(in alloc; "{rows} rows, {differ} differ\n")?)?;
    Ok(told)
}

/// Tells a row that differs. Lines are counted from 1.
fn push_difference(
    alloc: Global,
    told: &mut String,
    number: usize,
    line: &str,
    difference: &str,
) -> Result<(), NoMemory> {
    let number = number.saturating_add(1);
    told.push_str(&format!(in alloc; "line {number}: {line}\n    {difference}\n")?)?;
    Ok(())
}

/// What came in place of the expected answer, where another one came.
fn difference_at<S: Subject>(
    alloc: Global,
    line: &str,
    subject: &mut S,
) -> Result<Option<String>, NoMemory> {
    match answers_of(alloc, line, subject) {
        Ok((want, got)) => difference_of(alloc, &want, &got),
        Err(RowFault::NoMemory) => Err(NoMemory),
        Err(fault) => Ok(Some(format!(in alloc; "{fault:?}")?)),
    }
}

/// The answer that came, where it isn't the expected one.
fn difference_of(alloc: Global, want: &[u8], got: &[u8]) -> Result<Option<String>, NoMemory> {
    if want == got {
        return Ok(None);
    }
    Ok(Some(escaped(alloc, got)?))
}

/// The answer that a row expects, and the one that the subject gives.
fn answers_of<S: Subject>(
    alloc: Global,
    line: &str,
    subject: &mut S,
) -> Result<(Vec<u8>, Vec<u8>), RowFault> {
    let (call, answer) = line.split_once(" => ").ok_or(RowFault::NoArrow)?;
    let (name, argument) = call.split_once(' ').unwrap_or((call, ""));
    let want = unescaped(alloc, answer)?;
    let argument = unescaped(alloc, argument)?;
    match subject.answer(alloc, name, &argument)? {
        Some(got) => Ok((want, got)),
        None => Err(RowFault::NoCall),
    }
}
