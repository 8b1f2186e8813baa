//! The verdict on a condition, from its text to a line that tells it.
use crate::refusal::Refusal;
use cert_check::SliceOracle;
use lin_text::read_query;
use pipeline::{Verdict, answer};
use std::alloc::{AllocError, Global};

/// The verdict on the condition that the whole text spells, by what answers keys.
pub fn verdict_on<O: SliceOracle>(
    alloc: Global,
    text: &str,
    oracle: &mut O,
) -> Result<Verdict, Refusal> {
    let (condition, end) = read_query(alloc, text.as_bytes(), 0, false)?;
    if end < text.len() {
        return Err(Refusal::Behind(end));
    }
    let answer = answer(alloc, &condition, oracle)?;
    Ok(answer.verdict)
}

/// A line that tells a verdict; variables, comparisons and slices are counted from 1.
pub fn told(alloc: Global, verdict: &Verdict) -> Result<String, AllocError> {
    match verdict {
        Verdict::Sat(values) => told_values(alloc, values.as_slice()),
        Verdict::UnsatAtom(atom) => {
            format!(in alloc; "no integers satisfy comparison {}", atom.saturating_add(1))
        }
        Verdict::UnsatSlice(slice) => {
            format!(in alloc; "no values satisfy slice {}", slice.saturating_add(1))
        }
        Verdict::Unknown(slice) => {
            format!(in alloc;
                "slice {} is open after all splits",
                slice.saturating_add(1)
            )
        }
    }
}

/// A line with the values of the variables.
fn told_values(alloc: Global, values: &[i64]) -> Result<String, AllocError> {
    let mut line = String::from_str(alloc, "satisfied by")?;
    for value in values {
        line.push_str(&format!(in alloc; " {value}")?)?;
    }
    Ok(line)
}
