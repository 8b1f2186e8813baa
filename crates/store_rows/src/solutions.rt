//! The call on what conditions and their keys have in common: `solutions`.
use crate::keys::first;
use crate::reading::condition_of;
use canoniser::{Back, Canonical};
use lin_model::{Condition, Key, Point};
use row_table::RowFault;
use std::alloc::{AllocError, Global};

/// At how many points a condition and its key hold.
#[derive(Drop)]
struct Tally {
    both: u32,
    neither: u32,
    one: u32,
}

/// Of a condition of two variables that is one slice: at how many of the 100 points with values from -4 to 5 both it and
/// its key hold, at how many neither does, and at how many only one of them.
pub fn solutions(alloc: Global, argument: &str) -> Result<String, RowFault> {
    let condition = condition_of(alloc, argument)?;
    let Canonical::Key { key, back } = first(alloc, &condition)? else {
        return Err(RowFault::NoCall);
    };
    let mut tally = Tally {
        both: 0,
        neither: 0,
        one: 0,
    };
    for a in -4..6 {
        for b in -4..6 {
            count(alloc, &mut tally, &condition, &[a, b], &key, &back)?;
        }
    }
    let Tally { both, neither, one } = tally;
    Ok(format!(in alloc; "both at {both}, neither at {neither}, one at {one}")?)
}

/// Counts one point.
fn count(
    alloc: Global,
    tally: &mut Tally,
    condition: &Condition,
    values: &[i64],
    key: &Key,
    back: &Back,
) -> Result<(), RowFault> {
    let point = point_of(numbered(alloc, values, back)?)?;
    if usize::from(key.width()) > point.values().len() {
        return Err(RowFault::NoCall);
    }
    match (condition.holds(values), key.holds(&point)) {
        (true, true) => tally.both = tally.both.saturating_add(1),
        (false, false) => tally.neither = tally.neither.saturating_add(1),
        _ => tally.one = tally.one.saturating_add(1),
    }
    Ok(())
}

/// The values in the order of the key's numbers.
fn numbered(alloc: Global, values: &[i64], back: &Back) -> Result<Vec<i64>, AllocError> {
    let mut numbered = Vec::new(alloc);
    for v in 0..back.width() {
        let var = back.var(v) as usize;
        numbered.push(values.get(var).copied().unwrap_or(0))?;
    }
    Ok(numbered)
}

fn point_of(values: Vec<i64>) -> Result<Point, RowFault> {
    match Point::of(values) {
        Ok(point) => Ok(point),
        Err(_) => Err(RowFault::NoCall),
    }
}
