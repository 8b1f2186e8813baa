//! Combinations of up to eight atoms and sides, found by eliminating variables.
//!
//! The columns of a tableau begin at the lowest corner. What fails there is brought to where it holds, one after another,
//! by columns that may still move. Where none may, the failing row is a sum of comparisons that is positive all over the
//! box, if the bounds of a box can tell it at all. What is found here is only a guess: whoever asks tests it.

ghost use Rattle.std.specs.Prelude.{◌≤◌, length};
ghost use Rattle.combos.specs.AtCorners.{AreWorths};
ghost use Rattle.combos.specs.Found.{box_of};

use crate::row::{MAX_TIGHT, Row};
use crate::tableau::{Failing, Tableau};
use crate::term::place_count;
use crate::worths::Worths;
use arrayvec::ArrayVec;
use lin_model::Key;
use refutation::{Bounds, LeafTerm, On, Side, comparison_of};

/// How often a column is exchanged before the elimination is given up.
const MAX_PIVOTS: u8 = 32;

/// Terms, the atoms by number and then the sides, whose sum may be positive all over the box.
pub fn eliminate(
    key: &Key,
    bounds: &Bounds,
    sides: &[Side],
    worths: &Worths,
) -> Option<ArrayVec<LeafTerm, 8>>
    requires few { length sides.now ≤ 65536 }
    requires worths { AreWorths key.now (box_of bounds.now sides.now) worths.now }
{
    let mut tableau = Tableau::at_corner(key, bounds)?;
    let mut row = Row::of(0);
    let mut failing = failing_at_corner(&tableau, key, bounds, sides, worths, &mut row)?;
    for _ in 0..MAX_PIVOTS {
        match tableau.entering(&failing, &row) {
            None => return tableau.combination(&failing, &row).map(plainest),
            Some(column) => tableau.pivot(&failing, &mut row, column)?,
        }
        failing = first_failing(&tableau, key, bounds, sides, &mut row)?;
    }
    None
}

/// The first comparison that fails at the lowest corner, where the tableau begins, and its row in `row`.
fn failing_at_corner(
    tableau: &Tableau,
    key: &Key,
    bounds: &Bounds,
    sides: &[Side],
    worths: &Worths,
    row: &mut Row,
) -> Option<Failing>
    requires few { length sides.now ≤ 65536 }
    requires worths { AreWorths key.now (box_of bounds.now sides.now) worths.now }
{
    for place in 0..place_count(key, sides) {
        if let Some(unit) = worths.failing_at(key, bounds, sides, place) {
            let on = unit.term.on;
            return tableau.failing_comparison(on, comparison_of(key, sides, on)?, row);
        }
    }
    None
}

/// The first eliminated variable or else comparison that fails, and its row in `row`.
fn first_failing(
    tableau: &Tableau,
    key: &Key,
    bounds: &Bounds,
    sides: &[Side],
    row: &mut Row,
) -> Option<Failing>
    requires { length sides.now ≤ 65536 }
{
    for place in 0..MAX_TIGHT {
        if let Some(failing) = tableau.failing_variable(place, bounds, row) {
            return Some(failing);
        }
    }
    if let Some(failing) = first_failing_atom(tableau, key, row) {
        return Some(failing);
    }
    first_failing_side(tableau, key, sides, row)
}

/// The first atom that fails.
fn first_failing_atom(tableau: &Tableau, key: &Key, row: &mut Row) -> Option<Failing> {
    for number in 0..key.atoms().len() as u16 {
        let on = On::Atom(number);
        let comparison = comparison_of(key, &[], on)?;
        if let Some(failing) = tableau.failing_comparison(on, comparison, row) {
            return Some(failing);
        }
    }
    None
}

/// The first side that fails.
fn first_failing_side(
    tableau: &Tableau,
    key: &Key,
    sides: &[Side],
    row: &mut Row,
) -> Option<Failing>
    requires { length sides.now ≤ 65536 }
{
    for number in 0..sides.len() {
        let on = On::Side(number as u16);
        let comparison = comparison_of(key, sides, on)?;
        if let Some(failing) = tableau.failing_comparison(on, comparison, row) {
            return Some(failing);
        }
    }
    None
}

/// The terms in their order, divided by what all factors share.
fn plainest(terms: ArrayVec<LeafTerm, 8>) -> ArrayVec<LeafTerm, 8> {
    let mut terms = terms;
    let shared = terms
        .iter()
        .fold(0, |shared, term| gcd(shared, term.factor.unsigned_abs()));
    for term in terms.iter_mut() {
        term.factor = quotient(term.factor, shared);
    }
    terms.sort_unstable_by_key(|term| term.on);
    terms
}

/// A factor divided by what it shares with the others.
fn quotient(factor: i64, shared: u64) -> i64 {
    i64::try_from(shared)
        .ok()
        .and_then(|shared| factor.checked_div(shared))
        .unwrap_or(factor)
}

/// The greatest common divisor.
fn gcd(a: u64, b: u64) -> u64 {
    let mut x = a;
    let mut y = b;
    while y != 0 {
        let rest = x % y;
        x = y;
        y = rest;
    }
    x
}
