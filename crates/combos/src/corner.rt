//! What atoms and sides are worth at the lowest corner of a box and at its highest: each variable at its lower side, or
//! each at its upper side; where that side is missing at the other one, and at 0 where both are.

ghost use Rattle.std.specs.Prelude.{◌≡◌, ◌+◌, ◌^◌, ◌<◌, ◌≤◌, ◌-ℤ◌, ◌*ℤ◌, length, unsigned_abs, pos, false, true};
ghost use Rattle.std.specs.Option.{unwrap_or, option_map};
ghost use Rattle.lin_model.specs.Form.{form_value};
ghost use Rattle.lin_model.specs.KeyAtom.{IsCanonicalForm};
ghost use Rattle.refutation.specs.Bounds.{IsSide};
ghost use Rattle.refutation.specs.Glance.{place_count, term_at};
ghost use Rattle.refutation.specs.Leaf.{weighted};
ghost use Rattle.combos.specs.Corner.{corner, corner_side, worth_of};
ghost use Rattle.combos.specs.Found.{box_of};
ghost use Rattle.combos.specs.AtCorners.{negated, IsNoneOr, IsWorth, IsSmall};

use crate::term::term_at;
use lin_model::{FormTerm, Key, Op};
use refutation::{Bounds, Comparison, Side, comparison_of};

/// What something is worth at both corners.
#[derive(Clone, Copy)]
pub struct Worth {
    /// At the lowest corner.
    pub lowest: i128,
    /// At the highest.
    pub highest: i128,
}

impl Worth {
    /// So little that no sum with anything else in a box is positive.
    pub const NOTHING: Worth = Worth {
        lowest: -(1 << 100),
        highest: -(1 << 100),
    };

    /// The negative.
    pub fn negated(self) -> Worth
        requires { IsSmall self }
        ensures value { result ≡ negated self }
        ensures small { IsSmall result }
    {
        Worth {
            lowest: -self.lowest,
            highest: -self.highest,
        }
    }
}

/// What the atom or side at this place of the row is worth by the factor 1; where that isn't lawful, so little that no
/// sum with it is positive.
pub fn worth_at(key: &Key, bounds: &Bounds, sides: &[Side], place: usize) -> Worth
    requires few { length sides.now ≤ 65536 }
    requires place { place < place_count key.now sides.now }
    ensures worth { IsWorth key.now (box_of bounds.now sides.now) (term_at key.now place (pos 1)) result }
    ensures small { IsSmall result }
{
    match comparison_of(key, sides, term_at(key, sides, place, 1).on) {
        None => Worth::NOTHING,
        Some(comparison) => worth_of(comparison, bounds),
    }
}

/// What a comparison is worth by the factor 1.
fn worth_of(comparison: Comparison<'_>, bounds: &Bounds) -> Worth
    requires form { IsCanonicalForm comparison.form.now }
    requires constant { unsigned_abs comparison.constant ≤ 2 ^ 50 }
    ensures lowest { IsNoneOr (option_map (worth_of (corner bounds.now false)) (weighted (record {
      form = comparison.entry.form.now;
      op = comparison.entry.op;
      constant = comparison.entry.constant;
    }) (pos 1))) result.lowest }
    ensures highest { IsNoneOr (option_map (worth_of (corner bounds.now true)) (weighted (record {
      form = comparison.entry.form.now;
      op = comparison.entry.op;
      constant = comparison.entry.constant;
    }) (pos 1))) result.highest }
    ensures small { IsSmall result }
{
    match comparison.op {
        Op::Le | Op::Eq => excess(comparison.form.terms(), comparison.constant, bounds),
        Op::Ge => excess(comparison.form.terms(), comparison.constant, bounds).negated(),
        Op::Ne => Worth::NOTHING,
    }
}

/// How far the form is above the constant at both corners.
fn excess(form: &[FormTerm], constant: i64, bounds: &Bounds) -> Worth
    requires form { IsCanonicalForm form.now }
    requires constant { unsigned_abs constant ≤ 2 ^ 50 }
    ensures lowest { result.lowest ≡ form_value form.now (corner bounds.now false) -ℤ constant }
    ensures highest { result.highest ≡ form_value form.now (corner bounds.now true) -ℤ constant }
    ensures small { IsSmall result }
{
    let mut lowest = 0;
    let mut highest = 0;
    for term in form {
        lowest += term_at_corner(*term, bounds, false);
        highest += term_at_corner(*term, bounds, true);
    }
    Worth {
        lowest: less(lowest, constant),
        highest: less(highest, constant),
    }
}

/// The value of a form less a constant.
fn less(value: i128, constant: i64) -> i128
    requires value { unsigned_abs value ≤ 2 ^ 80 }
    requires constant { unsigned_abs constant ≤ 2 ^ 50 }
    ensures value { result ≡ value -ℤ constant }
    ensures size { unsigned_abs result ≤ 2 ^ 100 }
{
    value - i128::from(constant)
}

/// The value of a term at the corner.
fn term_at_corner(term: FormTerm, bounds: &Bounds, highest: bool) -> i128
    requires var { term.var < 64 }
    requires coef { unsigned_abs term.coef < 2 ^ 40 }
    ensures value { result ≡ term.coef *ℤ corner_side bounds.now highest term.var }
    ensures size { unsigned_abs result ≤ 2 ^ 74 }
{
    scaled(term.coef, corner_side(bounds, highest, term.var))
}

/// The value of a variable at the corner.
fn corner_side(bounds: &Bounds, highest: bool, var: u8) -> i64
    requires { var < 64 }
    ensures value { result ≡ corner_side bounds.now highest var }
    ensures size { unsigned_abs result ≤ 2 ^ 32 + 1 }
{
    if highest {
        first_side(bounds.upper(var), bounds.lower(var))
    } else {
        first_side(bounds.lower(var), bounds.upper(var))
    }
}

/// The first of two sides that is there, 0 where none is.
fn first_side(first: Option<i64>, second: Option<i64>) -> i64
    requires first { IsSide first }
    requires second { IsSide second }
    ensures value { result ≡ unwrap_or first (unwrap_or second (pos 0)) }
    ensures size { unsigned_abs result ≤ 2 ^ 32 + 1 }
{
    match first {
        Some(side) => side,
        None => second.unwrap_or(0),
    }
}

/// A coefficient times a side.
fn scaled(coef: i64, side: i64) -> i128
    requires coef { unsigned_abs coef < 2 ^ 40 }
    requires side { unsigned_abs side ≤ 2 ^ 32 + 1 }
    ensures value { result ≡ coef *ℤ side }
    ensures size { unsigned_abs result ≤ 2 ^ 74 }
{
    i128::from(coef) * i128::from(side)
}
