//! One side of a variable: which one an atom gives, and which of two is the tighter.

ghost use Rattle.std.specs.Prelude.{◌≡◌, ◌==◌, false, MatchOption, Some, ◌^◌, ◌<◌, ◌≤◌, ℕ, IfSome, unsigned_abs};
ghost use Rattle.lin_model.specs.KeyAtom.{AscendsBelow64};
ghost use Rattle.refutation.specs.Bounds.{is_variable, lower_by, upper_by, lower_side, upper_side, crosses};
ghost use Rattle.refutation.specs.Bounds.{tighter_lower, tighter_upper};

use lin_model::{Form, Op};

/// The greatest size of a side that an atom gives.
const LIMIT: i64 = 1 << 32;

/// The variable that the form is, where it is one variable alone.
pub fn variable_alone(form: &Form) -> Option<u8>
    requires { AscendsBelow64 form.now }
    ensures { MatchOption result ((v : ℕ) → is_variable form.now v ≡ false)
        (λ w. (w < 64) × ((v : ℕ) → is_variable form.now v ≡ (w == v))) }
{
    match form.terms() {
        [term] if term.coef == 1 => Some(term.var),
        _ => None,
    }
}

/// The lower side that a comparison of one variable with `constant` gives.
pub fn lower_by(op: Op, constant: i64) -> Option<i64>
    ensures value { result ≡ lower_by op constant }
    ensures size { IfSome result (λ n. unsigned_abs n ≤ 2 ^ 32) }
{
    match op {
        Op::Ge | Op::Eq if constant >= -LIMIT => Some(constant.min(LIMIT)),
        _ => None,
    }
}

/// The upper side that a comparison of one variable with `constant` gives.
pub fn upper_by(op: Op, constant: i64) -> Option<i64>
    ensures value { result ≡ upper_by op constant }
    ensures size { IfSome result (λ n. unsigned_abs n ≤ 2 ^ 32) }
{
    match op {
        Op::Le | Op::Eq if constant <= LIMIT => Some(constant.max(-LIMIT)),
        _ => None,
    }
}

/// Whether both sides are there, the lower above the upper.
pub fn crosses(lower: Option<i64>, upper: Option<i64>) -> bool
    ensures { result ≡ crosses lower upper }
{
    match (lower, upper) {
        (Some(lower), Some(upper)) => lower > upper,
        _ => false,
    }
}

/// The tighter of a lower side and a number: the greater one.
pub fn tighter_lower(side: Option<i64>, to: i64) -> i64
    ensures { Some result ≡ tighter_lower side (Some to) }
{
    match side {
        None => to,
        Some(side) => side.max(to),
    }
}

/// The tighter of an upper side and a number: the lesser one.
pub fn tighter_upper(side: Option<i64>, to: i64) -> i64
    ensures { Some result ≡ tighter_upper side (Some to) }
{
    match side {
        None => to,
        Some(side) => side.min(to),
    }
}
