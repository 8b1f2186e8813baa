//! The cut of a variable by an atom.

ghost use Rattle.std.specs.Prelude.{◌≡◌, ◌==◌, ◌+◌, if◌then◌else◌, ◌^◌, ◌<◌, ◌≤◌, pos, IfSome, unsigned_abs};
ghost use Rattle.std.specs.Option.{option_map};
ghost use Rattle.lin_model.specs.KeyAtom.{IsCanonicalForm};
ghost use Rattle.refutation.specs.Leaf.{coefficient_of};
ghost use Rattle.refutation.specs.Cut.{cut, has_sides, lower_that_counts, upper_that_counts, lower_cut, upper_cut};
ghost use Rattle.refutation.specs.Cut.{lower_by_le, lower_by_ge, upper_by_le, upper_by_ge, most_left, least_left};
ghost use Rattle.refutation.specs.Cut.{lower_at_most, upper_at_most};
ghost use Rattle.refutation.specs.Cut.{counts_as_lower, counts_as_upper};
ghost use Rattle.box_solver.specs.Cuts.{plain_cut};

use crate::tighter_side::TighterSide;
use lin_model::{Form, FormTerm, KeyAtom, Op};
use refutation::Bounds;

/// The bound of a variable that an atom gives within bounds, from the values that its other terms may take: a lower bound
/// where one counts, else an upper bound where one counts. It counts where it is tighter than the variable's own side
/// and doesn't pass the other one. None where none does, where a side of a variable of the atom is missing, and on `!=`.
#[tactic(auto, using(crate::proofs::CutCases::cut_is))]
pub fn cut(bounds: &Bounds, atom: &KeyAtom, var: u8) -> Option<TighterSide>
    ensures cut { option_map plain_cut result ≡ cut bounds.now atom.now var }
    ensures side { IfSome result (λ c. unsigned_abs c.value ≤ 2 ^ 32 + 1) }
{
    let form = atom.form();
    if var >= 64 || !has_sides(bounds, form) {
        return None;
    }
    if let Some(value) = lower_that_counts(bounds, atom, var) {
        return Some(TighterSide {
            value,
            upper: false,
        });
    }
    let value = upper_that_counts(bounds, atom, var)?;
    Some(TighterSide { value, upper: true })
}

/// Whether every variable of the form has both sides.
fn has_sides(bounds: &Bounds, form: &Form) -> bool
    requires { IsCanonicalForm form.now }
    ensures { result ≡ has_sides bounds.now form.now }
{
    for term in form.terms() {
        if bounds.lower(term.var).is_none() || bounds.upper(term.var).is_none() {
            return false;
        }
    }
    true
}

/// The lower bound that the atom gives, where it counts.
fn lower_that_counts(bounds: &Bounds, atom: &KeyAtom, var: u8) -> Option<i64>
    requires { var < 64 }
    ensures bound { result ≡ lower_that_counts bounds.now atom.now var }
    ensures side { IfSome result (λ n. unsigned_abs n ≤ 2 ^ 32 + 1) }
{
    let bound = lower_cut(bounds, atom, var)?;
    if counts_as_lower(bounds.lower(var), bounds.upper(var), bound) {
        return Some(bound as i64);
    }
    None
}

/// The upper bound that the atom gives, where it counts.
fn upper_that_counts(bounds: &Bounds, atom: &KeyAtom, var: u8) -> Option<i64>
    requires { var < 64 }
    ensures bound { result ≡ upper_that_counts bounds.now atom.now var }
    ensures side { IfSome result (λ n. unsigned_abs n ≤ 2 ^ 32 + 1) }
{
    let bound = upper_cut(bounds, atom, var)?;
    if counts_as_upper(bounds.lower(var), bounds.upper(var), bound) {
        return Some(bound as i64);
    }
    None
}

/// Whether a lower bound moves the lower side inwards without passing the upper one.
fn counts_as_lower(lower: Option<i64>, upper: Option<i64>, bound: i128) -> bool
    ensures { result ≡ counts_as_lower lower upper bound }
{
    match (lower, upper) {
        (Some(lower), Some(upper)) => i128::from(lower) < bound && bound <= i128::from(upper),
        _ => false,
    }
}

/// Whether an upper bound moves the upper side inwards without passing the lower one.
fn counts_as_upper(lower: Option<i64>, upper: Option<i64>, bound: i128) -> bool
    ensures { result ≡ counts_as_upper lower upper bound }
{
    match (lower, upper) {
        (Some(lower), Some(upper)) => i128::from(lower) <= bound && bound < i128::from(upper),
        _ => false,
    }
}

/// The lower bound of the variable that the atom gives by its comparison; `=` gives that of `<=`, else that of `>=`.
#[tactic(auto, using(crate::proofs::CutCases::lower_cut_is))]
fn lower_cut(bounds: &Bounds, atom: &KeyAtom, var: u8) -> Option<i128>
    ensures { result ≡ lower_cut bounds.now atom.now var }
{
    match atom.op() {
        Op::Le => lower_by_le(bounds, atom, var),
        Op::Ge => lower_by_ge(bounds, atom, var),
        Op::Eq => match lower_by_le(bounds, atom, var) {
            Some(bound) => Some(bound),
            None => lower_by_ge(bounds, atom, var),
        },
        Op::Ne => None,
    }
}

/// The upper bound of the variable that the atom gives by its comparison; `=` gives that of `<=`, else that of `>=`.
#[tactic(auto, using(crate::proofs::CutCases::upper_cut_is))]
fn upper_cut(bounds: &Bounds, atom: &KeyAtom, var: u8) -> Option<i128>
    ensures { result ≡ upper_cut bounds.now atom.now var }
{
    match atom.op() {
        Op::Le => upper_by_le(bounds, atom, var),
        Op::Ge => upper_by_ge(bounds, atom, var),
        Op::Eq => match upper_by_le(bounds, atom, var) {
            Some(bound) => Some(bound),
            None => upper_by_ge(bounds, atom, var),
        },
        Op::Ne => None,
    }
}

/// The lower bound that `form <= c` gives.
fn lower_by_le(bounds: &Bounds, atom: &KeyAtom, var: u8) -> Option<i128>
    ensures { result ≡ lower_by_le bounds.now atom.now var }
{
    lower_at_most(coefficient(atom.form(), var), most_left(bounds, atom, var)?)
}

/// The upper bound that `form <= c` gives.
fn upper_by_le(bounds: &Bounds, atom: &KeyAtom, var: u8) -> Option<i128>
    ensures { result ≡ upper_by_le bounds.now atom.now var }
{
    upper_at_most(coefficient(atom.form(), var), most_left(bounds, atom, var)?)
}

/// The lower bound that `form >= c` gives: it is that of `-form <= -c`.
fn lower_by_ge(bounds: &Bounds, atom: &KeyAtom, var: u8) -> Option<i128>
    ensures { result ≡ lower_by_ge bounds.now atom.now var }
{
    lower_at_most(
        -coefficient(atom.form(), var),
        -least_left(bounds, atom, var)?,
    )
}

/// The upper bound that `form >= c` gives: it is that of `-form <= -c`.
fn upper_by_ge(bounds: &Bounds, atom: &KeyAtom, var: u8) -> Option<i128>
    ensures { result ≡ upper_by_ge bounds.now atom.now var }
{
    upper_at_most(
        -coefficient(atom.form(), var),
        -least_left(bounds, atom, var)?,
    )
}

/// What `form <= c` leaves for the term on the variable at most.
fn most_left(bounds: &Bounds, atom: &KeyAtom, var: u8) -> Option<i128>
    ensures value { result ≡ most_left bounds.now atom.now var }
    ensures size { IfSome result (λ n. unsigned_abs n ≤ 2 ^ 121) }
{
    let rest = bounds.least_besides(atom.form(), var)?;
    Some(i128::from(atom.constant()) - rest)
}

/// What `form >= c` leaves for the term on the variable at least.
fn least_left(bounds: &Bounds, atom: &KeyAtom, var: u8) -> Option<i128>
    ensures value { result ≡ least_left bounds.now atom.now var }
    ensures size { IfSome result (λ n. unsigned_abs n ≤ 2 ^ 121) }
{
    let rest = bounds.greatest_besides(atom.form(), var)?;
    Some(i128::from(atom.constant()) - rest)
}

/// The lower bound of v that `coef * v <= most` gives, on a coefficient below 0.
fn lower_at_most(coef: i64, most: i128) -> Option<i128>
    requires coef { unsigned_abs coef ≤ 2 ^ 47 }
    requires most { unsigned_abs most ≤ 2 ^ 121 }
    ensures { result ≡ lower_at_most coef most }
{
    if coef >= 0 {
        return None;
    }
    Some(-most.div_euclid(-i128::from(coef)))
}

/// The upper bound of v that `coef * v <= most` gives, on a coefficient above 0.
fn upper_at_most(coef: i64, most: i128) -> Option<i128>
    requires coef { unsigned_abs coef ≤ 2 ^ 47 }
    requires most { unsigned_abs most ≤ 2 ^ 121 }
    ensures { result ≡ upper_at_most coef most }
{
    if coef <= 0 {
        return None;
    }
    Some(most.div_euclid(i128::from(coef)))
}

/// The coefficient of a variable in a form, 0 where the form doesn't name it.
fn coefficient(form: &Form, var: u8) -> i64
    requires { IsCanonicalForm form.now }
    ensures value { result ≡ coefficient_of form.now var }
    ensures size { unsigned_abs result ≤ 2 ^ 46 }
{
    let mut sum = 0;
    for term in form.terms() {
        sum += coefficient_in(*term, var);
    }
    sum
}

/// The coefficient of a variable in a term, 0 where the term is on another.
fn coefficient_in(term: FormTerm, var: u8) -> i64
    requires { unsigned_abs term.coef < 2 ^ 40 }
    ensures value { result ≡ (if term.var == var then term.coef else pos 0) }
    ensures size { unsigned_abs result ≤ 2 ^ 40 }
{
    if term.var == var { term.coef } else { 0 }
}
