//! What a term names, and whether its multiple by 1 or -1 closes a box.

ghost use Rattle.std.specs.Prelude.{◌≡◌, ◌^◌, ◌≤◌, None, Some, IfSome, MatchOption, int_lt, false, unsigned_abs};
ghost use Rattle.std.specs.Prelude.{[], ◌∷◌};
ghost use Rattle.std.specs.Option.{option_map_or};
ghost use Rattle.lin_model.specs.KeyAtom.{IsCanonicalForm};
ghost use Rattle.refutation.specs.Box.{beside};
ghost use Rattle.refutation.specs.Leaf.{named, weighted, is_positive_sum, combo_closes};

use crate::bounds::Bounds;
use crate::closing::{atom_at, weight};
use crate::leaf::{LeafTerm, On};
use crate::side::Side;
use lin_model::{Form, Key, KeyAtom, Op};

/// A comparison `form op constant`: an atom of the key, or what a side of the box says.
#[derive(Clone, Copy)]
pub struct Comparison<'a> {
    /// The left side.
    pub form: &'a Form,
    /// How it is compared.
    pub op: Op,
    /// The right side.
    pub constant: i64,
}

/// The comparison that a term names, None where there is none of this number.
pub fn comparison_of<'a>(key: &'a Key, sides: &[Side], on: On) -> Option<Comparison<'a>>
    ensures value { MatchOption result (named key.now sides.now on ≡ None)
        (λ a. named key.now sides.now on
        ≡ Some (record { form = a.form.now; op = a.op; constant = a.constant })) }
    ensures form { IfSome result (λ a. IsCanonicalForm a.form.now) }
    ensures constant { IfSome result (λ a. unsigned_abs a.constant ≤ 2 ^ 50) }
{
    match on {
        On::Atom(number) => match atom_at(key, number) {
            None => None,
            Some(atom) => Some(whole(atom)),
        },
        On::Side(number) => match sides.get(usize::from(number)) {
            None => None,
            Some(side) => match atom_at(key, side.atom) {
                None => None,
                Some(atom) => Some(half(atom, side.upper)),
            },
        },
    }
}

/// The atom as it stands in the key.
fn whole(atom: &KeyAtom) -> Comparison<'_>
    ensures value { record { form = result.form.now; op = result.op; constant = result.constant } ≡ atom.now }
    ensures form { IsCanonicalForm result.form.now }
    ensures constant { unsigned_abs result.constant ≤ 2 ^ 50 }
{
    Comparison {
        form: atom.form(),
        op: atom.op(),
        constant: atom.constant(),
    }
}

/// A side of an atom: `form <= c - 1`, or `form >= c + 1`.
fn half(atom: &KeyAtom, upper: bool) -> Comparison<'_>
    ensures value { record { form = result.form.now; op = result.op; constant = result.constant }
        ≡ beside atom.now upper }
    ensures form { IsCanonicalForm result.form.now }
    ensures constant { unsigned_abs result.constant ≤ 2 ^ 50 }
{
    let form = atom.form();
    let constant = atom.constant();
    if upper {
        Comparison {
            form,
            op: Op::Ge,
            constant: constant + 1,
        }
    } else {
        Comparison {
            form,
            op: Op::Le,
            constant: constant - 1,
        }
    }
}

/// Whether a term with the factor 1 or -1 closes the box by itself. It costs the terms of what it names.
pub fn closes_alone(key: &Key, bounds: &Bounds, sides: &[Side], term: LeafTerm) -> bool
    requires { unsigned_abs term.factor ≡ 1 }
    ensures { result ≡ combo_closes key.now (record { bounds = bounds.now; sides = sides.now }) (term ∷ []) }
{
    match comparison_of(key, sides, term.on) {
        None => false,
        Some(comparison) => is_positive(comparison, bounds, term.factor),
    }
}

/// Whether the factor 1 or -1 of the comparison is lawful, and its multiple positive all over the bounds.
fn is_positive(comparison: Comparison<'_>, bounds: &Bounds, factor: i64) -> bool
    requires form { IsCanonicalForm comparison.form.now }
    requires constant { unsigned_abs comparison.constant ≤ 2 ^ 50 }
    requires unit { unsigned_abs factor ≡ 1 }
    ensures { result ≡ option_map_or (λ m. is_positive_sum bounds.now (m ∷ []))
        (weighted (record {
          form = comparison.entry.form.now;
          op = comparison.entry.op;
          constant = comparison.entry.constant;
        }) factor)
        false }
{
    match weight(comparison.op, factor) {
        None => false,
        Some(weight) => {
            if weight > 0 {
                is_above(bounds.least(comparison.form), comparison.constant)
            } else {
                is_below(bounds.greatest(comparison.form), comparison.constant)
            }
        }
    }
}

/// Whether the value is known and above the constant.
fn is_above(value: Option<i128>, constant: i64) -> bool
    ensures { result ≡ option_map_or (λ n. int_lt constant n) value false }
{
    match value {
        None => false,
        Some(value) => value > i128::from(constant),
    }
}

/// Whether the value is known and below the constant.
fn is_below(value: Option<i128>, constant: i64) -> bool
    ensures { result ≡ option_map_or (λ n. int_lt n constant) value false }
{
    match value {
        None => false,
        Some(value) => value < i128::from(constant),
    }
}
