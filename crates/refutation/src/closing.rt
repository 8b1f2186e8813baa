//! What closes a box: an empty box, a sum that is positive all over it, or a form with one value that fails its test.

ghost use Rattle.std.specs.Prelude.{◌≡◌, ◌+◌, ◌^◌, ◌<◌, ◌≤◌, unsigned_abs, slice_get, IfSome};
ghost use Rattle.std.specs.Option.{option_copied, option_and_then};
ghost use Rattle.lin_model.specs.KeyAtom.{IsCanonical, IsCanonicalForm};
ghost use Rattle.lin_model.specs.Test.{passes};
ghost use Rattle.refutation.specs.Box.{beside, side_atom};
ghost use Rattle.refutation.specs.Leaf.{closes, leaf_of, combo_closes, fixed_closes, fails_fixed, multiple_of};
ghost use Rattle.refutation.specs.Leaf.{weighted, weight};
ghost use Rattle.refutation.specs.Sum.{AddsIfSome};

use crate::bounds::Bounds;
use crate::leaf::{Leaf, LeafTerm, On};
use crate::side::Side;
use crate::sum::Sum;
use lin_model::{FormTerm, Key, KeyAtom, Op};

/// Whether the leaf closes the box of these bounds and sides.
pub fn closes(key: &Key, bounds: &Bounds, sides: &[Side], leaf: &Leaf) -> bool
    ensures { result ≡ closes key.now (record { bounds = bounds.now; sides = sides.now }) (leaf_of leaf.now) }
{
    match leaf {
        Leaf::Combo(terms) => combo_closes(key, bounds, sides, terms.as_slice()),
        Leaf::Fixed(atom) => fixed_closes(key, bounds, *atom),
        Leaf::Empty => bounds.is_empty(),
    }
}

/// Whether these terms are one to eight lawful ones whose sum is positive all over the box.
pub fn combo_closes(key: &Key, bounds: &Bounds, sides: &[Side], terms: &[LeafTerm]) -> bool
    ensures { result ≡ combo_closes key.now (record { bounds = bounds.now; sides = sides.now }) terms.now }
{
    if terms.is_empty() || terms.len() > 8 {
        return false;
    }
    let mut sum = Sum::zero();
    for term in terms {
        if !add_term(&mut sum, key, sides, *term) {
            return false;
        }
    }
    sum.is_positive(bounds)
}

/// Whether the form of the atom has one value in the box, which fails its test.
pub fn fixed_closes(key: &Key, bounds: &Bounds, atom: u16) -> bool
    ensures { result ≡ fixed_closes key.now bounds.now atom }
{
    match atom_at(key, atom) {
        None => false,
        Some(atom) => fails_fixed(
            atom,
            bounds.least(atom.form()),
            bounds.greatest(atom.form()),
        ),
    }
}

/// Whether both values are known and the same, and this value fails the atom's test.
fn fails_fixed(atom: &KeyAtom, least: Option<i128>, greatest: Option<i128>) -> bool
    ensures { result ≡ fails_fixed atom.now least greatest }
{
    match (least, greatest) {
        (Some(least), Some(greatest)) => {
            least == greatest && !atom.op().passes(atom.constant(), least)
        }
        _ => false,
    }
}

/// The atom of this number in the key.
pub fn atom_at(key: &Key, number: u16) -> Option<&KeyAtom>
    ensures value { option_copied result ≡ slice_get key.now number }
    ensures canonical { IfSome result (λ a. IsCanonical a.now) }
{
    key.atoms().get(usize::from(number))
}

/// Adds the multiple that a term stands for; false where it names nothing or its factor isn't lawful.
fn add_term(sum: &mut Sum, key: &Key, sides: &[Side], term: LeafTerm) -> bool
    requires { sum.old.count < 8 }
    ensures { AddsIfSome (multiple_of key.now sides.now term) sum.old sum.new result }
{
    match term.on {
        On::Atom(number) => add_numbered_atom(sum, key, usize::from(number), term.factor),
        On::Side(number) => add_numbered_side(sum, key, sides, usize::from(number), term.factor),
    }
}

/// Adds the multiple of the atom of this number; false where there is none or its factor isn't lawful.
pub fn add_numbered_atom(sum: &mut Sum, key: &Key, number: usize, factor: i64) -> bool
    requires { sum.old.count < 8 }
    ensures { AddsIfSome (option_and_then (λ a. weighted a factor) (slice_get key.now number)) sum.old sum.new result }
{
    match key.atoms().get(number) {
        None => false,
        Some(atom) => add_atom(sum, atom, factor),
    }
}

/// Adds the multiple of the side of this number; false where there is none, it names no atom or its factor isn't
/// lawful.
pub fn add_numbered_side(
    sum: &mut Sum,
    key: &Key,
    sides: &[Side],
    number: usize,
    factor: i64,
) -> bool
    requires { sum.old.count < 8 }
    ensures { AddsIfSome
        (option_and_then (λ a. weighted a factor) (option_and_then (side_atom key.now) (slice_get sides.now number)))
        sum.old sum.new result }
{
    match sides.get(number) {
        None => false,
        Some(side) => match atom_at(key, side.atom) {
            None => false,
            Some(atom) => add_side(sum, atom, side.upper, factor),
        },
    }
}

/// Adds the multiple of an atom of the key.
fn add_atom(sum: &mut Sum, atom: &KeyAtom, factor: i64) -> bool
    requires { sum.old.count < 8 }
    ensures { AddsIfSome (weighted atom.now factor) sum.old sum.new result }
{
    add_weighted(sum, atom.form().terms(), atom.op(), atom.constant(), factor)
}

/// Adds the multiple of a side of an atom: `form <= c - 1`, or `form >= c + 1`.
fn add_side(sum: &mut Sum, atom: &KeyAtom, upper: bool, factor: i64) -> bool
    requires { sum.old.count < 8 }
    ensures { AddsIfSome (weighted (beside atom.now upper) factor) sum.old sum.new result }
{
    let terms = atom.form().terms();
    if upper {
        add_weighted(sum, terms, Op::Ge, atom.constant() + 1, factor)
    } else {
        add_weighted(sum, terms, Op::Le, atom.constant() - 1, factor)
    }
}

/// Adds the multiple of `form op constant` that the factor stands for, if it is lawful.
fn add_weighted(sum: &mut Sum, form: &[FormTerm], op: Op, constant: i64, factor: i64) -> bool
    requires form { IsCanonicalForm form.now }
    requires constant { unsigned_abs constant ≤ 2 ^ 50 }
    requires few { sum.old.count < 8 }
    ensures { AddsIfSome (weighted (record { form = form.now; op = op; constant = constant }) factor)
        sum.old sum.new result }
{
    match weight(op, factor) {
        None => false,
        Some(weight) => {
            sum.add(form, constant, weight);
            true
        }
    }
}

/// The multiple of `form - constant` that a factor stands for: its negative on `>=`, where `constant - form` is meant.
/// None where the factor isn't lawful.
pub fn weight(op: Op, factor: i64) -> Option<i64>
    ensures value { result ≡ weight op factor }
    ensures size { IfSome result (λ w. unsigned_abs w ≤ 2 ^ 31) }
{
    if factor == 0 || factor.unsigned_abs() > 1 << 31 {
        return None;
    }
    match op {
        Op::Le if factor > 0 => Some(factor),
        Op::Ge if factor > 0 => Some(-factor),
        Op::Eq => Some(factor),
        _ => None,
    }
}
