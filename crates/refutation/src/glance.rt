//! What closes a box at a glance: one atom, or the sum of two. A side counts like an atom. In a row of both the atoms
//! of the key come first.

ghost use Rattle.std.specs.Prelude.{◌≡◌, ◌↔◌, ◌<◌, IsTrue, length};
ghost use Rattle.refutation.specs.Glance.{SomeBelow, place_count, term_at, closes_alone, close_together, closes_with};
ghost use Rattle.refutation.specs.Glance.{unit_closes, pair_closes, SomeUnitCloses, SomeOtherCloses, SomePairCloses};
ghost use Rattle.refutation.specs.Leaf.{fixed_closes, multiple_of, ClosedByOneAtom, ClosedBySumOfTwo};
ghost use Rattle.refutation.specs.Sum.{AddsIfSome};

use crate::bounds::Bounds;
use crate::closing::{add_numbered_atom, add_numbered_side, fixed_closes};
use crate::side::Side;
use crate::sum::Sum;
use lin_model::Key;

/// Whether one atom or side closes the box of these bounds and sides: the box is empty, an atom's form has one value
/// there that fails its test, or some atom or side closes it by the factor 1, or by -1 on `=`.
pub fn closed_by_one_atom(key: &Key, bounds: &Bounds, sides: &[Side]) -> bool
    ensures { IsTrue result ↔ ClosedByOneAtom key.now (record { bounds = bounds.now; sides = sides.now }) }
{
    if bounds.is_empty() {
        return true;
    }
    if some_fixed_closes(key, bounds) {
        return true;
    }
    some_unit_closes(key, bounds, sides)
}

/// Whether the sum of two atoms or sides closes the box of these bounds and sides, each by the factor 1, or by -1 on
/// `=`.
pub fn closed_by_sum_of_two(key: &Key, bounds: &Bounds, sides: &[Side]) -> bool
    ensures { IsTrue result ↔ ClosedBySumOfTwo key.now (record { bounds = bounds.now; sides = sides.now }) }
{
    some_pair_closes(key, bounds, sides)
}

/// Whether the form of some atom has one value in the box, which fails its test.
fn some_fixed_closes(key: &Key, bounds: &Bounds) -> bool
    ensures { IsTrue result ↔ SomeBelow (λ i. IsTrue (fixed_closes key.now bounds.now i)) (length key.now) }
{
    for number in 0..key.atoms().len() as u16 {
        if fixed_closes(key, bounds, number) {
            return true;
        }
    }
    false
}

/// Whether some atom or side closes the box by the factor 1 or -1.
fn some_unit_closes(key: &Key, bounds: &Bounds, sides: &[Side]) -> bool
    ensures { IsTrue result ↔ SomeUnitCloses key.now (record { bounds = bounds.now; sides = sides.now }) }
{
    for place in 0..place_count(key, sides) {
        if unit_closes(key, bounds, sides, place) {
            return true;
        }
    }
    false
}

/// Whether some two of them do together.
fn some_pair_closes(key: &Key, bounds: &Bounds, sides: &[Side]) -> bool
    ensures { IsTrue result ↔ SomePairCloses key.now (record { bounds = bounds.now; sides = sides.now }) }
{
    for place in 0..place_count(key, sides) {
        if some_other_closes(key, bounds, sides, place) {
            return true;
        }
    }
    false
}

/// Whether some atom or side closes the box together with the one at this place.
fn some_other_closes(key: &Key, bounds: &Bounds, sides: &[Side], place: usize) -> bool
    ensures { IsTrue result ↔ SomeOtherCloses key.now (record { bounds = bounds.now; sides = sides.now }) place }
{
    for other in 0..place_count(key, sides) {
        if pair_closes(key, bounds, sides, place, other) {
            return true;
        }
    }
    false
}

/// How many atoms and sides there are.
fn place_count(key: &Key, sides: &[Side]) -> usize
    ensures { result ≡ place_count key.now sides.now }
{
    key.atoms().len() + sides.len()
}

/// Whether the factor 1 or -1 of the atom or side at this place closes the box.
fn unit_closes(key: &Key, bounds: &Bounds, sides: &[Side], place: usize) -> bool
    ensures { result ≡ unit_closes key.now (record { bounds = bounds.now; sides = sides.now }) place }
{
    closes_alone(key, bounds, sides, place, 1) || closes_alone(key, bounds, sides, place, -1)
}

/// Whether such factors of the two at these places close the box together.
fn pair_closes(key: &Key, bounds: &Bounds, sides: &[Side], place: usize, other: usize) -> bool
    ensures { result ≡ pair_closes key.now (record { bounds = bounds.now; sides = sides.now }) place other }
{
    closes_with(key, bounds, sides, place, 1, other)
        || closes_with(key, bounds, sides, place, -1, other)
}

/// Whether this term closes the box together with the factor 1 or -1 of the atom or side at another place.
fn closes_with(
    key: &Key,
    bounds: &Bounds,
    sides: &[Side],
    place: usize,
    factor: i64,
    other: usize,
) -> bool
    ensures { result ≡ closes_with key.now (record { bounds = bounds.now; sides = sides.now }) place factor other }
{
    close_together(key, bounds, sides, place, factor, other, 1)
        || close_together(key, bounds, sides, place, factor, other, -1)
}

/// Whether the multiple of the atom or side at this place is positive all over the box.
fn closes_alone(key: &Key, bounds: &Bounds, sides: &[Side], place: usize, factor: i64) -> bool
    ensures { result ≡ closes_alone key.now (record { bounds = bounds.now; sides = sides.now }) place factor }
{
    let mut sum = Sum::zero();
    if !add_place(&mut sum, key, sides, place, factor) {
        return false;
    }
    sum.is_positive(bounds)
}

/// Whether the sum of the multiples at two places is.
fn close_together(
    key: &Key,
    bounds: &Bounds,
    sides: &[Side],
    place: usize,
    factor: i64,
    other: usize,
    by: i64,
) -> bool
    ensures { result
        ≡ close_together key.now (record { bounds = bounds.now; sides = sides.now }) place factor other by }
{
    let mut sum = Sum::zero();
    if !add_place(&mut sum, key, sides, place, factor) {
        return false;
    }
    if !add_place(&mut sum, key, sides, other, by) {
        return false;
    }
    sum.is_positive(bounds)
}

/// Adds the multiple that a factor of the atom or side at this place stands for; false where there is none.
fn add_place(sum: &mut Sum, key: &Key, sides: &[Side], place: usize, factor: i64) -> bool
    requires { sum.old.count < 8 }
    ensures { AddsIfSome (multiple_of key.now sides.now (term_at key.now place factor)) sum.old sum.new result }
{
    let atoms = key.atoms().len();
    if place < atoms {
        add_numbered_atom(sum, key, place, factor)
    } else {
        add_numbered_side(sum, key, sides, place - atoms, factor)
    }
}
