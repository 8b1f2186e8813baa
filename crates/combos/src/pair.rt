//! The sum of two atoms or sides that closes a box. Such a sum is positive at each point within the bounds, and so at
//! the lowest and at the highest corner: at the lowest one of the two is worth more than 0, and both together are, as at
//! the highest. This spares nearly all tests.

ghost use Rattle.std.specs.Prelude.{◌≡◌, ◌^◌, ◌<◌, ◌≤◌, ◌+ℤ◌, int_lt, length, unsigned_abs, MatchOption, pos, negsuc};
ghost use Rattle.std.specs.Prelude.{false, [], ◌∷◌};
ghost use Rattle.refutation.specs.Bounds.{is_empty};
ghost use Rattle.refutation.specs.Glance.{SomePairCloses, place_count, term_at};
ghost use Rattle.refutation.specs.Leaf.{leaf_of, combo_closes};
ghost use Rattle.combos.specs.AtCorners.{AreWorths, IsWeighed};
ghost use Rattle.combos.specs.Found.{box_of};
ghost use Rattle.combos.specs.Tried.{IsClosingPair, ClosesWith, NeitherCloses, NoneCloses, NoPairFrom};

use crate::term::{leaf_of_two, place_count, term_at};
use crate::worths::{UnitTerm, Worths, is_equation};
use lin_model::Key;
use refutation::{Bounds, Leaf, LeafTerm, Side, closes, combinations_are_positive};

/// The sum of two atoms or sides that closes the box, each by the factor 1, or by -1 on `=`.
pub fn closing_pair(key: &Key, bounds: &Bounds, sides: &[Side], worths: &Worths) -> Option<Leaf>
    requires few { length sides.now ≤ 65536 }
    requires full { is_empty bounds.now ≡ false }
    requires worths { AreWorths key.now (box_of bounds.now sides.now) worths.now }
    ensures { MatchOption result (¬ SomePairCloses key.now (box_of bounds.now sides.now))
        (λ leaf. IsClosingPair key.now (box_of bounds.now sides.now) (leaf_of leaf)) }
{
    combinations_are_positive();
    key.keeps_limits();
    bounds.keeps_limits();
    for place in 0..place_count(key, sides) {
        if let Some(leaf) = pair_from(key, bounds, sides, worths, place) {
            return Some(leaf);
        }
    }
    None
}

/// Such a sum of the atom or side at this place, where it fails at the lowest corner, and another.
fn pair_from(
    key: &Key,
    bounds: &Bounds,
    sides: &[Side],
    worths: &Worths,
    place: usize,
) -> Option<Leaf>
    requires few { length sides.now ≤ 65536 }
    requires full { is_empty bounds.now ≡ false }
    requires worths { AreWorths key.now (box_of bounds.now sides.now) worths.now }
    requires place { place < place_count key.now sides.now }
    ensures { MatchOption result (NoPairFrom key.now (box_of bounds.now sides.now) place)
        (λ leaf. IsClosingPair key.now (box_of bounds.now sides.now) (leaf_of leaf)) }
{
    match worths.failing_at(key, bounds, sides, place) {
        None => None,
        Some(first) => match pair_with(key, bounds, sides, worths, first) {
            None => None,
            Some(second) => Some(leaf_of_two(first.term, second)),
        },
    }
}

/// Such a sum of this unit and another.
fn pair_with(
    key: &Key,
    bounds: &Bounds,
    sides: &[Side],
    worths: &Worths,
    first: UnitTerm,
) -> Option<LeafTerm>
    requires few { length sides.now ≤ 65536 }
    requires full { is_empty bounds.now ≡ false }
    requires worths { AreWorths key.now (box_of bounds.now sides.now) worths.now }
    requires first { IsWeighed key.now (box_of bounds.now sides.now) first }
    ensures { MatchOption result (NoneCloses key.now (box_of bounds.now sides.now) first.term)
        (λ second. ClosesWith key.now (box_of bounds.now sides.now) first.term second) }
{
    for place in 0..place_count(key, sides) {
        if let Some(second) = pair_with_place(key, bounds, sides, worths, first, place) {
            return Some(second);
        }
    }
    None
}

/// Such a sum of this unit and the atom or side at a place.
fn pair_with_place(
    key: &Key,
    bounds: &Bounds,
    sides: &[Side],
    worths: &Worths,
    first: UnitTerm,
    place: usize,
) -> Option<LeafTerm>
    requires few { length sides.now ≤ 65536 }
    requires full { is_empty bounds.now ≡ false }
    requires worths { AreWorths key.now (box_of bounds.now sides.now) worths.now }
    requires first { IsWeighed key.now (box_of bounds.now sides.now) first }
    requires place { place < place_count key.now sides.now }
    ensures { MatchOption result (NeitherCloses key.now (box_of bounds.now sides.now) first.term place)
        (λ second. ClosesWith key.now (box_of bounds.now sides.now) first.term second) }
{
    if closes_by_plus(key, bounds, sides, worths, first, place) {
        return Some(term_at(key, sides, place, 1));
    }
    if closes_by_minus(key, bounds, sides, worths, first, place) {
        return Some(term_at(key, sides, place, -1));
    }
    None
}

/// Whether the sum of this unit and the factor 1 of a place closes the box.
fn closes_by_plus(
    key: &Key,
    bounds: &Bounds,
    sides: &[Side],
    worths: &Worths,
    first: UnitTerm,
    place: usize,
) -> bool
    requires few { length sides.now ≤ 65536 }
    requires full { is_empty bounds.now ≡ false }
    requires worths { AreWorths key.now (box_of bounds.now sides.now) worths.now }
    requires first { IsWeighed key.now (box_of bounds.now sides.now) first }
    requires place { place < place_count key.now sides.now }
    ensures { result ≡ combo_closes key.now (box_of bounds.now sides.now)
        (first.term ∷ term_at key.now place (pos 1) ∷ []) }
{
    combinations_are_positive();
    key.keeps_limits();
    bounds.keeps_limits();
    if !exceed(
        first.worth.lowest,
        worths.lowest_at(key, bounds, sides, place),
    ) {
        return false;
    }
    if !exceed(
        first.worth.highest,
        worths.highest_at(key, bounds, sides, place),
    ) {
        return false;
    }
    tested(
        key,
        bounds,
        sides,
        first.term,
        term_at(key, sides, place, 1),
    )
}

/// The same of the factor -1.
fn closes_by_minus(
    key: &Key,
    bounds: &Bounds,
    sides: &[Side],
    worths: &Worths,
    first: UnitTerm,
    place: usize,
) -> bool
    requires few { length sides.now ≤ 65536 }
    requires full { is_empty bounds.now ≡ false }
    requires worths { AreWorths key.now (box_of bounds.now sides.now) worths.now }
    requires first { IsWeighed key.now (box_of bounds.now sides.now) first }
    requires place { place < place_count key.now sides.now }
    ensures { result ≡ combo_closes key.now (box_of bounds.now sides.now)
        (first.term ∷ term_at key.now place (negsuc 0) ∷ []) }
{
    combinations_are_positive();
    key.keeps_limits();
    bounds.keeps_limits();
    if !is_equation(key, place) {
        return false;
    }
    if first.worth.lowest <= worths.lowest_at(key, bounds, sides, place) {
        return false;
    }
    if first.worth.highest <= worths.highest_at(key, bounds, sides, place) {
        return false;
    }
    tested(
        key,
        bounds,
        sides,
        first.term,
        term_at(key, sides, place, -1),
    )
}

/// Whether the sum is more than 0.
fn exceed(a: i128, b: i128) -> bool
    requires a { unsigned_abs a ≤ 2 ^ 100 }
    requires b { unsigned_abs b ≤ 2 ^ 100 }
    ensures { result ≡ int_lt (pos 0) (a +ℤ b) }
{
    a + b > 0
}

/// Whether the sum of two terms closes the box, by the test of the leaf.
fn tested(key: &Key, bounds: &Bounds, sides: &[Side], first: LeafTerm, second: LeafTerm) -> bool
    ensures { result ≡ combo_closes key.now (box_of bounds.now sides.now) (first ∷ second ∷ []) }
{
    let leaf = leaf_of_two(first, second);
    closes(key, bounds, sides, &leaf)
}
