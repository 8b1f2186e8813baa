//! One atom or side that closes a box by itself. Such a one is positive at each point within the bounds, and so at the
//! lowest and at the highest corner: only where it is worth more than 0 at both it is tested.

ghost use Rattle.std.specs.Prelude.{◌≡◌, ◌<◌, ◌≤◌, length, MatchOption, false, [], ◌∷◌};
ghost use Rattle.refutation.specs.Bounds.{is_empty};
ghost use Rattle.refutation.specs.Glance.{SomeUnitCloses, unit_closes, place_count};
ghost use Rattle.refutation.specs.Leaf.{leaf_of, combo_closes};
ghost use Rattle.combos.specs.AtCorners.{AreWorths, IsWeighed};
ghost use Rattle.combos.specs.Found.{box_of};
ghost use Rattle.combos.specs.Tried.{IsClosingUnitAt, IsFirstClosingUnit};

use crate::term::{leaf_of_one, place_count};
use crate::worths::{UnitTerm, Worths};
use lin_model::Key;
use refutation::{Bounds, Leaf, Side, closes_alone, combinations_are_positive};

/// The first atom or side that closes the box by the factor 1, or by -1 on `=`.
pub fn closing_unit(key: &Key, bounds: &Bounds, sides: &[Side], worths: &Worths) -> Option<Leaf>
    requires few { length sides.now ≤ 65536 }
    requires full { is_empty bounds.now ≡ false }
    requires worths { AreWorths key.now (box_of bounds.now sides.now) worths.now }
    ensures { MatchOption result (¬ SomeUnitCloses key.now (box_of bounds.now sides.now))
        (λ leaf. IsFirstClosingUnit key.now (box_of bounds.now sides.now) (leaf_of leaf)) }
{
    for place in 0..place_count(key, sides) {
        if let Some(leaf) = unit_at(key, bounds, sides, worths, place) {
            return Some(leaf);
        }
    }
    None
}

/// The leaf of the atom or side at this place, by the factor 1 or else -1, if it closes the box.
fn unit_at(
    key: &Key,
    bounds: &Bounds,
    sides: &[Side],
    worths: &Worths,
    place: usize,
) -> Option<Leaf>
    requires few { length sides.now ≤ 65536 }
    requires full { is_empty bounds.now ≡ false }
    requires worths { AreWorths key.now (box_of bounds.now sides.now) worths.now }
    requires place { place < place_count key.now sides.now }
    ensures { MatchOption result (unit_closes key.now (box_of bounds.now sides.now) place ≡ false)
        (λ leaf. IsClosingUnitAt key.now (box_of bounds.now sides.now) place (leaf_of leaf)) }
{
    combinations_are_positive();
    key.keeps_limits();
    bounds.keeps_limits();
    match worths.failing_at(key, bounds, sides, place) {
        None => None,
        Some(unit) => {
            if closes_box(key, bounds, sides, unit) {
                Some(leaf_of_one(unit.term))
            } else {
                None
            }
        }
    }
}

/// Whether the unit closes the box by itself.
fn closes_box(key: &Key, bounds: &Bounds, sides: &[Side], unit: UnitTerm) -> bool
    requires full { is_empty bounds.now ≡ false }
    requires unit { IsWeighed key.now (box_of bounds.now sides.now) unit }
    ensures { result ≡ combo_closes key.now (box_of bounds.now sides.now) (unit.term ∷ []) }
{
    combinations_are_positive();
    key.keeps_limits();
    bounds.keeps_limits();
    if unit.worth.highest > 0 {
        closes_alone(key, bounds, sides, unit.term)
    } else {
        false
    }
}
