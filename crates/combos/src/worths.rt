//! What all atoms and sides of a box are worth at its corners, worked out once and read by their places in the row.

ghost use Rattle.std.specs.Prelude.{◌≡◌, ◌^◌, ◌<◌, ◌≤◌, ◌++◌, [], ◌∷◌, length, min, unsigned_abs, pos, negsuc, false, true};
ghost use Rattle.std.specs.Prelude.{MatchOption, IfSome};
ghost use Rattle.arrayvec.specs.ArrayVec.{array_vec_len};
ghost use Rattle.refutation.specs.Glance.{place_count, term_at};
ghost use Rattle.combos.specs.AtCorners.{AreWorths, IsWeighed, IsWorth, IsNoneOr, IsSmall, BothHold, IsOnlyFailing, is_equation};
ghost use Rattle.combos.specs.Corner.{corner_value};
ghost use Rattle.combos.specs.Found.{box_of};

use crate::corner::{Worth, worth_at};
use crate::term::{place_count, term_at};
use arrayvec::ArrayVec;
use lin_model::{Key, Op};
use refutation::{Bounds, LeafTerm, Side};

/// How many places are kept: both lists take less than two kilobytes, since they are cleared at each box. What stands
/// beyond is worked out whenever it is asked for.
const MAX_KEPT: usize = 62;

/// An atom or side by the factor 1 or -1.
#[derive(Clone, Copy)]
pub struct UnitTerm {
    /// The term.
    pub term: LeafTerm,
    /// What it is worth.
    pub worth: Worth,
}

/// What the atoms and sides at the first places are worth by the factor 1. Where that isn't lawful, it is so little that
/// no sum with it is positive.
#[derive(Drop)]
pub struct Worths {
    /// At the lowest corner.
    pub lowest: ArrayVec<i128, MAX_KEPT>,
    /// At the highest.
    pub highest: ArrayVec<i128, MAX_KEPT>,
}

impl Worths {
    /// Works out what those of a box are worth.
    pub fn of(key: &Key, bounds: &Bounds, sides: &[Side]) -> Worths
        requires { length sides.now ≤ 65536 }
        ensures worths { AreWorths key.now (box_of bounds.now sides.now) result }
        ensures kept { array_vec_len result.lowest ≡ min (place_count key.now sides.now) MAX_KEPT }
    {
        let mut worths = Worths {
            lowest: ArrayVec::new(),
            highest: ArrayVec::new(),
        };
        for place in 0..place_count(key, sides).min(MAX_KEPT) {
            worths.push(worth_at(key, bounds, sides, place));
        }
        worths
    }

    /// Keeps one more.
    fn push(&mut self, worth: Worth)
        requires lowest { array_vec_len self.old.lowest < MAX_KEPT }
        requires highest { array_vec_len self.old.highest < MAX_KEPT }
        ensures lowest { self.new.lowest.items ≡ self.old.lowest.items ++ worth.lowest ∷ [] }
        ensures highest { self.new.highest.items ≡ self.old.highest.items ++ worth.highest ∷ [] }
    {
        self.lowest.push(worth.lowest);
        self.highest.push(worth.highest);
    }

    /// What the atom or side at this place is worth at the lowest corner by the factor 1.
    pub fn lowest_at(&self, key: &Key, bounds: &Bounds, sides: &[Side], place: usize) -> i128
        requires few { length sides.now ≤ 65536 }
        requires place { place < place_count key.now sides.now }
        requires worths { AreWorths key.now (box_of bounds.now sides.now) self.now }
        ensures value { IsNoneOr
            (corner_value key.now (box_of bounds.now sides.now) false (term_at key.now place (pos 1))) result }
        ensures size { unsigned_abs result ≤ 2 ^ 100 }
    {
        if place < self.lowest.len() {
            self.lowest[place]
        } else {
            worth_at(key, bounds, sides, place).lowest
        }
    }

    /// What it is worth at the highest corner by the factor 1.
    pub fn highest_at(&self, key: &Key, bounds: &Bounds, sides: &[Side], place: usize) -> i128
        requires few { length sides.now ≤ 65536 }
        requires place { place < place_count key.now sides.now }
        requires worths { AreWorths key.now (box_of bounds.now sides.now) self.now }
        ensures value { IsNoneOr
            (corner_value key.now (box_of bounds.now sides.now) true (term_at key.now place (pos 1))) result }
        ensures size { unsigned_abs result ≤ 2 ^ 100 }
    {
        if place < self.highest.len() {
            self.highest[place]
        } else {
            worth_at(key, bounds, sides, place).highest
        }
    }

    /// The atom or side at this place by the factor by which it is worth more than 0 at the lowest corner: 1, or -1 on
    /// `=`. None where there is no such factor; there are never two.
    #[inline]
    pub fn failing_at(
        &self,
        key: &Key,
        bounds: &Bounds,
        sides: &[Side],
        place: usize,
    ) -> Option<UnitTerm>
        requires few { length sides.now ≤ 65536 }
        requires place { place < place_count key.now sides.now }
        requires worths { AreWorths key.now (box_of bounds.now sides.now) self.now }
        ensures weighed { IfSome result (λ unit. IsWeighed key.now (box_of bounds.now sides.now) unit) }
        ensures only { MatchOption result (BothHold key.now (box_of bounds.now sides.now) place)
            (λ unit. IsOnlyFailing key.now (box_of bounds.now sides.now) place unit.term) }
    {
        let lowest = self.lowest_at(key, bounds, sides, place);
        if lowest > 0 {
            return Some(self.plus(key, bounds, sides, place));
        }
        if lowest < 0 && is_equation(key, place) {
            return Some(self.minus(key, bounds, sides, place));
        }
        None
    }

    /// The atom or side at this place by the factor 1.
    #[inline(never)]
    fn plus(&self, key: &Key, bounds: &Bounds, sides: &[Side], place: usize) -> UnitTerm
        requires few { length sides.now ≤ 65536 }
        requires place { place < place_count key.now sides.now }
        requires worths { AreWorths key.now (box_of bounds.now sides.now) self.now }
        ensures term { result.term ≡ term_at key.now place (pos 1) }
        ensures weighed { IsWeighed key.now (box_of bounds.now sides.now) result }
    {
        UnitTerm {
            term: term_at(key, sides, place, 1),
            worth: self.at(key, bounds, sides, place),
        }
    }

    /// The equation at this place by the factor -1.
    #[inline(never)]
    fn minus(&self, key: &Key, bounds: &Bounds, sides: &[Side], place: usize) -> UnitTerm
        requires few { length sides.now ≤ 65536 }
        requires place { place < place_count key.now sides.now }
        requires worths { AreWorths key.now (box_of bounds.now sides.now) self.now }
        requires equation { is_equation key.now place ≡ true }
        ensures term { result.term ≡ term_at key.now place (negsuc 0) }
        ensures weighed { IsWeighed key.now (box_of bounds.now sides.now) result }
    {
        UnitTerm {
            term: term_at(key, sides, place, -1),
            worth: self.at(key, bounds, sides, place).negated(),
        }
    }

    /// What the atom or side at this place is worth by the factor 1.
    fn at(&self, key: &Key, bounds: &Bounds, sides: &[Side], place: usize) -> Worth
        requires few { length sides.now ≤ 65536 }
        requires place { place < place_count key.now sides.now }
        requires worths { AreWorths key.now (box_of bounds.now sides.now) self.now }
        ensures worth { IsWorth key.now (box_of bounds.now sides.now) (term_at key.now place (pos 1)) result }
        ensures small { IsSmall result }
    {
        Worth {
            lowest: self.lowest_at(key, bounds, sides, place),
            highest: self.highest_at(key, bounds, sides, place),
        }
    }
}

/// Whether an atom `form = c` stands at this place of the row.
pub fn is_equation(key: &Key, place: usize) -> bool
    ensures { result ≡ is_equation key.now place }
{
    match key.atoms().get(place) {
        None => false,
        Some(atom) => matches!(atom.op(), Op::Eq),
    }
}
