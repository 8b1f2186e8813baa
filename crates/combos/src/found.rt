//! The leaf that closes a box, if one is found.

ghost use Rattle.std.specs.Prelude.{◌≡◌, ◌≢◌, ◌≤◌, None, false, IfSome, length};
ghost use Rattle.refutation.specs.Leaf.{Closes, leaf_of, empty};
ghost use Rattle.combos.specs.AtCorners.{AreWorths};
ghost use Rattle.combos.specs.Found.{AreNeSides, box_of, StaysOpen, IsPlainest, IsFirstAmongEquals};
ghost use Rattle.combos.specs.Tried.{IsCombination};

use crate::elimination::eliminate;
use crate::fixed::closing_fixed;
use crate::pair::closing_pair;
use crate::unit::closing_unit;
use crate::worths::Worths;
use lin_model::Key;
use refutation::{Bounds, Leaf, Side, closes, glances_try_units};

/// A leaf that closes the box of these bounds and sides. None comes only where the box isn't empty and neither one atom
/// nor the sum of two closes it, where an atom may be one of the key or a side, taken by the factor 1, or by -1 on `=`.
///
/// The plainest is given: `Empty` before a combination, a single unit before a sum of two, and that before anything
/// longer, in which variables are eliminated within eight terms; a form with one value comes last. Among units the first
/// of the row is given, and among forms with one value that of the first atom. It takes no memory.
pub fn find_combo(key: &Key, bounds: &Bounds, sides: &[Side]) -> Option<Leaf>
    requires sides { AreNeSides key.now sides.now }
    requires few { length sides.now ≤ 65536 }
    ensures closes { IfSome result (λ leaf. Closes key.now (box_of bounds.now sides.now) (leaf_of leaf)) }
    ensures plainest { IfSome result (λ leaf. IsPlainest key.now (box_of bounds.now sides.now) (leaf_of leaf)) }
    ensures first { IfSome result (λ leaf.
        IsFirstAmongEquals key.now (box_of bounds.now sides.now) (leaf_of leaf)) }
    ensures none { result ≡ None → StaysOpen key.now (box_of bounds.now sides.now) }
{
    glances_try_units();
    if bounds.is_empty() {
        return Some(Leaf::Empty);
    }
    let worths = Worths::of(key, bounds, sides);
    if let Some(leaf) = closing_unit(key, bounds, sides, &worths) {
        return Some(leaf);
    }
    if let Some(leaf) = closing_pair(key, bounds, sides, &worths) {
        return Some(leaf);
    }
    if let Some(leaf) = closing_combination(key, bounds, sides, &worths) {
        return Some(leaf);
    }
    match closing_fixed(key, bounds) {
        None => None,
        Some(number) => Some(Leaf::Fixed(number)),
    }
}

/// The combination that elimination comes to, if it closes the box.
fn closing_combination(key: &Key, bounds: &Bounds, sides: &[Side], worths: &Worths) -> Option<Leaf>
    requires few { length sides.now ≤ 65536 }
    requires worths { AreWorths key.now (box_of bounds.now sides.now) worths.now }
    ensures closes { IfSome result (λ leaf. Closes key.now (box_of bounds.now sides.now) (leaf_of leaf)) }
    ensures combination { IfSome result (λ leaf. IsCombination (leaf_of leaf)) }
{
    match eliminate(key, bounds, sides, worths) {
        None => None,
        Some(terms) => {
            let leaf = Leaf::Combo(terms);
            if closes(key, bounds, sides, &leaf) {
                Some(leaf)
            } else {
                None
            }
        }
    }
}
