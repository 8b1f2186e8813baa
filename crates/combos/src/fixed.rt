//! An atom whose form has one value in a box, which fails its test.

ghost use Rattle.std.specs.Prelude.{◌≡◌, ◌<◌, ℕ, length, MatchOption, false};
ghost use Rattle.refutation.specs.Leaf.{fixed_closes};
ghost use Rattle.combos.specs.Found.{IsFirstFixed};

use lin_model::Key;
use refutation::{Bounds, fixed_closes};

/// The first atom of the key whose form has one value within the bounds, which fails the atom's test.
pub fn closing_fixed(key: &Key, bounds: &Bounds) -> Option<u16>
    ensures { MatchOption result ((i : ℕ) → i < length key.now → fixed_closes key.now bounds.now i ≡ false)
        (IsFirstFixed key.now bounds.now) }
{
    for number in 0..key.atoms().len() as u16 {
        if fixed_closes(key, bounds, number) {
            return Some(number);
        }
    }
    None
}
