//! The lowest corner of a box: every variable at its lower side.

ghost use Rattle.std.specs.Prelude.{◌≡◌, ◌^◌, ◌≤◌, unsigned_abs};
ghost use Rattle.std.specs.List.{All};
ghost use Rattle.lin_model.specs.Point.{AreSides};
ghost use Rattle.refutation.specs.Boxed.{HasShortSides};
ghost use Rattle.refutation.specs.SearchOrder.{lowest_corner};

use crate::sides::lower_side;
use arrayvec::ArrayVec;
use lin_model::Key;
use refutation::Bounds;

/// The values of the key's variables, each at its lower side.
pub(crate) fn lowest_corner(key: &Key, bounds: &Bounds) -> ArrayVec<i64, 64>
    ensures values { result.items ≡ lowest_corner key.now bounds.now }
    ensures sides { AreSides result.items }
    ensures small { HasShortSides bounds.now → All (λ n. unsigned_abs n ≤ 2 ^ 32) result.items }
{
    let mut values = ArrayVec::new();
    for var in 0..key.width() {
        values.push(lower_side(bounds, var));
    }
    values
}
