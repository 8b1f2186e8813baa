//! The sides of a variable as numbers, 0 where one is missing. The search asks only where they are there.

ghost use Rattle.std.specs.Prelude.{◌≡◌, ◌+◌, ◌^◌, ◌<◌, ◌≤◌, unsigned_abs};
ghost use Rattle.refutation.specs.Boxed.{HasShortSides};
ghost use Rattle.refutation.specs.SearchOrder.{lower_or_zero, upper_or_zero};

use refutation::Bounds;

/// The lower side of a variable.
pub(crate) fn lower_side(bounds: &Bounds, var: u8) -> i64
    requires { var < 64 }
    ensures value { result ≡ lower_or_zero bounds.now var }
    ensures side { unsigned_abs result ≤ 2 ^ 32 + 1 }
    ensures small { HasShortSides bounds.now → unsigned_abs result ≤ 2 ^ 32 }
{
    bounds.lower(var).unwrap_or(0)
}

/// The upper side of a variable.
pub(crate) fn upper_side(bounds: &Bounds, var: u8) -> i64
    requires { var < 64 }
    ensures value { result ≡ upper_or_zero bounds.now var }
    ensures side { unsigned_abs result ≤ 2 ^ 32 + 1 }
    ensures small { HasShortSides bounds.now → unsigned_abs result ≤ 2 ^ 32 }
{
    bounds.upper(var).unwrap_or(0)
}
