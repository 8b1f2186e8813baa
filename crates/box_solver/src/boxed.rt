//! The test that a key is boxed.

ghost use Rattle.std.specs.Prelude.{◌↔◌, ◌<◌, ◌≤◌, IsTrue, ℕ};
ghost use Rattle.refutation.specs.Boxed.{HasBothSides, IsBoxed};

use lin_model::Key;
use refutation::Bounds;

/// Whether a key's bounds hold each of its variables from below and from above.
pub fn is_boxed(key: &Key) -> bool
    ensures { IsTrue result ↔ IsBoxed key.now }
{
    let bounds = Bounds::of(key);
    have_sides(&bounds, key.width())
}

/// Whether every variable below the width has both sides.
fn have_sides(bounds: &Bounds, width: u8) -> bool
    requires { width ≤ 64 }
    ensures { IsTrue result ↔ ((v : ℕ) → v < width → HasBothSides bounds.now v) }
{
    for var in 0..width {
        if !has_sides(bounds, var) {
            return false;
        }
    }
    true
}

/// Whether the variable has both sides.
fn has_sides(bounds: &Bounds, var: u8) -> bool
    requires { var < 64 }
    ensures { IsTrue result ↔ HasBothSides bounds.now var }
{
    bounds.lower(var).is_some() && bounds.upper(var).is_some()
}
