//! Points: one whole number for each variable of a key.

ghost use Rattle.std.specs.Prelude.{◌≡◌, ◌^◌, ◌≤◌, ◌↔◌, length, IsOk, IsTrue, IfOk, IfErr, unsigned_abs};
ghost use Rattle.std.specs.List.{All};
ghost use Rattle.lin_model.specs.Point.{IsPoint};

use std::marker::Model;

/// The most values that a point has.
pub const MAX_VALUES: usize = 64;

/// The greatest size of a value of a point.
pub const MAX_VALUE: u64 = 1 << 32;

/// The greatest size of a side of a box: one past the values of points.
pub const MAX_SIDE: u64 = MAX_VALUE + 1;

/// A short list of whole numbers: no more than 64, none of them larger than 2^32 in size. Each is the value of the
/// variable whose number is its place, from 0.
#[derive(Debug, Drop)]
pub struct Point {
    values: Vec<i64>,
}

impl Model for Point {
    ghost use Rattle.std.specs.Prelude.{List, ℤ};
    ghost use Rattle.lin_model.specs.Point.{IsPoint};

    ghost Value = { List ℤ };

    ghost view = { λ p. p.values.items };

    ghost invariant = { λ p. IsPoint p.values.items };
}

impl Point {
    /// The point of these values, or the list back where there are more than 64 or one is beyond 2^32 in size.
    pub fn of(values: Vec<i64>) -> Result<Point, Vec<i64>>
        ensures fits { IsOk result ↔ IsPoint values.items }
        ensures point { IfOk result (λ point. point ≡ values.items) }
        ensures handed_back { IfErr result (λ back. back.items ≡ values.items) }
    {
        if is_point(&values) {
            Ok(Point { values })
        } else {
            Err(values)
        }
    }

    /// The values, in the order of their variables.
    pub fn values(&self) -> &[i64]
        ensures values { result.now ≡ self.now }
        ensures point { IsPoint self.now }
    {
        &self.values
    }

    /// Gives the values back.
    pub fn into_values(self) -> Vec<i64>
        ensures { result.items ≡ self }
    {
        let Point { values } = self;
        values
    }
}

/// Whether these values are within the limits of a point.
fn is_point(values: &[i64]) -> bool
    ensures { IsTrue result ↔ IsPoint values.now }
{
    values.len() <= MAX_VALUES && values.iter().all(|n| n.unsigned_abs() <= MAX_VALUE)
}
