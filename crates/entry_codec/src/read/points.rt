//! Points.
ghost use Rattle.std.specs.Prelude.{◌≡◌, ◌≤◌, IfOk, length};
ghost use Rattle.lin_model.specs.declared.point.TheConstants.{MAX_VALUES};
ghost use Rattle.entry_codec.specs.Reading.{list_at};
ghost use Rattle.entry_codec.specs.Gives.{Gives};
ghost use Rattle.entry_codec.specs.FieldReading.{value_at};
ghost use Rattle.entry_codec.specs.AtomReading.{point_at};

use super::fields::{value_at, value_count_at};
use crate::fault::ReadFault;
use lin_model::Point;
use std::alloc::Global;

/// So many values.
fn value_list_at(alloc: Global, count: u8, bytes: &[u8]) -> Result<(Vec<i64>, &[u8]), ReadFault>
    ensures { Gives (λ x. (x.0.items, x.1.now)) result (list_at (λ before. value_at) count bytes.now) }
{
    let mut values = Vec::new(alloc);
    let mut rest = bytes;
    for _ in 0..count {
        let (value, after) = value_at(rest)?;
        values.push(value)?;
        rest = after;
    }
    Ok((values, rest))
}

/// The values of a point of a key of this width, behind their number.
#[tactic(auto, unfolding(crate::specs::AtomReading::point_at))]
fn values_at(alloc: Global, width: u8, bytes: &[u8]) -> Result<(Vec<i64>, &[u8]), ReadFault>
    ensures { Gives (λ x. (x.0.items, x.1.now)) result (point_at width bytes.now) }
{
    let (count, rest) = value_count_at(width, bytes)?;
    value_list_at(alloc, count, rest)
}

/// A point of a key of this width.
pub(crate) fn point_at(alloc: Global, width: u8, bytes: &[u8]) -> Result<(Point, &[u8]), ReadFault>
    requires { width ≤ MAX_VALUES }
    ensures reads { Gives (λ x. (x.0, x.1.now)) result (point_at width bytes.now) }
    ensures each { IfOk result (λ x. length x.0 ≡ width) }
{
    let (values, rest) = values_at(alloc, width, bytes)?;
    match Point::of(values) {
        Ok(point) => Ok((point, rest)),
        Err(_) => unreachable!(),
    }
}
