//! From the points of replies to the values of a query's variables.
ghost use Rattle.std.specs.Prelude.{◌≡◌, ◌<◌, ◌≤◌, ℕ, All, AllPairs, Contains, IfOk, length, slice_set};
ghost use Rattle.std.specs.List.{AllZip};
ghost use Rattle.std.specs.Option.{option_map};
ghost use Rattle.lin_model.specs.Conditions.{Holds};
ghost use Rattle.lin_model.specs.Terms.{value_at};
ghost use Rattle.cert_check.specs.Replies.{point_in};
ghost use Rattle.pipeline.specs.Answers.{GivesValues};
ghost use Rattle.pipeline.specs.Keyed.{AreKeyed};
ghost use Rattle.pipeline.specs.Asking.{HasPoint, HasWidePoint, IsPlaced, IsWithin, ShareNoVariable};

use crate::slice_keys::SliceKey;
use canoniser::Back;
use cert_check::{Entry, Reply};
use lin_model::{Condition, Point};
use outside::NoMemory;
use slicer::slices_are_a_partition;
use std::alloc::Global;

/// The values of the query's variables, in order of declaration: each has the one that the reply to its slice gives.
pub fn values_of(
    alloc: Global,
    query: &Condition,
    slices: &[SliceKey],
    replies: &[Reply],
) -> Result<Vec<i64>, NoMemory>
    requires keyed { AreKeyed query.now slices.now }
    requires found { AllZip HasPoint slices.now replies.now }
    ensures holds { IfOk result (λ values. Holds query.now values.items) }
    ensures placed { IfOk result (λ values. AllZip (IsPlaced values.items) slices.now replies.now) }
{
    slices_are_a_partition();
    let mut values = vec![in alloc; 0; query.vars().len()]?;
    place_all(&mut values, slices, replies);
    Ok(values)
}

/// Gives the variables of each slice the values that its reply has.
fn place_all(values: &mut [i64], slices: &[SliceKey], replies: &[Reply])
    requires within { All (IsWithin (length values.old)) slices.now }
    requires apart { AllPairs ShareNoVariable slices.now }
    requires wide { AllZip HasWidePoint slices.now replies.now }
    ensures length { length values.new ≡ length values.old }
    ensures placed { AllZip (IsPlaced values.new) slices.now replies.now }
{
    for (s, slice) in slices.iter().enumerate() {
        place_reply(values, slice, &replies[s]);
    }
}

/// Gives the variables of a slice the values that the reply has.
fn place_reply(values: &mut [i64], slice: &SliceKey, reply: &Reply)
    requires within { IsWithin (length values.old) slice.now }
    requires wide { HasWidePoint slice.now reply.now }
    ensures length { length values.new ≡ length values.old }
    ensures placed { IsPlaced values.new slice.now reply.now }
    ensures others { (w : ℕ) → (Contains slice.now.back w → ⊥) → value_at values.new w ≡ value_at values.old w }
{
    if let Some(point) = point_of(reply) {
        place(values, &slice.back, point.values());
    }
}

/// The point of a reply, where there is one.
fn point_of(reply: &Reply) -> Option<&Point>
    ensures { option_map (λ point. point.now) result ≡ point_in reply.now }
{
    match reply.entry() {
        Some(Entry::Sat(entry)) => Some(entry.point()),
        _ => None,
    }
}

/// Gives each variable of a slice the value that the point has at its number.
fn place(values: &mut [i64], back: &Back, point: &[i64])
    requires within { All (λ v. v < length values.old) back.now }
    requires wide { length back.now ≤ length point.now }
    ensures length { length values.new ≡ length values.old }
    ensures placed { GivesValues back.now values.new point.now }
    ensures others { (w : ℕ) → (Contains back.now w → ⊥) → value_at values.new w ≡ value_at values.old w }
{
    for v in 0..back.width() {
        give(values, back.var(v), point[usize::from(v)]);
    }
}

/// Gives one variable its value.
fn give(values: &mut [i64], var: u32, value: i64)
    requires { var < length values.old }
    ensures { values.new ≡ slice_set values.old var value }
{
    values[var as usize] = value;
}
