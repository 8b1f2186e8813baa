//! Bodies of frames, but for the check of their evidence.
ghost use Rattle.std.specs.Prelude.{◌≡◌, IfOk};
ghost use Rattle.entry_codec.specs.Gives.{Gives};
ghost use Rattle.entry_codec.specs.EntryReading.{as_entry, HasValueEach, sat_entry_at, unsat_entry_at};
ghost use Rattle.entry_codec.specs.EntryReading.{entry_fields_at, entry_in};

use super::fields::body_kind_at;
use super::keys::key_at;
use super::numbers::bad;
use super::points::point_at;
use super::trees::tree_at;
use crate::fault::ReadFault;
use crate::kind::BodyKind;
use lin_model::{Key, Point};
use refutation::Tree;
use std::alloc::Global;

/// A key with what should decide it, which nobody has checked.
#[derive(Drop)]
pub(crate) enum Unchecked {
    /// A point with a value for each variable of the key.
    Sat(Key, Point),
    /// A tree.
    Unsat(Key, Tree),
}

/// A key and a point.
#[tactic(auto, unfolding(crate::specs::EntryReading::sat_entry_at))]
fn sat_at(alloc: Global, bytes: &[u8]) -> Result<(Unchecked, &[u8]), ReadFault>
    ensures reads { Gives (λ x. (as_entry x.0, x.1.now)) result (sat_entry_at bytes.now) }
    ensures each { IfOk result (λ x. HasValueEach x.0) }
{
    let (key, rest) = key_at(alloc, bytes)?;
    let (point, rest) = point_at(alloc, key.width(), rest)?;
    Ok((Unchecked::Sat(key, point), rest))
}

/// A key and a tree.
#[tactic(auto, unfolding(crate::specs::EntryReading::unsat_entry_at))]
fn unsat_at(alloc: Global, bytes: &[u8]) -> Result<(Unchecked, &[u8]), ReadFault>
    ensures reads { Gives (λ x. (as_entry x.0, x.1.now)) result (unsat_entry_at bytes.now) }
    ensures each { IfOk result (λ x. HasValueEach x.0) }
{
    let (key, rest) = key_at(alloc, bytes)?;
    let (tree, rest) = tree_at(alloc, rest)?;
    Ok((Unchecked::Unsat(key, tree), rest))
}

/// The fields of a body of this kind.
#[tactic(auto, unfolding(crate::specs::EntryReading::entry_fields_at))]
fn fields_at(alloc: Global, kind: BodyKind, bytes: &[u8]) -> Result<(Unchecked, &[u8]), ReadFault>
    ensures reads { Gives (λ x. (as_entry x.0, x.1.now)) result (entry_fields_at kind bytes.now) }
    ensures each { IfOk result (λ x. HasValueEach x.0) }
{
    match kind {
        BodyKind::Sat => sat_at(alloc, bytes),
        BodyKind::Unsat => unsat_at(alloc, bytes),
    }
}

/// A body and nothing more.
#[tactic(auto, unfolding(crate::specs::EntryReading::entry_at, crate::specs::EntryReading::entry_in))]
pub(crate) fn body_in(alloc: Global, bytes: &[u8]) -> Result<Unchecked, ReadFault>
    ensures reads { Gives as_entry result (entry_in bytes.now) }
    ensures each { IfOk result HasValueEach }
{
    let (kind, rest) = body_kind_at(bytes)?;
    let (body, rest) = fields_at(alloc, kind, rest)?;
    if rest.is_empty() {
        Ok(body)
    } else {
        Err(bad(rest))
    }
}
