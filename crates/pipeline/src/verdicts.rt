//! The verdict on a query, from the replies to its slices.
ghost use Rattle.std.specs.Prelude.{◌≡◌, IfOk, position};
ghost use Rattle.cert_check.specs.Replies.{has_core, is_spent};
ghost use Rattle.pipeline.specs.Keyed.{AreKeyed};
ghost use Rattle.pipeline.specs.Asking.{AreSettled, EndsAtCore, IsRightFor};

use crate::answers::Verdict;
use crate::model::values_of;
use crate::slice_keys::SliceKey;
use cert_check::Reply;
use lin_model::Condition;
use outside::NoMemory;
use sqlite_items::Items;
use std::alloc::Global;

/// The verdict on a query whose slices have these keys, where the first of them, up to and with the first core, have
/// these replies.
pub fn verdict_on(
    alloc: Global,
    query: &Condition,
    slices: &[SliceKey],
    replies: &[Reply],
) -> Result<Verdict, NoMemory>
    requires keyed { AreKeyed query.now slices.now }
    requires ends { EndsAtCore slices.now replies.now }
    requires settled { AreSettled slices.now replies.now }
    ensures { IfOk result (IsRightFor query.now slices.now replies.now) }
{
    if let Some(s) = first_core(replies) {
        return Ok(Verdict::UnsatSlice(s as u32));
    }
    if let Some(s) = first_spent(replies) {
        return Ok(Verdict::Unknown(s as u32));
    }
    let values = values_of(alloc, query, slices, replies)?;
    Ok(Verdict::Sat(Items::from_vec(values)))
}

/// The number of the first reply with a core.
fn first_core(replies: &[Reply]) -> Option<usize>
    ensures { result ≡ position has_core replies.now }
{
    replies.iter().position(|reply| reply.has_core())
}

/// The number of the first reply with an open tree.
fn first_spent(replies: &[Reply]) -> Option<usize>
    ensures { result ≡ position is_spent replies.now }
{
    replies.iter().position(|reply| reply.is_spent())
}
