//! Asking the keys of a query's slices.
ghost use Rattle.std.specs.Prelude.{◌≡◌, IfOk, OnErr};
ghost use Rattle.std.specs.List.{All};
ghost use Rattle.refutation.specs.Boxed.{IsBoxed};
ghost use Rattle.pipeline.specs.Asking.{AsksUpToCore, StopsInVain};

use crate::slice_keys::SliceKey;
use cert_check::{Reply, SliceOracle, asks_join};
use outside::NoMemory;
use sqlite_items::Items;
use std::alloc::Global;

/// Asks the keys of the slices in order, up to and with the first whose reply has a core. The replies come in that
/// order.
pub fn ask_keys<O: SliceOracle>(
    alloc: Global,
    slices: &[SliceKey],
    oracle: &mut O,
) -> Result<Items<Reply>, NoMemory>
    requires { All (λ slice. IsBoxed slice.key) slices.now }
    ensures asks { IfOk result (λ replies.
        AsksUpToCore (O.budget oracle.old) slices.now replies (O.seat oracle.old) (O.seat oracle.new)) }
    ensures in_vain { OnErr result
        (StopsInVain (O.budget oracle.old) slices.now (O.seat oracle.old) (O.seat oracle.new)) }
    ensures budget { O.budget oracle.new ≡ O.budget oracle.old }
    ensures origin { O.origin oracle.new ≡ O.origin oracle.old }
{
    asks_join();
    let mut replies = Items::new(alloc);
    for slice in slices {
        let reply = oracle.ask(&slice.key)?;
        let has_core = reply.has_core();
        replies.push(reply)?;
        if has_core {
            return Ok(replies);
        }
    }
    Ok(replies)
}
