//! The steps of a disk in memory, the last one at the end: the one of a call, and back to where a call began.
ghost use Rattle.std.specs.Prelude.{◌≡◌, ◌≤◌, reverse, option_copied, OnOk, OnErr};
ghost use Rattle.devices.specs.Steps.{step_in, piece_of, with_front, began, BeginsWithin, CanUndoAll};

use crate::step::Step;
use std::alloc::AllocError;

/// The step of this call, if it took one.
fn step_in(steps: &[Step], call: u64) -> Option<&Step>
    ensures { option_copied result ≡ step_in (reverse steps.now) call }
{
    steps.iter().rev().find(|step| step.call() == call)
}

/// The length of the piece of this call, 0 if it took no step that is a write.
pub(crate) fn piece_len(steps: &[Step], call: u64) -> u64
    ensures { result ≡ piece_of (step_in (reverse steps.now) call) }
{
    match step_in(steps, call) {
        Some(Step::Write(write)) => write.len(),
        _ => 0,
    }
}

/// Puts the first `kept` bytes of the piece of this call in place, if it took a step that is a write. Where memory runs
/// out nothing is changed.
pub(crate) fn put_front(
    steps: &[Step],
    call: u64,
    kept: usize,
    file: &mut Vec<u8>,
) -> Result<(), AllocError>
    requires within { BeginsWithin (step_in (reverse steps.now) call) file.old.items }
    requires kept { kept ≤ piece_of (step_in (reverse steps.now) call) }
    ensures ok { OnOk result
        (file.new.items ≡ with_front (step_in (reverse steps.now) call) kept file.old.items) }
    ensures err { OnErr result (file.new.items ≡ file.old.items) }
{
    match step_in(steps, call) {
        Some(Step::Write(write)) => write.put_front(kept, file),
        _ => Ok(()),
    }
}

/// Takes back the steps of this call and of all later ones.
pub(crate) fn undo_from(steps: &[Step], call: u64, file: &mut Vec<u8>)
    requires { CanUndoAll file.old.items (reverse steps.now) }
    ensures { file.new.items ≡ (began file.old.items (reverse steps.now) call).file }
{
    let mut rest = steps;
    while let [earlier @ .., last] = rest {
        if last.call() < call {
            return;
        }
        last.undo(file);
        rest = earlier;
    }
}
