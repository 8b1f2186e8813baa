//! Frames that are put at the end of a journal's list.
ghost use Rattle.std.specs.Prelude.{◌≡◌, ◌≢◌, ◌+◌, ◌<◌, ◌≤◌, ◌↔◌, [], ◌∷◌, IsTrue, length};
ghost use Rattle.cert_check.specs.Calls.{writes_by};
ghost use Rattle.outside.specs.Crash.{IsWithin};
ghost use Rattle.journal.specs.Puts.{IsRoom, Puts};

use crate::limits::{MAX_ENTRIES, MAX_FILE};
use crate::saving::save;
use cert_check::{Entry, Saved, Shared, Wrote};
use outside::{Disk, Failed};

/// Puts the frame at the end of a list of `len` entries, which is at byte `end`, and syncs, if there is room.
pub fn put<D: Disk>(disk: &mut D, end: u64, len: u32, frame: &[u8]) -> Saved
    requires within { IsWithin (D.state disk.old).content end }
    requires few { len ≤ MAX_ENTRIES }
    requires short { end ≤ MAX_FILE }
    ensures { Puts D.state end len frame.now disk.old disk.new result }
{
    if !is_room(end, len, frame.len()) {
        return Saved::Full;
    }
    match save(disk, end, frame) {
        Ok(()) => Saved::At(end),
        Err(Failed) => Saved::Fault,
    }
}

/// Whether behind a list of `len` entries, which ends at byte `end`, is room for one more, of `n` bytes.
fn is_room(end: u64, len: u32, n: usize) -> bool
    requires { end ≤ MAX_FILE }
    ensures { IsTrue result ↔ IsRoom end len n }
{
    len < MAX_ENTRIES && n as u64 <= MAX_FILE - end
}

/// The note of what became of the entry, which was appended for this seat.
pub fn wrote_of(saved: Saved, seat: u32, entry: Shared<Entry>) -> Wrote
    requires { saved ≢ Saved.Off }
    ensures { writes_by seat entry saved ≡ result ∷ [] }
{
    match saved {
        Saved::At(at) => Wrote::At { seat, at, entry },
        Saved::Fault => Wrote::Fault { seat },
        Saved::Full => Wrote::Full { seat, entry },
        Saved::Off => unreachable!(),
    }
}
