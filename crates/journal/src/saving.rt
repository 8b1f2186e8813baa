//! Bytes that are put on a disk.
ghost use Rattle.std.specs.Prelude.{length, OnErr, OnOk};
ghost use Rattle.outside.specs.Counts.{HasCause};
ghost use Rattle.outside.specs.Crash.{IsWithin, TearsAt};
ghost use Rattle.journal.specs.Saving.{Saves, TearsAtMost};

use outside::{Disk, Failed};

/// Writes the bytes from byte `at` on, and syncs.
pub fn save<D: Disk>(disk: &mut D, at: u64, bytes: &[u8]) -> Result<(), Failed>
    requires { IsWithin (D.state disk.old).content at }
    ensures saved { OnOk result (Saves at bytes.now (D.state disk.old) (D.state disk.new)) }
    ensures torn { OnErr result
        (TearsAt (D.state disk.old).content (D.state disk.new).content at (length bytes.now)) }
    ensures at_most { TearsAtMost at (length bytes.now) (D.state disk.old) (D.state disk.new) }
    ensures cause { HasCause (D.state disk.old).faults (D.state disk.new).faults result }
{
    disk.write_at(at, bytes)?;
    disk.sync()
}
