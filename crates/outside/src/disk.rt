//! One file on a disk, and what a crash may leave of it.
ghost use Rattle.std.specs.Prelude.{◌≡◌, ◌≤◌, Some, length, IsTrue, IfOk, OnOk, OnErr};
ghost use Rattle.outside.specs.Counts.{HasCause};
ghost use Rattle.outside.specs.Crash.{IsWithin, IsLengthOf, ReadsAt, WritesAt, TearsAt, Torn, Synced, Follows};
ghost use Rattle.outside.specs.Crash.{Looks, GoesOn, IsConsistent};
ghost use Rattle.outside.specs.States.{DiskState};

use crate::Failed;

/// One file. A call that answers `Failed` has raised the count of faults.
///
/// A disk may tell its content, the images that a crash at this moment may leave, and the images of every crash that
/// could have come since an earlier moment. No call changes whether it tells them, or whether they keep the rules.
///
/// The rules: after a crash the ranges written since the last sync, by writes that failed too, may hold anything. The
/// file is no shorter than at that sync, and no longer than it was then or than the furthest of these ranges reaches. A
/// byte that no such write touched survives. Once a sync has answered Ok, a crash gives back the content.
pub trait Disk {
    /// The name of its file, what a read gives, what a crash may leave, and how often it has failed.
    ghost state: { Self → DiskState };

    /// Chooses the file of this name; an empty one is made if there was none. A disk that tells its content or
    /// its images has one file, which every name chooses, so nothing that it tells is changed, after `Failed` too.
    fn bind(&mut self, name: &str) -> Result<(), Failed>
        ensures bound { OnOk result ((state self.new).name ≡ Some name.now) }
        ensures not_bound { OnErr result ((state self.new).name ≡ (state self.old).name) }
        ensures looks { Looks (state self.old) (state self.new) }
        ensures goes_on { GoesOn (state self.old) (state self.new) }
        ensures cause { HasCause (state self.old).faults (state self.new).faults result };

    /// The length of the file in bytes.
    fn len(&mut self) -> Result<u64, Failed>
        ensures answer { IfOk result (IsLengthOf (state self.old).content) }
        ensures name { (state self.new).name ≡ (state self.old).name }
        ensures looks { Looks (state self.old) (state self.new) }
        ensures goes_on { GoesOn (state self.old) (state self.new) }
        ensures cause { HasCause (state self.old).faults (state self.new).faults result };

    /// Fills the front of `buf` with the bytes from byte `at` on and answers how many: fewer than `buf` holds only at
    /// the file's end.
    fn read_at(&mut self, at: u64, buf: &mut [u8]) -> Result<usize, Failed>
        ensures bound { IfOk result (λ n. n ≤ length buf.new) }
        ensures answer { IfOk result (ReadsAt (state self.old).content at buf.new) }
        ensures name { (state self.new).name ≡ (state self.old).name }
        ensures looks { Looks (state self.old) (state self.new) }
        ensures goes_on { GoesOn (state self.old) (state self.new) }
        ensures cause { HasCause (state self.old).faults (state self.new).faults result };

    /// Writes over what is there from byte `at` on, and past the end. A write that failed leaves no byte of its range
    /// to be relied on, and every other byte as it was. The file may then end anywhere between its old end and the end
    /// of the range. A crash before the next sync does the same.
    fn write_at(&mut self, at: u64, bytes: &[u8]) -> Result<(), Failed>
        requires { IsWithin (state self.old).content at }
        ensures written { OnOk result (WritesAt (state self.old).content (state self.new).content at bytes.now) }
        ensures torn { OnErr result (TearsAt (state self.old).content (state self.new).content at (length bytes.now)) }
        ensures images { IsTrue (state self.old).keeps_rules
            → Follows (Torn at (length bytes.now)) (state self.old).may_leave (state self.new).may_leave }
        ensures name { (state self.new).name ≡ (state self.old).name }
        ensures goes_on { GoesOn (state self.old) (state self.new) }
        ensures cause { HasCause (state self.old).faults (state self.new).faults result };

    /// Puts what was written on the disk: after Ok a crash leaves what a read gives. After `Failed` it may leave what
    /// it might have left before.
    fn sync(&mut self) -> Result<(), Failed>
        ensures durable { IsTrue (state self.old).keeps_rules
            → OnOk result (Synced (state self.new).content (state self.new).may_leave) }
        ensures looks { OnErr result (Looks (state self.old) (state self.new)) }
        ensures content { (state self.new).content ≡ (state self.old).content }
        ensures name { (state self.new).name ≡ (state self.old).name }
        ensures goes_on { GoesOn (state self.old) (state self.new) }
        ensures cause { HasCause (state self.old).faults (state self.new).faults result };

    /// What it tells fits together.
    ghost consistent: { (disk : Self) → IsConsistent (state disk) };
}
