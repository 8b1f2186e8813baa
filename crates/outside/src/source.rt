//! Where bytes come from.
ghost use Rattle.std.specs.Prelude.{◌≡◌, ◌<◌, ◌≤◌, length, IfOk, OnOk, OnErr};
ghost use Rattle.outside.specs.Bytes.{Gives, IsAtEnd};
ghost use Rattle.outside.specs.Counts.{HasCause};
ghost use Rattle.outside.specs.States.{SourceState};

use crate::Failed;

/// A stream of bytes to read. Whether it tells the bytes left is changed by no call.
pub trait Source {
    /// The bytes left, where it tells them, and how often it has failed.
    ghost state: { Self → SourceState };

    /// Takes n bytes from what is left, puts them at the front of `buf`, and answers n. Where there was room for a
    /// byte, 0 says that none is left. `Failed` has raised the count of faults and taken nothing; every other answer
    /// leaves the count as it was.
    fn read(&mut self, buf: &mut [u8]) -> Result<usize, Failed>
        ensures bound { IfOk result (λ n. n ≤ length buf.new) }
        ensures moved { IfOk result (Gives (state self.old).left (state self.new).left buf.new) }
        ensures end { IfOk result (λ n. n ≡ 0 → 0 < length buf.old → IsAtEnd (state self.old).left) }
        ensures stays { OnErr result ((state self.new).left ≡ (state self.old).left) }
        ensures unfailed { OnOk result ((state self.new).faults ≡ (state self.old).faults) }
        ensures cause { HasCause (state self.old).faults (state self.new).faults result };
}
