//! Where bytes go.
ghost use Rattle.std.specs.Prelude.{OnOk, OnErr};
ghost use Rattle.outside.specs.Bytes.{Appends, AppendsFront};
ghost use Rattle.outside.specs.Counts.{HasCause};
ghost use Rattle.outside.specs.States.{SinkState};

use crate::Failed;

/// A stream of bytes to write. Whether it tells the bytes taken is changed by no call.
pub trait Sink {
    /// The bytes taken, where it tells them, and how often it has failed.
    ghost state: { Self → SinkState };

    /// Takes the whole piece. `Failed` comes only where the count of faults rose, for want of memory too; then the
    /// sink took some front of the piece.
    fn write(&mut self, piece: &[u8]) -> Result<(), Failed>
        ensures whole { OnOk result (Appends (state self.old).taken (state self.new).taken piece.now) }
        ensures front { OnErr result (AppendsFront (state self.old).taken (state self.new).taken piece.now) }
        ensures cause { HasCause (state self.old).faults (state self.new).faults result };
}
