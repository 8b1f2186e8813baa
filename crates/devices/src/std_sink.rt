//! A writer of std as a sink.
ghost use Rattle.std.specs.Prelude.{◌≡◌, None, if◌then◌else◌, is_err};
ghost use Rattle.outside.specs.Counts.{raised, HasCause};
ghost use Rattle.devices.specs.StdEnds.{Takes};

use outside::{Failed, Sink};
use std::io::{ErrorKind, Write};
use std::marker::Model;

/// Writes to a writer of std. As a sink it tells nothing of the bytes taken; contracts see it as the writer and its
/// count of faults.
#[derive(Drop)]
pub struct StdSink<W> {
    writer: W,
    faults: u64,
}

impl<W> Model for StdSink<W> {
    ghost use Rattle.devices.specs.StdEnds.{StdEnd};

    ghost Value = { StdEnd W };

    ghost view = { λ sink. record { end = sink.writer; faults = sink.faults } };
}

impl<W: Write> StdSink<W> {
    /// A sink that has not failed yet.
    pub fn new(writer: W) -> StdSink<W>
        ensures { result ≡ record { end = writer; faults = 0 } }
    {
        StdSink { writer, faults: 0 }
    }
}

impl<W: Write> Sink for StdSink<W> {
    ghost state = { λ sink. record { taken = None; faults = sink.faults } };

    /// Writes until the writer has taken the whole piece, and flushes it. A writer that takes nothing has failed, and
    /// a call that a signal interrupted is made again. Only a fault raises the count, by one.
    fn write(&mut self, piece: &[u8]) -> Result<(), Failed>
        ensures bytes { Takes (W.contents self.old.end) (W.contents self.new.end) piece.now result }
        ensures cause { HasCause self.old.faults self.new.faults result }
        ensures counted { self.new.faults ≡ (if is_err result then raised self.old.faults else self.old.faults) }
    {
        let result = write_whole(&mut self.writer, piece);
        if result.is_err() {
            self.faults = self.faults.saturating_add(1);
        }
        result
    }
}

fn write_whole<W: Write>(writer: &mut W, piece: &[u8]) -> Result<(), Failed>
    ensures { Takes (W.contents writer.old) (W.contents writer.new) piece.now result }
{
    let mut rest = piece;
    for _ in 0..u64::MAX {
        if rest.is_empty() {
            return writer.flush().map_err(|_| Failed);
        }
        match writer.write(rest) {
            Ok(0) => return Err(Failed),
            Ok(n) => rest = &rest[n..],
            Err(error) => {
                if error.kind() != ErrorKind::Interrupted {
                    return Err(Failed);
                }
            }
        }
    }
    Err(Failed)
}
