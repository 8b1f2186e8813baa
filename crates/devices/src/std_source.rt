//! A reader of std as a source.
ghost use Rattle.std.specs.Prelude.{◌≡◌, ◌≤◌, None, length, if◌then◌else◌, is_err, IfOk, OnOk};
ghost use Rattle.std.specs.Io.KnownBytes.{ReadConsumes};
ghost use Rattle.outside.specs.Counts.{raised, HasCause};

use outside::{Failed, Source};
use std::io::{ErrorKind, Read};
use std::marker::Model;

/// Reads from a reader of std. As a source it tells nothing of the bytes left; contracts see it as the reader and its
/// count of faults.
#[derive(Drop)]
pub struct StdSource<R> {
    reader: R,
    faults: u64,
}

impl<R> Model for StdSource<R> {
    ghost use Rattle.devices.specs.StdEnds.{StdEnd};

    ghost Value = { StdEnd R };

    ghost view = { λ source. record { end = source.reader; faults = source.faults } };
}

impl<R: Read> StdSource<R> {
    /// A source that has not failed yet.
    pub fn new(reader: R) -> StdSource<R>
        ensures { result ≡ record { end = reader; faults = 0 } }
    {
        StdSource { reader, faults: 0 }
    }
}

impl<R: Read> Source for StdSource<R> {
    ghost state = { λ source. record { left = None; faults = source.faults } };

    /// One read of the reader, with its bytes where the reader tells them. An error is a fault, but for an
    /// interruption, after which it reads again. Only a fault raises the count, by one.
    fn read(&mut self, buf: &mut [u8]) -> Result<usize, Failed>
        ensures bound { IfOk result (λ n. n ≤ length buf.new) }
        ensures bytes { ReadConsumes (R.remaining self.old.end) (R.remaining self.new.end) result buf.new }
        ensures unfailed { OnOk result (self.new.faults ≡ self.old.faults) }
        ensures cause { HasCause self.old.faults self.new.faults result }
        ensures counted { self.new.faults ≡ (if is_err result then raised self.old.faults else self.old.faults) }
    {
        let result = read_retrying(&mut self.reader, buf);
        if result.is_err() {
            self.faults = self.faults.saturating_add(1);
        }
        result
    }
}

fn read_retrying<R: Read>(reader: &mut R, buf: &mut [u8]) -> Result<usize, Failed>
    ensures bound { IfOk result (λ n. n ≤ length buf.new) }
    ensures bytes { ReadConsumes (R.remaining reader.old) (R.remaining reader.new) result buf.new }
{
    for _ in 0..u64::MAX {
        match reader.read(buf) {
            Ok(n) => return Ok(n),
            Err(error) => {
                if error.kind() != ErrorKind::Interrupted {
                    return Err(Failed);
                }
            }
        }
    }
    Err(Failed)
}
