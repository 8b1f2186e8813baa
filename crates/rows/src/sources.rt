//! Sources that only tests need. They never fail, and tell nothing of the bytes left.
ghost use Rattle.std.specs.Prelude.{None};

use outside::{Failed, Source};

/// Gives this many zeros.
#[derive(Drop)]
pub struct Zeros(pub usize);

impl Source for Zeros {
    ghost state = { λ _. record { left = None; faults = 0 } };

    fn read(&mut self, buf: &mut [u8]) -> Result<usize, Failed> {
        let n = self.0.min(buf.len());
        buf[..n].fill(0);
        self.0 -= n;
        Ok(n)
    }
}

/// Gives the bytes of a text, at most one in each read.
#[derive(Drop)]
pub struct OneByOne<'a>(pub &'a [u8]);

impl Source for OneByOne<'_> {
    ghost state = { λ _. record { left = None; faults = 0 } };

    fn read(&mut self, buf: &mut [u8]) -> Result<usize, Failed> {
        let n = self.0.len().min(buf.len()).min(1);
        let (given, left) = self.0.split_at(n);
        buf[..n].copy_from_slice(given);
        self.0 = left;
        Ok(n)
    }
}
