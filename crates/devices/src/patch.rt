//! Bytes of a file in memory: written over what is there, and read.
ghost use Rattle.std.specs.Prelude.{◌≡◌, ◌+◌, ◌≤◌, length, drop, Some, OnOk, OnErr};
ghost use Rattle.outside.specs.Crash.{patched, ReadsAt};

use std::alloc::AllocError;

/// Writes over what is there from byte `at` on, and past the end. Where memory runs out nothing is changed.
pub fn patch(file: &mut Vec<u8>, at: usize, bytes: &[u8]) -> Result<(), AllocError>
    requires { at ≤ length file.old.items }
    ensures ok { OnOk result (file.new.items ≡ patched file.old.items at bytes.now) }
    ensures err { OnErr result (file.new.items ≡ file.old.items) }
{
    let within = bytes.len().min(file.len() - at);
    let (front, behind) = bytes.split_at(within);
    file.extend_from_slice(behind)?;
    copy_into(file, at, front);
    Ok(())
}

/// Writes over what is there from byte `at` on.
pub fn copy_into(file: &mut [u8], at: usize, bytes: &[u8])
    requires { at + length bytes.now ≤ length file.old }
    ensures { file.new ≡ patched file.old at bytes.now }
{
    file[at..at + bytes.len()].copy_from_slice(bytes);
}

/// Fills the front of `buf` with the bytes from byte `at` on, and answers how many.
pub fn fill_front(file: &[u8], at: u64, buf: &mut [u8]) -> usize
    ensures bound { result ≤ length buf.new }
    ensures answer { ReadsAt (Some file.now) at buf.new result }
    ensures behind { drop result buf.new ≡ drop result buf.old }
{
    let from = at.min(file.len() as u64) as usize;
    let rest = &file[from..];
    let n = rest.len().min(buf.len());
    buf[..n].copy_from_slice(&rest[..n]);
    n
}
