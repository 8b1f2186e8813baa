//! Reading the bytes of a journal.
ghost use Rattle.std.specs.Prelude.{◌≡◌, ◌≢◌, ◌+◌, ◌≤◌, ◌↔◌, [], if◌then◌else◌, nat_le, length, take, drop, IsTrue, IfOk, IfErr, IfSome, MatchResult, OnOk};
ghost use Rattle.entry_codec.specs.declared.fault.FrameEnd.TheVariants.{NoMemory};
ghost use Rattle.entry_codec.specs.Answers.{IsFrameAnswer};
ghost use Rattle.journal.specs.declared.recovered.StartFault.TheVariants.{NoMemory as NoMemoryToStart};
ghost use Rattle.outside.specs.Runs.{OnlyLooks};
ghost use Rattle.journal.specs.Opening.{start_cause};
ghost use Rattle.journal.specs.Reading.{HoldsFrame, IsStart, IsWholeSize, MayBeRead, rest_at};

use crate::limits::{HEADER, MAX_FILE};
use crate::recovered::StartFault;
use cert_check::Entry;
use entry_codec::{FrameEnd, MAX_BODY, read_frame};
use outside::Disk;
use std::alloc::Global;

/// Whether the file was begun: it has the header. At most 9 bytes are read.
pub fn is_begun<D: Disk>(disk: &mut D) -> Result<bool, StartFault>
    ensures start { IfOk result (λ begun. IfSome (D.state disk.old).content (λ file. IsStart file begun)) }
    ensures cause { IfErr result (start_cause (D.state disk.old) (D.state disk.new)) }
    ensures looks { OnlyLooks (D.state disk.old) (D.state disk.new) }
{
    let mut front = [0; 9];
    let n = disk.read_at(0, &mut front)?;
    if front[..n].starts_with(&HEADER) {
        return Ok(true);
    }
    if n > HEADER.len() {
        return Err(StartFault::NotJournal);
    }
    Ok(false)
}

/// Reads what stands in front of the bytes from byte `at` on, up to byte 2^28: an entry with the number of bytes that its
/// frame takes, or why there is none.
pub fn read_next<D: Disk>(
    alloc: Global,
    disk: &mut D,
    at: u64,
    buffer: &mut Vec<u8>,
) -> Result<Result<(Entry, usize), FrameEnd>, StartFault>
    requires { at ≤ MAX_FILE }
    ensures read { IfOk result (MayBeRead at) }
    ensures stands { IfOk result (λ answer.
        IfSome (D.state disk.old).content (λ file. IsFrameAnswer (rest_at at file) answer)) }
    ensures cause { IfErr result (start_cause (D.state disk.old) (D.state disk.new)) }
    ensures looks { OnlyLooks (D.state disk.old) (D.state disk.new) }
{
    fill_frame(disk, at, buffer)?;
    match read_frame(alloc, buffer) {
        Ok((entry, taken)) => {
            let _key = entry.key();
            Ok(Ok((entry, taken)))
        }
        Err(end) => {
            let end = told(end)?;
            Ok(Err(end))
        }
    }
}

/// The end, which says something of the bytes. `NoMemory`: it doesn't, as memory ran out.
fn told(end: FrameEnd) -> Result<FrameEnd, StartFault>
    ensures { MatchResult result (λ told. (told ≡ end) × (end ≢ NoMemory)) (λ fault. fault ≡ NoMemoryToStart) }
{
    match end {
        FrameEnd::NoMemory => Err(StartFault::NoMemory),
        end => Ok(end),
    }
}

/// Whether a byte stands at `at`, before byte 2^28.
pub fn has_more<D: Disk>(disk: &mut D, at: u64, buffer: &mut Vec<u8>) -> Result<bool, StartFault>
    requires { at ≤ MAX_FILE }
    ensures more { IfOk result (λ more.
        IfSome (D.state disk.old).content (λ file. IsTrue more ↔ (rest_at at file ≢ []))) }
    ensures cause { IfErr result (start_cause (D.state disk.old) (D.state disk.new)) }
    ensures looks { OnlyLooks (D.state disk.old) (D.state disk.new) }
{
    fill(disk, at, 1, buffer)?;
    Ok(!buffer.is_empty())
}

/// Fills the buffer with the frame at `at`: its length, and then as much as that says, if it is within the limit.
fn fill_frame<D: Disk>(disk: &mut D, at: u64, buffer: &mut Vec<u8>) -> Result<(), StartFault>
    requires { at ≤ MAX_FILE }
    ensures frame { OnOk result
        (IfSome (D.state disk.old).content (λ file. HoldsFrame buffer.new.items (rest_at at file))) }
    ensures within { OnOk result (at + length buffer.new.items ≤ MAX_FILE) }
    ensures cause { IfErr result (start_cause (D.state disk.old) (D.state disk.new)) }
    ensures looks { OnlyLooks (D.state disk.old) (D.state disk.new) }
{
    fill(disk, at, 4, buffer)?;
    let size = whole_size(buffer);
    if size > 4 {
        fill(disk, at, size, buffer)?;
    }
    Ok(())
}

/// How many bytes of a frame with these first bytes are worth reading, its length among them.
fn whole_size(front: &[u8]) -> usize
    ensures { IsWholeSize front.now result }
{
    match front {
        [a, b, c, d, ..] => size_of(u32::from_le_bytes([*a, *b, *c, *d])),
        _ => 4,
    }
}

/// The same, of a frame with this length.
fn size_of(said: u32) -> usize
    ensures { result ≡ (if nat_le said MAX_BODY then 4 + said else 4) }
{
    if said <= MAX_BODY {
        4 + said as usize
    } else {
        4
    }
}

/// Fills the buffer with the bytes from byte `at` on, up to byte 2^28: so many, or fewer at the file's end.
fn fill<D: Disk>(disk: &mut D, at: u64, n: usize, buffer: &mut Vec<u8>) -> Result<(), StartFault>
    requires { at ≤ MAX_FILE }
    ensures bytes { OnOk result
        (IfSome (D.state disk.old).content (λ file. buffer.new.items ≡ take n (rest_at at file))) }
    ensures within { OnOk result (at + length buffer.new.items ≤ MAX_FILE) }
    ensures cause { IfErr result (start_cause (D.state disk.old) (D.state disk.new)) }
    ensures looks { OnlyLooks (D.state disk.old) (D.state disk.new) }
{
    let n = n.min((MAX_FILE - at) as usize);
    buffer.clear();
    buffer.resize(n, 0)?;
    let got = disk.read_at(at, buffer)?;
    buffer.truncate(got);
    Ok(())
}
