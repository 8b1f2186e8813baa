//! Frames: a body behind its length.
ghost use Rattle.std.specs.Prelude.{◌≡◌, ◌≤◌, Ok, Err, MatchResult, length};
ghost use Rattle.cert_check.specs.Decides.{HasEvidence};
ghost use Rattle.entry_codec.specs.declared.limits.TheConstants.{MAX_BODY};
ghost use Rattle.entry_codec.specs.Frames.{IsFrame};
ghost use Rattle.entry_codec.specs.Answers.{EndsFrame};
ghost use Rattle.entry_codec.specs.FrameReading.{content_of, content_in};
ghost use Rattle.entry_codec.specs.EntryReading.{as_entry, HasValueEach, entry_in};
ghost use Rattle.entry_codec.specs.Ends.{EndsBody, EndsCheck};

use crate::fault::{FrameEnd, ReadFault};
use crate::limits::MAX_BODY;
use crate::read::bodies::{Unchecked, body_in};
use cert_check::{Entry, NotUnsat, check_sat, check_unsat};
use std::alloc::Global;

/// The bytes of the body in front, behind their number.
#[tactic(auto, unfolding(crate::specs::FrameReading::content_in))]
fn content_in(bytes: &[u8]) -> Result<&[u8], FrameEnd>
    ensures { MatchResult result
        (λ content. content_in bytes.now ≡ Ok content.now)
        (λ end. content_in bytes.now ≡ Err end) }
{
    if bytes.is_empty() {
        return Err(FrameEnd::Ended);
    }
    if bytes.len() < 4 {
        return Err(FrameEnd::Short);
    }
    let (front, rest) = bytes.split_at(4);
    let said = u32::from_le_bytes([front[0], front[1], front[2], front[3]]);
    content_of(said, rest)
}

/// So many bytes.
fn content_of(said: u32, rest: &[u8]) -> Result<&[u8], FrameEnd>
    ensures { MatchResult result
        (λ content. content_of said rest.now ≡ Ok content.now)
        (λ end. content_of said rest.now ≡ Err end) }
{
    if said > MAX_BODY {
        return Err(FrameEnd::TooLong);
    }
    let size = said as usize;
    if rest.len() < size {
        return Err(FrameEnd::Short);
    }
    Ok(&rest[..size])
}

/// What the body is, or where its first fault is, counted from the first byte of the frame.
fn unchecked_in(alloc: Global, content: &[u8]) -> Result<Unchecked, FrameEnd>
    requires { length content.now ≤ MAX_BODY }
    ensures { MatchResult result
        (λ body. (entry_in content.now ≡ Ok (as_entry body)) × HasValueEach body)
        (EndsBody content.now) }
{
    match body_in(alloc, content) {
        Ok(body) => Ok(body),
        Err(ReadFault::Bad(left)) => Err(FrameEnd::BadBody((4 + content.len() - left) as u32)),
        Err(ReadFault::NoMemory) => Err(FrameEnd::NoMemory),
    }
}

/// The entry of a body, if its evidence checks.
fn checked(alloc: Global, body: Unchecked) -> Result<Entry, FrameEnd>
    requires { HasValueEach body }
    ensures { MatchResult result
        (λ entry. (entry ≡ as_entry body) × HasEvidence entry)
        (EndsCheck (as_entry body)) }
{
    match body {
        Unchecked::Sat(key, point) => match check_sat(key, point) {
            Ok(entry) => Ok(entry),
            Err((refused, _, _)) => Err(FrameEnd::Uncertified(refused)),
        },
        Unchecked::Unsat(key, tree) => match check_unsat(alloc, key, tree) {
            Ok(entry) => Ok(entry),
            Err((NotUnsat::Refused(refused), _, _)) => Err(FrameEnd::Uncertified(refused)),
            Err((NotUnsat::NoMemory, _, _)) => Err(FrameEnd::NoMemory),
        },
    }
}

/// Reads the frame in front of some bytes: the entry, whose evidence is checked, and the number of bytes that the frame
/// takes.
///
/// `Ended` comes where there are no bytes. `Short` comes where there are fewer than the 4 bytes of a length, or fewer
/// behind them than a length within the limit says. `TooLong` comes where the length is above 16,777,216. `BadBody`
/// names the first byte of the first field that is outside the grammar, counted from the frame's first byte.
/// `Uncertified` comes where the body is in the grammar and its evidence is refused. These come exactly where they
/// should, unless memory runs out first, which is `NoMemory`.
pub fn read_frame(alloc: Global, bytes: &[u8]) -> Result<(Entry, usize), FrameEnd>
    ensures { MatchResult result (λ found. IsFrame bytes.now found.0 found.1) (EndsFrame bytes.now) }
{
    let content = content_in(bytes)?;
    let body = unchecked_in(alloc, content)?;
    let entry = checked(alloc, body)?;
    Ok((entry, 4 + content.len()))
}
