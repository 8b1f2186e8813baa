//! Reading a source to its end.
ghost use Rattle.std.specs.Prelude.{◌≡◌, ◌+◌, ◌++◌, ◌≤◌, ◌<◌, ℕ, List, length, IfOk, IfErr, OnOk, MatchResult};
ghost use Rattle.outside.specs.Bytes.{IsAtEnd};
ghost use Rattle.green_cli.specs.Call.{change};
ghost use Rattle.green_cli.specs.Input.{Consumes, InputWasRead, NoReadFailed, PieceFails, TakesAtMost, WasRead};
ghost use Rattle.green_cli.specs.Input.{input_cause, max_input, session_cause};

use crate::fault::Fault;
use lin_model::Session;
use outside::Source;
use session_text::read_session;
use std::alloc::Global;

/// The most bytes of an input.
pub const MAX_INPUT: usize = 16_777_216;

/// How many bytes are asked of the source in one read.
const PIECE: usize = 65_536;

/// The session that the bytes of the source spell, read to their end. `Text` is the first fault of bytes that spell
/// none, `TooLong` comes where there are more than `MAX_INPUT`, and `Read` where the source fails before.
pub fn take_session<S: Source>(alloc: Global, source: &mut S) -> Result<Session, Fault>
    ensures read { MatchResult result
        (λ session. InputWasRead (change (S.state source.old) (S.state source.new)) session)
        (session_cause (change (S.state source.old) (S.state source.new))) }
    ensures bounded { TakesAtMost (max_input + 1) (change (S.state source.old) (S.state source.new)) }
{
    let bytes = read_input(alloc, source)?;
    Ok(read_session(alloc, bytes.as_slice())?)
}

/// All that the source has left, read in at most one turn a byte. `TooLong` comes where it gives more than `MAX_INPUT`
/// bytes, and `Read` where it fails before.
fn read_input<S: Source>(alloc: Global, source: &mut S) -> Result<Vec<u8>, Fault>
    ensures read { MatchResult result
        (λ bytes. WasRead (change (S.state source.old) (S.state source.new)) bytes.items)
        (input_cause (change (S.state source.old) (S.state source.new))) }
    ensures bounded { TakesAtMost (max_input + 1) (change (S.state source.old) (S.state source.new)) }
{
    let mut bytes = Vec::new(alloc);
    let mut buffer = [0; PIECE];
    for _turn in 0..MAX_INPUT + 1 {
        let room = PIECE.min(MAX_INPUT + 1 - bytes.len());
        if read_piece(source, &mut buffer[..room], &mut bytes)? == 0 {
            return Ok(bytes);
        }
        if bytes.len() > MAX_INPUT {
            return Err(Fault::TooLong);
        }
    }
    unreachable!()
}

/// Reads once, and adds what came.
fn read_piece<S: Source>(
    source: &mut S,
    buffer: &mut [u8],
    bytes: &mut Vec<u8>,
) -> Result<usize, Fault>
    ensures count { IfOk result (λ n. n ≤ length buffer.new) }
    ensures len { IfOk result (λ n. length bytes.new.items ≡ length bytes.old.items + n) }
    ensures taken { IfOk result (λ n. (piece : List ℕ)
        × Consumes (S.state source.old).left (S.state source.new).left piece
        × (bytes.new.items ≡ bytes.old.items ++ piece)) }
    ensures end { IfOk result (λ n. n ≡ 0 → 0 < length buffer.old → IsAtEnd (S.state source.old).left) }
    ensures unfailed { OnOk result (NoReadFailed (change (S.state source.old) (S.state source.new))) }
    ensures cause { IfErr result (PieceFails (change (S.state source.old) (S.state source.new))) }
    ensures bounded { TakesAtMost (length buffer.old) (change (S.state source.old) (S.state source.new)) }
{
    match source.read(buffer) {
        Ok(n) => {
            bytes.extend_from_slice(&buffer[..n])?;
            Ok(n)
        }
        Err(_) => Err(Fault::Read),
    }
}
