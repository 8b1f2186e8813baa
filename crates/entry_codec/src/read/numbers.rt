//! Numbers of fixed width, the lowest byte first.
ghost use Rattle.std.specs.Prelude.{◌≡◌, ◌^◌, ◌≤◌, length, IfOk, unsigned_abs};
ghost use Rattle.entry_codec.specs.Gives.{Gives};
ghost use Rattle.entry_codec.specs.NumberReading.{small_at, short_at, long_at, integer_at};
ghost use Rattle.entry_codec.specs.declared.fault.ReadFault.TheVariants.{Bad};

use crate::fault::ReadFault;

/// The fault of a part that begins with these bytes.
pub(crate) fn bad(bytes: &[u8]) -> ReadFault
    ensures { result ≡ Bad (length bytes.now) }
{
    ReadFault::Bad(bytes.len())
}

/// A number in one byte.
#[tactic(auto, unfolding(crate::specs::NumberReading::small_at))]
pub(crate) fn small_at(bytes: &[u8]) -> Result<(u8, &[u8]), ReadFault>
    ensures { Gives (λ x. (x.0, x.1.now)) result (small_at bytes.now) }
{
    match bytes {
        [] => Err(bad(bytes)),
        [number, rest @ ..] => Ok((*number, rest)),
    }
}

/// A number in two bytes.
#[tactic(auto, unfolding(crate::specs::NumberReading::short_at))]
pub(crate) fn short_at(bytes: &[u8]) -> Result<(u16, &[u8]), ReadFault>
    ensures { Gives (λ x. (x.0, x.1.now)) result (short_at bytes.now) }
{
    if bytes.len() < 2 {
        return Err(bad(bytes));
    }
    let (front, rest) = bytes.split_at(2);
    let number = u16::from_le_bytes([front[0], front[1]]);
    Ok((number, rest))
}

/// A number in four bytes.
#[tactic(auto, unfolding(crate::specs::NumberReading::long_at))]
pub(crate) fn long_at(bytes: &[u8]) -> Result<(u32, &[u8]), ReadFault>
    ensures { Gives (λ x. (x.0, x.1.now)) result (long_at bytes.now) }
{
    if bytes.len() < 4 {
        return Err(bad(bytes));
    }
    let (front, rest) = bytes.split_at(4);
    let number = u32::from_le_bytes([front[0], front[1], front[2], front[3]]);
    Ok((number, rest))
}

/// A signed number in eight bytes.
#[tactic(auto, unfolding(crate::specs::NumberReading::integer_at))]
pub(crate) fn integer_at(bytes: &[u8]) -> Result<(i64, &[u8]), ReadFault>
    ensures { Gives (λ x. (x.0, x.1.now)) result (integer_at bytes.now) }
{
    if bytes.len() < 8 {
        return Err(bad(bytes));
    }
    let (front, rest) = bytes.split_at(8);
    let bits = u64::from_le_bytes([
        front[0], front[1], front[2], front[3], front[4], front[5], front[6], front[7],
    ]);
    Ok((bits.cast_signed(), rest))
}
