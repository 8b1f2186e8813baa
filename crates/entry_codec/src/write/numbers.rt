//! Numbers of fixed width, the lowest byte first.
ghost use Rattle.std.specs.Prelude.{◌≡◌, ◌++◌, OnOk};
ghost use Rattle.entry_codec.specs.Numbers.{small, short, long, integer};

use byteorder::{ByteOrder, LittleEndian};
use outside::NoMemory;

/// Adds a number in one byte.
#[tactic(auto, unfolding(crate::specs::Numbers::small))]
pub(crate) fn push_small(out: &mut Vec<u8>, number: u8) -> Result<(), NoMemory>
    ensures { OnOk result (out.new.items ≡ out.old.items ++ small.spell number) }
{
    out.push(number)?;
    Ok(())
}

/// Adds a number in two bytes.
#[tactic(auto, unfolding(crate::specs::Numbers::short))]
pub(crate) fn push_short(out: &mut Vec<u8>, number: u16) -> Result<(), NoMemory>
    ensures { OnOk result (out.new.items ≡ out.old.items ++ short.spell number) }
{
    let mut bytes = [0; 2];
    LittleEndian::write_u16(&mut bytes, number);
    out.extend_from_slice(&bytes)?;
    Ok(())
}

/// Adds a number in four bytes.
#[tactic(auto, unfolding(crate::specs::Numbers::long))]
pub(crate) fn push_long(out: &mut Vec<u8>, number: u32) -> Result<(), NoMemory>
    ensures { OnOk result (out.new.items ≡ out.old.items ++ long.spell number) }
{
    let mut bytes = [0; 4];
    LittleEndian::write_u32(&mut bytes, number);
    out.extend_from_slice(&bytes)?;
    Ok(())
}

/// Adds a signed number in eight bytes.
#[tactic(auto, unfolding(crate::specs::Numbers::integer))]
pub(crate) fn push_integer(out: &mut Vec<u8>, number: i64) -> Result<(), NoMemory>
    ensures { OnOk result (out.new.items ≡ out.old.items ++ integer.spell number) }
{
    let mut bytes = [0; 8];
    LittleEndian::write_i64(&mut bytes, number);
    out.extend_from_slice(&bytes)?;
    Ok(())
}
