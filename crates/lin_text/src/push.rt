//! Adding numbers and words to the end of a text.
ghost use Rattle.std.specs.Prelude.{◌≡◌, ◌++◌, OnOk, OnErr, decimal};
ghost use Rattle.lin_text.specs.Spelling.{integer, minus_of};

use itoa::Buffer;
use outside::NoMemory;

/// Adds the number at the end: a minus where it is below 0, and its digits. Where memory runs out, nothing is
/// added.
#[tactic(auto, using(crate::proofs::IntegerLemmas::integers))]
pub fn push_integer(out: &mut Vec<u8>, number: i64) -> Result<(), NoMemory>
    ensures text { OnOk result (out.new.items ≡ out.old.items ++ integer number) }
    ensures kept { OnErr result (out.new.items ≡ out.old.items) }
{
    push_str(out, Buffer::new().format(number))
}

/// Adds the number at the end, in decimal digits with no leading zeros. Where memory runs out, nothing is added.
pub fn push_number(out: &mut Vec<u8>, number: u64) -> Result<(), NoMemory>
    ensures text { OnOk result (out.new.items ≡ out.old.items ++ decimal number) }
    ensures kept { OnErr result (out.new.items ≡ out.old.items) }
{
    push_str(out, Buffer::new().format(number))
}

/// Adds the text at the end. Where memory runs out, nothing is added.
pub fn push_str(out: &mut Vec<u8>, text: &str) -> Result<(), NoMemory>
    ensures text { OnOk result (out.new.items ≡ out.old.items ++ text.now) }
    ensures kept { OnErr result (out.new.items ≡ out.old.items) }
{
    out.extend_from_slice(text.as_bytes())?;
    Ok(())
}

/// The sign of a number below 0.
#[tactic(auto, unfolding(crate::specs::Spelling::minus_of))]
pub(crate) fn minus(number: i64) -> &'static str
    ensures { result.now ≡ minus_of number }
{
    if number < 0 { "-" } else { "" }
}
