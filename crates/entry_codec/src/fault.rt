//! Why no entry stands in front of some bytes.
ghost use Rattle.std.specs.Prelude.{◌≡◌};

use cert_check::Refused;
use outside::NoMemory;
use std::alloc::{AllocError, AllocFailed};
use std::error::Error;
use std::fmt;

/// What stands in front of some bytes in place of a frame of an entry.
#[derive(Clone, Copy, Debug, PartialEq, Eq)]
pub enum FrameEnd {
    /// Nothing: there are no bytes.
    Ended,
    /// A front of a frame: some bytes, but fewer than the 4 of a length, or fewer than a length within the limit says.
    Short,
    /// A length above 16,777,216.
    TooLong,
    /// A whole body outside the grammar, at this byte, counted from the frame's first.
    BadBody(u32),
    /// A body in the grammar, whose evidence is refused.
    Uncertified(Refused),
    /// Memory ran out, which says nothing of the bytes.
    NoMemory,
}

impl fmt::Display for FrameEnd {
    fn fmt<W: fmt::Write>(&self, f: &mut fmt::Formatter<W>) -> fmt::Result {
        match self {
            FrameEnd::Ended => write!(f, "no bytes are left"),
            FrameEnd::Short => write!(f, "a frame is cut short"),
            FrameEnd::TooLong => write!(f, "a frame is too long"),
            FrameEnd::BadBody(place) => write!(f, "byte {place} of a frame is outside the grammar"),
            FrameEnd::Uncertified(refused) => write!(
                f,
                "the evidence of a frame is refused: {refused}"
            ),
            FrameEnd::NoMemory => write!(f, "out of memory"),
        }
    }
}

impl Error for FrameEnd {}

/// Why a part of a body can't be read.
#[derive(Clone, Copy, Debug, PartialEq, Eq)]
pub(crate) enum ReadFault {
    /// It is outside the grammar: the number of bytes from the first byte of what is at fault to the body's end.
    Bad(usize),
    /// Memory ran out.
    NoMemory,
}

impl From<NoMemory> for ReadFault {
    ghost use Rattle.entry_codec.specs.declared.fault.ReadFault.TheVariants.{NoMemory as Memory};

    ghost from_gives = { λ _ e. e ≡ Memory };

    fn from(_: NoMemory) -> ReadFault {
        ReadFault::NoMemory
    }
}

impl From<AllocError> for ReadFault {
    ghost use Rattle.entry_codec.specs.declared.fault.ReadFault.TheVariants.{NoMemory as Memory};

    ghost from_gives = { λ _ e. e ≡ Memory };

    fn from(_: AllocError) -> ReadFault {
        ReadFault::NoMemory
    }
}

impl<T: Drop> From<AllocFailed<T>> for ReadFault {
    ghost use Rattle.entry_codec.specs.declared.fault.ReadFault.TheVariants.{NoMemory as Memory};

    ghost from_gives = { λ _ e. e ≡ Memory };

    fn from(_: AllocFailed<T>) -> ReadFault {
        ReadFault::NoMemory
    }
}
