//! What a file recovers to.
use cert_check::{Entry, Shared};
use entry_codec::FrameEnd;
use outside::{Failed, NoMemory};
use std::alloc::{AllocError, AllocFailed};
use std::error::Error;
use std::fmt;

/// The entries of a file: those of the longest run of frames behind its header that are spelled rightly and whose
/// evidence checks, at most 2^20.
#[derive(Drop)]
pub struct Recovered {
    /// The entries, in the order of the file.
    pub entries: Vec<Shared<Entry>>,
    /// Where the run ends, in bytes from the file's first: 8 where there is no entry.
    pub end_at: u64,
    /// Why the run ends before the file does; None where it ends with the file.
    pub stopped: Option<Stop>,
}

/// Why a run of frames ends before its file does.
#[derive(Clone, Copy, Debug, PartialEq, Eq)]
pub enum Stop {
    /// No frame stands there, for this reason.
    Frame(FrameEnd),
    /// There are 2^20 entries.
    TooMany,
}

/// Why a file can't be read as a journal.
#[derive(Clone, Copy, Debug, PartialEq, Eq)]
pub enum StartFault {
    /// The disk failed.
    Disk,
    /// The file has more than 8 bytes, and the first 8 aren't those of a journal.
    NotJournal,
    /// Memory ran out.
    NoMemory,
}

impl fmt::Display for StartFault {
    fn fmt<W: fmt::Write>(&self, f: &mut fmt::Formatter<W>) -> fmt::Result {
        match self {
            StartFault::Disk => write!(f, "the disk failed"),
            StartFault::NotJournal => write!(f, "the file is no journal"),
            StartFault::NoMemory => write!(f, "out of memory"),
        }
    }
}

impl Error for StartFault {}

impl From<Failed> for StartFault {
    ghost use Rattle.std.specs.Prelude.{◌≡◌};
    ghost use Rattle.journal.specs.declared.recovered.StartFault.TheVariants.{Disk as DiskFailed};

    ghost from_gives = { λ _ fault. fault ≡ DiskFailed };

    fn from(_: Failed) -> StartFault {
        StartFault::Disk
    }
}

impl From<NoMemory> for StartFault {
    ghost use Rattle.std.specs.Prelude.{◌≡◌};
    ghost use Rattle.journal.specs.declared.recovered.StartFault.TheVariants.{NoMemory as Memory};

    ghost from_gives = { λ _ fault. fault ≡ Memory };

    fn from(_: NoMemory) -> StartFault {
        StartFault::NoMemory
    }
}

impl From<AllocError> for StartFault {
    ghost use Rattle.std.specs.Prelude.{◌≡◌};
    ghost use Rattle.journal.specs.declared.recovered.StartFault.TheVariants.{NoMemory as Memory};

    ghost from_gives = { λ _ fault. fault ≡ Memory };

    fn from(_: AllocError) -> StartFault {
        StartFault::NoMemory
    }
}

impl<T: Drop> From<AllocFailed<T>> for StartFault {
    ghost use Rattle.std.specs.Prelude.{◌≡◌};
    ghost use Rattle.journal.specs.declared.recovered.StartFault.TheVariants.{NoMemory as Memory};

    ghost from_gives = { λ _ fault. fault ≡ Memory };

    fn from(_: AllocFailed<T>) -> StartFault {
        StartFault::NoMemory
    }
}
