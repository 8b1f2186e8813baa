//! Why a call was refused, with the status that says so.
ghost use Rattle.std.specs.Prelude.{◌≡◌};
ghost use Rattle.green_cli.specs.Statuses.{status_of};

use journal::StartFault;
use lin_text::{SessionFault, SessionKind};
use outside::NoMemory;
use std::alloc::{AllocError, AllocFailed};

/// Why a call was refused.
#[derive(Clone, Copy, Debug)]
pub enum Fault {
    /// The words are no command. Status 10.
    Usage,
    /// The input is no session, and this is its first fault, which is never of the kind `NoMemory`. Status 11.
    Text(SessionFault),
    /// The source failed. Status 12.
    Read,
    /// The disk failed while a file was opened. Status 14.
    Disk,
    /// Memory ran out. Status 16.
    NoMemory,
    /// The file has more than 8 bytes, and the first 8 aren't those of a journal. Status 17.
    NotJournal,
    /// More than 16,777,216 bytes came. Status 18.
    TooLong,
}

impl Fault {
    /// The status of the fault.
    pub fn status(self) -> u8
        ensures { result ≡ status_of self }
    {
        match self {
            Fault::Usage => 10,
            Fault::Text(_) => 11,
            Fault::Read => 12,
            Fault::Disk => 14,
            Fault::NoMemory => 16,
            Fault::NotJournal => 17,
            Fault::TooLong => 18,
        }
    }
}

impl From<SessionFault> for Fault {
    ghost use Rattle.std.specs.Prelude.{◌≡◌, ◌≢◌, ◌⊎◌};
    ghost use Rattle.lin_text.specs.declared.fault.SessionKind.TheVariants.{NoMemory as NoMemoryKind};
    ghost use Rattle.green_cli.specs.declared.fault.Fault.TheVariants.{NoMemory, Text};

    ghost from_gives = { λ from fault.
        ((fault ≡ NoMemory) × (from.kind ≡ NoMemoryKind)) ⊎ ((fault ≡ Text from) × (from.kind ≢ NoMemoryKind)) };

    fn from(fault: SessionFault) -> Fault {
        match fault.kind {
            SessionKind::NoMemory => Fault::NoMemory,
            _ => Fault::Text(fault),
        }
    }
}

impl From<StartFault> for Fault {
    ghost use Rattle.green_cli.specs.Statuses.{fault_of_start};

    ghost from_gives = { λ from fault. fault ≡ fault_of_start from };

    fn from(fault: StartFault) -> Fault {
        match fault {
            StartFault::Disk => Fault::Disk,
            StartFault::NotJournal => Fault::NotJournal,
            StartFault::NoMemory => Fault::NoMemory,
        }
    }
}

impl From<NoMemory> for Fault {
    ghost use Rattle.std.specs.Prelude.{◌≡◌};
    ghost use Rattle.green_cli.specs.declared.fault.Fault.TheVariants.{NoMemory as Memory};

    ghost from_gives = { λ _ fault. fault ≡ Memory };

    fn from(_: NoMemory) -> Fault {
        Fault::NoMemory
    }
}

impl From<AllocError> for Fault {
    ghost use Rattle.std.specs.Prelude.{◌≡◌};
    ghost use Rattle.green_cli.specs.declared.fault.Fault.TheVariants.{NoMemory as Memory};

    ghost from_gives = { λ _ fault. fault ≡ Memory };

    fn from(_: AllocError) -> Fault {
        Fault::NoMemory
    }
}

impl<T: Drop> From<AllocFailed<T>> for Fault {
    ghost use Rattle.std.specs.Prelude.{◌≡◌};
    ghost use Rattle.green_cli.specs.declared.fault.Fault.TheVariants.{NoMemory as Memory};

    ghost from_gives = { λ _ fault. fault ≡ Memory };

    fn from(_: AllocFailed<T>) -> Fault {
        Fault::NoMemory
    }
}
