//! Why there is no verdict.
use journal::StartFault;
use lin_text::TextFault;
use outside::{Failed, NoMemory};
use thiserror::Error;

/// Why there is no verdict.
#[derive(Debug, Drop, Error)]
pub enum Refusal {
    /// The text has this fault.
    #[error("the text has a fault: {0:?}")]
    Text(TextFault),
    /// The condition ends before the text does, at this byte.
    #[error("the condition ends at byte {0}, and the text goes on")]
    Behind(usize),
    /// The file can't be opened.
    #[error("the store can't be opened: {0}")]
    Store(StartFault),
    /// Memory ran out.
    #[error("out of memory")]
    NoMemory,
}

impl From<TextFault> for Refusal {
    fn from(fault: TextFault) -> Refusal {
        Refusal::Text(fault)
    }
}

impl From<Failed> for Refusal {
    fn from(fault: Failed) -> Refusal {
        Refusal::Store(fault.into())
    }
}

impl From<StartFault> for Refusal {
    fn from(fault: StartFault) -> Refusal {
        Refusal::Store(fault)
    }
}

impl From<NoMemory> for Refusal {
    fn from(_: NoMemory) -> Refusal {
        Refusal::NoMemory
    }
}
