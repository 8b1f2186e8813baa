//! How a fault of a text is told: by its line and its column, or its place among the bytes, and its kind.
use lin_text::{Fault, ReadError, SessionFault, SessionKind, TextFault, TextKind};
use row_table::RowFault;
use std::alloc::Global;

/// The line, the column and the kind of a fault.
pub fn told(alloc: Global, fault: TextFault) -> Result<Vec<u8>, RowFault> {
    let TextFault { line, column, kind } = fault;
    match kind {
        TextKind::NoMemory => Err(RowFault::NoMemory),
        _ => Ok(format!(in alloc; "{line} {column} {kind:?}")?.into_bytes()),
    }
}

/// The same of a fault of a session.
pub fn told_of_session(alloc: Global, fault: SessionFault) -> Result<Vec<u8>, RowFault> {
    let SessionFault { line, column, kind } = fault;
    match kind {
        SessionKind::NoMemory => Err(RowFault::NoMemory),
        _ => Ok(format!(in alloc; "{line} {column} {kind:?}")?.into_bytes()),
    }
}

/// The place among the bytes, from 0, and the kind of a fault.
pub fn told_with_place(alloc: Global, error: ReadError<TextKind>) -> Result<Vec<u8>, RowFault> {
    match error {
        ReadError::NoMemory => Err(RowFault::NoMemory),
        ReadError::Fault(Fault { kind, at }) => {
            Ok(format!(in alloc; "{at} {kind:?}")?.into_bytes())
        }
    }
}
