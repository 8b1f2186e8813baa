//! Texts of sessions: what is read, and their plain spelling.
use crate::faults::told_of_session;
use row_table::RowFault;
use session_text::{read_session, write_session};
use std::alloc::Global;

/// `read` and how many executors the session has that the text is to be, or its first fault.
pub fn read(alloc: Global, text: &[u8]) -> Result<Vec<u8>, RowFault> {
    match read_session(alloc, text) {
        Ok(session) => {
            let executors = session.executors().len();
            Ok(format!(in alloc; "read {executors}")?.into_bytes())
        }
        Err(fault) => told_of_session(alloc, fault),
    }
}

/// The plain spelling of the session that the text spells, or its first fault.
pub fn plain(alloc: Global, text: &[u8]) -> Result<Vec<u8>, RowFault> {
    match read_session(alloc, text) {
        Ok(session) => Ok(write_session(alloc, &session)?),
        Err(fault) => told_of_session(alloc, fault),
    }
}
