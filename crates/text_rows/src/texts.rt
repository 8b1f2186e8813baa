//! The calls that the rows make.
use crate::{atoms, numbers, queries, sessions};
use outside::NoMemory;
use row_table::{RowFault, Subject};
use std::alloc::Global;

/// What reads and writes texts. No call depends on an earlier one.
#[derive(Drop)]
pub struct Texts;

impl Subject for Texts {
    fn answer(
        &mut self,
        alloc: Global,
        name: &str,
        argument: &[u8],
    ) -> Result<Option<Vec<u8>>, NoMemory> {
        match answer_of(alloc, name, argument) {
            Ok(answer) => Ok(Some(answer)),
            Err(RowFault::NoMemory) => Err(NoMemory),
            Err(_) => Ok(None),
        }
    }
}

/// The answer to the call of this name with this argument.
fn answer_of(alloc: Global, name: &str, argument: &[u8]) -> Result<Vec<u8>, RowFault> {
    match name {
        "query" => queries::read(alloc, argument),
        "line" => queries::read_line(alloc, argument),
        "first_query" => queries::read_first(alloc, argument),
        "end" => queries::end(alloc, argument, false),
        "end_in_proof" => queries::end(alloc, argument, true),
        "plain_query" => queries::plain(alloc, argument),
        "session" => sessions::read(alloc, argument),
        "plain_session" => sessions::plain(alloc, argument),
        "atom" => atoms::read(alloc, argument),
        "atom_to_end" => atoms::read_to_end(alloc, argument),
        "atom_with_end" => atoms::read_with_end(alloc, argument),
        "added" => numbers::added(alloc),
        _ => Err(RowFault::NoCall),
    }
}
