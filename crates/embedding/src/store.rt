//! Stores over a file and over none.
ghost use Rattle.std.specs.Prelude.{◌≡◌, []};
ghost use Rattle.journal.specs.Journals.{list_of};

use crate::refusal::Refusal;
use journal::{Journal, Recovered};
use outside::{Disk, NoMemory};
use shared_store::LocalStore;
use std::alloc::Global;

/// The splits that each slice of a condition may take.
const BUDGET: u32 = 4_096;

/// A store that begins with the entries of this file, and keeps there what it solves. An empty file is made where there is
/// none.
pub fn store_over_file<D: Disk + Drop>(
    alloc: Global,
    disk: D,
    name: &str,
) -> Result<LocalStore<D>, Refusal> {
    let mut disk = disk;
    disk.bind(name)?;
    match Journal::recover(alloc, disk) {
        Ok((journal, recovered)) => start(alloc, journal, recovered),
        Err((fault, _)) => Err(fault.into()),
    }
}

/// A store that begins without entries, and keeps what it solves for as long as it lives. The disk is left alone.
pub fn store_in_memory<D: Disk + Drop>(alloc: Global, disk: D) -> Result<LocalStore<D>, Refusal> {
    let nothing = Recovered {
        entries: Vec::new(alloc),
        end_at: 8,
        stopped: None,
    };
    start(alloc, Journal::off(alloc, disk), nothing)
}

/// A store of the entries that a journal was opened with.
fn start<D: Disk + Drop>(
    alloc: Global,
    journal: Journal<D>,
    recovered: Recovered,
) -> Result<LocalStore<D>, Refusal>
    requires list { recovered.entries.items ≡ list_of journal }
    requires no_writes { journal.wrotes ≡ [] }
{
    match LocalStore::start(alloc, journal, recovered, BUDGET) {
        Ok(store) => Ok(store),
        Err((NoMemory, _)) => Err(Refusal::NoMemory),
    }
}
