//! The store that a session is answered over: a file, or none.
ghost use Rattle.std.specs.Prelude.{◌≡◌, [], Some, IfErr, IfOk, option_map};
ghost use Rattle.green_cli.specs.Opened.{FailsToOpenStore, IsOpened};

use crate::fault::Fault;
use crate::file_name::FileName;
use journal::{Journal, Recovered, kept_entries_are_held};
use outside::Disk;
use std::alloc::Global;

/// A journal, and what was recovered for the store that it belongs to.
pub struct Opened<D: Disk> {
    pub journal: Journal<D>,
    pub recovered: Recovered,
}

/// Opens the file of this name as a journal; without a name the journal is off, and nothing is recovered. `Disk`: the
/// disk failed. `NotJournal`: the file has more than 8 bytes and is no journal. The disk comes back with the fault.
pub fn open<D: Disk>(
    alloc: Global,
    store: Option<&FileName>,
    disk: D,
) -> Result<Opened<D>, (Fault, D)>
    ensures opened { IfOk result (IsOpened D.state (option_map (λ name. name.now) store.entry) disk) }
    ensures failed { IfErr result (λ failed.
        FailsToOpenStore D.state (option_map (λ name. name.now) store.entry) disk failed.1 failed.0) }
{
    match store {
        Some(name) => open_file(alloc, name, disk),
        None => Ok(Opened {
            journal: Journal::off(alloc, disk),
            recovered: nothing(alloc),
        }),
    }
}

/// What no file recovers to.
fn nothing(alloc: Global) -> Recovered
    ensures { result.entries.items ≡ [] }
{
    Recovered {
        entries: Vec::new(alloc),
        end_at: 8,
        stopped: None,
    }
}

/// Opens the file of this name as a journal.
fn open_file<D: Disk>(alloc: Global, name: &FileName, disk: D) -> Result<Opened<D>, (Fault, D)>
    ensures opened { IfOk result (IsOpened D.state (Some name.now) disk) }
    ensures failed { IfErr result (λ failed. FailsToOpenStore D.state (Some name.now) disk failed.1 failed.0) }
{
    kept_entries_are_held();
    let mut disk = disk;
    if let Err(_) = disk.bind(name.as_str()) {
        return Err((Fault::Disk, disk));
    }
    match Journal::recover(alloc, disk) {
        Ok((journal, recovered)) => Ok(Opened { journal, recovered }),
        Err((fault, disk)) => Err((fault.into(), disk)),
    }
}
