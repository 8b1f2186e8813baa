//! What a call hands back.
ghost use Rattle.std.specs.Prelude.{◌≡◌, []};

use cert_check::{Entry, Event, Shared};
use lin_model::Session;
use pipeline::Answer;
use sqlite_items::Items;
use std::alloc::Global;

/// What a call found: the session that it read, one answer for each query of each executor, and the store that they
/// came from. All is empty where the call was refused.
#[derive(Drop)]
pub struct Report {
    /// What each executor asked, as it was read.
    pub session: Session,
    /// For each executor its answers, in the order of its queries.
    pub answers: Items<Items<Answer>>,
    /// What happened to the flights of the store, in order.
    pub log: Items<Event>,
    /// The entries of the store as the call ended, in the order of their places.
    pub entries: Items<Shared<Entry>>,
    /// How many replies tell that their entry was saved.
    pub saved: u64,
}

impl Report {
    /// The report of entries alone: nothing was asked.
    pub fn of_entries(alloc: Global, entries: Vec<Shared<Entry>>) -> Report
        ensures { result ≡ record { session = []; answers = []; log = []; entries = entries.items; saved = 0 } }
    {
        Report {
            session: Session::new(Vec::new(alloc)),
            answers: Items::new(alloc),
            log: Items::new(alloc),
            entries: Items::from_vec(entries),
            saved: 0,
        }
    }
}

/// The end of a call: its status, its report, and the disks that were handed in.
#[derive(Drop)]
pub struct Outcome<D> {
    /// The status of the process: 0, 3, 4, 10 to 14, or 16 to 18.
    pub status: u8,
    /// What was read and answered.
    pub report: Report,
    /// The first disk that was handed in.
    pub disk: D,
    /// The second.
    pub other: D,
}
