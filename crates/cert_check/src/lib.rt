//! Entries that exist only checked, the machine that keeps them, and what a reply to a key says.
#![tactic(auto)]

mod check;
mod cores;
mod deciding;
mod entry;
mod event;
mod flight;
mod laws;
mod oracle;
mod refused;
mod reply;
mod saved;
mod shared;
mod wrote;

pub use check::{check_sat, check_unsat};
pub use cores::shrink;
pub use deciding::decides;
pub use entry::{Entry, SatEntry, UnsatEntry};
pub use event::{Ending, Event};
pub use flight::Flight;
pub use laws::{
    asking_keeps_replies, asks_join, deciding_entries_settle, entries_decide_their_keys,
    entries_stay, events_determine_logs, first_places_exist, flights_are_counted,
    flights_begin_rightly, flights_stay_apart, fronts_are_legal, legal_logs_tell,
    logs_determine_entries, logs_go_on, places_stay, replies_go_on_standing, replies_settle,
    shrunk_entries_decide, writes_are_kept,
};
pub use oracle::SliceOracle;
pub use refused::{NotUnsat, Refused};
pub use reply::Reply;
pub use saved::Saved;
pub use shared::Shared;
pub use wrote::Wrote;
