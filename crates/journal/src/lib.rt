//! A file of entries that survive a crash once they are reported saved.
#![tactic(auto)]

mod copies;
mod journal;
mod laws;
mod limits;
mod opening;
mod putting;
mod reading;
mod recovered;
mod saving;
mod scanning;

pub use journal::Journal;
pub use laws::{
    file_limits_are_fixed, frames_stand, fronts_are_recovered, just_these_are_recovered,
    kept_entries_are_held, no_room_stays, one_list_is_recovered, one_recovery_is_right,
    some_list_is_recovered,
};
pub use limits::{HEADER, MAX_ENTRIES, MAX_FILE};
pub use recovered::{Recovered, StartFault, Stop};
pub use scanning::scan;
