//! Schedules: what any seats ask of a core, in any order, with saves and restarts between.
use crate::machine::Core;
use crate::turns::{Enter, How};
use cert_check::{Entry, Shared};
use lin_model::Key;

/// A core, and the entries that are saved: with those it is started anew.
#[derive(Drop)]
pub struct World {
    /// The core.
    pub core: Core,
    /// The saved entries, in the order in which they were saved.
    pub saved: Vec<Shared<Entry>>,
}

/// One step of a schedule.
#[derive(Drop)]
pub enum Step {
    /// The seat, which has seen the first n entries, wants to begin a flight on the key.
    Enter { seat: u32, key: Shared<Key>, n: u32 },
    /// The flight of the seat ends.
    End { seat: u32, how: How },
    /// The entry is saved.
    Save { entry: Shared<Entry> },
    /// The core is started anew with the saved entries followed by these, which are saved too then.
    Restart { more: Vec<Shared<Entry>> },
}

/// The answer to a step.
#[derive(Clone, Copy, Debug, PartialEq, Eq)]
pub enum Done {
    /// What the core answered to the seat that wanted to enter.
    Entered(Enter),
    /// The flight ended; where its entry was kept, at this place, from 0.
    Ended(Option<u32>),
    /// The entry is saved.
    Saved,
    /// The core was started anew.
    Restarted,
    /// The step couldn't come, and nothing changed.
    Idle,
}
