//! A ticket lock: users take a value in turn, and each turn adds at most one event to it.
#![tactic(auto)]

mod closing;
mod held;
mod kept;
mod lock;
mod opening;
mod plays;
mod seat;
mod sharing;
mod steps;
mod turns;
mod view;

pub use kept::Kept;
pub use lock::{Held, TurnLock};
pub use seat::TurnSeat;
pub use view::{Stage, View};
