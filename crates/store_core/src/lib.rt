//! The core machine of a store: its entries, its open flights, and the log of what happened to them; and schedules of
//! what seats ask of it.
#![tactic(auto)]

mod conditions;
mod laws;
mod machine;
mod running;
mod schedule;
mod seen;
mod turns;

pub use conditions::{may_end, may_enter};
pub use laws::{cores_take_turns, schedules_end_rightly, schedules_have_one_end};
pub use machine::{Core, MAX_ENTRIES};
pub use running::run;
pub use schedule::{Done, Step, World};
pub use turns::{Enter, How};
