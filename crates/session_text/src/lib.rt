//! The texts of whole sessions: how they are spelled, read and written.
#![tactic(auto)]

mod class;
mod laws;
mod line;
mod query;
mod refusal;
mod session;
mod write;

pub use laws::{
    one_first_fault, spelled_has_no_fault, spelled_once, spelled_or_faulty, written_is_spelled,
};
pub use session::read_session;
pub use write::write_session;
