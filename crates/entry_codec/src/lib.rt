//! The frames of a journal: entries as bytes, both ways, with the first fault.
#![tactic(auto)]

mod fault;
mod fits;
mod frame;
mod kind;
mod laws;
mod limits;
mod read;
mod write;

pub use fault::FrameEnd;
pub use fits::{entries_fit_frames, frame_limits_are_fixed};
pub use frame::read_frame;
pub use laws::{
    bytes_have_one_answer, ends_exclude_frames, frames_are_checked, frames_take_their_bytes,
    one_frame_stands, written_is_read,
};
pub use limits::{
    MAX_BODY, MAX_CUT, MAX_LEAF_TERMS, MAX_MULTIPLIER, MAX_NODES, MAX_SEARCH_NODES,
    MAX_SEARCH_TERMS, MAX_SPLITS,
};
pub use write::write_frame;
