//! The top call: words, a source, a sink and disks in; a status, a report and the disks out.
#![tactic(auto)]

mod answering;
mod answers_text;
mod budget;
mod dump;
mod dump_text;
mod ending;
mod entry_text;
mod fault;
mod file_name;
mod input;
mod laws;
mod node_text;
mod outcome;
mod refusal;
mod report;
mod run;
mod solve;
mod store;
mod words;

pub use budget::Budget;
pub use dump_text::write_dump;
pub use fault::Fault;
pub use file_name::FileName;
pub use laws::{
    commands_are_unique, lines_ask, lines_ask_nothing, lines_name, lines_name_nothing,
    statuses_of_dump, statuses_of_solve, statuses_of_words,
};
pub use outcome::{Outcome, Report};
pub use refusal::write_fault;
pub use run::{green, run_once};
pub use words::{Command, WordsFault, read_words};
