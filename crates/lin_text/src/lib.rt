//! The texts of conditions: how they are spelled, read and written.
#![tactic(auto)]

mod atom_reader;
mod atom_step;
mod class;
mod declaration;
mod draft;
mod fault;
mod key_atom;
mod laws;
mod lines;
mod names;
mod push;
mod query;
mod refusal;
mod run;
mod side;
mod token;
mod write;

pub use atom_reader::{read_atom, read_atom_at, read_atom_from};
pub use fault::{SessionFault, SessionKind, TextFault, TextKind};
pub use key_atom::{push_key_atom, write_atom};
pub use laws::{
    atom_spelled_once, atom_spelled_or_faulty, atom_text_has_no_fault, atom_text_once,
    atom_text_or_faulty, lines_are_in_order, lines_are_next, one_first_atom_fault,
    one_first_atom_text_fault, one_first_fault, spelled_atom_has_no_fault, spelled_has_no_fault,
    spelled_lines_have_no_fault, spelled_once, spelled_or_faulty, tokens_are_longest,
    tokens_are_next, tokens_move_with_their_text, words_stand_in_no_line, written_atom_is_spelled,
    written_atom_is_text, written_is_spelled, written_is_spelled_within,
};
pub use lines::{column, line_below, line_number, next_line};
pub use push::{push_integer, push_number, push_str};
pub use query::{read_lines, read_query};
pub use refusal::{Fault, ReadError, fault_at};
pub use token::{Token, TokenKind, next_token};
pub use write::{push_query, write_query};
