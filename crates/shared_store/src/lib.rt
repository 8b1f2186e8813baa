//! Stores that answer keys: by an entry that decides the key, and else by solving it.
#![tactic(auto)]

mod books;
mod flights;
mod laws;
mod local;
mod solving;

pub use laws::each_key_can_be_asked;
pub use local::LocalStore;
