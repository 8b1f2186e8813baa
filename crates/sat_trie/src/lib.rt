//! The trie of satisfied keys: keys, each under a number, and the least number of one that covers a key.
#![tactic(auto)]

mod left;
mod rest;
mod sat_trie;
mod walk;
mod wanted;

pub use sat_trie::SatTrie;
