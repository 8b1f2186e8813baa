//! The trie of cores: keys, each under a number, and the least number of one that a key covers.
#![tactic(auto)]

mod unsat_trie;
mod walk;

pub use unsat_trie::UnsatTrie;
