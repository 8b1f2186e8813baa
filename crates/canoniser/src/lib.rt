//! From a slice of a condition to its canonical key, and back.
#![tactic(auto)]

mod atom_form;
mod back;
mod bounds;
mod canonical;
mod false_atom;
mod implied;
mod keys;
mod laws;
mod linear;
mod numbering;
mod side;
mod slice_forms;
mod strongest;

pub use back::Back;
pub use canonical::Canonical;
pub use false_atom::is_false;
pub use keys::canonise;
pub use laws::{
    factors_keep_keys, keys_are_unique, keys_exist, renumbering_keeps_keys, repeating_keeps_keys,
};
