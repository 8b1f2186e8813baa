//! What a slice comes to.

use crate::back::Back;
use lin_model::Key;

/// What a slice comes to.
#[derive(Debug, Drop)]
pub enum Canonical {
    /// An atom of the slice that no integers satisfy, the first of them: its number in the condition, from 0.
    False(u32),
    /// The slice's key, with the way back to the condition's variables.
    Key { key: Key, back: Back },
}
