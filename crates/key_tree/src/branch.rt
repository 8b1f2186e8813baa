//! How a place is reached.

use lin_model::KeyAtom;

/// The branch to a place: from an older one, by one atom.
#[derive(Debug, Drop)]
pub struct Branch {
    /// The older place.
    pub from: u32,
    /// The atom that the way to the place has more.
    pub atom: KeyAtom,
    /// The least number that is held at the place or behind it.
    pub least: u32,
}
