//! Fronts of keys.

/// The longest front of a list of atoms that is the way to a place.
#[derive(Clone, Copy, Debug)]
pub(crate) struct Front {
    /// The place.
    pub(crate) place: u32,
    /// How many atoms the front has.
    pub(crate) len: usize,
    /// The position among the kids of the place where one for the next atom belongs, if there is a next atom.
    pub(crate) at: usize,
}
