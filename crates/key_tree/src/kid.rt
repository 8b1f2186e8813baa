//! A branch as the place sees it where it begins.

/// What a walk has to know of a branch before it looks further.
#[derive(Clone, Copy, Debug)]
pub struct Kid {
    /// The place that the branch leads to.
    pub place: u32,
    /// The least number that is held there or behind it.
    pub least: u32,
    /// The hash of the form of the branch's atom.
    pub hash: u32,
}
