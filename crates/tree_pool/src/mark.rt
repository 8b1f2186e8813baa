//! Marks.

/// How long the lists of a region were, to come back to.
#[derive(Clone, Copy, Debug)]
pub struct Mark {
    pub(crate) nodes: usize,
    pub(crate) terms: usize,
    pub(crate) trail: usize,
}
