//! The limits of frames that keys and points don't have.

/// The most bytes of a frame's body.
pub const MAX_BODY: u32 = 1 << 24;

/// The most nodes of a tree in a frame.
pub const MAX_NODES: u32 = 1 << 20;

/// The greatest size of the cut of a split.
pub const MAX_CUT: u64 = 1 << 32;

/// The most terms of a combination, which has at least one.
pub const MAX_LEAF_TERMS: u8 = 8;

/// The greatest size of the factor of a combination's term.
pub const MAX_MULTIPLIER: u64 = 1 << 31;

/// The most splits of a search.
pub const MAX_SPLITS: u32 = 100_000;

/// The most nodes of a tree that a search refutes a key with: each split has two halves.
pub const MAX_SEARCH_NODES: u32 = 2 * MAX_SPLITS + 1;

/// The most terms of such a tree: each leaf has at most 8.
pub const MAX_SEARCH_TERMS: u32 = 8 * (MAX_SPLITS + 1);
