//! The bytes that a journal begins with, and how large it may be.

/// The first bytes of a journal, of this version of its frames.
pub const HEADER: [u8; 8] = *b"GREENST1";

/// How much of a file counts, in bytes: what stands behind is as if it were not there.
pub const MAX_FILE: u64 = 1 << 28;

/// The most entries of a journal.
pub const MAX_ENTRIES: u32 = 1 << 20;
