//! The laws that entries aren't too large for frames, and how large these may be.
ghost use Rattle.entry_codec.specs.Fits.{FrameLimitsAreFixed, PointsFit, SmallCoresFit, SmallTreesFit};

/// Entries aren't too large for frames: each with a point; each whose tree has no more nodes and terms than a search of
/// 100,000 splits makes; and each that has a core of a key by a tree of at most 100,000 splits.
pub fn entries_fit_frames()
    ensures points { PointsFit }
    ensures trees { SmallTreesFit }
    ensures cores { SmallCoresFit }
{}

/// The limits of frames, as numbers.
pub fn frame_limits_are_fixed()
    ensures { FrameLimitsAreFixed }
{}
