//! Laws of frames, each the contract of a function that does nothing, or only calls laws of crates below.
ghost use Rattle.entry_codec.specs.Answers.{WrittenIsRead, FramesTakeTheirBytes, OneFrameStands, EndsExcludeFrames};
ghost use Rattle.entry_codec.specs.Answers.{BytesHaveOneAnswer, FramesAreChecked};

use refutation::each_tree_has_one_answer;

/// The frame of an entry that fits one and whose evidence checks is read back, whatever stands behind it.
pub fn written_is_read()
    ensures { WrittenIsRead }
{}

/// A frame takes its own bytes, which are at least 4, and no others.
pub fn frames_take_their_bytes()
    ensures { FramesTakeTheirBytes }
{}

/// The frame of at most one entry stands in front of some bytes.
pub fn one_frame_stands()
    ensures { OneFrameStands }
{}

/// What stands in front of some bytes is a checked entry: its key keeps the limits of keys too.
pub fn frames_are_checked()
    ensures { FramesAreChecked }
{}

/// Where some end of `read_frame`, but for want of memory, is right, no frame of an entry whose evidence checks stands
/// in front: so none stands in front of no bytes.
pub fn ends_exclude_frames()
    ensures { EndsExcludeFrames }
{
    each_tree_has_one_answer();
}

/// Of some bytes just one answer of `read_frame` is right: the entry and its length, or one end, at one place and for
/// one reason.
pub fn bytes_have_one_answer()
    ensures { BytesHaveOneAnswer }
{
    each_tree_has_one_answer();
}
