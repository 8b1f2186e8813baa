//! Laws of files and of what they recover to, each the contract of a function that does nothing, or
//! only calls laws of crates below.
ghost use Rattle.journal.specs.Laws.{FramesStand, FrontsAreRecovered, JustTheseAreRecovered, KeptEntriesAreHeld};
ghost use Rattle.journal.specs.Laws.{FileLimitsAreFixed};
ghost use Rattle.journal.specs.Laws.{NoRoomStays, OneListIsRecovered, OneRecoveryIsRight, SomeListIsRecovered};

use entry_codec::{
    bytes_have_one_answer, ends_exclude_frames, frames_are_checked, one_frame_stands,
};

/// A file recovers to one list of entries at most.
pub fn one_list_is_recovered()
    ensures { OneListIsRecovered }
{
    one_frame_stands();
}

/// A file of bytes that isn't foreign recovers to some list of entries, and its run ends for some reason.
pub fn some_list_is_recovered()
    ensures { SomeListIsRecovered }
{
    bytes_have_one_answer();
    ends_exclude_frames();
    frames_are_checked();
}

/// Of a file of bytes one list of entries, one end and one reason are right.
pub fn one_recovery_is_right()
    ensures { OneRecoveryIsRight }
{
    bytes_have_one_answer();
    one_frame_stands();
}

/// What a file that begins with entries recovers to begins with them.
pub fn fronts_are_recovered()
    ensures { FrontsAreRecovered }
{
    one_frame_stands();
}

/// A file that recovers to what another did has at least these entries.
pub fn kept_entries_are_held()
    ensures { KeptEntriesAreHeld }
{
    one_frame_stands();
}

/// A file that has just these entries recovers to just these.
pub fn just_these_are_recovered()
    ensures { JustTheseAreRecovered }
{}

/// Where a file begins with the list that the writes of a journal left, the frame of each entry that was saved stands at
/// its place.
pub fn frames_stand()
    ensures { FramesStand }
{}

/// Where a journal has no room for an entry, it has none behind more entries.
pub fn no_room_stays()
    ensures { NoRoomStays }
{}

/// The bytes of the header and the limits of files, as numbers.
pub fn file_limits_are_fixed()
    ensures { FileLimitsAreFixed }
{}
