//! Laws of prints, masks and walks, each the contract of a function that does nothing.
ghost use Rattle.key_tree.specs.Laws.{PrefixesAreCounted, PrintsAreRight, MasksAreRight, WalksGoOn, VisitsGoOn};

use atom_implies::table_is_right;

/// Keys have one number of prefixes.
pub fn prefixes_are_counted()
    ensures { PrefixesAreCounted }
{}

/// What an atom implies needs nothing that the atom doesn't give, and has its form's hash.
pub fn prints_are_right()
    ensures { PrintsAreRight }
{
    table_is_right();
}

/// The mask of a place has all that each atom behind it gives.
pub fn masks_are_right()
    ensures { MasksAreRight }
{}

/// A walk that looked behind some kids of a place goes on to the next, and is done after the last.
pub fn walks_go_on()
    ensures { WalksGoOn }
{}

/// The steps of a walk are at most so many at each place that it looks at, and it looks at none twice.
pub fn visits_go_on()
    ensures { VisitsGoOn }
{}
