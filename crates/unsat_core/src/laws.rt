//! Laws of cores, each the contract of a function that does nothing.

ghost use Rattle.unsat_core.specs.Laws.{ChoicesAreClosedAlike, OthersCanGo};

/// Where each atom that a tree names is chosen, the tree by the new numbers refutes the chosen atoms exactly where the
/// tree as it is closes the box that they bound.
pub fn choices_are_closed_alike()
    ensures { ChoicesAreClosedAlike }
{}

/// A tree that refutes a key refutes, by the new numbers, what is left of it without atoms that the tree doesn't name
/// and that give no bound.
pub fn others_can_go()
    ensures { OthersCanGo }
{}
