//! Laws of refutations and bounds, each the contract of a function that does nothing.
ghost use Rattle.refutation.specs.CutLaws.{CutsKeepPoints, CutsAreTight};
ghost use Rattle.refutation.specs.Laws.{EachTreeHasOneAnswer, RefutedHasNoPoint, BoundedIsBoxed, OpenTreesAreBelowRoom};
ghost use Rattle.refutation.specs.Laws.{CutsLeaveProperHalves, KeyBoundsAreShort, RootsOfModelsStayOpen};
ghost use Rattle.refutation.specs.Laws.{OneIsTried, TwoAreTried, CombinationsArePositive};

/// Each tree refutes the key, fails at one node, ends early or goes on, and just one of these: so each has one answer
/// of `refutes` that is right.
pub fn each_tree_has_one_answer()
    ensures { EachTreeHasOneAnswer }
{}

/// No point satisfies a key that some tree refutes.
pub fn refuted_keys_have_no_point()
    ensures { RefutedHasNoPoint }
{}

/// A key that bounds each of its variables on both sides has both sides of each.
pub fn bounded_keys_are_boxed()
    ensures { BoundedIsBoxed }
{}

/// An open tree of a boxed key has fewer splits than the key has room.
pub fn open_trees_are_below_room()
    ensures { OpenTreesAreBelowRoom }
{}

/// Where a cut lies between the sides of a variable, the halves aren't empty, have all sides and have none beyond 2^32
/// in size, wherever the whole is so; then the cut isn't beyond 2^32 either.
pub fn cuts_leave_proper_halves()
    ensures { CutsLeaveProperHalves }
{}

/// No side of a key's bounds is beyond 2^32 in size.
pub fn key_bounds_are_short()
    ensures { KeyBoundsAreShort }
{}

/// No leaf closes the root box of a key that a point satisfies.
pub fn roots_of_models_stay_open()
    ensures { RootsOfModelsStayOpen }
{}

/// What closes a box at a glance is among what is tried: the forms of one value and the factors 1 and -1 of one, or of
/// two, of the atoms and sides in their row.
pub fn glances_try_units()
    ensures one { OneIsTried }
    ensures two { TwoAreTried }
{}

/// The sum of a combination that closes a box is positive at each point within the bounds.
pub fn combinations_are_positive()
    ensures { CombinationsArePositive }
{}

/// Every point within bounds that satisfies an atom keeps the bound that the atom gives of a variable.
pub fn cuts_keep_points()
    ensures { CutsKeepPoints }
{}

/// For `<=` and `>=`, where the bounds aren't empty, some point within them that satisfies the atom has just the value of
/// the cut.
pub fn cuts_are_tight()
    ensures { CutsAreTight }
{}
