//! Laws of implication, each the contract of a function that does nothing.
ghost use Rattle.atom_implies.specs.Implies.{CoveredKeysHold};
ghost use Rattle.atom_implies.specs.Laws.{TableIsRight};

/// Every point at which a key holds is one at which each key that it covers does.
pub fn covered_keys_hold()
    ensures { CoveredKeysHold }
{}

/// The table of sixteen cases says yes exactly where every integer that passes the one test passes the other.
pub fn table_is_right()
    ensures { TableIsRight }
{}
