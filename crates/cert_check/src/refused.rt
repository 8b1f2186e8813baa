//! Why evidence is refused.
ghost use Rattle.std.specs.Prelude.{◌≡◌};

use refutation::TreeFault;
use std::error::Error;
use std::fmt;

/// Why evidence doesn't make an entry.
#[derive(Clone, Copy, Debug, PartialEq, Eq)]
pub enum Refused {
    /// The number, from 0, of the first atom of the key that fails at the point.
    PointFails(u32),
    /// The number, from 0, of the first node that may not stand where it does.
    NodeFails(u64),
    /// The nodes are used up, and some box is still undecided.
    TreeEnds,
    /// All boxes are closed, and nodes or terms are still to come.
    TreeGoesOn,
}

impl fmt::Display for Refused {
    fn fmt<W: fmt::Write>(&self, f: &mut fmt::Formatter<W>) -> fmt::Result {
        match self {
            Refused::PointFails(atom) => write!(f, "atom {atom} fails at the point"),
            Refused::NodeFails(node) => write!(f, "node {node} fails"),
            Refused::TreeEnds => write!(f, "the tree ends while a box is undecided"),
            Refused::TreeGoesOn => write!(f, "the tree goes on after every box is closed"),
        }
    }
}

impl Error for Refused {}

/// Why a key and a tree don't make an entry.
#[derive(Clone, Copy, Debug, PartialEq, Eq)]
pub enum NotUnsat {
    /// The tree doesn't refute the key.
    Refused(Refused),
    /// Memory ran out, which says nothing of the tree.
    NoMemory,
}

impl From<TreeFault> for NotUnsat {
    ghost use Rattle.std.specs.Prelude.{◌≡◌};
    ghost use Rattle.cert_check.specs.Refusals.{not_unsat_by};

    ghost from_gives = { λ fault e. e ≡ not_unsat_by fault };

    fn from(fault: TreeFault) -> NotUnsat {
        match fault {
            TreeFault::NodeFails(node) => NotUnsat::Refused(Refused::NodeFails(node)),
            TreeFault::TreeEnds => NotUnsat::Refused(Refused::TreeEnds),
            TreeFault::TreeGoesOn => NotUnsat::Refused(Refused::TreeGoesOn),
            TreeFault::NoMemory => NotUnsat::NoMemory,
        }
    }
}
