//! Why a tree refutes nothing.

ghost use Rattle.std.specs.Prelude.{◌≡◌};

use outside::NoMemory;
use std::error::Error;
use std::fmt;

/// Why the check of a tree said no.
#[derive(Clone, Copy, Debug, PartialEq, Eq)]
pub enum TreeFault {
    /// The number, from 0, of the first node that may not stand where it does: a box is undecided there, and the node
    /// is unlawful or a leaf that leaves this box open.
    NodeFails(u64),
    /// The nodes are used up, and some box is still undecided.
    TreeEnds,
    /// All boxes are closed, and nodes or terms are still to come.
    TreeGoesOn,
    /// Memory ran out, which says nothing of the tree.
    NoMemory,
}

impl fmt::Display for TreeFault {
    fn fmt<W: fmt::Write>(&self, f: &mut fmt::Formatter<W>) -> fmt::Result {
        match self {
            TreeFault::NodeFails(node) => write!(f, "node {node} fails"),
            TreeFault::TreeEnds => write!(f, "the tree ends while a box is undecided"),
            TreeFault::TreeGoesOn => write!(f, "the tree goes on after every box is closed"),
            TreeFault::NoMemory => write!(f, "out of memory"),
        }
    }
}

impl Error for TreeFault {}

impl From<NoMemory> for TreeFault {
    ghost use Rattle.refutation.specs.declared.fault.TreeFault.TheVariants.{NoMemory as Memory};

    ghost from_gives = { λ _ e. e ≡ Memory };

    fn from(_: NoMemory) -> TreeFault {
        TreeFault::NoMemory
    }
}
