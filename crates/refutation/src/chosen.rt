//! The check that a tree closes the box that some atoms of a key bound.

ghost use Rattle.std.specs.Prelude.{◌≡◌, ◌↔◌, length, IfOk, IsTrue};
ghost use Rattle.refutation.specs.Chosen.{ClosesBox, chosen_box};

use crate::bounds::Bounds;
use crate::checker::close_all;
use crate::fault::TreeFault;
use crate::leaf::LeafTerm;
use crate::node::Node;
use crate::walk::Walk;
use lin_model::Key;
use outside::NoMemory;
use std::alloc::Global;

/// Whether a tree, by its numbers in the whole key, closes the box that the chosen atoms bound: each node may stand where
/// it does, and the last of them closes the last box with no term to spare. The choice has one flag for each atom, true
/// where it is chosen. Only want of memory may come instead.
pub fn closes_chosen(
    alloc: Global,
    key: &Key,
    choice: &[bool],
    nodes: &[Node],
    terms: &[LeafTerm],
) -> Result<bool, NoMemory>
    requires { length choice.now ≡ length key.now }
    ensures { IfOk result (λ closed. IsTrue closed
        ↔ ClosesBox key.now (chosen_box key.now choice.now) nodes.now terms.now) }
{
    let walk = Walk::new(alloc, Bounds::of_chosen(key, choice));
    match close_all(walk, key, nodes, terms) {
        Ok(()) => Ok(true),
        Err(TreeFault::NoMemory) => Err(NoMemory),
        Err(_) => Ok(false),
    }
}
