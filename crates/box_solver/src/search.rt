//! The search itself.

ghost use Rattle.std.specs.Prelude.{◌≡◌, ◌≤◌, []};
ghost use Rattle.refutation.specs.Boxed.{IsBoxed};
ghost use Rattle.box_solver.specs.Region.{IsReserved};
ghost use Rattle.box_solver.specs.Answer.{Answers};

use crate::corner::lowest_corner;
use crate::found::Found;
use crate::position::Position;
use crate::region::TreeRegion;
use crate::step_by::step;
use crate::write::{empty_trail, enter, leave_open, push_leaf};
use combos::find_combo;
use lin_model::Key;
use refutation::{cuts_leave_proper_halves, open_trees_are_below_room};
use tree_pool::MAX_SPLITS;

/// Searches for a point that satisfies the key, with at most `budget` splits, and appends the search's tree to the region.
///
/// A box is closed where an atom, the sum of two or a longer combination closes it. Its lowest corner, every variable at
/// its lower side, is the model where it satisfies the key; and otherwise the box is split by the first atom that the
/// corner fails. `Spent` comes where a box must be split and the budget is used up; then this box and all others that
/// are left are marked `Left`. It never comes where the budget is at least the room of the key.
///
/// The region has to be reserved for the budget, and its trail has to be empty, as it is again at the end. What stood in it
/// stays. No memory is taken.
pub fn solve(key: &Key, budget: u32, region: &mut TreeRegion) -> Found
    requires boxed { IsBoxed key.now }
    requires some { 1 ≤ budget }
    requires few { budget ≤ MAX_SPLITS }
    requires reserved { IsReserved budget region.old }
    requires trail { region.old.trail ≡ [] }
    ensures { Answers key.now budget region.old region.new result }
{
    open_trees_are_below_room();
    cuts_leave_proper_halves();
    let mut position = Position::root(key);
    let mut splits = 0;
    'boxes: loop {
        if let Some(leaf) = find_combo(key, position.bounds(), position.sides()) {
            push_leaf(region, &leaf);
            if !position.go_on(region) {
                return Found::Refuted;
            }
            continue;
        }
        let Some(node) = step(key, position.bounds(), position.sides()) else {
            empty_trail(region);
            return Found::Model(lowest_corner(key, position.bounds()));
        };
        if splits == budget {
            leave_open(region);
            return Found::Spent;
        }
        enter(&mut position, region, node);
        splits += 1;
    }
}
