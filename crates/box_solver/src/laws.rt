//! Laws of the search's answers, each the contract of a function that only calls such laws of a crate below.

ghost use Rattle.box_solver.specs.Laws.{EachHasAnswer, CornerIsAnswer};

use refutation::{
    cuts_leave_proper_halves, glances_try_units, key_bounds_are_short, open_trees_are_below_room,
    roots_of_models_stay_open,
};

/// Every boxed key has an answer, whatever the budget: a model, a refutation or a spent tree as `solve` promises them.
pub fn answers_exist()
    ensures { EachHasAnswer }
{
    open_trees_are_below_room();
    cuts_leave_proper_halves();
    glances_try_units();
    key_bounds_are_short();
}

/// Where the lowest corner of a key's bounds satisfies the key, nothing but that corner answers it.
pub fn corner_is_answer()
    ensures { CornerIsAnswer }
{
    roots_of_models_stay_open();
}
