//! What closes a box, what a tree refutes, and that a refuted key has no integer point.
#![tactic(auto)]

mod bounds;
mod checker;
mod chosen;
mod closing;
mod comparison;
mod fault;
mod glance;
mod laws;
mod leaf;
mod node;
mod one_side;
mod side;
mod sum;
mod tree;
mod turn;
mod value;
mod walk;

pub use bounds::Bounds;
pub use checker::refutes;
pub use chosen::closes_chosen;
pub use closing::{closes, fixed_closes, weight};
pub use comparison::{Comparison, closes_alone, comparison_of};
pub use fault::TreeFault;
pub use glance::{closed_by_one_atom, closed_by_sum_of_two};
pub use laws::{
    bounded_keys_are_boxed, combinations_are_positive, cuts_are_tight, cuts_keep_points,
    cuts_leave_proper_halves, each_tree_has_one_answer, glances_try_units, key_bounds_are_short,
    open_trees_are_below_room, refuted_keys_have_no_point, roots_of_models_stay_open,
};
pub use leaf::{Leaf, LeafTerm, On};
pub use node::Node;
pub use side::Side;
pub use tree::Tree;
