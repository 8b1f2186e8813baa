//! The search for a point that satisfies a key: a model, a refutation, or an open tree of as many splits as the budget.
#![tactic(auto)]

mod boxed;
mod corner;
mod cut_by;
mod found;
mod laws;
mod position;
mod region;
mod search;
mod sides;
mod step_by;
mod tighter_side;
mod turn;
mod write;

pub use boxed::is_boxed;
pub use cut_by::cut;
pub use found::Found;
pub use laws::{answers_exist, corner_is_answer};
pub use region::TreeRegion;
pub use search::solve;
pub use step_by::step;
pub use tighter_side::TighterSide;
