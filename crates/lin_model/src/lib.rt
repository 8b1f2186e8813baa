//! Conditions over bounded integer variables, canonical keys and points, and what makes them true.
#![tactic(auto)]

mod atom;
mod condition;
mod form;
mod gcd;
mod key;
mod key_atom;
mod limits;
mod name;
mod op;
mod order;
mod point;
mod session;
mod term;
mod var;

pub use atom::{Atom, Cmp};
pub use condition::{Condition, MAX_ATOMS, MAX_VARS};
pub use form::{Form, FormTerm};
pub use gcd::gcd_of;
pub use key::{Key, MAX_KEY_ATOMS};
pub use key_atom::{COEF_LIMIT, CONSTANT_LIMIT, KeyAtom, MAX_KEY_VARS};
pub use limits::fits;
pub use name::{MAX_NAME, Name, begins_name, continues_name, is_name, is_reserved};
pub use op::Op;
pub use order::{cmp_atoms, order_is_total};
pub use point::{MAX_SIDE, MAX_VALUE, MAX_VALUES, Point};
pub use session::{MAX_EXECUTORS, MAX_QUERIES, Script, Session};
pub use term::{Expr, MAX_CONSTANT, MAX_FACTOR, MAX_TERMS, Term};
pub use var::{MAX_BOUND, Var};
