//! Tables of rows: calls with their arguments, each with the answer that is expected.
#![tactic(auto)]

mod escapes;
mod table;

pub use escapes::{escaped, unescaped};
pub use table::{RowFault, Subject, check_table};
