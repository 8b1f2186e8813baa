//! Columns of a tableau: where a variable or a comparison that is held tight stands.

use lin_model::Op;
use refutation::{Bounds, On};

/// Where a column stands, and whether it may go up or down from there.
#[derive(Clone, Copy)]
pub struct Column {
    /// Its value.
    pub value: i64,
    /// Whether greater values are allowed.
    pub rises: bool,
    /// Whether lesser values are allowed.
    pub falls: bool,
    /// The comparison that it stands for, where that is held tight.
    pub tight: Option<On>,
}

impl Column {
    /// A column that stands still at 0.
    pub const STILL: Column = Column {
        value: 0,
        rises: false,
        falls: false,
        tight: None,
    };

    /// A variable at its lower or at its upper side.
    pub fn at_side(lower: i64, upper: i64, at_upper: bool) -> Column {
        Column {
            value: if at_upper { upper } else { lower },
            rises: !at_upper && lower < upper,
            falls: at_upper && lower < upper,
            tight: None,
        }
    }

    /// A comparison that is held tight, by what is compared with 0.
    pub fn held(on: On, op: Op) -> Column {
        Column {
            value: 0,
            rises: op == Op::Ge,
            falls: op == Op::Le,
            tight: Some(on),
        }
    }
}

/// Both sides of a variable, None where one is missing.
pub fn both_sides(bounds: &Bounds, var: u8) -> Option<(i64, i64)> {
    if var < 64 {
        Some((bounds.lower(var)?, bounds.upper(var)?))
    } else {
        None
    }
}
