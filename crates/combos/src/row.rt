//! Rows of a tableau, in whole numbers. Each sum is checked: a row that would grow beyond 64 bits is given up.

ghost use Rattle.std.specs.Prelude.{◌≡◌, ◌*ℤ◌, ◌^◌, ◌≤◌, unsigned_abs};

use crate::column::Column;

/// How many comparisons are held tight at most: with one more that fails they make a combination of eight.
pub const MAX_TIGHT: usize = 7;

/// The most columns: 64 variables, and behind them the comparisons that are held tight.
pub const MAX_COLUMNS: usize = 64 + MAX_TIGHT;

/// `denominator * x = constant + the sum of coefs[c] * column c`, with the denominator of the tableau. Only the first
/// columns are used, as many as the caller says.
#[derive(Clone, Copy)]
pub struct Row {
    coefs: [i64; MAX_COLUMNS],
    /// What is added.
    pub constant: i64,
}

impl Row {
    /// The row of a constant.
    pub fn of(constant: i64) -> Row {
        Row {
            coefs: [0; MAX_COLUMNS],
            constant,
        }
    }

    /// The coefficient of a column, 0 where there is no such column.
    pub fn coef(&self, column: usize) -> i64 {
        if column < MAX_COLUMNS {
            self.coefs[column]
        } else {
            0
        }
    }

    /// Puts a coefficient in the place of a column's, where there is such a column.
    pub fn set(&mut self, column: usize, coef: i64) {
        if column < MAX_COLUMNS {
            self.coefs[column] = coef;
        }
    }

    /// Adds to the coefficient of a column.
    pub fn add_column(&mut self, column: usize, coef: i64) -> Option<()> {
        let sum = self.coef(column).checked_add(coef)?;
        self.set(column, sum);
        Some(())
    }

    /// Adds a multiple of another row.
    pub fn add(&mut self, multiple: i64, other: &Row, used: usize) -> Option<()> {
        self.constant = plus(self.constant, multiple, other.constant)?;
        for column in 0..used.min(MAX_COLUMNS) {
            self.coefs[column] = plus(self.coefs[column], multiple, other.coefs[column])?;
        }
        Some(())
    }

    /// Becomes its negative.
    pub fn negate(&mut self, used: usize) -> Option<()> {
        self.constant = self.constant.checked_neg()?;
        for column in 0..used.min(MAX_COLUMNS) {
            self.coefs[column] = self.coefs[column].checked_neg()?;
        }
        Some(())
    }

    /// Takes out the column of which this row has `factor`, by the row `pivot` that has `scale` of it: it becomes
    /// `(scale * row - factor * pivot) / denominator`. The quotient has no rest where both are rows of one tableau.
    pub fn take_out(
        &mut self,
        factor: i64,
        pivot: &Row,
        scale: i64,
        denominator: i64,
        used: usize,
    ) -> Option<()> {
        if factor == 0 && scale == denominator {
            return Some(());
        }
        self.constant = reduced(scale, self.constant, factor, pivot.constant, denominator)?;
        for column in 0..used.min(MAX_COLUMNS) {
            let coef = self.coefs[column];
            self.coefs[column] = reduced(scale, coef, factor, pivot.coefs[column], denominator)?;
        }
        Some(())
    }

    /// The sum of the constant and of each coefficient times the value of its column.
    pub fn value(&self, columns: &[Column; MAX_COLUMNS], used: usize) -> Option<i64> {
        let mut sum = i128::from(self.constant);
        for column in 0..used.min(MAX_COLUMNS) {
            let coef = self.coefs[column];
            if coef != 0 {
                sum = sum.checked_add(product(coef, columns[column].value))?;
            }
        }
        i64::try_from(sum).ok()
    }
}

/// `a + multiple * b`.
fn plus(a: i64, multiple: i64, b: i64) -> Option<i64> {
    a.checked_add(multiple.checked_mul(b)?)
}

/// `(scale * a - factor * b) / denominator`.
fn reduced(scale: i64, a: i64, factor: i64, b: i64, denominator: i64) -> Option<i64> {
    if a == 0 && (factor == 0 || b == 0) {
        return Some(0);
    }
    let wide = product(scale, a).checked_sub(product(factor, b))?;
    if denominator == 1 {
        return i64::try_from(wide).ok();
    }
    // A division of 128 bits costs many times one of 64.
    match i64::try_from(wide) {
        Ok(narrow) => narrow.checked_div(denominator),
        Err(_) => i64::try_from(wide.checked_div(i128::from(denominator))?).ok(),
    }
}

/// A product in 128 bits.
pub fn product(a: i64, b: i64) -> i128
    ensures value { result ≡ a *ℤ b }
    ensures size { unsigned_abs result ≤ 2 ^ 126 }
{
    i128::from(a) * i128::from(b)
}
