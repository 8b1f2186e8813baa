//! Exchanges of columns and rows, and the combination that a row comes to which none can mend.

use crate::column::Column;
use crate::row::{MAX_TIGHT, Row};
use crate::tableau::{Eliminated, Failing, Tableau};
use arrayvec::ArrayVec;
use refutation::LeafTerm;

impl Tableau {
    /// The first column that could bring a failing row nearer to where it holds.
    pub fn entering(&self, failing: &Failing, row: &Row) -> Option<usize> {
        for column in 0..self.used() {
            let coef = row.coef(column);
            let stands = self.column(column);
            let falls = failing.too_high == (coef > 0);
            if coef != 0 && (if falls { stands.falls } else { stands.rises }) {
                return Some(column);
            }
        }
        None
    }

    /// Puts the entering column in the place of what fails, which from then on is a column that stands where it holds. Its
    /// row becomes that of the entering column.
    pub fn pivot(&mut self, failing: &Failing, row: &mut Row, entering: usize) -> Option<()> {
        let sign = row.coef(entering).signum();
        let leaving = self.leaving(failing, entering)?;
        if sign < 0 {
            row.negate(self.used())?;
        }
        let scale = row.coef(entering);
        self.take_out(entering, leaving, sign, row)?;
        row.negate(self.used())?;
        row.set(entering, 0);
        row.set(leaving, self.denominator.checked_mul(sign)?);
        self.replace(failing, entering, row)?;
        self.stand(entering, Column::STILL);
        self.stand(leaving, failing.stands);
        self.denominator = scale;
        self.settle()
    }

    /// The combination of a failing row that no column can bring nearer: the comparison that fails and those held
    /// tight, each by its weight in the row, where the denominator is that of what fails.
    pub fn combination(&self, failing: &Failing, row: &Row) -> Option<ArrayVec<LeafTerm, 8>> {
        let sign = if failing.too_high { 1 } else { -1 };
        let mut terms = ArrayVec::new();
        let weight = self.denominator.checked_mul(sign)?;
        add_weighted(&mut terms, failing.stands, weight)?;
        for column in self.width..self.used() {
            let weight = row.coef(column).checked_mul(-sign)?;
            add_weighted(&mut terms, self.column(column), weight)?;
        }
        Some(terms)
    }

    /// Takes the entering column out of all rows, by the pivot's row.
    fn take_out(&mut self, entering: usize, leaving: usize, sign: i64, pivot: &Row) -> Option<()> {
        let scale = pivot.coef(entering);
        let denominator = self.denominator;
        let used = self.used();
        for place in 0..MAX_TIGHT {
            if let Some(eliminated) = &mut self.rows[place] {
                let row = &mut eliminated.row;
                let factor = row.coef(entering);
                row.take_out(factor, pivot, scale, denominator, used)?;
                row.set(leaving, factor.checked_mul(sign)?);
            }
        }
        Some(())
    }

    /// The column that what fails is to have: a variable its own; a comparison that of the tight one whose place it
    /// takes, or else a free one.
    fn leaving(&self, failing: &Failing, entering: usize) -> Option<usize> {
        if let Some((_, var)) = failing.eliminated {
            return Some(usize::from(var));
        }
        if entering >= self.width {
            return Some(entering);
        }
        for column in self.width..self.used() {
            if self.column(column).tight.is_none() {
                return Some(column);
            }
        }
        None
    }

    /// Puts the row of the entering variable in the place of what fails, or in a free one. A tight comparison needs no
    /// row where it isn't tight any more.
    fn replace(&mut self, failing: &Failing, entering: usize, row: &Row) -> Option<()> {
        let entered = if entering < self.width {
            let var = u8::try_from(entering).ok()?;
            Some(Eliminated { var, row: *row })
        } else {
            None
        };
        match failing.eliminated {
            Some((place, _)) => self.put(place, entered),
            None if entered.is_some() => {
                let place = self.rows.iter().position(|row| row.is_none())?;
                self.put(place, entered);
            }
            None => {}
        }
        Some(())
    }
}

/// Adds the term of a tight comparison with this weight; nothing for a column that is none, or a weight of 0.
fn add_weighted(terms: &mut ArrayVec<LeafTerm, 8>, column: Column, weight: i64) -> Option<()> {
    let Some(on) = column.tight else {
        return Some(());
    };
    if weight == 0 {
        return Some(());
    }
    if terms.is_full() {
        return None;
    }
    let factor = if column.rises {
        weight.checked_neg()?
    } else {
        weight
    };
    terms.push(LeafTerm { on, factor });
    Some(())
}
