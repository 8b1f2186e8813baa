//! A tableau of the simplex method over bounds, with rows for the eliminated variables alone.
//!
//! Each variable stands at one of its sides, or is eliminated: then a row says what it is by the other columns. A
//! comparison may be held tight, as `form = constant`; it has a column behind those of the variables, which is
//! `form - constant` and stands at 0. There are as many tight comparisons as eliminated variables.

use crate::column::{Column, both_sides};
use crate::row::{MAX_COLUMNS, MAX_TIGHT, Row, product};
use lin_model::{Key, Op};
use refutation::{Bounds, Comparison, On};

/// An eliminated variable and its row.
#[derive(Clone, Copy)]
pub struct Eliminated {
    /// The number of the variable.
    pub var: u8,
    /// What it is by the columns.
    pub row: Row,
}

/// What fails where the columns stand: its row is too high or too low.
#[derive(Clone, Copy)]
pub struct Failing {
    /// Whether it is too high.
    pub too_high: bool,
    /// Where it will stand as a column.
    pub stands: Column,
    /// The place in the list and the number, where it is an eliminated variable.
    pub eliminated: Option<(usize, u8)>,
}

/// The columns, the rows, and the denominator that all rows share.
#[derive(Drop)]
pub struct Tableau {
    /// Where the columns stand. Those of eliminated variables stand still at 0.
    pub columns: [Column; MAX_COLUMNS],
    /// The eliminated variables.
    pub rows: [Option<Eliminated>; MAX_TIGHT],
    /// What all rows are multiplied by.
    pub denominator: i64,
    /// How many variables there are.
    pub width: usize,
    /// The values of all variables, times the denominator.
    values: [i64; 64],
}

impl Tableau {
    /// The tableau with each variable at its lower side. None where a side is missing.
    pub fn at_corner(key: &Key, bounds: &Bounds) -> Option<Tableau> {
        let mut columns = [Column::STILL; MAX_COLUMNS];
        let mut values = [0; 64];
        for var in 0..key.width() {
            let (lower, upper) = both_sides(bounds, var)?;
            columns[usize::from(var)] = Column::at_side(lower, upper, false);
            values[usize::from(var)] = lower;
        }
        Some(Tableau {
            columns,
            rows: [None; MAX_TIGHT],
            denominator: 1,
            width: usize::from(key.width()),
            values,
        })
    }

    /// How many columns are used.
    pub fn used(&self) -> usize {
        self.width.min(64) + MAX_TIGHT
    }

    /// The column of this number.
    pub fn column(&self, column: usize) -> Column {
        if column < MAX_COLUMNS {
            self.columns[column]
        } else {
            Column::STILL
        }
    }

    /// Puts a column in its place.
    pub fn stand(&mut self, column: usize, stands: Column) {
        if column < MAX_COLUMNS {
            self.columns[column] = stands;
        }
    }

    /// Puts an eliminated variable, or none, in a place of the list.
    pub fn put(&mut self, place: usize, eliminated: Option<Eliminated>) {
        if place < MAX_TIGHT {
            self.rows[place] = eliminated;
        }
    }

    /// The eliminated variable at this place of the list, if it is beyond a side, and its row in `row`.
    pub fn failing_variable(
        &self,
        place: usize,
        bounds: &Bounds,
        row: &mut Row,
    ) -> Option<Failing> {
        let eliminated = self.rows.get(place)?.as_ref()?;
        let (lower, upper) = both_sides(bounds, eliminated.var)?;
        let value = i128::from(self.value(eliminated.var));
        let too_high = value > product(self.denominator, upper);
        if !too_high && value >= product(self.denominator, lower) {
            return None;
        }
        *row = eliminated.row;
        Some(Failing {
            too_high,
            stands: Column::at_side(lower, upper, too_high),
            eliminated: Some((place, eliminated.var)),
        })
    }

    /// The comparison that a term names, if it fails, and its row in `row`.
    #[inline]
    pub fn failing_comparison(
        &self,
        on: On,
        comparison: Comparison<'_>,
        row: &mut Row,
    ) -> Option<Failing> {
        let above = self.above(comparison)?;
        let fails = match comparison.op {
            Op::Le => above > 0,
            Op::Ge => above < 0,
            Op::Eq => above != 0,
            Op::Ne => false,
        };
        if !fails {
            return None;
        }
        self.write_row(comparison, row)?;
        Some(Failing {
            too_high: above > 0,
            stands: Column::held(on, comparison.op),
            eliminated: None,
        })
    }

    /// Works out the values of the variables: those of the columns, and of the eliminated ones by their rows.
    pub fn settle(&mut self) -> Option<()> {
        for var in 0..self.width.min(64) {
            self.values[var] = self.columns[var].value.checked_mul(self.denominator)?;
        }
        self.settle_eliminated()
    }

    /// Works out the values of the eliminated variables.
    fn settle_eliminated(&mut self) -> Option<()> {
        let used = self.used();
        for place in 0..MAX_TIGHT {
            if let Some(eliminated) = &self.rows[place] {
                let value = eliminated.row.value(&self.columns, used)?;
                let var = usize::from(eliminated.var);
                if var < 64 {
                    self.values[var] = value;
                }
            }
        }
        Some(())
    }

    /// The value of a variable as it was worked out.
    fn value(&self, var: u8) -> i64 {
        if var < 64 {
            self.values[usize::from(var)]
        } else {
            0
        }
    }

    /// The row of a variable, if it is eliminated.
    fn row(&self, var: u8) -> Option<&Row> {
        for place in 0..MAX_TIGHT {
            if let Some(eliminated) = &self.rows[place] {
                if eliminated.var == var {
                    return Some(&eliminated.row);
                }
            }
        }
        None
    }

    /// How far a comparison's form is above its constant, times the denominator.
    fn above(&self, comparison: Comparison<'_>) -> Option<i128> {
        let mut sum = product(self.denominator, comparison.constant).checked_neg()?;
        for term in comparison.form.terms() {
            sum = sum.checked_add(product(term.coef, self.value(term.var)))?;
        }
        Some(sum)
    }

    /// Writes the row of a comparison's form less its constant.
    #[inline(never)]
    fn write_row(&self, comparison: Comparison<'_>, row: &mut Row) -> Option<()> {
        let constant = self.denominator.checked_mul(comparison.constant)?;
        *row = Row::of(constant.checked_neg()?);
        for term in comparison.form.terms() {
            match self.row(term.var) {
                Some(by) => row.add(term.coef, by, self.used())?,
                None => {
                    let coef = self.denominator.checked_mul(term.coef)?;
                    row.add_column(usize::from(term.var), coef)?;
                }
            }
        }
        Some(())
    }
}
