//! Comparisons as they are written.

ghost use Rattle.std.specs.Prelude.{◌≡◌, ◌↔◌, IsTrue};
ghost use Rattle.lin_model.specs.Truth.{AtomHolds, Compares};

use crate::term::Expr;
use std::alloc::AllocError;

/// How the two sides of an atom are compared.
#[derive(Clone, Copy, Debug, PartialEq, Eq)]
pub enum Cmp {
    /// `<=`
    Le,
    /// `<`
    Lt,
    /// `>=`
    Ge,
    /// `>`
    Gt,
    /// `=`
    Eq,
    /// `!=`
    Ne,
}

/// One comparison of two sides, as written.
#[derive(Debug, Drop)]
pub struct Atom {
    /// The side before the sign.
    pub left: Expr,
    /// The sign.
    pub cmp: Cmp,
    /// The side behind it.
    pub right: Expr,
}

impl Cmp {
    /// Whether two numbers compare so.
    fn compares(self, left: i128, right: i128) -> bool
        ensures { IsTrue result ↔ Compares self left right }
    {
        match self {
            Cmp::Le => left <= right,
            Cmp::Lt => left < right,
            Cmp::Ge => left >= right,
            Cmp::Gt => left > right,
            Cmp::Eq => left == right,
            Cmp::Ne => left != right,
        }
    }
}

impl Clone for Atom {
    /// A copy equals what it was made of.
    ghost is_clone = { λ atom copy. copy ≡ atom };

    fn clone(&self) -> Result<Atom, AllocError> {
        let left = self.left.clone()?;
        let right = self.right.clone()?;
        Ok(Atom {
            left,
            cmp: self.cmp,
            right,
        })
    }
}

impl Atom {
    /// Whether the atom holds, where `values` has one value for each variable.
    pub fn holds(&self, values: &[i64]) -> bool
        ensures { IsTrue result ↔ AtomHolds self.now values.now }
    {
        self.cmp
            .compares(self.left.value(values), self.right.value(values))
    }
}
