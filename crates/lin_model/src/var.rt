//! Variables with their bounds.

ghost use Rattle.std.specs.Prelude.{◌≡◌, ◌↔◌, IsTrue};
ghost use Rattle.lin_model.specs.Terms.{PlainVar, VarFits};
ghost use Rattle.lin_model.specs.Truth.{InBounds};

use crate::name::Name;
use std::alloc::AllocError;
use std::marker::Model;

/// The greatest size of a bound.
pub const MAX_BOUND: u64 = 1 << 31;

/// A variable: its name, and its bounds `lo` to `hi`, both included, with -2^31 <= lo <= hi <= 2^31.
#[derive(Debug, Drop)]
pub struct Var {
    name: Name,
    lo: i64,
    hi: i64,
}

impl Model for Var {
    ghost use Rattle.lin_model.specs.Terms.{PlainVar, VarFits};

    ghost Value = { PlainVar };

    ghost view = { λ var. record { name = var.name; lo = var.lo; hi = var.hi } };

    ghost invariant = { λ var. VarFits (record { name = var.name; lo = var.lo; hi = var.hi }) };
}

impl Clone for Var {
    /// A copy equals what it was made of.
    ghost is_clone = { λ var copy. copy ≡ var };

    fn clone(&self) -> Result<Var, AllocError> {
        Ok(Var {
            name: self.name.clone()?,
            lo: self.lo,
            hi: self.hi,
        })
    }
}

impl Var {
    /// The variable of this name with these bounds, both included.
    pub fn new(name: Name, lo: i64, hi: i64) -> Var
        requires { VarFits (record { name = name; lo = lo; hi = hi }) }
        ensures { result ≡ record { name = name; lo = lo; hi = hi } }
    {
        Var { name, lo, hi }
    }

    /// The name.
    pub fn name(&self) -> &Name
        ensures { result.now ≡ self.now.name }
    {
        &self.name
    }

    /// The least value.
    pub fn lo(&self) -> i64
        ensures lo { result ≡ self.now.lo }
        ensures fits { VarFits self.now }
    {
        self.lo
    }

    /// The greatest value.
    pub fn hi(&self) -> i64
        ensures hi { result ≡ self.now.hi }
        ensures fits { VarFits self.now }
    {
        self.hi
    }

    /// Whether the value is within the bounds.
    pub fn contains(&self, value: i64) -> bool
        ensures { IsTrue result ↔ InBounds self.now value }
    {
        self.lo <= value && value <= self.hi
    }
}
