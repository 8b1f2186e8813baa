//! Bounds: how far down and how far up each of 64 variables may go.

ghost use Rattle.std.specs.Prelude.{◌≡◌, ◌==◌, if◌then◌else◌, None, replicate, slice_set, ◌+◌, ◌^◌, ◌<◌, ◌≤◌, ℕ};
ghost use Rattle.std.specs.Prelude.{unsigned_abs, IfSome, length};
ghost use Rattle.lin_model.specs.KeyAtom.{AscendsBelow64};
ghost use Rattle.lin_model.specs.Key.{IsKey};
ghost use Rattle.refutation.specs.Boxed.{HasShortSides};
ghost use Rattle.refutation.specs.Chosen.{chosen};
ghost use Rattle.refutation.specs.Cut.{others};
ghost use Rattle.refutation.specs.Bounds.{AreBounds, IsSide, lower_of, upper_of, lower_from, upper_from, tighter_lower};
ghost use Rattle.refutation.specs.Bounds.{tighter_upper, with_lower, with_upper, key_bounds, is_empty, least, greatest};

use crate::one_side::{crosses, lower_by, tighter_lower, tighter_upper, upper_by, variable_alone};
use crate::value::{least_besides, least_within};
use lin_model::{Form, Key, KeyAtom};
use std::marker::Model;

/// The sides of the variables 0 to 63: the least value that a variable may take, and the greatest. Either may be
/// missing, which is None; one that is there is no larger than 2^32 + 1 in size.
#[derive(Debug, Drop)]
pub struct Bounds {
    lo: [Option<i64>; 64],
    hi: [Option<i64>; 64],
}

impl Model for Bounds {
    ghost use Rattle.refutation.specs.Bounds.{PlainBounds, AreBounds};

    ghost Value = { PlainBounds };

    ghost view = { λ b. record { lower = b.lo; upper = b.hi } };

    ghost invariant = { λ b. AreBounds (record { lower = b.lo; upper = b.hi }) };
}

impl Bounds {
    /// The bounds that the one-variable atoms of a key give, the tightest of each kind, and never tighter than their
    /// atoms: a constant beyond 2^32 is brought to 2^32, or gives no side where it bounds nothing within.
    pub fn of(key: &Key) -> Bounds
        ensures bounds { result ≡ key_bounds key.now }
        ensures sides { HasShortSides result }
        ensures key { IsKey key.now }
    {
        let mut bounds = Bounds::unbounded();
        for atom in key.atoms() {
            bounds.tighten(atom);
        }
        // A look at a field opens the bounds, so that the limits which the type keeps are known of them.
        let _ = &bounds.lo;
        bounds
    }

    /// The bounds of the chosen atoms of a key, those at whose place the choice has true.
    pub(crate) fn of_chosen(key: &Key, choice: &[bool]) -> Bounds
        requires { length choice.now ≡ length key.now }
        ensures { result ≡ key_bounds (chosen key.now choice.now) }
    {
        let mut bounds = Bounds::unbounded();
        for (place, atom) in key.atoms().iter().enumerate() {
            if choice[place] {
                bounds.tighten(atom);
            }
        }
        // A look at a field opens the bounds, so that the limits which the type keeps are known of them.
        let _ = &bounds.lo;
        bounds
    }

    /// No side at all.
    fn unbounded() -> Bounds
        ensures lower { (v : ℕ) → lower_of result v ≡ None }
        ensures upper { (v : ℕ) → upper_of result v ≡ None }
    {
        Bounds {
            lo: missing_sides(),
            hi: missing_sides(),
        }
    }

    /// Tightens the bounds by the sides that this atom gives.
    fn tighten(&mut self, atom: &KeyAtom)
        ensures lower { (v : ℕ) → v < 64 → lower_of self.new v
            ≡ tighter_lower (lower_of self.old v) (lower_from atom.now v) }
        ensures upper { (v : ℕ) → v < 64 → upper_of self.new v
            ≡ tighter_upper (upper_of self.old v) (upper_from atom.now v) }
    {
        if let Some(var) = variable_alone(atom.form()) {
            self.tighten_lower(var, lower_by(atom.op(), atom.constant()));
            self.tighten_upper(var, upper_by(atom.op(), atom.constant()));
        }
    }

    /// Tightens the lower side of a variable by this one, if there is one.
    fn tighten_lower(&mut self, var: u8, side: Option<i64>)
        requires var { var < 64 }
        requires side { IsSide side }
        ensures lower { (v : ℕ) → v < 64 → lower_of self.new v
            ≡ tighter_lower (lower_of self.old v) (if var == v then side else None) }
        ensures upper { self.new.upper ≡ self.old.upper }
    {
        if let Some(to) = side {
            self.raise_lower(var, to);
        }
    }

    /// Tightens the upper side of a variable by this one, if there is one.
    fn tighten_upper(&mut self, var: u8, side: Option<i64>)
        requires var { var < 64 }
        requires side { IsSide side }
        ensures upper { (v : ℕ) → v < 64 → upper_of self.new v
            ≡ tighter_upper (upper_of self.old v) (if var == v then side else None) }
        ensures lower { self.new.lower ≡ self.old.lower }
    {
        if let Some(to) = side {
            self.lower_upper(var, to);
        }
    }

    /// Whether some lower side is above its upper side.
    pub fn is_empty(&self) -> bool
        ensures { result ≡ is_empty self.now }
    {
        any_crosses(&self.lo, &self.hi)
    }

    /// The least value that a form takes within the bounds, or None exactly where that hangs on a side that isn't
    /// there.
    pub fn least(&self, form: &Form) -> Option<i128>
        requires { AscendsBelow64 form.now }
        ensures { result ≡ least form.now self.now }
    {
        least_within(form.terms(), &self.lo, &self.hi)
    }

    /// The greatest value that a form takes within the bounds, or None exactly where that hangs on a side that isn't
    /// there.
    pub fn greatest(&self, form: &Form) -> Option<i128>
        requires { AscendsBelow64 form.now }
        ensures { result ≡ greatest form.now self.now }
    {
        least_within(form.terms(), &self.hi, &self.lo)
    }

    /// The least value that the terms of a form on other variables than this one take within the bounds, or None exactly
    /// where that hangs on a side that isn't there.
    pub fn least_besides(&self, form: &Form, var: u8) -> Option<i128>
        requires { AscendsBelow64 form.now }
        ensures value { result ≡ least (others form.now var) self.now }
        ensures size { IfSome result (λ n. unsigned_abs n ≤ 2 ^ 120) }
    {
        least_besides(form.terms(), var, &self.lo, &self.hi)
    }

    /// The greatest value that the terms of a form on other variables than this one take within the bounds, or None
    /// exactly where that hangs on a side that isn't there.
    pub fn greatest_besides(&self, form: &Form, var: u8) -> Option<i128>
        requires { AscendsBelow64 form.now }
        ensures value { result ≡ greatest (others form.now var) self.now }
        ensures size { IfSome result (λ n. unsigned_abs n ≤ 2 ^ 120) }
    {
        least_besides(form.terms(), var, &self.hi, &self.lo)
    }

    /// The law that bounds keep their limits: 64 variables, and sides of at most 2^32 + 1 in size.
    pub fn keeps_limits(&self)
        ensures { AreBounds self.now }
    {
        let _lower = &self.lo;
    }

    /// The lower side of a variable, None where it is missing.
    pub fn lower(&self, var: u8) -> Option<i64>
        requires { var < 64 }
        ensures value { result ≡ lower_of self.now var }
        ensures side { IsSide result }
    {
        self.lo[usize::from(var)]
    }

    /// The upper side of a variable, None where it is missing.
    pub fn upper(&self, var: u8) -> Option<i64>
        requires { var < 64 }
        ensures value { result ≡ upper_of self.now var }
        ensures side { IsSide result }
    {
        self.hi[usize::from(var)]
    }

    /// Puts this side, or none, in the place of a variable's lower side.
    pub fn set_lower(&mut self, var: u8, side: Option<i64>)
        requires var { var < 64 }
        requires side { IsSide side }
        ensures { self.new ≡ record self.old { lower = slice_set self.old.lower var side } }
    {
        self.lo[usize::from(var)] = side;
    }

    /// Puts this side, or none, in the place of a variable's upper side.
    pub fn set_upper(&mut self, var: u8, side: Option<i64>)
        requires var { var < 64 }
        requires side { IsSide side }
        ensures { self.new ≡ record self.old { upper = slice_set self.old.upper var side } }
    {
        self.hi[usize::from(var)] = side;
    }

    /// Raises the lower side of a variable to `to`, unless it is tighter already.
    pub fn raise_lower(&mut self, var: u8, to: i64)
        requires var { var < 64 }
        requires to { unsigned_abs to ≤ 2 ^ 32 + 1 }
        ensures after { self.new ≡ with_lower self.old var to }
        ensures limits { AreBounds self.new }
    {
        let side = self.lo[usize::from(var)];
        self.lo[usize::from(var)] = Some(tighter_lower(side, to));
    }

    /// Lowers the upper side of a variable to `to`, unless it is tighter already.
    pub fn lower_upper(&mut self, var: u8, to: i64)
        requires var { var < 64 }
        requires to { unsigned_abs to ≤ 2 ^ 32 + 1 }
        ensures after { self.new ≡ with_upper self.old var to }
        ensures limits { AreBounds self.new }
    {
        let side = self.hi[usize::from(var)];
        self.hi[usize::from(var)] = Some(tighter_upper(side, to));
    }
}

/// 64 missing sides.
fn missing_sides() -> [Option<i64>; 64]
    ensures { result ≡ replicate 64 None }
{
    [None; 64]
}

/// Whether the lower side of some variable is above its upper side.
fn any_crosses(lo: &[Option<i64>; 64], hi: &[Option<i64>; 64]) -> bool
    ensures { result ≡ is_empty (record { lower = lo.now; upper = hi.now }) }
{
    for var in 0..64 {
        if crosses(lo[var], hi[var]) {
            return true;
        }
    }
    false
}
