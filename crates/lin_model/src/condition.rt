//! Conditions: conjunctions of comparisons over bounded variables.

ghost use Rattle.std.specs.Prelude.{◌≡◌, ◌↔◌, ◌<◌, ℕ, IsTrue, All, length, IfSome, Contains};
ghost use Rattle.lin_model.specs.Terms.{PlainVar};
ghost use Rattle.lin_model.specs.Truth.{AtomHolds, IsAssignment};
ghost use Rattle.lin_model.specs.Conditions.{Fits, IsCondition, Holds, PlainCondition, NamesBelow, AtomNamesBelow};

use crate::atom::Atom;
use crate::limits::{atoms_keep_limits, vars_keep_limits};
use crate::term::Term;
use crate::var::Var;
use std::alloc::AllocError;
use std::marker::Model;

/// The most variables that a condition has.
pub const MAX_VARS: usize = 64;

/// The most atoms that a condition has.
pub const MAX_ATOMS: usize = 256;

/// A path condition: at most 64 variables of distinct names, and at most 256 atoms, all of which have
/// to hold. Variables and atoms are numbered from 0.
#[derive(Debug, Drop)]
pub struct Condition {
    vars: Vec<Var>,
    atoms: Vec<Atom>,
}

impl Model for Condition {
    ghost use Rattle.lin_model.specs.Conditions.{PlainCondition, Fits};

    ghost Value = { PlainCondition };

    ghost view = { λ q. record { vars = q.vars.items; atoms = q.atoms.items } };

    ghost invariant = { λ q. Fits q.vars.items q.atoms.items };
}

impl Clone for Condition {
    /// A copy equals what it was made of.
    ghost is_clone = { λ condition copy. copy ≡ condition };

    fn clone(&self) -> Result<Condition, AllocError> {
        let vars = self.vars.clone()?;
        let atoms = self.atoms.clone()?;
        Ok(Condition { vars, atoms })
    }
}

impl Condition {
    /// The condition of these variables and atoms. `fits` tells whether they make one.
    pub fn new(vars: Vec<Var>, atoms: Vec<Atom>) -> Condition
        requires { Fits vars.items atoms.items }
        ensures { result ≡ record { vars = vars.items; atoms = atoms.items } }
    {
        Condition { vars, atoms }
    }

    /// The variables, in order of declaration.
    pub fn vars(&self) -> &[Var]
        ensures vars { result.now ≡ self.now.vars }
        ensures fits { Fits self.now.vars self.now.atoms }
    {
        &self.vars
    }

    /// The atoms, in the order in which they are written.
    pub fn atoms(&self) -> &[Atom]
        ensures atoms { result.now ≡ self.now.atoms }
        ensures fits { Fits self.now.vars self.now.atoms }
    {
        &self.atoms
    }

    /// Whether these values are an assignment, one a variable and none out of its bounds, under which
    /// all the atoms hold just as they are written.
    pub fn holds(&self, values: &[i64]) -> bool
        ensures { IsTrue result ↔ Holds self.now values.now }
    {
        if !is_assignment(self.vars(), values) {
            return false;
        }
        atoms_hold(self.atoms(), values)
    }

    /// The law that a condition keeps all its limits: those of `fits`, and those of each variable, side and term.
    pub fn keeps_limits(&self)
        ensures { IsCondition self.now }
    {
        vars_keep_limits(self.vars());
        atoms_keep_limits(self.atoms());
    }
}

/// Whether these are as many values as variables, none of them out of its variable's bounds.
fn is_assignment(vars: &[Var], values: &[i64]) -> bool
    ensures { IsTrue result ↔ IsAssignment vars.now values.now }
{
    if values.len() != vars.len() {
        return false;
    }
    for (k, var) in vars.iter().enumerate() {
        if !var.contains(values[k]) {
            return false;
        }
    }
    true
}

/// Whether every atom holds.
fn atoms_hold(atoms: &[Atom], values: &[i64]) -> bool
    ensures { IsTrue result ↔ All (λ atom. AtomHolds atom values.now) atoms.now }
{
    for atom in atoms {
        if !atom.holds(values) {
            return false;
        }
    }
    true
}
