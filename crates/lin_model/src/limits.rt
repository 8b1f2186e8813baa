//! Which variables and atoms make a condition, and the limits that each keeps.

ghost use Rattle.std.specs.Prelude.{◌≡◌, ◌≢◌, ◌↔◌, ◌<◌, ℕ, IsTrue, All, AllPairs, IfSome};
ghost use Rattle.lin_model.specs.Terms.{VarFits, TermFits, ExprFits};
ghost use Rattle.lin_model.specs.Conditions.{Fits, NamesBelow, AtomNamesBelow, Differ, AtomFits};

use crate::atom::Atom;
use crate::condition::{MAX_ATOMS, MAX_VARS};
use crate::term::{Expr, Term};
use crate::var::Var;

/// Whether these make a condition: at most 64 variables of distinct names, at most 256 atoms, and no
/// term on a variable that isn't there.
pub fn fits(vars: &[Var], atoms: &[Atom]) -> bool
    ensures { IsTrue result ↔ Fits vars.now atoms.now }
{
    if vars.len() > MAX_VARS || atoms.len() > MAX_ATOMS {
        return false;
    }
    if !are_distinct(vars) {
        return false;
    }
    atoms_name_below(vars.len(), atoms)
}

/// Whether no two variables have one name.
fn are_distinct(vars: &[Var]) -> bool
    ensures { IsTrue result ↔ AllPairs Differ vars.now }
{
    for (k, var) in vars.iter().enumerate() {
        if !is_free(&vars[..k], var) {
            return false;
        }
    }
    true
}

/// Whether none of the variables has the name of this one.
fn is_free(vars: &[Var], var: &Var) -> bool
    ensures { IsTrue result ↔ All (λ earlier. Differ earlier var.now) vars.now }
{
    for earlier in vars {
        if earlier.name().as_bytes() == var.name().as_bytes() {
            return false;
        }
    }
    true
}

/// Whether both sides of each atom name only variables below `count`.
fn atoms_name_below(count: usize, atoms: &[Atom]) -> bool
    ensures { IsTrue result ↔ All (AtomNamesBelow count) atoms.now }
{
    for atom in atoms {
        if !atom_names_below(count, atom) {
            return false;
        }
    }
    true
}

/// Whether both sides of the atom name only variables below `count`.
fn atom_names_below(count: usize, atom: &Atom) -> bool
    ensures { IsTrue result ↔ AtomNamesBelow count atom.now }
{
    if !terms_name_below(count, atom.left.terms()) {
        return false;
    }
    terms_name_below(count, atom.right.terms())
}

/// Whether the terms name only variables below `count`.
fn terms_name_below(count: usize, terms: &[Term]) -> bool
    ensures { IsTrue result ↔ NamesBelow count terms.now }
{
    for term in terms {
        if term.var().is_some_and(|var| var as usize >= count) {
            return false;
        }
    }
    true
}

/// The law that each variable has a name, and bounds within its limits.
pub(crate) fn vars_keep_limits(vars: &[Var])
    ensures { All VarFits vars.now }
{
    for var in vars {
        let _lo = var.lo();
    }
}

/// The law that the sides of each atom keep their limits.
pub(crate) fn atoms_keep_limits(atoms: &[Atom])
    ensures { All AtomFits atoms.now }
{
    for atom in atoms {
        atom_keeps_limits(atom);
    }
}

/// The law that both sides of an atom keep their limits.
fn atom_keeps_limits(atom: &Atom)
    ensures { AtomFits atom.now }
{
    side_keeps_limits(&atom.left);
    side_keeps_limits(&atom.right);
}

/// The law that a side has 1 to 64 terms, none of which is too large.
fn side_keeps_limits(side: &Expr)
    ensures size { ExprFits side.now }
    ensures terms { All TermFits side.now }
{
    terms_keep_limits(side.terms());
}

/// The law that no term is too large.
fn terms_keep_limits(terms: &[Term])
    ensures { All TermFits terms.now }
{
    for term in terms {
        let _factor = term.factor();
    }
}
