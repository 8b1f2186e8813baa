//! The variables that atoms name, as sets.
ghost use Rattle.std.specs.Prelude.{◌≡◌, ◌↔◌, ◌⊎◌, ◌<◌, ℕ, IfOk, IfSome, All, Contains};
ghost use Rattle.lin_model.specs.Conditions.{NamesBelow, AtomNamesBelow};
ghost use Rattle.slicer.specs.Names.{Names, side_vars};
ghost use Rattle.slicer.specs.VarSets.{Has, AreSetsOf};

use crate::var_set::VarSet;
use lin_model::{Atom, Term};
use outside::NoMemory;
use std::alloc::Global;

/// The set of the variables that each atom names.
pub fn sets_of_atoms(alloc: Global, atoms: &[Atom]) -> Result<Vec<VarSet>, NoMemory>
    requires { All (AtomNamesBelow 64) atoms.now }
    ensures { IfOk result (λ sets. AreSetsOf atoms.now sets.items) }
{
    let mut sets = Vec::new(alloc);
    for atom in atoms {
        sets.push(set_of_atom(atom))?;
    }
    Ok(sets)
}

/// The variables that the atom names.
fn set_of_atom(atom: &Atom) -> VarSet
    requires { AtomNamesBelow 64 atom.now }
    ensures { (v : ℕ) → Has result v ↔ Names atom.now v }
{
    set_of_terms(atom.left.terms()).union(set_of_terms(atom.right.terms()))
}

/// The variables that the terms name.
fn set_of_terms(terms: &[Term]) -> VarSet
    requires { NamesBelow 64 terms.now }
    ensures { (v : ℕ) → Has result v ↔ Contains (side_vars terms.now) v }
{
    let mut set = VarSet::empty();
    for term in terms {
        set = with_var(set, term.var());
    }
    set
}

/// The set with this variable, if there is one.
fn with_var(set: VarSet, var: Option<u32>) -> VarSet
    requires { IfSome var (λ v. v < 64) }
    ensures { (v : ℕ) → Has result v ↔ (Has set v ⊎ (var ≡ Some v)) }
{
    match var {
        None => set,
        Some(var) => set.union(VarSet::of(var)),
    }
}
