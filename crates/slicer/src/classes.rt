//! The classes of linked variables.
ghost use Rattle.std.specs.Prelude.{◌<◌, ◌≤◌, ℕ, IfOk, length};
ghost use Rattle.std.specs.List.{HoldsAt};
ghost use Rattle.slicer.specs.Slices.{AreClasses, Lists};
ghost use Rattle.slicer.specs.VarSets.{Has, Meet, AreSetsOf};

use crate::members::{atoms_on, vars_in};
use crate::slice::Slice;
use crate::spread::spread;
use crate::var_set::VarSet;
use lin_model::Condition;
use outside::NoMemory;
use std::alloc::Global;

/// One slice for each class of linked variables, by least variable. `sets` are the sets of the variables
/// that each atom names.
pub fn classes(alloc: Global, c: &Condition, sets: &[VarSet]) -> Result<Vec<Slice>, NoMemory>
    requires { AreSetsOf c.now.atoms sets.now }
    ensures { IfOk result (λ slices. AreClasses c.now slices.items) }
{
    let count = c.vars().len() as u32;
    let mut slices = Vec::new(alloc);
    let mut seen = VarSet::empty();
    for var in 0..count {
        if !seen.has(var) {
            let linked = spread(sets, VarSet::of(var));
            slices.push(slice_of(alloc, sets, linked, count)?)?;
            seen = seen.union(linked);
        }
    }
    Ok(slices)
}

/// The slice of these variables, those below `count`, with the atoms that name one of them.
fn slice_of(alloc: Global, sets: &[VarSet], linked: VarSet, count: u32) -> Result<Slice, NoMemory>
    requires few_vars { count ≤ 64 }
    requires few_atoms { length sets.now ≤ 256 }
    ensures vars { IfOk result (λ slice. Lists (λ v. (v < count) × Has linked v) slice.vars) }
    ensures atoms { IfOk result
        (λ slice. Lists (λ j. (j < length sets.now) × HoldsAt (λ set. Meet set linked) sets.now j) slice.atoms) }
{
    let vars = vars_in(alloc, linked, count)?;
    let atoms = atoms_on(alloc, sets, linked)?;
    Ok(Slice::new(vars, atoms))
}
