//! The numbers of the variables and atoms of a slice.
ghost use Rattle.std.specs.Prelude.{◌<◌, ◌≤◌, ℕ, IfOk, length};
ghost use Rattle.std.specs.List.{HoldsAt};
ghost use Rattle.slicer.specs.Slices.{Lists};
ghost use Rattle.slicer.specs.VarSets.{Has, Meet, IsVoid};

use crate::var_set::VarSet;
use outside::NoMemory;
use std::alloc::Global;

/// The variables below `count` that are in the set.
pub fn vars_in(alloc: Global, set: VarSet, count: u32) -> Result<Vec<u32>, NoMemory>
    requires { count ≤ 64 }
    ensures { IfOk result (λ vars. Lists (λ v. (v < count) × Has set v) vars.items) }
{
    let mut vars = Vec::new(alloc);
    for var in 0..count {
        if set.has(var) {
            vars.push(var)?;
        }
    }
    Ok(vars)
}

/// The numbers of the sets that meet these variables.
pub fn atoms_on(alloc: Global, sets: &[VarSet], vars: VarSet) -> Result<Vec<u32>, NoMemory>
    requires { length sets.now ≤ 256 }
    ensures { IfOk result
        (λ atoms. Lists (λ j. (j < length sets.now) × HoldsAt (λ set. Meet set vars) sets.now j) atoms.items) }
{
    let mut atoms = Vec::new(alloc);
    for (j, set) in sets.iter().enumerate() {
        if set.meets(vars) {
            atoms.push(j as u32)?;
        }
    }
    Ok(atoms)
}

/// The numbers of the sets without variables.
pub fn atoms_on_nothing(alloc: Global, sets: &[VarSet]) -> Result<Vec<u32>, NoMemory>
    requires { length sets.now ≤ 256 }
    ensures { IfOk result
        (λ atoms. Lists (λ j. (j < length sets.now) × HoldsAt IsVoid sets.now j) atoms.items) }
{
    let mut atoms = Vec::new(alloc);
    for (j, set) in sets.iter().enumerate() {
        if set.is_empty() {
            atoms.push(j as u32)?;
        }
    }
    Ok(atoms)
}
