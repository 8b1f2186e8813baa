//! Cutting a condition into its slices.
ghost use Rattle.std.specs.Prelude.{◌<◌, ◌≤◌, ℕ, IfOk, length};
ghost use Rattle.std.specs.List.{HoldsAt};
ghost use Rattle.slicer.specs.Slices.{AreSlices, IsFront};
ghost use Rattle.slicer.specs.VarSets.{IsVoid};

use crate::classes::classes;
use crate::members::atoms_on_nothing;
use crate::named::sets_of_atoms;
use crate::slice::Slice;
use crate::var_set::VarSet;
use lin_model::Condition;
use outside::NoMemory;
use std::alloc::Global;

/// The slices of a condition (after Green, FSE 2012): one for each class of linked variables, with the
/// atoms that name one of them, by least variable. An atom links all variables that its terms stand on,
/// whatever the factors, and links carry over from atom to atom. The atoms that name no variable, if there
/// are any, are a slice without variables in front. Numbers count from 0, and both lists of a slice ascend.
pub fn slices(alloc: Global, c: &Condition) -> Result<Vec<Slice>, NoMemory>
    ensures { IfOk result (λ slices. AreSlices c.now slices.items) }
{
    let sets = sets_of_atoms(alloc, c.atoms())?;
    let mut slices = front(alloc, &sets)?;
    let mut linked = classes(alloc, c, &sets)?;
    slices.append(&mut linked)?;
    Ok(slices)
}

/// The slice of the atoms that name no variable, if there are any.
fn front(alloc: Global, sets: &[VarSet]) -> Result<Vec<Slice>, NoMemory>
    requires { length sets.now ≤ 256 }
    ensures { IfOk result
        (λ slices. IsFront (λ j. (j < length sets.now) × HoldsAt IsVoid sets.now j) slices.items) }
{
    let atoms = atoms_on_nothing(alloc, sets)?;
    let mut slices = Vec::new(alloc);
    if atoms.is_empty() {
        return Ok(slices);
    }
    slices.push(Slice::new(Vec::new(alloc), atoms))?;
    Ok(slices)
}
