//! The numbers that a slice's variables have in its key.
ghost use Rattle.std.specs.Prelude.{◌≡◌, ℕ, IfOk, OnOk, [], ◌∷◌};
ghost use Rattle.std.specs.List.{cons_option, filter_map, flat_map, slice_get};
ghost use Rattle.slicer.specs.Names.{atom_vars, side_vars};
ghost use Rattle.canoniser.specs.Keys.{IsSliceIn};
ghost use Rattle.canoniser.specs.Numbering.{first_ones, order_of, Gains};

use lin_model::{Atom, Condition, Term};
use outside::NoMemory;
use slicer::Slice;
use std::alloc::Global;

/// The variables of the slice, each at the place that is its number in the key: in the order in which
/// the slice's atoms name them first.
pub(crate) fn order_of(alloc: Global, c: &Condition, s: &Slice) -> Result<Vec<u32>, NoMemory>
    requires { IsSliceIn c.now s.now }
    ensures { IfOk result (λ order. order.items ≡ order_of c.now s.now) }
{
    let mut order = Vec::new(alloc);
    add_atoms(&mut order, c.atoms(), s.atoms())?;
    add_all(&mut order, s.vars())?;
    Ok(order)
}

/// The variables that one atom names, in the order in which it names them first.
pub(crate) fn order_in(alloc: Global, atom: &Atom) -> Result<Vec<u32>, NoMemory>
    ensures { IfOk result (λ order. order.items ≡ first_ones (atom_vars atom.now)) }
{
    let mut order = Vec::new(alloc);
    add_atom(&mut order, atom)?;
    Ok(order)
}

/// Adds the variables that the atoms of these numbers name.
fn add_atoms(order: &mut Vec<u32>, atoms: &[Atom], numbers: &[u32]) -> Result<(), NoMemory>
    ensures { OnOk result (Gains order.old.items order.new.items
        (flat_map atom_vars (filter_map (λ j. slice_get atoms.now j) numbers.now))) }
{
    for j in numbers {
        add_numbered(order, atoms, *j)?;
    }
    Ok(())
}

/// Adds the variables that the atom of this number names, if there is one.
fn add_numbered(order: &mut Vec<u32>, atoms: &[Atom], j: u32) -> Result<(), NoMemory>
    ensures { OnOk result (Gains order.old.items order.new.items
        (flat_map atom_vars (cons_option (slice_get atoms.now j) []))) }
{
    match atoms.get(j as usize) {
        None => Ok(()),
        Some(atom) => add_atom(order, atom),
    }
}

/// Adds the variables that the atom names.
fn add_atom(order: &mut Vec<u32>, atom: &Atom) -> Result<(), NoMemory>
    ensures { OnOk result (Gains order.old.items order.new.items (atom_vars atom.now)) }
{
    add_side(order, atom.left.terms())?;
    add_side(order, atom.right.terms())?;
    Ok(())
}

/// Adds the variables that the terms name.
fn add_side(order: &mut Vec<u32>, terms: &[Term]) -> Result<(), NoMemory>
    ensures { OnOk result (Gains order.old.items order.new.items (side_vars terms.now)) }
{
    for term in terms {
        add_named(order, term.var())?;
    }
    Ok(())
}

/// Adds the variable of a term, if it has one.
fn add_named(order: &mut Vec<u32>, var: Option<u32>) -> Result<(), NoMemory>
    ensures { OnOk result (Gains order.old.items order.new.items (cons_option var [])) }
{
    match var {
        None => Ok(()),
        Some(var) => add(order, var),
    }
}

/// Adds these variables.
fn add_all(order: &mut Vec<u32>, vars: &[u32]) -> Result<(), NoMemory>
    ensures { OnOk result (Gains order.old.items order.new.items vars.now) }
{
    for var in vars {
        add(order, *var)?;
    }
    Ok(())
}

/// Adds the variable unless it is there.
fn add(order: &mut Vec<u32>, var: u32) -> Result<(), NoMemory>
    ensures { OnOk result (Gains order.old.items order.new.items (var ∷ [])) }
{
    if order.contains(&var) {
        return Ok(());
    }
    order.push(var)?;
    Ok(())
}
