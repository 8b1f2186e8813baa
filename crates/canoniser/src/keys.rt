//! The canonical key of a slice.
ghost use Rattle.std.specs.Prelude.{◌≤◌, ◌<◌, length, IfOk, All};
ghost use Rattle.canoniser.specs.Keys.{IsSliceIn};
ghost use Rattle.canoniser.specs.Strongest.{IsKeyWithBounds};
ghost use Rattle.canoniser.specs.Answers.{Canonises};

use crate::back::Back;
use crate::bounds::bounds_of;
use crate::canonical::Canonical;
use crate::numbering::order_of;
use crate::slice_forms::{SliceForms, forms_of};
use crate::strongest::strongest;
use atom_implies::table_is_right;
use lin_model::{Condition, Key, KeyAtom};
use outside::NoMemory;
use slicer::{Slice, slices_are_a_partition};
use std::alloc::Global;

/// What the slice comes to, which has to be one of the condition's slices: the first of its atoms that no
/// integers satisfy, where there is one, and otherwise its key. (After Green's canonisation, FSE 2012.)
pub fn canonise(alloc: Global, c: &Condition, s: &Slice) -> Result<Canonical, NoMemory>
    requires { IsSliceIn c.now s.now }
    ensures { IfOk result (Canonises c.now s.now) }
{
    table_is_right();
    slices_are_a_partition();
    let order = order_of(alloc, c, s)?;
    match forms_of(alloc, c, s, &order)? {
        SliceForms::False(j) => Ok(Canonical::False(j)),
        SliceForms::Atoms(atoms) => {
            let key = key_of(alloc, c, &order, atoms)?;
            let back = Back::new(order);
            Ok(Canonical::Key { key, back })
        }
    }
}

/// The strongest of these atoms and of the bounds of the variables.
fn key_of(alloc: Global, c: &Condition, order: &[u32], atoms: Vec<KeyAtom>) -> Result<Key, NoMemory>
    requires declared { All (λ v. v < length c.now.vars) order.now }
    requires few { length order.now ≤ 64 }
    requires few_atoms { length atoms.items ≤ 256 }
    ensures { IfOk result (IsKeyWithBounds c.now order.now atoms.items) }
{
    let mut given = atoms;
    let mut bounds = bounds_of(alloc, c, order)?;
    given.append(&mut bounds)?;
    strongest(alloc, given)
}
