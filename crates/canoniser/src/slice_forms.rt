//! The canonical forms of the atoms of a slice.
ghost use Rattle.std.specs.Prelude.{◌≡◌, IfOk};
ghost use Rattle.lin_model.specs.Conditions.{Fits};
ghost use Rattle.canoniser.specs.Numbering.{order_of};
ghost use Rattle.canoniser.specs.Keys.{IsSliceIn};
ghost use Rattle.canoniser.specs.SliceForms.{AreForms};

use crate::atom_form::{AtomForm, canonical_form};
use lin_model::{Condition, KeyAtom};
use outside::NoMemory;
use slicer::{Slice, slices_are_a_partition};
use std::alloc::Global;

/// What the atoms of a slice come to.
#[derive(Debug, Drop)]
pub(crate) enum SliceForms {
    /// The number of the first atom that no integers satisfy.
    False(u32),
    /// The canonical atoms of those that not all integers satisfy.
    Atoms(Vec<KeyAtom>),
}

/// What the atoms of the slice come to, whose variables `order` has in the order of their numbers in the key.
pub(crate) fn forms_of(
    alloc: Global,
    c: &Condition,
    s: &Slice,
    order: &[u32],
) -> Result<SliceForms, NoMemory>
    requires slice { IsSliceIn c.now s.now }
    requires numbered { order.now ≡ order_of c.now s.now }
    ensures forms { IfOk result (AreForms c.now s.now) }
    ensures fits { Fits c.now.vars c.now.atoms }
{
    slices_are_a_partition();
    let all = c.atoms();
    let mut canonical = Vec::new(alloc);
    for j in s.atoms() {
        match canonical_form(alloc, order, &all[*j as usize])? {
            AtomForm::True => {}
            AtomForm::False => return Ok(SliceForms::False(*j)),
            AtomForm::KeyAtom(atom) => canonical.push(atom)?,
        }
    }
    Ok(SliceForms::Atoms(canonical))
}
