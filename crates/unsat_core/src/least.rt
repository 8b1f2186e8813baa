//! The least choice of atoms that a tree refutes.

ghost use Rattle.std.specs.Prelude.{◌<◌, length, IfOk, OnOk};
ghost use Rattle.unsat_core.specs.Cores.{IsLeast};
ghost use Rattle.unsat_core.specs.Steps.{AreTried, IsTried, Suffices};

use crate::refuted::Refuted;
use outside::NoMemory;
use std::alloc::Global;

/// A choice that the tree refutes and of which it needs each.
pub(crate) fn least_choice(alloc: Global, refuted: &Refuted<'_>) -> Result<Vec<bool>, NoMemory>
    ensures { IfOk result (λ choice. IsLeast refuted.now.key refuted.now.tree choice.items) }
{
    let mut choice = refuted.first_choice(alloc)?;
    shrink(alloc, refuted, &mut choice)?;
    Ok(choice)
}

/// Leaves atoms out of the choice until the tree needs each that is left. A last pass, which leaves none out, shows that
/// it does.
/// After want of memory the choice is to be dropped.
fn shrink(alloc: Global, refuted: &Refuted<'_>, choice: &mut [bool]) -> Result<(), NoMemory>
    requires { Suffices refuted.now choice.old }
    ensures { OnOk result (IsLeast refuted.now.key refuted.now.tree choice.new) }
{
    while leave_out_some(alloc, refuted, choice)? {}
    Ok(())
}

/// Tries each atom in turn, and leaves it out where the others do. Answers whether some are left out.
/// After want of memory the choice is to be dropped.
fn leave_out_some(
    alloc: Global,
    refuted: &Refuted<'_>,
    choice: &mut [bool],
) -> Result<bool, NoMemory>
    requires { Suffices refuted.now choice.old }
    ensures { IfOk result (AreTried refuted.now choice.old (length choice.old) choice.new) }
{
    let mut some = false;
    for atom in 0..choice.len() {
        if leave_out(alloc, refuted, choice, atom)? {
            some = true;
        }
    }
    Ok(some)
}

/// Leaves the atom out of the choice where the others do. Answers whether it does so.
/// After want of memory the choice is to be dropped.
fn leave_out(
    alloc: Global,
    refuted: &Refuted<'_>,
    choice: &mut [bool],
    atom: usize,
) -> Result<bool, NoMemory>
    requires within { atom < length choice.old }
    requires suffices { Suffices refuted.now choice.old }
    ensures { IfOk result (IsTried refuted.now choice.old atom choice.new) }
{
    if !choice[atom] || refuted.names(atom) {
        return Ok(false);
    }
    choice[atom] = false;
    if refuted.closes(alloc, choice)? {
        return Ok(true);
    }
    choice[atom] = true;
    Ok(false)
}
