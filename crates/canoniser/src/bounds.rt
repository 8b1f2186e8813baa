//! The bounds of a slice's variables, as canonical atoms.
ghost use Rattle.std.specs.Prelude.{◌≡◌, ◌+◌, ◌*◌, ◌^◌, ◌<◌, ◌≤◌, ◌↔◌, length, unsigned_abs, All, IfOk, OnOk, Contains};
ghost use Rattle.std.specs.Prelude.{List, [], ◌∷◌, ◌++◌};
ghost use Rattle.lin_model.specs.KeyAtom.{PlainKeyAtom};
ghost use Rattle.lin_model.specs.Bounded.{variable};
ghost use Rattle.lin_model.specs.Terms.{VarFits};
ghost use Rattle.canoniser.specs.Keys.{IsBound, upper_atom, lower_atom};
ghost use Rattle.canoniser.specs.Strongest.{VarsFit};

use lin_model::{Condition, Form, FormTerm, KeyAtom, Op, Var};
use outside::NoMemory;
use std::alloc::Global;

/// The bounds of the variables of `order`, which have their places there as numbers: of each the upper and the lower.
pub(crate) fn bounds_of(
    alloc: Global,
    c: &Condition,
    order: &[u32],
) -> Result<Vec<KeyAtom>, NoMemory>
    requires declared { All (λ v. v < length c.now.vars) order.now }
    requires few { length order.now ≤ 64 }
    ensures two_each { IfOk result (λ atoms. length atoms.items ≡ 2 * length order.now) }
    ensures fit { IfOk result (λ _. VarsFit c.now order.now) }
    ensures just { IfOk result
        (λ atoms. (a : PlainKeyAtom) → Contains atoms.items a ↔ IsBound c.now order.now a) }
{
    let vars = c.vars();
    let mut atoms = Vec::new(alloc);
    for (v, var) in order.iter().enumerate() {
        push_bounds(alloc, &mut atoms, v as u8, &vars[*var as usize])?;
    }
    Ok(atoms)
}

/// Adds the bounds of this variable, of which the key has the number `v`.
fn push_bounds(alloc: Global, atoms: &mut Vec<KeyAtom>, v: u8, var: &Var) -> Result<(), NoMemory>
    requires { v < 64 }
    ensures fits { OnOk result (VarFits var.now) }
    ensures items { OnOk result
        (atoms.new.items ≡ atoms.old.items ++ upper_atom v var.now ∷ [] ++ lower_atom v var.now ∷ []) }
{
    atoms.push(bound(alloc, v, Op::Le, var.hi())?)?;
    atoms.push(bound(alloc, v, Op::Ge, var.lo())?)?;
    Ok(())
}

/// The atom that compares the variable of number `v` with a constant.
fn bound(alloc: Global, v: u8, op: Op, constant: i64) -> Result<KeyAtom, NoMemory>
    requires below { v < 64 }
    requires small { unsigned_abs constant ≤ 2 ^ 31 }
    ensures { IfOk result (λ a. a ≡ record { form = variable v; op = op; constant = constant }) }
{
    let mut terms = Vec::new(alloc);
    terms.push(FormTerm { var: v, coef: 1 })?;
    Ok(KeyAtom::new(Form::new(terms), op, constant).unwrap())
}
