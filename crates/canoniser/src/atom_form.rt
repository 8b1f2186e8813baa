//! The canonical form of an atom over the variables of its slice.
ghost use Rattle.std.specs.Prelude.{◌≡◌, pos, ◌^◌, ◌<◌, ◌≤◌, length, unsigned_abs, All, IfOk, if◌then◌else◌};
ghost use Rattle.lin_model.specs.Conditions.{AtomNamesBelow};
ghost use Rattle.lin_model.specs.Form.{divisor};
ghost use Rattle.lin_model.specs.KeyAtom.{HasSmallCoefficients};
ghost use Rattle.canoniser.specs.Forms.{divides, divided, alone, reduced, primitive_of, canonical_form};
ghost use Rattle.lin_model.specs.Quotients.{floor_div, ceil_div};
ghost use Rattle.canoniser.specs.Limits.{IsOriented};

use crate::linear::{Linear, gathered, oriented};
use lin_model::{Atom, Form, FormTerm, KeyAtom, Op, gcd_of};
use outside::NoMemory;
use std::alloc::Global;

/// The canonical form of an atom.
#[derive(Debug, Drop)]
pub(crate) enum AtomForm {
    /// All integers satisfy the atom.
    True,
    /// No integers satisfy it.
    False,
    /// It says the same as this canonical atom.
    KeyAtom(KeyAtom),
}

/// The canonical form of the atom. `order` are the condition's variables in the order of their numbers in the key.
pub(crate) fn canonical_form(
    alloc: Global,
    order: &[u32],
    atom: &Atom,
) -> Result<AtomForm, NoMemory>
    requires few { length order.now ≤ 64 }
    requires in_range { All (λ v. v < 64) order.now }
    requires named { AtomNamesBelow 64 atom.now }
    ensures { IfOk result (λ form. form ≡ canonical_form order.now atom.now) }
{
    let linear = gathered(alloc, order, atom)?;
    let linear = oriented(alloc, linear)?;
    primitive(alloc, linear)
}

/// The atom divided by the greatest common divisor of its coefficients, if it has any.
fn primitive(alloc: Global, a: Linear) -> Result<AtomForm, NoMemory>
    requires { IsOriented a }
    ensures { IfOk result (λ form. form ≡ primitive_of a) }
{
    if a.form.is_empty() {
        return Ok(alone(a.op, a.constant));
    }
    reduced(alloc, a)
}

/// The form of an atom without variables.
fn alone(op: Op, constant: i64) -> AtomForm
    ensures { result ≡ alone op constant }
{
    if op.passes(constant, 0) {
        AtomForm::True
    } else {
        AtomForm::False
    }
}

/// The atom with both sides divided by the greatest common divisor of its coefficients.
fn reduced(alloc: Global, a: Linear) -> Result<AtomForm, NoMemory>
    requires some { 0 < length a.form }
    requires limits { IsOriented a }
    ensures { IfOk result (λ form. form ≡ reduced (divisor a.form) a.form a.op a.constant) }
{
    let divisor = divisor_of(&a.form);
    match a.op {
        Op::Le => divided_atom(alloc, &a, floor_div(a.constant, divisor), divisor),
        Op::Ge => divided_atom(alloc, &a, ceil_div(a.constant, divisor), divisor),
        Op::Eq => exact(alloc, &a, AtomForm::False, divisor),
        Op::Ne => exact(alloc, &a, AtomForm::True, divisor),
    }
}

/// The greatest common divisor of coefficients that aren't 0 and are below 2^40 in size.
fn divisor_of(form: &[FormTerm]) -> u64
    requires some { 0 < length form.now }
    requires coefficients { HasSmallCoefficients form.now }
    ensures value { result ≡ divisor form.now }
    ensures positive { 0 < result }
    ensures small { result < 2 ^ 40 }
{
    gcd_of(form)
}

/// The quotient where `gcd`, the divisor of the form, divides the constant, and `otherwise` where it doesn't.
fn exact(alloc: Global, a: &Linear, otherwise: AtomForm, gcd: u64) -> Result<AtomForm, NoMemory>
    requires some { 0 < length a.now.form }
    requires limits { IsOriented a.now }
    requires value { gcd ≡ divisor a.now.form }
    requires positive { 0 < gcd }
    requires small { gcd < 2 ^ 40 }
    ensures { IfOk result (λ form. form ≡ (if divides gcd a.now.constant then AtomForm.KeyAtom (record {
      form = divided gcd a.now.form;
      op = a.now.op;
      constant = floor_div a.now.constant gcd;
    }) else otherwise)) }
{
    if divides(gcd, a.constant) {
        divided_atom(alloc, a, floor_div(a.constant, gcd), gcd)
    } else {
        Ok(otherwise)
    }
}

/// The canonical atom of the divided coefficients and this constant.
fn divided_atom(alloc: Global, a: &Linear, constant: i64, gcd: u64) -> Result<AtomForm, NoMemory>
    requires some { 0 < length a.now.form }
    requires limits { IsOriented a.now }
    requires value { gcd ≡ divisor a.now.form }
    requires positive { 0 < gcd }
    requires small { gcd < 2 ^ 40 }
    requires constant { unsigned_abs constant < 2 ^ 50 }
    ensures { IfOk result (λ form. form ≡ AtomForm.KeyAtom (record {
      form = divided gcd a.now.form;
      op = a.now.op;
      constant = constant;
    })) }
{
    let form = Form::new(divided(alloc, &a.form, gcd)?);
    Ok(AtomForm::KeyAtom(KeyAtom::new(form, a.op, constant).unwrap()))
}

/// The coefficients divided by a number that divides each.
fn divided(alloc: Global, form: &[FormTerm], divisor: u64) -> Result<Vec<FormTerm>, NoMemory>
    requires positive { 0 < divisor }
    requires small { divisor < 2 ^ 40 }
    ensures { IfOk result (λ terms. terms.items ≡ divided divisor form.now) }
{
    let divisor = divisor as i64;
    let terms = form
        .iter()
        .map(|t| FormTerm {
            var: t.var,
            coef: t.coef.div_euclid(divisor),
        })
        .collect(alloc)?;
    Ok(terms)
}

/// The quotient, rounded down.
fn floor_div(constant: i64, divisor: u64) -> i64
    requires positive { 0 < divisor }
    requires small { divisor < 2 ^ 40 }
    ensures quotient { result ≡ floor_div constant divisor }
    ensures size { unsigned_abs result ≤ unsigned_abs constant }
{
    constant.div_euclid(divisor as i64)
}

/// The quotient, rounded up.
fn ceil_div(constant: i64, divisor: u64) -> i64
    requires constant { unsigned_abs constant < 2 ^ 50 }
    requires positive { 0 < divisor }
    requires small { divisor < 2 ^ 40 }
    ensures quotient { result ≡ ceil_div constant divisor }
    ensures size { unsigned_abs result ≤ unsigned_abs constant }
{
    -floor_div(-constant, divisor)
}

/// Whether the divisor divides the constant.
fn divides(divisor: u64, constant: i64) -> bool
    requires { 0 < divisor }
    ensures { result ≡ divides divisor constant }
{
    constant.unsigned_abs() % divisor == 0
}
