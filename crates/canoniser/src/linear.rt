//! Atoms with their variables on the left and their constants on the right.
ghost use Rattle.std.specs.Prelude.{◌≡◌, pos, ◌-ℤ◌, neg_ℤ, ◌^◌, ◌<◌, ◌≤◌, length, unsigned_abs, All, IfOk, OnOk, map};
ghost use Rattle.std.specs.Prelude.{[], ◌∷◌, ◌++◌, if◌then◌else◌};
ghost use Rattle.std.specs.Ordering.{int_eq};
ghost use Rattle.lin_model.specs.declared.atom.Atom.{Atom as AnyAtom};
ghost use Rattle.lin_model.specs.Conditions.{AtomNamesBelow};
ghost use Rattle.canoniser.specs.Gathered.{op_of, loose};
ghost use Rattle.canoniser.specs.Forms.{terms_from, gathered, oriented, turned, turned_op, begins_negative};
ghost use Rattle.canoniser.specs.Tables.{AreWithin, HaveCoefficients};
ghost use Rattle.canoniser.specs.Limits.{IsGathered, IsOriented};

use crate::side::{Side, side_of};
use lin_model::{Atom, Cmp, FormTerm, Op};
use outside::NoMemory;
use std::alloc::Global;
use std::marker::Model;

/// An atom `form op constant` that needn't be canonical.
#[derive(Drop)]
pub(crate) struct Linear {
    pub form: Vec<FormTerm>,
    pub op: Op,
    pub constant: i64,
}

impl Model for Linear {
    ghost use Rattle.lin_model.specs.KeyAtom.{PlainKeyAtom};

    ghost Value = { PlainKeyAtom };

    ghost view = { λ a. record { form = a.form.items; op = a.op; constant = a.constant } };
}

/// The atom with its variables on the left, by their numbers in the key, and its constants on the right.
pub(crate) fn gathered(alloc: Global, order: &[u32], atom: &Atom) -> Result<Linear, NoMemory>
    requires few { length order.now ≤ 64 }
    requires in_range { All (λ v. v < 64) order.now }
    requires named { AtomNamesBelow 64 atom.now }
    ensures linear { IfOk result (λ a. a ≡ gathered order.now atom.now) }
    ensures limits { IfOk result IsGathered }
{
    let left = side_of(atom.left.terms());
    let right = side_of(atom.right.terms());
    let form = terms_of(alloc, order, &left, &right)?;
    let constant = loose(atom.cmp, difference(right.constant, left.constant));
    Ok(Linear {
        form,
        op: op_of(atom.cmp),
        constant,
    })
}

/// The terms over the variables of `order`, without coefficients 0.
fn terms_of(
    alloc: Global,
    order: &[u32],
    left: &Side,
    right: &Side,
) -> Result<Vec<FormTerm>, NoMemory>
    requires few { length order.now ≤ 64 }
    requires in_range { All (λ v. v < 64) order.now }
    requires small_left { AreWithin (2 ^ 37) left.now.factors }
    requires small_right { AreWithin (2 ^ 37) right.now.factors }
    ensures { IfOk result (λ terms. (atom : AnyAtom)
        → HaveCoefficients left.now.factors right.now.factors atom
        → terms.items ≡ terms_from 0 order.now atom) }
{
    let mut terms = Vec::new(alloc);
    for (k, v) in order.iter().enumerate() {
        let coef = difference(left.factors[*v as usize], right.factors[*v as usize]);
        push_term(&mut terms, k as u8, coef)?;
    }
    Ok(terms)
}

/// The left number less the right one.
fn difference(left: i64, right: i64) -> i64
    requires left { unsigned_abs left ≤ 2 ^ 46 }
    requires right { unsigned_abs right ≤ 2 ^ 46 }
    ensures { result ≡ left -ℤ right }
{
    left - right
}

/// Adds the term unless its coefficient is 0.
fn push_term(terms: &mut Vec<FormTerm>, var: u8, coef: i64) -> Result<(), NoMemory>
    ensures { OnOk result (terms.new.items ≡ terms.old.items
        ++ (if int_eq coef (pos 0) then [] else record { var = var; coef = coef } ∷ [])) }
{
    if coef != 0 {
        terms.push(FormTerm { var, coef })?;
    }
    Ok(())
}

/// How a canonical atom compares.
fn op_of(cmp: Cmp) -> Op
    ensures { result ≡ op_of cmp }
{
    match cmp {
        Cmp::Le | Cmp::Lt => Op::Le,
        Cmp::Ge | Cmp::Gt => Op::Ge,
        Cmp::Eq => Op::Eq,
        Cmp::Ne => Op::Ne,
    }
}

/// The constant of the comparison that includes it.
fn loose(cmp: Cmp, constant: i64) -> i64
    requires { unsigned_abs constant ≤ 2 ^ 48 }
    ensures { result ≡ loose cmp constant }
{
    match cmp {
        Cmp::Lt => constant - 1,
        Cmp::Gt => constant + 1,
        Cmp::Le | Cmp::Ge | Cmp::Eq | Cmp::Ne => constant,
    }
}

/// The atom with both sides times -1 where its first coefficient is negative.
pub(crate) fn oriented(alloc: Global, a: Linear) -> Result<Linear, NoMemory>
    requires { IsGathered a }
    ensures linear { IfOk result (λ b. b ≡ oriented a) }
    ensures limits { IfOk result IsOriented }
{
    if !begins_negative(&a.form) {
        return Ok(a);
    }
    turned(alloc, &a)
}

/// Whether the first coefficient is negative.
fn begins_negative(form: &[FormTerm]) -> bool
    ensures { result ≡ begins_negative form.now }
{
    match form.first() {
        None => false,
        Some(term) => term.coef < 0,
    }
}

/// Both sides times -1.
fn turned(alloc: Global, a: &Linear) -> Result<Linear, NoMemory>
    requires { IsGathered a.now }
    ensures linear { IfOk result (λ b. b ≡ turned a.now) }
    ensures limits { IfOk result IsGathered }
{
    Ok(Linear {
        form: negated(alloc, &a.form)?,
        op: turned_op(a.op),
        constant: -a.constant,
    })
}

/// Every coefficient times -1.
fn negated(alloc: Global, form: &[FormTerm]) -> Result<Vec<FormTerm>, NoMemory>
    requires { All (λ t. unsigned_abs t.coef < 2 ^ 40) form.now }
    ensures { IfOk result (λ terms. terms.items
        ≡ map (λ t. record { var = t.var; coef = neg_ℤ t.coef }) form.now) }
{
    let terms = form.iter().map(|t| opposite(*t)).collect(alloc)?;
    Ok(terms)
}

/// The term with its coefficient times -1.
fn opposite(term: FormTerm) -> FormTerm
    requires { unsigned_abs term.coef < 2 ^ 40 }
    ensures { result ≡ record { var = term.var; coef = neg_ℤ term.coef } }
{
    FormTerm {
        var: term.var,
        coef: -term.coef,
    }
}

/// The comparison of two numbers with their signs changed.
fn turned_op(op: Op) -> Op
    ensures { result ≡ turned_op op }
{
    match op {
        Op::Le => Op::Ge,
        Op::Ge => Op::Le,
        Op::Eq => Op::Eq,
        Op::Ne => Op::Ne,
    }
}
