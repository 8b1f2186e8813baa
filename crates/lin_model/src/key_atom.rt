//! Canonical atoms, each the one spelling of a set of integer points.

ghost use Rattle.std.specs.Prelude.{◌≡◌, ◌^◌, ◌<◌, ◌≤◌, ◌↔◌, ◌*ℤ◌, length, unsigned_abs, IsTrue, IsSome, IfSome};
ghost use Rattle.std.specs.List.{All};
ghost use Rattle.lin_model.specs.Form.{form_value, value_at, form_width, divisor};
ghost use Rattle.lin_model.specs.KeyAtom.{PlainKeyAtom, AscendsBelow64, HasSmallCoefficients, BeginsPositive};
ghost use Rattle.lin_model.specs.KeyAtom.{IsCanonicalForm, IsCanonical, KeyAtomHolds};
ghost use Rattle.lin_model.specs.Point.{AreSides};

use crate::form::{Form, FormTerm};
use crate::gcd::gcd_of;
use crate::op::Op;
use crate::point::{MAX_SIDE, Point};
use std::alloc::AllocError;
use std::marker::Model;

/// The most variables of a key, which are numbered from 0.
pub const MAX_KEY_VARS: u8 = 64;

/// The coefficients of a canonical atom are smaller in size than this.
pub const COEF_LIMIT: u64 = 1 << 40;

/// The constant of a canonical atom is smaller in size than this.
pub const CONSTANT_LIMIT: u64 = 1 << 50;

/// An atom `form op constant` in its canonical form: one to 64 terms with strictly ascending variables below 64,
/// coefficients that aren't 0 and are below 2^40 in size, the first of them positive and their greatest common divisor
/// 1, and a constant below 2^50 in size.
#[derive(Debug, Drop)]
pub struct KeyAtom {
    form: Form,
    op: Op,
    constant: i64,
}

impl Model for KeyAtom {
    ghost use Rattle.lin_model.specs.KeyAtom.{PlainKeyAtom, IsCanonical};

    ghost Value = { PlainKeyAtom };

    ghost view = { λ a. record { form = a.form; op = a.op; constant = a.constant } };

    ghost invariant = { λ a. IsCanonical (record { form = a.form; op = a.op; constant = a.constant }) };
}

impl Clone for KeyAtom {
    /// A copy equals what it was made of.
    ghost is_clone = { λ atom copy. copy ≡ atom };

    fn clone(&self) -> Result<KeyAtom, AllocError> {
        Ok(KeyAtom {
            form: self.form.clone()?,
            op: self.op,
            constant: self.constant,
        })
    }
}

impl KeyAtom {
    /// The atom of these parts, or None where they aren't canonical.
    pub fn new(form: Form, op: Op, constant: i64) -> Option<KeyAtom>
        ensures canonical { IsSome result
            ↔ IsCanonical (record { form = form; op = op; constant = constant }) }
        ensures value { IfSome result
            (λ a. a ≡ record { form = form; op = op; constant = constant }) }
    {
        if has_canonical_form(form.terms()) && constant.unsigned_abs() < CONSTANT_LIMIT {
            Some(KeyAtom { form, op, constant })
        } else {
            None
        }
    }

    /// The left side.
    pub fn form(&self) -> &Form
        ensures value { result.now ≡ self.now.form }
        ensures canonical { IsCanonical self.now }
    {
        &self.form
    }

    /// The comparison.
    pub fn op(&self) -> Op
        ensures { result ≡ self.now.op }
    {
        self.op
    }

    /// The right side.
    pub fn constant(&self) -> i64
        ensures value { result ≡ self.now.constant }
        ensures canonical { IsCanonical self.now }
    {
        self.constant
    }

    /// One more than the greatest variable number of the form.
    pub fn width(&self) -> u8
        ensures width { result ≡ form_width self.now.form }
        ensures within { result ≤ MAX_KEY_VARS }
        ensures canonical { IsCanonical self.now }
    {
        width_of(self.form().terms())
    }

    /// Whether both have the same form, op and constant.
    pub fn equals(&self, other: &KeyAtom) -> bool
        ensures { IsTrue result ↔ (self.now ≡ other.now) }
    {
        self.form().equals(other.form())
            && self.op() == other.op()
            && self.constant() == other.constant()
    }

    /// Whether the atom holds at the point.
    pub fn holds(&self, point: &Point) -> bool
        requires { form_width self.now.form ≤ length point.now }
        ensures { IsTrue result ↔ KeyAtomHolds self.now point.now }
    {
        self.holds_at(point.values())
    }

    /// Whether the atom holds where the variables have these values, each at the place of its number. They may be as
    /// large as the sides of a box, so no point has to be made of them.
    pub fn holds_at(&self, values: &[i64]) -> bool
        requires small { AreSides values.now }
        requires wide { form_width self.now.form ≤ length values.now }
        ensures { IsTrue result ↔ KeyAtomHolds self.now values.now }
    {
        let value = value_of(self.form().terms(), values);
        self.op().passes(self.constant(), value)
    }
}

/// One more than the greatest variable number of the terms, 0 where there is none.
fn width_of(terms: &[FormTerm]) -> u8
    requires { All (λ t. t.var < MAX_KEY_VARS) terms.now }
    ensures width { result ≡ form_width terms.now }
    ensures within { result ≤ MAX_KEY_VARS }
{
    let mut width = 0;
    for term in terms {
        width = width.max(term.var + 1);
    }
    width
}

/// The sum of the terms, each its coefficient times the value of its variable.
fn value_of(terms: &[FormTerm], values: &[i64]) -> i128
    requires few { length terms.now ≤ MAX_KEY_VARS }
    requires small { All (λ t. unsigned_abs t.coef < COEF_LIMIT) terms.now }
    requires sides { AreSides values.now }
    requires wide { form_width terms.now ≤ length values.now }
    ensures { result ≡ form_value terms.now values.now }
{
    let mut sum = 0;
    for term in terms {
        sum += term_value(*term, values);
    }
    sum
}

/// A coefficient times the value of its variable, which is at most 2^73 in size.
fn term_value(term: FormTerm, values: &[i64]) -> i128
    requires small { unsigned_abs term.coef < COEF_LIMIT }
    requires sides { AreSides values.now }
    requires wide { term.var < length values.now }
    ensures value { result ≡ term.coef *ℤ value_at values.now term.var }
    ensures size { unsigned_abs result ≤ 2 ^ 73 }
{
    scaled(term.coef, values[usize::from(term.var)])
}

/// A coefficient times a value.
fn scaled(coef: i64, value: i64) -> i128
    requires coef { unsigned_abs coef < COEF_LIMIT }
    requires value { unsigned_abs value ≤ MAX_SIDE }
    ensures value { result ≡ coef *ℤ value }
    ensures size { unsigned_abs result ≤ 2 ^ 73 }
{
    i128::from(coef) * i128::from(value)
}

/// Whether these are the terms of a canonical form.
fn has_canonical_form(terms: &[FormTerm]) -> bool
    ensures { IsTrue result ↔ IsCanonicalForm terms.now }
{
    if terms.is_empty() || terms.len() > usize::from(MAX_KEY_VARS) {
        return false;
    }
    if !variables_ascend(terms) {
        return false;
    }
    if !coefficients_fit(terms) {
        return false;
    }
    begins_positive(terms) && is_primitive(terms)
}

/// Whether the variables ascend strictly and are below 64.
fn variables_ascend(terms: &[FormTerm]) -> bool
    ensures { IsTrue result ↔ AscendsBelow64 terms.now }
{
    terms.windows(2).all(|pair| pair[0].var < pair[1].var)
        && terms.iter().all(|t| t.var < MAX_KEY_VARS)
}

/// Whether the coefficients aren't 0 and are below 2^40 in size.
fn coefficients_fit(terms: &[FormTerm]) -> bool
    ensures { IsTrue result ↔ HasSmallCoefficients terms.now }
{
    terms.iter().all(|t| t.coef != 0) && terms.iter().all(|t| t.coef.unsigned_abs() < COEF_LIMIT)
}

/// Whether the first coefficient is positive.
fn begins_positive(terms: &[FormTerm]) -> bool
    requires { 0 < length terms.now }
    ensures { IsTrue result ↔ BeginsPositive terms.now }
{
    terms[0].coef > 0
}

/// Whether 1 is the greatest common divisor of the coefficients.
fn is_primitive(terms: &[FormTerm]) -> bool
    ensures { IsTrue result ↔ (divisor terms.now ≡ 1) }
{
    gcd_of(terms) == 1
}
