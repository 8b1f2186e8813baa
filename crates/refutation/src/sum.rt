//! Sums of multiples of `form - constant`, as one coefficient for each variable.

ghost use Rattle.std.specs.Prelude.{◌≡◌, ◌+◌, ◌*◌, ◌^◌, ◌<◌, ◌≤◌, ℕ, pos, ◌+ℤ◌, ◌*ℤ◌, length, unsigned_abs};
ghost use Rattle.std.specs.Prelude.{slice_index_or, replicate, IfSome};
ghost use Rattle.std.specs.List.{All};
ghost use Rattle.lin_model.specs.KeyAtom.{IsCanonicalForm};
ghost use Rattle.refutation.specs.Bounds.{lower_of, upper_of, scaled_side, least};
ghost use Rattle.refutation.specs.Leaf.{coefficient_of};
ghost use Rattle.std.specs.Prelude.{◌≢◌};
ghost use Rattle.std.specs.Int.{bit_at};
ghost use Rattle.refutation.specs.Sum.{PlainSum, AddsMultiple, is_positive_within, coef_at, dense_form, MarksUsed};

use crate::bounds::Bounds;
use crate::value::scaled_side;
use lin_model::FormTerm;
use std::marker::Model;

/// A sum of at most eight multiples: a coefficient for each of 64 variables, less a constant. A bit for each variable
/// tells which occur, so that to add to it and to test it costs the terms alone.
#[derive(Drop)]
pub struct Sum {
    coefs: [i128; 64],
    constant: i128,
    count: u8,
    used: u64,
}

impl Model for Sum {
    ghost use Rattle.refutation.specs.Sum.{PlainSum, IsSum, MarksUsed};

    ghost Value = { PlainSum };

    ghost view = { λ s. record { coefs = s.coefs; constant = s.constant; count = s.count } };

    ghost invariant = { λ s. IsSum (record { coefs = s.coefs; constant = s.constant; count = s.count })
        × MarksUsed s.used s.coefs };
}

impl Sum {
    /// The sum of nothing.
    pub fn zero() -> Sum
        ensures coefs { (v : ℕ) → v < 64 → coef_at result v ≡ pos 0 }
        ensures constant { result.constant ≡ pos 0 }
        ensures count { result.count ≡ 0 }
    {
        Sum {
            coefs: zeros(),
            constant: 0,
            count: 0,
            used: 0,
        }
    }

    /// Adds `weight` times `form - constant`.
    pub fn add(&mut self, form: &[FormTerm], constant: i64, weight: i64)
        requires form { IsCanonicalForm form.now }
        requires constant { unsigned_abs constant ≤ 2 ^ 50 }
        requires weight { unsigned_abs weight ≤ 2 ^ 31 }
        requires few { self.old.count < 8 }
        ensures { AddsMultiple self.old self.new
            (record { form = form.now; constant = constant; weight = weight }) }
    {
        add_scaled(&mut self.coefs, form, weight);
        self.constant = sum_of(self.constant, weighted(weight, constant));
        self.count += 1;
        self.used = marked(self.used, form);
    }

    /// Whether the least value of the sum within the bounds is known and positive.
    pub fn is_positive(&self, bounds: &Bounds) -> bool
        ensures { result ≡ is_positive_within self.now bounds.now }
    {
        match least_of(&self.coefs, self.used, bounds) {
            None => false,
            Some(least) => least - self.constant > 0,
        }
    }
}

/// A 0 for each variable.
fn zeros() -> [i128; 64]
    ensures { result ≡ replicate 64 (pos 0) }
{
    [0; 64]
}

/// Adds `weight` times the form to the coefficients.
fn add_scaled(coefs: &mut [i128], form: &[FormTerm], weight: i64)
    requires len { length coefs.old ≡ 64 }
    requires room { (v : ℕ) → v < 64 → unsigned_abs (slice_index_or coefs.old v (pos 0)) ≤ 2 ^ 81 }
    requires form { IsCanonicalForm form.now }
    requires weight { unsigned_abs weight ≤ 2 ^ 31 }
    ensures { (v : ℕ) → v < 64 → slice_index_or coefs.new v (pos 0)
        ≡ slice_index_or coefs.old v (pos 0) +ℤ (weight *ℤ coefficient_of form.now v) }
{
    for term in form {
        let var = usize::from(term.var);
        coefs[var] = sum_of(coefs[var], weighted(weight, term.coef));
    }
}

/// The sum of two numbers that leave room for it.
fn sum_of(a: i128, b: i128) -> i128
    requires a { unsigned_abs a ≤ 2 ^ 90 }
    requires b { unsigned_abs b ≤ 2 ^ 90 }
    ensures { result ≡ a +ℤ b }
{
    a + b
}

/// A weight times a coefficient or a constant.
fn weighted(weight: i64, number: i64) -> i128
    requires weight { unsigned_abs weight ≤ 2 ^ 31 }
    requires number { unsigned_abs number ≤ 2 ^ 50 }
    ensures value { result ≡ weight *ℤ number }
    ensures size { unsigned_abs result ≤ 2 ^ 31 * unsigned_abs number }
{
    wide_product(weight, number)
}

/// The product in 128 bits.
fn wide_product(a: i64, b: i64) -> i128
    requires a { unsigned_abs a ≤ 2 ^ 31 }
    requires b { unsigned_abs b ≤ 2 ^ 50 }
    ensures { result ≡ a *ℤ b }
{
    i128::from(a) * i128::from(b)
}

/// The bits with those of the form's variables.
fn marked(used: u64, form: &[FormTerm]) -> u64
    requires { IsCanonicalForm form.now }
    ensures { (v : ℕ) → v < 64 → bit_at result v ≡ 0
        → (bit_at used v ≡ 0) × (coefficient_of form.now v ≡ pos 0) }
{
    let mut bits = used;
    for term in form {
        bits = with_bit(bits, term.var);
    }
    bits
}

/// The bits with this one.
fn with_bit(bits: u64, place: u8) -> u64
    requires { place < 64 }
    ensures same { bit_at result place ≡ 1 }
    ensures others { (v : ℕ) → v ≢ place → bit_at result v ≡ bit_at bits v }
{
    bits | 1 << place
}

/// The bits without this one.
fn without_bit(bits: u64, place: u8) -> u64
    requires { place < 64 }
    ensures same { bit_at result place ≡ 0 }
    ensures others { (v : ℕ) → v < 64 → v ≢ place → bit_at result v ≡ bit_at bits v }
{
    bits & !(1 << place)
}

/// The lowest of the bits.
fn lowest(bits: u64) -> u8
    requires { 0 < bits }
    ensures place { result < 64 }
    ensures set { bit_at bits result ≡ 1 }
    ensures below { (v : ℕ) → v < result → bit_at bits v ≡ 0 }
{
    bits.trailing_zeros() as u8
}

/// The least value of these coefficients' sum within the bounds. Those that aren't used are 0.
fn least_of(coefs: &[i128; 64], used: u64, bounds: &Bounds) -> Option<i128>
    requires size { (v : ℕ) → v < 64 → unsigned_abs (slice_index_or coefs.now v (pos 0)) ≤ 2 ^ 80 }
    requires used { MarksUsed used coefs.now }
    ensures value { result ≡ least (dense_form coefs.now) bounds.now }
    ensures size { IfSome result (λ n. unsigned_abs n ≤ 2 ^ 120) }
{
    let mut sum = 0;
    let mut rest = used;
    for _turn in 0..64u8 {
        if rest == 0 {
            return Some(sum);
        }
        let var = lowest(rest);
        match least_of_variable(coefs, bounds, var) {
            None => return None,
            Some(value) => sum += value,
        }
        rest = without_bit(rest, var);
    }
    Some(sum)
}

/// The least value of the term of one variable within the bounds.
fn least_of_variable(coefs: &[i128; 64], bounds: &Bounds, var: u8) -> Option<i128>
    requires var { var < 64 }
    requires coefs { (v : ℕ) → v < 64 → unsigned_abs (slice_index_or coefs.now v (pos 0)) ≤ 2 ^ 80 }
    ensures value { result
        ≡ scaled_side (slice_index_or coefs.now var (pos 0)) (lower_of bounds.now var) (upper_of bounds.now var) }
    ensures size { IfSome result (λ n. unsigned_abs n ≤ 2 ^ 114) }
{
    let coef = coefs[usize::from(var)];
    scaled_side(coef, bounds.lower(var), bounds.upper(var))
}
