//! Terms, and the sides of a comparison.

ghost use Rattle.std.specs.Prelude.{◌≡◌, ◌↔◌, ◌≤◌, ◌^◌, ◌*◌, length, unsigned_abs, IsTrue, Option, ℕ, ℤ, ◌+ℤ◌, ◌*ℤ◌};
ghost use Rattle.std.specs.Prelude.{take};
ghost use Rattle.lin_model.specs.Terms.{PlainTerm, TermFits, ExprFits, term_value, value_of, value_at, weight};

use std::alloc::AllocError;
use std::marker::Model;

/// The greatest size of a factor.
pub const MAX_FACTOR: u64 = 1 << 31;

/// The greatest size of a constant.
pub const MAX_CONSTANT: u64 = 1 << 40;

/// The most terms that a side has.
pub const MAX_TERMS: usize = 64;

/// One item of a side. With a variable it is a factor, no larger than 2^31 in size; without one it is a constant, for
/// which 2^40 is the limit.
#[derive(Clone, Copy, Debug)]
pub struct Term {
    factor: i64,
    var: Option<u32>,
}

impl Model for Term {
    ghost use Rattle.lin_model.specs.Terms.{PlainTerm, TermFits};

    ghost Value = { PlainTerm };

    ghost view = { λ term. record { factor = term.factor; var = term.var } };

    ghost invariant = { λ term. TermFits (record { factor = term.factor; var = term.var }) };

    ghost inverse = { λ term. record { factor = term.factor; var = term.var } };
}

impl Term {
    /// The term of this factor on the variable of this number, or of this constant where no variable is given.
    pub fn new(factor: i64, var: Option<u32>) -> Term
        requires { TermFits (record { factor = factor; var = var }) }
        ensures { result ≡ record { factor = factor; var = var } }
    {
        Term { factor, var }
    }

    /// The factor, or the constant where the term names no variable.
    pub fn factor(&self) -> i64
        ensures factor { result ≡ self.now.factor }
        ensures fits { TermFits self.now }
    {
        self.factor
    }

    /// The number of the variable that the term names, from 0.
    pub fn var(&self) -> Option<u32>
        ensures { result ≡ self.now.var }
    {
        self.var
    }
}

/// One side of a comparison: a sum of 1 to 64 terms.
#[derive(Debug, Drop)]
pub struct Expr {
    terms: Vec<Term>,
}

impl Model for Expr {
    ghost use Rattle.std.specs.Prelude.{List};
    ghost use Rattle.lin_model.specs.Terms.{PlainTerm, ExprFits};

    ghost Value = { List PlainTerm };

    ghost view = { λ expr. expr.terms.items };

    ghost invariant = { λ expr. ExprFits expr.terms.items };
}

impl Clone for Expr {
    /// A copy equals what it was made of.
    ghost is_clone = { λ side copy. copy ≡ side };

    fn clone(&self) -> Result<Expr, AllocError> {
        Ok(Expr {
            terms: self.terms.clone()?,
        })
    }
}

impl Expr {
    /// The sum of these terms.
    pub fn new(terms: Vec<Term>) -> Expr
        requires { ExprFits terms.items }
        ensures { result ≡ terms.items }
    {
        Expr { terms }
    }

    /// The terms, in the order in which they are written.
    pub fn terms(&self) -> &[Term]
        ensures terms { result.now ≡ self.now }
        ensures fits { ExprFits self.now }
    {
        &self.terms
    }

    /// The value of the side, where `values` has one value for each variable.
    pub fn value(&self, values: &[i64]) -> i128
        ensures { result ≡ value_of self.now values.now }
    {
        value_of(&self.terms, values)
    }
}

/// What the variable counts for: its value, or 1 for a constant.
fn weight(var: Option<u32>, values: &[i64]) -> i64
    ensures { result ≡ weight var values.now }
{
    match var {
        None => 1,
        Some(var) => values.get(var as usize).copied().unwrap_or(0),
    }
}

/// The value of one term, of size at most 2^103.
fn term_value(term: &Term, values: &[i64]) -> i128
    ensures value { result ≡ term_value term.now values.now }
    ensures small { unsigned_abs result ≤ 2 ^ 103 }
{
    i128::from(term.factor) * i128::from(weight(term.var, values))
}

/// The value of at most 64 terms together.
fn value_of(terms: &[Term], values: &[i64]) -> i128
    requires { length terms.now ≤ MAX_TERMS }
    ensures { result ≡ value_of terms.now values.now }
{
    let mut sum = 0;
    for term in terms {
        sum += term_value(term, values);
    }
    sum
}
