//! What the terms of a side come to.
ghost use Rattle.std.specs.Prelude.{◌≡◌, ℕ, pos, ◌+ℤ◌, ◌^◌, ◌<◌, ◌≤◌, length, unsigned_abs, All, IfSome, if◌then◌else◌};
ghost use Rattle.std.specs.Prelude.{is_some};
ghost use Rattle.lin_model.specs.Terms.{TermFits};
ghost use Rattle.lin_model.specs.Conditions.{NamesBelow};
ghost use Rattle.canoniser.specs.Gathered.{is_on, constants_of};
ghost use Rattle.canoniser.specs.Tables.{factor_in, AreFactors, AreWithin};

use lin_model::Term;

/// What the terms of one side come to: a factor for each of the condition's 64 variables, and a constant.
#[derive(Drop)]
pub(crate) struct Side {
    pub factors: [i64; 64],
    pub constant: i64,
}

impl Side {
    /// The side without terms.
    fn empty() -> Side
        ensures factors { (v : ℕ) → factor_in result.factors v ≡ pos 0 }
        ensures constant { result.constant ≡ pos 0 }
    {
        Side {
            factors: [0; 64],
            constant: 0,
        }
    }

    /// One more term.
    fn add(&mut self, term: &Term)
        requires named { IfSome term.now.var (λ v. v < 64) }
        requires small_factors { AreWithin (2 ^ 47) self.old.factors }
        requires small_constant { unsigned_abs self.old.constant ≤ 2 ^ 47 }
        ensures factors { (v : ℕ) → v < 64 → factor_in self.new.factors v
            ≡ (if is_on term.now.var v then term.now.factor else pos 0) +ℤ factor_in self.old.factors v }
        ensures constant { self.new.constant
            ≡ (if is_some term.now.var then pos 0 else term.now.factor) +ℤ self.old.constant }
        ensures fits { TermFits term.now }
    {
        match term.var() {
            None => self.constant += term.factor(),
            Some(var) => self.factors[var as usize] += term.factor(),
        }
    }
}

/// What the terms come to, each of which is read once.
pub(crate) fn side_of(terms: &[Term]) -> Side
    requires few { length terms.now ≤ 64 }
    requires named { NamesBelow 64 terms.now }
    ensures factors { AreFactors result.factors terms.now }
    ensures constant { result.constant ≡ constants_of terms.now }
    ensures small_factors { AreWithin (2 ^ 37) result.factors }
    ensures small_constant { unsigned_abs result.constant ≤ 2 ^ 46 }
    ensures fits { All TermFits terms.now }
{
    let mut side = Side::empty();
    for term in terms {
        side.add(term);
    }
    side
}
