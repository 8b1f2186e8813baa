//! The least value of a sum of terms within bounds, in 128 bits.

ghost use Rattle.std.specs.Prelude.{◌≡◌, ◌+◌, ◌*◌, ◌^◌, ◌<◌, ◌≤◌, ◌*ℤ◌, length, unsigned_abs, None, IfSome};
ghost use Rattle.std.specs.Prelude.{slice_index_or};
ghost use Rattle.std.specs.List.{All};
ghost use Rattle.refutation.specs.Bounds.{IsSide, least, scaled_side};
ghost use Rattle.refutation.specs.Cut.{others, other_side};

use lin_model::FormTerm;

/// The least value of the terms within the sides, or the greatest one where the upper sides come first.
pub fn least_within(
    terms: &[FormTerm],
    lo: &[Option<i64>; 64],
    hi: &[Option<i64>; 64],
) -> Option<i128>
    requires few { length terms.now ≤ 64 }
    requires narrow { All (λ t. t.var < 64) terms.now }
    requires lower { All IsSide lo.now }
    requires upper { All IsSide hi.now }
    ensures { result ≡ least terms.now (record { lower = lo.now; upper = hi.now }) }
{
    let mut sum = 0;
    for term in terms {
        match least_of_term(*term, lo, hi) {
            None => return None,
            Some(value) => sum += value,
        }
    }
    Some(sum)
}

/// The least value of the terms on other variables than this one, or the greatest one where the upper sides come first.
pub fn least_besides(
    terms: &[FormTerm],
    var: u8,
    lo: &[Option<i64>; 64],
    hi: &[Option<i64>; 64],
) -> Option<i128>
    requires few { length terms.now ≤ 64 }
    requires narrow { All (λ t. t.var < 64) terms.now }
    requires lower { All IsSide lo.now }
    requires upper { All IsSide hi.now }
    ensures value { result ≡ least (others terms.now var) (record { lower = lo.now; upper = hi.now }) }
    ensures size { IfSome result (λ n. unsigned_abs n ≤ 2 ^ 120) }
{
    let mut sum = 0;
    for term in terms {
        match least_of_other(*term, var, lo, hi) {
            None => return None,
            Some(value) => sum += value,
        }
    }
    Some(sum)
}

/// The least value of one term within the sides, 0 where it is on this variable.
fn least_of_other(
    term: FormTerm,
    var: u8,
    lo: &[Option<i64>; 64],
    hi: &[Option<i64>; 64],
) -> Option<i128>
    requires narrow { term.var < 64 }
    requires lower { All IsSide lo.now }
    requires upper { All IsSide hi.now }
    ensures value { result ≡ other_side (record { lower = lo.now; upper = hi.now }) var term }
    ensures size { IfSome result (λ n. unsigned_abs n ≤ 2 ^ 114) }
{
    if term.var == var {
        return Some(0);
    }
    least_of_term(term, lo, hi)
}

/// The least value of one term within the sides.
fn least_of_term(term: FormTerm, lo: &[Option<i64>; 64], hi: &[Option<i64>; 64]) -> Option<i128>
    requires narrow { term.var < 64 }
    requires lower { All IsSide lo.now }
    requires upper { All IsSide hi.now }
    ensures value { result
        ≡ scaled_side term.coef (slice_index_or lo.now term.var None) (slice_index_or hi.now term.var None) }
    ensures size { IfSome result (λ n. unsigned_abs n ≤ 2 ^ 114) }
{
    let var = usize::from(term.var);
    scaled_side(i128::from(term.coef), lo[var], hi[var])
}

/// A coefficient times the side that it needs: the first where it is positive, the second where it is negative. The
/// coefficient 0 needs none.
pub fn scaled_side(coef: i128, at_positive: Option<i64>, at_negative: Option<i64>) -> Option<i128>
    requires coef { unsigned_abs coef ≤ 2 ^ 80 }
    requires positive { IsSide at_positive }
    requires negative { IsSide at_negative }
    ensures value { result ≡ scaled_side coef at_positive at_negative }
    ensures size { IfSome result (λ n. unsigned_abs n ≤ 2 ^ 114) }
{
    if coef == 0 {
        return Some(0);
    }
    let side = if coef > 0 { at_positive } else { at_negative };
    Some(product(coef, side?))
}

/// A coefficient times a side.
fn product(coef: i128, side: i64) -> i128
    requires coef { unsigned_abs coef ≤ 2 ^ 80 }
    requires side { unsigned_abs side ≤ 2 ^ 32 + 1 }
    ensures value { result ≡ coef *ℤ side }
    ensures size { unsigned_abs result ≤ 2 ^ 114 }
{
    coef * i128::from(side)
}
