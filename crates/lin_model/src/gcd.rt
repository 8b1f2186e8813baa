//! The greatest common divisor of a form's coefficients.

ghost use Rattle.std.specs.Prelude.{◌≡◌};
ghost use Rattle.std.specs.Int.{IsGcd};
ghost use Rattle.lin_model.specs.Form.{divisor};

use crate::form::FormTerm;

/// The greatest common divisor of the sizes of the coefficients, 0 where there are no terms or all are 0.
pub fn gcd_of(terms: &[FormTerm]) -> u64
    ensures { result ≡ divisor terms.now }
{
    let mut gcd = 0;
    for term in terms {
        gcd = gcd_of_two(gcd, term.coef.unsigned_abs());
    }
    gcd
}

/// Euclid's walk: the greatest common divisor stays while each number gives way to a remainder.
fn gcd_of_two(a: u64, b: u64) -> u64
    ensures { IsGcd a b result }
{
    let mut x = a;
    let mut y = b;
    while y != 0 {
        let rest = x % y;
        x = y;
        y = rest;
    }
    x
}
