//! Linear forms: sums of whole multiples of numbered variables.

ghost use Rattle.std.specs.Prelude.{◌≡◌, ◌↔◌, IsTrue};

use std::alloc::AllocError;
use std::marker::Model;

/// One term of a form: a multiple of a variable.
#[derive(Clone, Copy, Debug, PartialEq, Eq, PartialOrd, Ord)]
pub struct FormTerm {
    /// The number of the variable, from 0.
    pub var: u8,
    /// By how much it is multiplied.
    pub coef: i64,
}

/// The left side of an atom, as a list of terms in any order. What a canonical form keeps besides is asked by
/// `KeyAtom::new`.
#[derive(Debug, Drop)]
pub struct Form {
    terms: Vec<FormTerm>,
}

impl Model for Form {
    ghost use Rattle.std.specs.Prelude.{List};
    ghost use Rattle.lin_model.specs.declared.form.FormTerm.{FormTerm};

    ghost Value = { List FormTerm };

    ghost view = { λ f. f.terms.items };
}

impl Clone for Form {
    /// A copy equals what it was made of.
    ghost is_clone = { λ form copy. copy ≡ form };

    fn clone(&self) -> Result<Form, AllocError> {
        Ok(Form {
            terms: self.terms.clone()?,
        })
    }
}

impl Form {
    /// The form of these terms.
    pub fn new(terms: Vec<FormTerm>) -> Form
        ensures { result ≡ terms.items }
    {
        Form { terms }
    }

    /// The terms, in their order.
    pub fn terms(&self) -> &[FormTerm]
        ensures { result.now ≡ self.now }
    {
        &self.terms
    }

    /// Whether both have the same terms, one by one.
    pub fn equals(&self, other: &Form) -> bool
        ensures { IsTrue result ↔ (self.now ≡ other.now) }
    {
        same_terms(&self.terms, &other.terms)
    }

    /// Gives the terms back.
    pub fn into_terms(self) -> Vec<FormTerm>
        ensures { result.items ≡ self }
    {
        let Form { terms } = self;
        terms
    }
}

/// Whether the terms are the same, one by one.
fn same_terms(a: &[FormTerm], b: &[FormTerm]) -> bool
    ensures { IsTrue result ↔ (a.now ≡ b.now) }
{
    a == b
}
