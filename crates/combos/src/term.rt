//! Units: atoms and sides with the factor 1 or -1, in their row, and leaves of one or two of them.

ghost use Rattle.std.specs.Prelude.{◌≡◌, ◌⊎◌, ◌+◌, ◌<◌, ◌≤◌, length, [], ◌∷◌};
ghost use Rattle.refutation.specs.Glance.{place_count, term_at};
ghost use Rattle.refutation.specs.Leaf.{leaf_of, combo};

use arrayvec::ArrayVec;
use lin_model::Key;
use refutation::{Leaf, LeafTerm, On, Side};

/// How many atoms and sides there are.
pub fn place_count(key: &Key, sides: &[Side]) -> usize
    ensures { result ≡ place_count key.now sides.now }
{
    key.atoms().len() + sides.len()
}

/// The term of the atom or side at this place of the row, in which the atoms come first.
pub fn term_at(key: &Key, sides: &[Side], place: usize, factor: i64) -> LeafTerm
    requires place { place < place_count key.now sides.now }
    requires few { length sides.now ≤ 65536 }
    ensures { result ≡ term_at key.now place factor }
{
    let atoms = key.atoms().len();
    let on = if place < atoms {
        On::Atom(place as u16)
    } else {
        On::Side((place - atoms) as u16)
    };
    LeafTerm { on, factor }
}

/// The leaf of one term.
pub fn leaf_of_one(term: LeafTerm) -> Leaf
    ensures { leaf_of result ≡ combo (term ∷ []) }
{
    let mut terms = ArrayVec::new();
    terms.push(term);
    Leaf::Combo(terms)
}

/// The leaf of two terms, in their order or the other way round: the one that comes first in the row stands first.
pub fn leaf_of_two(a: LeafTerm, b: LeafTerm) -> Leaf
    ensures { (leaf_of result ≡ combo (a ∷ b ∷ [])) ⊎ (leaf_of result ≡ combo (b ∷ a ∷ [])) }
{
    if a.on < b.on {
        leaf_in_order(a, b)
    } else {
        leaf_in_order(b, a)
    }
}

/// The leaf of two terms in their order.
fn leaf_in_order(a: LeafTerm, b: LeafTerm) -> Leaf
    ensures { leaf_of result ≡ combo (a ∷ b ∷ []) }
{
    let mut terms = ArrayVec::new();
    terms.push(a);
    terms.push(b);
    Leaf::Combo(terms)
}
