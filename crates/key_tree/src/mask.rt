//! Hashes of forms, and masks of what atoms may imply.
ghost use Rattle.std.specs.Prelude.{◌≡◌, ◌^◌, ◌<◌, ◌↔◌, pos, unsigned_abs, IsTrue};
ghost use Rattle.std.specs.Int.{int_rem_euclid};
ghost use Rattle.key_tree.specs.Prints.{
  hash_of as form_hash,
  hash_from,
  with_term as term_hash,
  kind_bit as bit_of_kind,
  needs_bit as bit_needed,
  gives_bits,
  needs_of as atom_needs,
  gives_of as bits_given,
  IsWithin,
};
ghost use Rattle.key_tree.specs.Asked.{atom_hash};

use lin_model::{Form, FormTerm, KeyAtom, Op};

/// The number of a kind of comparison among the bits of a form.
const LE_KIND: u32 = 0;

const GE_KIND: u32 = 1;

const EQ_KIND: u32 = 2;

const NE_KIND: u32 = 3;

/// Whether each bit of the first mask is one of the second.
pub fn is_within(part: u64, whole: u64) -> bool
    ensures { IsTrue result ↔ IsWithin part whole }
{
    whole | part == whole
}

/// The hash of a form, below 2^20.
pub(crate) fn hash_of(form: &Form) -> u32
    ensures hash { result ≡ form_hash form.now }
    ensures small { result < 2 ^ 20 }
{
    let mut hash = 0;
    for term in form.terms() {
        hash = with_term(hash, *term);
    }
    hash
}

/// The hash of the terms so far, and one term more.
fn with_term(hash: u32, term: FormTerm) -> u32
    requires { hash < 2 ^ 20 }
    ensures hash { result ≡ term_hash hash term }
    ensures small { result < 2 ^ 20 }
{
    (hash * 31 + u32::from(term.var) * 7 + coefficient_hash(term.coef)) % (1 << 20)
}

/// A number below 1021 for a coefficient.
fn coefficient_hash(coef: i64) -> u32
    ensures hash { result ≡ unsigned_abs (int_rem_euclid coef (pos 1021)) }
    ensures small { result < 1021 }
{
    coef.rem_euclid(1021) as u32
}

/// The bit of the atoms of a form with this hash and this kind of comparison.
fn kind_bit(hash: u32, kind: u32) -> u64
    requires hash { hash < 2 ^ 20 }
    requires kind { kind < 4 }
    ensures { result ≡ bit_of_kind hash kind }
{
    1 << ((hash * 37 + kind * 19) % 64)
}

/// What has to be in the mask of each atom that implies this one, whose form has this hash.
#[tactic(auto, unfolding(crate::specs::Prints::needs_of))]
pub(crate) fn needs_of(atom: &KeyAtom, hash: u32) -> u64
    requires { hash ≡ atom_hash atom.now }
    ensures { result ≡ atom_needs atom.now }
{
    needs_bit(hash, atom.op())
}

/// The bit that has to be in the mask of each atom that implies one of this hash and comparison.
#[tactic(auto, unfolding(crate::specs::Prints::needs_bit))]
fn needs_bit(hash: u32, op: Op) -> u64
    requires { hash < 2 ^ 20 }
    ensures { result ≡ bit_needed hash op }
{
    match op {
        Op::Le => kind_bit(hash, LE_KIND),
        Op::Ge => kind_bit(hash, GE_KIND),
        Op::Eq => kind_bit(hash, EQ_KIND),
        Op::Ne => kind_bit(hash, NE_KIND),
    }
}

/// The mask of all that the atom may imply.
#[tactic(auto, unfolding(crate::specs::Prints::gives_of))]
pub(crate) fn gives_of(atom: &KeyAtom) -> u64
    ensures { result ≡ bits_given atom.now }
{
    let hash = hash_of(atom.form());
    given_bits(hash, atom.op())
}

/// The mask of all that an atom of this hash and comparison may imply.
#[tactic(auto, unfolding(crate::specs::Prints::gives_bits))]
fn given_bits(hash: u32, op: Op) -> u64
    requires { hash < 2 ^ 20 }
    ensures { result ≡ gives_bits hash op }
{
    let ne = kind_bit(hash, NE_KIND);
    match op {
        Op::Le => kind_bit(hash, LE_KIND) | ne,
        Op::Ge => kind_bit(hash, GE_KIND) | ne,
        Op::Eq => {
            kind_bit(hash, LE_KIND) | kind_bit(hash, GE_KIND) | (kind_bit(hash, EQ_KIND) | ne)
        }
        Op::Ne => ne,
    }
}
