//! Canonical atoms.
ghost use Rattle.std.specs.Prelude.{◌≡◌, MatchOption, true, false};
ghost use Rattle.lin_model.specs.KeyAtom.{PlainKeyAtom};
ghost use Rattle.entry_codec.specs.Reading.{list_at};
ghost use Rattle.entry_codec.specs.Gives.{Gives};
ghost use Rattle.entry_codec.specs.Canonical.{is_canonical};
ghost use Rattle.entry_codec.specs.AtomReading.{term_at, terms_at, form_and_constant_at, atom_parts_at, comes_behind};
ghost use Rattle.entry_codec.specs.AtomReading.{atom_at};

use super::fields::{coefficient_at, constant_at, op_at, term_count_at, term_var_at};
use super::numbers::bad;
use crate::fault::ReadFault;
use lin_model::{Form, FormTerm, KeyAtom, Op, cmp_atoms};
use std::alloc::Global;

/// The parts of an atom that may not be canonical.
#[derive(Drop)]
struct Parts {
    form: Form,
    op: Op,
    constant: i64,
}

/// A term: its variable and its coefficient.
#[tactic(auto, unfolding(crate::specs::AtomReading::term_at))]
fn term_at(bytes: &[u8]) -> Result<(FormTerm, &[u8]), ReadFault>
    ensures { Gives (λ x. (x.0, x.1.now)) result (term_at bytes.now) }
{
    let (var, rest) = term_var_at(bytes)?;
    let (coef, rest) = coefficient_at(rest)?;
    Ok((FormTerm { var, coef }, rest))
}

/// So many terms.
fn term_list_at(alloc: Global, count: u8, bytes: &[u8]) -> Result<(Vec<FormTerm>, &[u8]), ReadFault>
    ensures { Gives (λ x. (x.0.items, x.1.now)) result (list_at (λ before. term_at) count bytes.now) }
{
    let mut terms = Vec::new(alloc);
    let mut rest = bytes;
    for _ in 0..count {
        let (term, after) = term_at(rest)?;
        terms.push(term)?;
        rest = after;
    }
    Ok((terms, rest))
}

/// The terms of an atom, behind their number.
#[tactic(auto, unfolding(crate::specs::AtomReading::terms_at))]
fn terms_at(alloc: Global, bytes: &[u8]) -> Result<(Vec<FormTerm>, &[u8]), ReadFault>
    ensures { Gives (λ x. (x.0.items, x.1.now)) result (terms_at bytes.now) }
{
    let (count, rest) = term_count_at(bytes)?;
    term_list_at(alloc, count, rest)
}

/// The form and the constant of an atom.
#[tactic(auto, unfolding(crate::specs::AtomReading::form_and_constant_at))]
fn form_and_constant_at(alloc: Global, bytes: &[u8]) -> Result<(Form, i64, &[u8]), ReadFault>
    ensures { Gives (λ x. ((x.0, x.1), x.2.now)) result (form_and_constant_at bytes.now) }
{
    let (terms, rest) = terms_at(alloc, bytes)?;
    let (constant, rest) = constant_at(rest)?;
    Ok((Form::new(terms), constant, rest))
}

/// The parts of an atom.
#[tactic(auto, unfolding(crate::specs::AtomReading::atom_parts_at))]
fn atom_parts_at(alloc: Global, bytes: &[u8]) -> Result<(Parts, &[u8]), ReadFault>
    ensures { Gives (λ x. (record { form = x.0.form; op = x.0.op; constant = x.0.constant }, x.1.now))
        result (atom_parts_at bytes.now) }
{
    let (op, rest) = op_at(bytes)?;
    let (form, constant, rest) = form_and_constant_at(alloc, rest)?;
    Ok((Parts { form, op, constant }, rest))
}

/// The atom of these parts, if they are canonical.
fn canonical(parts: Parts) -> Option<KeyAtom>
    ensures { MatchOption result
        (is_canonical (record { form = parts.form; op = parts.op; constant = parts.constant }) ≡ false)
        (λ atom. (atom ≡ record { form = parts.form; op = parts.op; constant = parts.constant })
        × (is_canonical atom ≡ true)) }
{
    let Parts { form, op, constant } = parts;
    KeyAtom::new(form, op, constant)
}

/// Whether the atom comes behind the last of those before it.
fn comes_behind(before: &[KeyAtom], atom: &KeyAtom) -> bool
    ensures { result ≡ comes_behind before.now atom.now }
{
    match before.last() {
        None => true,
        Some(last) => cmp_atoms(last, atom).is_lt(),
    }
}

/// An atom of a key, behind those before it. It is tested as a whole once all its parts stand there.
#[tactic(auto, unfolding(crate::specs::AtomReading::atom_at, crate::specs::AtomReading::fits_behind))]
pub(crate) fn atom_at<'a>(
    alloc: Global,
    before: &[KeyAtom],
    bytes: &'a [u8],
) -> Result<(KeyAtom, &'a [u8]), ReadFault>
    ensures { Gives (λ x. (x.0, x.1.now)) result (atom_at before.now bytes.now) }
{
    let (parts, rest) = atom_parts_at(alloc, bytes)?;
    let Some(atom) = canonical(parts) else {
        return Err(bad(bytes));
    };
    if comes_behind(before, &atom) {
        Ok((atom, rest))
    } else {
        Err(bad(bytes))
    }
}
