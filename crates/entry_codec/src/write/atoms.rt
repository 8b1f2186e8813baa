//! Canonical atoms, keys and points.
ghost use Rattle.std.specs.Prelude.{◌≡◌, ◌≤◌, ◌<◌, ◌^◌, ◌++◌, [], length, OnOk};
ghost use Rattle.lin_model.specs.Point.{IsPoint};
ghost use Rattle.entry_codec.specs.Fields.{op};
ghost use Rattle.entry_codec.specs.Grammar.{spell_list, counted};
ghost use Rattle.entry_codec.specs.Fields.{term_count, value};
ghost use Rattle.entry_codec.specs.Atoms.{term, form_and_constant, atom, key, point};

use super::numbers::{push_integer, push_short, push_small};
use lin_model::{Form, FormTerm, Key, KeyAtom, MAX_KEY_VARS, Op, Point};
use outside::NoMemory;

/// Adds a key: the number of its atoms, and the atoms.
#[tactic(auto, unfolding(crate::specs::Atoms::key, crate::specs::Fields::atom_count))]
pub(crate) fn push_key(out: &mut Vec<u8>, whole: &Key) -> Result<(), NoMemory>
    ensures { OnOk result (out.new.items ≡ out.old.items ++ key.spell whole.now) }
{
    let atoms = whole.atoms();
    push_short(out, atoms.len() as u16)?;
    push_atoms(out, atoms)
}

/// Adds atoms, one behind the other.
fn push_atoms(out: &mut Vec<u8>, atoms: &[KeyAtom]) -> Result<(), NoMemory>
    ensures { OnOk result (out.new.items ≡ out.old.items ++ spell_list atom atoms.now) }
{
    for each in atoms {
        push_atom(out, each)?;
    }
    Ok(())
}

/// Adds an atom: its comparison, its form and its constant.
#[tactic(auto, unfolding(crate::specs::Atoms::atom, crate::specs::Atoms::atom_parts))]
fn push_atom(out: &mut Vec<u8>, whole: &KeyAtom) -> Result<(), NoMemory>
    ensures { OnOk result (out.new.items ≡ out.old.items ++ (atom []).spell whole.now) }
{
    push_op(out, whole.op())?;
    push_form_and_constant(out, whole)
}

/// Adds the code of a comparison.
#[tactic(auto, unfolding(crate::specs::Fields::op))]
fn push_op(out: &mut Vec<u8>, comparison: Op) -> Result<(), NoMemory>
    ensures { OnOk result (out.new.items ≡ out.old.items ++ op.spell comparison) }
{
    out.push(comparison.code())?;
    Ok(())
}

/// Adds the form and the constant of an atom.
#[tactic(auto, unfolding(crate::specs::Atoms::form_and_constant, crate::specs::Fields::constant))]
fn push_form_and_constant(out: &mut Vec<u8>, whole: &KeyAtom) -> Result<(), NoMemory>
    ensures { OnOk result
        (out.new.items ≡ out.old.items ++ form_and_constant.spell (whole.now.form, whole.now.constant)) }
{
    push_terms(out, whole.form().terms())?;
    push_integer(out, whole.constant())
}

/// Adds the terms of a form behind their number.
#[tactic(auto, unfolding(crate::specs::Fields::term_count))]
fn push_terms(out: &mut Vec<u8>, terms: &[FormTerm]) -> Result<(), NoMemory>
    requires { length terms.now ≤ MAX_KEY_VARS }
    ensures { OnOk result
        (out.new.items ≡ out.old.items ++ (counted term_count (λ before. term)).spell terms.now) }
{
    push_small(out, terms.len() as u8)?;
    push_term_list(out, terms)
}

/// Adds terms, one behind the other.
fn push_term_list(out: &mut Vec<u8>, terms: &[FormTerm]) -> Result<(), NoMemory>
    ensures { OnOk result (out.new.items ≡ out.old.items ++ spell_list (λ before. term) terms.now) }
{
    for each in terms {
        push_term(out, *each)?;
    }
    Ok(())
}

/// Adds a term: its variable and its coefficient.
#[tactic(auto, unfolding(crate::specs::Atoms::term, crate::specs::Fields::term_var, crate::specs::Fields::coefficient))]
fn push_term(out: &mut Vec<u8>, one: FormTerm) -> Result<(), NoMemory>
    ensures { OnOk result (out.new.items ≡ out.old.items ++ term.spell one) }
{
    push_small(out, one.var)?;
    push_integer(out, one.coef)
}

/// Adds a point: the number of its values, and the values.
#[tactic(auto, unfolding(crate::specs::Atoms::point, crate::specs::Fields::value_count))]
pub(crate) fn push_point(out: &mut Vec<u8>, whole: &Point) -> Result<(), NoMemory>
    ensures bytes { OnOk result (out.new.items ≡ out.old.items ++ (point (length whole.now)).spell whole.now) }
    ensures is_point { IsPoint whole.now }
{
    let values = whole.values();
    push_small(out, values.len() as u8)?;
    push_values(out, values)
}

/// Adds values, one behind the other.
fn push_values(out: &mut Vec<u8>, values: &[i64]) -> Result<(), NoMemory>
    ensures { OnOk result (out.new.items ≡ out.old.items ++ spell_list (λ before. value) values.now) }
{
    for each in values {
        push_value(out, *each)?;
    }
    Ok(())
}

/// Adds a value.
#[tactic(auto, unfolding(crate::specs::Fields::value))]
fn push_value(out: &mut Vec<u8>, number: i64) -> Result<(), NoMemory>
    ensures { OnOk result (out.new.items ≡ out.old.items ++ value.spell number) }
{
    push_integer(out, number)
}
