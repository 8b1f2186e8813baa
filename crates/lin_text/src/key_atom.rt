//! Writing the text of a canonical atom.
ghost use Rattle.std.specs.Prelude.{◌≡◌, ◌++◌, IfOk, OnErr, OnOk, Some, flat_map, map};
ghost use Rattle.lin_text.specs.Spelling.{cmp_text, first_term, later_term, side_text, size_text};
ghost use Rattle.lin_text.specs.KeyAtoms.{cmp_of_op, key_atom_text, key_name, side_term};

use crate::push::{minus, push_integer, push_number, push_str};
use crate::write::{cmp_sign, joint, push_factor};
use lin_model::{Cmp, FormTerm, KeyAtom, Op};
use outside::NoMemory;
use std::alloc::Global;

/// The text of a canonical atom, without a line feed: its form, spelled as a side over the names `v0`, `v1` and so on,
/// its op `<=`, `>=`, `=` or `!=`, and its constant with its sign, with single spaces.
#[tactic(auto, unfolding(crate::specs::KeyAtoms::key_atom_text))]
pub fn write_atom(alloc: Global, a: &KeyAtom) -> Result<Vec<u8>, NoMemory>
    ensures { IfOk result (λ text. text.items ≡ key_atom_text a.now) }
{
    let mut out = Vec::new(alloc);
    push_form(&mut out, a.form().terms())?;
    push_str(&mut out, " ")?;
    push_str(&mut out, cmp_sign(cmp_of(a.op())))?;
    push_str(&mut out, " ")?;
    push_integer(&mut out, a.constant())?;
    Ok(out)
}

/// Adds the text of a canonical atom at the end. Where memory runs out, nothing is added.
pub fn push_key_atom(out: &mut Vec<u8>, a: &KeyAtom) -> Result<(), NoMemory>
    ensures text { OnOk result (out.new.items ≡ out.old.items ++ key_atom_text a.now) }
    ensures kept { OnErr result (out.new.items ≡ out.old.items) }
{
    let text = write_atom(*out.allocator(), a)?;
    out.extend_from_slice(&text)?;
    Ok(())
}

/// An op as the comparison of two sides.
fn cmp_of(op: Op) -> Cmp
    ensures { result ≡ cmp_of_op op }
{
    match op {
        Op::Le => Cmp::Le,
        Op::Ge => Cmp::Ge,
        Op::Eq => Cmp::Eq,
        Op::Ne => Cmp::Ne,
    }
}

#[tactic(auto, unfolding(crate::specs::Spelling::side_text))]
fn push_form(out: &mut Vec<u8>, terms: &[FormTerm]) -> Result<(), NoMemory>
    ensures { OnOk result (out.new.items ≡ out.old.items ++ side_text key_name (map side_term terms.now)) }
{
    match terms {
        [] => Ok(()),
        [first, others @ ..] => {
            push_first_multiple(out, *first)?;
            push_later_multiples(out, others)
        }
    }
}

#[tactic(auto, unfolding(crate::specs::Spelling::first_term))]
fn push_first_multiple(out: &mut Vec<u8>, term: FormTerm) -> Result<(), NoMemory>
    ensures { OnOk result (out.new.items ≡ out.old.items ++ first_term key_name (side_term term)) }
{
    push_str(out, minus(term.coef))?;
    push_multiple(out, term.coef.unsigned_abs(), term.var)
}

fn push_later_multiples(out: &mut Vec<u8>, terms: &[FormTerm]) -> Result<(), NoMemory>
    ensures { OnOk result
        (out.new.items ≡ out.old.items ++ flat_map (λ t. later_term key_name (side_term t)) terms.now) }
{
    for term in terms {
        push_later_multiple(out, *term)?;
    }
    Ok(())
}

#[tactic(auto, unfolding(crate::specs::Spelling::later_term))]
fn push_later_multiple(out: &mut Vec<u8>, term: FormTerm) -> Result<(), NoMemory>
    ensures { OnOk result (out.new.items ≡ out.old.items ++ later_term key_name (side_term term)) }
{
    push_str(out, joint(term.coef))?;
    push_multiple(out, term.coef.unsigned_abs(), term.var)
}

/// Adds a multiple of a variable, without a sign.
#[tactic(auto, unfolding(crate::specs::Spelling::size_text, crate::specs::KeyAtoms::key_name))]
fn push_multiple(out: &mut Vec<u8>, size: u64, var: u8) -> Result<(), NoMemory>
    ensures { OnOk result (out.new.items ≡ out.old.items ++ size_text key_name size (Some var)) }
{
    push_factor(out, size)?;
    push_str(out, "v")?;
    push_number(out, u64::from(var))
}
