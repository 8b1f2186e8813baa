//! The sides of a comparison, and whole comparisons.
ghost use Rattle.std.specs.Prelude.{◌≡◌, ◌≤◌, length, not, IfOk, pos, neg_ℤ, ◌≤ℤ◌, ℤ};
ghost use Rattle.lin_model.specs.Terms.{TermFits};
ghost use Rattle.lin_text.specs.Grammar.{signed};
ghost use Rattle.lin_text.specs.Reading.{Gives, variable_of, number_at, quantity_at, item_from, full_at, is_joint};
ghost use Rattle.lin_text.specs.Reading.{is_minus, side_from, comparison_at, atom_from, begins_item_class};

use crate::class::{Class, Lexeme, next_lexeme};
use crate::declaration::read_end;
use crate::fault::TextKind;
use crate::names::Numbering;
use crate::refusal::{Fault, ReadError, fault_at, refusal};
use lin_model::{Atom, Cmp, Expr, MAX_CONSTANT, MAX_FACTOR, MAX_TERMS, Term};
use std::alloc::Global;

/// The number, negated or not.
fn signed(negative: bool, number: u64) -> i64
    requires { number ≤ MAX_CONSTANT }
    ensures { result ≡ signed negative number }
{
    let number = number as i64;
    if negative { -number } else { number }
}

/// The term of the factor on the variable that the token names, and the place behind it.
#[tactic(auto, unfolding(crate::specs::Reading::variable_of))]
fn variable_of<N: Numbering>(
    bytes: &[u8],
    names: &N,
    token: Lexeme,
    factor: i64,
) -> Result<(Term, usize), Fault<TextKind>>
    requires order { token.from ≤ token.to }
    requires within { token.to ≤ length bytes.now }
    requires low { neg_ℤ (pos MAX_FACTOR) ≤ℤ factor }
    requires high { factor ≤ℤ pos MAX_FACTOR }
    ensures exact { result ≡ variable_of bytes.now (N.number names.now) token factor }
    ensures within { IfOk result (λ r. r.1 ≤ length bytes.now) }
{
    match token.class {
        Class::Name => match names.find(&bytes[token.from..token.to]) {
            None => Err(fault_at(TextKind::UnknownName, token.from)),
            Some(var) => Ok((Term::new(factor, Some(var)), token.to)),
        },
        _ => Err(refusal(token)),
    }
}

/// A constant, or where a `*` follows the number a factor and its variable.
#[tactic(auto, unfolding(crate::specs::Reading::number_at))]
fn read_number<N: Numbering>(
    bytes: &[u8],
    in_proof: bool,
    names: &N,
    negative: bool,
    token: Lexeme,
    number: u64,
) -> Result<(Term, usize), Fault<TextKind>>
    requires within { token.to ≤ length bytes.now }
    ensures exact { result ≡ number_at in_proof bytes.now (N.number names.now) negative token number }
    ensures within { IfOk result (λ r. r.1 ≤ length bytes.now) }
{
    let next = next_lexeme(bytes, in_proof, token.to);
    match next.class {
        Class::Times => {
            if number > MAX_FACTOR {
                return Err(fault_at(TextKind::NumberTooLarge, token.from));
            }
            let name = next_lexeme(bytes, in_proof, next.to);
            variable_of(bytes, names, name, signed(negative, number))
        }
        _ => {
            if number > MAX_CONSTANT {
                return Err(fault_at(TextKind::NumberTooLarge, token.from));
            }
            Ok((Term::new(signed(negative, number), None), token.to))
        }
    }
}

/// An item without the minus of its own, which begins with the token.
#[tactic(auto, unfolding(crate::specs::Reading::quantity_at))]
fn read_quantity<N: Numbering>(
    bytes: &[u8],
    in_proof: bool,
    names: &N,
    negative: bool,
    token: Lexeme,
) -> Result<(Term, usize), Fault<TextKind>>
    requires order { token.from ≤ token.to }
    requires within { token.to ≤ length bytes.now }
    ensures exact { result ≡ quantity_at in_proof bytes.now (N.number names.now) negative token }
    ensures within { IfOk result (λ r. r.1 ≤ length bytes.now) }
{
    match token.class {
        Class::Name => variable_of(bytes, names, token, signed(negative, 1)),
        Class::Number(number) => read_number(bytes, in_proof, names, negative, token, number),
        _ => Err(refusal(token)),
    }
}

/// An item that begins with the token and that a minus stands before or not, and the place behind it.
#[tactic(auto, unfolding(crate::specs::Reading::item_from))]
fn read_item<N: Numbering>(
    bytes: &[u8],
    in_proof: bool,
    names: &N,
    subtracted: bool,
    token: Lexeme,
) -> Result<(Term, usize), Fault<TextKind>>
    requires order { token.from ≤ token.to }
    requires within { token.to ≤ length bytes.now }
    ensures exact { result ≡ item_from in_proof bytes.now (N.number names.now) subtracted token }
    ensures within { IfOk result (λ r. r.1 ≤ length bytes.now) }
{
    match token.class {
        Class::Minus => {
            let next = next_lexeme(bytes, in_proof, token.to);
            read_quantity(bytes, in_proof, names, !subtracted, next)
        }
        _ => read_quantity(bytes, in_proof, names, subtracted, token),
    }
}

/// Whether an item may begin with the token.
pub fn begins_item(class: Class) -> bool
    ensures { result ≡ begins_item_class class }
{
    matches!(class, Class::Minus | Class::Number(_) | Class::Name)
}

/// The fault where a side has all the items that it may have.
#[tactic(auto, unfolding(crate::specs::Reading::full_at))]
fn full_at(token: Lexeme) -> Fault<TextKind>
    ensures { result ≡ full_at token }
{
    if begins_item(token.class) {
        fault_at(TextKind::TooManyTerms, token.from)
    } else {
        refusal(token)
    }
}

/// Whether an item follows the token behind another one.
fn is_joint(class: Class) -> bool
    ensures { result ≡ is_joint class }
{
    matches!(class, Class::Plus | Class::Minus)
}

fn is_minus(class: Class) -> bool
    ensures { result ≡ is_minus class }
{
    matches!(class, Class::Minus)
}

/// A side that begins with the token, which stands anywhere on a line, and the place behind the side.
pub fn read_side<N: Numbering>(
    alloc: Global,
    bytes: &[u8],
    in_proof: bool,
    names: &N,
    first: Lexeme,
) -> Result<(Expr, usize), ReadError<TextKind>>
    requires order { first.from ≤ first.to }
    requires within { first.to ≤ length bytes.now }
    ensures exact { Gives result (side_from in_proof bytes.now (N.number names.now) first) }
    ensures within { IfOk result (λ r. r.1 ≤ length bytes.now) }
{
    let mut terms = Vec::new(alloc);
    let mut subtracted = false;
    let mut token = first;
    while terms.len() < MAX_TERMS {
        let (term, to) = read_item(bytes, in_proof, names, subtracted, token)?;
        terms.push(term)?;
        let joint = next_lexeme(bytes, in_proof, to);
        if !is_joint(joint.class) {
            return Ok((Expr::new(terms), to));
        }
        subtracted = is_minus(joint.class);
        token = next_lexeme(bytes, in_proof, joint.to);
    }
    Err(ReadError::Fault(full_at(token)))
}

/// How two sides compare, and the place behind the sign.
#[tactic(auto, unfolding(crate::specs::Reading::comparison_at))]
fn read_comparison(bytes: &[u8], in_proof: bool, at: usize) -> Result<(Cmp, usize), Fault<TextKind>>
    requires { at ≤ length bytes.now }
    ensures exact { result ≡ comparison_at in_proof bytes.now at }
    ensures within { IfOk result (λ r. r.1 ≤ length bytes.now) }
{
    let token = next_lexeme(bytes, in_proof, at);
    match token.class {
        Class::Compare(sign) => Ok((sign.cmp(), token.to)),
        _ => Err(refusal(token)),
    }
}

/// A comparison of two sides that begins with the token, to the end of the line.
#[tactic(auto, unfolding(crate::specs::Reading::atom_from))]
pub fn read_atom_line<N: Numbering>(
    alloc: Global,
    bytes: &[u8],
    in_proof: bool,
    names: &N,
    first: Lexeme,
) -> Result<Atom, ReadError<TextKind>>
    requires order { first.from ≤ first.to }
    requires within { first.to ≤ length bytes.now }
    ensures { Gives result (atom_from in_proof bytes.now (N.number names.now) first) }
{
    let (left, behind) = read_side(alloc, bytes, in_proof, names, first)?;
    let (cmp, behind) = read_comparison(bytes, in_proof, behind)?;
    let next = next_lexeme(bytes, in_proof, behind);
    let (right, behind) = read_side(alloc, bytes, in_proof, names, next)?;
    read_end(bytes, in_proof, behind)?;
    Ok(Atom { left, cmp, right })
}
