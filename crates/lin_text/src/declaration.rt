//! A line that declares a variable: its name and its bounds.
ghost use Rattle.std.specs.Prelude.{◌≡◌, ◌≤◌, length, slice_range, None, IfOk, pos, neg_ℤ, ◌≤ℤ◌};
ghost use Rattle.lin_model.specs.Names.{IsName};
ghost use Rattle.lin_text.specs.Grammar.{number_among};
ghost use Rattle.lin_text.specs.Reading.{bound_of, integer_at, free_name_at, range_at, end_at, declaration_at};
ghost use Rattle.lin_text.specs.Reading.{variable_at, Gives};

use crate::class::{Class, Lexeme, next_lexeme};
use crate::fault::TextKind;
use crate::names::{Names, Numbering};
use crate::refusal::{Fault, ReadError, fault_at, refusal};
use lin_model::{MAX_BOUND, Name, Var};
use std::alloc::Global;

/// The number of a bound, and the place behind it.
#[tactic(auto, unfolding(crate::specs::Reading::bound_of))]
fn bound_of(token: Lexeme) -> Result<(i64, usize), Fault<TextKind>>
    ensures exact { result ≡ bound_of token }
    ensures low { IfOk result (λ r. pos 0 ≤ℤ r.0) }
    ensures high { IfOk result (λ r. r.0 ≤ℤ pos MAX_BOUND) }
    ensures behind { IfOk result (λ r. r.1 ≡ token.to) }
{
    match token.class {
        Class::Number(number) => {
            if number > MAX_BOUND {
                return Err(fault_at(TextKind::NumberTooLarge, token.from));
            }
            Ok((number as i64, token.to))
        }
        _ => Err(refusal(token)),
    }
}

/// A bound, and the place behind it.
#[tactic(auto, unfolding(crate::specs::Reading::integer_at))]
fn read_integer(bytes: &[u8], in_proof: bool, at: usize) -> Result<(i64, usize), Fault<TextKind>>
    requires { at ≤ length bytes.now }
    ensures exact { result ≡ integer_at in_proof bytes.now at }
    ensures low { IfOk result (λ r. neg_ℤ (pos MAX_BOUND) ≤ℤ r.0) }
    ensures high { IfOk result (λ r. r.0 ≤ℤ pos MAX_BOUND) }
    ensures within { IfOk result (λ r. r.1 ≤ length bytes.now) }
{
    let token = next_lexeme(bytes, in_proof, at);
    match token.class {
        Class::Minus => {
            let (size, to) = bound_of(next_lexeme(bytes, in_proof, token.to))?;
            Ok((-size, to))
        }
        _ => bound_of(token),
    }
}

/// From which place to which a name stands that isn't declared so far.
#[tactic(auto, unfolding(crate::specs::Reading::free_name_at))]
fn read_free_name(
    bytes: &[u8],
    in_proof: bool,
    names: &Names,
    at: usize,
) -> Result<(usize, usize), Fault<TextKind>>
    requires { at ≤ length bytes.now }
    ensures exact { result ≡ free_name_at in_proof bytes.now names.now at }
    ensures within { IfOk result (λ r. r.1 ≤ length bytes.now) }
    ensures order { IfOk result (λ r. r.0 ≤ r.1) }
    ensures name { IfOk result (λ r. IsName (slice_range bytes.now r.0 r.1)) }
    ensures free { IfOk result (λ r. number_among names.now (slice_range bytes.now r.0 r.1) ≡ None) }
{
    let token = next_lexeme(bytes, in_proof, at);
    match token.class {
        Class::Name => {
            let found = names.find(&bytes[token.from..token.to]);
            match found {
                Some(_) => Err(fault_at(TextKind::NameTwice, token.from)),
                None => Ok((token.from, token.to)),
            }
        }
        _ => Err(refusal(token)),
    }
}

/// Two bounds, the lower one first, and the place behind them.
#[tactic(auto, unfolding(crate::specs::Reading::range_at))]
fn read_range(bytes: &[u8], in_proof: bool, at: usize) -> Result<(i64, i64, usize), Fault<TextKind>>
    requires { at ≤ length bytes.now }
    ensures exact { result ≡ range_at in_proof bytes.now at }
    ensures low { IfOk result (λ r. neg_ℤ (pos MAX_BOUND) ≤ℤ r.0) }
    ensures order { IfOk result (λ r. r.0 ≤ℤ r.1) }
    ensures high { IfOk result (λ r. r.1 ≤ℤ pos MAX_BOUND) }
    ensures within { IfOk result (λ r. r.2 ≤ length bytes.now) }
{
    let (lo, behind) = read_integer(bytes, in_proof, at)?;
    let (hi, to) = read_integer(bytes, in_proof, behind)?;
    if hi < lo {
        let first = next_lexeme(bytes, in_proof, at);
        return Err(fault_at(TextKind::EmptyRange, first.from));
    }
    Ok((lo, hi, to))
}

/// The end of the line, where nothing more stands on it.
#[tactic(auto, unfolding(crate::specs::Reading::end_at))]
pub fn read_end(bytes: &[u8], in_proof: bool, at: usize) -> Result<(), Fault<TextKind>>
    requires { at ≤ length bytes.now }
    ensures { result ≡ end_at in_proof bytes.now at }
{
    let token = next_lexeme(bytes, in_proof, at);
    match token.class {
        Class::LineEnd => Ok(()),
        _ => Err(refusal(token)),
    }
}

/// A declaration behind the word `var`, to the end of the line: from which place to which its name
/// stands, and its bounds.
#[tactic(auto, unfolding(crate::specs::Reading::declaration_at))]
fn read_declaration(
    bytes: &[u8],
    in_proof: bool,
    names: &Names,
    at: usize,
) -> Result<(usize, usize, i64, i64), Fault<TextKind>>
    requires { at ≤ length bytes.now }
    ensures exact { result ≡ declaration_at in_proof bytes.now names.now at }
    ensures within { IfOk result (λ r. r.1 ≤ length bytes.now) }
    ensures places { IfOk result (λ r. r.0 ≤ r.1) }
    ensures name { IfOk result (λ r. IsName (slice_range bytes.now r.0 r.1)) }
    ensures free { IfOk result (λ r. number_among names.now (slice_range bytes.now r.0 r.1) ≡ None) }
    ensures low { IfOk result (λ r. neg_ℤ (pos MAX_BOUND) ≤ℤ r.2) }
    ensures order { IfOk result (λ r. r.2 ≤ℤ r.3) }
    ensures high { IfOk result (λ r. r.3 ≤ℤ pos MAX_BOUND) }
{
    let (from, to) = read_free_name(bytes, in_proof, names, at)?;
    let (lo, hi, behind) = read_range(bytes, in_proof, to)?;
    read_end(bytes, in_proof, behind)?;
    Ok((from, to, lo, hi))
}

/// The variable that a line declares behind the word `var`.
#[tactic(auto, unfolding(crate::specs::Reading::variable_at))]
pub fn read_variable(
    alloc: Global,
    bytes: &[u8],
    in_proof: bool,
    names: &Names,
    at: usize,
) -> Result<Var, ReadError<TextKind>>
    requires { at ≤ length bytes.now }
    ensures exact { Gives result (variable_at in_proof bytes.now names.now at) }
    ensures free { IfOk result (λ var. number_among names.now var.name ≡ None) }
{
    let (from, to, lo, hi) = read_declaration(bytes, in_proof, names, at)?;
    let name = Vec::from_slice(alloc, &bytes[from..to])?;
    Ok(Var::new(Name::new(name), lo, hi))
}
