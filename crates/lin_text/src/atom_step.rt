//! Where one stands in the text of a canonical atom, and what a token does there.
ghost use Rattle.std.specs.Prelude.{◌≡◌, ◌≤◌, length, min};
ghost use Rattle.lin_text.specs.KeyAtomTexts.{op_of};
ghost use Rattle.lin_text.specs.AtomSteps.{behind_step, constant_step, constant_term, factor_step, goes, is_item};
ghost use Rattle.lin_text.specs.AtomSteps.{is_number, item_step, key_var, named, number_step, op_step, quantity_step};
ghost use Rattle.lin_text.specs.AtomSteps.{next_step, size_step, sized, step_at, var_at};
ghost use Rattle.lin_text.specs.Pieces.{number_of};

use crate::class::{Class, Lexeme, Sign, TOO_LARGE, number_of};
use crate::fault::TextKind;
use crate::refusal::{Fault, fault_at, refusal};
use crate::run::{Run, bytes_from, run_length};
use crate::side::begins_item;
use lin_model::{FormTerm, MAX_KEY_VARS, MAX_TERMS, Op};

/// Where one stands behind some tokens of an atom.
#[derive(Clone, Copy, Debug)]
pub enum State {
    /// Before an item, and whether a minus joins it to those before it.
    Item(bool),
    /// Behind the minus of an item's own, and whether the item is negative.
    Size(bool),
    /// Behind a number, which is a constant unless a `*` follows.
    Number(i64),
    /// Behind a number and a `*`.
    Factor(i64),
    /// Behind an item on a variable.
    Behind,
    /// Behind the op.
    Constant(Op),
    /// Behind the op and a minus.
    ConstantSize(Op),
    /// Behind the constant.
    Over(Op, i64),
}

/// What a token does: the term that is complete with it, and where one stands behind it.
#[derive(Clone, Copy, Debug)]
pub struct Step {
    pub term: Option<FormTerm>,
    pub state: State,
}

/// The op that a sign means; `<`, `>` and `==` mean none.
fn op_of(sign: Sign) -> Option<Op>
    ensures { result ≡ op_of sign }
{
    match sign {
        Sign::Le => Some(Op::Le),
        Sign::Ge => Some(Op::Ge),
        Sign::Eq => Some(Op::Eq),
        Sign::Ne => Some(Op::Ne),
        Sign::Lt | Sign::Gt | Sign::DoubleEq => None,
    }
}

/// Whether the bytes are digits, one or more.
#[tactic(auto, using(crate::proofs::AtomNames::firsts))]
fn is_number(bytes: &[u8]) -> bool
    ensures { result ≡ is_number bytes.now }
{
    !bytes.is_empty() && run_length(Run::Digits, bytes) == bytes.len()
}

/// The number of a variable by its digits; all from `MAX_KEY_VARS` on, which no canonical atom has, count as that.
fn var_of(digits: &[u8]) -> u8
    ensures { result ≡ min (number_of digits.now) MAX_KEY_VARS }
{
    number_of(digits).min(u64::from(MAX_KEY_VARS)) as u8
}

/// The number of the variable that the name is, where it is a `v` and digits.
#[tactic(auto, using(crate::proofs::AtomNames::firsts))]
fn key_var(name: &[u8]) -> Option<u8>
    ensures { result ≡ key_var name.now }
{
    if name.is_empty() || name[0] != b'v' {
        return None;
    }
    let digits = bytes_from(name, 1);
    if is_number(digits) {
        Some(var_of(digits))
    } else {
        None
    }
}

/// The number of the variable that the token names.
fn var_at(bytes: &[u8], token: Lexeme) -> Option<u8>
    requires order { token.from ≤ token.to }
    requires within { token.to ≤ length bytes.now }
    ensures { result ≡ var_at bytes.now token }
{
    match token.class {
        Class::Name => key_var(&bytes[token.from..token.to]),
        _ => None,
    }
}

/// The number with its sign. One that is too large for any text counts as the least such number.
fn sized(negative: bool, number: u64) -> i64
    ensures { result ≡ sized negative number }
{
    let number = number.min(TOO_LARGE) as i64;
    if negative { -number } else { number }
}

/// The step to a state, with no term complete.
fn goes(state: State) -> Option<Step>
    ensures { result ≡ goes state }
{
    Some(Step { term: None, state })
}

/// The item is the multiple of the variable, where there is one.
fn named(coef: i64, var: Option<u8>) -> Option<Step>
    ensures { result ≡ named coef var }
{
    match var {
        Some(var) => Some(Step {
            term: Some(FormTerm { var, coef }),
            state: State::Behind,
        }),
        None => None,
    }
}

/// An item without the minus of its own begins with the token.
fn quantity_step(negative: bool, class: Class, var: Option<u8>) -> Option<Step>
    ensures { result ≡ quantity_step negative class var }
{
    match class {
        Class::Number(number) => goes(State::Number(sized(negative, number))),
        Class::Name => named(sized(negative, 1), var),
        _ => None,
    }
}

/// An item begins with the token.
fn item_step(subtracted: bool, class: Class, var: Option<u8>) -> Option<Step>
    ensures { result ≡ item_step subtracted class var }
{
    match class {
        Class::Minus => goes(State::Size(!subtracted)),
        _ => quantity_step(subtracted, class, var),
    }
}

/// The sign of the atom stands behind its form.
fn op_step(term: Option<FormTerm>, op: Option<Op>) -> Option<Step>
    ensures { result ≡ op_step term op }
{
    match op {
        Some(op) => Some(Step {
            term,
            state: State::Constant(op),
        }),
        None => None,
    }
}

/// The token stands behind an item, which is complete with it if it wasn't before.
fn behind_step(term: Option<FormTerm>, class: Class) -> Option<Step>
    ensures { result ≡ behind_step term class }
{
    match class {
        Class::Plus => Some(Step {
            term,
            state: State::Item(false),
        }),
        Class::Minus => Some(Step {
            term,
            state: State::Item(true),
        }),
        Class::Compare(sign) => op_step(term, op_of(sign)),
        _ => None,
    }
}

/// A constant among the terms, as one on a variable that no canonical atom has.
fn constant_term(number: i64) -> FormTerm
    ensures { result ≡ constant_term number }
{
    FormTerm {
        var: MAX_KEY_VARS,
        coef: number,
    }
}

/// The token stands behind a number.
fn number_step(number: i64, class: Class) -> Option<Step>
    ensures { result ≡ number_step number class }
{
    match class {
        Class::Times => goes(State::Factor(number)),
        _ => behind_step(Some(constant_term(number)), class),
    }
}

/// The token stands behind a number and a `*`.
fn factor_step(number: i64, class: Class, var: Option<u8>) -> Option<Step>
    ensures { result ≡ factor_step number class var }
{
    match class {
        Class::Name => named(number, var),
        _ => None,
    }
}

/// The token is the constant, behind a minus or not.
fn size_step(op: Op, negative: bool, class: Class) -> Option<Step>
    ensures { result ≡ size_step op negative class }
{
    match class {
        Class::Number(number) => goes(State::Over(op, sized(negative, number))),
        _ => None,
    }
}

/// The token stands behind the op.
fn constant_step(op: Op, class: Class) -> Option<Step>
    ensures { result ≡ constant_step op class }
{
    match class {
        Class::Minus => goes(State::ConstantSize(op)),
        _ => size_step(op, false, class),
    }
}

/// What a token of this class, and of this variable if it names one, does in a state; None where it can't come there.
fn next_step(state: State, class: Class, var: Option<u8>) -> Option<Step>
    ensures { result ≡ next_step state class var }
{
    match state {
        State::Item(subtracted) => item_step(subtracted, class, var),
        State::Size(negative) => quantity_step(negative, class, var),
        State::Number(number) => number_step(number, class),
        State::Factor(number) => factor_step(number, class, var),
        State::Behind => behind_step(None, class),
        State::Constant(op) => constant_step(op, class),
        State::ConstantSize(op) => size_step(op, true, class),
        State::Over(..) => None,
    }
}

/// Whether an item comes next.
fn is_item(state: State) -> bool
    ensures { result ≡ is_item state }
{
    matches!(state, State::Item(_))
}

/// What the token does behind so many terms, or the fault that stands at it.
#[tactic(auto, unfolding(crate::specs::AtomSteps::step_at))]
pub fn step_at(
    bytes: &[u8],
    terms: usize,
    state: State,
    token: Lexeme,
) -> Result<Step, Fault<TextKind>>
    requires order { token.from ≤ token.to }
    requires within { token.to ≤ length bytes.now }
    ensures { result ≡ step_at bytes.now terms state token }
{
    if terms == MAX_TERMS && is_item(state) && begins_item(token.class) {
        return Err(fault_at(TextKind::TooManyTerms, token.from));
    }
    match next_step(state, token.class, var_at(bytes, token)) {
        Some(step) => Ok(step),
        None => Err(refusal(token)),
    }
}
