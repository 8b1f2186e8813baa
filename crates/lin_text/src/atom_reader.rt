//! Reading the text of a canonical atom.
ghost use Rattle.std.specs.Prelude.{◌≡◌, ◌≤◌, ◌∷◌, ◌⊎◌, [], false, length, IfErr, IfOk, OnOk};
ghost use Rattle.lin_text.specs.Pieces.{line_end};
ghost use Rattle.lin_text.specs.Answers.{IsErrorOf, IsNoMemory, IsToldAt};
ghost use Rattle.lin_text.specs.FirstFaults.{HasFaultFrom};
ghost use Rattle.lin_text.specs.KeyAtomTexts.{atom_rules, HasAtomFault, IsAtomText, SpellsAtom, SpellsAtomTo};
ghost use Rattle.lin_text.specs.AtomSteps.{IsRead, with_term};
ghost use Rattle.lin_text.specs.declared.atom_step.State.TheVariants.{Over};

use crate::atom_step::{State, step_at};
use crate::class::next_lexeme;
use crate::declaration::read_end;
use crate::fault::{TextFault, TextKind};
use crate::lines::{column, first_line, line_below, line_number};
use crate::refusal::{ReadError, fault_at, refusal};
use lin_model::{Form, FormTerm, KeyAtom, Op};
use outside::NoMemory;
use std::alloc::Global;

/// What was read of an atom, and the place behind it. It may not be canonical.
struct Parts {
    terms: Vec<FormTerm>,
    op: Op,
    constant: i64,
    to: usize,
}

/// Adds a term at the end, if there is one.
fn push_term(terms: &mut Vec<FormTerm>, term: Option<FormTerm>) -> Result<(), NoMemory>
    ensures { OnOk result (terms.new.items ≡ with_term terms.old.items term) }
{
    if let Some(term) = term {
        terms.push(term)?;
    }
    Ok(())
}

/// The parts of the atom that begins at `at`, or the fault of its line where a token can't come next.
fn read_parts(
    alloc: Global,
    bytes: &[u8],
    in_proof: bool,
    at: usize,
) -> Result<Parts, ReadError<TextKind>>
    requires { at ≤ length bytes.now }
    ensures read { IfOk result
        (λ r. IsRead in_proof bytes.now at r.terms.items (Over r.op r.constant) r.to) }
    ensures within { IfOk result (λ r. r.to ≤ length bytes.now) }
    ensures fault { IfErr result (IsErrorOf (HasAtomFault in_proof bytes.now at)) }
{
    let mut terms = Vec::new(alloc);
    let mut state = State::Item(false);
    let mut to = at;
    loop {
        if let State::Over(op, constant) = state {
            return Ok(Parts {
                terms,
                op,
                constant,
                to,
            });
        }
        let token = next_lexeme(bytes, in_proof, to);
        let step = step_at(bytes, terms.len(), state, token)?;
        push_term(&mut terms, step.term)?;
        state = step.state;
        to = token.to;
    }
}

/// Reads the canonical atom that begins at `at`, on one line: a form as `write_atom` spells it or in any other spelling
/// of a side, with leading zeros in numbers and in names if wanted, then `<=`, `>=`, `=` or `!=`, then a constant with
/// its sign. With `in_proof` the words `answer`, `core` and `node` are reserved. Beside the atom stands the place behind
/// its constant; what stands there doesn't matter.
///
/// The first fault of the line is answered, where it lies before the end of the atom, with its place among the bytes:
/// `TooManyTerms` at the 65th item, `Token` at what is no token, `Syntax` at a token that can't come next or at the
/// line's end where more must come. What reads as such an atom and isn't canonical is `Syntax` at its first token. Where
/// memory runs out, `NoMemory` is answered.
pub fn read_atom_from(
    alloc: Global,
    bytes: &[u8],
    in_proof: bool,
    at: usize,
) -> Result<(KeyAtom, usize), ReadError<TextKind>>
    requires { at ≤ length bytes.now }
    ensures read { IfOk result (λ r. SpellsAtomTo in_proof bytes.now at r.0 r.1) }
    ensures within { IfOk result (λ r. r.1 ≤ length bytes.now) }
    ensures fault { IfErr result (IsErrorOf (HasAtomFault in_proof bytes.now at)) }
{
    let first = next_lexeme(bytes, in_proof, at);
    let Parts {
        terms,
        op,
        constant,
        to,
    } = read_parts(alloc, bytes, in_proof, at)?;
    match KeyAtom::new(Form::new(terms), op, constant) {
        Some(atom) => Ok((atom, to)),
        None => Err(ReadError::Fault(fault_at(TextKind::Syntax, first.from))),
    }
}

/// Reads the canonical atom that begins at `at` and goes to the end of its line, as `read_atom_from` reads it.
///
/// The first fault of the line is answered, with its place among the bytes: those that `read_atom_from` tells, and
/// `Token` or `Syntax` at what stands behind the atom. Where memory runs out, `NoMemory` is answered.
pub fn read_atom_at(
    alloc: Global,
    bytes: &[u8],
    in_proof: bool,
    at: usize,
) -> Result<KeyAtom, ReadError<TextKind>>
    requires { at ≤ length bytes.now }
    ensures read { IfOk result (λ a. SpellsAtom in_proof bytes.now at a (line_end ∷ [])) }
    ensures fault { IfErr result (IsErrorOf (HasAtomFault in_proof bytes.now at)) }
{
    let (atom, to) = read_atom_from(alloc, bytes, in_proof, at)?;
    read_end(bytes, in_proof, to)?;
    Ok(atom)
}

/// Reads a text of one canonical atom, as `read_atom` does, and names a fault by its place among the bytes.
fn read_alone(alloc: Global, bytes: &[u8]) -> Result<KeyAtom, ReadError<TextKind>>
    ensures read { IfOk result (IsAtomText bytes.now) }
    ensures fault { IfErr result (IsErrorOf (HasFaultFrom atom_rules false bytes.now false 0)) }
{
    let at = first_line(bytes, 0);
    if at == bytes.len() {
        return Err(ReadError::Fault(fault_at(TextKind::Syntax, at)));
    }
    let atom = read_atom_at(alloc, bytes, false, at)?;
    let below = first_line(bytes, line_below(bytes, at));
    if below < bytes.len() {
        return Err(ReadError::Fault(refusal(next_lexeme(bytes, false, below))));
    }
    Ok(atom)
}

/// Reads a text of one canonical atom, as `read_atom_at` reads it, on a line of its own. Before this line and behind it
/// there may be lines that are skipped: blank ones and comments.
///
/// The fault at the least place is answered, with its line and its column: those of the atom's line; `Token` or
/// `Syntax` at the first token of a line behind it; `Syntax` at the input's end, where there is no line. Where memory
/// runs out, `NoMemory` is answered.
pub fn read_atom(alloc: Global, bytes: &[u8]) -> Result<KeyAtom, TextFault>
    ensures read { IfOk result (IsAtomText bytes.now) }
    ensures fault { IfErr result
        (λ f. IsNoMemory f
        ⊎ IsToldAt (HasFaultFrom atom_rules false bytes.now false 0) bytes.now f.kind f.line f.column) }
{
    match read_alone(alloc, bytes) {
        Ok(atom) => Ok(atom),
        Err(ReadError::NoMemory) => Err(TextFault {
            line: 0,
            column: 0,
            kind: TextKind::NoMemory,
        }),
        Err(ReadError::Fault(fault)) => Err(TextFault {
            line: line_number(bytes, fault.at),
            column: column(bytes, fault.at),
            kind: fault.kind,
        }),
    }
}
