//! A query while it is read: what its lines so far declare and compare.
ghost use Rattle.std.specs.Prelude.{◌≡◌, ◌≤◌, [], length, All, AllPairs};
ghost use Rattle.lin_model.specs.Conditions.{Fits, Differ, AtomNamesBelow};
ghost use Rattle.lin_text.specs.Reading.{Gives, line_at, var_line_at, atom_line_at, full_query_at, begins_atom_class};
ghost use Rattle.lin_text.specs.Queries.{names_of};

use crate::class::{Class, Lexeme, next_lexeme};
use crate::declaration::read_variable;
use crate::fault::TextKind;
use crate::names::Names;
use crate::refusal::{Fault, ReadError, fault_at, refusal};
use crate::side::read_atom_line;
use lin_model::{Atom, Condition, MAX_ATOMS, MAX_VARS, Var};
use std::alloc::Global;
use std::marker::Model;

/// The variables that were declared so far, with their names, and the atoms that were compared so far.
#[derive(Drop)]
pub struct Draft {
    names: Names,
    vars: Vec<Var>,
    atoms: Vec<Atom>,
}

impl Model for Draft {
    ghost use Rattle.lin_model.specs.Conditions.{PlainCondition};
    ghost use Rattle.lin_text.specs.Queries.{IsDraft};

    ghost Value = { PlainCondition };

    ghost view = { λ draft. record { vars = draft.vars.items; atoms = draft.atoms.items } };

    ghost invariant = { λ draft. IsDraft draft.names draft.vars.items draft.atoms.items };
}

impl Draft {
    pub fn new(alloc: Global) -> Draft
        ensures { result ≡ record { vars = []; atoms = [] } }
    {
        Draft {
            names: Names::new(alloc),
            vars: Vec::new(alloc),
            atoms: Vec::new(alloc),
        }
    }

    /// The condition that was read.
    pub fn into_condition(self) -> Condition
        requires distinct { AllPairs Differ self.vars }
        requires in_range { All (AtomNamesBelow (length self.vars)) self.atoms }
        ensures value { result ≡ self }
        ensures fits { Fits result.vars result.atoms }
    {
        let Draft {
            names: _,
            vars,
            atoms,
        } = self;
        Condition::new(vars, atoms)
    }

    /// The query with the variable that is declared behind the word `var`, which is the token.
    #[tactic(auto, using(std::proofs::lemmas::List::map_push), unfolding(crate::specs::Reading::var_line_at))]
    fn with_variable(
        self,
        alloc: Global,
        bytes: &[u8],
        in_proof: bool,
        word: Lexeme,
    ) -> Result<Draft, ReadError<TextKind>>
        requires { word.to ≤ length bytes.now }
        ensures { Gives result (var_line_at in_proof bytes.now self word) }
    {
        let Draft {
            mut names,
            mut vars,
            atoms,
        } = self;
        if vars.len() == MAX_VARS {
            return Err(ReadError::Fault(fault_at(TextKind::TooManyVars, word.from)));
        }
        let var = read_variable(alloc, bytes, in_proof, &names, word.to)?;
        names.add(alloc, var.name().as_bytes())?;
        vars.push(var)?;
        Ok(Draft { names, vars, atoms })
    }

    /// The query with the atom of the line that begins with the token.
    #[tactic(auto, unfolding(crate::specs::Reading::atom_line_at))]
    fn with_atom(
        self,
        alloc: Global,
        bytes: &[u8],
        in_proof: bool,
        first: Lexeme,
    ) -> Result<Draft, ReadError<TextKind>>
        requires order { first.from ≤ first.to }
        requires within { first.to ≤ length bytes.now }
        ensures { Gives result (atom_line_at in_proof bytes.now self first) }
    {
        let Draft {
            names,
            vars,
            mut atoms,
        } = self;
        if atoms.len() == MAX_ATOMS {
            return Err(ReadError::Fault(full_query_at(first)));
        }
        let atom = read_atom_line(alloc, bytes, in_proof, &names, first)?;
        atoms.push(atom)?;
        Ok(Draft { names, vars, atoms })
    }

    /// The query with the line that begins with the token, which is no reserved word but `var`.
    #[tactic(auto, unfolding(crate::specs::Reading::line_at))]
    pub fn with_line(
        self,
        alloc: Global,
        bytes: &[u8],
        in_proof: bool,
        first: Lexeme,
    ) -> Result<Draft, ReadError<TextKind>>
        requires order { first.from ≤ first.to }
        requires within { first.to ≤ length bytes.now }
        ensures { Gives result (line_at in_proof bytes.now self first) }
    {
        match first.class {
            Class::Var => self.with_variable(alloc, bytes, in_proof, first),
            _ => self.with_atom(alloc, bytes, in_proof, first),
        }
    }
}

/// Whether a comparison is counted that begins with the token.
fn begins_atom(class: Class) -> bool
    ensures { result ≡ begins_atom_class class }
{
    !matches!(
        class,
        Class::Var | Class::Word | Class::Bad | Class::LineEnd
    )
}

/// The fault where a query has all the comparisons that it may have.
#[tactic(auto, unfolding(crate::specs::Reading::full_query_at))]
fn full_query_at(token: Lexeme) -> Fault<TextKind>
    ensures { result ≡ full_query_at token }
{
    if begins_atom(token.class) {
        fault_at(TextKind::TooManyAtoms, token.from)
    } else {
        refusal(token)
    }
}
