//! Writing: the plain spelling of a condition.
ghost use Rattle.std.specs.Prelude.{◌≡◌, ◌++◌, false, length, All, IfOk, OnErr, OnOk, flat_map};
ghost use Rattle.lin_model.specs.Terms.{VarFits, TermFits, ExprFits};
ghost use Rattle.lin_model.specs.Conditions.{IsCondition, AtomFits};
ghost use Rattle.lin_text.specs.Queries.{Spells};
ghost use Rattle.lin_text.specs.Spelling.{condition_text, line, var_text, atom_text, side_text, first_term, later_term};
ghost use Rattle.lin_text.specs.Spelling.{joint_of, size_text, factor_text, name_of, cmp_text, bounds_text};

use crate::laws::written_is_spelled;
use crate::push::{minus, push_integer, push_number, push_str};
use lin_model::{Atom, Cmp, Condition, Expr, Term, Var};
use outside::NoMemory;
use std::alloc::Global;

/// The plain spelling of a condition: each declaration `var NAME LO HI`, and then each comparison
/// `LEFT CMP RIGHT`, in order, each on a line of its own that a line feed ends. The text spells the
/// condition, which keeps its limits.
#[tactic(auto, unfolding(crate::specs::Spelling::condition_text))]
pub fn write_query(alloc: Global, c: &Condition) -> Result<Vec<u8>, NoMemory>
    ensures text { IfOk result (λ text. text.items ≡ condition_text c.now) }
    ensures read_back { IfOk result (λ text. Spells false text.items 0 c.now (length text.items)) }
    ensures fits { OnOk result (IsCondition c.now) }
{
    let mut out = Vec::new(alloc);
    push_vars(&mut out, c.vars())?;
    push_atoms(&mut out, c.vars(), c.atoms())?;
    written_is_spelled();
    Ok(out)
}

/// Adds the plain spelling of a condition at the end, and says that the condition keeps its limits. Where
/// memory runs out, nothing is added.
pub fn push_query(out: &mut Vec<u8>, c: &Condition) -> Result<(), NoMemory>
    ensures text { OnOk result (out.new.items ≡ out.old.items ++ condition_text c.now) }
    ensures kept { OnErr result (out.new.items ≡ out.old.items) }
    ensures fits { OnOk result (IsCondition c.now) }
{
    let text = write_query(*out.allocator(), c)?;
    out.extend_from_slice(&text)?;
    Ok(())
}

fn push_vars(out: &mut Vec<u8>, vars: &[Var]) -> Result<(), NoMemory>
    ensures text { OnOk result (out.new.items ≡ out.old.items ++ flat_map (λ var. line (var_text var)) vars.now) }
    ensures fits { OnOk result (All VarFits vars.now) }
{
    for var in vars {
        push_var(out, var)?;
        out.push(b'\n')?;
    }
    Ok(())
}

#[tactic(auto, unfolding(crate::specs::Spelling::var_text))]
fn push_var(out: &mut Vec<u8>, var: &Var) -> Result<(), NoMemory>
    ensures text { OnOk result (out.new.items ≡ out.old.items ++ var_text var.now) }
    ensures fits { OnOk result (VarFits var.now) }
{
    push_str(out, "var ")?;
    out.extend_from_slice(var.name().as_bytes())?;
    push_bounds(out, var.lo(), var.hi())
}

#[tactic(auto, unfolding(crate::specs::Spelling::bounds_text))]
fn push_bounds(out: &mut Vec<u8>, lo: i64, hi: i64) -> Result<(), NoMemory>
    ensures { OnOk result (out.new.items ≡ out.old.items ++ bounds_text lo hi) }
{
    push_str(out, " ")?;
    push_integer(out, lo)?;
    push_str(out, " ")?;
    push_integer(out, hi)
}

fn push_atoms(out: &mut Vec<u8>, vars: &[Var], atoms: &[Atom]) -> Result<(), NoMemory>
    ensures text { OnOk result
        (out.new.items ≡ out.old.items ++ flat_map (λ atom. line (atom_text vars.now atom)) atoms.now) }
    ensures fits { OnOk result (All AtomFits atoms.now) }
{
    for atom in atoms {
        push_atom(out, vars, atom)?;
        out.push(b'\n')?;
    }
    Ok(())
}

#[tactic(auto, unfolding(crate::specs::Spelling::atom_text))]
fn push_atom(out: &mut Vec<u8>, vars: &[Var], atom: &Atom) -> Result<(), NoMemory>
    ensures text { OnOk result (out.new.items ≡ out.old.items ++ atom_text vars.now atom.now) }
    ensures fits { OnOk result (AtomFits atom.now) }
{
    push_side(out, vars, &atom.left)?;
    push_str(out, " ")?;
    push_str(out, cmp_sign(atom.cmp))?;
    push_str(out, " ")?;
    push_side(out, vars, &atom.right)
}

#[tactic(auto, unfolding(crate::specs::Spelling::cmp_text))]
pub(crate) fn cmp_sign(cmp: Cmp) -> &'static str
    ensures { result.now ≡ cmp_text cmp }
{
    match cmp {
        Cmp::Le => "<=",
        Cmp::Lt => "<",
        Cmp::Ge => ">=",
        Cmp::Gt => ">",
        Cmp::Eq => "=",
        Cmp::Ne => "!=",
    }
}

#[tactic(auto, unfolding(crate::specs::Spelling::side_text))]
fn push_side(out: &mut Vec<u8>, vars: &[Var], side: &Expr) -> Result<(), NoMemory>
    ensures text { OnOk result (out.new.items ≡ out.old.items ++ side_text (name_of vars.now) side.now) }
    ensures fits { OnOk result (ExprFits side.now) }
    ensures terms { OnOk result (All TermFits side.now) }
{
    match side.terms() {
        [] => Ok(()),
        [first, others @ ..] => {
            push_first_term(out, vars, first)?;
            push_later_terms(out, vars, others)
        }
    }
}

#[tactic(auto, unfolding(crate::specs::Spelling::first_term))]
fn push_first_term(out: &mut Vec<u8>, vars: &[Var], term: &Term) -> Result<(), NoMemory>
    ensures text { OnOk result (out.new.items ≡ out.old.items ++ first_term (name_of vars.now) term.now) }
    ensures fits { OnOk result (TermFits term.now) }
{
    push_str(out, minus(term.factor()))?;
    push_size(out, vars, term.factor().unsigned_abs(), term.var())
}

fn push_later_terms(out: &mut Vec<u8>, vars: &[Var], terms: &[Term]) -> Result<(), NoMemory>
    ensures text { OnOk result (out.new.items ≡ out.old.items ++ flat_map (later_term (name_of vars.now)) terms.now) }
    ensures fits { OnOk result (All TermFits terms.now) }
{
    for term in terms {
        push_later_term(out, vars, term)?;
    }
    Ok(())
}

#[tactic(auto, unfolding(crate::specs::Spelling::later_term))]
fn push_later_term(out: &mut Vec<u8>, vars: &[Var], term: &Term) -> Result<(), NoMemory>
    ensures text { OnOk result (out.new.items ≡ out.old.items ++ later_term (name_of vars.now) term.now) }
    ensures fits { OnOk result (TermFits term.now) }
{
    push_str(out, joint(term.factor()))?;
    push_size(out, vars, term.factor().unsigned_abs(), term.var())
}

#[tactic(auto, unfolding(crate::specs::Spelling::joint_of))]
pub(crate) fn joint(factor: i64) -> &'static str
    ensures { result.now ≡ joint_of factor }
{
    if factor < 0 { " - " } else { " + " }
}

#[tactic(auto, unfolding(crate::specs::Spelling::size_text))]
fn push_size(out: &mut Vec<u8>, vars: &[Var], size: u64, var: Option<u32>) -> Result<(), NoMemory>
    ensures { OnOk result (out.new.items ≡ out.old.items ++ size_text (name_of vars.now) size var) }
{
    match var {
        None => push_number(out, size),
        Some(var) => {
            push_factor(out, size)?;
            push_name(out, vars, var)
        }
    }
}

#[tactic(auto, unfolding(crate::specs::Spelling::factor_text))]
pub(crate) fn push_factor(out: &mut Vec<u8>, size: u64) -> Result<(), NoMemory>
    ensures { OnOk result (out.new.items ≡ out.old.items ++ factor_text size) }
{
    if size == 1 {
        return Ok(());
    }
    push_number(out, size)?;
    push_str(out, "*")
}

fn push_name(out: &mut Vec<u8>, vars: &[Var], var: u32) -> Result<(), NoMemory>
    ensures { OnOk result (out.new.items ≡ out.old.items ++ name_of vars.now var) }
{
    if let Some(var) = vars.get(var as usize) {
        out.extend_from_slice(var.name().as_bytes())?;
    }
    Ok(())
}
