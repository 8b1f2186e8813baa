//! Implication between canonical atoms.
ghost use Rattle.std.specs.Prelude.{◌≡◌, ◌+◌, ◌↔◌, IsTrue};
ghost use Rattle.atom_implies.specs.Implies.{Implies, HoldsWherever};
ghost use Rattle.atom_implies.specs.Table.{table_says};

use crate::steps::Steps;
use lin_model::{KeyAtom, Op};
use std::sync::ledger::Ledger;

/// Whether `a` implies `b`: both have one form, and no integer that passes the test of `a` fails that of `b`. It takes
/// one step. What atoms of different forms say of each other is not looked for: between them the answer is no.
pub fn implies<L: Ledger>(a: &KeyAtom, b: &KeyAtom, steps: &mut Steps<L>) -> bool
    ensures exact { IsTrue result ↔ Implies a.now b.now }
    ensures carries { IsTrue result → HoldsWherever a.now b.now }
    ensures cost { steps.new ≡ steps.old + 1 }
{
    steps.tick();
    is_implied(a, b)
}

/// Whether the forms are equal and the one test implies the other.
fn is_implied(a: &KeyAtom, b: &KeyAtom) -> bool
    ensures { IsTrue result ↔ Implies a.now b.now }
{
    if !a.form().equals(b.form()) {
        return false;
    }
    test_implies(a.op(), a.constant(), b.op(), b.constant())
}

/// Whether every integer that passes `a c` passes `b d`, by cases.
fn test_implies(a: Op, c: i64, b: Op, d: i64) -> bool
    ensures { result ≡ table_says a c b d }
{
    match a {
        Op::Le => match b {
            Op::Le => c <= d,
            Op::Ne => c < d,
            Op::Ge | Op::Eq => false,
        },
        Op::Ge => match b {
            Op::Ge => c >= d,
            Op::Ne => c > d,
            Op::Le | Op::Eq => false,
        },
        Op::Eq => match b {
            Op::Le => c <= d,
            Op::Ge => c >= d,
            Op::Eq => c == d,
            Op::Ne => c != d,
        },
        Op::Ne => match b {
            Op::Ne => c == d,
            Op::Le | Op::Ge | Op::Eq => false,
        },
    }
}
