//! Answering one query.
ghost use Rattle.std.specs.Prelude.{◌≡◌, ◌≤◌, IfOk, OnErr, length};
ghost use Rattle.pipeline.specs.Answers.{AnswersInVain, AnswersQuery};
ghost use Rattle.pipeline.specs.Keyed.{AreKeyed};

use crate::answers::{Answer, Verdict};
use crate::asking::ask_keys;
use crate::slice_keys::{Keyed, SliceKey, keys_of};
use crate::verdicts::verdict_on;
use cert_check::{SliceOracle, asking_keeps_replies, replies_settle};
use lin_model::Condition;
use outside::NoMemory;
use refutation::bounded_keys_are_boxed;
use slicer::slices_exist;
use sqlite_items::Items;
use std::alloc::Global;

/// Answers a query (after Green, FSE 2012). All slices are brought to their keys first. If an atom has no integer
/// solution, the verdict is the least such atom, and nothing is asked. Otherwise the slices with variables are asked in
/// order, up to and with the first whose reply has a core: the verdict is unsat by that slice. Where there is none it
/// is unknown of the first slice on which the splits were used up, and where there is none of these either it is sat,
/// with the value for each variable that its slice's entry has. There are at most 64 parts. The oracle is left just as
/// by the asks of the answer's parts, in order; after want of memory as by those that came before it.
pub fn answer<O: SliceOracle>(
    alloc: Global,
    query: &Condition,
    oracle: &mut O,
) -> Result<Answer, NoMemory>
    ensures answer { IfOk result (λ answer.
        AnswersQuery (O.budget oracle.old) query.now answer (O.seat oracle.old) (O.seat oracle.new)) }
    ensures few { IfOk result (λ answer. length answer.parts ≤ 64) }
    ensures in_vain { OnErr result
        (AnswersInVain (O.budget oracle.old) query.now (O.seat oracle.old) (O.seat oracle.new)) }
    ensures budget { O.budget oracle.new ≡ O.budget oracle.old }
    ensures origin { O.origin oracle.new ≡ O.origin oracle.old }
{
    slices_exist();
    match keys_of(alloc, query)? {
        Keyed::False(j) => Ok(Answer {
            verdict: Verdict::UnsatAtom(j),
            parts: Items::new(alloc),
        }),
        Keyed::Keys(slices) => answer_by_keys(alloc, query, &slices, oracle),
    }
}

/// Answers a query whose slices with variables have these keys.
fn answer_by_keys<O: SliceOracle>(
    alloc: Global,
    query: &Condition,
    slices: &[SliceKey],
    oracle: &mut O,
) -> Result<Answer, NoMemory>
    requires { AreKeyed query.now slices.now }
    ensures answer { IfOk result (λ answer.
        AnswersQuery (O.budget oracle.old) query.now answer (O.seat oracle.old) (O.seat oracle.new)) }
    ensures few { IfOk result (λ answer. length answer.parts ≤ 64) }
    ensures in_vain { OnErr result
        (AnswersInVain (O.budget oracle.old) query.now (O.seat oracle.old) (O.seat oracle.new)) }
    ensures budget { O.budget oracle.new ≡ O.budget oracle.old }
    ensures origin { O.origin oracle.new ≡ O.origin oracle.old }
{
    bounded_keys_are_boxed();
    asking_keeps_replies();
    replies_settle();
    let parts = ask_keys(alloc, slices, oracle)?;
    let verdict = verdict_on(alloc, query, slices, parts.as_slice())?;
    Ok(Answer { verdict, parts })
}
