//! Writing the answers to a session.
ghost use Rattle.std.specs.Prelude.{◌≡◌, ◌++◌, ◌+◌, length, IfOk, OnOk, codes, decimal};
ghost use Rattle.lin_text.specs.Spelling.{line};
ghost use Rattle.green_cli.specs.AnswersText.{HaveAnswers, answer_text, answers_text, executors_text, model_text};
ghost use Rattle.green_cli.specs.AnswersText.{part_text, parts_text, saved_text, script_text, value_text, verdict_text};

use cert_check::{Reply, Saved};
use lin_model::{Condition, Script, Session, Var};
use lin_text::{push_integer, push_number, push_str};
use outside::NoMemory;
use pipeline::{Answer, Verdict};
use sqlite_items::Items;
use std::alloc::Global;

/// The text of the answers: a line that begins it, for each executor a line and a line for each of its queries, and a
/// line that ends it.
#[tactic(auto, unfolding(crate::specs::AnswersText::answers_text))]
pub fn write_answers(
    alloc: Global,
    session: &Session,
    answers: &[Items<Answer>],
) -> Result<Vec<u8>, NoMemory>
    requires { HaveAnswers session.now answers.now }
    ensures { IfOk result (λ text. text.items ≡ answers_text session.now answers.now) }
{
    let mut out = Vec::new(alloc);
    push_str(&mut out, "green answers 1\n")?;
    push_executors(&mut out, session.executors(), answers)?;
    push_str(&mut out, "end\n")?;
    Ok(out)
}

fn push_executors(
    out: &mut Vec<u8>,
    executors: &[Script],
    scripts: &[Items<Answer>],
) -> Result<(), NoMemory>
    requires { HaveAnswers executors.now scripts.now }
    ensures { OnOk result (out.new.items ≡ out.old.items ++ executors_text executors.now scripts.now) }
{
    for (i, executor) in executors.iter().enumerate() {
        push_str(out, "executor\n")?;
        push_script(out, executor.queries(), scripts[i].as_slice())?;
    }
    Ok(())
}

/// Adds a line for each answer.
fn push_script(out: &mut Vec<u8>, queries: &[Condition], answers: &[Answer]) -> Result<(), NoMemory>
    requires { length queries.now ≡ length answers.now }
    ensures { OnOk result (out.new.items ≡ out.old.items ++ script_text queries.now answers.now) }
{
    for (i, query) in queries.iter().enumerate() {
        push_line(out, query, &answers[i])?;
    }
    Ok(())
}

/// Adds the line of one answer.
fn push_line(out: &mut Vec<u8>, query: &Condition, answer: &Answer) -> Result<(), NoMemory>
    ensures { OnOk result (out.new.items ≡ out.old.items ++ line (answer_text query.now answer.now)) }
{
    push_answer(out, query, answer)?;
    out.push(b'\n')?;
    Ok(())
}

#[tactic(auto, unfolding(crate::specs::AnswersText::answer_text))]
fn push_answer(out: &mut Vec<u8>, query: &Condition, answer: &Answer) -> Result<(), NoMemory>
    ensures { OnOk result (out.new.items ≡ out.old.items ++ answer_text query.now answer.now) }
{
    push_verdict(out, query.vars(), &answer.verdict)?;
    push_parts(out, answer.parts.as_slice())
}

#[tactic(auto, unfolding(crate::specs::AnswersText::verdict_text))]
fn push_verdict(out: &mut Vec<u8>, vars: &[Var], verdict: &Verdict) -> Result<(), NoMemory>
    ensures { OnOk result (out.new.items ≡ out.old.items ++ verdict_text vars.now verdict.now) }
{
    match verdict {
        Verdict::Sat(values) => {
            push_str(out, "sat")?;
            push_model(out, vars, values.as_slice())
        }
        Verdict::UnsatAtom(atom) => push_numbered(out, "unsat atom ", *atom),
        Verdict::UnsatSlice(slice) => push_numbered(out, "unsat slice ", *slice),
        Verdict::Unknown(slice) => push_numbered(out, "unknown slice ", *slice),
    }
}

fn push_numbered(out: &mut Vec<u8>, words: &str, number: u32) -> Result<(), NoMemory>
    ensures { OnOk result (out.new.items ≡ out.old.items ++ (words.now ++ decimal (number + 1))) }
{
    push_str(out, words)?;
    push_number(out, u64::from(number) + 1)
}

fn push_model(out: &mut Vec<u8>, vars: &[Var], values: &[i64]) -> Result<(), NoMemory>
    ensures { OnOk result (out.new.items ≡ out.old.items ++ model_text vars.now values.now) }
{
    for (i, var) in vars.iter().enumerate() {
        let Some(value) = values.get(i) else {
            return Ok(());
        };
        push_value(out, var, *value)?;
    }
    Ok(())
}

#[tactic(auto, unfolding(crate::specs::AnswersText::value_text))]
fn push_value(out: &mut Vec<u8>, var: &Var, value: i64) -> Result<(), NoMemory>
    ensures { OnOk result (out.new.items ≡ out.old.items ++ value_text var.now value) }
{
    push_str(out, " ")?;
    out.extend_from_slice(var.name().as_bytes())?;
    push_str(out, "=")?;
    push_integer(out, value)
}

/// Adds a mark for each part.
fn push_parts(out: &mut Vec<u8>, parts: &[Reply]) -> Result<(), NoMemory>
    ensures { OnOk result (out.new.items ≡ out.old.items ++ parts_text parts.now) }
{
    for part in parts {
        push_part(out, part)?;
    }
    Ok(())
}

#[tactic(auto, unfolding(crate::specs::AnswersText::part_text))]
fn push_part(out: &mut Vec<u8>, part: &Reply) -> Result<(), NoMemory>
    ensures { OnOk result (out.new.items ≡ out.old.items ++ part_text part.now) }
{
    match part {
        Reply::Hit { place, .. } => push_hit(out, *place),
        Reply::Solved { place, saved, .. } => push_new(out, *place, *saved),
        Reply::Unkept { saved, .. } => push_unkept(out, *saved),
        Reply::Spent { .. } => push_str(out, " [spent]"),
    }
}

/// Adds the mark of an entry that was found at this place.
fn push_hit(out: &mut Vec<u8>, place: u32) -> Result<(), NoMemory>
    ensures { OnOk result (out.new.items ≡ out.old.items ++ (codes " [hit " ++ decimal place ++ codes "]")) }
{
    push_str(out, " [hit ")?;
    push_number(out, u64::from(place))?;
    push_str(out, "]")
}

/// Adds the mark of an entry that was kept at this place.
fn push_new(out: &mut Vec<u8>, place: u32, saved: Saved) -> Result<(), NoMemory>
    ensures { OnOk result (out.new.items ≡ out.old.items ++ (codes " [new " ++ decimal place ++ saved_text saved)) }
{
    push_str(out, " [new ")?;
    push_number(out, u64::from(place))?;
    push_str(out, saved_words(saved))
}

/// Adds the mark of an entry for which there was no room.
fn push_unkept(out: &mut Vec<u8>, saved: Saved) -> Result<(), NoMemory>
    ensures { OnOk result (out.new.items ≡ out.old.items ++ (codes " [unkept" ++ saved_text saved)) }
{
    push_str(out, " [unkept")?;
    push_str(out, saved_words(saved))
}

/// What the mark of an entry says of the journal, up to its end.
#[tactic(auto, unfolding(crate::specs::AnswersText::saved_text))]
fn saved_words(saved: Saved) -> &'static str
    ensures { result.now ≡ saved_text saved }
{
    match saved {
        Saved::At(_) => " saved]",
        Saved::Fault => " fault]",
        Saved::Full => " full]",
        Saved::Off => "]",
    }
}
