//! Writing: the plain spelling of a session.
ghost use Rattle.std.specs.Prelude.{◌≡◌, ◌++◌, All, IfOk, OnOk, flat_map};
ghost use Rattle.lin_model.specs.Conditions.{IsCondition};
ghost use Rattle.lin_text.specs.Spelling.{line};
ghost use Rattle.session_text.specs.Spelling.{query_text, executor_text, session_text};
ghost use Rattle.session_text.specs.Sessions.{SpellsSession};

use crate::laws::written_is_spelled;
use lin_model::{Condition, Script, Session};
use lin_text::{push_query, push_str};
use outside::NoMemory;
use std::alloc::Global;

/// The plain spelling of a session: the header, for each executor its line and, for each of its queries, the
/// line `query` and the plain spelling of the condition, and then the line `end`. A line feed ends each line.
/// The text spells the session.
#[tactic(auto, unfolding(crate::specs::Spelling::session_text))]
pub fn write_session(alloc: Global, s: &Session) -> Result<Vec<u8>, NoMemory>
    ensures text { IfOk result (λ text. text.items ≡ session_text s.now) }
    ensures read_back { IfOk result (λ text. SpellsSession text.items s.now) }
{
    let mut out = Vec::new(alloc);
    push_line(&mut out, "green 1")?;
    push_executors(&mut out, s.executors())?;
    push_line(&mut out, "end")?;
    written_is_spelled();
    Ok(out)
}

fn push_line(out: &mut Vec<u8>, text: &str) -> Result<(), NoMemory>
    ensures { OnOk result (out.new.items ≡ out.old.items ++ line text.now) }
{
    push_str(out, text)?;
    out.push(b'\n')?;
    Ok(())
}

fn push_executors(out: &mut Vec<u8>, scripts: &[Script]) -> Result<(), NoMemory>
    ensures text { OnOk result (out.new.items ≡ out.old.items ++ flat_map executor_text scripts.now) }
    ensures fits { OnOk result (All (All IsCondition) scripts.now) }
{
    for script in scripts {
        push_executor(out, script.queries())?;
    }
    Ok(())
}

#[tactic(auto, unfolding(crate::specs::Spelling::executor_text))]
fn push_executor(out: &mut Vec<u8>, queries: &[Condition]) -> Result<(), NoMemory>
    ensures text { OnOk result (out.new.items ≡ out.old.items ++ executor_text queries.now) }
    ensures fits { OnOk result (All IsCondition queries.now) }
{
    push_line(out, "executor")?;
    push_queries(out, queries)
}

fn push_queries(out: &mut Vec<u8>, queries: &[Condition]) -> Result<(), NoMemory>
    ensures text { OnOk result (out.new.items ≡ out.old.items ++ flat_map query_text queries.now) }
    ensures fits { OnOk result (All IsCondition queries.now) }
{
    for query in queries {
        push_asked(out, query)?;
    }
    Ok(())
}

#[tactic(auto, unfolding(crate::specs::Spelling::query_text))]
fn push_asked(out: &mut Vec<u8>, query: &Condition) -> Result<(), NoMemory>
    ensures text { OnOk result (out.new.items ≡ out.old.items ++ query_text query.now) }
    ensures fits { OnOk result (IsCondition query.now) }
{
    push_line(out, "query")?;
    push_query(out, query)
}
