//! Answering the queries of a session in order, over one store.
ghost use Rattle.std.specs.Prelude.{◌≡◌, [], IfErr, IfOk};
ghost use Rattle.pipeline.specs.Runs.{AnswersAll};
ghost use Rattle.journal.specs.Journals.{KeepsJournal, list_of, origin_of};
ghost use Rattle.shared_store.specs.Local.{IsJournalOf, IsOwn, seat_of_both};
ghost use Rattle.store_core.specs.Cores.{started};
ghost use Rattle.green_cli.specs.Answered.{in_order};
ghost use Rattle.green_cli.specs.AnswersText.{HaveAnswers};
ghost use Rattle.green_cli.specs.Opened.{IsStarted};

use crate::budget::Budget;
use crate::store::Opened;
use cert_check::SliceOracle;
use journal::Journal;
use lin_model::{Condition, Script, Session};
use outside::{Disk, NoMemory};
use pipeline::{Answer, answer};
use shared_store::LocalStore;
use sqlite_items::Items;
use std::alloc::Global;
use store_core::Core;

/// What a session came to.
pub struct Answered<D: Disk> {
    /// One answer for each query of each executor.
    pub answers: Items<Items<Answer>>,
    /// The entries and the events of the store that answered them.
    pub core: Core,
    /// The journal of that store.
    pub journal: Journal<D>,
}

/// Answers each query of each executor, in order, over the store that was opened, which gives each key this many splits.
/// Where memory runs out the journal comes back.
pub fn answer_session<D: Disk>(
    alloc: Global,
    budget: Budget,
    session: &Session,
    opened: Opened<D>,
) -> Result<Answered<D>, (NoMemory, Journal<D>)>
    requires { IsStarted D.state opened }
    ensures run { IfOk result (λ answered. AnswersAll budget (in_order session.now) (in_order answered.answers)
        (seat_of_both (started opened.recovered.entries.items) opened.journal)
        (seat_of_both answered.core answered.journal)) }
    ensures own { IfOk result (λ answered. IsOwn answered.core) }
    ensures shape { IfOk result (λ answered. HaveAnswers session.now answered.answers) }
    ensures journal { IfOk result (λ answered. IsJournalOf answered.core answered.journal) }
    ensures kept { IfOk result (λ answered. KeepsJournal D.state answered.journal) }
    ensures origin { IfOk result (λ answered. origin_of answered.journal ≡ origin_of opened.journal) }
    ensures back { IfErr result (λ failed.
        KeepsJournal D.state failed.1 × (origin_of failed.1 ≡ origin_of opened.journal)) }
{
    let Opened { journal, recovered } = opened;
    let _len = journal.len();
    let mut store = LocalStore::start(alloc, journal, recovered, budget.splits())?;
    let answers = answer_executors(alloc, session.executors(), &mut store);
    let (core, journal) = store.close();
    match answers {
        Ok(answers) => Ok(Answered {
            answers,
            core,
            journal,
        }),
        Err(NoMemory) => Err((NoMemory, journal)),
    }
}

/// One answer for each query of each executor.
fn answer_executors<O: SliceOracle>(
    alloc: Global,
    executors: &[Script],
    oracle: &mut O,
) -> Result<Items<Items<Answer>>, NoMemory>
    ensures run { IfOk result (λ answers. AnswersAll (O.budget oracle.old) (in_order executors.now) (in_order answers)
        (O.seat oracle.old) (O.seat oracle.new)) }
    ensures shape { IfOk result (HaveAnswers executors.now) }
    ensures origin { O.origin oracle.new ≡ O.origin oracle.old }
{
    let mut answers = Items::new(alloc);
    for executor in executors {
        answers.push(answer_script(alloc, executor.queries(), oracle)?)?;
    }
    Ok(answers)
}

/// One answer for each query of one executor.
fn answer_script<O: SliceOracle>(
    alloc: Global,
    queries: &[Condition],
    oracle: &mut O,
) -> Result<Items<Answer>, NoMemory>
    ensures run { IfOk result (λ answers.
        AnswersAll (O.budget oracle.old) queries.now answers (O.seat oracle.old) (O.seat oracle.new)) }
    ensures budget { O.budget oracle.new ≡ O.budget oracle.old }
    ensures origin { O.origin oracle.new ≡ O.origin oracle.old }
{
    let mut answers = Items::new(alloc);
    for query in queries {
        answers.push(answer(alloc, query, oracle)?)?;
    }
    Ok(answers)
}
