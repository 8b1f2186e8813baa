//! The report of a session that was answered.
ghost use Rattle.std.specs.Prelude.{◌≡◌, ◌+◌, ◌≤◌, IfOk, length};
ghost use Rattle.journal.specs.Journals.{KeepsJournal, list_of, origin_of};
ghost use Rattle.green_cli.specs.Answered.{IsRightReport};
ghost use Rattle.green_cli.specs.Opened.{IsStarted};
ghost use Rattle.green_cli.specs.Saves.{writes_in};

use crate::answering::{Answered, answer_session};
use crate::budget::Budget;
use crate::outcome::Report;
use crate::store::Opened;
use cert_check::{flights_are_counted, flights_begin_rightly};
use journal::Journal;
use lin_model::Session;
use outside::{Disk, NoMemory};
use pipeline::{Answer, answering_keeps_answers};
use sqlite_items::Items;
use std::alloc::Global;
use store_core::Core;

/// Answers a session over the store that was opened, and reports what happened there. The journal comes back.
pub fn report_session<D: Disk>(
    alloc: Global,
    budget: Budget,
    session: Session,
    opened: Opened<D>,
) -> (Result<Report, NoMemory>, Journal<D>)
    requires { IsStarted D.state opened }
    ensures session { IfOk result.0 (λ report. report.session ≡ session) }
    ensures right { IfOk result.0 (IsRightReport budget opened.recovered.entries.items opened.journal.off) }
    ensures wrotes { IfOk result.0 (λ report. result.1.wrotes ≡ writes_in report) }
    ensures kept { KeepsJournal D.state result.1 }
    ensures origin { origin_of result.1 ≡ origin_of opened.journal }
{
    answering_keeps_answers();
    flights_are_counted();
    flights_begin_rightly();
    let opening = opened.journal.len();
    match answer_session(alloc, budget, &session, opened) {
        Ok(answered) => report_of(alloc, session, answered, opening),
        Err((NoMemory, journal)) => (Err(NoMemory), journal),
    }
}

/// The report of a session and of what it came to, over a store that was opened with so many entries. What the journal's
/// list has more was saved for this session.
fn report_of<D: Disk>(
    alloc: Global,
    session: Session,
    answered: Answered<D>,
    opening: u32,
) -> (Result<Report, NoMemory>, Journal<D>)
    requires { opening ≤ length (list_of answered.journal) }
    ensures report { IfOk result.0 (λ report. (report.session ≡ session) × (report.answers ≡ answered.answers)
        × (report.log ≡ answered.core.events) × (report.entries ≡ answered.core.state.entries)
        × (report.saved + opening ≡ length (list_of answered.journal))) }
    ensures journal { result.1 ≡ answered.journal }
{
    let Answered {
        answers,
        core,
        journal,
    } = answered;
    let saved = u64::from(journal.len() - opening);
    (with_store(alloc, session, answers, core, saved), journal)
}

/// The report of these answers, with the entries and the events of the store.
fn with_store(
    alloc: Global,
    session: Session,
    answers: Items<Items<Answer>>,
    core: Core,
    saved: u64,
) -> Result<Report, NoMemory>
    ensures { IfOk result (λ report. report ≡ record {
      session = session;
      answers = answers;
      log = core.events;
      entries = core.state.entries;
      saved = saved;
    }) }
{
    let (version, events) = core.into_parts();
    let entries = version.get().entries(alloc)?;
    Ok(Report {
        session,
        answers,
        log: Items::from_vec(events),
        entries: Items::from_vec(entries),
        saved,
    })
}
