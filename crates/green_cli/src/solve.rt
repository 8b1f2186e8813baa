//! The command `solve`: a session is read, answered over a store, and its answers are written.
ghost use Rattle.std.specs.Prelude.{◌≡◌, IfOk, option_map};
ghost use Rattle.journal.specs.Journals.{KeepsJournal, origin_of};
ghost use Rattle.journal.specs.Laws.{FramesStand, FrontsAreRecovered, KeptEntriesAreHeld, NoRoomStays, OneListIsRecovered};
ghost use Rattle.green_cli.specs.AnswersText.{HaveAnswers, answers_text};
ghost use Rattle.green_cli.specs.Answered.{IsRightReport};
ghost use Rattle.green_cli.specs.Call.{change};
ghost use Rattle.green_cli.specs.Ends.{EndsOver, EndsSession};
ghost use Rattle.green_cli.specs.Opened.{IsStarted};
ghost use Rattle.green_cli.specs.Saves.{writes_in};
ghost use Rattle.green_cli.specs.Solve.{Solves};

use crate::answers_text::write_answers;
use crate::budget::Budget;
use crate::ending::{finish, refuse};
use crate::fault::Fault;
use crate::file_name::FileName;
use crate::input::take_session;
use crate::outcome::{Outcome, Report};
use crate::report::report_session;
use crate::store::{Opened, open};
use journal::{
    Journal, frames_stand, fronts_are_recovered, kept_entries_are_held, no_room_stays,
    one_list_is_recovered,
};
use lin_model::Session;
use outside::{Disk, NoMemory, Sink, Source};
use pipeline::sufficient_budgets_decide;
use session_text::spelled_has_no_fault;
use std::alloc::Global;

/// Reads a session from the source, opens the file that is named as the store, or takes one in memory where none is,
/// answers the queries with this budget for each slice, and writes the answers.
pub fn solve<S: Source, K: Sink, D: Disk>(
    alloc: Global,
    store: Option<&FileName>,
    budget: Budget,
    source: &mut S,
    sink: &mut K,
    disk: D,
    other: D,
) -> Outcome<D>
    ensures { Solves D.state (option_map (λ name. name.now) store.entry) budget (record {
      source = change (S.state source.old) (S.state source.new);
      sink = change (K.state sink.old) (K.state sink.new);
      disk = change disk result.disk;
      other = change other result.other;
      status = result.status;
      report = result.report;
    }) }
{
    spelled_has_no_fault();
    sufficient_budgets_decide();
    files_hold();
    match take_session(alloc, source) {
        Ok(session) => solve_session(alloc, store, budget, session, sink, disk, other),
        Err(fault) => refuse(alloc, fault, sink, disk, other),
    }
}

/// What the journal's laws say of files.
fn files_hold()
    ensures fronts { FrontsAreRecovered }
    ensures one { OneListIsRecovered }
    ensures frames { FramesStand }
    ensures room { NoRoomStays }
    ensures kept { KeptEntriesAreHeld }
{
    fronts_are_recovered();
    one_list_is_recovered();
    frames_stand();
    no_room_stays();
    kept_entries_are_held();
}

/// Opens the store, answers the session and writes the answers.
fn solve_session<K: Sink, D: Disk>(
    alloc: Global,
    store: Option<&FileName>,
    budget: Budget,
    session: Session,
    sink: &mut K,
    disk: D,
    other: D,
) -> Outcome<D>
    ensures ends { EndsSession D.state (option_map (λ name. name.now) store.entry) budget session
        (change (K.state sink.old) (K.state sink.new)) disk result }
    ensures other { result.other ≡ other }
{
    match open(alloc, store, disk) {
        Ok(opened) => solve_opened(alloc, budget, session, opened, sink, other),
        Err((fault, disk)) => refuse(alloc, fault, sink, disk, other),
    }
}

/// Answers the session over the store that was opened, and writes the answers.
fn solve_opened<K: Sink, D: Disk>(
    alloc: Global,
    budget: Budget,
    session: Session,
    opened: Opened<D>,
    sink: &mut K,
    other: D,
) -> Outcome<D>
    requires { IsStarted D.state opened }
    ensures ends { EndsOver D.state budget session opened (change (K.state sink.old) (K.state sink.new)) result }
    ensures other { result.other ≡ other }
{
    let (solved, journal) = answer(alloc, budget, session, opened);
    let disk = journal.close();
    match solved {
        Ok(Solved { report, text }) => finish(report, text.as_slice(), sink, disk, other),
        Err(NoMemory) => refuse(alloc, Fault::NoMemory, sink, disk, other),
    }
}

/// A report and its text.
struct Solved {
    report: Report,
    text: Vec<u8>,
}

/// Answers a session, and spells the answers. The journal comes back.
fn answer<D: Disk>(
    alloc: Global,
    budget: Budget,
    session: Session,
    opened: Opened<D>,
) -> (Result<Solved, NoMemory>, Journal<D>)
    requires { IsStarted D.state opened }
    ensures session { IfOk result.0 (λ solved. solved.report.session ≡ session) }
    ensures right { IfOk result.0 (λ solved.
        IsRightReport budget opened.recovered.entries.items opened.journal.off solved.report) }
    ensures text { IfOk result.0 (λ solved.
        solved.text.items ≡ answers_text solved.report.session solved.report.answers) }
    ensures wrotes { IfOk result.0 (λ solved. result.1.wrotes ≡ writes_in solved.report) }
    ensures kept { KeepsJournal D.state result.1 }
    ensures origin { origin_of result.1 ≡ origin_of opened.journal }
{
    let (report, journal) = report_session(alloc, budget, session, opened);
    match report {
        Ok(report) => (spelled(alloc, report), journal),
        Err(NoMemory) => (Err(NoMemory), journal),
    }
}

/// The report with the text of its answers.
fn spelled(alloc: Global, report: Report) -> Result<Solved, NoMemory>
    requires { HaveAnswers report.session report.answers }
    ensures report { IfOk result (λ solved. solved.report ≡ report) }
    ensures text { IfOk result (λ solved. solved.text.items ≡ answers_text report.session report.answers) }
{
    let text = write_answers(alloc, &report.session, report.answers.as_slice())?;
    Ok(Solved { report, text })
}
