//! How a call ends: its text is written, or the line of a fault is.
ghost use Rattle.std.specs.Prelude.{◌≡◌};
ghost use Rattle.green_cli.specs.Answered.{says};
ghost use Rattle.green_cli.specs.Call.{change};
ghost use Rattle.green_cli.specs.Statuses.{Ends, FaultIsWritten, IsEmpty, has_lost, has_unknown, is_lost};
ghost use Rattle.green_cli.specs.Statuses.{is_unknown, run_status};
ghost use Rattle.std.specs.List.{list_any};

use crate::fault::Fault;
use crate::outcome::{Outcome, Report};
use crate::refusal::write_fault;
use cert_check::{Reply, Saved};
use outside::{Disk, Sink};
use pipeline::{Answer, Verdict};
use sqlite_items::Items;
use std::alloc::Global;

/// Writes the text of a report, and ends the call with the status that goes with it: 13 where the sink fails, and else
/// 4 where some entry wasn't saved, 3 where some query was left undecided, and 0 where neither was.
pub fn finish<K: Sink, D: Disk>(
    report: Report,
    text: &[u8],
    sink: &mut K,
    disk: D,
    other: D,
) -> Outcome<D>
    ensures ends { Ends text.now (run_status report) (change (K.state sink.old) (K.state sink.new)) result.status }
    ensures report { result.report ≡ report }
    ensures disk { result.disk ≡ disk }
    ensures other { result.other ≡ other }
{
    let status = match sink.write(text) {
        Ok(()) => status_of_run(&report),
        Err(_) => 13,
    };
    Outcome {
        status,
        report,
        disk,
        other,
    }
}

/// Writes the line of a fault, and ends the call with its status and an empty report.
pub fn refuse<K: Sink, D: Disk>(
    alloc: Global,
    fault: Fault,
    sink: &mut K,
    disk: D,
    other: D,
) -> Outcome<D>
    ensures writes { FaultIsWritten fault (change (K.state sink.old) (K.state sink.new)) result.status }
    ensures nothing { IsEmpty result.report }
    ensures disk { result.disk ≡ disk }
    ensures other { result.other ≡ other }
{
    Outcome {
        status: write_fault(alloc, fault, sink),
        report: Report::of_entries(alloc, Vec::new(alloc)),
        disk,
        other,
    }
}

/// The status of a command whose result was written.
fn status_of_run(report: &Report) -> u8
    ensures { result ≡ run_status report.now }
{
    let answers = report.answers.as_slice();
    if loses_entries(answers) {
        4
    } else if leaves_unknown(answers) {
        3
    } else {
        0
    }
}

/// Whether some entry wasn't saved in a journal that is on.
fn loses_entries(answers: &[Items<Answer>]) -> bool
    ensures { result ≡ has_lost answers.now }
{
    answers.iter().any(|script| script_loses(script.as_slice()))
}

fn script_loses(answers: &[Answer]) -> bool
    ensures { result ≡ list_any (λ answer. list_any (says is_lost) answer.parts) answers.now }
{
    answers
        .iter()
        .any(|answer| parts_lose(answer.parts.as_slice()))
}

fn parts_lose(parts: &[Reply]) -> bool
    ensures { result ≡ list_any (says is_lost) parts.now }
{
    parts.iter().any(|reply| reply_loses(reply))
}

fn reply_loses(reply: &Reply) -> bool
    ensures { result ≡ says is_lost reply.now }
{
    match reply {
        Reply::Solved { saved, .. } | Reply::Unkept { saved, .. } => wasnt_saved(saved),
        Reply::Hit { .. } | Reply::Spent { .. } => false,
    }
}

fn wasnt_saved(saved: &Saved) -> bool
    ensures { result ≡ is_lost saved.now }
{
    matches!(saved, Saved::Fault | Saved::Full)
}

/// Whether some query was left undecided.
fn leaves_unknown(answers: &[Items<Answer>]) -> bool
    ensures { result ≡ has_unknown answers.now }
{
    answers
        .iter()
        .any(|script| script_leaves_unknown(script.as_slice()))
}

fn script_leaves_unknown(answers: &[Answer]) -> bool
    ensures { result ≡ list_any (λ answer. is_unknown answer.verdict) answers.now }
{
    answers.iter().any(|answer| is_undecided(&answer.verdict))
}

fn is_undecided(verdict: &Verdict) -> bool
    ensures { result ≡ is_unknown verdict.now }
{
    matches!(verdict, Verdict::Unknown(_))
}
