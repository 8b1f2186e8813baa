//! The top call.
ghost use Rattle.std.specs.Prelude.{◌≡◌, map};
ghost use Rattle.std.specs.String.{string_bytes};
ghost use Rattle.green_cli.specs.Call.{change};
ghost use Rattle.green_cli.specs.Commands.{Does, DoesAsAsked};

use crate::dump::dump;
use crate::ending::refuse;
use crate::fault::Fault;
use crate::outcome::Outcome;
use crate::solve::solve;
use crate::words::{Command, WordsFault, read_words};
use outside::{Disk, Gate, Sink, Source};
use std::alloc::Global;

/// Does what the words ask for, as `run_once` does it. Words that ask for no command are refused with status 10, or
/// with 16 where memory ran out, and the source is left alone.
pub fn green<S: Source, K: Sink, D: Disk + Send, G: Gate + Sync>(
    alloc: Global,
    words: &[String],
    source: &mut S,
    sink: &mut K,
    disk: D,
    other: D,
    _gate: &G,
) -> Outcome<D>
    ensures does { DoesAsAsked D.state (map string_bytes words.now) (record {
      source = change (S.state source.old) (S.state source.new);
      sink = change (K.state sink.old) (K.state sink.new);
      disk = change disk result.disk;
      other = change other result.other;
      status = result.status;
      report = result.report;
    }) }
    ensures unread { result.status ≡ 10 → source.new ≡ source.old }
{
    match read_words(alloc, words) {
        Ok(command) => run_once(alloc, &command, source, sink, disk, other),
        Err(WordsFault::Usage) => refuse(alloc, Fault::Usage, sink, disk, other),
        Err(WordsFault::NoMemory) => refuse(alloc, Fault::NoMemory, sink, disk, other),
    }
}

/// Does a command, and hands the disks back: the second as it is, and the first too unless a store is named. The
/// statuses of `solve`:
///
/// 0: the whole input spells the session of the report; each answer is right for the log and the entries there, and
/// tells sat or unsat; each entry that was solved is saved, if a store is named; the sink took the whole text of the
/// answers. 3: the same, but some answer is `Unknown`. 4: the same as 0 or 3, but some entry wasn't saved, since the
/// disk failed or the file was full. 13: the sink failed and took a front of the text.
///
/// The others write a line of their own, or a front of it where the sink fails, and leave the report empty. 11: the
/// input is no session; the line tells its first fault. 12: the source failed. 14: the disk failed while the store was
/// opened. 16: memory ran out. 17: the store is no journal. 18: more than 16,777,216 bytes came.
///
/// A session's text within the limit, a store that can be opened, and no fault of source, sink or disk give 0, 3 or 16,
/// or 4 where the file was full; and 3 doesn't come where the budget is at least the room of the key of each slice that
/// was asked.
///
/// The statuses of `dump` are 0, 13, 14, 16 and 17, for the same reasons; the file isn't written.
pub fn run_once<S: Source, K: Sink, D: Disk>(
    alloc: Global,
    command: &Command,
    source: &mut S,
    sink: &mut K,
    disk: D,
    other: D,
) -> Outcome<D>
    ensures { Does D.state command.now (record {
      source = change (S.state source.old) (S.state source.new);
      sink = change (K.state sink.old) (K.state sink.new);
      disk = change disk result.disk;
      other = change other result.other;
      status = result.status;
      report = result.report;
    }) }
{
    match command {
        Command::Solve { store, budget } => solve(
            alloc,
            store.as_ref(),
            *budget,
            source,
            sink,
            disk,
            other,
        ),
        Command::Dump { store } => dump(alloc, store, sink, disk, other),
    }
}
