//! The command `dump`: what a file recovers to is written as text.
ghost use Rattle.std.specs.Prelude.{IfOk, IfErr};
ghost use Rattle.outside.specs.States.{SourceState};
ghost use Rattle.green_cli.specs.Call.{change};
ghost use Rattle.green_cli.specs.Dump.{Dumps, IsDumpOf, dump_cause};
ghost use Rattle.green_cli.specs.Stores.{IsUnwritten};

use crate::dump_text::write_dump;
use crate::ending::{finish, refuse};
use crate::fault::Fault;
use crate::file_name::FileName;
use crate::outcome::{Outcome, Report};
use journal::{Recovered, scan};
use outside::{Disk, Sink};
use std::alloc::Global;

/// Reads the file of this name as a journal, and writes what it recovers to. Nothing is written to the file; an empty one
/// is made where there is none of this name.
pub fn dump<K: Sink, D: Disk>(
    alloc: Global,
    store: &FileName,
    sink: &mut K,
    disk: D,
    other: D,
) -> Outcome<D>
    ensures { (source : SourceState) → Dumps D.state store.now (record {
      source = change source source;
      sink = change (K.state sink.old) (K.state sink.new);
      disk = change disk result.disk;
      other = change other result.other;
      status = result.status;
      report = result.report;
    }) }
{
    let mut disk = disk;
    match spell_file(alloc, store, &mut disk) {
        Ok(Dumped { report, text }) => finish(report, text.as_slice(), sink, disk, other),
        Err(fault) => refuse(alloc, fault, sink, disk, other),
    }
}

/// A report and its text.
struct Dumped {
    report: Report,
    text: Vec<u8>,
}

/// What the file of this name recovers to, as a report and as text.
fn spell_file<D: Disk>(alloc: Global, store: &FileName, disk: &mut D) -> Result<Dumped, Fault>
    ensures dumped { IfOk result (λ dumped.
        IsDumpOf store.now (D.state disk.old) (D.state disk.new) dumped.report dumped.text.items) }
    ensures cause { IfErr result (dump_cause (D.state disk.old) (D.state disk.new)) }
    ensures unwritten { IsUnwritten (D.state disk.old) (D.state disk.new) }
{
    if disk.bind(store.as_str()).is_err() {
        return Err(Fault::Disk);
    }
    let recovered = scan(alloc, disk)?;
    let text = write_dump(alloc, &recovered)?;
    Ok(Dumped {
        report: Report::of_entries(alloc, recovered.entries),
        text,
    })
}
