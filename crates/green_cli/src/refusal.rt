//! Writing the line of a fault.
ghost use Rattle.std.specs.Prelude.{◌≡◌, ◌≢◌, ◌++◌, IfOk, OnOk};
ghost use Rattle.green_cli.specs.Call.{change};
ghost use Rattle.green_cli.specs.Lines.{kind_text, line_of, text_line};
ghost use Rattle.green_cli.specs.Statuses.{FaultIsWritten, WritesFault};

use crate::fault::Fault;
use lin_text::{SessionFault, SessionKind, push_number, push_str};
use outside::{NoMemory, Sink};
use std::alloc::Global;

/// Writes the line of a fault, and answers its status. Where memory runs out while the line of a text's fault is made,
/// they are those of `Fault::NoMemory`, and so are they for a text's fault of the kind `NoMemory`. The status stays
/// where the sink fails.
#[tactic(auto, unfolding(crate::specs::Lines::line_of))]
pub fn write_fault<K: Sink>(alloc: Global, fault: Fault, sink: &mut K) -> u8
    ensures { FaultIsWritten fault (change (K.state sink.old) (K.state sink.new)) result }
{
    match fault {
        Fault::Usage => write_line(fault, "fault usage\n".as_bytes(), sink),
        Fault::Text(of_text) => match text_line_of(alloc, &of_text) {
            Ok(line) => write_line(fault, line.as_slice(), sink),
            Err(NoMemory) => write_line(Fault::NoMemory, MEMORY_LINE.as_bytes(), sink),
        },
        Fault::Read => write_line(fault, "fault read\n".as_bytes(), sink),
        Fault::Disk => write_line(fault, "fault disk\n".as_bytes(), sink),
        Fault::NoMemory => write_line(fault, MEMORY_LINE.as_bytes(), sink),
        Fault::NotJournal => write_line(fault, "fault not-a-journal\n".as_bytes(), sink),
        Fault::TooLong => write_line(fault, "fault too-long\n".as_bytes(), sink),
    }
}

/// The line of `Fault::NoMemory`.
const MEMORY_LINE: &str = "fault memory\n";

/// Writes this line of the fault, and answers its status.
fn write_line<K: Sink>(fault: Fault, line: &[u8], sink: &mut K) -> u8
    requires { line.now ≡ line_of fault }
    ensures { WritesFault fault (change (K.state sink.old) (K.state sink.new)) result }
{
    let _ = sink.write(line);
    fault.status()
}

/// The line of a text's fault, with its line feed.
#[tactic(auto, unfolding(crate::specs::Lines::text_line))]
fn text_line_of(alloc: Global, fault: &SessionFault) -> Result<Vec<u8>, NoMemory>
    ensures of_text { OnOk result (fault.now.kind ≢ SessionKind.NoMemory) }
    ensures line { IfOk result (λ line. line.items ≡ text_line fault.now) }
{
    let kind = kind_name(fault.kind)?;
    let mut line = Vec::new(alloc);
    push_str(&mut line, "fault text ")?;
    push_number(&mut line, fault.line)?;
    push_str(&mut line, " ")?;
    push_number(&mut line, fault.column)?;
    push_str(&mut line, " ")?;
    push_str(&mut line, kind)?;
    push_str(&mut line, "\n")?;
    Ok(line)
}

/// The printed name of a kind of a text's fault. Want of memory is none.
#[tactic(auto, unfolding(crate::specs::Lines::kind_text))]
fn kind_name(kind: SessionKind) -> Result<&'static str, NoMemory>
    ensures of_text { OnOk result (kind ≢ SessionKind.NoMemory) }
    ensures name { IfOk result (λ name. name.now ≡ kind_text kind) }
{
    Ok(match kind {
        SessionKind::BadHeader => "bad-header",
        SessionKind::TooManyExecutors => "too-many-executors",
        SessionKind::TooManyQueries => "too-many-queries",
        SessionKind::TooManyVars => "too-many-vars",
        SessionKind::TooManyAtoms => "too-many-atoms",
        SessionKind::TooManyTerms => "too-many-terms",
        SessionKind::Token => "token",
        SessionKind::Syntax => "syntax",
        SessionKind::NumberTooLarge => "number-too-large",
        SessionKind::UnknownName => "unknown-name",
        SessionKind::NameTwice => "name-twice",
        SessionKind::EmptyRange => "empty-range",
        SessionKind::NoEnd => "no-end",
        SessionKind::NoMemory => return Err(NoMemory),
    })
}
