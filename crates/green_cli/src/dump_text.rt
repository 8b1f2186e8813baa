//! The text of what a file recovers to.
ghost use Rattle.std.specs.Prelude.{◌≡◌, ◌++◌, Some, None, IfOk, OnOk, codes, decimal};
ghost use Rattle.green_cli.specs.DumpText.{IsReason, dump_text, end_text, refused_text, stop_text};

use crate::entry_text::push_entries;
use cert_check::Refused;
use entry_codec::FrameEnd;
use journal::{Recovered, Stop};
use lin_text::{push_number, push_str};
use outside::NoMemory;
use std::alloc::Global;

/// The text of what a file recovers to: a line that begins it, the lines of each entry, and a line that tells where the
/// entries end, and why, if the file goes on.
#[tactic(auto, unfolding(crate::specs::DumpText::dump_text))]
pub fn write_dump(alloc: Global, recovered: &Recovered) -> Result<Vec<u8>, NoMemory>
    requires { IsReason recovered.now.stopped }
    ensures { IfOk result (λ text. text.items ≡ dump_text recovered.now) }
{
    let mut out = Vec::new(alloc);
    push_str(&mut out, "green dump 1\n")?;
    push_entries(&mut out, &recovered.entries)?;
    push_end(&mut out, recovered.end_at, recovered.stopped)?;
    Ok(out)
}

/// Adds the last line.
fn push_end(out: &mut Vec<u8>, at: u64, stopped: Option<Stop>) -> Result<(), NoMemory>
    requires { IsReason stopped }
    ensures { OnOk result (out.new.items ≡ out.old.items ++ end_text at stopped) }
{
    match stopped {
        Some(stop) => push_stopped(out, at, stop),
        None => push_whole(out, at),
    }
}

#[tactic(auto, unfolding(crate::specs::DumpText::end_text))]
fn push_whole(out: &mut Vec<u8>, at: u64) -> Result<(), NoMemory>
    ensures { OnOk result (out.new.items ≡ out.old.items ++ end_text at None) }
{
    push_str(out, "end ")?;
    push_number(out, at)?;
    push_str(out, "\n")
}

#[tactic(auto, unfolding(crate::specs::DumpText::end_text))]
fn push_stopped(out: &mut Vec<u8>, at: u64, stop: Stop) -> Result<(), NoMemory>
    requires { IsReason (Some stop) }
    ensures { OnOk result (out.new.items ≡ out.old.items ++ end_text at (Some stop)) }
{
    push_str(out, "stopped ")?;
    push_number(out, at)?;
    push_str(out, " ")?;
    push_stop(out, stop)?;
    push_str(out, "\n")
}

#[tactic(auto, unfolding(crate::specs::DumpText::stop_text))]
fn push_stop(out: &mut Vec<u8>, stop: Stop) -> Result<(), NoMemory>
    requires { IsReason (Some stop) }
    ensures { OnOk result (out.new.items ≡ out.old.items ++ stop_text stop) }
{
    match stop {
        Stop::Frame(FrameEnd::Short) => push_str(out, "short"),
        Stop::Frame(FrameEnd::TooLong) => push_str(out, "too-long"),
        Stop::Frame(FrameEnd::BadBody(place)) => push_numbered(out, "bad-body ", u64::from(place)),
        Stop::Frame(FrameEnd::Uncertified(refused)) => push_uncertified(out, refused),
        Stop::TooMany => push_str(out, "too-many"),
        Stop::Frame(FrameEnd::Ended | FrameEnd::NoMemory) => unreachable!(),
    }
}

fn push_uncertified(out: &mut Vec<u8>, refused: Refused) -> Result<(), NoMemory>
    ensures { OnOk result (out.new.items ≡ out.old.items ++ (codes "uncertified " ++ refused_text refused)) }
{
    push_str(out, "uncertified ")?;
    push_refused(out, refused)
}

#[tactic(auto, unfolding(crate::specs::DumpText::refused_text))]
fn push_refused(out: &mut Vec<u8>, refused: Refused) -> Result<(), NoMemory>
    ensures { OnOk result (out.new.items ≡ out.old.items ++ refused_text refused) }
{
    match refused {
        Refused::PointFails(atom) => push_numbered(out, "point ", u64::from(atom)),
        Refused::NodeFails(node) => push_numbered(out, "node ", node),
        Refused::TreeEnds => push_str(out, "tree-ends"),
        Refused::TreeGoesOn => push_str(out, "tree-goes-on"),
    }
}

/// Adds words that end in a number.
fn push_numbered(out: &mut Vec<u8>, words: &str, number: u64) -> Result<(), NoMemory>
    ensures { OnOk result (out.new.items ≡ out.old.items ++ (words.now ++ decimal number)) }
{
    push_str(out, words)?;
    push_number(out, number)
}
