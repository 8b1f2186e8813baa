//! Reading a file as a journal.
ghost use Rattle.std.specs.Prelude.{◌↔◌, IfOk, IfErr, IfSome, IsTrue};
ghost use Rattle.outside.specs.Runs.{OnlyLooks};
ghost use Rattle.journal.specs.Opening.{start_cause};
ghost use Rattle.journal.specs.Reading.{HasHeader, IsStopAt};
ghost use Rattle.journal.specs.Recovery.{IsInOrder, IsRecovered, IsUnbegun};

use crate::limits::{HEADER, MAX_ENTRIES};
use crate::reading::{has_more, is_begun, read_next};
use crate::recovered::{Recovered, StartFault, Stop};
use cert_check::Shared;
use entry_codec::{FrameEnd, ends_exclude_frames};
use outside::Disk;
use std::alloc::Global;

/// What the file recovers to: nothing is written. A file of at most 8 bytes that isn't the header has no entries, as a
/// crash of its first opening may have left it. Only the first 2^28 bytes of a file are read.
///
/// `Disk`: the disk failed. `NotJournal`: the file has more than 8 bytes, and its first 8 aren't the header. `NoMemory`:
/// memory ran out.
pub fn scan<D: Disk>(alloc: Global, disk: &mut D) -> Result<Recovered, StartFault>
    ensures recovered { IfOk result (λ recovered.
        IfSome (D.state disk.old).content (λ file. IsRecovered file recovered)) }
    ensures in_order { IfOk result IsInOrder }
    ensures cause { IfErr result (start_cause (D.state disk.old) (D.state disk.new)) }
    ensures looks { OnlyLooks (D.state disk.old) (D.state disk.new) }
{
    let (recovered, _begun) = scan_begun(alloc, disk)?;
    Ok(recovered)
}

/// The same, and whether the file was begun.
pub fn scan_begun<D: Disk>(alloc: Global, disk: &mut D) -> Result<(Recovered, bool), StartFault>
    ensures recovered { IfOk result (λ found.
        IfSome (D.state disk.old).content (λ file. IsRecovered file found.0)) }
    ensures begun { IfOk result (λ found.
        IfSome (D.state disk.old).content (λ file. IsTrue found.1 ↔ ¬ IsUnbegun file)) }
    ensures in_order { IfOk result (λ found. IsInOrder found.0) }
    ensures cause { IfErr result (start_cause (D.state disk.old) (D.state disk.new)) }
    ensures looks { OnlyLooks (D.state disk.old) (D.state disk.new) }
{
    if is_begun(disk)? {
        return Ok((read_run(alloc, disk)?, true));
    }
    let recovered = Recovered {
        entries: Vec::new(alloc),
        end_at: HEADER.len() as u64,
        stopped: None,
    };
    Ok((recovered, false))
}

/// What a file with the header recovers to, read frame by frame.
fn read_run<D: Disk>(alloc: Global, disk: &mut D) -> Result<Recovered, StartFault>
    ensures recovered { IfOk result (λ found.
        IfSome (D.state disk.old).content (λ file. HasHeader file → IsRecovered file found)) }
    ensures in_order { IfOk result IsInOrder }
    ensures cause { IfErr result (start_cause (D.state disk.old) (D.state disk.new)) }
    ensures looks { OnlyLooks (D.state disk.old) (D.state disk.new) }
{
    ends_exclude_frames();
    let mut entries = Vec::new(alloc);
    let mut buffer = Vec::new(alloc);
    let mut at = HEADER.len() as u64;
    for _turn in 0..MAX_ENTRIES {
        match read_next(alloc, disk, at, &mut buffer)? {
            Ok((entry, taken)) => {
                entries.push(Shared::new(alloc, entry)?)?;
                at += taken as u64;
            }
            Err(end) => {
                return Ok(Recovered {
                    entries,
                    end_at: at,
                    stopped: stop_at(end),
                });
            }
        }
    }
    let more = has_more(disk, at, &mut buffer)?;
    Ok(Recovered {
        entries,
        end_at: at,
        stopped: more.then_some(Stop::TooMany),
    })
}

/// Why a run of frames ends where no frame stands for this reason: None where it ends with the file.
fn stop_at(end: FrameEnd) -> Option<Stop>
    ensures { IsStopAt end result }
{
    match end {
        FrameEnd::Ended => None,
        end => Some(Stop::Frame(end)),
    }
}
