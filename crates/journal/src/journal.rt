//! The journal: a file to which entries are appended.
ghost use Rattle.std.specs.Prelude.{◌≡◌, true, None, [], length, IfOk, IfErr, OnErr};
ghost use Rattle.entry_codec.specs.Frames.{IsSmallEnough};
ghost use Rattle.journal.specs.Appends.{Appends};
ghost use Rattle.journal.specs.Journals.{KeepsJournal, IsFresh, IsWhole, list_of};
ghost use Rattle.journal.specs.Opening.{Opens, FailsToOpen};
ghost use Rattle.journal.specs.Recovery.{IsInOrder};

use crate::opening::open;
use crate::putting::{put, wrote_of};
use crate::recovered::{Recovered, StartFault};
use cert_check::{Entry, Saved, Shared, Wrote};
use entry_codec::write_frame;
use outside::{Disk, NoMemory};
use std::alloc::Global;
use std::marker::Model;
use std::snapshot::Snapshot;

/// A file of entries on a disk. Each entry that `append` reports saved survives every crash from then on.
///
/// Its list is the entries that it was opened with, followed by those that it saved. Whatever a crash may leave at any
/// moment recovers to entries that begin with the list as it was at that moment, if the disk was handed in with nothing
/// pending and keeps the rules of `Disk`.
#[derive(Drop)]
pub struct Journal<D: Disk> {
    alloc: Global,
    disk: D,
    made: Snapshot<D>,
    off: bool,
    opening: Vec<Shared<Entry>>,
    wrotes: Vec<Wrote>,
    end: u64,
    len: u32,
}

impl<D: Disk> Model for Journal<D> {
    ghost use Rattle.journal.specs.Journals.{PlainJournal, KeepsJournal, HasNumbers};

    ghost Value = { PlainJournal D };

    ghost view = { λ j. record {
      disk = j.disk;
      made = j.made.value;
      off = j.off;
      opening = j.opening.items;
      wrotes = j.wrotes.items;
    } };

    ghost invariant = { λ j. let journal : PlainJournal D = record {
      disk = j.disk;
      made = j.made.value;
      off = j.off;
      opening = j.opening.items;
      wrotes = j.wrotes.items;
    } in KeepsJournal D.state journal × HasNumbers journal j.end j.len };
}

impl<D: Disk> Journal<D> {
    /// Opens the file of the disk as a journal, with what it recovers to. A file of at most 8 bytes that isn't the header
    /// is begun anew: the header is written. All memory is taken before that.
    ///
    /// The fault and the disk come back where the file can't be opened: `Disk` where the disk failed, `NotJournal` where
    /// the file has more than 8 bytes of which the first 8 aren't the header, `NoMemory` where memory ran out.
    pub fn recover(alloc: Global, disk: D) -> Result<(Journal<D>, Recovered), (StartFault, D)>
        ensures opens { IfOk result (λ opened. Opens opened.1 (D.state disk) (D.state opened.0.disk)) }
        ensures fresh { IfOk result (λ opened. IsFresh opened.1.entries.items opened.0) }
        ensures list { IfOk result (λ opened. opened.1.entries.items ≡ list_of opened.0) }
        ensures in_order { IfOk result (λ opened. IsInOrder opened.1) }
        ensures kept { IfOk result (λ opened. KeepsJournal D.state opened.0) }
        ensures whole { IfOk result (λ opened. opened.1.stopped ≡ None → IsWhole D.state opened.0) }
        ensures fails { IfErr result (λ failed. FailsToOpen failed.0 (D.state disk) (D.state failed.1)) }
    {
        let mut disk = disk;
        let (recovered, opening) = match open(alloc, &mut disk) {
            Ok(opened) => opened,
            Err(fault) => return Err((fault, disk)),
        };
        let made = Snapshot::of(&disk);
        let end = recovered.end_at;
        let len = opening.len() as u32;
        let journal = Journal {
            alloc,
            disk,
            made,
            off: false,
            opening,
            wrotes: Vec::new(alloc),
            end,
            len,
        };
        Ok((journal, recovered))
    }

    /// A journal that saves nothing and leaves the disk alone.
    pub fn off(alloc: Global, disk: D) -> Journal<D>
        ensures made { result ≡ record { disk = disk; made = disk; off = true; opening = []; wrotes = [] } }
        ensures kept { KeepsJournal D.state result }
    {
        let made = Snapshot::of(&disk);
        Journal {
            alloc,
            disk,
            made,
            off: true,
            opening: Vec::new(alloc),
            wrotes: Vec::new(alloc),
            end: 0,
            len: 0,
        }
    }

    /// Writes the frame of the entry behind the list and syncs. The answer is noted in the journal, for this seat.
    ///
    /// `At`, with the place of the frame in bytes from the file's first: the entry is at the end of the list, and
    /// survives every crash from now on. `Fault`: the disk failed; the list stays, only bytes behind it may have changed,
    /// and the next append writes at the same place. `Full`, where the list has 2^20 entries, or the frame would end
    /// past byte 2^28: nothing is written. `Off` from a journal that is off. All memory is taken before the disk is
    /// touched, and want of memory changes nothing.
    pub fn append(&mut self, seat: u32, entry: &Shared<Entry>) -> Result<Saved, NoMemory>
        requires { IsSmallEnough entry.now }
        ensures appends { IfOk result (Appends D.state seat entry.now self.old self.new) }
        ensures unchanged { OnErr result (self.new ≡ self.old) }
        ensures kept { KeepsJournal D.state self.new }
    {
        if self.off {
            return Ok(Saved::Off);
        }
        let plain = entry.get();
        let _key = plain.key();
        let frame = write_frame(self.alloc, plain)?;
        let shared = entry.share()?;
        self.wrotes.reserve(1)?;
        let saved = put(&mut self.disk, self.end, self.len, &frame);
        self.wrotes.push_reserved(wrote_of(saved, seat, shared));
        if let Saved::At(_) = saved {
            self.end += frame.len() as u64;
            self.len += 1;
        }
        Ok(saved)
    }

    /// How many entries the list has.
    pub fn len(&self) -> u32
        ensures len { result ≡ length (list_of self.now) }
        ensures kept { KeepsJournal D.state self.now }
    {
        self.len
    }

    /// Gives the disk back.
    pub fn close(self) -> D
        ensures disk { result ≡ self.disk }
        ensures kept { KeepsJournal D.state self }
    {
        self.disk
    }
}
