//! A disk in memory that fails at the calls that it is told to fail at, and tells what a crash may leave.
ghost use Rattle.std.specs.Prelude.{◌≡◌, ◌<◌, ◌≤◌, ◌↔◌, [], length, drop, if◌then◌else◌, None, Some, Contains};
ghost use Rattle.std.specs.Prelude.{IsTrue, IsErr, IfOk, OnOk, OnErr};
ghost use Rattle.outside.specs.Counts.{raised};
ghost use Rattle.outside.specs.Crash.{ReadsAt, WritesAt, Torn, TearsAt, Follows, GoesOn};

use crate::patch::{fill_front, patch};
use crate::step::{PastWrite, Step};
use crate::steps::{piece_len, put_front, undo_from};
use outside::{Disk, Failed, NoMemory};
use std::alloc::{AllocError, Global};
use std::marker::Model;

/// A file in memory, with a list of the numbers of the calls of `Disk` that are to fail, counted from 0. It tells its
/// content and its images, which keep the rules of `Disk`: a crash may leave whatever they allow. It has this one file,
/// which every name chooses. Its faults are its listed calls, once they are made, and the calls for which memory ran
/// out. A call for which memory ran out leaves the file and its images as they were, listed or not. The disk remembers
/// each write and each sync that was done, by the bytes that were written and those that they replaced.
#[derive(Debug, Drop)]
pub struct MemDisk {
    bytes: Vec<u8>,
    name: Option<String>,
    steps: Vec<Step>,
    failing: Vec<u64>,
    calls: u64,
    listed: u64,
    starved: u64,
}

impl Model for MemDisk {
    ghost use Rattle.std.specs.Prelude.{reverse};
    ghost use Rattle.std.specs.Option.{option_map};
    ghost use Rattle.std.specs.String.{string_bytes};
    ghost use Rattle.devices.specs.MemDisk.{MemDiskState};
    ghost use Rattle.devices.specs.Steps.{AreOrdered, CanUndoAll};

    ghost Value = { MemDiskState };

    ghost view = { λ disk. record {
      bytes = disk.bytes.items;
      name = option_map string_bytes disk.name;
      steps = reverse disk.steps.items;
      failing = disk.failing.items;
      calls = disk.calls;
      listed = disk.listed;
      starved = disk.starved;
    } };

    ghost invariant = { λ disk. AreOrdered disk.calls (reverse disk.steps.items)
        × CanUndoAll disk.bytes.items (reverse disk.steps.items) };
}

impl MemDisk {
    ghost use Rattle.devices.specs.MemDisk.{as_began, piece_in, image_in, MayBeLeftWithin};
    ghost use Rattle.devices.specs.MemDiskCalls.{after_write, after_sync};
    ghost use Rattle.devices.specs.Steps.{IsEarlierCall, AreOrdered, MightHaveLeft};

    /// A disk with these bytes in its file and nothing pending, no name, and no call made yet. It takes no memory before
    /// a call does.
    pub fn new(alloc: Global, bytes: Vec<u8>, failing: Vec<u64>) -> MemDisk
        ensures { result ≡ record {
          bytes = bytes.items;
          name = None;
          steps = [];
          failing = failing.items;
          calls = 0;
          listed = 0;
          starved = 0;
        } }
    {
        MemDisk {
            bytes,
            name: None,
            steps: Vec::new(alloc),
            failing,
            calls: 0,
            listed: 0,
            starved: 0,
        }
    }

    /// What a read gives, from the first byte on.
    pub fn bytes(&self) -> &[u8]
        ensures { result.now ≡ self.now.bytes }
    {
        &self.bytes
    }

    /// For how many calls memory ran out. The count stands still at 2^64 - 1.
    pub fn starved(&self) -> u64
        ensures { result ≡ self.now.starved }
    {
        self.starved
    }

    /// How many calls of `Disk` were made. The count stands still at 2^64 - 1.
    pub fn calls(&self) -> u64
        ensures { result ≡ self.now.calls }
    {
        self.calls
    }

    /// The length of this call's piece, in bytes; 0 for a call that is no write, or for which memory ran out.
    pub fn piece(&self, call: u64) -> u64
        requires { call < self.now.calls }
        ensures { result ≡ piece_in self.now call }
    {
        piece_len(&self.steps, call)
    }

    /// One of the images that a crash within this call may leave: the file as the call began, with the first `kept`
    /// bytes of its piece in place where it is a write. Only want of memory may keep it from answering.
    pub fn image(&self, call: u64, kept: u64) -> Result<Vec<u8>, NoMemory>
        requires call { call < self.now.calls }
        requires kept { kept ≤ piece_in self.now call }
        ensures image { IfOk result (λ image. image.items ≡ image_in self.now call kept) }
        ensures within { IfOk result (λ image. MayBeLeftWithin self.now call image.items) }
        ensures since { IfOk result (λ image.
            MightHaveLeft self.now.bytes self.now.steps (length (as_began self.now call).steps) image.items) }
    {
        prove!(call < self.calls);
        let mut image = Vec::from_slice(*self.bytes.allocator(), &self.bytes)?;
        undo_from(&self.steps, call, &mut image);
        put_front(&self.steps, call, kept as usize, &mut image)?;
        Ok(image)
    }

    /// Counts a call, and says whether it is listed.
    fn begin(&mut self) -> bool
        ensures listed { IsTrue result ↔ Contains self.old.failing self.old.calls }
        ensures counted { self.new ≡ record self.old {
          calls = raised self.old.calls;
          listed = if result then raised self.old.listed else self.old.listed;
        } }
        ensures ordered { AreOrdered self.old.calls self.new.steps }
    {
        let listed = self.failing.contains(&self.calls);
        self.calls = self.calls.saturating_add(1);
        if listed {
            self.listed = self.listed.saturating_add(1);
        }
        listed
    }

    /// Counts a call for which memory ran out.
    fn starve<T>(&mut self) -> Result<T, Failed>
        ensures failed { IsErr result }
        ensures counted { self.new ≡ record self.old { starved = raised self.old.starved } }
    {
        self.starved = self.starved.saturating_add(1);
        Err(Failed)
    }

    /// Writes the first `done` bytes of the piece, and remembers the write. Where memory runs out nothing is changed.
    fn write_front(
        &mut self,
        call: u64,
        at: usize,
        piece: &[u8],
        done: usize,
    ) -> Result<(), AllocError>
        requires within { at ≤ length self.old.bytes }
        requires done { done ≤ length piece.now }
        requires call { IsEarlierCall call self.old.calls }
        requires ordered { AreOrdered call self.old.steps }
        ensures ok { OnOk result (self.new ≡ after_write self.old call at piece.now done) }
        ensures err { OnErr result (self.new ≡ self.old) }
    {
        let alloc = *self.bytes.allocator();
        let write = PastWrite::over(alloc, &self.bytes, call, at, piece, done)?;
        self.steps.reserve(1)?;
        patch(&mut self.bytes, at, &piece[..done])?;
        self.steps.push_reserved(Step::Write(write));
        Ok(())
    }

    /// Remembers a sync. Where memory runs out nothing is changed.
    fn note_sync(&mut self, call: u64) -> Result<(), AllocError>
        requires call { IsEarlierCall call self.old.calls }
        requires ordered { AreOrdered call self.old.steps }
        ensures ok { OnOk result (self.new ≡ after_sync self.old call) }
        ensures err { OnErr result (self.new ≡ self.old) }
    {
        self.steps.push(Step::Sync { call })?;
        Ok(())
    }
}

impl Disk for MemDisk {
    ghost use Rattle.devices.specs.MemDisk.{mem_disk};
    ghost use Rattle.devices.specs.MemDiskCalls.{IsCounted, KeepsFile, Remembers, WritesPiece, Syncs};
    ghost use Rattle.devices.specs.Steps.{MayLeave};
    ghost use Rattle.devices.specs.MemDiskFacts.{mem_disk_is_consistent};

    ghost state = { mem_disk };

    ghost consistent = { mem_disk_is_consistent };

    /// Keeps the name. A call for which memory ran out fails and keeps the old one.
    fn bind(&mut self, name: &str) -> Result<(), Failed>
        ensures bound { OnOk result (self.new.name ≡ Some name.now) }
        ensures not_bound { OnErr result (self.new.name ≡ self.old.name) }
        ensures file { KeepsFile self.old self.new }
        ensures counted { IsCounted self.old self.new result }
        ensures remembers { Remembers self.old self.new }
    {
        if self.begin() {
            return Err(Failed);
        }
        match String::from_str(*self.bytes.allocator(), name) {
            Ok(name) => {
                self.name = Some(name);
                Ok(())
            }
            Err(_) => self.starve::<()>(),
        }
    }

    /// It fails exactly where the call is listed.
    fn len(&mut self) -> Result<u64, Failed>
        ensures answer { IfOk result (λ n. n ≡ length self.old.bytes) }
        ensures name { self.new.name ≡ self.old.name }
        ensures file { KeepsFile self.old self.new }
        ensures counted { IsCounted self.old self.new result }
        ensures remembers { Remembers self.old self.new }
        ensures fed { self.new.starved ≡ self.old.starved }
    {
        if self.begin() {
            return Err(Failed);
        }
        Ok(self.bytes.len() as u64)
    }

    /// It fails exactly where the call is listed, and leaves the buffer as it was.
    fn read_at(&mut self, at: u64, buf: &mut [u8]) -> Result<usize, Failed>
        ensures bound { IfOk result (λ n. n ≤ length buf.new) }
        ensures answer { IfOk result (ReadsAt (Some self.old.bytes) at buf.new) }
        ensures behind { IfOk result (λ n. drop n buf.new ≡ drop n buf.old) }
        ensures untouched { OnErr result (buf.new ≡ buf.old) }
        ensures name { self.new.name ≡ self.old.name }
        ensures file { KeepsFile self.old self.new }
        ensures counted { IsCounted self.old self.new result }
        ensures remembers { Remembers self.old self.new }
        ensures fed { self.new.starved ≡ self.old.starved }
    {
        if self.begin() {
            return Err(Failed);
        }
        Ok(fill_front(&self.bytes, at, buf))
    }

    /// A listed call writes half of its bytes, of 5 bytes 2, and fails. A call for which memory ran out fails and writes
    /// nothing, listed or not.
    fn write_at(&mut self, at: u64, bytes: &[u8]) -> Result<(), Failed>
        requires { at ≤ length self.old.bytes }
        ensures written { OnOk result (WritesAt (Some self.old.bytes) (Some self.new.bytes) at bytes.now) }
        ensures torn { OnErr result (TearsAt (Some self.old.bytes) (Some self.new.bytes) at (length bytes.now)) }
        ensures images { Follows (Torn at (length bytes.now))
            (MayLeave self.old.bytes self.old.steps) (MayLeave self.new.bytes self.new.steps) }
        ensures name { self.new.name ≡ self.old.name }
        ensures goes_on { GoesOn (mem_disk self.old) (mem_disk self.new) }
        ensures counted { IsCounted self.old self.new result }
        ensures remembers { Remembers self.old self.new }
        ensures piece { WritesPiece self.old self.new at bytes.now result }
    {
        let call = self.calls();
        let at = at as usize;
        if self.begin() {
            let half = bytes.len() / 2;
            if self.write_front(call, at, bytes, half).is_err() {
                return self.starve::<()>();
            }
            return Err(Failed);
        }
        if self.write_front(call, at, bytes, bytes.len()).is_err() {
            return self.starve::<()>();
        }
        Ok(())
    }

    /// A listed call, and one for which memory ran out, changes nothing.
    fn sync(&mut self) -> Result<(), Failed>
        ensures synced { OnOk result (Syncs self.old self.new) }
        ensures failed { OnErr result (KeepsFile self.old self.new) }
        ensures goes_on { GoesOn (mem_disk self.old) (mem_disk self.new) }
        ensures name { self.new.name ≡ self.old.name }
        ensures counted { IsCounted self.old self.new result }
        ensures remembers { Remembers self.old self.new }
    {
        let call = self.calls();
        if self.begin() {
            return Err(Failed);
        }
        if self.note_sync(call).is_err() {
            return self.starve::<()>();
        }
        Ok(())
    }
}
