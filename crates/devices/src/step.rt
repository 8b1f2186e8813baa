//! What a disk in memory remembers of its calls.
ghost use Rattle.std.specs.Prelude.{◌≡◌, ◌+◌, ◌≤◌, length, take, IfOk, OnOk, OnErr};
ghost use Rattle.outside.specs.Crash.{patched};
ghost use Rattle.devices.specs.PastWrite.{write_over};

use crate::patch::{copy_into, patch};
use std::alloc::{AllocError, Global};
use std::marker::Model;

/// A write that was done: the number of its call, the place and the whole piece. The bytes that it overwrote and the
/// length of the file before are what it takes to undo it.
#[derive(Debug, Drop)]
pub(crate) struct PastWrite {
    call: u64,
    at: usize,
    piece: Vec<u8>,
    overwritten: Vec<u8>,
    len: usize,
}

impl Model for PastWrite {
    ghost use Rattle.devices.specs.PastWrite.{PastWriteState};

    ghost Value = { PastWriteState };

    ghost view = { λ write. record {
      call = write.call;
      at = write.at;
      piece = write.piece.items;
      overwritten = write.overwritten.items;
      len = write.len;
    } };
}

impl PastWrite {
    ghost use Rattle.devices.specs.Steps.{before_write};

    /// What is to be remembered of a write of the first `done` bytes of a piece over this file.
    pub(crate) fn over(
        alloc: Global,
        file: &[u8],
        call: u64,
        at: usize,
        piece: &[u8],
        done: usize,
    ) -> Result<PastWrite, AllocError>
        requires { at ≤ length file.now }
        ensures { IfOk result (λ write. write ≡ write_over file.now call at piece.now done) }
    {
        let behind = &file[at..];
        Ok(PastWrite {
            call,
            at,
            piece: Vec::from_slice(alloc, piece)?,
            overwritten: Vec::from_slice(alloc, &behind[..done.min(behind.len())])?,
            len: file.len(),
        })
    }

    /// The length of the piece.
    pub(crate) fn len(&self) -> u64
        ensures { result ≡ length self.now.piece }
    {
        self.piece.len() as u64
    }

    /// Puts the first `kept` bytes of the piece in place. Where memory runs out nothing is changed.
    pub(crate) fn put_front(&self, kept: usize, file: &mut Vec<u8>) -> Result<(), AllocError>
        requires within { self.now.at ≤ length file.old.items }
        requires kept { kept ≤ length self.now.piece }
        ensures ok { OnOk result (file.new.items ≡ patched file.old.items self.now.at (take kept self.now.piece)) }
        ensures err { OnErr result (file.new.items ≡ file.old.items) }
    {
        patch(file, self.at, &self.piece[..kept])
    }

    /// Takes the write back.
    fn undo(&self, file: &mut Vec<u8>)
        requires { self.now.at + length self.now.overwritten ≤ length file.old.items }
        ensures { file.new.items ≡ before_write self.now file.old.items }
    {
        copy_into(file, self.at, &self.overwritten);
        file.truncate(self.len);
    }
}

/// A step of a disk in memory: a call that changed the file, or what a crash may leave of it.
#[derive(Debug, Drop)]
pub(crate) enum Step {
    /// A write that was done.
    Write(PastWrite),
    /// A sync that was done, with the number of its call.
    Sync { call: u64 },
}

impl Step {
    ghost use Rattle.devices.specs.Steps.{call_of, before_step, CanUndo};

    /// The number of its call.
    pub(crate) fn call(&self) -> u64
        ensures { result ≡ call_of self.now }
    {
        match self {
            Step::Write(write) => write.call,
            Step::Sync { call } => *call,
        }
    }

    /// Takes the step back.
    pub(crate) fn undo(&self, file: &mut Vec<u8>)
        requires { CanUndo self.now file.old.items }
        ensures { file.new.items ≡ before_step self.now file.old.items }
    {
        if let Step::Write(write) = self {
            write.undo(file);
        }
    }
}
