//! A file of the system as a disk.
ghost use Rattle.std.specs.Prelude.{◌≡◌, ◌+◌, ◌≤◌, None, Some, length, if◌then◌else◌, is_err};
ghost use Rattle.std.specs.Prelude.{IsErr, IfOk, OnOk, OnErr};
ghost use Rattle.std.specs.String.{string_bytes};
ghost use Rattle.outside.specs.Counts.{raised, HasCause};

use outside::{Disk, Failed};
use std::fs::{File, OpenOptions};
use std::io;
use std::io::ErrorKind;
use std::marker::Model;
use std::os::unix::fs::FileExt;
use std::rt::Files;

/// A file of the system. As a disk it tells nothing of its content or its images; contracts see it as its name and its
/// count of faults. As long as no `bind` has succeeded, every other call fails.
#[derive(Drop)]
pub struct FileDisk<R> {
    rt: R,
    bound: Option<BoundFile>,
    faults: u64,
}

/// An open file, with the name that it was opened by.
#[derive(Drop)]
struct BoundFile {
    name: String,
    file: File,
}

impl<R> Model for FileDisk<R> {
    ghost use Rattle.std.specs.Option.{option_map};
    ghost use Rattle.std.specs.String.{string_bytes};
    ghost use Rattle.devices.specs.FileDisk.{FileDiskState};

    ghost Value = { FileDiskState };

    ghost view = { λ disk. record {
      name = option_map (λ bound. string_bytes bound.name) disk.bound;
      faults = disk.faults;
    } };
}

impl<R: Files<File = File> + AllocGlobal> FileDisk<R> {
    /// A disk that has not failed yet, with no name and no file.
    pub fn new(rt: R) -> FileDisk<R>
        ensures { result ≡ record { name = None; faults = 0 } }
    {
        FileDisk {
            rt,
            bound: None,
            faults: 0,
        }
    }

    /// Opens the file of this name for reading and writing; an empty one is made where there is none.
    fn open(&self, name: &str) -> io::Result<BoundFile>
        ensures { IfOk result (λ bound. string_bytes bound.name ≡ name.now) }
    {
        let kept = String::from_str(self.rt.alloc(), name)?;
        let file = OpenOptions::new()
            .read(true)
            .write(true)
            .create(true)
            .open(&self.rt, name)?;
        Ok(BoundFile { name: kept, file })
    }
}

impl<R> FileDisk<R> {
    /// The file that is open.
    fn file(&self) -> Result<&File, Failed>
        ensures { self.now.name ≡ None → IsErr result }
    {
        match &self.bound {
            Some(bound) => Ok(&bound.file),
            None => Err(Failed),
        }
    }

    /// Hands the outcome on. A fault raises the count, by one.
    fn counted<T>(&mut self, outcome: Result<T, Failed>) -> Result<T, Failed>
        ensures same { result ≡ outcome }
        ensures name { self.new.name ≡ self.old.name }
        ensures cause { HasCause self.old.faults self.new.faults result }
        ensures faults { self.new.faults ≡ (if is_err outcome then raised self.old.faults else self.old.faults) }
    {
        if outcome.is_err() {
            self.faults = self.faults.saturating_add(1);
        }
        outcome
    }
}

impl<R: Files<File = File> + AllocGlobal> Disk for FileDisk<R> {
    ghost use Rattle.std.proofs.Common.{rules};
    ghost use Rattle.devices.specs.Untold.{untold};

    ghost state = { λ disk. untold disk.name disk.faults };

    ghost consistent = { Prim.search rules };

    /// Opens the file of this name for reading and writing; an empty one is made where there is none. The file that was
    /// open before is closed.
    fn bind(&mut self, name: &str) -> Result<(), Failed>
        ensures bound { OnOk result (self.new.name ≡ Some name.now) }
        ensures not_bound { OnErr result (self.new.name ≡ self.old.name) }
        ensures cause { HasCause self.old.faults self.new.faults result }
        ensures counted { self.new.faults ≡ (if is_err result then raised self.old.faults else self.old.faults) }
    {
        let opened = self.open(name);
        match opened {
            Ok(bound) => {
                self.bound = Some(bound);
                Ok(())
            }
            Err(_) => self.counted(Err(Failed)),
        }
    }

    fn len(&mut self) -> Result<u64, Failed>
        ensures unbound { self.old.name ≡ None → IsErr result }
        ensures name { self.new.name ≡ self.old.name }
        ensures cause { HasCause self.old.faults self.new.faults result }
        ensures counted { self.new.faults ≡ (if is_err result then raised self.old.faults else self.old.faults) }
    {
        let len = self.file().and_then(len_of);
        self.counted(len)
    }

    /// Reads until the buffer is full or the file ends. A call that a signal interrupted is made again.
    fn read_at(&mut self, at: u64, buf: &mut [u8]) -> Result<usize, Failed>
        ensures bound { IfOk result (λ n. n ≤ length buf.new) }
        ensures unbound { self.old.name ≡ None → IsErr result }
        ensures name { self.new.name ≡ self.old.name }
        ensures cause { HasCause self.old.faults self.new.faults result }
        ensures counted { self.new.faults ≡ (if is_err result then raised self.old.faults else self.old.faults) }
    {
        let read = match self.file() {
            Ok(file) => read_front(file, at, buf),
            Err(failed) => Err(failed),
        };
        self.counted(read)
    }

    /// Writes until all bytes are written. A file that takes nothing has failed, and a call that a signal interrupted is
    /// made again.
    fn write_at(&mut self, at: u64, bytes: &[u8]) -> Result<(), Failed>
        ensures unbound { self.old.name ≡ None → IsErr result }
        ensures name { self.new.name ≡ self.old.name }
        ensures cause { HasCause self.old.faults self.new.faults result }
        ensures counted { self.new.faults ≡ (if is_err result then raised self.old.faults else self.old.faults) }
    {
        let written = match self.file() {
            Ok(file) => write_whole(file, at, bytes),
            Err(failed) => Err(failed),
        };
        self.counted(written)
    }

    fn sync(&mut self) -> Result<(), Failed>
        ensures unbound { self.old.name ≡ None → IsErr result }
        ensures name { self.new.name ≡ self.old.name }
        ensures cause { HasCause self.old.faults self.new.faults result }
        ensures counted { self.new.faults ≡ (if is_err result then raised self.old.faults else self.old.faults) }
    {
        let synced = match self.file() {
            Ok(file) => file.sync_all().map_err(|_| Failed),
            Err(failed) => Err(failed),
        };
        self.counted(synced)
    }
}

fn len_of(file: &File) -> Result<u64, Failed> {
    let metadata = file.metadata().map_err(|_| Failed)?;
    Ok(metadata.len())
}

/// Fills the front of `buf` with the bytes from byte `at` on, until it is full or the file ends, and answers how many.
fn read_front(file: &File, at: u64, buf: &mut [u8]) -> Result<usize, Failed>
    ensures { IfOk result (λ n. n ≤ length buf.new) }
{
    let mut read = 0;
    for _ in 0..u64::MAX {
        if read == buf.len() {
            return Ok(read);
        }
        match file.read_at(&mut buf[read..], at.saturating_add(read as u64)) {
            Ok(0) => return Ok(read),
            Ok(n) => read += n,
            Err(error) => {
                if error.kind() != ErrorKind::Interrupted {
                    return Err(Failed);
                }
            }
        }
    }
    Err(Failed)
}

/// Writes all bytes from byte `at` on. Where it fails, any part of them may be written.
fn write_whole(file: &File, at: u64, bytes: &[u8]) -> Result<(), Failed> {
    let mut rest = bytes;
    let mut place = at;
    for _ in 0..u64::MAX {
        if rest.is_empty() {
            return Ok(());
        }
        match file.write_at(rest, place) {
            Ok(0) => return Err(Failed),
            Ok(n) => {
                rest = &rest[n..];
                place = place.saturating_add(n as u64);
            }
            Err(error) => {
                if error.kind() != ErrorKind::Interrupted {
                    return Err(Failed);
                }
            }
        }
    }
    Err(Failed)
}
