//! Files of the system as disks.
use crate::disks::called_of_any;
use crate::told::{told, word};
use crate::words::{number_of, split};
use devices::FileDisk;
use outside::{Disk, Failed};
use row_table::RowFault;
use std::alloc::Global;
use std::fs;

/// A disk that is a file of the system.
#[derive(Drop)]
pub struct Files {
    rt: HostRuntime,
    disk: FileDisk<HostRuntime>,
}

impl Files {
    /// A disk without a file.
    pub fn new(rt: HostRuntime) -> Files {
        Files {
            rt,
            disk: FileDisk::new(rt),
        }
    }

    /// The answer to a call.
    pub fn called(&mut self, alloc: Global, call: &str, text: &str) -> Result<Vec<u8>, RowFault> {
        match call {
            "new" => self.begin(alloc),
            "write_at" => self.write_at(alloc, text),
            "clear" => self.clear(alloc, text),
            "remove" => told(alloc, self.remove(text)),
            _ => called_of_any(alloc, &mut self.disk, call, text),
        }
    }

    /// Begins a disk without a file. The file that was open is closed.
    fn begin(&mut self, alloc: Global) -> Result<Vec<u8>, RowFault> {
        self.disk = FileDisk::new(self.rt);
        word(alloc, "new")
    }

    /// Writes at a place, as `3 567`.
    fn write_at(&mut self, alloc: Global, text: &str) -> Result<Vec<u8>, RowFault> {
        let (at, piece) = split(text);
        let at = number_of(at)?;
        told(alloc, self.disk.write_at(at, piece.as_bytes()))
    }

    /// Removes the file of this name that an earlier run may have left.
    fn clear(&self, alloc: Global, name: &str) -> Result<Vec<u8>, RowFault> {
        self.remove(name).ok();
        word(alloc, "clear")
    }

    /// Removes the file of this name.
    fn remove(&self, name: &str) -> Result<(), Failed> {
        fs::remove_file(&self.rt, name).map_err(|_| Failed)
    }
}
