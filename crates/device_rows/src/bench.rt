//! The devices that the rows speak to.
use crate::files::Files;
use crate::sources::Sources;
use crate::words::split;
use crate::{disks, sinks, writers};
use devices::{MemDisk, MemSink};
use outside::NoMemory;
use row_table::{RowFault, Subject};
use std::alloc::Global;

/// One device of each kind. A row goes on with what the row before left.
#[derive(Drop)]
pub struct Bench {
    sources: Sources,
    sink: MemSink,
    disk: MemDisk,
    files: Files,
}

impl Bench {
    /// Empty devices that fail at no call, and a file of the system that is not chosen yet.
    pub fn new(rt: HostRuntime) -> Bench {
        let alloc = rt.alloc();
        Bench {
            sources: Sources::new(alloc),
            sink: MemSink::new(alloc, Vec::new(alloc)),
            disk: MemDisk::new(alloc, Vec::new(alloc), Vec::new(alloc)),
            files: Files::new(rt),
        }
    }

    /// The answer to a call of the device of this name.
    fn called(&mut self, alloc: Global, name: &str, text: &str) -> Result<Vec<u8>, RowFault> {
        let (call, text) = split(text);
        match name {
            "sink" => sinks::called(alloc, &mut self.sink, call, text),
            "disk" => disks::called(alloc, &mut self.disk, call, text),
            "file" => self.files.called(alloc, call, text),
            "writer" => writers::called(alloc, call, text),
            _ => self.sources.called(alloc, name, call, text),
        }
    }
}

impl Subject for Bench {
    fn answer(
        &mut self,
        alloc: Global,
        name: &str,
        argument: &[u8],
    ) -> Result<Option<Vec<u8>>, NoMemory> {
        let Ok(text) = str::from_utf8(argument) else {
            return Ok(None);
        };
        match self.called(alloc, name, text) {
            Ok(answer) => Ok(Some(answer)),
            Err(RowFault::NoMemory) => Err(NoMemory),
            Err(_) => Ok(None),
        }
    }
}
