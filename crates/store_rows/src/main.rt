//! Checks a table of rows on what a store is made of: the slices of conditions and their keys, what closes a box, what
//! refutes a key, what is found for it and kept, frames of entries and journals.
#![tactic(auto)]

mod bench;
mod copies;
mod cores;
mod crashes;
mod entries;
mod evidence;
mod falsity;
mod frames;
mod implication;
mod keys;
mod machine;
mod pieces;
mod reading;
mod recovery;
mod regions;
mod schedules;
mod searches;
mod slicing;
mod solutions;
mod spans;
mod stored;
mod trees;
mod tries;
mod versions;
mod writing;

ghost use Rattle.std.specs.Prelude.{◌≡◌, ◌<◌};

use evidence::Evidence;
use outside::NoMemory;
use row_table::check_table;
use std::alloc::Global;
use std::io;
use std::io::ErrorKind;
use std::marker::Brand;
use std::sync::ledger::{Blank, Ledger};

fn main(rt: HostRuntime) -> io::Result<()> {
    let table = io::read_to_string(rt.alloc(), rt.reader())?;
    match told::<Brand>(rt.alloc(), table, Blank::new(1)) {
        Ok(told) => rt.print(told),
        Err(NoMemory) => Err(io::Error::from(ErrorKind::OutOfMemory)),
    }
}

/// What there is to tell of a table, by a ledger for the steps that nobody reads.
fn told<L: Ledger>(alloc: Global, table: String, blank: Blank) -> Result<String, NoMemory>
    requires name { blank.name ≡ L.name }
    requires parts { blank.parts ≡ L.parts }
    requires some { 0 < blank.parts }
{
    let mut evidence: Evidence<L> = Evidence::new(alloc, blank)?;
    check_table(alloc, table.as_str(), &mut evidence)
}
