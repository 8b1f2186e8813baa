//! What the devices do, as the rows of a table tell it.
#![tactic(auto)]

mod bench;
mod disks;
mod files;
mod sinks;
mod sources;
mod told;
mod words;
mod writers;

use bench::Bench;
use outside::NoMemory;
use row_table::check_table;
use std::io;
use std::io::ErrorKind;

fn main(rt: HostRuntime) -> io::Result<()> {
    let table = io::read_to_string(rt.alloc(), rt.reader())?;
    match checked(rt, table.as_str()) {
        Ok(told) => print!(rt; "{told}"),
        Err(NoMemory) => Err(io::Error::from(ErrorKind::OutOfMemory)),
    }
}

/// What the table's check tells.
fn checked(rt: HostRuntime, table: &str) -> Result<String, NoMemory> {
    let mut bench = Bench::new(rt);
    check_table(rt.alloc(), table, &mut bench)
}
