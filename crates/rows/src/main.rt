//! Whole calls of the program, as the rows of a table tell them.
#![tactic(auto)]

mod arguments;
mod command_lines;
mod crashes;
mod growing;
mod machine;
mod ranges;
mod reports;
mod runs;
mod sources;

use machine::Machine;
use outside::NoMemory;
use row_table::check_table;
use std::io;
use std::io::ErrorKind;

fn main(rt: HostRuntime) -> io::Result<()> {
    let table = io::read_to_string(rt.alloc(), rt.reader())?;
    let mut machine = Machine::new(rt.alloc());
    match check_table(rt.alloc(), table.as_str(), &mut machine) {
        Ok(told) => rt.print(told),
        Err(NoMemory) => Err(io::Error::from(ErrorKind::OutOfMemory)),
    }
}
