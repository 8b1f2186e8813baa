//! The texts of queries, sessions and canonical atoms, as the rows of a table tell them.
#![tactic(auto)]

mod atoms;
mod faults;
mod numbers;
mod queries;
mod sessions;
mod texts;

use outside::NoMemory;
use row_table::check_table;
use std::io;
use std::io::ErrorKind;
use texts::Texts;

fn main(rt: HostRuntime) -> io::Result<()> {
    let table = io::read_to_string(rt.alloc(), rt.reader())?;
    match check_table(rt.alloc(), table.as_str(), &mut Texts) {
        Ok(told) => rt.print(told),
        Err(NoMemory) => Err(io::Error::from(ErrorKind::OutOfMemory)),
    }
}
