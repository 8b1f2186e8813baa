//! The library called from code of one's own: the verdict on one condition, which standard input spells. Where an argument
//! names a file, its entries are known from the start, and what is solved is kept in it.
#![tactic(auto)]

mod refusal;
mod store;
mod verdict;

use devices::FileDisk;
use std::process::ExitCode;
use std::{env, io};
use store::{store_in_memory, store_over_file};
use verdict::{told, verdict_on};

fn main(rt: HostRuntime) -> io::Result<ExitCode> {
    let alloc = rt.alloc();
    let text = io::read_to_string(alloc, rt.reader())?;
    let name = env::args(&rt)?.nth(1);
    let disk = FileDisk::new(&rt);
    let store = match &name {
        Some(name) => store_over_file(alloc, disk, name.as_str()),
        None => store_in_memory(alloc, disk),
    };
    let verdict = match store {
        Ok(mut store) => verdict_on(alloc, text.as_str(), &mut store),
        Err(refusal) => Err(refusal),
    };
    match verdict {
        Ok(verdict) => {
            let line = told(alloc, &verdict)?;
            println!(rt; "{line}")?;
            Ok(ExitCode::SUCCESS)
        }
        Err(refusal) => {
            println!(rt; "{refusal}")?;
            Ok(ExitCode::FAILURE)
        }
    }
}
