//! What words ask for.
use crate::arguments::words_of;
use green_cli::{Command, FileName, WordsFault, read_words};
use outside::NoMemory;
use std::alloc::Global;

/// What a command line asks for, or that it asks for no command.
pub fn asked(alloc: Global, line: &str) -> Result<String, NoMemory> {
    let words = words_of(alloc, line)?;
    match read_words(alloc, words.as_slice()) {
        Ok(command) => told(alloc, &command),
        Err(WordsFault::Usage) => Ok(String::from_str(alloc, "usage")?),
        Err(WordsFault::NoMemory) => Err(NoMemory),
    }
}

/// A command, with the file that it names in brackets, and the budget.
fn told(alloc: Global, command: &Command) -> Result<String, NoMemory> {
    match command {
        Command::Solve { store, budget } => {
            let name = name_of(alloc, store.as_ref())?;
            let splits = budget.splits();
            Ok(format!(in alloc; "solve{name} {splits}")?)
        }
        Command::Dump { store } => {
            let name = name_of(alloc, Some(store))?;
            Ok(format!(in alloc; "dump{name}")?)
        }
    }
}

fn name_of(alloc: Global, store: Option<&FileName>) -> Result<String, NoMemory> {
    match store {
        Some(name) => Ok(format!(in alloc; " [{}]", name.as_str())?),
        None => Ok(String::new(alloc)),
    }
}
