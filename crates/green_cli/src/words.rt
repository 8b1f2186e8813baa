//! The words of a command line.
ghost use Rattle.std.specs.Prelude.{◌≡◌, ◌↔◌, ℕ, Some, IsTrue, IfOk, MatchResult, OnOk, codes, map, option_map};
ghost use Rattle.std.specs.Prelude.{slice_get};
ghost use Rattle.std.specs.String.{string_bytes};
ghost use Rattle.clap.specs.Words.{app_of};
ghost use Rattle.green_cli.specs.Words.{AreCommand, AreTaken, GivesValues, IsBudget, IsCommand, IsLine, dump_line};
ghost use Rattle.green_cli.specs.Words.{solve_line};

use crate::budget::{Budget, DEFAULT_BUDGET, parse_budget};
use crate::file_name::FileName;
use clap::error::ErrorKind;
use clap::{Arg, ArgAction, ArgMatches};
use std::alloc::{AllocError, Global};
use thiserror::Error;

/// What the words ask for.
#[derive(Debug, Drop, PartialEq, Eq)]
pub enum Command {
    /// Reads a session, answers its queries in order, and writes the answers. Where a store is named, its entries are
    /// found, and those that are solved are saved there.
    Solve {
        store: Option<FileName>,
        budget: Budget,
    },
    /// Writes the entries of a store as text.
    Dump {
        store: FileName,
    },
}

/// Why words are no command.
#[derive(Clone, Copy, Debug, PartialEq, Eq, Error)]
pub enum WordsFault {
    /// They aren't the words of a command.
    #[error("the words ask for no command")]
    Usage,
    /// Memory ran out.
    #[error("out of memory")]
    NoMemory,
}

impl From<AllocError> for WordsFault {
    ghost use Rattle.green_cli.specs.declared.words.WordsFault.TheVariants.{NoMemory};

    ghost from_gives = { λ _ fault. fault ≡ NoMemory };

    fn from(_error: AllocError) -> WordsFault {
        WordsFault::NoMemory
    }
}

impl From<clap::Error> for WordsFault {
    ghost use Rattle.std.specs.Prelude.{◌≡◌, ◌≢◌, ◌⊎◌};
    ghost use Rattle.clap.specs.Words.{kind_of};
    ghost use Rattle.clap.specs.declared.error.kind.ErrorKind.TheVariants.{OutOfMemory};
    ghost use Rattle.green_cli.specs.declared.words.WordsFault.TheVariants.{NoMemory, Usage};

    ghost from_gives = { λ error fault. ((fault ≡ NoMemory) × (kind_of error ≡ OutOfMemory))
        ⊎ ((fault ≡ Usage) × (kind_of error ≢ OutOfMemory)) };

    fn from(error: clap::Error) -> WordsFault {
        if error.kind() == ErrorKind::OutOfMemory {
            WordsFault::NoMemory
        } else {
            WordsFault::Usage
        }
    }
}

/// The command that the words ask for, without the program's own name: `solve`, and after it `--store F` and `--budget
/// N`, each once or not at all, or `dump`, and after it `--store F`, as `clap` takes them. F is any text, and N is 1 to
/// 10 digits of a number from 1 to 100,000. `Usage` comes exactly where the words ask for no command, unless memory ran
/// out.
pub fn read_words(alloc: Global, words: &[String]) -> Result<Command, WordsFault>
    ensures command { IfOk result (IsCommand (map string_bytes words.now)) }
    ensures usage { result ≡ Err WordsFault.Usage → ¬ AreCommand (map string_bytes words.now) }
{
    if begins_with(words, "solve") {
        read_solve(alloc, words)
    } else if begins_with(words, "dump") {
        read_dump(alloc, words)
    } else {
        Err(WordsFault::Usage)
    }
}

/// Whether this is the first word.
fn begins_with(words: &[String], first: &str) -> bool
    ensures { IsTrue result ↔ (slice_get (map string_bytes words.now) 0 ≡ Some first.now) }
{
    match words.first() {
        Some(word) => is_text(word, first),
        None => false,
    }
}

fn is_text(word: &String, text: &str) -> bool
    ensures { IsTrue result ↔ (string_bytes word.now ≡ text.now) }
{
    word.as_str() == text
}

/// What words ask for that begin with `solve`.
fn read_solve(alloc: Global, words: &[String]) -> Result<Command, WordsFault>
    requires { slice_get (map string_bytes words.now) 0 ≡ Some (codes "solve") }
    ensures command { IfOk result (IsCommand (map string_bytes words.now)) }
    ensures usage { result ≡ Err WordsFault.Usage → ¬ AreCommand (map string_bytes words.now) }
{
    let matches = take_words(solve_command(alloc)?, words)?;
    let budget = budget_of(matches.get_str("budget"))?;
    let store = name_of(alloc, matches.get_str("store"))?;
    Ok(Command::Solve { store, budget })
}

/// What words ask for that begin with `dump`.
fn read_dump(alloc: Global, words: &[String]) -> Result<Command, WordsFault>
    requires { slice_get (map string_bytes words.now) 0 ≡ Some (codes "dump") }
    ensures command { IfOk result (IsCommand (map string_bytes words.now)) }
    ensures usage { result ≡ Err WordsFault.Usage → ¬ AreCommand (map string_bytes words.now) }
{
    let matches = take_words(dump_command(alloc)?, words)?;
    match name_of(alloc, matches.get_str("store"))? {
        Some(store) => Ok(Command::Dump { store }),
        None => Err(WordsFault::Usage),
    }
}

/// The options of `solve`.
fn solve_command<'a>(alloc: Global) -> Result<clap::Command<'a>, AllocError>
    ensures { IfOk result (λ command. app_of command ≡ solve_line) }
{
    let store = Arg::new(alloc, "store")
        .long("store")
        .action(ArgAction::Set);
    let budget = Arg::new(alloc, "budget")
        .long("budget")
        .action(ArgAction::Set);
    clap::Command::new(alloc, "solve").arg(store)?.arg(budget)
}

/// The option of `dump`.
fn dump_command<'a>(alloc: Global) -> Result<clap::Command<'a>, AllocError>
    ensures { IfOk result (λ command. app_of command ≡ dump_line) }
{
    let store = Arg::new(alloc, "store")
        .long("store")
        .action(ArgAction::Set)
        .required(true);
    clap::Command::new(alloc, "dump").arg(store)
}

/// What `clap` finds in the words after the first, for this command.
fn take_words<'a>(
    command: clap::Command<'a>,
    words: &'a [String],
) -> Result<ArgMatches<'a>, WordsFault>
    requires { IsLine (app_of command) }
    ensures taken { OnOk result (AreTaken (app_of command.entry) (map string_bytes words.entry.now)) }
    ensures values { IfOk result (GivesValues (app_of command.entry) (map string_bytes words.entry.now)) }
    ensures usage { result ≡ Err WordsFault.Usage
        → ¬ AreTaken (app_of command.entry) (map string_bytes words.entry.now) }
{
    Ok(command.try_get_matches_from(words)?)
}

/// The budget by the value of `--budget`, if there is one.
fn budget_of(text: Option<&str>) -> Result<Budget, WordsFault>
    ensures { MatchResult result (IsBudget (option_map (λ text. text.now) text.entry))
        (λ _. (splits : ℕ) → ¬ IsBudget (option_map (λ text. text.now) text.entry) splits) }
{
    match text {
        Some(text) => parse_budget(text).ok_or(WordsFault::Usage),
        None => Ok(Budget::new(DEFAULT_BUDGET)),
    }
}

/// The name of a file by the value of `--store`, if there is one.
fn name_of(alloc: Global, text: Option<&str>) -> Result<Option<FileName>, AllocError>
    ensures { IfOk result (λ name. name ≡ option_map (λ text. text.now) text.entry) }
{
    Ok(match text {
        Some(text) => Some(FileName::new(String::from_str(alloc, text)?)),
        None => None,
    })
}
