//! The program `green`: the top call over the standard streams and files of the system.
#![tactic(auto)]

ghost use Rattle.std.specs.Prelude.{◌≡◌, ◌≢◌, ◌⊎◌, IfErr};

use devices::{FileDisk, StdSink, StdSource};
use green_cli::{Fault, green, write_fault};
use outside::NoGate;
use std::fs::File;
use std::io::ErrorKind;
use std::process::ExitCode;
use std::{env, io, rt};

fn main(rt: HostRuntime) -> ExitCode {
    let _held = hold_streams(&rt);
    let mut sink = StdSink::new(io::writer(&rt));
    let words = match words(&rt) {
        Ok(words) => words,
        Err(fault) => return ExitCode::from(write_fault(rt.alloc(), fault, &mut sink)),
    };
    let mut source = StdSource::new(rt.reader());
    let outcome = green(
        rt.alloc(),
        words.as_slice(),
        &mut source,
        &mut sink,
        FileDisk::new(rt),
        FileDisk::new(rt),
        &NoGate,
    );
    ExitCode::from(outcome.status)
}

/// Handles to a folder, which take the numbers of those standard streams that are closed, at most three. While they are
/// open no other file gets such a number, so that nothing that is meant for a stream is written to it.
fn hold_streams<R: rt::Files<File = File>>(rt: &R) -> io::Result<[File; 3]> {
    Ok([
        File::open(rt, "/")?,
        File::open(rt, "/")?,
        File::open(rt, "/")?,
    ])
}

/// The words behind the program's own name. Words that are no text are wrong words.
fn words(rt: &(impl rt::Env + AllocGlobal)) -> Result<Vec<String>, Fault>
    ensures { IfErr result (λ fault. (fault ≡ Fault.Usage) ⊎ (fault ≡ Fault.NoMemory)) }
{
    let args = env::args(rt).map_err(|error| fault_of(error.kind()))?;
    Ok(args.skip(1).collect::<Vec<String>>(rt.alloc())?)
}

/// The fault where the words can't be had: want of memory, and else words that are no text.
fn fault_of(kind: ErrorKind) -> Fault
    ensures memory { kind ≡ ErrorKind.OutOfMemory → result ≡ Fault.NoMemory }
    ensures usage { kind ≢ ErrorKind.OutOfMemory → result ≡ Fault.Usage }
{
    match kind {
        ErrorKind::OutOfMemory => Fault::NoMemory,
        _ => Fault::Usage,
    }
}
