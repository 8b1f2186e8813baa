//! What the calls of the table speak to.
use crate::arguments::{bytes_of, hex_of, number_of, numbers_of};
use crate::ranges::Ranges;
use crate::runs::{Left, empty_disk, run, run_solve, source_of};
use crate::sources::{OneByOne, Zeros};
use crate::{command_lines, crashes, growing, reports};
use devices::MemDisk;
use green_cli::Report;
use outside::{NoMemory, Source};
use row_table::{RowFault, Subject};
use std::alloc::Global;
use std::mem;

/// Two disks and a session, at which calls devices fail, and what the last run left.
#[derive(Drop)]
pub struct Machine {
    /// The disk that the words name a file of.
    disk: MemDisk,
    /// The other disk.
    other: MemDisk,
    /// The session that `run` reads.
    session: String,
    /// The command line of `query` and `text`.
    line: String,
    /// At which calls a source fails.
    reads: Vec<u64>,
    /// At which calls a sink fails.
    writes: Vec<u64>,
    /// The output of the last run.
    output: String,
    /// Its report.
    report: Option<Report>,
}

impl Subject for Machine {
    fn answer(
        &mut self,
        alloc: Global,
        name: &str,
        argument: &[u8],
    ) -> Result<Option<Vec<u8>>, NoMemory> {
        match self.called(alloc, name, argument) {
            Ok(answer) => Ok(Some(answer.into_bytes())),
            Err(RowFault::NoMemory) => Err(NoMemory),
            Err(_) => Ok(None),
        }
    }
}

impl Machine {
    /// Empty disks and an empty session; nothing fails.
    pub fn new(alloc: Global) -> Machine {
        Machine {
            disk: empty_disk(alloc),
            other: empty_disk(alloc),
            session: String::new(alloc),
            line: String::new(alloc),
            reads: Vec::new(alloc),
            writes: Vec::new(alloc),
            output: String::new(alloc),
            report: None,
        }
    }

    /// The answer to a call.
    fn called(&mut self, alloc: Global, name: &str, argument: &[u8]) -> Result<String, RowFault> {
        let text = str::from_utf8(argument).ok().ok_or(RowFault::NoCall)?;
        match name {
            "disk" | "line" | "reads" | "writes" | "session" | "growing" => {
                self.set(alloc, name, text)?;
                Ok(String::from_str(alloc, "ready")?)
            }
            "run"
            | "status"
            | "cuts"
            | "text"
            | "query"
            | "one_by_one"
            | "zeros"
            | "unread"
            | "once" => { self.run_as(alloc, name, text) }
            "words" => Ok(command_lines::asked(alloc, text)?),
            _ => self.told(alloc, name, text),
        }
    }

    /// Puts something in its place for the runs to come.
    fn set(&mut self, alloc: Global, name: &str, text: &str) -> Result<(), RowFault> {
        match name {
            "disk" => self.disk = disk_of(alloc, text)?,
            "reads" => self.reads = numbers_of(alloc, text)?,
            "writes" => self.writes = numbers_of(alloc, text)?,
            "line" => self.line = String::from_str(alloc, text)?,
            "session" => self.session = String::from_str(alloc, text)?,
            _ => self.session = growing::session(alloc, text)?,
        }
        Ok(())
    }

    /// Runs the program, and tells what came of it.
    fn run_as(&mut self, alloc: Global, name: &str, text: &str) -> Result<String, RowFault> {
        match name {
            "run" => self.run_session(alloc, text),
            "status" => self.status_of(alloc, text),
            "cuts" => self.run_cuts(alloc, text),
            "text" => self.run_text(alloc, text),
            "query" => self.run_query(alloc, text),
            "one_by_one" => self.run_one_by_one(alloc),
            "zeros" => self.run_zeros(alloc, text),
            "unread" => self.run_unread(alloc, text),
            _ => self.run_once(alloc, text),
        }
    }

    /// Runs a command line over the session.
    fn run_session(&mut self, alloc: Global, line: &str) -> Result<String, RowFault> {
        let mut source = source_of(alloc, self.session.as_str(), &self.reads)?;
        self.run_over(alloc, line, &mut source)
    }

    /// The same, telling the status alone.
    fn status_of(&mut self, alloc: Global, line: &str) -> Result<String, RowFault> {
        let told = self.run_session(alloc, line)?;
        let status = told.as_str().split(' ').next().ok_or(RowFault::NoCall)?;
        Ok(String::from_str(alloc, status)?)
    }

    /// Runs a command line over the session and each front of the file that is shorter than the file, and tells what each
    /// run left of it. The file is put back.
    fn run_cuts(&mut self, alloc: Global, line: &str) -> Result<String, RowFault> {
        let whole = self.disk.bytes().to_vec(alloc)?;
        let mut ranges = Ranges::new(alloc);
        for size in 0..whole.len() {
            ranges.add(alloc, size, self.run_cut(alloc, line, &whole, size)?)?;
        }
        self.disk = MemDisk::new(alloc, whole, Vec::new(alloc));
        Ok(ranges.told(alloc)?)
    }

    /// Runs a command line over the session and a front of a file.
    fn run_cut(
        &mut self,
        alloc: Global,
        line: &str,
        whole: &[u8],
        size: usize,
    ) -> Result<String, RowFault> {
        let front = whole.get(..size).ok_or(RowFault::NoCall)?;
        self.disk = MemDisk::new(alloc, front.to_vec(alloc)?, Vec::new(alloc));
        let told = self.run_session(alloc, line)?;
        let left = match self.disk.bytes() {
            bytes if bytes == whole => "whole",
            bytes if bytes == front => "as it was",
            _ => "other",
        };
        Ok(format!(in alloc; "{told}{left}")?)
    }

    /// Runs the command line that was set over this text.
    fn run_text(&mut self, alloc: Global, text: &str) -> Result<String, RowFault> {
        let mut source = source_of(alloc, text, &self.reads)?;
        let line = String::from_str(alloc, self.line.as_str())?;
        self.run_over(alloc, line.as_str(), &mut source)
    }

    /// The same over the session of one executor, whose first query has these lines; of answers only those of the queries
    /// are told.
    fn run_query(&mut self, alloc: Global, lines: &str) -> Result<String, RowFault> {
        let text = format!(in alloc; "green 1\nexecutor\nquery\n{lines}end\n")?;
        let told = self.run_text(alloc, text.as_str())?;
        Ok(without_frame(alloc, told.as_str())?)
    }

    /// Runs `solve` over a source that gives the session byte by byte.
    fn run_one_by_one(&mut self, alloc: Global) -> Result<String, RowFault> {
        let text = String::from_str(alloc, self.session.as_str())?;
        self.run_over(alloc, "solve", &mut OneByOne(text.as_bytes()))
    }

    /// Runs `solve` over so many zeros, and tells too how many are left.
    fn run_zeros(&mut self, alloc: Global, text: &str) -> Result<String, RowFault> {
        let mut source = Zeros(number_of(text)? as usize);
        let told = self.run_over(alloc, "solve", &mut source)?;
        Ok(format!(in alloc; "{told}{} left", source.0)?)
    }

    /// Runs a command line over a source whose first call fails, and tells too what the next call answers.
    fn run_unread(&mut self, alloc: Global, line: &str) -> Result<String, RowFault> {
        let mut source = source_of(alloc, self.session.as_str(), &[0])?;
        let told = self.run_over(alloc, line, &mut source)?;
        let next = source.read(&mut [0]);
        Ok(format!(in alloc; "{told}{next:?}")?)
    }

    /// Does the command `solve` by itself over this text.
    fn run_once(&mut self, alloc: Global, text: &str) -> Result<String, RowFault> {
        let left = run_solve(alloc, text)?;
        self.keep(alloc, left)
    }

    /// Runs a command line over a source and the disks.
    fn run_over<S: Source>(
        &mut self,
        alloc: Global,
        line: &str,
        source: &mut S,
    ) -> Result<String, RowFault> {
        let disk = mem::replace(&mut self.disk, empty_disk(alloc));
        let other = mem::replace(&mut self.other, empty_disk(alloc));
        let left = run(alloc, line, source, &self.writes, (disk, other))?;
        self.keep(alloc, left)
    }

    /// Keeps what a run left, and tells its status and its output.
    fn keep(&mut self, alloc: Global, left: Left) -> Result<String, RowFault> {
        let Left {
            status,
            output,
            report,
            disk,
            other,
        } = left;
        self.disk = disk;
        self.other = other;
        self.report = Some(report);
        self.output = output;
        Ok(format!(in alloc; "{status} {}", self.output)?)
    }

    /// What is there after a run.
    fn told(&self, alloc: Global, name: &str, text: &str) -> Result<String, RowFault> {
        match name {
            "content" => Ok(hex_of(alloc, self.disk.bytes())?),
            "other" => Ok(hex_of(alloc, self.other.bytes())?),
            "calls" => Ok(format!(in alloc; "{} {}", self.disk.calls(), self.other.calls())?),
            "images" => crashes::images(alloc, &self.disk),
            "count" => Ok(count_of(alloc, self.output.as_str(), text)?),
            "output" => Ok(String::from_str(alloc, line_of(self.output.as_str(), text)?)?),
            "verdict" => verdict_of(alloc, line_of(self.output.as_str(), text)?),
            "report" => match &self.report {
                Some(report) => Ok(reports::told(alloc, report)?),
                None => Err(RowFault::NoCall),
            },
            _ => Err(RowFault::NoCall),
        }
    }
}

/// The disk with these bytes in its file, behind a bar with the calls at which it fails.
fn disk_of(alloc: Global, text: &str) -> Result<MemDisk, RowFault> {
    let (bytes, failing) = text.split_once('|').unwrap_or((text, ""));
    let bytes = bytes_of(alloc, bytes)?;
    Ok(MemDisk::new(alloc, bytes, numbers_of(alloc, failing)?))
}

/// A status and the answers of one executor, without the lines that begin and end the answers text.
fn without_frame(alloc: Global, told: &str) -> Result<String, NoMemory> {
    let front = told.replace(alloc, "green answers 1\nexecutor\n", "")?;
    let lines = front.as_str().strip_suffix("\nend\n");
    Ok(String::from_str(alloc, lines.unwrap_or(front.as_str()))?)
}

/// How many lines have this text in them.
fn count_of(alloc: Global, output: &str, text: &str) -> Result<String, NoMemory> {
    let count = output.lines().filter(|line| line.contains(text)).count();
    Ok(format!(in alloc; "{count}")?)
}

/// The line of this number, from 1.
fn line_of<'a>(output: &'a str, number: &str) -> Result<&'a str, RowFault> {
    let place = number_of(number)?.saturating_sub(1) as usize;
    output.lines().nth(place).ok_or(RowFault::NoCall)
}

/// What stands before the marks of an answer's line.
fn verdict_of(alloc: Global, line: &str) -> Result<String, RowFault> {
    let (verdict, _) = line.split_once(" [").ok_or(RowFault::NoCall)?;
    Ok(String::from_str(alloc, verdict)?)
}
