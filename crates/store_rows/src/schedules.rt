//! The call on schedules: `run`.
use crate::reading::key_of;
use cert_check::{Entry, Shared};
use outside::NoMemory;
use row_table::RowFault;
use std::alloc::{AllocError, Global};
use store_core::{Core, Done, Enter, How, Step, World, run};

/// Of steps with commas between them, made on a core without entries: what each answers; and how many entries there are
/// then, and how many are saved.
///
/// A step is `enter SEAT N KEY`, `keep SEAT`, `unkept SEAT`, `spent SEAT`, `failed SEAT`, `save`, `restart` or
/// `restart more`. Where a step keeps or saves an entry, or restarts with more, it is this one.
pub fn schedule(alloc: Global, entry: &Shared<Entry>, argument: &str) -> Result<String, RowFault> {
    let steps = steps_of(alloc, entry, argument)?;
    let (world, done) = run(alloc, new_world(alloc)?, steps)?;
    Ok(world_text(alloc, &world, &done)?)
}

/// A core without entries, where none is saved.
fn new_world(alloc: Global) -> Result<World, NoMemory> {
    Ok(World {
        core: Core::new(alloc, Vec::new(alloc))?,
        saved: Vec::new(alloc),
    })
}

fn steps_of(alloc: Global, entry: &Shared<Entry>, argument: &str) -> Result<Vec<Step>, RowFault> {
    let mut steps = Vec::new(alloc);
    for step in argument.split(',') {
        steps.push(step_of(alloc, entry, step.trim())?)?;
    }
    Ok(steps)
}

fn step_of(alloc: Global, entry: &Shared<Entry>, text: &str) -> Result<Step, RowFault> {
    let (name, rest) = text.split_once(' ').unwrap_or((text, ""));
    match name {
        "enter" => enter_of(alloc, rest),
        "save" => Ok(Step::Save {
            entry: entry.share()?,
        }),
        "restart" => Ok(Step::Restart {
            more: more_of(alloc, entry, rest)?,
        }),
        _ => Ok(Step::End {
            seat: rest.parse::<u32>()?,
            how: how_of(entry, name)?,
        }),
    }
}

/// The entry, where a restart is to begin with it too.
fn more_of(
    alloc: Global,
    entry: &Shared<Entry>,
    text: &str,
) -> Result<Vec<Shared<Entry>>, RowFault> {
    let mut more = Vec::new(alloc);
    if text == "more" {
        more.push(entry.share()?)?;
    }
    Ok(more)
}

/// Of `SEAT N KEY`.
fn enter_of(alloc: Global, text: &str) -> Result<Step, RowFault> {
    let (seat, rest) = text.split_once(' ').ok_or(RowFault::NoCall)?;
    let (n, key) = rest.split_once(' ').ok_or(RowFault::NoCall)?;
    Ok(Step::Enter {
        seat: seat.parse::<u32>()?,
        key: Shared::new(alloc, key_of(alloc, key)?)?,
        n: n.parse::<u32>()?,
    })
}

fn how_of(entry: &Shared<Entry>, name: &str) -> Result<How, RowFault> {
    match name {
        "keep" => Ok(How::Kept(entry.share()?)),
        "unkept" => Ok(How::Unkept),
        "spent" => Ok(How::Spent),
        "failed" => Ok(How::Failed),
        _ => Err(RowFault::NoCall),
    }
}

fn world_text(alloc: Global, world: &World, done: &[Done]) -> Result<String, AllocError> {
    let mut text = String::new(alloc);
    for answer in done {
        text.push_str(&done_text(alloc, *answer)?)?;
        text.push_str(", ")?;
    }
    let entries = world.core.len();
    let saved = world.saved.len();
    text.push_str(&format!(in alloc; "entries {entries}, saved {saved}")?)?;
    Ok(text)
}

fn done_text(alloc: Global, done: Done) -> Result<String, AllocError> {
    match done {
        Done::Entered(Enter::Newer) => String::from_str(alloc, "newer"),
        Done::Entered(Enter::Joined(seat)) => format!(in alloc; "joined {seat}"),
        Done::Entered(Enter::Began) => String::from_str(alloc, "began"),
        Done::Ended(Some(place)) => format!(in alloc; "kept at {place}"),
        Done::Ended(None) => String::from_str(alloc, "ended"),
        Done::Saved => String::from_str(alloc, "saved"),
        Done::Restarted => String::from_str(alloc, "restarted"),
        Done::Idle => String::from_str(alloc, "idle"),
    }
}
