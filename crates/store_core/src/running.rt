//! Running a schedule.
ghost use Rattle.std.specs.Prelude.{◌≡◌, ◌↔◌, ◌+◌, ◌≤◌, ◌++◌, IfOk, IsTrue, length};
ghost use Rattle.cert_check.specs.Machine.{max_entries};
ghost use Rattle.store_core.specs.declared.schedule.Step.TheVariants.{Enter as EnterStep, End, Save, Restart};
ghost use Rattle.store_core.specs.Schedules.{Does, DoesAll, world_of};
ghost use Rattle.store_core.specs.Histories.{EndsRightly};

use crate::conditions::{may_end, may_enter};
use crate::laws::schedules_end_rightly;
use crate::machine::{Core, MAX_ENTRIES};
use crate::schedule::{Done, Step, World};
use crate::turns::How;
use cert_check::{Entry, Shared};
use lin_model::Key;
use outside::NoMemory;
use std::alloc::Global;

/// Makes the steps one after another, and answers the world that they leave, with an answer for each step. `Idle` comes
/// exactly where a step can't come, and changes nothing. Memory may run out at any step; then the world is dropped.
pub fn run(alloc: Global, world: World, steps: Vec<Step>) -> Result<(World, Vec<Done>), NoMemory>
    ensures steps { IfOk result (λ left. DoesAll steps.items left.1.items (world_of world) (world_of left.0)) }
    ensures end { IfOk result (λ left. EndsRightly steps.items left.1.items (world_of world) (world_of left.0)) }
{
    schedules_end_rightly();
    let mut world = world;
    let mut done = Vec::new(alloc);
    for step in steps {
        done.push(take_step(alloc, &mut world, step)?)?;
    }
    Ok((world, done))
}

/// Makes one step.
fn take_step(alloc: Global, world: &mut World, step: Step) -> Result<Done, NoMemory>
    ensures { IfOk result (λ done. Does step done (world_of world.old) (world_of world.new)) }
{
    match step {
        Step::Enter { seat, key, n } => enter(world, seat, &key, n),
        Step::End { seat, how } => end(alloc, world, seat, how),
        Step::Save { entry } => save(world, entry),
        Step::Restart { more } => restart(alloc, world, more),
    }
}

/// A seat wants to begin a flight.
fn enter(world: &mut World, seat: u32, key: &Shared<Key>, n: u32) -> Result<Done, NoMemory>
    ensures { IfOk result (λ done. Does (EnterStep seat key.now n) done (world_of world.old) (world_of world.new)) }
{
    if !may_enter(&world.core, seat, key.get(), n) {
        return Ok(Done::Idle);
    }
    Ok(Done::Entered(world.core.enter(seat, key, n)?))
}

/// A flight ends.
fn end(alloc: Global, world: &mut World, seat: u32, how: How) -> Result<Done, NoMemory>
    ensures { IfOk result (λ done. Does (End seat how) done (world_of world.old) (world_of world.new)) }
{
    if !may_end(&world.core, seat, &how) {
        return Ok(Done::Idle);
    }
    match world.core.end(alloc, seat, how)? {
        Some((place, _)) => Ok(Done::Ended(Some(place))),
        None => Ok(Done::Ended(None)),
    }
}

/// An entry is saved.
fn save(world: &mut World, entry: Shared<Entry>) -> Result<Done, NoMemory>
    ensures { IfOk result (λ done. Does (Save entry) done (world_of world.old) (world_of world.new)) }
{
    world.saved.push(entry)?;
    Ok(Done::Saved)
}

/// The core is started anew with the saved entries and these.
fn restart(alloc: Global, world: &mut World, more: Vec<Shared<Entry>>) -> Result<Done, NoMemory>
    ensures { IfOk result (λ done. Does (Restart more) done (world_of world.old) (world_of world.new)) }
{
    if !has_room(&world.saved, &more) {
        return Ok(Done::Idle);
    }
    let mut behind = more;
    world.saved.append(&mut behind)?;
    world.core = Core::new(alloc, shares(alloc, &world.saved)?)?;
    Ok(Done::Restarted)
}

/// Whether a core has room for all these entries.
fn has_room(saved: &[Shared<Entry>], more: &[Shared<Entry>]) -> bool
    ensures { IsTrue result ↔ (length saved.now + length more.now ≤ max_entries) }
{
    saved.len() + more.len() <= MAX_ENTRIES as usize
}

/// One owner more of each of these entries.
fn shares(alloc: Global, entries: &[Shared<Entry>]) -> Result<Vec<Shared<Entry>>, NoMemory>
    ensures { IfOk result (λ shares. shares.items ≡ entries.now) }
{
    let mut shares = Vec::new(alloc);
    for entry in entries {
        shares.push(entry.share()?)?;
    }
    Ok(shares)
}
