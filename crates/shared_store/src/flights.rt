//! One key of the one seat: a hit, or a flight.
ghost use Rattle.std.specs.Prelude.{◌≡◌, ◌<◌, ◌≤◌, [], Some, IfOk, MatchOption, MatchResult, OnErr, length, slice_get};
ghost use Rattle.refutation.specs.Boxed.{IsBoxed};
ghost use Rattle.cert_check.specs.Decides.{IsChecked, IsFirstDeciding, NoneDecides};
ghost use Rattle.cert_check.specs.Machine.{MayCome, begun, failed, kept};
ghost use Rattle.store_core.specs.Steps.{IsToKeep, TakesTurn, end_in};
ghost use Rattle.cert_check.specs.declared.saved.Saved.{Saved as AnySaved};
ghost use Rattle.cert_check.specs.Machine.{HasFlight};
ghost use Rattle.entry_codec.specs.Frames.{IsSmallEnough};
ghost use Rattle.shared_store.specs.Flights.{EndsInVain, LandsWithEntry, LandsWithTree, MayLandWith, NotesInVain};
ghost use Rattle.shared_store.specs.Flights.{RepliesByFlight, RepliesByHit, SavesEntry, own_seat};
ghost use Rattle.shared_store.specs.Solving.{IsBlank};

use crate::books::Books;
use crate::solving::{Evidence, find_evidence};
use atom_implies::Steps;
use box_solver::TreeRegion;
use cert_check::{Entry, Reply, Saved, Shared};
use entry_codec::entries_fit_frames;
use lin_model::Key;
use outside::{Disk, NoMemory};
use refutation::Tree;
use std::alloc::Global;
use std::marker::Brand;
use std::sync::ledger::{Blank, Ledger};
use store_core::{Core, Enter, How};

/// The number of the one seat of a store for one thread.
pub const OWN_SEAT: u32 = 0;

/// The reply from the first entry that decides the key, where one does.
pub fn hit(core: &Core, key: &Key) -> Result<Option<Reply>, NoMemory>
    ensures { IfOk result (λ found.
        MatchOption found (NoneDecides core.now.state.entries key.now) (RepliesByHit key.now core.now)) }
{
    match first_deciding(core, key) {
        Some(place) => Ok(Some(hit_at(core, key, place)?)),
        None => Ok(None),
    }
}

/// The reply with the first entry that decides the key, which stands at this place.
fn hit_at(core: &Core, key: &Key, place: u32) -> Result<Reply, NoMemory>
    requires { IsFirstDeciding core.now.state.entries key.now (Some place) }
    ensures { IfOk result (RepliesByHit key.now core.now) }
{
    let entry = checked_entry(core, place);
    Ok(Reply::Hit {
        entry: entry.share()?,
        place,
        seen: core.len(),
    })
}

/// The entry at this place, which is checked, as all are.
fn checked_entry(core: &Core, place: u32) -> &Shared<Entry>
    requires { place < length core.now.state.entries }
    ensures there { slice_get core.now.state.entries place ≡ Some result.now }
    ensures checked { IsChecked result.now }
{
    let entry = core.version().get().entry(place);
    let _key = entry.get().key();
    entry
}

/// The place of the first entry that decides the key.
fn first_deciding(core: &Core, key: &Key) -> Option<u32>
    ensures { IsFirstDeciding core.now.state.entries key.now result }
{
    first_by::<Brand>(core, key, Blank::new(1))
}

/// The same, over a blank ledger for the steps, which nobody reads.
fn first_by<L: Ledger>(core: &Core, key: &Key, blank: Blank) -> Option<u32>
    requires name { blank.name ≡ L.name }
    requires parts { blank.parts ≡ L.parts }
    requires some { 0 < blank.parts }
    ensures { IsFirstDeciding core.now.state.entries key.now result }
{
    let mut steps: Steps<L> = Steps::new(blank);
    core.version().get().first(key, &mut steps)
}

/// Solves the key in a flight, for a store without flights, of whose entries none decides the key. An entry is saved
/// before the flight ends. After want of memory no flight began, or it has failed, and the journal has noted one write at
/// most. The region, which is blank, is blank again.
pub fn fly<D: Disk>(
    alloc: Global,
    books: &mut Books<D>,
    key: &Key,
    budget: u32,
    region: &mut TreeRegion,
) -> Result<Reply, NoMemory>
    requires landed { books.old.core.state.flights ≡ [] }
    requires undecided { NoneDecides books.old.core.state.entries key.now }
    requires boxed { IsBoxed key.now }
    requires some { 1 ≤ budget }
    requires few { budget ≤ 100000 }
    requires blank { IsBlank budget region.old }
    ensures reply { IfOk result (RepliesByFlight budget key.now books.old books.new) }
    ensures in_vain { OnErr result (EndsInVain key.now books.old books.new) }
    ensures blank { IsBlank budget region.new }
{
    entries_fit_frames();
    begin(alloc, &mut books.core, key)?;
    match find_evidence(alloc, key, budget, region) {
        Ok(Evidence::Decided(entry)) => land(alloc, books, entry),
        Ok(Evidence::Open(tree)) => Ok(land_open(alloc, &mut books.core, tree)),
        Err(NoMemory) => {
            finish(alloc, &mut books.core, How::Failed);
            Err(NoMemory)
        }
    }
}

/// Begins a flight, or leaves the core as it was where memory runs out.
fn begin(alloc: Global, core: &mut Core, key: &Key) -> Result<(), NoMemory>
    requires landed { core.old.state.flights ≡ [] }
    requires undecided { NoneDecides core.old.state.entries key.now }
    ensures { MatchResult result
        (λ _. TakesTurn (begun own_seat key.now (length core.old.state.entries)) core.old core.new)
        (λ _. core.new ≡ core.old) }
{
    let key = Shared::new(alloc, key.clone()?)?;
    let seen = core.len();
    match core.enter(OWN_SEAT, &key, seen)? {
        Enter::Began => Ok(()),
        Enter::Newer | Enter::Joined(_) => unreachable!(),
    }
}

/// Ends the flight with the whole budget spent.
fn land_open(alloc: Global, core: &mut Core, tree: Tree) -> Reply
    requires { HasFlight core.old.state own_seat }
    ensures { LandsWithTree tree core.old core.new result }
{
    let seen = core.len();
    finish(alloc, core, How::Spent);
    Reply::Spent { tree, seen }
}

/// Appends the entry to the journal, and ends the flight with it. Where memory runs out the flight has failed, and the
/// journal may have noted what became of the entry.
fn land<D: Disk>(
    alloc: Global,
    books: &mut Books<D>,
    entry: Shared<Entry>,
) -> Result<Reply, NoMemory>
    requires may { MayLandWith books.old.core.state entry }
    requires small { IsSmallEnough entry }
    ensures lands { IfOk result (λ reply. (saved : AnySaved) × SavesEntry entry saved books.old.journal books.new.journal
        × LandsWithEntry entry saved books.old.core books.new.core reply) }
    ensures failed { OnErr result (TakesTurn (failed own_seat) books.old.core books.new.core
        × NotesInVain books.old.journal books.new.journal) }
{
    match books.journal.append(OWN_SEAT, &entry) {
        Ok(saved) => land_entry(alloc, &mut books.core, entry, saved),
        Err(NoMemory) => {
            finish(alloc, &mut books.core, How::Failed);
            Err(NoMemory)
        }
    }
}

/// Ends the flight with an entry that was saved so; it is kept where there is room. Where memory runs out the flight has
/// failed.
fn land_entry(
    alloc: Global,
    core: &mut Core,
    entry: Shared<Entry>,
    saved: Saved,
) -> Result<Reply, NoMemory>
    requires { MayLandWith core.old.state entry }
    ensures lands { IfOk result (LandsWithEntry entry saved core.old core.new) }
    ensures failed { OnErr result (TakesTurn (failed own_seat) core.old core.new) }
{
    if core.is_full() {
        let seen = core.len();
        finish(alloc, core, How::Unkept);
        return Ok(Reply::Unkept { entry, seen, saved });
    }
    match keep(alloc, core, &entry) {
        Ok(place) => Ok(Reply::Solved {
            entry,
            place,
            seen: place + 1,
            saved,
        }),
        Err(NoMemory) => {
            finish(alloc, core, How::Failed);
            Err(NoMemory)
        }
    }
}

/// Ends the flight with the entry at the end of the list, and answers its place; or leaves the core as it was where
/// memory runs out.
fn keep(alloc: Global, core: &mut Core, entry: &Shared<Entry>) -> Result<u32, NoMemory>
    requires { MayCome core.old.state (kept own_seat (length core.old.state.entries) entry.now) }
    ensures { MatchResult result
        (λ place. (place ≡ length core.old.state.entries)
        × TakesTurn (kept own_seat (length core.old.state.entries) entry.now) core.old core.new)
        (λ _. core.new ≡ core.old) }
{
    match core.end(alloc, OWN_SEAT, How::Kept(entry.share()?))? {
        Some((place, _)) => Ok(place),
        None => unreachable!(),
    }
}

/// Ends the flight without an entry that is kept, which takes no memory.
fn finish(alloc: Global, core: &mut Core, how: How)
    requires may { MayCome core.old.state (end_in core.old.state own_seat how) }
    requires keeps_nothing { IsToKeep how → ⊥ }
    ensures { TakesTurn (end_in core.old.state own_seat how) core.old core.new }
{
    if core.end(alloc, OWN_SEAT, how).is_err() {
        unreachable!()
    }
}
