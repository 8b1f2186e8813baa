//! Whether a core may be asked: the conditions of its calls.
ghost use Rattle.std.specs.Prelude.{◌≡◌, ◌↔◌, ◌<◌, ◌≤◌, IsTrue, take, length};
ghost use Rattle.cert_check.specs.Decides.{Decides, IsFirstDeciding, NoneDecides};
ghost use Rattle.cert_check.specs.Machine.{IsFlying, MayCome, MayEnter, MayKeep};
ghost use Rattle.store_core.specs.Cores.{IsCore};
ghost use Rattle.store_core.specs.Steps.{end_in};

use crate::machine::Core;
use crate::turns::How;
use atom_implies::Steps;
use cert_check::{Entry, decides};
use lin_model::Key;
use std::marker::Brand;
use std::sync::ledger::{Blank, Ledger};

/// Whether the seat may enter with the key: there are at least n entries, none of the first n decides the key, and the
/// seat has no flight.
pub fn may_enter(core: &Core, seat: u32, key: &Key, n: u32) -> bool
    ensures { IsTrue result ↔ MayEnter core.now.state seat key.now n }
{
    if n > core.len() {
        return false;
    }
    if core.flight_of(seat).is_some() {
        return false;
    }
    is_undecided(core, key, n)
}

/// Whether the flight of the seat may end so: it has one; an entry to be kept decides the flight's key, and there are
/// fewer than 2^20 entries; there are just as many where its entry isn't kept for want of room.
pub fn may_end(core: &Core, seat: u32, how: &How) -> bool
    ensures { IsTrue result ↔ MayCome core.now.state (end_in core.now.state seat how.now) }
{
    let Some(key) = core.flight_of(seat) else {
        return false;
    };
    match how {
        How::Kept(entry) => may_keep(core, seat, key.get(), entry.get()),
        How::Unkept => core.is_full(),
        How::Spent | How::Failed => true,
    }
}

/// Whether the flight of the seat, which is on this key, may end with the entry at the end of the list.
fn may_keep(core: &Core, seat: u32, key: &Key, entry: &Entry) -> bool
    requires flying { IsFlying core.now.state seat key.now }
    requires core { IsCore core.now }
    ensures { IsTrue result ↔ MayKeep core.now.state seat (length core.now.state.entries) entry.now }
{
    if core.is_full() {
        return false;
    }
    decides_by::<Brand>(entry, key, Blank::new(1))
}

/// Whether none of the first n entries decides the key.
fn is_undecided(core: &Core, key: &Key, n: u32) -> bool
    requires { n ≤ length core.now.state.entries }
    ensures { IsTrue result ↔ NoneDecides (take n core.now.state.entries) key.now }
{
    match first_by::<Brand>(core, key, Blank::new(1)) {
        Some(place) => n <= place,
        None => true,
    }
}

/// The first entry that decides the key, by a ledger for the steps that nobody reads.
fn first_by<L: Ledger>(core: &Core, key: &Key, blank: Blank) -> Option<u32>
    requires name { blank.name ≡ L.name }
    requires parts { blank.parts ≡ L.parts }
    requires some { 0 < blank.parts }
    ensures { IsFirstDeciding core.now.state.entries key.now result }
{
    let mut steps: Steps<L> = Steps::new(blank);
    core.version().get().first(key, &mut steps)
}

/// Whether the entry decides the key, by a ledger for the steps that nobody reads.
fn decides_by<L: Ledger>(entry: &Entry, key: &Key, blank: Blank) -> bool
    requires name { blank.name ≡ L.name }
    requires parts { blank.parts ≡ L.parts }
    requires some { 0 < blank.parts }
    ensures { IsTrue result ↔ Decides entry.now key.now }
{
    let mut steps: Steps<L> = Steps::new(blank);
    decides(entry, key, &mut steps)
}
