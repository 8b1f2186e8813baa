//! The core of a store.
ghost use Rattle.std.specs.Prelude.{◌≡◌, ◌≢◌, ◌↔◌, ◌+◌, ◌≤◌, ◌∷◌, [], ◌++◌, IfOk, IsTrue, OnErr, length};
ghost use Rattle.std.specs.Prelude.{MatchOption, MatchResult};
ghost use Rattle.std.specs.List.{All, Any};
ghost use Rattle.std.specs.Vec.{vec_capacity};
ghost use Rattle.layers.specs.Layers.{joined};
ghost use Rattle.cert_check.specs.Machine.{IsFlying, MayBegin, MayCome, MayEnter, begun, kept};
ghost use Rattle.cert_check.specs.Machine.{max_entries, without};
ghost use Rattle.cert_check.specs.declared.event.Event.TheVariants.{Ended};
ghost use Rattle.store_core.specs.Cores.{IsCore, end_turn, started};
ghost use Rattle.store_core.specs.Steps.{CannotBegin, CannotEnd, Ends, Enters, IsOn, Keeps, KeepsNothing, TakesTurn};
ghost use Rattle.store_core.specs.Steps.{end_in};

use crate::laws::cores_take_turns;
use crate::seen::seen_by;
use crate::turns::{Enter, How};
use cert_check::{Ending, Entry, Event, Flight, Shared, flights_begin_rightly};
use layers::Version;
use lin_model::Key;
use outside::NoMemory;
use std::alloc::Global;
use std::marker::Model;

/// The most entries of a store.
pub const MAX_ENTRIES: u32 = 1 << 20;

/// The entries of a store, its open flights, and the events since it began. The events replay to the entries and the
/// flights; no two flights have one key, and no seat has two.
#[derive(Drop)]
pub struct Core {
    opening: Shared<Version>,
    version: Shared<Version>,
    flights: Vec<Flight>,
    // It has room for the event of each open flight's end.
    events: Vec<Event>,
}

impl Model for Core {
    ghost use Rattle.std.specs.Prelude.{◌+◌, ◌≤◌, length};
    ghost use Rattle.std.specs.Vec.{vec_capacity};
    ghost use Rattle.layers.specs.Layers.{joined};
    ghost use Rattle.store_core.specs.Cores.{PlainCore, IsCore};

    ghost Value = { PlainCore };

    ghost view = { λ core. record {
      opening = joined core.opening;
      state = record { entries = joined core.version; flights = core.flights.items };
      layers = core.version;
      events = core.events.items;
    } };

    ghost invariant = { λ core. IsCore (record {
      opening = joined core.opening;
      state = record { entries = joined core.version; flights = core.flights.items };
      layers = core.version;
      events = core.events.items;
    }) × (length core.events.items + length core.flights.items ≤ vec_capacity core.events) };
}

impl Core {
    /// The core of these entries, at most 2^20, before any event.
    pub fn new(alloc: Global, entries: Vec<Shared<Entry>>) -> Result<Core, NoMemory>
        requires { length entries.items ≤ max_entries }
        ensures { IfOk result (λ core. core ≡ started entries.items) }
    {
        let version = Shared::new(alloc, Version::of(alloc, entries)?)?;
        Ok(Core {
            opening: version.share()?,
            version,
            flights: Vec::new(alloc),
            events: Vec::new(alloc),
        })
    }

    /// How many entries there are.
    pub fn len(&self) -> u32
        ensures len { result ≡ length self.now.state.entries }
        ensures few { result ≤ max_entries }
    {
        self.version.get().len()
    }

    /// Whether there is no room for another entry: there are 2^20.
    pub fn is_full(&self) -> bool
        ensures full { IsTrue result ↔ (length self.now.state.entries ≡ max_entries) }
        ensures few { length self.now.state.entries ≤ max_entries }
    {
        self.len() == MAX_ENTRIES
    }

    /// The entries, which no later call changes.
    pub fn version(&self) -> &Shared<Version>
        ensures entries { joined result.now ≡ self.now.state.entries }
        ensures layers { result.now ≡ self.now.layers }
    {
        &self.version
    }

    /// The entries that the core began with.
    pub fn opening(&self) -> &Shared<Version>
        ensures { joined result.now ≡ self.now.opening }
    {
        &self.opening
    }

    /// What has happened, in order.
    pub fn events(&self) -> &[Event]
        ensures events { result.now ≡ self.now.events }
        ensures core { IsCore self.now }
    {
        &self.events
    }

    /// The entries and the events.
    pub fn into_parts(self) -> (Shared<Version>, Vec<Event>)
        ensures entries { joined result.0 ≡ self.state.entries }
        ensures layers { result.0 ≡ self.layers }
        ensures events { result.1.items ≡ self.events }
        ensures core { IsCore self }
    {
        let Core {
            version,
            events,
            ..
        } = self;
        (version, events)
    }

    /// The key that the seat has a flight on, where it has one.
    pub fn flight_of(&self, seat: u32) -> Option<&Shared<Key>>
        ensures flight { MatchOption result (All (λ f. f.seat ≢ seat) self.now.state.flights)
            (λ key. IsFlying self.now.state seat key.now) }
        ensures core { IsCore self.now }
    {
        key_of_flight(&self.flights, seat)
    }

    /// Begins a flight of the seat on the key, for a seat that has no flight and has seen the first n entries, none of
    /// which decides the key. `Newer` comes exactly where there are more; else `Joined` exactly where another seat has
    /// a flight on the key; else the flight begins, and there is room for the event of its end. Memory runs out only
    /// where a flight may begin. Nothing changes where none begins.
    pub fn enter(&mut self, seat: u32, key: &Shared<Key>, n: u32) -> Result<Enter, NoMemory>
        requires { MayEnter self.old.state seat key.now n }
        ensures enters { IfOk result (Enters seat key.now n self.old self.new) }
        ensures no_memory { OnErr result (CannotBegin seat key.now n self.old self.new) }
    {
        if n != self.len() {
            return Ok(Enter::Newer);
        }
        if let Some(other) = seat_on(&self.flights, key.get()) {
            return Ok(Enter::Joined(other));
        }
        self.begin(seat, key, n)?;
        Ok(Enter::Began)
    }

    /// Begins a flight.
    fn begin(&mut self, seat: u32, key: &Shared<Key>, n: u32) -> Result<(), NoMemory>
        requires { MayBegin self.old.state seat key.now n }
        ensures { MatchResult result
            (λ _. TakesTurn (begun seat key.now n) self.old self.new)
            (λ _. CannotBegin seat key.now n self.old self.new) }
    {
        cores_take_turns();
        let flight = Flight {
            seat,
            key: key.share()?,
        };
        let event = Event::Begun {
            seat,
            key: key.share()?,
            n,
        };
        self.events.reserve(self.flights.len() + 2)?;
        self.flights.push(flight)?;
        self.events.push_reserved(event);
        Ok(())
    }

    /// Ends the flight of the seat. A kept entry, which has to decide the flight's key, goes to the end of the list;
    /// then its place is answered, and the version that it makes when it is added to the one before. Memory runs out only for an entry to be kept; then nothing
    /// changes, and the flight is to be ended as failed. An entry is kept while there are fewer than 2^20, and there is
    /// no room for it at just that many.
    pub fn end(
        &mut self,
        alloc: Global,
        seat: u32,
        how: How,
    ) -> Result<Option<(u32, Shared<Version>)>, NoMemory>
        requires { MayCome self.old.state (end_in self.old.state seat how) }
        ensures ends { IfOk result (Ends seat how self.old self.new) }
        ensures no_memory { OnErr result (CannotEnd how self.old self.new) }
    {
        let how = match how {
            How::Kept(entry) => return Ok(Some(self.keep(alloc, seat, entry)?)),
            How::Unkept => Ending::Unkept,
            How::Spent => Ending::Spent,
            How::Failed => Ending::Failed,
        };
        self.close(seat, how);
        Ok(None)
    }

    /// Ends the flight of the seat with an entry that goes to the end of the list. All memory is taken first.
    fn keep(
        &mut self,
        alloc: Global,
        seat: u32,
        entry: Shared<Entry>,
    ) -> Result<(u32, Shared<Version>), NoMemory>
        requires { MayCome self.old.state (kept seat (length self.old.state.entries) entry) }
        ensures { MatchResult result (Keeps seat entry self.old self.new) (λ _. self.new ≡ self.old) }
    {
        cores_take_turns();
        flights_begin_rightly();
        let place = self.len();
        let seen = seen_by(&self.events, seat);
        let added = self.version.get().add_seen(alloc, entry, seen)?;
        let version = Shared::new(alloc, added)?;
        let answer = version.share()?;
        self.version = version;
        end_flight(
            &mut self.flights,
            &mut self.events,
            seat,
            Ending::Kept(place),
        );
        Ok((place, answer))
    }

    /// Ends the flight of the seat without an entry that is kept.
    fn close(&mut self, seat: u32, how: Ending)
        requires keeps_nothing { KeepsNothing how }
        requires may { MayCome self.old.state (end_turn self.old.state.entries seat how) }
        ensures { TakesTurn (end_turn self.old.state.entries seat how) self.old self.new }
    {
        cores_take_turns();
        end_flight(&mut self.flights, &mut self.events, seat, how);
    }
}

/// The seat that has a flight on the key, if one has.
fn seat_on(flights: &[Flight], key: &Key) -> Option<u32>
    ensures { MatchOption result (All (λ f. f.key ≢ key.now) flights.now) (IsOn flights.now key.now) }
{
    for flight in flights {
        if flight.key.get().equals(key) {
            return Some(flight.seat);
        }
    }
    None
}

/// The key that the seat has a flight on, if it has one.
fn key_of_flight(flights: &[Flight], seat: u32) -> Option<&Shared<Key>>
    ensures { MatchOption result (All (λ f. f.seat ≢ seat) flights.now) (λ key. IsOn flights.now key.now seat) }
{
    for flight in flights {
        if flight.seat == seat {
            return Some(&flight.key);
        }
    }
    None
}

/// Ends the flight of the seat. The room for its event is there.
fn end_flight(flights: &mut Vec<Flight>, events: &mut Vec<Event>, seat: u32, how: Ending)
    requires flying { Any (λ f. f.seat ≡ seat) flights.old.items }
    requires room { length events.old.items + length flights.old.items ≤ vec_capacity events.old }
    ensures flights { flights.new.items ≡ without seat flights.old.items }
    ensures events { events.new.items ≡ events.old.items ++ Ended seat how ∷ [] }
    ensures room { length events.new.items + length flights.new.items ≤ vec_capacity events.new }
{
    take_out(flights, seat);
    events.push_reserved(Event::Ended { seat, how });
}

/// Takes the flight of the seat out.
fn take_out(flights: &mut Vec<Flight>, seat: u32)
    requires { Any (λ f. f.seat ≡ seat) flights.old.items }
    ensures others { flights.new.items ≡ without seat flights.old.items }
    ensures fewer { length flights.new.items + 1 ≤ length flights.old.items }
{
    flights.retain(|flight| flight.seat != seat);
}
