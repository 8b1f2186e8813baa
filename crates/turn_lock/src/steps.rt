//! Steps of a seat on the table of a lock.
ghost use Rattle.std.specs.Prelude.{◌≡◌, ℕ, ◌<◌, ◌≤◌, [], ◌∷◌, length, Some, None, true, false};
ghost use Rattle.turn_lock.specs.Plays.{Compares, Draws, GetsTurn, Logs, MayLog, MayPass, TakesTurn, WaitsWith};
ghost use Rattle.turn_lock.specs.Seats.{MayGive, JoinsTo};
ghost use Rattle.turn_lock.specs.Views.{HasTurn, has_seen, staged};
ghost use Rattle.turn_lock.specs.declared.view.Stage.TheVariants.{Idle};

use crate::kept::Kept;
use crate::plays::{Both, Compare, Count, Draw, Law, Log, Look, Pass};
use crate::view::View;
use atomic_table::{Seat, Shared};
use std::snapshot::Snapshot;
use std::sync::Wait;
use std::thread::yield_now;

pub type Place<T> = Seat<Option<T>, View<<T as Kept>::Event, <T as Kept>::Origin>>;

pub type Words<T> = Shared<
    Option<T>,
    View<<T as Kept>::Event, <T as Kept>::Origin>,
    Snapshot<T>,
    Law<T>,
>;

// Draws the seat's ticket.
fn draw<T: Kept>(shared: &Words<T>, place: &mut Place<T>) -> u64
    requires of_lock { (place.old.table_id ≡ shared.now.table_id) × (shared.now.table_id.words ≡ 3) }
    requires idle { (place.old.me.0.stage ≡ Idle) × (0 < length place.old.me.0.numbers) }
    ensures of_lock { place.new.table_id ≡ place.old.table_id }
    ensures draws { Draws place.old.me result place.new.me }
{
    shared.fetch_add::<Draw>(place, 0, 1)
}

// Looks whether the seat's ticket is served.
fn look<T: Kept>(shared: &Words<T>, place: &mut Place<T>, ticket: u64) -> bool
    requires of_lock { (place.old.table_id ≡ shared.now.table_id) × (shared.now.table_id.words ≡ 3) }
    requires waits { WaitsWith ticket place.old.me }
    ensures of_lock { place.new.table_id ≡ place.old.table_id }
    ensures turn { result ≡ true → GetsTurn T.origin T.events T.names place.old.me place.new.me }
    ensures waits { result ≡ false → place.new.me ≡ place.old.me }
{
    shared.load::<Look>(place, 1) == ticket
}

// Waits until the seat's ticket is served.
fn wait<T: Kept, R: Wait>(rt: &R, shared: &Words<T>, place: &mut Place<T>, ticket: u64)
    requires of_lock { (place.old.table_id ≡ shared.now.table_id) × (shared.now.table_id.words ≡ 3) }
    requires waits { WaitsWith ticket place.old.me }
    ensures of_lock { place.new.table_id ≡ place.old.table_id }
    ensures turn { GetsTurn T.origin T.events T.names place.old.me place.new.me }
{
    for _ in rt.forever() {
        if look(shared, place, ticket) {
            return;
        }
        yield_now();
    }
}

// Takes the value when the turn comes.
pub fn take_turn<T: Kept, R: Wait>(rt: &R, shared: &Words<T>, place: &mut Place<T>) -> T
    requires of_lock { (place.old.table_id ≡ shared.now.table_id) × (shared.now.table_id.words ≡ 3) }
    requires idle { (place.old.me.0.stage ≡ Idle) × (0 < length place.old.me.0.numbers) × (place.old.me.1 ≡ []) }
    ensures of_lock { place.new.table_id ≡ place.old.table_id }
    ensures turn { (t : ℕ) × TakesTurn T.origin T.events T.names t result None place.old.me place.new.me }
{
    let ticket = draw(shared, place);
    wait(rt, shared, place, ticket);
    take_out(shared, place)
}

// The value out of the slot in hand.
fn take_out<T: Kept>(shared: &Words<T>, place: &mut Place<T>) -> T
    requires of_lock { place.old.table_id ≡ shared.now.table_id }
    requires hand { (value : T) × (place.old.me.1 ≡ (0, Some value) ∷ []) }
    ensures of_lock { place.new.table_id ≡ place.old.table_id }
    ensures hand { place.old.me.1 ≡ (0, Some result) ∷ [] }
    ensures seat { place.new.me ≡ (place.old.me.0, (0, None) ∷ []) }
{
    let Some(value) = shared.exchange(place, 0, None) else {
        unreachable!()
    };
    value
}

// The value into the slot in hand.
fn put_in<T: Kept>(shared: &Words<T>, place: &mut Place<T>, value: T)
    requires of_lock { place.old.table_id ≡ shared.now.table_id }
    requires hand { place.old.me.1 ≡ (0, None) ∷ [] }
    ensures of_lock { place.new.table_id ≡ place.old.table_id }
    ensures seat { place.new.me ≡ (place.old.me.0, (0, Some value) ∷ []) }
{
    let before = shared.exchange(place, 0, Some(value));
    let None = before else { unreachable!() };
}

// How many events are logged.
fn count_logged<T: Kept>(shared: &Words<T>, place: &mut Place<T>) -> u64
    requires of_lock { (place.old.table_id ≡ shared.now.table_id) × (shared.now.table_id.words ≡ 3) }
    requires turn { HasTurn place.old.me.0.stage }
    ensures of_lock { place.new.table_id ≡ place.old.table_id }
    ensures same { place.new.me ≡ place.old.me }
    ensures count { result ≡ length place.old.me.0.seen }
{
    shared.load::<Count>(place, 2)
}

// Logs the one event that the value has beyond those seen.
fn log<T: Kept>(shared: &Words<T>, place: &mut Place<T>)
    requires of_lock { (place.old.table_id ≡ shared.now.table_id) × (shared.now.table_id.words ≡ 3) }
    requires turn { HasTurn place.old.me.0.stage }
    requires one_more { MayLog T.events T.names place.old.me }
    ensures of_lock { place.new.table_id ≡ place.old.table_id }
    ensures logs { Logs T.events place.old.me place.new.me }
{
    shared.fetch_add::<Log>(place, 2, 1);
}

// Puts the value back and logs what it has gained.
fn put_and_log<T: Kept>(shared: &Words<T>, place: &mut Place<T>, value: T)
    requires of_lock { (place.old.table_id ≡ shared.now.table_id) × (shared.now.table_id.words ≡ 3) }
    requires turn { HasTurn place.old.me.0.stage × (place.old.me.1 ≡ (0, None) ∷ []) }
    requires may_give { MayGive T.origin T.events T.names place.old.me.0 value }
    ensures of_lock { place.new.table_id ≡ place.old.table_id }
    ensures seat { place.new.me ≡ (has_seen (T.events value) place.old.me.0, (0, Some value) ∷ []) }
{
    let count = value.count();
    put_in(shared, place, value);
    if count_logged(shared, place) != count {
        log(shared, place);
    }
}

// Passes the turn on, with the value at home.
fn pass<T: Kept>(shared: &Words<T>, place: &mut Place<T>)
    requires of_lock { (place.old.table_id ≡ shared.now.table_id) × (shared.now.table_id.words ≡ 3) }
    requires turn { HasTurn place.old.me.0.stage }
    requires hand { MayPass T.origin T.events place.old.me }
    ensures of_lock { place.new.table_id ≡ place.old.table_id }
    ensures seat { place.new.me ≡ (staged Idle place.old.me.0, []) }
{
    shared.fetch_add::<Pass>(place, 1, 1);
}

// Gives the value back, logs what it has gained, and passes the turn on.
pub fn give_back<T: Kept>(shared: &Words<T>, place: &mut Place<T>, value: T)
    requires of_lock { (place.old.table_id ≡ shared.now.table_id) × (shared.now.table_id.words ≡ 3) }
    requires turn { HasTurn place.old.me.0.stage × (place.old.me.1 ≡ (0, None) ∷ []) }
    requires may_give { MayGive T.origin T.events T.names place.old.me.0 value }
    ensures of_lock { place.new.table_id ≡ place.old.table_id }
    ensures seat { place.new.me ≡ (has_seen (T.events value) (staged Idle place.old.me.0), []) }
{
    put_and_log(shared, place, value);
    pass(shared, place);
}

// Takes the other seat's numbers in; the seat has then seen the longer of the two.
pub fn take_in<T: Kept>(shared: &Words<T>, place: &mut Place<T>, other: Place<T>)
    requires of_lock { (place.old.table_id ≡ shared.now.table_id) × (shared.now.table_id.words ≡ 3) }
    requires other { other.table_id ≡ shared.now.table_id }
    requires idle { (place.old.me.0.stage ≡ Idle) × (other.me.0.stage ≡ Idle) × (other.me.1 ≡ []) }
    requires alone { (place.old.me.0.shorter ≡ []) × (other.me.0.shorter ≡ []) }
    ensures of_lock { place.new.table_id ≡ place.old.table_id }
    ensures hand { place.new.me.1 ≡ place.old.me.1 }
    ensures alone { place.new.me.0.shorter ≡ [] }
    ensures few { length place.new.me.0.numbers ≤ 65 }
    ensures joins { JoinsTo place.old.me.0 other.me.0 place.new.me.0 }
{
    shared.join_seat::<Both>(place, other);
    compare(shared, place);
}

// Tells that the shorter of what two joined seats had seen begins the longer, and how many numbers there are at most.
fn compare<T: Kept>(shared: &Words<T>, place: &mut Place<T>)
    requires of_lock { (place.old.table_id ≡ shared.now.table_id) × (shared.now.table_id.words ≡ 3) }
    ensures of_lock { place.new.table_id ≡ place.old.table_id }
    ensures compares { Compares place.old.me place.new.me }
{
    shared.load::<Compare>(place, 0);
}
