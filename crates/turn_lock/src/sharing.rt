//! Seats are split and joined.
ghost use Rattle.std.specs.Prelude.{◌≡◌, ◌<◌, [], length};
ghost use Rattle.turn_lock.specs.Locks.{IsOf, OfOneLock, known};
ghost use Rattle.turn_lock.specs.Plays.{begins_with, leaves};
ghost use Rattle.turn_lock.specs.Seats.{JoinsTo};
ghost use Rattle.turn_lock.specs.Views.{Owns};
ghost use Rattle.turn_lock.specs.declared.view.Stage.TheVariants.{Idle};

use crate::kept::Kept;
use crate::lock::TurnLock;
use crate::plays::{Chosen, Part};
use crate::seat::TurnSeat;
use crate::steps::{Place, Words, take_in};
use std::marker::Brand;

impl<T: Kept> TurnSeat<T> {
    /// How many of the lock's 65 shares the seat has.
    pub fn shares(&self) -> u32
        ensures { result ≡ length (known self.now).numbers }
    {
        self.shares
    }
}

impl<T: Kept> TurnLock<T> {
    /// A seat with one share and this number, which the seat gives away. It has seen the same.
    pub fn split(&self, seat: &mut TurnSeat<T>, number: u32) -> TurnSeat<T>
        requires of_lock { IsOf self.now seat.old }
        requires idle { (known seat.old).stage ≡ Idle }
        requires two { 1 < length (known seat.old).numbers }
        requires owns { Owns (known seat.old) number }
        ensures of_lock { OfOneLock seat.new seat.old × OfOneLock result seat.old }
        ensures leaves { known seat.new ≡ leaves number (known seat.old) }
        ensures begins { known result ≡ begins_with number (known seat.old) }
    {
        let place = part::<T, Brand>(&self.table.shared, &mut seat.place, number);
        seat.shares -= 1;
        TurnSeat { place, shares: 1 }
    }

    /// Gives the other seat's shares and numbers to the seat, which has then seen the longer of what the two had seen.
    /// The shorter begins it.
    pub fn join(&self, seat: &mut TurnSeat<T>, other: TurnSeat<T>)
        requires of_lock { IsOf self.now seat.old × IsOf self.now other }
        requires idle { ((known seat.old).stage ≡ Idle) × ((known other).stage ≡ Idle) }
        ensures of_lock { OfOneLock seat.new seat.old }
        ensures joins { JoinsTo (known seat.old) (known other) (known seat.new) }
    {
        let TurnSeat { place, shares } = other;
        take_in(&self.table.shared, &mut seat.place, place);
        seat.shares += shares;
    }
}

// A seat with the number that the marker picks.
fn part<T: Kept, J: Chosen>(shared: &Words<T>, place: &mut Place<T>, number: u32) -> Place<T>
    requires of_lock { (place.old.table_id ≡ shared.now.table_id) × (shared.now.table_id.words ≡ 3) }
    requires idle { (place.old.me.0.stage ≡ Idle) × (place.old.me.0.shorter ≡ []) }
    requires number { (J.number ≡ number) × Owns place.old.me.0 number }
    ensures of_lock { (place.new.table_id ≡ place.old.table_id) × (result.table_id ≡ place.old.table_id) }
    ensures leaves { place.new.me ≡ (leaves number place.old.me.0, place.old.me.1) }
    ensures begins { result.me ≡ (begins_with number place.old.me.0, []) }
{
    let _ = number;
    shared.split_seat::<Part<J>>(place)
}
