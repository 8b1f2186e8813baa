//! A turn: the value is taken, changed, and given back.
ghost use Rattle.std.specs.Prelude.{◌≡◌};
ghost use Rattle.turn_lock.specs.Locks.{IsOf, OfOneLock, known};
ghost use Rattle.turn_lock.specs.Seats.{BeginsTurn, MayGive};
ghost use Rattle.turn_lock.specs.Views.{HasTurn, has_seen, staged};
ghost use Rattle.turn_lock.specs.declared.view.Stage.TheVariants.{Idle};

use crate::kept::Kept;
use crate::lock::{Held, TurnLock};
use crate::seat::TurnSeat;
use crate::steps::{give_back, take_turn};
use std::sync::Wait;

impl<T: Kept> TurnLock<T> {
    /// Waits for the seat's turn and takes the value.
    ///
    /// The value has the origin that the lock was made with. Its events begin with all that the seat had seen, the
    /// others name numbers of other seats, and the seat has then seen them all.
    pub fn take<R: Wait>(&self, rt: &R, seat: &mut TurnSeat<T>) -> Held<T>
        requires of_lock { IsOf self.now seat.old }
        requires idle { (known seat.old).stage ≡ Idle }
        ensures of_lock { OfOneLock seat.new seat.old }
        ensures begins { BeginsTurn T.origin T.events T.names (known seat.old) (known seat.new) result.value }
    {
        let value = take_turn(rt, &self.table.shared, &mut seat.place);
        Held { value }
    }

    /// Gives the value back and passes the turn on. An event that the turn added is logged before that.
    pub fn give(&self, seat: &mut TurnSeat<T>, held: Held<T>)
        requires of_lock { IsOf self.now seat.old }
        requires turn { HasTurn (known seat.old).stage }
        requires may_give { MayGive T.origin T.events T.names (known seat.old) held.value }
        ensures of_lock { OfOneLock seat.new seat.old }
        ensures gives { known seat.new ≡ has_seen (T.events held.value) (staged Idle (known seat.old)) }
    {
        let Held { value } = held;
        give_back(&self.table.shared, &mut seat.place, value);
    }
}
