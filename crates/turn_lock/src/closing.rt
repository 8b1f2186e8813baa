//! A lock is taken apart.
ghost use Rattle.std.specs.Prelude.{◌≡◌, ℕ, ◌<◌, length, Some};
ghost use Rattle.turn_lock.specs.Locks.{IsOf, known};
ghost use Rattle.turn_lock.specs.Views.{Owns};
ghost use Rattle.turn_lock.specs.declared.view.Stage.TheVariants.{Idle};

use crate::kept::Kept;
use crate::lock::TurnLock;
use crate::seat::TurnSeat;

impl<T: Kept> TurnLock<T> {
    /// The value, for the seat that has all shares: it has each number below 65, and has seen all events.
    pub fn close(self, seat: TurnSeat<T>) -> T
        requires of_lock { IsOf self seat }
        requires idle { (known seat).stage ≡ Idle }
        requires whole { length (known seat).numbers ≡ 65 }
        ensures origin { (known seat).origin ≡ Some (T.origin result) }
        ensures sees_all { T.events result ≡ (known seat).seen }
        ensures numbers { (k : ℕ) → k < 65 → Owns (known seat) k }
    {
        let TurnSeat { place, shares: _ } = seat;
        let TurnLock { table } = self;
        let mut closed = table.close_with(place);
        let slot = closed.take(0);
        closed.free();
        let Some(value) = slot else { unreachable!() };
        value
    }
}
