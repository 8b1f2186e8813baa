//! One user's token on a lock.
ghost use Rattle.turn_lock.specs.Seats.{IsSeat};

use crate::kept::Kept;
use crate::view::View;
use atomic_table::Seat;

/// One user's token on a lock. It has one or more of the lock's 65 shares, and as many of the numbers 0 to 64, which
/// its events name; none is another seat's. Clauses know what it has seen, its numbers and its origin by `known`.
#[derive(Drop)]
pub struct TurnSeat<T: Kept> {
    pub(crate) place: Seat<Option<T>, View<T::Event, T::Origin>>,
    pub(crate) shares: u32,
    ghost is_seat: { IsSeat shares place.me },
}
