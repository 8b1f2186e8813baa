//! A lock is made.
ghost use Rattle.std.specs.Prelude.{◌≡◌, [], ◌∷◌, IfErr, IfOk, Some};
ghost use Rattle.turn_lock.specs.Locks.{IsOf, known};
ghost use Rattle.turn_lock.specs.Views.{first_view};

use crate::kept::Kept;
use crate::lock::TurnLock;
use crate::seat::TurnSeat;
use atomic_table::{Refused, Table};
use outside::NoMemory;
use std::alloc::Global;
use std::snapshot::Snapshot;

impl<T: Kept> TurnLock<T> {
    /// A lock of a value that has no event, and the one seat, which has all 65 shares and the numbers 0 to 64. Its
    /// origin is the value's. The value comes back where memory runs out.
    pub fn new(alloc: Global, value: T) -> Result<(TurnLock<T>, TurnSeat<T>), (NoMemory, T)>
        requires { T.events value ≡ [] }
        ensures of_lock { IfOk result (λ made. IsOf made.0 made.1) }
        ensures first { IfOk result (λ made. known made.1 ≡ first_view (T.origin value)) }
        ensures fails { IfErr result (λ failed. failed.1 ≡ value) }
    {
        let first = Snapshot::of(&value);
        let Ok(mut slots) = Vec::with_capacity(alloc, 1) else {
            return Err((NoMemory, value));
        };
        slots.push_reserved(Some(value));
        match Table::new(alloc, &[0, 0, 0], slots, &first) {
            Ok((table, place)) => Ok((TurnLock { table }, TurnSeat { place, shares: 65 })),
            Err(Refused { slots }) => Err((NoMemory, only(slots))),
        }
    }
}

// The one value of a row of slots.
fn only<T>(mut slots: Vec<Option<T>>) -> T
    requires { (value : T) × (slots.items ≡ Some value ∷ []) }
    ensures { slots.items ≡ Some result ∷ [] }
{
    let Some(Some(value)) = slots.pop() else {
        unreachable!()
    };
    slots.destroy_empty();
    value
}
