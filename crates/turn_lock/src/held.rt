//! Access to the value that is out.
ghost use Rattle.std.specs.Prelude.{◌≡◌};
ghost use Rattle.std.specs.Borrow.{sem};
ghost use Rattle.turn_lock.specs.Lending.{LendsValue};

use crate::lock::Held;

impl<T> Held<T> {
    /// The value, to be changed.
    pub fn value(&mut self) -> &mut T
        ensures* writes_back { sem 𝓛 (LendsValue T.row self.entry result) }
        ensures value { result.now ≡ self.old.value }
    {
        &mut self.value
    }
}
