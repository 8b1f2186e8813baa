//! Whoever answers keys.
ghost use Rattle.std.specs.Prelude.{◌≡◌, ℕ, IfOk, OnErr};
ghost use Rattle.refutation.specs.Boxed.{IsBoxed};
ghost use Rattle.cert_check.specs.Seats.{SeatState};
ghost use Rattle.cert_check.specs.Calls.{FailsInVain};
ghost use Rattle.cert_check.specs.Asks.{Asks};

use crate::reply::Reply;
use lin_model::Key;
use outside::NoMemory;

/// A seat on a store, which answers keys.
pub trait SliceOracle {
    /// What the seat has seen, and what stays with it.
    ghost seat: { Self → SeatState };

    /// The splits that each key may take.
    ghost budget: { Self → ℕ };

    /// What no ask changes besides.
    ghost Origin: { Type 0 };

    ghost origin: { Self → Origin };

    /// The reply to a key that has both bounds of each of its variables: from an entry that decides it, where the call
    /// saw one before it began to solve; else by solving it with the splits of the budget. After want of memory the
    /// flight that it began has failed.
    fn ask(&mut self, key: &Key) -> Result<Reply, NoMemory>
        requires { IsBoxed key.now }
        ensures asks { IfOk result (λ reply. Asks (budget self.old) key.now reply (seat self.old) (seat self.new)) }
        ensures in_vain { OnErr result (FailsInVain key.now (seat self.old) (seat self.new)) }
        ensures budget { budget self.new ≡ budget self.old }
        ensures origin { origin self.new ≡ origin self.old };
}
