//! What a lock keeps.
ghost use Rattle.std.specs.Prelude.{◌≡◌, ℕ, List, length};

/// A value that stands under a turn lock: it has an origin, which no turn changes, and events, to which a turn adds at
/// most one.
pub trait Kept {
    /// What a turn adds.
    type Event;
    /// What stays of the value as the lock was made.
    type Origin;

    // What no turn changes.
    ghost origin: { Self → Self.Origin };

    // What has happened to the value, oldest first.
    ghost events: { Self → List Self.Event };

    // The number of the seat that an event names.
    ghost names: { Self.Event → ℕ };

    /// How many events the value has.
    fn count(&self) -> u64
        ensures { result ≡ length (events self.now) };
}
