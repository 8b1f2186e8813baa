//! How many entries a seat had seen when it began its flight.
ghost use Rattle.std.specs.Prelude.{◌≡◌, ◌⊎◌};
ghost use Rattle.store_core.specs.Seen.{BeganLast, event_seat, event_seen};

use cert_check::Event;

/// How many entries the seat had seen when it began its flight, where that is its last event, and else 0.
pub(crate) fn seen_by(events: &[Event], seat: u32) -> u32
    ensures { (result ≡ 0) ⊎ BeganLast events.now seat result }
{
    let mut front = events;
    while let [earlier @ .., last] = front {
        if seat_of(last) == seat {
            return seen_at(last);
        }
        front = earlier;
    }
    0
}

/// The seat that the event is of.
fn seat_of(event: &Event) -> u32
    ensures { result ≡ event_seat event.now }
{
    match event {
        Event::Begun { seat, .. } => *seat,
        Event::Ended { seat, .. } => *seat,
    }
}

/// How many entries the seat had seen where the event is the beginning of a flight, and else 0.
fn seen_at(event: &Event) -> u32
    ensures { result ≡ event_seen event.now }
{
    match event {
        Event::Begun { n, .. } => *n,
        Event::Ended { .. } => 0,
    }
}
