//! What a seat is known to have. It exists in proofs alone: no value of these types is made.
use std::collections::LinkedList;

/// Where a seat stands: without a ticket, with one, or with the turn that came for it. Tickets are counted without end.
pub enum Stage {
    Idle,
    Waits(u64),
    Turn(u64),
}

/// What a seat is known to have: the numbers that it may name in events, the events that it has seen, and the origin of
/// the lock's value. `shorter` is what the lesser of two seats had seen, while they are joined. A seat that was joined
/// into another has no origin.
pub struct View<E, O> {
    pub numbers: LinkedList<u32>,
    pub seen: LinkedList<E>,
    pub shorter: LinkedList<E>,
    pub origin: Option<O>,
    pub stage: Stage,
}
