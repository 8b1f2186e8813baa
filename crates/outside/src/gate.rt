//! A place at which a test can hold an executor up.

/// A place where an executor can be held up before it solves. No crate passes it.
pub trait Gate {
    /// The executor with this seat (from 0) is about to solve.
    fn before_solve(&self, seat: u32);
}

/// The program's gate: it does nothing.
#[derive(Clone, Copy, Debug, PartialEq, Eq)]
pub struct NoGate;

impl Gate for NoGate {
    fn before_solve(&self, _seat: u32) {}
}
