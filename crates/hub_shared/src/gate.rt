//! Gates, at which a test can hold a thread, and clocks.

/// The points at which a gate is passed.
#[derive(Clone, Copy, Debug, PartialEq, Eq)]
pub enum Point {
    /// By a pump, before each holding of the lock.
    PumpFree,
    /// Inside each holding of the lock for a feed, by a pump or a poll.
    PumpHolding,
    /// By a connection of this number, before each answer. Connections are numbered from 1 as they
    /// are accepted.
    Request(u64),
}

/// A gate, which threads pass at their points. A test can hold a thread there.
pub trait Gate {
    /// Comes back once the thread may go on.
    fn pass(&self, point: Point);
}

/// A clock.
pub trait Clock {
    /// Milliseconds from some moment on. A reading below an earlier one shows that no time passed.
    fn now_ms(&self) -> u64;
}
