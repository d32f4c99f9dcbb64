// The nest and the waiters of a configuration.

use crate::store::Name;

/// How an acting device process came to act.
#[derive(Clone, Copy, PartialEq, Eq, Debug)]
pub enum Mark {
    /// By a send or a start.
    Woken,
    Granted,
}

/// A member of the nest.
#[derive(Clone, Copy, PartialEq, Eq, Debug)]
pub struct Nested {
    pub process: u32,
    pub mark: Mark,
}

/// A process that waits on a signal.
#[derive(Clone, Copy, PartialEq, Eq, Debug)]
pub struct Waiter {
    pub signal: Name,
    pub rank: u16,
    pub process: u32,
}
