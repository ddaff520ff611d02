//! Calls that close a processor's interval, and what they wait for.
ghost use Rattle.std.specs.Prelude.{◌≡◌};
ghost use Rattle.std.specs.Option.{option_map};
ghost use Rattle.journal.specs.Prelude.{awaited_next, closing_awaits_kind, closing_kind};

use crate::event::Kind;

/// A call that closes its processor's interval. Locks and flags are numbers from 0.
#[derive(Clone, Copy, PartialEq, Eq)]
pub enum Closing {
    /// Asks for this lock, and waits for its grant.
    Ask(usize),
    /// Gives this lock back.
    Release(usize),
    /// Comes to the barrier, and waits for the departure.
    Arrive,
    /// Sets this flag.
    Set(usize),
    /// Begins to wait for this flag.
    Watch(usize),
}

impl Closing {
    /// The kind of its event.
    pub fn kind(self) -> Kind
        ensures { result ≡ closing_kind self }
    {
        match self {
            Closing::Ask(lock) => Kind::Ask(lock),
            Closing::Release(lock) => Kind::Release(lock),
            Closing::Arrive => Kind::Arrive,
            Closing::Set(flag) => Kind::Set(flag),
            Closing::Watch(flag) => Kind::Watch(flag),
        }
    }

    /// What is awaited after it: None if it doesn't wait.
    pub fn awaits(self) -> Option<Awaited>
        ensures { option_map closing_awaits_kind result ≡ awaited_next (closing_kind self) }
    {
        match self {
            Closing::Ask(lock) => Some(Awaited::Grant(lock)),
            Closing::Arrive => Some(Awaited::Departure),
            Closing::Watch(flag) => Some(Awaited::Signal(flag)),
            Closing::Release(_) | Closing::Set(_) => None,
        }
    }
}

/// What a processor waits for after an ask, an arrival or a watch. Locks and flags are numbers from 0.
#[derive(Clone, Copy, PartialEq, Eq)]
pub enum Awaited {
    /// The grant of this lock.
    Grant(usize),
    /// The departure from the barrier.
    Departure,
    /// The signal of this flag.
    Signal(usize),
}

impl Awaited {
    /// The kind of the event that ends the wait.
    pub fn kind(self) -> Kind
        ensures { result ≡ closing_awaits_kind self }
    {
        match self {
            Awaited::Grant(lock) => Kind::Acquire(lock),
            Awaited::Departure => Kind::Depart,
            Awaited::Signal(flag) => Kind::Await(flag),
        }
    }
}
