use std::mem::size_of;

/// One event of a cluster: a processor did something. It takes 32 bytes.
#[derive(Clone, Copy, Debug, PartialEq, Eq)]
pub struct Event {
    /// The processor that made it, a number from 0.
    pub processor: usize,
    /// What it did.
    pub kind: Kind,
}

/// What an event did. Addresses, pages, locks and flags are numbers from 0.
#[derive(Clone, Copy, Debug, PartialEq, Eq)]
pub enum Kind {
    /// Read the word at this address, and was answered this.
    Load(usize, u32),
    /// Wrote to this address this word.
    Store(usize, u32),
    /// Brought a stale copy of a page up to date.
    Fetch {
        /// How many processors' records it applied. It stands before the page to save eight bytes.
        writers: u32,
        /// The page.
        page: usize,
        /// How many records it applied.
        records: u32,
        /// How many words these records have in all.
        words: u32,
    },
    /// Asked for this lock.
    Ask(usize),
    /// Was granted this lock, after its own ask.
    Acquire(usize),
    /// Gave this lock back.
    Release(usize),
    /// Came to the barrier.
    Arrive,
    /// Went on from the barrier, when all have arrived.
    Depart,
    /// Set this flag.
    Set(usize),
    /// Began to wait for this flag.
    Watch(usize),
    /// Found this flag set, after its own watch.
    Await(usize),
}

// A journal of 2^20 events takes 32 MiB.
const _: () = prove!(size_of::<Event>() == 32);
