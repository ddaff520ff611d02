//! The sizes of a cluster.
ghost use Rattle.std.specs.Prelude.{◌↔◌, IsTrue};
ghost use Rattle.journal.specs.WellFormed.{WellFormedKindInRange};
ghost use Rattle.judge.specs.Prelude.{AreJudgedSizes, AreJudgedSizesSmall, AreStreamedSizes, IsEventInSizes, judged_sizes_of};

use base::{MOST_FLAGS, MOST_LOCKS, MOST_PAGES, MOST_WORDS};
use journal::{Event, Kind, MOST_PROCESSORS};

/// The most addresses of a history that is judged.
pub const MOST_ADDRESSES: usize = 1 << 20;

/// The most locks of a history that is judged.
pub const MOST_JUDGED_LOCKS: usize = 1 << 16;

/// The most flags of a history that is judged.
pub const MOST_JUDGED_FLAGS: usize = 1 << 16;

/// The most processors of a history that is judged.
pub const MOST_JUDGED_PROCESSORS: usize = 256;

/// The most events of a history that is judged as it comes.
pub const MOST_JUDGED_EVENTS: usize = (1 << 31) - 1;

/// The sizes of the cluster whose history is judged: at most `MOST_JUDGED_PROCESSORS` processors, or 16 if what its copies of
/// pages lack is told, `MOST_ADDRESSES` addresses, `MOST_JUDGED_LOCKS` locks and `MOST_JUDGED_FLAGS` flags.
#[derive(Clone, Copy, Debug, PartialEq, Eq)]
pub struct Sizes {
    /// How many processors it has.
    pub processors: usize,
    /// How many pages.
    pub pages: usize,
    /// How many words a page has.
    pub words: usize,
    /// How many locks it has.
    pub locks: usize,
    /// How many flags.
    pub flags: usize,
}

impl Sizes {
    /// Whether a history of these sizes can be judged: whether they are no larger than that.
    pub fn are_streamed(&self) -> bool
        ensures { IsTrue result ↔ AreStreamedSizes (judged_sizes_of self.now) }
    {
        self.processors <= MOST_JUDGED_PROCESSORS
            && self.pages <= MOST_ADDRESSES
            && self.words <= MOST_ADDRESSES
            && self.pages * self.words <= MOST_ADDRESSES
            && self.locks <= MOST_JUDGED_LOCKS
            && self.flags <= MOST_JUDGED_FLAGS
    }

    /// Whether it can be told of a history of these sizes what its copies of pages lack: whether they are no larger than that,
    /// with 16 processors.
    pub fn are_judged(&self) -> bool
        ensures { IsTrue result ↔ AreJudgedSizes (judged_sizes_of self.now) }
    {
        self.processors <= MOST_PROCESSORS && self.are_streamed()
    }

    /// Whether they are the product's own: at most 16 processors, 64 pages of 64 words, 32 locks and 32 flags.
    pub fn are_small(&self) -> bool
        ensures { IsTrue result ↔ AreJudgedSizesSmall (judged_sizes_of self.now) }
    {
        self.processors <= MOST_PROCESSORS
            && self.pages <= MOST_PAGES
            && self.words <= MOST_WORDS
            && self.locks <= MOST_LOCKS
            && self.flags <= MOST_FLAGS
    }

    /// Whether the numbers that the event names are within the sizes.
    pub(crate) fn have(&self, kind: Kind) -> bool
        requires { AreStreamedSizes (judged_sizes_of self.now) }
        ensures { IsTrue result ↔ WellFormedKindInRange (judged_sizes_of self.now) kind }
    {
        match kind {
            Kind::Load(address, _) | Kind::Store(address, _) => address < self.pages * self.words,
            Kind::Fetch { page, .. } => page < self.pages,
            Kind::Ask(lock) | Kind::Acquire(lock) | Kind::Release(lock) => lock < self.locks,
            Kind::Set(flag) | Kind::Watch(flag) | Kind::Await(flag) => flag < self.flags,
            Kind::Arrive | Kind::Depart => true,
        }
    }

    /// Whether the event's processor and the numbers that it names are within the sizes.
    pub fn have_event(&self, event: Event) -> bool
        requires { AreStreamedSizes (judged_sizes_of self.now) }
        ensures { IsTrue result ↔ IsEventInSizes (judged_sizes_of self.now) event }
    {
        event.processor < self.processors && self.have(event.kind)
    }
}
