//! Why a call is refused.
ghost use Rattle.std.specs.Prelude.{◌≡◌};
ghost use Rattle.book.specs.Prelude.{book_cut_refusal};
ghost use Rattle.book.specs.declared.refused.Refused.TheVariants.{NoMemory};

use journal::CutFault;
use std::alloc::AllocError;
use thiserror::Error;

/// Why a call on a processor or a cluster is refused. After a refusal all is as before, except that
/// a call that entered the book has spent one of its entries.
#[derive(Clone, Copy, Debug, PartialEq, Eq, Error)]
pub enum Refused {
    /// The address or the page is past the end.
    #[error("address out of range")]
    OutOfRange,
    /// The copy of this page is invalid.
    #[error("page {0} is invalid")]
    Invalid(usize),
    /// The processor has asked, arrived or watched, and not yet taken.
    #[error("waiting")]
    Waiting,
    /// The open block has 256 events.
    #[error("block full")]
    BlockFull,
    /// The processor doesn't hold the lock.
    #[error("lock not held")]
    NotHeld,
    /// The processor holds the lock.
    #[error("lock already held")]
    AlreadyHeld,
    /// The lock number is past the end.
    #[error("no such lock")]
    BadLock,
    /// The flag number is past the end.
    #[error("no such flag")]
    BadFlag,
    /// What the processor waits for hasn't come.
    #[error("nothing has come yet")]
    NotYet,
    /// The processor isn't waiting.
    #[error("nothing awaited")]
    NothingAwaited,
    /// The copy is valid.
    #[error("page already valid")]
    AlreadyValid,
    /// The journal would have more than 2^20 events.
    #[error("journal full")]
    JournalFull,
    /// The processor has entered the book's lock as often as it may.
    #[error("lock entries spent")]
    SeatSpent,
    /// A growth was refused in this call.
    #[error("out of memory")]
    NoMemory,
    /// A size of the cluster is out of range.
    #[error("size out of range")]
    BadSize,
    /// The events at these places of the part to be cut off race: its first race.
    #[error("events {0} and {1} race")]
    Racy(usize, usize),
    /// The journal has no complete episode of the barrier.
    #[error("no complete episode")]
    NoEpisode,
    /// More than 2^30 events would be cut off in all.
    #[error("too many events cut off")]
    BaseFull,
}

impl From<CutFault> for Refused {
    ghost from_gives = { λ f r. r ≡ book_cut_refusal f };

    fn from(fault: CutFault) -> Refused {
        match fault {
            CutFault::Racy(first, second) => Refused::Racy(first, second),
            CutFault::NoEpisode => Refused::NoEpisode,
            CutFault::BaseFull => Refused::BaseFull,
            CutFault::NoMemory => Refused::NoMemory,
        }
    }
}

impl From<AllocError> for Refused {
    ghost from_gives = { λ _ r. r ≡ NoMemory };

    fn from(_error: AllocError) -> Refused {
        Refused::NoMemory
    }
}
