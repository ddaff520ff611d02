//! Why a journal is not cut.
ghost use Rattle.std.specs.Prelude.{◌≡◌};
ghost use Rattle.journal.specs.declared.cut.CutFault.TheVariants.{NoMemory};

use std::alloc::AllocError;
use thiserror::Error;

/// Why a cut is refused. After a refusal the journal is as before.
#[derive(Clone, Copy, Debug, PartialEq, Eq, Error)]
pub enum CutFault {
    /// The events at these places of the part to be cut off race: its first race.
    #[error("events {0} and {1} race")]
    Racy(usize, usize),
    /// The journal has no complete episode of the barrier.
    #[error("no complete episode")]
    NoEpisode,
    /// More than `MOST_CUT` events would be cut off in all.
    #[error("too many events cut off")]
    BaseFull,
    /// A growth was refused.
    #[error("out of memory")]
    NoMemory,
}

impl From<AllocError> for CutFault {
    ghost from_gives = { λ _ r. r ≡ NoMemory };

    fn from(_error: AllocError) -> CutFault {
        CutFault::NoMemory
    }
}
