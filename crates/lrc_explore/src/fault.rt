ghost use Rattle.std.specs.Prelude.{◌≡◌};

use std::alloc::AllocError;
use thiserror::Error;

/// Why what was found wasn't told.
#[derive(Clone, Copy, Debug, Error)]
pub enum ExploreFault {
    /// A write failed or took no byte, or the flush failed. A beginning of the text may be written.
    #[error("output failed")]
    Output,
    /// A growth was refused. Nothing was written.
    #[error("out of memory")]
    NoMemory,
}

impl From<AllocError> for ExploreFault {
    ghost use Rattle.lrc_explore.specs.declared.fault.ExploreFault.TheVariants as fault;

    ghost from_gives = { λ _ r. r ≡ fault.NoMemory };

    fn from(_error: AllocError) -> ExploreFault {
        ExploreFault::NoMemory
    }
}
