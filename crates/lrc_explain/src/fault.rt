ghost use Rattle.std.specs.Prelude.{◌≡◌};

use std::alloc::AllocError;
use thiserror::Error;

/// Why a run wasn't told.
#[derive(Clone, Copy, Debug, PartialEq, Eq, Error)]
pub enum ExplainFault {
    /// A write failed or took no byte, or the flush failed. A beginning of the text may be written.
    #[error("output failed")]
    Output,
    /// A growth was refused. Nothing was written.
    #[error("out of memory")]
    NoMemory,
}

impl From<AllocError> for ExplainFault {
    ghost use Rattle.lrc_explain.specs.declared.fault.ExplainFault.TheVariants as fault;

    ghost from_gives = { λ _ r. r ≡ fault.NoMemory };

    fn from(_error: AllocError) -> ExplainFault {
        ExplainFault::NoMemory
    }
}
