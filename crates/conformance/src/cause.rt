//! How a run of a script ends without a report.
ghost use Rattle.std.specs.Prelude.{◌≡◌};

use book::Refused;
use std::alloc::AllocError;
use thiserror::Error;

/// Why a processor of a run went no further.
#[derive(Clone, Copy, Debug, PartialEq, Eq, Error)]
pub enum Cause {
    /// What it waits for didn't come.
    #[error("no progress")]
    Stuck,
    /// The gate answered Stopped.
    #[error("stopped at the gate")]
    Gate,
    /// Its thread couldn't be started.
    #[error("thread not started")]
    Thread,
    /// A call was refused.
    #[error("{0}")]
    Refused(Refused),
}

impl From<Refused> for Cause {
    ghost use Rattle.conformance.specs.declared.cause.Cause.TheVariants as cause;

    ghost from_gives = { λ e r. r ≡ cause.Refused e };

    fn from(refused: Refused) -> Cause {
        Cause::Refused(refused)
    }
}

impl From<AllocError> for Cause {
    ghost use Rattle.conformance.specs.declared.cause.Cause.TheVariants as cause;
    ghost use Rattle.book.specs.declared.refused.Refused.TheVariants as refused;

    ghost from_gives = { λ _ r. r ≡ cause.Refused refused.NoMemory };

    fn from(error: AllocError) -> Cause {
        Cause::Refused(Refused::from(error))
    }
}

/// A run that ended without a report: the processor that went no further, and why.
#[derive(Clone, Copy, Debug, PartialEq, Eq, Error)]
#[error("processor {processor}: {cause}")]
pub struct RunFault {
    pub processor: usize,
    pub cause: Cause,
}
