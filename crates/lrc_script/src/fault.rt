//! What the reader of scripts finds wrong.
ghost use Rattle.std.specs.Prelude.{◌≡◌};
ghost use Rattle.lrc_script.specs.declared.fault.ScriptFault.TheVariants.{NoMemory};

use std::alloc::{AllocError, AllocFailed};
use thiserror::Error;

/// Why bytes aren't the text of a script that can be run. On one line the tests come in the order
/// Truncated, BadLine, BadNumber, BadSize, OutOfRange, BadLock, BadFlag, AlreadyHeld, NotHeld, TooLong.
#[derive(Clone, Copy, Debug, PartialEq, Eq, Error)]
pub enum ScriptFault {
    /// The bytes end where a line has to be, or the last line has no line feed.
    #[error("file ends too early")]
    Truncated,
    /// The first word, the number of words or the separation isn't one that is allowed at this point.
    #[error("line not understood")]
    BadLine,
    /// A word in a number's place isn't a number.
    #[error("bad number")]
    BadNumber,
    /// The `cluster` line has a size out of range.
    #[error("size out of range")]
    BadSize,
    /// An address isn't below pages times words a page.
    #[error("address out of range")]
    OutOfRange,
    /// A lock number isn't below the cluster's locks.
    #[error("no such lock")]
    BadLock,
    /// A flag number isn't below the cluster's flags.
    #[error("no such flag")]
    BadFlag,
    /// An `acquire` of a lock that the section holds.
    #[error("lock already held")]
    AlreadyHeld,
    /// A `release` of a lock that the section doesn't hold.
    #[error("lock not held")]
    NotHeld,
    /// Instruction 10,001 of a section, or address 65 of the `show` line.
    #[error("too many")]
    TooLong,
    /// A section has another number of barriers than section 0.
    #[error("number of barriers differs")]
    Uneven,
    /// A growth was refused while the line was read.
    #[error("out of memory")]
    NoMemory,
}

impl<T: Drop> From<AllocFailed<T>> for ScriptFault {
    ghost from_gives = { λ _ e. e ≡ NoMemory };

    fn from(_e: AllocFailed<T>) -> ScriptFault {
        ScriptFault::NoMemory
    }
}

impl From<AllocError> for ScriptFault {
    ghost from_gives = { λ _ e. e ≡ NoMemory };

    fn from(_e: AllocError) -> ScriptFault {
        ScriptFault::NoMemory
    }
}
