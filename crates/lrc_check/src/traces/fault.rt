//! What the reader of traces finds wrong.
ghost use Rattle.std.specs.Prelude.{◌≡◌};
ghost use Rattle.lrc_check.specs.declared.traces.fault.TraceFault.TheVariants.{NoMemory};
ghost use Rattle.lrc_check.specs.Traces.Prelude.{trace_fault_from_script};

use lrc_script::fault::ScriptFault;
use std::alloc::{AllocError, AllocFailed};
use thiserror::Error;

/// Why bytes aren't the text of a trace. On one line the tests come in the order Truncated, Cut, BadLine, BadNumber,
/// BadSize, BadPlace, BadProcessor, OutOfRange, BadLock, BadFlag, TooLong.
#[derive(Clone, Copy, Debug, PartialEq, Eq, Error)]
pub enum TraceFault {
    /// The bytes end where the first line has to be, or the last line has no line feed.
    #[error("file ends too early")]
    Truncated,
    /// The second line tells that events were cut off: the journal lacks its beginning.
    #[error("journal was cut")]
    Cut,
    /// The first word, the event's name, the number of words or the separation isn't one that is allowed here.
    #[error("line not understood")]
    BadLine,
    /// A word in a number's place isn't a number.
    #[error("bad number")]
    BadNumber,
    /// The `cluster` line has a size out of range.
    #[error("size out of range")]
    BadSize,
    /// The event's number isn't how many events stand before it.
    #[error("event out of order")]
    BadPlace,
    /// The processor's number isn't below the cluster's processors.
    #[error("no such processor")]
    BadProcessor,
    /// An address isn't below pages times words a page, or a page not below the pages.
    #[error("address out of range")]
    OutOfRange,
    /// A lock's number isn't below the cluster's locks.
    #[error("no such lock")]
    BadLock,
    /// A flag's number isn't below the cluster's flags.
    #[error("no such flag")]
    BadFlag,
    /// One event more than a trace may have, `MOST_TRACED_EVENTS`.
    #[error("too many events")]
    TooLong,
    /// A growth was refused while the line was read.
    #[error("out of memory")]
    NoMemory,
}

impl From<ScriptFault> for TraceFault {
    ghost from_gives = { λ e f. f ≡ trace_fault_from_script e };

    fn from(fault: ScriptFault) -> TraceFault {
        match fault {
            ScriptFault::BadNumber => TraceFault::BadNumber,
            ScriptFault::BadSize => TraceFault::BadSize,
            ScriptFault::NoMemory => TraceFault::NoMemory,
            _ => TraceFault::BadLine,
        }
    }
}

impl<T: Drop> From<AllocFailed<T>> for TraceFault {
    ghost from_gives = { λ _ e. e ≡ NoMemory };

    fn from(_e: AllocFailed<T>) -> TraceFault {
        TraceFault::NoMemory
    }
}

impl From<AllocError> for TraceFault {
    ghost from_gives = { λ _ e. e ≡ NoMemory };

    fn from(_e: AllocError) -> TraceFault {
        TraceFault::NoMemory
    }
}
