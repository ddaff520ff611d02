//! Why a trace isn't judged.
ghost use Rattle.std.specs.Prelude.{◌≡◌, ◌≢◌};
ghost use Rattle.lrc_check.specs.declared.traces.fault.TraceFault.TheVariants as trace;
ghost use Rattle.lrc_check.specs.declared.check_fault.CheckFault.TheVariants as check;
ghost use Rattle.lrc_check.specs.Prelude.{IsFaultFoundInBytes};

use crate::traces::fault::TraceFault;
use lrc_report::render::OutFault;
use std::alloc::AllocError;

/// Why a trace isn't judged, or what was found isn't told.
#[derive(Clone, Copy, Debug, PartialEq, Eq)]
pub enum CheckFault {
    /// The bytes are no trace's: this line has the fault.
    Trace(usize, TraceFault),
    /// A write failed.
    Output,
    /// A growth was refused.
    NoMemory,
}

impl From<(usize, TraceFault)> for CheckFault {
    ghost from_gives = { λ given fault. IsFaultFoundInBytes fault → given.1 ≢ trace.NoMemory };

    fn from((line, fault): (usize, TraceFault)) -> CheckFault {
        match fault {
            TraceFault::NoMemory => CheckFault::NoMemory,
            _ => CheckFault::Trace(line, fault),
        }
    }
}

impl From<AllocError> for CheckFault {
    ghost from_gives = { λ _ fault. fault ≡ check.NoMemory };

    fn from(_error: AllocError) -> CheckFault {
        CheckFault::NoMemory
    }
}

impl From<OutFault> for CheckFault {
    ghost from_gives = { λ _ fault. fault ≡ check.Output };

    fn from(_fault: OutFault) -> CheckFault {
        CheckFault::Output
    }
}
