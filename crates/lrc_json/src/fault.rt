//! Why JSON wasn't written whole.
ghost use Rattle.std.specs.Prelude.{◌≡◌};

use std::alloc::AllocError;
use thiserror::Error;

/// Why JSON wasn't written whole.
#[derive(Clone, Copy, Debug, PartialEq, Eq, Error)]
pub enum JsonFault {
    /// A write failed or took no byte, or the flush failed. A beginning of the lines may be written.
    #[error("output failed")]
    Output,
    /// A growth was refused. Nothing was written.
    #[error("out of memory")]
    NoMemory,
}

impl From<AllocError> for JsonFault {
    ghost use Rattle.lrc_json.specs.declared.fault.JsonFault.TheVariants as json;

    ghost from_gives = { λ _ fault. fault ≡ json.NoMemory };

    fn from(_error: AllocError) -> JsonFault {
        JsonFault::NoMemory
    }
}
