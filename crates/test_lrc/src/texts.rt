//! The texts of refusals and of faults, also of those that no run of the program ends with.
use book::Refused;
use lrc_run::{Cause, RunFault};
use std::alloc::{AllocError, Global};
use std::process::Abort;
use std::test::Fail;

/// Whether this is the refusal's text.
fn is_text(alloc: Global, refused: Refused, text: &str) -> Result<bool, AllocError> {
    let told = format!(in alloc; "{refused}")?;
    Ok(told.as_str() == text)
}

#[test]
fn of_refusals(rt: HostRuntime) -> Result<(), Fail> {
    for (refused, text) in [
        (Refused::OutOfRange, "address out of range"),
        (Refused::Invalid(7), "page 7 is invalid"),
        (Refused::Waiting, "waiting"),
        (Refused::BlockFull, "block full"),
        (Refused::NotHeld, "lock not held"),
        (Refused::AlreadyHeld, "lock already held"),
        (Refused::BadLock, "no such lock"),
        (Refused::BadFlag, "no such flag"),
        (Refused::NotYet, "nothing has come yet"),
        (Refused::NothingAwaited, "nothing awaited"),
        (Refused::AlreadyValid, "page already valid"),
        (Refused::JournalFull, "journal full"),
        (Refused::SeatSpent, "lock entries spent"),
        (Refused::NoMemory, "out of memory"),
        (Refused::BadSize, "size out of range"),
        (Refused::Racy(3, 8), "events 3 and 8 race"),
        (Refused::NoEpisode, "no complete episode"),
        (Refused::BaseFull, "too many events cut off"),
    ] {
        assert!(rt; is_text(rt.alloc(), refused, text)?);
    }
    Ok(())
}

#[test]
fn of_faults(rt: HostRuntime) -> Result<(), Fail> {
    for (cause, text) in [
        (Cause::Stuck, "processor 12: no progress"),
        (Cause::Thread, "processor 12: thread not started"),
        (Cause::Gate, "processor 12: stopped at the gate"),
        (
            Cause::Refused(Refused::JournalFull),
            "processor 12: journal full",
        ),
        (
            Cause::Refused(Refused::SeatSpent),
            "processor 12: lock entries spent",
        ),
    ] {
        let fault = RunFault {
            processor: 12,
            cause,
        };
        let shown = fault.to_string(rt.alloc())?;
        assert!(rt; shown.as_str() == text, "{text}");
    }
    Ok(())
}
