//! Whether an event is within a cluster's sizes, and stands where its number says.
ghost use Rattle.std.specs.Prelude.{IfSome, IfNone};
ghost use Rattle.lrc_check.specs.Traces.Prelude.{TraceFaultSaysOfEvent, AreTraceSizes, IsTraceLineDue, IsTraceFaultPast, trace_sizes_of};
ghost use Rattle.journal.specs.WellFormed.{WellFormedKindInRange};

use crate::traces::fault::TraceFault;
use crate::traces::trace::{MOST_TRACED_EVENTS, TraceSizes};
use journal::{Event, Kind};

/// The fault of a kind that names an address, a page, a lock or a flag past the sizes.
fn trace_range_fault_of_kind(sizes: &TraceSizes, kind: Kind) -> Option<TraceFault>
    requires { AreTraceSizes (trace_sizes_of sizes.now) }
    ensures none { IfNone result (WellFormedKindInRange (trace_sizes_of sizes.now) kind) }
    ensures some { IfSome result (λ f. IsTraceFaultPast f (trace_sizes_of sizes.now) kind) }
{
    match kind {
        Kind::Load(address, _) | Kind::Store(address, _) => {
            (address >= sizes.pages * sizes.words).then_some(TraceFault::OutOfRange)
        }
        Kind::Fetch { page, .. } => (page >= sizes.pages).then_some(TraceFault::OutOfRange),
        Kind::Ask(lock) | Kind::Acquire(lock) | Kind::Release(lock) => {
            (lock >= sizes.locks).then_some(TraceFault::BadLock)
        }
        Kind::Set(flag) | Kind::Watch(flag) | Kind::Await(flag) => {
            (flag >= sizes.flags).then_some(TraceFault::BadFlag)
        }
        Kind::Arrive | Kind::Depart => None,
    }
}

/// Why the event of a line that gives this place can't stand behind `count` others.
pub fn trace_range_fault_of_event(
    sizes: &TraceSizes,
    count: usize,
    place: usize,
    event: &Event,
) -> Option<TraceFault>
    requires { AreTraceSizes (trace_sizes_of sizes.now) }
    ensures none { IfNone result (IsTraceLineDue (trace_sizes_of sizes.now) count place event.now) }
    ensures some { IfSome result (λ f. TraceFaultSaysOfEvent f (trace_sizes_of sizes.now) count place event.now) }
{
    if place != count {
        Some(TraceFault::BadPlace)
    } else if event.processor >= sizes.processors {
        Some(TraceFault::BadProcessor)
    } else if let Some(fault) = trace_range_fault_of_kind(sizes, event.kind) {
        Some(fault)
    } else if count >= MOST_TRACED_EVENTS {
        Some(TraceFault::TooLong)
    } else {
        None
    }
}
