//! The events of a history whose numbers are to be within the sizes.
ghost use Rattle.std.specs.Prelude.{◌↔◌, IfErr, IfOk, IsTrue, length};
ghost use Rattle.judge.specs.Prelude.{AreJudgedSizesSmall, judged_sizes_of};
ghost use Rattle.c_library.specs.Prelude.{AreGivenHistoryEvents, IsGivenHistoryEvent, IsGivenHistoryFault, IsGivenHistory};

use crate::call_fault::CallFault;
use crate::given::{GivenEvent, GivenSizes, are_given_few, given_events_of};
use journal::Event;
use judge::Sizes;
use std::alloc::Global;

/// Whether the event has a kind, and names numbers within the sizes.
fn is_given_history_event(sizes: Sizes, event: &GivenEvent) -> bool
    requires { AreJudgedSizesSmall (judged_sizes_of sizes) }
    ensures { IsTrue result ↔ IsGivenHistoryEvent (judged_sizes_of sizes) event.now }
{
    event.has_kind() && sizes.have_event(event.event())
}

/// Whether each of them is so.
fn are_given_history_events(sizes: Sizes, events: &[GivenEvent]) -> bool
    requires { AreJudgedSizesSmall (judged_sizes_of sizes) }
    ensures { IsTrue result ↔ AreGivenHistoryEvents (judged_sizes_of sizes) events.now }
{
    for event in events {
        if !is_given_history_event(sizes, event) {
            return false;
        }
    }
    true
}

/// The events, if they and the sizes are in range, and there is `room` for just one word of each address.
pub fn given_history(
    alloc: Global,
    sizes: GivenSizes,
    room: usize,
    events: &[GivenEvent],
) -> Result<Vec<Event>, CallFault>
    ensures taken { IfOk result (λ v. IsGivenHistory sizes room events.now v.items) }
    ensures refused { IfErr result (IsGivenHistoryFault sizes room events.now) }
{
    let given = sizes.sizes();
    if !given.are_small() {
        return Err(CallFault::BadSizes);
    }
    if room != given.pages * given.words {
        return Err(CallFault::BadRoom);
    }
    if !are_given_few(events) {
        return Err(CallFault::TooMany);
    }
    if !are_given_history_events(given, events) {
        return Err(CallFault::BadEvent);
    }
    let history = given_events_of(alloc, events)?;
    Ok(history)
}
