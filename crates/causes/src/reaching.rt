//! Which event of a processor is the first that an event reaches.
ghost use Rattle.std.specs.Prelude.{◌↔◌, ◌<◌, ◌≤◌, IsTrue, IfOk, length};
ghost use Rattle.journal.specs.Pasts.{UpTo};
ghost use Rattle.judge.specs.Prelude.{most_judged_processors};
ghost use Rattle.causes.specs.Prelude.{PathEntryIfAny, IsPathLookup};

use crate::taking_events::{Taking, first_taking_event_above, taking_events_of};
use journal::Event;
use judge::History;
use std::alloc::{AllocError, Global};

/// What is looked up of a history to tell which events one reaches: happens before, or is.
///
/// What a processor knows of the others after each of its events that take (`judge::Cuts`) tells which of its events is the first
/// one that an event reaches.
#[derive(Drop)]
pub(crate) struct Reach {
    /// Of each of `judge::MOST_JUDGED_PROCESSORS` processors, its events that take.
    takings: Vec<Vec<Taking>>,
}

impl Reach {
    /// What is looked up of this history. The only error is running out of memory.
    pub(crate) fn new(alloc: Global, history: &History<'_>) -> Result<Reach, AllocError>
        ensures { IfOk result (IsPathLookup history.now.events) }
    {
        let events = history.events();
        let takings = taking_events_of(alloc, history.sizes().processors, events)?;
        Ok(Reach { takings })
    }

    /// The processor's first event that the one at `from` is, or happens before.
    pub(crate) fn first(&self, events: &[Event], from: usize, processor: usize) -> Option<usize>
        requires tells { IsPathLookup events.now self.now }
        requires from { from < length events.now }
        requires processor { processor < most_judged_processors }
        ensures { PathEntryIfAny events.now from processor result }
    {
        let by = events[from].processor;
        if by == processor {
            return Some(from);
        }
        first_taking_event_above(&self.takings[processor], by, from)
    }

    /// Whether the event at `from` is the one at this place, or happens before it.
    pub(crate) fn reaches(&self, events: &[Event], from: usize, place: usize) -> bool
        requires tells { IsPathLookup events.now self.now }
        requires from { from < length events.now }
        requires place { place < length events.now }
        ensures { IsTrue result ↔ UpTo events.now place from }
    {
        match self.first(events, from, events[place].processor) {
            Some(first) => first <= place,
            None => false,
        }
    }
}
