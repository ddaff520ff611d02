//! Of each processor, the events that take, with what it knows after them; of each event, the number of its interval.
ghost use Rattle.std.specs.Prelude.{◌≡◌, ◌+◌, ◌<◌, ◌≤◌, IfOk, List, MatchOption, OnOk, cond, length, slice_index, take};
ghost use Rattle.base.specs.InOrderOnce.{InOrder};
ghost use Rattle.journal.specs.declared.event.Event.{Event};
ghost use Rattle.journal.specs.Prelude.{EventProcessorsInRange, event_closes, event_takes};
ghost use Rattle.judge.specs.Prelude.{most_in_sized_history, most_judged_processors};
ghost use Rattle.causes.specs.Prelude.{AreAllTakingEvents, AreTakingEventNumbers, IsFirstTakingEventAbove, NewsCutsAround, NoTakingEventAbove};

use crate::index::is_index_closing;
use crate::step::{Step, known_in_cut, next_step};
use journal::{Event, Kind};
use judge::{Cuts, MOST_JUDGED_PROCESSORS};
use std::alloc::{AllocError, Global};

/// An event that takes: where it stands, and its processor's cut after it, with as many entries as there are processors.
#[derive(Drop)]
pub(crate) struct Taking {
    pub(crate) place: usize,
    pub(crate) after: Vec<u32>,
}

/// Whether an event of this kind takes.
pub(crate) fn is_taking_event(kind: Kind) -> bool
    ensures { result ≡ event_takes kind }
{
    match kind {
        Kind::Acquire(_) | Kind::Depart | Kind::Await(_) => true,
        _ => false,
    }
}

/// How many intervals the event closes: one or none.
fn taking_event_closings(event: Event) -> u32
    ensures { result ≡ cond (event_closes event.kind) 1 0 }
{
    u32::from(is_index_closing(event, event.processor))
}

/// Of each event, how many intervals its processor had closed before it. The only error is running out of memory.
pub(crate) fn taking_event_numbers(alloc: Global, events: &[Event]) -> Result<Vec<u32>, AllocError>
    requires few { length events.now ≤ most_in_sized_history }
    requires processors { EventProcessorsInRange most_judged_processors events.now }
    ensures { IfOk result (λ v. AreTakingEventNumbers events.now v.items) }
{
    let mut closed = [0; MOST_JUDGED_PROCESSORS];
    let mut numbers = Vec::with_capacity(alloc, events.len())?;
    for place in 0..events.len() {
        let event = events[place];
        let number = closed[event.processor];
        numbers.push(number)?;
        closed[event.processor] = number + taking_event_closings(event);
    }
    Ok(numbers)
}

/// A row for each of `MOST_JUDGED_PROCESSORS` processors, with nothing in it.
fn no_taking_events(alloc: Global) -> Result<Vec<Vec<Taking>>, AllocError>
    ensures { IfOk result (λ v. (j : List Event) → AreAllTakingEvents j 0 v.items) }
{
    let mut takings = Vec::with_capacity(alloc, MOST_JUDGED_PROCESSORS)?;
    for _ in 0..MOST_JUDGED_PROCESSORS {
        takings.push(Vec::new(alloc))?;
    }
    Ok(takings)
}

/// Adds the step's event, where it takes.
fn add_taking_event(
    takings: &mut Vec<Vec<Taking>>,
    events: &[Event],
    step: Step,
) -> Result<(), AllocError>
    requires step { NewsCutsAround events.now step }
    requires processors { EventProcessorsInRange most_judged_processors events.now }
    requires so_far { AreAllTakingEvents events.now step.place takings.old.items }
    ensures { OnOk result (AreAllTakingEvents events.now (step.place + 1) takings.new.items) }
{
    let Step { place, after, .. } = step;
    let event = events[place];
    if is_taking_event(event.kind) {
        takings[event.processor].push(Taking { place, after })?;
    }
    Ok(())
}

/// Of each of `MOST_JUDGED_PROCESSORS` processors, its events that take, of a history of so many. The only error is running out of memory.
pub(crate) fn taking_events_of(
    alloc: Global,
    processors: usize,
    events: &[Event],
) -> Result<Vec<Vec<Taking>>, AllocError>
    requires few { length events.now ≤ most_in_sized_history }
    requires few_processors { processors ≤ most_judged_processors }
    requires processors { EventProcessorsInRange processors events.now }
    ensures { IfOk result (λ v. AreAllTakingEvents events.now (length events.now) v.items) }
{
    let mut cuts = Cuts::new(alloc, processors)?;
    let mut takings = no_taking_events(alloc)?;
    for place in 0..events.len() {
        let step = next_step(alloc, &mut cuts, events, place)?;
        add_taking_event(&mut takings, events, step)?;
    }
    Ok(takings)
}

/// The place of the first of these events after which the processor's event at this place is known. It is found by halving.
pub(crate) fn first_taking_event_above(
    takings: &[Taking],
    processor: usize,
    place: usize,
) -> Option<usize>
    requires parted { InOrder
        (λ x y. slice_index y.after.items processor ≤ place → slice_index x.after.items processor ≤ place) takings.now }
    ensures { MatchOption result (NoTakingEventAbove takings.now processor place) (IsFirstTakingEventAbove takings.now processor place) }
{
    let index = takings.partition_point(|taking| known_in_cut(&taking.after, processor) <= place);
    if index < takings.len() {
        Some(takings[index].place)
    } else {
        None
    }
}
