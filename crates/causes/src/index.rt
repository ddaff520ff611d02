//! What is looked up of a history again and again: how often each event's processor had arrived and departed, and where
//! each processor closed its intervals.
ghost use Rattle.std.specs.Prelude.{◌≡◌, ◌==◌, ◌&&◌, ◌↔◌, ℕ, ◌+◌, ◌<◌, ◌≤◌, ◌^◌, IfOk, Some, cond, length, slice_get, vec_len};
ghost use Rattle.base.specs.InOrderOnce.{InOrder};
ghost use Rattle.journal.specs.Prelude.{EventProcessorsInRange, event_arrives, event_closes, event_departs};
ghost use Rattle.judge.specs.Prelude.{most_in_sized_history, most_judged_processors};
ghost use Rattle.causes.specs.Prelude.{AreIndexedClosings, AreIndexedTurns, AreIndexRowsEmpty, IsIndex};

use journal::{Event, Kind};
use judge::MOST_JUDGED_PROCESSORS;
use std::alloc::{AllocError, Global};

/// How often an event's processor had arrived and departed before it.
#[derive(Clone, Copy)]
pub(crate) struct Turn {
    pub(crate) arrived: usize,
    pub(crate) departed: usize,
}

/// What is looked up of a history.
#[derive(Drop)]
pub(crate) struct Index {
    /// The turn of each event.
    pub(crate) turns: Vec<Turn>,
    /// Of each of `MOST_JUDGED_PROCESSORS` processors, the places of the events that close its intervals, in order.
    pub(crate) closings: Vec<Vec<usize>>,
}

/// Whether the event closes an interval of this processor.
pub(crate) fn is_index_closing(event: Event, by: usize) -> bool
    ensures { result ≡ ((event.processor == by) && event_closes event.kind) }
{
    let closes = match event.kind {
        Kind::Ask(_) | Kind::Release(_) | Kind::Arrive | Kind::Set(_) | Kind::Watch(_) => true,
        _ => false,
    };
    event.processor == by && closes
}

/// The turn of a processor's next event, after one of this kind.
fn index_turn_after(turn: Turn, kind: Kind) -> Turn
    requires arrived { turn.arrived < 2 ^ 22 }
    requires departed { turn.departed < 2 ^ 22 }
    ensures arrived { result.arrived ≡ turn.arrived + cond (event_arrives kind) 1 0 }
    ensures departed { result.departed ≡ turn.departed + cond (event_departs kind) 1 0 }
{
    let Turn { arrived, departed } = turn;
    match kind {
        Kind::Arrive => Turn {
            arrived: arrived + 1,
            departed,
        },
        Kind::Depart => Turn {
            arrived,
            departed: departed + 1,
        },
        _ => turn,
    }
}

/// The turn of each event.
fn index_turns(alloc: Global, events: &[Event]) -> Result<Vec<Turn>, AllocError>
    requires few { length events.now ≤ most_in_sized_history }
    requires processors { EventProcessorsInRange most_judged_processors events.now }
    ensures { IfOk result (λ v. AreIndexedTurns events.now v.items) }
{
    let mut next = [Turn {
        arrived: 0,
        departed: 0,
    }; MOST_JUDGED_PROCESSORS];
    let mut turns = Vec::with_capacity(alloc, events.len())?;
    for place in 0..events.len() {
        let event = events[place];
        let turn = next[event.processor];
        turns.push(turn)?;
        next[event.processor] = index_turn_after(turn, event.kind);
    }
    Ok(turns)
}

/// A row for each of `MOST_JUDGED_PROCESSORS` processors, with nothing in it.
fn no_index_closings(alloc: Global) -> Result<Vec<Vec<usize>>, AllocError>
    ensures long { IfOk result (λ v. vec_len v ≡ most_judged_processors) }
    ensures empty { IfOk result (λ v. AreIndexRowsEmpty v.items) }
{
    let mut closings = Vec::with_capacity(alloc, MOST_JUDGED_PROCESSORS)?;
    for _ in 0..MOST_JUDGED_PROCESSORS {
        closings.push(Vec::new(alloc))?;
    }
    Ok(closings)
}

/// Of each of `MOST_JUDGED_PROCESSORS` processors, the places of the events that close its intervals.
fn index_closings(alloc: Global, events: &[Event]) -> Result<Vec<Vec<usize>>, AllocError>
    requires { EventProcessorsInRange most_judged_processors events.now }
    ensures { IfOk result (λ v. AreIndexedClosings events.now v.items) }
{
    let mut closings = no_index_closings(alloc)?;
    for place in 0..events.len() {
        let event = events[place];
        if is_index_closing(event, event.processor) {
            closings[event.processor].push(place)?;
        }
    }
    Ok(closings)
}

/// How many of these places, which rise, stand before this one. It is found by halving.
pub(crate) fn index_places_before(places: &[usize], place: usize) -> usize
    requires { InOrder (λ i m. i < m) places.now }
    ensures within { result ≤ length places.now }
    ensures before { (n i : ℕ) → slice_get places.now n ≡ Some i → (n < result) ↔ (i < place) }
{
    places.partition_point(|other| *other < place)
}

/// What is looked up of this history. The only error is running out of memory.
pub(crate) fn index_of(alloc: Global, events: &[Event]) -> Result<Index, AllocError>
    requires few { length events.now ≤ most_in_sized_history }
    requires processors { EventProcessorsInRange most_judged_processors events.now }
    ensures { IfOk result (IsIndex events.now) }
{
    let turns = index_turns(alloc, events)?;
    let closings = index_closings(alloc, events)?;
    Ok(Index { turns, closings })
}
