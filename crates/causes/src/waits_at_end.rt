//! What each processor waits for at the end of a history.
ghost use Rattle.std.specs.Prelude.{◌≡◌, ◌↔◌, ◌==◌, ◌&&◌, ℕ, ◌<◌, IsTrue, IfOk, MatchOption, cond, vec_len};
ghost use Rattle.journal.specs.declared.event.Kind.TheVariants.{Set};
ghost use Rattle.journal.specs.WellFormed.{Does, LastIs};
ghost use Rattle.journal.specs.Prelude.{event_count, event_arrives};
ghost use Rattle.causes.specs.Prelude.{AreThoseInFinalWait, AreFinalWaits, FinalWaitAsksBefore, FinalWaitWithoutEvents, FinalWaitForAbsent, IsFinalWait};

use crate::edge::{edge_departures_before, is_edge_arrival, is_edge_flag_set};
use crate::lock_holders::lock_holder;
use journal::{Event, Kind};
use judge::History;
use std::alloc::{AllocError, Global};

/// What a processor waits for.
#[derive(Drop)]
pub enum Wait {
    /// For nothing: its last event, if it has one, is none after which it waits.
    Nothing,
    /// For a lock: its last event asks for it.
    Lock {
        /// The lock.
        lock: usize,
        /// Who holds it; None where nobody does.
        holder: Option<usize>,
        /// The processors whose asks of it are open and earlier, rising.
        earlier: Vec<usize>,
    },
    /// For a flag: its last event watches it.
    Flag {
        /// The flag.
        flag: usize,
        /// Whether somebody has set it.
        set: bool,
    },
    /// At the barrier: its last event is an arrival.
    Barrier {
        /// The processors that haven't arrived at this episode, rising.
        absent: Vec<usize>,
    },
}

/// What a processor did last, and where.
#[derive(Clone, Copy)]
pub(crate) struct Last {
    pub(crate) place: usize,
    pub(crate) kind: Kind,
}

/// What the processor did last; None where it did nothing.
fn final_event_of(events: &[Event], by: usize) -> Option<Last>
    ensures { MatchOption result (FinalWaitWithoutEvents events.now by) (λ x. LastIs events.now by x.place x.kind) }
{
    for place in (0..events.len()).rev() {
        let Event { processor, kind } = events[place];
        if processor == by {
            return Some(Last { place, kind });
        }
    }
    None
}

/// Whether the processor's ask of the lock is open and stands before this place.
fn final_wait_asks_before(events: &[Event], by: usize, lock: usize, place: usize) -> bool
    ensures { IsTrue result ↔ FinalWaitAsksBefore events.now lock place by }
{
    match final_event_of(events, by) {
        Some(last) => last.place < place && last.kind == Kind::Ask(lock),
        None => false,
    }
}

/// The processors whose asks of the lock are open and stand before this place.
fn final_wait_earlier_asks(
    alloc: Global,
    processors: usize,
    events: &[Event],
    lock: usize,
    place: usize,
) -> Result<Vec<usize>, AllocError>
    ensures { IfOk result (λ v. AreThoseInFinalWait (FinalWaitAsksBefore events.now lock place) processors v.items) }
{
    let mut earlier = Vec::new(alloc);
    for processor in 0..processors {
        if final_wait_asks_before(events, processor, lock, place) {
            earlier.push(processor)?;
        }
    }
    Ok(earlier)
}

/// Whether somebody has set the flag.
fn is_final_wait_flag_set(events: &[Event], flag: usize) -> bool
    ensures { IsTrue result ↔ ((k q : ℕ) × Does events.now k q (Set flag)) }
{
    for place in 0..events.len() {
        if is_edge_flag_set(events[place].kind, flag) {
            return true;
        }
    }
    false
}

/// One for an arrival of the processor, and else none.
fn final_wait_arrival_of(event: Event, by: usize) -> usize
    ensures { result ≡ cond ((event.processor == by) && event_arrives event.kind) 1 0 }
{
    usize::from(event.processor == by && is_edge_arrival(event.kind))
}

/// How often the processor has arrived.
fn final_wait_arrivals(events: &[Event], by: usize) -> usize
    ensures { result ≡ event_count event_arrives events.now by }
{
    let mut arrived = 0;
    for place in 0..events.len() {
        arrived += final_wait_arrival_of(events[place], by);
    }
    arrived
}

/// The processors that haven't arrived at the episode at which this one has.
fn final_wait_absent(
    alloc: Global,
    processors: usize,
    events: &[Event],
    by: usize,
) -> Result<Vec<usize>, AllocError>
    ensures { IfOk result (λ v. AreThoseInFinalWait (FinalWaitForAbsent events.now by) processors v.items) }
{
    let departed = edge_departures_before(events, by, events.len());
    let mut absent = Vec::new(alloc);
    for processor in 0..processors {
        if final_wait_arrivals(events, processor) <= departed {
            absent.push(processor)?;
        }
    }
    Ok(absent)
}

/// What the processor waits for.
fn final_wait_of(
    alloc: Global,
    processors: usize,
    events: &[Event],
    by: usize,
) -> Result<Wait, AllocError>
    ensures { IfOk result (IsFinalWait processors events.now by) }
{
    let Some(last) = final_event_of(events, by) else {
        return Ok(Wait::Nothing);
    };
    match last.kind {
        Kind::Ask(lock) => {
            let earlier = final_wait_earlier_asks(alloc, processors, events, lock, last.place)?;
            Ok(Wait::Lock {
                lock,
                holder: lock_holder(processors, events, lock),
                earlier,
            })
        }
        Kind::Watch(flag) => Ok(Wait::Flag {
            flag,
            set: is_final_wait_flag_set(events, flag),
        }),
        Kind::Arrive => Ok(Wait::Barrier {
            absent: final_wait_absent(alloc, processors, events, by)?,
        }),
        _ => Ok(Wait::Nothing),
    }
}

/// What each processor waits for at the end of the history. The only error is running out of memory.
///
/// It looks from the end on for each processor's last event and for who holds a lock. It takes time in the order of the number
/// of events times the square of the number of processors, if all wait and some did nothing for long.
pub fn final_waits(alloc: Global, history: &History<'_>) -> Result<Vec<Wait>, AllocError>
    ensures long { IfOk result (λ v. vec_len v ≡ history.now.sizes.processors) }
    ensures waits { IfOk result (λ v. AreFinalWaits history.now.sizes.processors history.now.events v.items) }
{
    let processors = history.sizes().processors;
    let events = history.events();
    let mut waits = Vec::with_capacity(alloc, processors)?;
    for by in 0..processors {
        waits.push(final_wait_of(alloc, processors, events, by)?)?;
    }
    Ok(waits)
}
