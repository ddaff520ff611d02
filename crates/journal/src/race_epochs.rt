//! The first race of a journal, by vector timestamps (Mattern 1989; Fidge 1988) and by the last accesses of
//! each address (FastTrack: Flanagan and Freund 2009).
ghost use Rattle.std.specs.Prelude.{◌≡◌, ◌≢◌, ◌↔◌, ◌==◌, ℕ, ◌+◌, ◌<◌, ◌≤◌, ◌^◌, ◌%◌, [], IsTrue, IfOk, MatchOption};
ghost use Rattle.std.specs.Prelude.{cond, Some, length, take, slice_get, slice_index, vec_len};
ghost use Rattle.base.specs.Prelude.{most_held, most_processors};
ghost use Rattle.journal.specs.Prelude.{event_address, event_closes, IsTimeOf, Conflict, Race, IsFirstRace, RaceFree};
ghost use Rattle.journal.specs.Prelude.{EventAddressInRange, EventAddressesInRange, EventProcessorsInRange, entry, access_epoch_number};
ghost use Rattle.journal.specs.Prelude.{access_epoch_number_of_loads, AreAccessEpochsWithin, AreAccessEpochsAfterLoad, AreAccessEpochs, AreConflictAccessEpochsCounted};
ghost use Rattle.journal.specs.Prelude.{AccessEpochNoted};

use crate::clock::{Clock, others_are_within_clock, tick, zero_clocks};
use crate::event::{Event, Kind};
use crate::event_clocks::EventClocks;
use crate::event_kinds::{event_kind_closes, event_kind_is_access};
use base::MOST_PROCESSORS;
use std::alloc::{AllocError, Global};

/// An access, as FastTrack's epoch: who made it, and one more than the number of its interval; 0 if there
/// is none.
#[derive(Clone, Copy)]
struct Epoch {
    processor: u8,
    number: u32,
}

/// No access.
const NONE: Epoch = Epoch {
    processor: 0,
    number: 0,
};

impl Epoch {
    /// The processor, below `MOST_PROCESSORS`.
    fn processor(self) -> usize
        ensures { result ≡ self.processor % most_processors }
    {
        self.processor as usize % MOST_PROCESSORS
    }

    /// Whether the access is the processor's own, or the timestamp counts its interval.
    fn is_within(self, time: &Clock, processor: usize) -> bool
        ensures { IsTrue result ↔ AreAccessEpochsWithin (access_epoch_number self) (slice_index time.now) processor }
    {
        let by = self.processor();
        by == processor || self.number <= time[by]
    }
}

/// The loads of an address since its last store.
#[derive(Clone, Copy)]
enum Loads {
    /// All of them happen before the last one, or are it.
    Last(Epoch),
    /// Each happens before one of several, whose numbers stand in `RaceEpochs::loads`.
    Several,
}

/// The last accesses of an address, which all others of its accesses happen before.
#[derive(Clone, Copy)]
struct Access {
    store: Epoch,
    loads: Loads,
}

impl Access {
    /// Whether the loads are the processor's own, or the timestamp counts their intervals.
    fn loads_are_within(&self, several: &Clock, time: &Clock, processor: usize) -> bool
        ensures { IsTrue result ↔ AreAccessEpochsWithin (access_epoch_number_of_loads self.now.loads several.now)
            (slice_index time.now) processor }
    {
        match self.loads {
            Loads::Last(load) => load.is_within(time, processor),
            Loads::Several => others_are_within_clock(several, time, processor),
        }
    }

    /// Takes note of a load by the processor, whose timestamp is this before it.
    fn note_load(&mut self, several: &mut Clock, time: &Clock, processor: usize)
        requires processor { processor < most_processors }
        requires interval { slice_index time.now processor < 2 ^ 22 }
        ensures store { self.new.store ≡ self.old.store }
        ensures loads { AreAccessEpochsAfterLoad (access_epoch_number_of_loads self.old.loads several.old)
            (access_epoch_number_of_loads self.new.loads several.new) (slice_index time.now) processor }
    {
        let number = time[processor] + 1;
        match self.loads {
            Loads::Last(load) if load.is_within(time, processor) => {
                let processor = processor as u8;
                self.loads = Loads::Last(Epoch { processor, number });
            }
            Loads::Last(load) => {
                *several = [0; MOST_PROCESSORS];
                several[load.processor()] = load.number;
                several[processor] = number;
                self.loads = Loads::Several;
            }
            Loads::Several => several[processor] = number,
        }
    }

    /// After a store by the processor, whose timestamp is this before it: all earlier accesses happen before
    /// it.
    fn of_store(time: &Clock, processor: usize) -> Access
        requires processor { processor < most_processors }
        requires interval { slice_index time.now processor < 2 ^ 22 }
        ensures { slice_index time.now processor < access_epoch_number result.store processor }
    {
        let store = Epoch {
            processor: processor as u8,
            number: time[processor] + 1,
        };
        Access {
            store,
            loads: Loads::Last(NONE),
        }
    }
}

/// The last accesses of each address.
#[derive(Drop)]
struct RaceEpochs {
    last: Vec<Access>,
    /// Of each address with several last loads, of each processor the number of one of them, 0 if there is
    /// none.
    loads: Vec<Clock>,
}

impl RaceEpochs {
    /// Before the first event. The only error is running out of memory.
    fn new(alloc: Global, addresses: usize) -> Result<RaceEpochs, AllocError>
        ensures { IfOk result (λ x. AreAccessEpochs [] addresses x) }
    {
        let none = Access {
            store: NONE,
            loads: Loads::Last(NONE),
        };
        Ok(RaceEpochs {
            last: vec![in alloc; none; addresses]?,
            loads: zero_clocks(alloc, addresses)?,
        })
    }

    /// Whether the timestamp counts the intervals of the last accesses by others that conflict with the event.
    fn are_counted(&self, event: Event, time: &Clock) -> bool
        requires last { EventAddressInRange (vec_len self.now.last) event.kind }
        requires loads { EventAddressInRange (vec_len self.now.loads) event.kind }
        ensures { IsTrue result ↔ AreConflictAccessEpochsCounted self.now event.processor
            (slice_index time.now) event.kind }
    {
        let processor = event.processor;
        match event.kind {
            Kind::Load(address, _) => self.last[address].store.is_within(time, processor),
            Kind::Store(address, _) => {
                let access = &self.last[address];
                access.store.is_within(time, processor)
                    && access.loads_are_within(&self.loads[address], time, processor)
            }
            _ => true,
        }
    }

    /// Takes note of the event, whose processor has this timestamp before it.
    fn note(&mut self, event: Event, time: &Clock)
        requires processor { event.processor < most_processors }
        requires interval { slice_index time.now event.processor < 2 ^ 22 }
        requires last { EventAddressInRange (vec_len self.old.last) event.kind }
        requires loads { EventAddressInRange (vec_len self.old.loads) event.kind }
        ensures last_long { vec_len self.new.last ≡ vec_len self.old.last }
        ensures loads_long { vec_len self.new.loads ≡ vec_len self.old.loads }
        ensures noted { AccessEpochNoted self.old self.new event.processor (slice_index time.now) event.kind }
    {
        match event.kind {
            Kind::Load(address, _) => {
                let access = &mut self.last[address];
                access.note_load(&mut self.loads[address], time, event.processor);
            }
            Kind::Store(address, _) => self.last[address] = Access::of_store(time, event.processor),
            _ => {}
        }
    }
}

/// Whether the events are by two processors and conflict: one address, and a store at least on one side.
pub(crate) fn is_race_conflict(first: Event, second: Event) -> bool
    ensures { IsTrue result ↔ ((first.processor ≢ second.processor) × Conflict first second) }
{
    let conflicts = match (first.kind, second.kind) {
        (Kind::Load(a, _), Kind::Store(b, _)) => a == b,
        (Kind::Store(a, _), Kind::Load(b, _) | Kind::Store(b, _)) => a == b,
        _ => false,
    };
    conflicts && first.processor != second.processor
}

/// The first event that races with the event at this place, whose processor has this timestamp before it.
fn first_racing(events: &[Event], place: usize, event: Event, time: &Clock) -> Option<usize>
    requires at { slice_get events.now place ≡ Some event }
    requires few { length events.now ≤ most_held + most_processors }
    requires processors { EventProcessorsInRange most_processors events.now }
    requires time { IsTimeOf (take place events.now) event.processor (slice_index time.now) }
    ensures { MatchOption result ((i : ℕ) → ¬ Race events.now i place)
        (λ i. Race events.now i place × ((m : ℕ) → Race events.now m place → i ≤ m)) }
{
    let mut closings: Clock = [0; MOST_PROCESSORS];
    for i in 0..place {
        let earlier = events[i];
        if is_race_conflict(earlier, event)
            && time[earlier.processor] <= closings[earlier.processor]
        {
            return Some(i);
        }
        if event_kind_closes(earlier.kind) {
            tick(&mut closings, earlier.processor);
        }
    }
    None
}

impl RaceEpochs {
    /// The first event that races with the event at this place, whose processor has this timestamp before
    /// it. The events before are only gone through if one of them may.
    fn race_at(&self, events: &[Event], place: usize, event: Event, time: &Clock) -> Option<usize>
        requires at { slice_get events.now place ≡ Some event }
        requires few { length events.now ≤ most_held + most_processors }
        requires processors { EventProcessorsInRange most_processors events.now }
        requires last { EventAddressInRange (vec_len self.now.last) event.kind }
        requires loads { EventAddressInRange (vec_len self.now.loads) event.kind }
        requires time { IsTimeOf (take place events.now) event.processor (slice_index time.now) }
        requires kept { AreAccessEpochs (take place events.now) (vec_len self.now.last) self.now }
        ensures { MatchOption result ((i : ℕ) → ¬ Race events.now i place)
            (λ i. Race events.now i place × ((m : ℕ) → Race events.now m place → i ≤ m)) }
    {
        if self.are_counted(event, time) {
            None
        } else {
            first_racing(events, place, event, time)
        }
    }
}

/// The pair of the first race of these events, of `processors` processors, at most `MOST_PROCESSORS`, and `addresses`
/// addresses: the least second place, and with it the least first one; None if no events race. The only error is
/// running out of memory.
///
/// Nothing was cut off before them. They need not be ones that a cluster can make, and none of them is copied.
///
/// Before the first race all stores of an address happen before the last one, or are it. So a timestamp that
/// counts the last store's interval counts them all. Of the loads since then mostly the last one is enough,
/// too. Only if these are unordered, the last one of each processor is looked at. The least first place is
/// looked for once, at the end.
///
/// An access takes a constant time, except for unordered loads. Such a load, and an event of a lock, a flag or the
/// barrier, takes time in the order of the processors. A lock or a flag of a number from 1024 on adds the
/// logarithm of how many of these occur. It takes memory in the order of the addresses, the locks and
/// flags that occur and the open episodes, times the processors. It also takes a table of 64 KiB at most for the
/// locks and one for the flags, however great their numbers are.
pub fn first_race_of(
    alloc: Global,
    processors: usize,
    addresses: usize,
    events: &[Event],
) -> Result<Option<(usize, usize)>, AllocError>
    requires few { length events.now ≤ most_held + most_processors }
    requires few_processors { processors ≤ most_processors }
    requires addresses { EventAddressesInRange addresses events.now }
    requires processors { EventProcessorsInRange processors events.now }
    ensures { IfOk result (λ o. MatchOption o (RaceFree events.now)
        (λ r. IsFirstRace events.now r.0 r.1)) }
{
    let mut clocks = EventClocks::new(alloc, processors)?;
    let mut accesses = RaceEpochs::new(alloc, addresses)?;
    for place in 0..events.len() {
        let event = events[place];
        if event_kind_is_access(event.kind) {
            let time = clocks.of(event.processor);
            if let Some(first) = accesses.race_at(events, place, event, time) {
                return Ok(Some((first, place)));
            }
            accesses.note(event, time);
        } else {
            clocks.note(events, place)?;
        }
    }
    Ok(None)
}
