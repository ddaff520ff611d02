//! The timestamps that a journal's events give, an event at a time.
ghost use Rattle.std.specs.Prelude.{◌≡◌, ◌↔◌, ℕ, ◌+◌, ◌-◌, ◌<◌, ◌≤◌, ◌^◌, ◌==◌, ◌&&◌, [], IsTrue, EachIndex, IfOk};
ghost use Rattle.std.specs.Prelude.{OnOk, cond, max, length, take, slice_get, slice_index, vec_len, true};
ghost use Rattle.base.specs.Prelude.{most_held, most_processors};
ghost use Rattle.journal.specs.Prelude.{EventProcessorsInRange, entry, numbered_clock_at, ClockEntryClosedAt, ClockEntryJoinedAt, AreClocks};
ghost use Rattle.journal.specs.Prelude.{ClocksAfterArrival};

use crate::clock::{Clock, join_clock_from, join_clock_in, tick, zero_clocks};
use crate::event::{Event, Kind};
use crate::numbered_clocks::NumberedClocks;
use base::MOST_PROCESSORS;
use std::alloc::{AllocError, Global};
use std::collections::VecDeque;

/// The timestamps after a journal's front: of each processor, and what each lock, each flag and each
/// episode of the barrier keeps. The journal need not be one that a cluster can make.
#[derive(Drop)]
pub struct EventClocks {
    processors: Vec<Clock>,
    locks: NumberedClocks,
    flags: NumberedClocks,
    episodes: VecDeque<Clock>,
    arrivals: [u32; MOST_PROCESSORS],
    departures: [u32; MOST_PROCESSORS],
    /// The number of processors.
    present: usize,
    /// How many episodes every processor has departed from: `episodes` begins with the next one.
    gone: usize,
}

/// Whether each of the counts is past this number.
fn event_clocks_are_past(counts: &[u32], number: usize) -> bool
    ensures { IsTrue result ↔ EachIndex counts.now (λ k. number < slice_index counts.now k) }
{
    counts.iter().all(|count| *count as usize > number)
}

/// Counts one more closing event of the processor in its timestamp.
fn close(processors: &mut Vec<Clock>, processor: usize)
    requires processor { processor < most_processors }
    requires long { vec_len processors.old ≡ most_processors }
    requires room { entry processors.old.items processor processor < 2 ^ 22 }
    ensures long { vec_len processors.new ≡ vec_len processors.old }
    ensures closed { ClockEntryClosedAt (entry processors.old.items) (entry processors.new.items) processor }
{
    tick(&mut processors[processor], processor);
}

/// Joins what is kept under this number into the processor's timestamp.
#[inline(always)]
fn take(processors: &mut Vec<Clock>, processor: usize, kept: &NumberedClocks, number: usize)
    requires { processor < vec_len processors.old }
    ensures long { vec_len processors.new ≡ vec_len processors.old }
    ensures joined { ClockEntryJoinedAt (entry processors.old.items) (entry processors.new.items) processor
        (numbered_clock_at kept.now number) }
{
    kept.join_into(number, &mut processors[processor]);
}

/// Counts one more closing event of the processor in its timestamp, and joins that into what is kept under this
/// number.
#[inline(always)]
fn give_event_clock(
    processors: &mut Vec<Clock>,
    processor: usize,
    kept: &mut NumberedClocks,
    number: usize,
) -> Result<(), AllocError>
    requires processor { processor < most_processors }
    requires long { vec_len processors.old ≡ most_processors }
    requires room { entry processors.old.items processor processor < 2 ^ 22 }
    ensures long { vec_len processors.new ≡ vec_len processors.old }
    ensures closed { ClockEntryClosedAt (entry processors.old.items) (entry processors.new.items) processor }
    ensures joined { OnOk result (ClockEntryJoinedAt (numbered_clock_at kept.old) (numbered_clock_at kept.new) number
        (entry processors.new.items processor)) }
{
    close(processors, processor);
    kept.join(number, &processors[processor])
}

impl EventClocks {
    /// The timestamps of this many processors before the first event. The only error is running out of memory.
    pub fn new(alloc: Global, processors: usize) -> Result<EventClocks, AllocError>
        requires { processors ≤ most_processors }
        ensures clocks { IfOk result (λ c. AreClocks [] c) }
        ensures present { IfOk result (λ c. c.present ≡ processors) }
    {
        Ok(EventClocks {
            processors: zero_clocks(alloc, MOST_PROCESSORS)?,
            locks: NumberedClocks::new(alloc),
            flags: NumberedClocks::new(alloc),
            episodes: VecDeque::new(alloc),
            arrivals: [0; MOST_PROCESSORS],
            departures: [0; MOST_PROCESSORS],
            present: processors,
            gone: 0,
        })
    }

    /// The processor's timestamp.
    pub fn of(&self, processor: usize) -> &Clock
        requires { processor < vec_len self.now.processors }
        ensures { (q : ℕ) → slice_index result.now q ≡ entry self.now.processors.items processor q }
    {
        &self.processors[processor]
    }

    /// Takes note of the processor's arrival: closes its interval, and joins its timestamp into what the episode
    /// keeps.
    fn arrive(&mut self, processor: usize) -> Result<(), AllocError>
        requires processor { processor < most_processors }
        requires long { vec_len self.old.processors ≡ most_processors }
        requires room { entry self.old.processors.items processor processor < 2 ^ 22 }
        requires arrivals_room { slice_index self.old.arrivals processor < 2 ^ 22 }
        ensures rest { self.new ≡ record self.old {
          processors = self.new.processors;
          episodes = self.new.episodes;
          arrivals = self.new.arrivals;
        } }
        ensures long { vec_len self.new.processors ≡ vec_len self.old.processors }
        ensures closed { ClockEntryClosedAt (entry self.old.processors.items)
            (entry self.new.processors.items) processor }
        ensures arrived { OnOk result (ClocksAfterArrival self.old self.new processor) }
    {
        close(&mut self.processors, processor);
        let episode = self.arrivals[processor] as usize;
        if self.gone <= episode {
            let own = &self.processors[processor];
            join_clock_in(&mut self.episodes, episode - self.gone, own)?;
        }
        self.arrivals[processor] += 1;
        Ok(())
    }

    /// Takes note of the processor's departure: joins what the episode keeps into its timestamp.
    fn depart(&mut self, processor: usize)
        requires processor { processor < most_processors }
        requires long { vec_len self.old.processors ≡ most_processors }
        requires left { self.old.gone ≤ slice_index self.old.departures processor }
        requires room { slice_index self.old.departures processor < 2 ^ 22 }
        ensures rest { self.new ≡ record self.old {
          processors = self.new.processors;
          departures = self.new.departures;
        } }
        ensures long { vec_len self.new.processors ≡ vec_len self.old.processors }
        ensures joined { ClockEntryJoinedAt (entry self.old.processors.items)
            (entry self.new.processors.items) processor (entry self.old.episodes.items
            (slice_index self.old.departures processor - self.old.gone)) }
        ensures departures { (q : ℕ) → slice_index self.new.departures q
            ≡ slice_index self.old.departures q + cond (processor == q) 1 0 }
    {
        let episode = self.departures[processor] as usize;
        let own = &mut self.processors[processor];
        join_clock_from(own, &self.episodes, episode - self.gone);
        self.departures[processor] += 1;
    }

    /// Lets go of the first episode that is kept, if every processor has departed from it.
    fn let_go(&mut self)
        requires some { 0 < self.old.present }
        requires few { self.old.present ≤ most_processors }
        ensures processors { self.new.processors ≡ self.old.processors }
        ensures locks { self.new.locks ≡ self.old.locks }
        ensures flags { self.new.flags ≡ self.old.flags }
        ensures arrivals { self.new.arrivals ≡ self.old.arrivals }
        ensures departures { self.new.departures ≡ self.old.departures }
        ensures present { self.new.present ≡ self.old.present }
        ensures goes { ((p : ℕ) → p < self.old.present → self.old.gone < slice_index self.old.departures p)
            → self.new.gone ≡ self.old.gone + 1 }
        ensures left { (p : ℕ) → p < self.old.present
            → self.old.gone ≤ slice_index self.old.departures p
            → self.new.gone ≤ slice_index self.old.departures p }
        ensures episodes { (n q : ℕ) → self.new.gone ≤ n → (self.old.gone ≤ n)
            × (entry self.new.episodes.items (n - self.new.gone) q
            ≡ entry self.old.episodes.items (n - self.old.gone) q) }
    {
        if event_clocks_are_past(&self.departures[..self.present], self.gone) {
            let _ = self.episodes.pop_front();
            self.gone += 1;
        }
    }

    /// Takes note of the event at this place, the next one. The only error is running out of memory, after which the
    /// timestamps may be those of no journal.
    pub fn note(&mut self, events: &[Event], place: usize) -> Result<(), AllocError>
        requires place { place < length events.now }
        requires few { length events.now ≤ most_held + most_processors }
        requires processors { EventProcessorsInRange self.old.present events.now }
        requires so_far { AreClocks (take place events.now) self.old }
        ensures clocks { OnOk result (AreClocks (take (place + 1) events.now) self.new) }
        ensures present { OnOk result (self.new.present ≡ self.old.present) }
    {
        let event = events[place];
        let processor = event.processor;
        match event.kind {
            Kind::Load(..) | Kind::Store(..) | Kind::Fetch { .. } => Ok(()),
            Kind::Ask(_) | Kind::Watch(_) => {
                close(&mut self.processors, processor);
                Ok(())
            }
            Kind::Acquire(lock) => {
                take(&mut self.processors, processor, &self.locks, lock);
                Ok(())
            }
            Kind::Await(flag) => {
                take(&mut self.processors, processor, &self.flags, flag);
                Ok(())
            }
            Kind::Release(lock) => give_event_clock(
                &mut self.processors,
                processor,
                &mut self.locks,
                lock,
            ),
            Kind::Set(flag) => give_event_clock(
                &mut self.processors,
                processor,
                &mut self.flags,
                flag,
            ),
            Kind::Arrive => self.arrive(processor),
            Kind::Depart => {
                self.depart(processor);
                self.let_go();
                Ok(())
            }
        }
    }
}
