//! What the processors of a history know of each other, an event at a time.
ghost use Rattle.std.specs.Prelude.{◌≡◌, ◌↔◌, ℕ, ◌+◌, ◌-◌, ◌<◌, ◌≤◌, ◌==◌, [], ◌∷◌, ◌++◌, IsTrue, EachIndex, IfOk, OnOk};
ghost use Rattle.std.specs.Prelude.{List, cond, length, slice_index};
ghost use Rattle.journal.specs.declared.event.Event.{Event};
ghost use Rattle.journal.specs.Prelude.{EventProcessorsInRange};
ghost use Rattle.judge.specs.Prelude.{AreCuts, AreCutsLong, CutEntriesJoinedAt, CutEntriesMarkedAt, CutsAfterArrival, cut_entry, numbered_cut_at};
ghost use Rattle.judge.specs.Prelude.{most_judged_events, most_judged_processors};

use crate::cut_rows::CutRows;
use crate::numbered_cuts::NumberedCuts;
use journal::{Event, Kind};
use std::alloc::{AllocError, Global};

/// What is known after a history of at most 2^31 - 1 events: by each processor of the others, and what each lock, each flag
/// and each episode of the barrier keeps. The history need not be one that a cluster can make.
///
/// A processor's own entry in its cut is of use only where it hands on what it knows, so it is written there alone, and
/// accesses change no cut. It takes memory in the order of the locks, flags and open episodes, however long the history is.
#[derive(Drop)]
pub struct Cuts {
    processors: CutRows,
    locks: NumberedCuts,
    flags: NumberedCuts,
    episodes: CutRows,
    arrivals: Vec<u32>,
    departures: Vec<u32>,
    /// The number of processors.
    present: usize,
    /// How many episodes every processor has departed from: `episodes` begins with the next one.
    gone: usize,
    /// How many events there are.
    pub(crate) place: usize,
}

/// Whether each of the counts is past this number.
fn episode_counts_are_past(counts: &[u32], number: usize) -> bool
    ensures { IsTrue result ↔ EachIndex counts.now (λ k. number < slice_index counts.now k) }
{
    counts.iter().all(|count| *count as usize > number)
}

impl Cuts {
    /// What this many processors know before the first event. The only error is running out of memory.
    pub fn new(alloc: Global, processors: usize) -> Result<Cuts, AllocError>
        requires { processors ≤ most_judged_processors }
        ensures cuts { IfOk result (AreCuts []) }
        ensures present { IfOk result (λ c. c.present ≡ processors) }
    {
        Ok(Cuts {
            processors: CutRows::zeros(alloc, processors, processors)?,
            locks: NumberedCuts::new(alloc, processors),
            flags: NumberedCuts::new(alloc, processors),
            episodes: CutRows::new(alloc, processors),
            arrivals: vec![in alloc; 0; processors]?,
            departures: vec![in alloc; 0; processors]?,
            present: processors,
            gone: 0,
            place: 0,
        })
    }

    /// What the processor knows of the others: of each, the place up to which its events are known. The processor's own entry
    /// tells nothing.
    pub fn of(&self, processor: usize) -> &[u32]
        requires { processor < self.now.processors.count }
        ensures long { length result.now ≡ self.now.processors.width }
        ensures entries { (q : ℕ) → slice_index result.now q ≡ cut_entry self.now.processors processor q }
    {
        self.processors.row(processor)
    }

    /// Takes note of the processor's release of a lock at this place: joins what it knows into what the lock keeps.
    fn release(&mut self, processor: usize, lock: usize, place: usize) -> Result<(), AllocError>
        requires processor { processor < self.old.present }
        requires long { AreCutsLong self.old }
        requires place { place < most_judged_events }
        ensures rest { self.new ≡ record self.old {
          processors = self.new.processors;
          locks = self.new.locks;
        } }
        ensures long { AreCutsLong self.new }
        ensures marked { CutEntriesMarkedAt (cut_entry self.old.processors) (cut_entry self.new.processors) processor
            processor (place + 1) }
        ensures joined { OnOk result (CutEntriesJoinedAt (numbered_cut_at self.old.locks) (numbered_cut_at self.new.locks)
            lock (cut_entry self.new.processors processor)) }
    {
        self.processors
            .mark(processor, processor, (place + 1) as u32);
        self.locks.join(lock, self.processors.row(processor))
    }

    /// Takes note of the processor's set of a flag at this place: joins what it knows into what the flag keeps.
    fn set_flag(&mut self, processor: usize, flag: usize, place: usize) -> Result<(), AllocError>
        requires processor { processor < self.old.present }
        requires long { AreCutsLong self.old }
        requires place { place < most_judged_events }
        ensures rest { self.new ≡ record self.old {
          processors = self.new.processors;
          flags = self.new.flags;
        } }
        ensures long { AreCutsLong self.new }
        ensures marked { CutEntriesMarkedAt (cut_entry self.old.processors) (cut_entry self.new.processors) processor
            processor (place + 1) }
        ensures joined { OnOk result (CutEntriesJoinedAt (numbered_cut_at self.old.flags) (numbered_cut_at self.new.flags)
            flag (cut_entry self.new.processors processor)) }
    {
        self.processors
            .mark(processor, processor, (place + 1) as u32);
        self.flags.join(flag, self.processors.row(processor))
    }

    /// Takes note of the processor's arrival at this place: joins what it knows into what the episode keeps.
    fn arrive(&mut self, processor: usize, place: usize) -> Result<(), AllocError>
        requires processor { processor < self.old.present }
        requires long { AreCutsLong self.old }
        requires place { place < most_judged_events }
        requires arrivals_room { slice_index self.old.arrivals.items processor < most_judged_events }
        ensures rest { self.new ≡ record self.old {
          processors = self.new.processors;
          episodes = self.new.episodes;
          arrivals = self.new.arrivals;
        } }
        ensures long { AreCutsLong self.new }
        ensures marked { CutEntriesMarkedAt (cut_entry self.old.processors) (cut_entry self.new.processors) processor
            processor (place + 1) }
        ensures arrived { OnOk result (CutsAfterArrival self.old self.new processor) }
    {
        self.processors
            .mark(processor, processor, (place + 1) as u32);
        let episode = self.arrivals[processor] as usize;
        if self.gone <= episode {
            let own = self.processors.row(processor);
            self.episodes.join_in(episode - self.gone, own)?;
        }
        self.arrivals[processor] += 1;
        Ok(())
    }

    /// Takes note of the processor's departure: joins what the episode keeps into what it knows.
    fn depart(&mut self, processor: usize)
        requires processor { processor < self.old.present }
        requires long { AreCutsLong self.old }
        requires left { self.old.gone ≤ slice_index self.old.departures.items processor }
        requires room { slice_index self.old.departures.items processor < most_judged_events }
        ensures rest { self.new ≡ record self.old {
          processors = self.new.processors;
          departures = self.new.departures;
        } }
        ensures long { AreCutsLong self.new }
        ensures joined { CutEntriesJoinedAt (cut_entry self.old.processors) (cut_entry self.new.processors) processor
            (cut_entry self.old.episodes (slice_index self.old.departures.items processor - self.old.gone)) }
        ensures departures { (q : ℕ) → slice_index self.new.departures.items q
            ≡ slice_index self.old.departures.items q + cond (processor == q) 1 0 }
    {
        let episode = self.departures[processor] as usize;
        let kept = self.episodes.row(episode - self.gone);
        self.processors.join(processor, kept);
        self.departures[processor] += 1;
    }

    /// Lets go of the first episode that is kept, if every processor has departed from it.
    fn let_go(&mut self)
        requires some { 0 < self.old.present }
        requires long { AreCutsLong self.old }
        requires room { self.old.gone < most_judged_events }
        ensures long { AreCutsLong self.new }
        ensures rest { self.new ≡ record self.old { episodes = self.new.episodes; gone = self.new.gone } }
        ensures goes { ((p : ℕ) → p < self.old.present → self.old.gone < slice_index self.old.departures.items p)
            → self.new.gone ≡ self.old.gone + 1 }
        ensures left { (p : ℕ) → p < self.old.present
            → self.old.gone ≤ slice_index self.old.departures.items p
            → self.new.gone ≤ slice_index self.old.departures.items p }
        ensures episodes { (n q : ℕ) → self.new.gone ≤ n → (self.old.gone ≤ n)
            × (cut_entry self.new.episodes (n - self.new.gone) q
            ≡ cut_entry self.old.episodes (n - self.old.gone) q) }
    {
        if episode_counts_are_past(&self.departures, self.gone) {
            self.episodes.let_go_of_first();
            self.gone += 1;
        }
    }

    /// Takes note of the event, which comes next. The only error is running out of memory, after which the cuts may be
    /// those of no history.
    pub fn note(&mut self, event: Event) -> Result<(), AllocError>
        requires few { self.old.place < most_judged_events }
        requires processor { event.processor < self.old.present }
        requires so_far { (j : List Event) × AreCuts j self.old }
        ensures cuts { OnOk result ((j : List Event) → AreCuts j self.old
            → EventProcessorsInRange self.old.present j → AreCuts (j ++ event ∷ []) self.new) }
        ensures present { self.new.present ≡ self.old.present }
    {
        let place = self.place;
        let processor = event.processor;
        self.place += 1;
        match event.kind {
            Kind::Acquire(lock) => {
                self.processors.join(processor, self.locks.cut(lock));
                Ok(())
            }
            Kind::Await(flag) => {
                self.processors.join(processor, self.flags.cut(flag));
                Ok(())
            }
            Kind::Release(lock) => self.release(processor, lock, place),
            Kind::Set(flag) => self.set_flag(processor, flag, place),
            Kind::Arrive => self.arrive(processor, place),
            Kind::Depart => {
                self.depart(processor);
                self.let_go();
                Ok(())
            }
            Kind::Load(..) | Kind::Store(..) | Kind::Fetch { .. } | Kind::Ask(_) | Kind::Watch(_) =>
                Ok(()),
        }
    }
}
