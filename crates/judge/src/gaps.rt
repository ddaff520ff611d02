//! What copies of pages lack.
ghost use Rattle.std.specs.Prelude.{◌≡◌, ℕ, ◌+◌, ◌*◌, ◌<◌, ◌≤◌, ◌^◌, [], ◌∷◌, ◌++◌, IfOk, OnOk, List, Some, length};
ghost use Rattle.std.specs.Prelude.{cond, nat_lt, slice_get, slice_index, take};
ghost use Rattle.base.specs.Prelude.{most_processors};
ghost use Rattle.journal.specs.declared.event.Event.{Event};
ghost use Rattle.journal.specs.declared.event.Kind.TheVariants.{Fetch, Store};
ghost use Rattle.journal.specs.Prelude.{HasPageImageCount, IsTimeOf, did};
ghost use Rattle.judge.specs.Prelude.{AreFetchGapsOf, AreFetchGapsLong, AreJudgedSizes, IsEventInSizes, TellsFetchGaps, judged_sizes_of};
ghost use Rattle.judge.specs.Prelude.{FetchGapBroughtUpTo, FetchGapStoreInPage, gap_tally_place_of, most_in_sized_history, judged_sizes_most_addresses};

use crate::gap_tally::GapTally;
use crate::sizes::Sizes;
use crate::sparse_table::SparseTable;
use base::MOST_PROCESSORS;
use journal::{Clock, Event, EventClocks, Kind};
use std::alloc::{AllocError, Global};

/// A history, taken an event at a time, of which it tells what copies of pages lack: up to which intervals of others the fetches
/// of a page have brought, and in how many of its intervals a processor stores in it.
///
/// It takes memory for the pages that are stored in and fetched, by processor, and four bytes for each first store of an interval
/// to a page.
#[derive(Drop)]
pub struct Gaps {
    pub(crate) sizes: Sizes,
    pub(crate) clocks: EventClocks,
    /// Of each page and processor the timestamp that the processor had at its last fetch of the page; zeros before.
    pub(crate) fetched: SparseTable<Clock>,
    /// Of each page and processor the intervals in which it stores in the page, each once.
    pub(crate) intervals: GapTally,
}

/// Where it is kept what there is of a page and a processor.
fn gap_row_at(page: usize, processor: usize) -> usize
    requires processor { processor < most_processors }
    requires page { page ≤ judged_sizes_most_addresses }
    ensures { result ≡ gap_tally_place_of page processor }
{
    page * MOST_PROCESSORS + processor
}

impl Gaps {
    /// Before the first event. The only error is running out of memory.
    pub fn new(alloc: Global, sizes: Sizes) -> Result<Gaps, AllocError>
        requires { AreJudgedSizes (judged_sizes_of sizes) }
        ensures tells { IfOk result (TellsFetchGaps []) }
        ensures sizes { IfOk result (λ g. g.sizes ≡ sizes) }
    {
        let rows = sizes.pages * MOST_PROCESSORS;
        Ok(Gaps {
            sizes,
            clocks: EventClocks::new(alloc, sizes.processors)?,
            fetched: SparseTable::new(alloc, rows)?,
            intervals: GapTally::new(alloc, rows, rows)?,
        })
    }

    /// How many pages there are.
    pub fn pages(&self) -> usize
        ensures { result ≡ self.now.sizes.pages }
    {
        self.sizes.pages
    }

    /// The processor's timestamp.
    pub fn time(&self, processor: usize) -> &Clock
        requires tells { (j : List Event) × TellsFetchGaps j self.now }
        requires processor { processor < most_processors }
        ensures { (j : List Event) → TellsFetchGaps j self.now → IsTimeOf j processor (slice_index result.now) }
    {
        self.clocks.of(processor)
    }

    /// The timestamp that the processor had at its last fetch of the page; zeros before it. It tells which stores of others
    /// its fetches of the page have brought.
    pub fn last_fetch(&self, processor: usize, page: usize) -> Clock
        requires tells { (j : List Event) × TellsFetchGaps j self.now }
        requires processor { processor < most_processors }
        requires page { page < self.now.sizes.pages }
        ensures { (j : List Event) → TellsFetchGaps j self.now
            → FetchGapBroughtUpTo (judged_sizes_of self.now.sizes) j processor page (slice_index result) }
    {
        self.fetched
            .get(gap_row_at(page, processor))
            .unwrap_or([0; MOST_PROCESSORS])
    }

    /// In how many of its intervals from `from` on and below `to` the processor `by` stores in the page. They are found by
    /// halving.
    pub fn records(&self, page: usize, by: usize, from: u32, to: u32) -> usize
        requires tells { (j : List Event) × TellsFetchGaps j self.now }
        requires page { page < self.now.sizes.pages }
        requires by { by < most_processors }
        ensures { (j : List Event) → TellsFetchGaps j self.now
            → HasPageImageCount (λ k. FetchGapStoreInPage (judged_sizes_of self.now.sizes) j page by k × (from ≤ k) × (k < to)) result }
    {
        self.intervals.count(gap_row_at(page, by), from, to)
    }

    /// Tallies a store of the processor to the address, the next event.
    fn tally(&mut self, processor: usize, address: usize) -> Result<(), AllocError>
        requires tells { (j : List Event) × TellsFetchGaps j self.old × (length j < 2 ^ 22) }
        requires processor { processor < self.old.sizes.processors }
        requires address { address < self.old.sizes.pages * self.old.sizes.words }
        ensures sizes { self.new.sizes ≡ self.old.sizes }
        ensures clocks { self.new.clocks ≡ self.old.clocks }
        ensures long { OnOk result (AreFetchGapsLong self.new) }
        ensures kept { OnOk result ((j : List Event) → TellsFetchGaps j self.old → (v : ℕ)
            → AreFetchGapsOf (did j processor (Store address v)) self.new) }
    {
        let interval = self.clocks.of(processor)[processor];
        let row = gap_row_at(address / self.sizes.words, processor);
        self.intervals.add(row, row, interval)
    }

    /// Takes note of a fetch of the page by the processor, the next event.
    fn fetch(&mut self, processor: usize, page: usize) -> Result<(), AllocError>
        requires tells { (j : List Event) × TellsFetchGaps j self.old × (length j < 2 ^ 22) }
        requires processor { processor < self.old.sizes.processors }
        requires page { page < self.old.sizes.pages }
        ensures sizes { self.new.sizes ≡ self.old.sizes }
        ensures clocks { self.new.clocks ≡ self.old.clocks }
        ensures long { OnOk result (AreFetchGapsLong self.new) }
        ensures kept { OnOk result ((j : List Event) → TellsFetchGaps j self.old → (writers records words : ℕ)
            → AreFetchGapsOf (did j processor (Fetch writers page records words)) self.new) }
    {
        let time = *self.clocks.of(processor);
        self.fetched.set(gap_row_at(page, processor), time)
    }

    /// Keeps what the event changes, which comes next, but for the timestamps so far.
    fn keep(&mut self, event: Event) -> Result<(), AllocError>
        requires tells { (j : List Event) × TellsFetchGaps j self.old × (length j < 2 ^ 22) }
        requires within { IsEventInSizes (judged_sizes_of self.old.sizes) event }
        ensures sizes { self.new.sizes ≡ self.old.sizes }
        ensures clocks { self.new.clocks ≡ self.old.clocks }
        ensures long { OnOk result (AreFetchGapsLong self.new) }
        ensures kept { OnOk result ((j : List Event) → TellsFetchGaps j self.old → AreFetchGapsOf (j ++ event ∷ []) self.new) }
    {
        match event.kind {
            Kind::Store(address, _) => self.tally(event.processor, address),
            Kind::Fetch { page, .. } => self.fetch(event.processor, page),
            _ => Ok(()),
        }
    }

    /// Takes note of the event at this place, the next one. The only error is running out of memory, after which they
    /// may tell no history.
    pub fn note(&mut self, events: &[Event], place: usize) -> Result<(), AllocError>
        requires place { place < length events.now }
        requires few { length events.now ≤ most_in_sized_history }
        requires within { (k : ℕ) (e : Event) → slice_get events.now k ≡ Some e
            → IsEventInSizes (judged_sizes_of self.old.sizes) e }
        requires so_far { TellsFetchGaps (take place events.now) self.old }
        ensures sizes { self.new.sizes ≡ self.old.sizes }
        ensures tells { OnOk result (TellsFetchGaps (take (place + 1) events.now) self.new) }
    {
        self.keep(events[place])?;
        self.clocks.note(events, place)
    }
}
