//! What a trace costs on pages of one size.
ghost use Rattle.std.specs.Prelude.{◌≡◌, ◌+◌, ◌*◌, ◌<◌, ◌≤◌, ◌^◌, ℕ, [], ◌∷◌, ◌++◌, IfOk, IsTrue, List, OnOk, Option, length};
ghost use Rattle.journal.specs.declared.event.Event.{Event};
ghost use Rattle.journal.specs.declared.event.Kind.{Kind};
ghost use Rattle.journal.specs.BroughtCopy.{BroughtCopyHasNoGap};
ghost use Rattle.judge.specs.Prelude.{AreStreamedSizes, IsEventInSizes, judged_sizes_of, most_judged_events};
ghost use Rattle.lrc_pages.specs.declared.paged_history.PagedFault.TheVariants as paged;
ghost use Rattle.lrc_pages.specs.Prelude.{AccessesPage, IsDueFetch, IsFetchedAccess, IsFetchMade, IsFetchedByKind, AreReadInSizes, IsPagedHistoryOf, IsPagedTraceOf, IsReadInSizes, did_if, due_fetch, is_a_fetch};

use crate::page_tallies::PageTallies;
use crate::page_traffic::PageTraffic;
use crate::touched_pages::{TouchedPages, page_accessed};
use crate::whole_copies::WholeCopies;
use journal::{Event, Kind};
use judge::{DueCounts, MOST_JUDGED_EVENTS, Miscounted, Sizes, miscount};
use std::alloc::{AllocError, Global};

/// Why a trace can't be told any further.
#[derive(Clone, Copy, Debug, Drop)]
pub enum PagedFault {
    /// With its fetches it has more events than a history may have.
    Full,
    /// Memory ran out.
    NoMemory,
}

/// A trace that is told an event at a time, of which it makes the fetches on pages of one size, and counts what they cost.
///
/// It takes the memory of a `DueCounts`, four bytes for each page and processor that accesses any, and 17 for each page.
#[derive(Drop)]
pub struct PagedHistory {
    sizes: Sizes,
    /// How many events there are with the fetches.
    count: usize,
    counts: DueCounts,
    copies: WholeCopies,
    touched: TouchedPages,
    tallies: PageTallies,
    traffic: PageTraffic,
}

/// The fetch of the page that has to count this; None if it counts no record.
fn due_fetch_of(page: usize, due: Miscounted) -> Option<Kind>
    requires few { (due.writers < 2 ^ 32) × (due.records < 2 ^ 32) × (due.words < 2 ^ 32) }
    ensures { result ≡ due_fetch page due.writers due.records due.words }
{
    if due.records == 0 {
        return None;
    }
    Some(Kind::Fetch {
        writers: due.writers as u32,
        page,
        records: due.records as u32,
        words: due.words as u32,
    })
}

/// Whether it is a fetch.
fn is_fetch(kind: Kind) -> bool
    ensures { result ≡ is_a_fetch kind }
{
    match kind {
        Kind::Fetch { .. } => true,
        _ => false,
    }
}

impl PagedHistory {
    /// Before the first event of a trace of these sizes. The only error is running out of memory.
    pub fn new(alloc: Global, sizes: Sizes) -> Result<PagedHistory, AllocError>
        requires sizes { AreStreamedSizes (judged_sizes_of sizes) }
        requires words { 0 < sizes.words }
        ensures told { IfOk result (IsPagedTraceOf []) }
        ensures sizes { IfOk result (λ x. x.sizes ≡ sizes) }
    {
        Ok(PagedHistory {
            sizes,
            count: 0,
            copies: WholeCopies::new(alloc, sizes.processors, sizes.pages)?,
            touched: TouchedPages::new(alloc, sizes.pages)?,
            tallies: PageTallies::new(alloc, sizes.pages)?,
            traffic: PageTraffic::default(),
            counts: DueCounts::new(alloc, sizes)?,
        })
    }

    /// How many words a page has.
    pub fn words(&self) -> usize
        ensures { result ≡ self.now.sizes.words }
    {
        self.sizes.words
    }

    /// What the history costs.
    pub fn traffic(&self) -> PageTraffic
        ensures { result ≡ self.now.traffic }
    {
        self.traffic
    }

    /// How many processors there are.
    pub fn processors(&self) -> usize
        ensures { result ≡ self.now.sizes.processors }
    {
        self.sizes.processors
    }

    /// How often each page is fetched, and what that brings.
    pub(crate) fn tallies(&self) -> &PageTallies
        ensures { result.now ≡ self.now.tallies }
    {
        &self.tallies
    }

    /// How many pages are accessed.
    pub fn touched(&self) -> usize
        ensures { result ≡ self.now.touched.count }
    {
        self.touched.count()
    }

    /// The fetch of the page that the processor has to make; None if its copy lacks nothing.
    fn due(&self, processor: usize, page: usize) -> Option<Kind>
        requires told { (h : List Event) × IsPagedHistoryOf h self.now }
        requires processor { processor < self.now.sizes.processors }
        requires page { page < self.now.sizes.pages }
        ensures { (h : List Event) → IsPagedHistoryOf h self.now
            → IsDueFetch (judged_sizes_of self.now.sizes) h processor page result }
    {
        let fetch = Kind::Fetch {
            writers: 0,
            page,
            records: 0,
            words: 0,
        };
        let event = Event {
            processor,
            kind: fetch,
        };
        match miscount(&self.counts, event, 0) {
            None => None,
            Some(due) => due_fetch_of(page, due),
        }
    }

    /// Takes note of the event, which comes next. After an error it may tell no history.
    fn note(&mut self, event: Event) -> Result<(), PagedFault>
        requires told { (h : List Event) × IsPagedHistoryOf h self.old }
        requires within { IsEventInSizes (judged_sizes_of self.old.sizes) event }
        ensures sizes { self.new.sizes ≡ self.old.sizes }
        ensures told { OnOk result ((h : List Event) → IsPagedHistoryOf h self.old → IsPagedHistoryOf (h ++ event ∷ []) self.new) }
    {
        if self.count >= MOST_JUDGED_EVENTS {
            return Err(PagedFault::Full);
        }
        self.counts.note(event)?;
        self.count += 1;
        self.copies.note(event);
        self.touched
            .note(event, page_accessed(event.kind, self.sizes.words));
        self.tallies.note(event);
        self.traffic.count(event);
        Ok(())
    }

    /// Makes the fetch of the page that the processor has to make, if any. After an error it may tell no history.
    fn make_due(&mut self, processor: usize, page: usize) -> Result<(), PagedFault>
        requires told { (h : List Event) × IsPagedHistoryOf h self.old }
        requires processor { processor < self.old.sizes.processors }
        requires page { page < self.old.sizes.pages }
        ensures sizes { self.new.sizes ≡ self.old.sizes }
        ensures made { OnOk result ((h : List Event) → IsPagedHistoryOf h self.old
            → IsFetchMade (judged_sizes_of self.old.sizes) h processor page self.new) }
    {
        match self.due(processor, page) {
            None => Ok(()),
            Some(kind) => self.note(Event { processor, kind }),
        }
    }

    /// The same, if the processor's copy isn't known to lack nothing. After an error it may tell no history.
    fn bring(&mut self, processor: usize, page: usize) -> Result<(), PagedFault>
        requires told { (h : List Event) × IsPagedHistoryOf h self.old }
        requires processor { processor < self.old.sizes.processors }
        requires page { page < self.old.sizes.pages }
        ensures sizes { self.new.sizes ≡ self.old.sizes }
        ensures made { OnOk result ((h : List Event) → IsPagedHistoryOf h self.old
            → IsFetchMade (judged_sizes_of self.old.sizes) h processor page self.new) }
    {
        if self.copies.is_whole(processor, page) {
            return Ok(());
        }
        self.make_due(processor, page)?;
        self.copies.find(processor, page)?;
        Ok(())
    }

    /// Takes note of the next event of the trace: makes the fetch that has to stand before it, if any; a fetch of the trace is
    /// left out. After an error it may tell no trace.
    pub fn read(&mut self, event: Event) -> Result<(), PagedFault>
        requires told { (j : List Event) × IsPagedTraceOf j self.old }
        requires within { IsReadInSizes (judged_sizes_of self.old.sizes) event }
        ensures sizes { self.new.sizes ≡ self.old.sizes }
        ensures told { OnOk result ((j : List Event) → IsPagedTraceOf j self.old → IsPagedTraceOf (j ++ event ∷ []) self.new) }
    {
        if is_fetch(event.kind) {
            return Ok(());
        }
        if let Some(page) = page_accessed(event.kind, self.sizes.words) {
            self.bring(event.processor, page)?;
            return self.note(event);
        }
        self.note(event)
    }

    /// The same of these events, in order.
    pub fn read_all(&mut self, events: &[Event]) -> Result<(), PagedFault>
        requires told { (j : List Event) × IsPagedTraceOf j self.old }
        requires within { AreReadInSizes (judged_sizes_of self.old.sizes) events.now }
        ensures sizes { self.new.sizes ≡ self.old.sizes }
        ensures told { OnOk result ((j : List Event) → IsPagedTraceOf j self.old → IsPagedTraceOf (j ++ events.now) self.new) }
    {
        for at in 0..events.len() {
            self.read(events[at])?;
        }
        Ok(())
    }
}

impl From<AllocError> for PagedFault {
    ghost from_gives = { λ _ fault. fault ≡ paged.NoMemory };

    fn from(_error: AllocError) -> PagedFault {
        PagedFault::NoMemory
    }
}
