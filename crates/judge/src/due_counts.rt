//! What fetches have to count, an event at a time.
ghost use Rattle.std.specs.Prelude.{◌≡◌, ℕ, ◌+◌, ◌*◌, ◌<◌, ◌≤◌, ◌^◌, [], ◌∷◌, ◌++◌, IfOk, OnOk, List, cond, nat_lt, slice_index, vec_len};
ghost use Rattle.journal.specs.declared.event.Event.{Event};
ghost use Rattle.journal.specs.declared.event.Kind.TheVariants.{Fetch};
ghost use Rattle.journal.specs.PageImages.{GapCounts};
ghost use Rattle.journal.specs.Prelude.{did, entry};
ghost use Rattle.judge.specs.Prelude.{AreAskedPlaces, AreDueAmountsBetween, AreDueAmountsFew, AreDueFetchedCuts, AreStreamedSizes, DueAmountsAmong, IsDueFetchedCut, IsEventInSizes, IsStoredAsked, TellsDueCounts};
ghost use Rattle.judge.specs.Prelude.{judged_sizes_of, most_judged_events, most_judged_processors};

use crate::asked_places::AskedPlaces;
use crate::cut_rows::known_in;
use crate::cuts::Cuts;
use crate::sizes::Sizes;
use crate::sparse_table::{SparseTable, items_of_row, set_sparse_table_row};
use crate::stored_counts::StoredCounts;
use journal::{Event, Kind};
use std::alloc::{AllocError, Global};

/// What a fetch counts: processors whose stores it brings, intervals of these stores, and words in them.
#[derive(Clone, Copy)]
pub(crate) struct DueAmounts {
    pub(crate) writers: usize,
    pub(crate) records: usize,
    pub(crate) words: usize,
}

/// A history, taken an event at a time, of which it tells what a fetch that comes next has to count.
///
/// Of a page and a processor, the intervals that store in the page are kept that some other processor doesn't know of yet, and
/// one for each processor's last fetch of the page: so the memory goes with how far the processors are apart, not with how long
/// the history is. It takes 12 bytes for each of these, up to twice that, and 4 a processor and 40 more for each page and processor that fetches it. It takes 12
/// for each page and processor that stores in it, 4 for each word and processor that stores there, and what cuts take.
#[derive(Drop)]
pub struct DueCounts {
    /// What each processor knows of the others.
    cuts: Cuts,
    /// Of each page and processor, what the processor knew of the others at its last fetch of the page; zeros before.
    fetched: SparseTable<Vec<u32>>,
    stored: StoredCounts,
}

impl DueAmounts {
    /// Of nothing.
    fn none() -> DueAmounts
        ensures { result ≡ record { writers = 0; records = 0; words = 0 } }
    {
        DueAmounts {
            writers: 0,
            records: 0,
            words: 0,
        }
    }

    /// With those of one more processor, after that many.
    fn and(self, other: DueAmounts, parts: usize) -> DueAmounts
        requires parts { parts < most_judged_processors }
        requires few { AreDueAmountsFew parts self }
        requires other_few { AreDueAmountsFew 1 other }
        ensures few { AreDueAmountsFew (parts + 1) result }
        ensures sum { result ≡ record {
          writers = self.writers + other.writers;
          records = self.records + other.records;
          words = self.words + other.words;
        } }
    {
        DueAmounts {
            writers: self.writers + other.writers,
            records: self.records + other.records,
            words: self.words + other.words,
        }
    }
}

/// How many processors have that many records, where one has all of them.
fn due_writers_of(records: usize) -> usize
    ensures { result ≡ cond (nat_lt 0 records) 1 0 }
{
    usize::from(records > 0)
}

impl DueCounts {
    /// Before the first event. The only error is running out of memory.
    pub fn new(alloc: Global, sizes: Sizes) -> Result<DueCounts, AllocError>
        requires { AreStreamedSizes (judged_sizes_of sizes) }
        ensures tells { IfOk result (TellsDueCounts []) }
        ensures sizes { IfOk result (λ d. d.stored.sizes ≡ sizes) }
    {
        Ok(DueCounts {
            cuts: Cuts::new(alloc, sizes.processors)?,
            fetched: SparseTable::new(alloc, sizes.pages * sizes.processors)?,
            stored: StoredCounts::new(alloc, sizes)?,
        })
    }

    /// What the processor knew of the others at its last fetch of the page; zeros before it.
    fn last_fetch(&self, processor: usize, page: usize) -> &[u32]
        requires tells { (j : List Event) × TellsDueCounts j self.now }
        requires processor { processor < self.now.stored.sizes.processors }
        requires page { page < self.now.stored.sizes.pages }
        ensures { (j : List Event) → TellsDueCounts j self.now
            → IsDueFetchedCut (judged_sizes_of self.now.stored.sizes) j processor page (slice_index result.now) }
    {
        items_of_row(&self.fetched, self.stored.page_row(page, processor))
    }

    /// What `by` has stored in the page between these places, of which it may still be asked: where intervals of it end.
    fn between(&self, page: usize, by: usize, from: u32, to: u32) -> DueAmounts
        requires tells { (j : List Event) × TellsDueCounts j self.now
            × IsStoredAsked (judged_sizes_of self.now.stored.sizes) j page by from
            × IsStoredAsked (judged_sizes_of self.now.stored.sizes) j page by to }
        requires page { page < self.now.stored.sizes.pages }
        requires by { by < self.now.stored.sizes.processors }
        ensures few { AreDueAmountsFew 1 result }
        ensures counts { (j : List Event) → TellsDueCounts j self.now
            → IsStoredAsked (judged_sizes_of self.now.stored.sizes) j page by from
            → IsStoredAsked (judged_sizes_of self.now.stored.sizes) j page by to
            → AreDueAmountsBetween (judged_sizes_of self.now.stored.sizes) j page by from to result }
    {
        if to <= from {
            return DueAmounts::none();
        }
        let all = self.stored.before(page, by, to);
        let had = self.stored.before(page, by, from);
        let records = (all.records - had.records) as usize;
        DueAmounts {
            writers: due_writers_of(records),
            records,
            words: (all.words - had.words) as usize,
        }
    }

    /// What a fetch of the page by this processor has to count of the stores of `by`. `had` is what the processor knew at its
    /// last fetch of the page.
    fn part(&self, processor: usize, page: usize, by: usize, had: &[u32]) -> DueAmounts
        requires tells { (j : List Event) × TellsDueCounts j self.now
            × IsDueFetchedCut (judged_sizes_of self.now.stored.sizes) j processor page (slice_index had.now) }
        requires processor { processor < self.now.stored.sizes.processors }
        requires page { page < self.now.stored.sizes.pages }
        requires by { by < self.now.stored.sizes.processors }
        ensures few { AreDueAmountsFew 1 result }
        ensures counts { (j : List Event) → TellsDueCounts j self.now
            → IsDueFetchedCut (judged_sizes_of self.now.stored.sizes) j processor page (slice_index had.now)
            → DueAmountsAmong (judged_sizes_of self.now.stored.sizes) j processor page (λ q. q ≡ by)
            result.writers result.records result.words }
    {
        if by == processor {
            return DueAmounts::none();
        }
        self.between(
            page,
            by,
            known_in(had, by),
            known_in(self.cuts.of(processor), by),
        )
    }

    /// What a fetch of the page by this processor has to count, if it comes next.
    pub(crate) fn due(&self, processor: usize, page: usize) -> DueAmounts
        requires tells { (j : List Event) × TellsDueCounts j self.now }
        requires processor { processor < self.now.stored.sizes.processors }
        requires page { page < self.now.stored.sizes.pages }
        ensures { (j : List Event) → TellsDueCounts j self.now
            → GapCounts (judged_sizes_of self.now.stored.sizes) j processor page
            result.writers result.records result.words }
    {
        let had = self.last_fetch(processor, page);
        let mut due = DueAmounts::none();
        for by in 0..self.stored.sizes.processors {
            due = due.and(self.part(processor, page, by, had), by);
        }
        due
    }

    /// Keeps what the processor of a fetch of the page, the next event, knows.
    fn fetch(&mut self, processor: usize, page: usize) -> Result<(), AllocError>
        requires tells { (j : List Event) × TellsDueCounts j self.old }
        requires few { self.old.cuts.place < most_judged_events }
        requires processor { processor < self.old.stored.sizes.processors }
        requires page { page < self.old.stored.sizes.pages }
        ensures rest { self.new ≡ record self.old { fetched = self.new.fetched } }
        ensures fetched { OnOk result ((j : List Event) → TellsDueCounts j self.old → (writers records words : ℕ)
            → AreDueFetchedCuts (judged_sizes_of self.old.stored.sizes) (did j processor (Fetch writers page records words)) self.new.fetched) }
    {
        let row = self.stored.page_row(page, processor);
        set_sparse_table_row(&mut self.fetched, row, self.cuts.of(processor))
    }

    /// Keeps what its processor knows, if the event, which comes next, is a fetch.
    fn keep(&mut self, event: Event) -> Result<(), AllocError>
        requires tells { (j : List Event) × TellsDueCounts j self.old }
        requires few { self.old.cuts.place < most_judged_events }
        requires within { IsEventInSizes (judged_sizes_of self.old.stored.sizes) event }
        ensures rest { self.new ≡ record self.old { fetched = self.new.fetched } }
        ensures fetched { OnOk result ((j : List Event) → TellsDueCounts j self.old
            → AreDueFetchedCuts (judged_sizes_of self.old.stored.sizes) (j ++ event ∷ []) self.new.fetched) }
    {
        match event.kind {
            Kind::Fetch { page, .. } => self.fetch(event.processor, page),
            _ => Ok(()),
        }
    }

    /// The places of which it may still be asked what `by` had stored in the page before them. The only error is running out of
    /// memory.
    fn asked_places(&self, page: usize, by: usize) -> Result<AskedPlaces, AllocError>
        requires tells { (j : List Event) × TellsDueCounts j self.now }
        requires page { page < self.now.stored.sizes.pages }
        requires by { by < self.now.stored.sizes.processors }
        ensures { IfOk result (λ asked. (j : List Event) → TellsDueCounts j self.now
            → AreAskedPlaces (judged_sizes_of self.now.stored.sizes) j page by self.now.stored.sizes.processors asked) }
    {
        let mut asked = AskedPlaces::from_place(*self.fetched.kept.allocator(), self.cuts.place);
        for processor in 0..self.stored.sizes.processors {
            if processor != by {
                let known = known_in(self.cuts.of(processor), by);
                let fetched = known_in(self.last_fetch(processor, page), by);
                asked.add(known, fetched)?;
            }
        }
        Ok(asked)
    }

    /// Lets go of what no fetch may ask any more of the stores of `by` in the page. The only error is running out of memory,
    /// after which it may tell no history.
    fn let_go(&mut self, page: usize, by: usize) -> Result<(), AllocError>
        requires tells { (j : List Event) × TellsDueCounts j self.old }
        requires page { page < self.old.stored.sizes.pages }
        requires by { by < self.old.stored.sizes.processors }
        ensures sizes { self.new.stored.sizes ≡ self.old.stored.sizes }
        ensures tells { OnOk result ((j : List Event) → TellsDueCounts j self.old → TellsDueCounts j self.new) }
    {
        let asked = self.asked_places(page, by)?;
        self.stored.let_go(page, by, &asked)
    }

    /// Lets go of what no fetch may ask any more of the stores of the event's processor in the page, if the event is a store. The
    /// only error is running out of memory, after which it may tell no history.
    fn let_go_after(&mut self, event: Event) -> Result<(), AllocError>
        requires tells { (j : List Event) × TellsDueCounts j self.old }
        requires within { IsEventInSizes (judged_sizes_of self.old.stored.sizes) event }
        ensures sizes { self.new.stored.sizes ≡ self.old.stored.sizes }
        ensures tells { OnOk result ((j : List Event) → TellsDueCounts j self.old → TellsDueCounts j self.new) }
    {
        match event.kind {
            Kind::Store(address, _) => {
                self.let_go(address / self.stored.sizes.words, event.processor)
            }
            _ => Ok(()),
        }
    }

    /// Takes note of the event, which comes next: whether it is a store, and there is no room then for one more interval of its
    /// processor that stores in the page. The only error is running out of memory, after which it may tell no history.
    fn count(&mut self, event: Event) -> Result<bool, AllocError>
        requires so_far { (j : List Event) × TellsDueCounts j self.old }
        requires few { self.old.cuts.place < most_judged_events }
        requires within { IsEventInSizes (judged_sizes_of self.old.stored.sizes) event }
        ensures sizes { self.new.stored.sizes ≡ self.old.stored.sizes }
        ensures tells { OnOk result ((j : List Event) → TellsDueCounts j self.old → TellsDueCounts (j ++ event ∷ []) self.new) }
    {
        self.keep(event)?;
        let is_full = self.stored.note(event, self.cuts.place)?;
        self.cuts.note(event)?;
        Ok(is_full)
    }

    /// Takes note of the event, which comes next. The only error is running out of memory, after which it may tell no history.
    pub fn note(&mut self, event: Event) -> Result<(), AllocError>
        requires so_far { (j : List Event) × TellsDueCounts j self.old }
        requires few { self.old.cuts.place < most_judged_events }
        requires within { IsEventInSizes (judged_sizes_of self.old.stored.sizes) event }
        ensures sizes { self.new.stored.sizes ≡ self.old.stored.sizes }
        ensures tells { OnOk result ((j : List Event) → TellsDueCounts j self.old → TellsDueCounts (j ++ event ∷ []) self.new) }
    {
        if self.count(event)? {
            return self.let_go_after(event);
        }
        Ok(())
    }
}
