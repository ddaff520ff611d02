//! What the processors of a history have stored in its pages, an event at a time.
ghost use Rattle.std.specs.Prelude.{◌≡◌, ◌==◌, ℕ, cond, ◌+◌, ◌-◌, ◌*◌, ◌<◌, ◌≤◌, ◌^◌, [], ◌∷◌, ◌++◌, IfOk, OnOk, List, length, take, slice_index, vec_len};
ghost use Rattle.journal.specs.declared.event.Event.{Event};
ghost use Rattle.journal.specs.declared.event.Kind.TheVariants.{Store};
ghost use Rattle.journal.specs.Prelude.{did, event_closes};
ghost use Rattle.judge.specs.Prelude.{AreAskedPlaces, AreStoredAmounts, AreStoredCountsOf, AreStreamedSizes, IsEventInSizes, IsSparse, IsStoredAsked};
ghost use Rattle.judge.specs.Prelude.{StoredStepAdds, asked_steps_from, judged_sizes_of, most_judged_events, most_judged_processors, most_sparse_values, sparse_at, sparse_room, sparse_row, stored_row, stored_total};

use crate::asked_places::AskedPlaces;
use crate::sizes::Sizes;
use crate::sparse_table::{
    SparseTable, is_sparse_table_row_full, items_of_row, push_in_sparse_table_row,
    replace_sparse_table_row,
};
use crate::stored_steps::{StoredAmounts, StoredStep, StoredTotal, amounts_before, asked_steps};
use journal::{Event, Kind};
use std::alloc::{AllocError, Global};

/// What each processor has stored in each page: in all, and before each place of which it may still be asked, where one of its
/// intervals ends.
///
/// Of a page and a processor it keeps each interval that stores in the page and of which some other processor doesn't know yet.
/// It also keeps the first one after each other processor's last fetch of the page. The others go when the row is full. It takes 12 bytes
/// for each that is kept, up to twice that, 12 for each processor and page that it stores in, and 4 for each processor and word.
#[derive(Drop)]
pub(crate) struct StoredCounts {
    pub(crate) sizes: Sizes,
    /// How many intervals each processor has closed.
    closed: Vec<u32>,
    /// Of each page and processor, where its intervals first store in the page, in order.
    steps: SparseTable<Vec<StoredStep>>,
    /// Of each page and processor, what is stored in all.
    totals: SparseTable<StoredTotal>,
    /// Of each address and processor, one more than the number of the last interval that stored there; 0 where none did.
    words: SparseTable<u32>,
}

/// Whether an event of this kind closes its processor's interval.
fn closes_interval(kind: Kind) -> bool
    ensures { result ≡ event_closes kind }
{
    match kind {
        Kind::Ask(_) | Kind::Release(_) | Kind::Arrive | Kind::Set(_) | Kind::Watch(_) => true,
        _ => false,
    }
}

impl StoredCounts {
    /// Before the first event. The only error is running out of memory.
    pub(crate) fn new(alloc: Global, sizes: Sizes) -> Result<StoredCounts, AllocError>
        requires { AreStreamedSizes (judged_sizes_of sizes) }
        ensures tells { IfOk result (AreStoredCountsOf []) }
        ensures sizes { IfOk result (λ c. c.sizes ≡ sizes) }
    {
        let rows = sizes.pages * sizes.processors;
        let words = sizes.pages * sizes.words * sizes.processors;
        Ok(StoredCounts {
            sizes,
            closed: vec![in alloc; 0; sizes.processors]?,
            steps: SparseTable::new(alloc, rows)?,
            totals: SparseTable::new(alloc, rows)?,
            words: SparseTable::new(alloc, words)?,
        })
    }

    /// Where it is kept what there is of the page and the processor.
    pub(crate) fn page_row(&self, page: usize, processor: usize) -> usize
        requires fits { self.now.sizes.pages * self.now.sizes.processors < 2 ^ 64 }
        requires page { page < self.now.sizes.pages }
        requires processor { processor < self.now.sizes.processors }
        ensures is { result ≡ stored_row self.now.sizes.processors page processor }
        ensures within { result + (self.now.sizes.processors - processor) ≤ self.now.sizes.pages * self.now.sizes.processors }
    {
        page * self.sizes.processors + processor
    }

    /// Where it is kept what there is of the address and the processor.
    fn word_row(&self, address: usize, processor: usize) -> usize
        requires fits { (self.now.sizes.pages * self.now.sizes.words) * self.now.sizes.processors < 2 ^ 64 }
        requires address { address < self.now.sizes.pages * self.now.sizes.words }
        requires processor { processor < self.now.sizes.processors }
        ensures is { result ≡ stored_row self.now.sizes.processors address processor }
        ensures within { result + (self.now.sizes.processors - processor)
            ≤ (self.now.sizes.pages * self.now.sizes.words) * self.now.sizes.processors }
    {
        address * self.sizes.processors + processor
    }

    /// What is stored in all by the row's page and processor.
    fn total(&self, row: usize) -> StoredTotal
        requires { IsSparse self.now.totals }
        ensures { result ≡ stored_total (sparse_at self.now.totals row) }
    {
        self.totals.get(row).unwrap_or(StoredTotal::none())
    }

    /// What `by` had stored in the page before this place, of which it may still be asked: where one of its intervals ends or
    /// none has begun. It is found by halving.
    pub(crate) fn before(&self, page: usize, by: usize, limit: u32) -> StoredAmounts
        requires tells { (j : List Event) × AreStoredCountsOf j self.now }
        requires page { page < self.now.sizes.pages }
        requires by { by < self.now.sizes.processors }
        ensures { (j : List Event) → AreStoredCountsOf j self.now
            → IsStoredAsked (judged_sizes_of self.now.sizes) j page by limit
            → AreStoredAmounts (judged_sizes_of self.now.sizes) (take limit j) page by result }
    {
        let row = self.page_row(page, by);
        amounts_before(
            items_of_row(&self.steps, row),
            self.total(row).amounts,
            limit,
        )
    }

    /// Keeps the place as a step of the row, if nothing was stored there in this interval: whether the row has no room then for
    /// one more.
    fn add_step(
        &mut self,
        row: usize,
        place: usize,
        total: StoredTotal,
        interval: u32,
    ) -> Result<bool, AllocError>
        requires sparse { IsSparse self.old.steps }
        requires room { row < sparse_room self.old.steps }
        requires few { vec_len self.old.steps.kept < most_sparse_values }
        requires place { place ≤ most_judged_events }
        ensures rest { self.new ≡ record self.old { steps = self.new.steps } }
        ensures room { sparse_room self.new.steps ≡ sparse_room self.old.steps }
        ensures few { vec_len self.new.steps.kept ≤ vec_len self.old.steps.kept + 1 }
        ensures adds { OnOk result (StoredStepAdds self.old.steps self.new.steps row place total interval) }
    {
        if total.until <= interval {
            let step = StoredStep {
                place: place as u32,
                before: total.amounts,
            };
            push_in_sparse_table_row(&mut self.steps, row, step)?;
            return Ok(is_sparse_table_row_full(&self.steps, row));
        }
        Ok(false)
    }

    /// Takes note of a store of the processor to the address, at this place, the next event: whether the steps of its page and
    /// processor have no room then for one more.
    fn store(&mut self, processor: usize, address: usize, place: usize) -> Result<bool, AllocError>
        requires tells { (j : List Event) × AreStoredCountsOf j self.old × (length j ≡ place) }
        requires few { place < most_judged_events }
        requires processor { processor < self.old.sizes.processors }
        requires address { address < self.old.sizes.pages * self.old.sizes.words }
        ensures sizes { self.new.sizes ≡ self.old.sizes }
        ensures tells { OnOk result ((j : List Event) → AreStoredCountsOf j self.old → length j ≡ place → (v : ℕ)
            → AreStoredCountsOf (did j processor (Store address v)) self.new) }
    {
        let interval = self.closed[processor];
        let word = self.word_row(address, processor);
        if self.words.get(word).unwrap_or(0) > interval {
            return Ok(false);
        }
        self.words.set(word, interval + 1)?;
        let row = self.page_row(address / self.sizes.words, processor);
        let total = self.total(row);
        let is_full = self.add_step(row, place, total, interval)?;
        self.totals.set(row, total.with_word(interval))?;
        Ok(is_full)
    }

    /// Counts one more interval that the processor has closed.
    fn close(&mut self, processor: usize)
        requires processor { processor < vec_len self.old.closed }
        requires room { slice_index self.old.closed.items processor < most_judged_events }
        ensures long { vec_len self.new.closed ≡ vec_len self.old.closed }
        ensures rest { self.new ≡ record self.old { closed = self.new.closed } }
        ensures counted { (q : ℕ) → slice_index self.new.closed.items q
            ≡ slice_index self.old.closed.items q + cond (processor == q) 1 0 }
    {
        self.closed[processor] += 1;
    }

    /// Takes note of the event at this place, the next one: whether it is a store, and the steps of its page and processor have
    /// no room then for one more. The only error is running out of memory, after which it may tell no history.
    pub(crate) fn note(&mut self, event: Event, place: usize) -> Result<bool, AllocError>
        requires so_far { (j : List Event) × AreStoredCountsOf j self.old × (length j ≡ place) }
        requires few { place < most_judged_events }
        requires within { IsEventInSizes (judged_sizes_of self.old.sizes) event }
        ensures sizes { self.new.sizes ≡ self.old.sizes }
        ensures tells { OnOk result ((j : List Event) → AreStoredCountsOf j self.old → length j ≡ place
            → AreStoredCountsOf (j ++ event ∷ []) self.new) }
    {
        if let Kind::Store(address, _) = event.kind {
            return self.store(event.processor, address, place);
        }
        if closes_interval(event.kind) {
            self.close(event.processor);
        }
        Ok(false)
    }

    /// Lets go of the steps of the page and the processor that tell of no place that may still be asked. Makes room for as
    /// many again as are left, and for a few at least. The only error is running out of memory. After that it may tell no
    /// history.
    pub(crate) fn let_go(
        &mut self,
        page: usize,
        by: usize,
        asked: &AskedPlaces,
    ) -> Result<(), AllocError>
        requires tells { (j : List Event) × AreStoredCountsOf j self.old }
        requires page { page < self.old.sizes.pages }
        requires by { by < self.old.sizes.processors }
        ensures rest { self.new ≡ record self.old { steps = self.new.steps } }
        ensures left { OnOk result (sparse_row self.new.steps (stored_row self.old.sizes.processors page by)
            ≡ asked_steps_from asked.now 0 (sparse_row self.old.steps (stored_row self.old.sizes.processors page by))) }
        ensures tells { OnOk result ((j : List Event) → AreStoredCountsOf j self.old
            → AreAskedPlaces (judged_sizes_of self.old.sizes) j page by self.old.sizes.processors asked.now
            → AreStoredCountsOf j self.new) }
    {
        let row = self.page_row(page, by);
        let alloc = *self.steps.kept.allocator();
        let left = asked_steps(alloc, items_of_row(&self.steps, row), asked)?;
        replace_sparse_table_row(&mut self.steps, row, &left)
    }
}
