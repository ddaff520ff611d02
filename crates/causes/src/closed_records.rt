//! The records of a closed interval: what its stores come to, page by page.
ghost use Rattle.std.specs.Prelude.{◌≡◌, ℕ, ◌+◌, ◌<◌, ◌≤◌, ◌^◌, IfOk, MatchOption, length, take, true};
ghost use Rattle.base.specs.Prelude.{most_processors};
ghost use Rattle.journal.specs.declared.event.Event.{Event};
ghost use Rattle.journal.specs.Events.{EventAt, event_interval_at};
ghost use Rattle.journal.specs.Prelude.{event_closes};
ghost use Rattle.judge.specs.Prelude.{AreJudgedSizes, IsEventInSizes, TellsFetchGaps, most_in_sized_history, judged_sizes_most_addresses, judged_sizes_of};
ghost use Rattle.causes.specs.Prelude.{AreClosedRecords, AreClosedRecordWordsBelow, AreNumberedStoreRows, IsClosedRecordValue, IsNotInClosedRecord, IsClosedRecordIndex};

use crate::notices::notice_stores_in;
use crate::store_rows::StoreRows;
use crate::taking_events::taking_event_numbers;
use journal::{Event, Kind};
use judge::{Gaps, Sizes};
use std::alloc::{AllocError, Global};

/// A record of an interval: the words that its processor stored in a page, with their last values.
#[derive(Drop)]
pub struct PageRecord {
    /// The page.
    pub page: usize,
    /// The words' offsets, rising, and their values.
    pub words: Vec<(usize, u32)>,
}

/// What is looked up of a history to tell records.
#[derive(Drop)]
pub(crate) struct ClosedRecordIndex {
    /// How many words a page has.
    pub(crate) size: usize,
    /// Of each event, the number of its processor's interval that it lies in.
    pub(crate) numbers: Vec<u32>,
    pub(crate) stores: StoreRows,
}

/// The last value that the processor stores at the address in its interval of this number; None where it stores none.
fn closed_record_value(
    stores: &StoreRows,
    events: &[Event],
    address: usize,
    by: usize,
    interval: u32,
) -> Option<u32>
    requires rows { AreNumberedStoreRows events.now (length events.now) stores.now }
    requires few { stores.now.addresses ≤ judged_sizes_most_addresses }
    requires address { address < stores.now.addresses }
    requires by { by < most_processors }
    requires interval { interval + 1 < 2 ^ 32 }
    ensures { MatchOption result (IsNotInClosedRecord events.now by interval address)
        (IsClosedRecordValue events.now by interval address) }
{
    let store = stores.last(address, by, interval + 1)?;
    if store.interval < interval {
        return None;
    }
    match events[store.place].kind {
        Kind::Store(_, value) => Some(value),
        _ => None,
    }
}

/// The words that the processor stores in its interval of this number, of so many from this address on.
fn closed_record_words(
    alloc: Global,
    stores: &StoreRows,
    events: &[Event],
    first: usize,
    size: usize,
    by: usize,
    interval: u32,
) -> Result<Vec<(usize, u32)>, AllocError>
    requires rows { AreNumberedStoreRows events.now (length events.now) stores.now }
    requires few { stores.now.addresses ≤ judged_sizes_most_addresses }
    requires addresses { first + size ≤ stores.now.addresses }
    requires by { by < most_processors }
    requires interval { interval + 1 < 2 ^ 32 }
    ensures { IfOk result (λ v. AreClosedRecordWordsBelow events.now by interval first size v.items) }
{
    let mut words = Vec::new(alloc);
    for offset in 0..size {
        if let Some(value) = closed_record_value(stores, events, first + offset, by, interval) {
            words.push((offset, value))?;
        }
    }
    Ok(words)
}

impl ClosedRecordIndex {
    /// What is looked up of this history of a cluster of these sizes. The only error is running out of memory.
    pub(crate) fn of(
        alloc: Global,
        sizes: Sizes,
        events: &[Event],
    ) -> Result<ClosedRecordIndex, AllocError>
        requires sizes { AreJudgedSizes (judged_sizes_of sizes) }
        requires few { length events.now ≤ most_in_sized_history }
        requires within { (k : ℕ) (e : Event) → EventAt events.now k e → IsEventInSizes (judged_sizes_of sizes) e }
        ensures { IfOk result (IsClosedRecordIndex (judged_sizes_of sizes) events.now) }
    {
        Ok(ClosedRecordIndex {
            size: sizes.words,
            numbers: taking_event_numbers(alloc, events)?,
            stores: StoreRows::of(alloc, sizes.pages * sizes.words, events)?,
        })
    }

    /// The records of the interval that the event at this place closes. The gaps tell what stands up to it. The only error
    /// is running out of memory.
    pub(crate) fn records(
        &self,
        alloc: Global,
        gaps: &Gaps,
        events: &[Event],
        place: usize,
    ) -> Result<Vec<PageRecord>, AllocError>
        requires few { length events.now ≤ most_in_sized_history }
        requires place { place < length events.now }
        requires within { (k : ℕ) (e : Event) → EventAt events.now k e → IsEventInSizes (judged_sizes_of gaps.now.sizes) e }
        requires tells { TellsFetchGaps (take (place + 1) events.now) gaps.now }
        requires index { IsClosedRecordIndex (judged_sizes_of gaps.now.sizes) events.now self.now }
        requires closes { (e : Event) → EventAt events.now place e → event_closes e.kind ≡ true }
        ensures { IfOk result (λ v. (e : Event) → EventAt events.now place e
            → AreClosedRecords (judged_sizes_of gaps.now.sizes) events.now e.processor (event_interval_at events.now e.processor place)
            v.items) }
    {
        let by = events[place].processor;
        let interval = self.numbers[place];
        let mut records = Vec::new(alloc);
        for page in 0..gaps.pages() {
            if notice_stores_in(gaps, page, by, interval) {
                let first = page * self.size;
                let words = closed_record_words(
                    alloc,
                    &self.stores,
                    events,
                    first,
                    self.size,
                    by,
                    interval,
                )?;
                records.push(PageRecord { page, words })?;
            }
        }
        Ok(records)
    }
}
