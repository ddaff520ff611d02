//! Of each address and processor the stores, in order, with the numbers of their intervals.
ghost use Rattle.std.specs.Prelude.{◌≡◌, ◌+◌, ◌*◌, ◌<◌, ◌≤◌, IfOk, List, MatchOption, OnOk, length, slice_get, Some, ℕ, vec_len, []};
ghost use Rattle.std.specs.Global.{Vec};
ghost use Rattle.base.specs.InOrderOnce.{InOrder};
ghost use Rattle.base.specs.Prelude.{most_processors};
ghost use Rattle.journal.specs.declared.event.Event.{Event};
ghost use Rattle.journal.specs.Prelude.{EventAddressesInRange, EventProcessorsInRange};
ghost use Rattle.judge.specs.Prelude.{gap_tally_place_of, most_in_sized_history, judged_sizes_most_addresses};
ghost use Rattle.causes.specs.Prelude.{AreTakingEventNumbers, AreNumberedStoreRows, IsLastNumberedStoreUnder, NoNumberedStoreUnder};

use crate::taking_events::taking_event_numbers;
use base::MOST_PROCESSORS;
use journal::{Event, Kind};
use std::alloc::{AllocError, Global};

/// A store: where it stands, and the number of its processor's interval that it stands in.
#[derive(Clone, Copy)]
pub(crate) struct NumberedStore {
    pub(crate) place: usize,
    pub(crate) interval: u32,
}

/// The stores of a history.
#[derive(Drop)]
pub(crate) struct StoreRows {
    /// How many addresses there are.
    pub(crate) addresses: usize,
    /// Of each address and each of sixteen processors, its stores there.
    pub(crate) rows: Vec<Vec<NumberedStore>>,
}

/// So many rows with nothing in them.
fn no_store_rows(alloc: Global, count: usize) -> Result<Vec<Vec<NumberedStore>>, AllocError>
    ensures long { IfOk result (λ v. vec_len v ≡ count) }
    ensures empty { IfOk result (λ v. (n : ℕ) (row : Vec NumberedStore) → slice_get v.items n ≡ Some row
        → row.items ≡ []) }
{
    let mut rows = Vec::with_capacity(alloc, count)?;
    for _ in 0..count {
        rows.push(Vec::new(alloc))?;
    }
    Ok(rows)
}

/// The last of these stores that is of an interval below the limit. It is found by halving.
fn last_store_of_row_under(stores: &[NumberedStore], limit: u32) -> Option<NumberedStore>
    requires { InOrder (λ x y. x.interval ≤ y.interval) stores.now }
    ensures { MatchOption result (NoNumberedStoreUnder stores.now limit) (IsLastNumberedStoreUnder stores.now limit) }
{
    let count = stores.partition_point(|store| store.interval < limit);
    if count == 0 {
        None
    } else {
        Some(stores[count - 1])
    }
}

impl StoreRows {
    /// None of so many addresses. The only error is running out of memory.
    fn new(alloc: Global, addresses: usize) -> Result<StoreRows, AllocError>
        requires { addresses ≤ judged_sizes_most_addresses }
        ensures rows { IfOk result (λ x. (j : List Event) → AreNumberedStoreRows j 0 x) }
        ensures addresses { IfOk result (λ x. x.addresses ≡ addresses) }
    {
        let rows = no_store_rows(alloc, addresses * MOST_PROCESSORS)?;
        Ok(StoreRows { addresses, rows })
    }

    /// Adds the event at this place, the next one, if it is a store.
    fn add(&mut self, events: &[Event], numbers: &[u32], place: usize) -> Result<(), AllocError>
        requires place { place < length events.now }
        requires numbers { AreTakingEventNumbers events.now numbers.now }
        requires few { self.old.addresses ≤ judged_sizes_most_addresses }
        requires processors { EventProcessorsInRange most_processors events.now }
        requires addresses { EventAddressesInRange self.old.addresses events.now }
        requires so_far { AreNumberedStoreRows events.now place self.old }
        ensures rows { OnOk result (AreNumberedStoreRows events.now (place + 1) self.new) }
        ensures addresses { self.new.addresses ≡ self.old.addresses }
    {
        let event = events[place];
        let Kind::Store(address, _) = event.kind else {
            return Ok(());
        };
        let store = NumberedStore {
            place,
            interval: numbers[place],
        };
        self.rows[address * MOST_PROCESSORS + event.processor].push(store)?;
        Ok(())
    }

    /// The stores of this history of so many addresses. The only error is running out of memory.
    pub(crate) fn of(
        alloc: Global,
        addresses: usize,
        events: &[Event],
    ) -> Result<StoreRows, AllocError>
        requires few { length events.now ≤ most_in_sized_history }
        requires few_addresses { addresses ≤ judged_sizes_most_addresses }
        requires processors { EventProcessorsInRange most_processors events.now }
        requires addresses { EventAddressesInRange addresses events.now }
        ensures rows { IfOk result (AreNumberedStoreRows events.now (length events.now)) }
        ensures addresses { IfOk result (λ x. x.addresses ≡ addresses) }
    {
        let numbers = taking_event_numbers(alloc, events)?;
        let mut rows = StoreRows::new(alloc, addresses)?;
        for place in 0..events.len() {
            rows.add(events, &numbers, place)?;
        }
        Ok(rows)
    }

    /// The processor's last store to the address of an interval below the limit.
    pub(crate) fn last(&self, address: usize, processor: usize, limit: u32) -> Option<NumberedStore>
        requires rows { (j : List Event) × AreNumberedStoreRows j (length j) self.now }
        requires few { self.now.addresses ≤ judged_sizes_most_addresses }
        requires address { address < self.now.addresses }
        requires processor { processor < most_processors }
        ensures { (row : Vec NumberedStore) × (slice_get self.now.rows.items (gap_tally_place_of address processor) ≡ Some row)
            × MatchOption result (NoNumberedStoreUnder row.items limit) (IsLastNumberedStoreUnder row.items limit) }
    {
        last_store_of_row_under(&self.rows[address * MOST_PROCESSORS + processor], limit)
    }
}
