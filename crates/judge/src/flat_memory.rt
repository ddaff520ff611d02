//! One memory that the events are done to in their order.
ghost use Rattle.std.specs.Prelude.{◌≡◌, ◌↔◌, ℕ, ◌<◌, ◌≤◌, ◌^◌, [], ◌∷◌, ◌++◌, IfOk, IsTrue, List, OnOk, Some, length, replicate, slice_get};
ghost use Rattle.journal.specs.declared.event.Event.{Event};
ghost use Rattle.journal.specs.Prelude.{EventAddressInRange, memory_after};
ghost use Rattle.judge.specs.Prelude.{HasLastFlatStores, KeepsLastFlatStore, most_judged_events};

use crate::sparse_table::SparseTable;
use journal::{Event, Kind};
use std::alloc::{AllocError, Global};

/// The last store to an address.
#[derive(Clone, Copy, Debug, PartialEq, Eq)]
pub struct FlatStore {
    /// Whose it is.
    pub by: usize,
    /// The place of its event.
    pub place: u32,
    /// What it stored.
    pub value: u32,
}

/// One memory of zeros, to which the events of a history are done in their order, and which event wrote each of its words. It
/// takes memory for the words that were stored to, and some more for their neighbours, as `SparseTable` does.
#[derive(Drop)]
pub struct FlatMemory {
    pub(crate) stores: SparseTable<FlatStore>,
}

impl FlatMemory {
    /// So many zeros. The only error is running out of memory.
    pub fn new(alloc: Global, addresses: usize) -> Result<FlatMemory, AllocError>
        ensures { IfOk result (HasLastFlatStores [] addresses) }
    {
        Ok(FlatMemory {
            stores: SparseTable::new(alloc, addresses)?,
        })
    }

    /// The last store to the address.
    pub fn last(&self, address: usize) -> Option<FlatStore>
        requires { (j : List Event) × (n : ℕ) × HasLastFlatStores j n self.now × (address < n) }
        ensures { (j : List Event) (n : ℕ) → HasLastFlatStores j n self.now → address < n → KeepsLastFlatStore j address result }
    {
        self.stores.get(address)
    }

    /// Whether the address has this word.
    pub fn has(&self, address: usize, value: u32) -> bool
        requires { (j : List Event) × (n : ℕ) × HasLastFlatStores j n self.now × (address < n) }
        ensures { (j : List Event) (n : ℕ) → HasLastFlatStores j n self.now → address < n
            → IsTrue result ↔ (slice_get (memory_after (replicate n 0) j) address ≡ Some value) }
    {
        match self.last(address) {
            Some(store) => store.value == value,
            None => value == 0,
        }
    }

    /// Does the event, which comes at this place. The only error is running out of memory, after which it may tell no history.
    pub fn note(&mut self, event: Event, place: usize) -> Result<(), AllocError>
        requires few { place < most_judged_events }
        requires so_far { (j : List Event) × (n : ℕ) × HasLastFlatStores j n self.old × EventAddressInRange n event.kind × (length j ≡ place) }
        ensures { OnOk result ((j : List Event) (n : ℕ) → HasLastFlatStores j n self.old → EventAddressInRange n event.kind
            → length j ≡ place → HasLastFlatStores (j ++ event ∷ []) n self.new) }
    {
        match event.kind {
            Kind::Store(address, value) => {
                let by = event.processor;
                let place = place as u32;
                self.stores.set(address, FlatStore { by, place, value })
            }
            _ => Ok(()),
        }
    }
}
