//! Stores of a history, and what a load that comes next may answer by them.
ghost use Rattle.std.specs.Prelude.{◌≡◌, ◌≢◌, ◌↔◌, ◌⊎◌, ℕ, ◌+◌, ◌-◌, ◌*◌, ◌<◌, ◌≤◌, ◌^◌, [], ◌∷◌, ◌++◌, IsTrue, IfOk, OnOk, List};
ghost use Rattle.std.specs.Prelude.{◌==◌, MatchOption, cond, length};
ghost use Rattle.base.specs.InOrderOnce.{Has};
ghost use Rattle.journal.specs.declared.event.Event.{Event};
ghost use Rattle.journal.specs.declared.event.Kind.TheVariants.{Load, Store};
ghost use Rattle.journal.specs.ExplainedAnswers.{IsAnswer};
ghost use Rattle.journal.specs.Events.{EventAt};
ghost use Rattle.journal.specs.Pasts.{InPast};
ghost use Rattle.journal.specs.WellFormed.{Does};
ghost use Rattle.journal.specs.Prelude.{EventAddressInRange, did};
ghost use Rattle.judge.specs.declared.flat_memory.FlatStore.{FlatStore};
ghost use Rattle.judge.specs.declared.kept_store.KeptStore.{KeptStore};
ghost use Rattle.judge.specs.Prelude.{AreKeptStoresOf, AreLatestStores, HasUnknownOfValue, IsHiddenInPast, IsLatestInPast, IsKeptStoreFollowed, IsLastKeptInPastOf, IsUnknownWithin, IsUnorderedStore, KeptStoresAreOf, ModelConcurrentStore};
ghost use Rattle.judge.specs.Prelude.{AreUnknownFrom, cut_entry, kept_store_row, kept_stores_of, most_judged_events, most_judged_processors};

use crate::cut_rows::known_in;
use crate::cuts::Cuts;
use crate::flat_memory::FlatStore;
use crate::kept_store::{KeptStore, first_kept_store_from, last_kept_store_below};
use crate::known_cuts::KnownCuts;
use crate::moved_cuts::MovedCuts;
use crate::sizes::MOST_JUDGED_PROCESSORS;
use crate::sparse_table::{
    SparseTable, is_sparse_table_row_full, items_of_row, push_in_sparse_table_row,
    shorten_sparse_table_row,
};
use journal::{Event, Kind};
use std::alloc::{AllocError, Global};

/// How many rows of stores are looked at for each cut that is let go of, at most.
const ROWS_A_CUT: usize = 256;

/// A history, taken an event at a time, of which it tells what a load that comes next may answer: which stores are the latest
/// ones of its past, and which ones its past doesn't have.
///
/// A store follows another one if its cut has it. It is let go of once each processor knows one that follows it. It takes 16 bytes
/// for each store that is kept, up to twice that. It takes 4 a processor for each cut that one of these has, and what the cuts of
/// locks, flags and open episodes take.
#[derive(Drop)]
pub struct KeptStores {
    pub(crate) processors: usize,
    pub(crate) addresses: usize,
    /// What each processor knows of the others.
    cuts: Cuts,
    known: KnownCuts,
    /// The stores in order: of each address a row for each processor.
    stores: SparseTable<Vec<KeptStore>>,
}

/// Whether one of the stores from this one on is of the value.
fn has_kept_store_of(stores: &[KeptStore], from: usize, value: u32) -> bool
    ensures { IsTrue result ↔ HasUnknownOfValue stores.now from value }
{
    for index in from..stores.len() {
        if stores[index].value == value {
            return true;
        }
    }
    false
}

/// Adds the stores of this processor from this one on.
fn add_kept_stores(
    found: &mut Vec<FlatStore>,
    stores: &[KeptStore],
    from: usize,
    by: usize,
) -> Result<(), AllocError>
    requires { from ≤ length stores.now }
    ensures { OnOk result ((x : FlatStore) → Has found.new.items x
        ↔ (Has found.old.items x ⊎ IsUnknownWithin stores.now from (length stores.now) by x)) }
{
    for index in from..stores.len() {
        let KeptStore { place, value, .. } = stores[index];
        found.push(FlatStore { by, place, value })?;
    }
    Ok(())
}

impl KeptStores {
    /// Before the first event, of a history of `processors` processors, at most `MOST_JUDGED_PROCESSORS`, and `addresses`
    /// addresses. The only error is running out of memory.
    pub fn new(alloc: Global, processors: usize, addresses: usize) -> Result<KeptStores, AllocError>
        requires { processors ≤ most_judged_processors }
        ensures tells { IfOk result (AreKeptStoresOf []) }
        ensures processors { IfOk result (λ s. s.processors ≡ processors) }
        ensures addresses { IfOk result (λ s. s.addresses ≡ addresses) }
    {
        let rows = addresses.checked_mul(processors).ok_or(AllocError)?;
        Ok(KeptStores {
            processors,
            addresses,
            cuts: Cuts::new(alloc, processors)?,
            known: KnownCuts::new(alloc, processors)?,
            stores: SparseTable::new(alloc, rows)?,
        })
    }

    /// Where the stores of the processor to the address are kept.
    fn row(&self, address: usize, processor: usize) -> usize
        requires fits { self.now.addresses * self.now.processors < 2 ^ 64 }
        requires address { address < self.now.addresses }
        requires processor { processor < self.now.processors }
        ensures is { result ≡ kept_store_row self.now.processors address processor }
        ensures within { result + (self.now.processors - processor) ≤ self.now.addresses * self.now.processors }
    {
        address * self.processors + processor
    }

    /// The stores of the processor `by` to the address.
    fn stores_of(&self, address: usize, by: usize) -> &[KeptStore]
        requires tells { (j : List Event) × AreKeptStoresOf j self.now }
        requires address { address < self.now.addresses }
        requires by { by < self.now.processors }
        ensures { result.now ≡ kept_stores_of self.now address by }
    {
        items_of_row(&self.stores, self.row(address, by))
    }

    /// The place up to which the processor knows the events of `by`: all of its own.
    fn known_up_to(&self, processor: usize, by: usize) -> usize
        requires tells { (j : List Event) × AreKeptStoresOf j self.now }
        requires processor { processor < self.now.processors }
        requires by { by < self.now.processors }
        ensures { (j : List Event) → AreKeptStoresOf j self.now → (i : ℕ) (e : Event) → EventAt j i e → e.processor ≡ by
            → InPast j processor i ↔ (i < result) }
    {
        if by == processor {
            self.cuts.place
        } else {
            known_in(self.cuts.of(processor), by) as usize
        }
    }

    /// The last store of `by` to the address in the past of the processor.
    fn last_store(&self, processor: usize, address: usize, by: usize) -> Option<KeptStore>
        requires tells { (j : List Event) × AreKeptStoresOf j self.now }
        requires processor { processor < self.now.processors }
        requires address { address < self.now.addresses }
        requires by { by < self.now.processors }
        ensures { (j : List Event) → AreKeptStoresOf j self.now
            → IsLastKeptInPastOf j processor (kept_stores_of self.now address by) result }
    {
        last_kept_store_below(self.stores_of(address, by), self.known_up_to(processor, by))
    }

    /// Whether the last store of some processor to the address in the past of this one has this store of `by` in its cut.
    fn is_followed(&self, processor: usize, address: usize, by: usize, store: KeptStore) -> bool
        requires tells { (j : List Event) × AreKeptStoresOf j self.now }
        requires processor { processor < self.now.processors }
        requires address { address < self.now.addresses }
        ensures { (j : List Event) → AreKeptStoresOf j self.now → IsTrue result
            ↔ IsKeptStoreFollowed self.now.processors j self.now.known.cuts processor (kept_stores_of self.now address) by store }
    {
        for other in 0..self.processors {
            if let Some(last) = self.last_store(processor, address, other) {
                if store.place < known_in(self.known.cuts.row(last.cut), by) {
                    return true;
                }
            }
        }
        false
    }

    /// The store of `by` to the address that is a latest one of the past of the processor, if there is one.
    fn latest_by(&self, processor: usize, address: usize, by: usize) -> Option<KeptStore>
        requires tells { (j : List Event) × AreKeptStoresOf j self.now }
        requires processor { processor < self.now.processors }
        requires address { address < self.now.addresses }
        requires by { by < self.now.processors }
        ensures { (j : List Event) → AreKeptStoresOf j self.now → MatchOption result
            ((i : ℕ) → ¬ IsLatestInPast j processor address by i)
            (λ x. IsLatestInPast j processor address by x.place × Does j x.place by (Store address x.value)) }
    {
        let store = self.last_store(processor, address, by)?;
        if self.is_followed(processor, address, by, store) {
            None
        } else {
            Some(store)
        }
    }

    /// Whether one of the latest stores of the past of the processor to the address is of this value. Those of other values are
    /// passed over at once.
    fn has_latest_of(&self, processor: usize, address: usize, value: u32) -> bool
        requires tells { (j : List Event) × AreKeptStoresOf j self.now }
        requires processor { processor < self.now.processors }
        requires address { address < self.now.addresses }
        ensures { (j : List Event) → AreKeptStoresOf j self.now → IsTrue result
            ↔ ((q : ℕ) × (i : ℕ) × IsLatestInPast j processor address q i × Does j i q (Store address value)) }
    {
        for by in 0..self.processors {
            if let Some(store) = self.last_store(processor, address, by) {
                if store.value == value && !self.is_followed(processor, address, by, store) {
                    return true;
                }
            }
        }
        false
    }

    /// Whether the past of the processor has a store to the address.
    fn has_latest(&self, processor: usize, address: usize) -> bool
        requires tells { (j : List Event) × AreKeptStoresOf j self.now }
        requires processor { processor < self.now.processors }
        requires address { address < self.now.addresses }
        ensures { (j : List Event) → AreKeptStoresOf j self.now → IsTrue result
            ↔ ((q : ℕ) × (i : ℕ) × IsLatestInPast j processor address q i) }
    {
        for by in 0..self.processors {
            if self.latest_by(processor, address, by).is_some() {
                return true;
            }
        }
        false
    }

    /// Whether a load of the address by this processor that comes next may answer the value of one of its latest stores, or 0
    /// where it has none: whether this is such a value. It takes no memory.
    ///
    /// It looks at one store of each processor, mostly its last one to the address, else one found by halving. For each of the
    /// value it looks at them again, for one that follows it.
    pub fn may_answer(&self, processor: usize, address: usize, value: u32) -> bool
        requires tells { (j : List Event) × AreKeptStoresOf j self.now }
        requires processor { processor < self.now.processors }
        requires address { address < self.now.addresses }
        ensures { (j : List Event) → AreKeptStoresOf j self.now
            → IsTrue result ↔ IsAnswer (did j processor (Load address value)) (length j) address value }
    {
        if self.has_latest_of(processor, address, value) {
            return true;
        }
        value == 0 && !self.has_latest(processor, address)
    }

    /// The latest stores of a load of the address by this processor that comes next, by rising processor. The only error is
    /// running out of memory.
    pub fn latest(
        &self,
        alloc: Global,
        processor: usize,
        address: usize,
    ) -> Result<Vec<FlatStore>, AllocError>
        requires tells { (j : List Event) × AreKeptStoresOf j self.now }
        requires processor { processor < self.now.processors }
        requires address { address < self.now.addresses }
        ensures { IfOk result (λ v. (j : List Event) → AreKeptStoresOf j self.now → (w : ℕ)
            → AreLatestStores (did j processor (Load address w)) (length j) address v.items) }
    {
        let mut latest = Vec::new(alloc);
        for by in 0..self.processors {
            if let Some(KeptStore { place, value, .. }) = self.latest_by(processor, address, by) {
                latest.push(FlatStore { by, place, value })?;
            }
        }
        Ok(latest)
    }

    /// The stores of `by` to the address, and where those begin that the past of the processor, another one, doesn't have.
    fn unknown_by(&self, processor: usize, address: usize, by: usize) -> (&[KeptStore], usize)
        requires tells { (j : List Event) × AreKeptStoresOf j self.now }
        requires processor { processor < self.now.processors }
        requires address { address < self.now.addresses }
        requires by { by < self.now.processors }
        ensures { (j : List Event) → AreKeptStoresOf j self.now
            → AreUnknownFrom j processor address by result.0.now result.1 }
    {
        let stores = self.stores_of(address, by);
        (
            stores,
            first_kept_store_from(stores, self.known_up_to(processor, by)),
        )
    }

    /// Whether there is a store of the value to the address that the past of a load by this processor that comes next doesn't
    /// have. It takes no memory.
    ///
    /// It looks at each such store, so it takes time in the order of these, too.
    pub fn has_unordered(&self, processor: usize, address: usize, value: u32) -> bool
        requires tells { (j : List Event) × AreKeptStoresOf j self.now }
        requires processor { processor < self.now.processors }
        requires address { address < self.now.addresses }
        ensures { (j : List Event) → AreKeptStoresOf j self.now
            → IsTrue result ↔ ModelConcurrentStore (did j processor (Load address value)) (length j) address value }
    {
        for by in 0..self.processors {
            let (stores, from) = self.unknown_by(processor, address, by);
            if has_kept_store_of(stores, from, value) {
                return true;
            }
        }
        false
    }

    /// All stores to the address that the past of a load by this processor that comes next doesn't have, processor by
    /// processor. The only error is running out of memory.
    pub fn unordered(
        &self,
        alloc: Global,
        processor: usize,
        address: usize,
    ) -> Result<Vec<FlatStore>, AllocError>
        requires tells { (j : List Event) × AreKeptStoresOf j self.now }
        requires processor { processor < self.now.processors }
        requires address { address < self.now.addresses }
        ensures { IfOk result (λ v. (j : List Event) → AreKeptStoresOf j self.now → (w : ℕ) (x : FlatStore)
            → Has v.items x ↔ IsUnorderedStore (did j processor (Load address w)) (length j) address x) }
    {
        let mut found = Vec::new(alloc);
        for by in 0..self.processors {
            let (stores, from) = self.unknown_by(processor, address, by);
            add_kept_stores(&mut found, stores, from, by)?;
        }
        Ok(found)
    }

    /// Up to which place the store, the last one of `other` to an address in some past, follows the stores of `by`.
    fn followed_up_to(&self, store: KeptStore, other: usize, by: usize) -> usize
        ensures { result ≡ cond (other == by) store.place (cut_entry self.now.known.cuts store.cut by) }
    {
        if other == by {
            store.place as usize
        } else {
            known_in(self.known.cuts.row(store.cut), by) as usize
        }
    }

    /// Up to which place the last store of `other` to the address in the past of the processor follows the stores of `by`.
    fn followed_in_past(&self, processor: usize, address: usize, other: usize, by: usize) -> usize
        requires tells { (j : List Event) × AreKeptStoresOf j self.now }
        requires processor { processor < self.now.processors }
        requires address { address < self.now.addresses }
        requires other { other < self.now.processors }
        requires by { by < self.now.processors }
        ensures { (j : List Event) → AreKeptStoresOf j self.now → (i v : ℕ) → Does j i by (Store address v) → i < result
            → IsHiddenInPast j processor address i }
    {
        match self.last_store(processor, address, other) {
            Some(store) => self.followed_up_to(store, other, by),
            None => 0,
        }
    }

    /// Whether each processor has a store to the address that is kept.
    fn writers(&self, address: usize) -> [bool; MOST_JUDGED_PROCESSORS]
        requires tells { (j : List Event) × AreKeptStoresOf j self.now }
        requires address { address < self.now.addresses }
    {
        let mut writers = [false; MOST_JUDGED_PROCESSORS];
        for by in 0..self.processors {
            writers[by] = !self.stores_of(address, by).is_empty();
        }
        writers
    }

    /// Up to which place the stores of `by` to the address are hidden from this processor: its past has one of these writers that
    /// follows them.
    fn hidden_in_past(
        &self,
        writers: &[bool; MOST_JUDGED_PROCESSORS],
        processor: usize,
        address: usize,
        by: usize,
    ) -> usize
        requires tells { (j : List Event) × AreKeptStoresOf j self.now }
        requires processor { processor < self.now.processors }
        requires address { address < self.now.addresses }
        requires by { by < self.now.processors }
        ensures { (j : List Event) → AreKeptStoresOf j self.now → (i v : ℕ) → Does j i by (Store address v) → i < result
            → IsHiddenInPast j processor address i }
    {
        let mut limit = 0;
        for other in 0..self.processors {
            if writers[other] {
                let follows = self.followed_in_past(processor, address, other, by);
                limit = if limit < follows { follows } else { limit };
            }
        }
        limit
    }

    /// Up to which place the stores of `by` to the address are hidden from each processor.
    fn hidden_in_all_pasts(&self, address: usize, by: usize) -> usize
        requires tells { (j : List Event) × AreKeptStoresOf j self.now }
        requires address { address < self.now.addresses }
        requires by { by < self.now.processors }
        ensures { (j : List Event) → AreKeptStoresOf j self.now → (i v p : ℕ) → Does j i by (Store address v) → i < result
            → p < self.now.processors → IsHiddenInPast j p address i }
    {
        let writers = self.writers(address);
        let mut limit = self.cuts.place;
        for processor in 0..self.processors {
            limit = limit.min(self.hidden_in_past(&writers, processor, address, by));
        }
        limit
    }

    /// Lets go of the stores of `by` to the address that are hidden from each processor: no load may answer them any more. The
    /// only error is running out of memory, after which it may tell no history.
    fn let_go(&mut self, address: usize, by: usize) -> Result<(), AllocError>
        requires tells { (j : List Event) × AreKeptStoresOf j self.old }
        requires address { address < self.old.addresses }
        requires by { by < self.old.processors }
        ensures rest { self.new ≡ record self.old { stores = self.new.stores } }
        ensures tells { OnOk result ((j : List Event) → AreKeptStoresOf j self.old → AreKeptStoresOf j self.new) }
    {
        let limit = self.hidden_in_all_pasts(address, by);
        let from = first_kept_store_from(self.stores_of(address, by), limit);
        if from == 0 {
            return Ok(());
        }
        let row = self.row(address, by);
        shorten_sparse_table_row(&mut self.stores, row, from)
    }

    /// Lets go of the stores to the address that are hidden from each processor. The only error is running out of memory, after
    /// which it may tell no history.
    fn let_go_at(&mut self, address: usize) -> Result<(), AllocError>
        requires tells { (j : List Event) × AreKeptStoresOf j self.old }
        requires address { address < self.old.addresses }
        ensures rest { self.new ≡ record self.old { stores = self.new.stores } }
        ensures tells { OnOk result ((j : List Event) → AreKeptStoresOf j self.old → AreKeptStoresOf j self.new) }
    {
        for by in 0..self.processors {
            if !self.stores_of(address, by).is_empty() {
                self.let_go(address, by)?;
            }
        }
        Ok(())
    }

    /// Lets go of all stores that are hidden from each processor. The only error is running out of memory, after which it may tell
    /// no history.
    fn let_go_of_hidden(&mut self) -> Result<(), AllocError>
        requires { (j : List Event) × AreKeptStoresOf j self.old }
        ensures rest { self.new ≡ record self.old { stores = self.new.stores } }
        ensures tells { OnOk result ((j : List Event) → AreKeptStoresOf j self.old → AreKeptStoresOf j self.new) }
    {
        for address in 0..self.addresses {
            self.let_go_at(address)?;
        }
        Ok(())
    }

    /// Lets go of the cuts that no kept store has. The only error is running out of memory, after which it may tell no history.
    fn let_go_of_cuts(&mut self) -> Result<(), AllocError>
        requires some { 0 < self.old.processors }
        requires tells { (j : List Event) × AreKeptStoresOf j self.old }
        ensures rest { self.new ≡ record self.old { known = self.new.known; stores = self.new.stores } }
        ensures tells { OnOk result ((j : List Event) → AreKeptStoresOf j self.old → AreKeptStoresOf j self.new) }
    {
        let alloc = *self.stores.kept.allocator();
        let known = &self.known;
        let mut moved = MovedCuts::new(alloc, &known.cuts)?;
        moved.move_rows(&known.cuts, &mut self.stores.kept)?;
        self.known = KnownCuts::of_moved(moved.cuts)?;
        Ok(())
    }

    /// Makes room for one cut more: where there is none, it lets go of what no load may answer any more, and of the cuts that no
    /// kept store has. There are as many as pay for a look at each row. The only error is running out of memory, after which it may
    /// tell no history.
    fn make_room_for_cuts(&mut self) -> Result<(), AllocError>
        requires some { 0 < self.old.processors }
        requires tells { (j : List Event) × AreKeptStoresOf j self.old }
        ensures rest { self.new ≡ record self.old { known = self.new.known; stores = self.new.stores } }
        ensures tells { OnOk result ((j : List Event) → AreKeptStoresOf j self.old → AreKeptStoresOf j self.new) }
    {
        if self
            .known
            .is_full_with(self.addresses * self.processors / ROWS_A_CUT)
        {
            self.let_go_of_hidden()?;
            return self.let_go_of_cuts();
        }
        Ok(())
    }

    /// Makes room for one store more by the processor to the address: where there is none, it lets go of what no load may answer
    /// any more. The only error is running out of memory, after which it may tell no history.
    fn make_room(&mut self, address: usize, by: usize) -> Result<(), AllocError>
        requires tells { (j : List Event) × AreKeptStoresOf j self.old }
        requires address { address < self.old.addresses }
        requires by { by < self.old.processors }
        ensures rest { self.new ≡ record self.old { stores = self.new.stores } }
        ensures tells { OnOk result ((j : List Event) → AreKeptStoresOf j self.old → AreKeptStoresOf j self.new) }
    {
        if is_sparse_table_row_full(&self.stores, self.row(address, by)) {
            return self.let_go(address, by);
        }
        Ok(())
    }

    /// Keeps a store of the value by the processor to the address, which comes next.
    fn keep_store(&mut self, processor: usize, address: usize, value: u32) -> Result<(), AllocError>
        requires few { self.old.cuts.place < most_judged_events }
        requires processor { processor < self.old.processors }
        requires address { address < self.old.addresses }
        requires so_far { (j : List Event) × AreKeptStoresOf j self.old }
        ensures cuts { self.new.cuts ≡ self.old.cuts }
        ensures processors { self.new.processors ≡ self.old.processors }
        ensures addresses { self.new.addresses ≡ self.old.addresses }
        ensures kept { OnOk result ((j : List Event) → AreKeptStoresOf j self.old
            → KeptStoresAreOf (did j processor (Store address value)) self.new) }
    {
        let place = self.cuts.place as u32;
        let cut = self.known.place_of(processor, self.cuts.of(processor))?;
        let row = self.row(address, processor);
        push_in_sparse_table_row(&mut self.stores, row, KeptStore { place, value, cut })
    }

    /// Keeps what the event changes, which comes next, but for the cuts so far.
    fn keep(&mut self, event: Event) -> Result<(), AllocError>
        requires few { self.old.cuts.place < most_judged_events }
        requires processor { event.processor < self.old.processors }
        requires address { EventAddressInRange self.old.addresses event.kind }
        requires so_far { (j : List Event) × AreKeptStoresOf j self.old }
        ensures cuts { self.new.cuts ≡ self.old.cuts }
        ensures processors { self.new.processors ≡ self.old.processors }
        ensures addresses { self.new.addresses ≡ self.old.addresses }
        ensures kept { OnOk result ((j : List Event) → AreKeptStoresOf j self.old
            → KeptStoresAreOf (j ++ event ∷ []) self.new) }
    {
        match event.kind {
            Kind::Store(address, value) => {
                self.make_room(address, event.processor)?;
                self.make_room_for_cuts()?;
                self.keep_store(event.processor, address, value)
            }
            _ => Ok(()),
        }
    }

    /// Takes note of the event, which comes next. The only error is running out of memory, after which it may tell no
    /// history.
    pub fn note(&mut self, event: Event) -> Result<(), AllocError>
        requires few { self.old.cuts.place < most_judged_events }
        requires processor { event.processor < self.old.processors }
        requires address { EventAddressInRange self.old.addresses event.kind }
        requires so_far { (j : List Event) × AreKeptStoresOf j self.old }
        ensures tells { OnOk result ((j : List Event) → AreKeptStoresOf j self.old
            → AreKeptStoresOf (j ++ event ∷ []) self.new) }
        ensures processors { self.new.processors ≡ self.old.processors }
        ensures addresses { self.new.addresses ≡ self.old.addresses }
    {
        self.keep(event)?;
        self.cuts.note(event)
    }
}
