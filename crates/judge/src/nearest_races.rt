//! The race that is nearest to an event.
ghost use Rattle.std.specs.Prelude.{◌≡◌, ◌≢◌, ◌↔◌, ◌⊎◌, IsTrue, ℕ, ◌+◌, ◌-◌, ◌*◌, ◌<◌, ◌≤◌, ◌^◌, [], ◌∷◌, ◌++◌, IfOk, IfSome, OnOk, List};
ghost use Rattle.std.specs.Prelude.{Some, slice_index};
ghost use Rattle.journal.specs.declared.event.Event.{Event};
ghost use Rattle.journal.specs.Prelude.{Conflict, EventAddressInRange};
ghost use Rattle.judge.specs.Prelude.{NearestRaceAccessesAreKept, AreNearestRacesOf, IsCutOf, IsFirstRaceTo, IsNearestRaceLastUnknown, IsNearestRaceTo, IsSparse, IsNearestRaceUnknown};
ghost use Rattle.judge.specs.Prelude.{most_judged_events, most_judged_processors, nearest_race_row, sparse_at};

use crate::cut_rows::known_in;
use crate::cuts::Cuts;
use crate::sparse_table::SparseTable;
use journal::{Event, Kind};
use std::alloc::{AllocError, Global};

/// A history, taken an event at a time, of which it tells which of its accesses race with one that comes next.
///
/// Of two accesses of a processor the later one is known to less. So each processor's last store to an address and its
/// last access of it tell all. It takes memory in the order of the accesses that are kept, at most two for each address and
/// processor, however long the history is.
#[derive(Drop)]
pub struct NearestRaces {
    processors: usize,
    addresses: usize,
    /// What each processor knows of the others.
    cuts: Cuts,
    /// Of each address and processor the place of the last store.
    stores: SparseTable<u32>,
    /// That of the last load or store.
    accesses: SparseTable<u32>,
}

/// The place of the access, if it is another processor's and isn't in the cut.
fn nearest_race_candidate(
    rows: &SparseTable<u32>,
    row: usize,
    cut: &[u32],
    processor: usize,
    by: usize,
) -> Option<usize>
    requires sparse { IsSparse rows.now }
    requires within { row + by < 2 ^ 64 }
    ensures { (i : ℕ) → (result ≡ Some i)
        ↔ IsNearestRaceUnknown (sparse_at rows.now) row (slice_index cut.now) processor by i }
{
    let place = rows.get(row + by)?;
    if by == processor || place < known_in(cut, by) {
        None
    } else {
        Some(place as usize)
    }
}

/// The later of the two places.
fn later_nearest_race(nearest: Option<usize>, place: usize) -> usize
    ensures place { place ≤ result }
    ensures nearest { IfSome nearest (λ n. n ≤ result) }
    ensures one { (result ≡ place) ⊎ (nearest ≡ Some result) }
{
    match nearest {
        Some(near) => { if near > place { near } else { place } }
        None => place,
    }
}

/// Of the last accesses of the first `count` processors, which are kept from this row on, the last one that is another
/// processor's and isn't in the cut.
fn nearest_race_in_row(
    rows: &SparseTable<u32>,
    row: usize,
    count: usize,
    cut: &[u32],
    processor: usize,
) -> Option<usize>
    requires sparse { IsSparse rows.now }
    requires within { row + count < 2 ^ 64 }
    ensures { IsNearestRaceLastUnknown (sparse_at rows.now) row (slice_index cut.now) processor count result }
{
    let mut nearest = None;
    for by in 0..count {
        if let Some(place) = nearest_race_candidate(rows, row, cut, processor, by) {
            nearest = Some(later_nearest_race(nearest, place));
        }
    }
    nearest
}

/// Whether the two accesses conflict: whether they are of one address and by two processors, and one of them stores.
fn is_nearest_race_conflict(first: Event, second: Event) -> bool
    ensures { IsTrue result ↔ ((first.processor ≢ second.processor) × Conflict first second) }
{
    let conflicts = match (first.kind, second.kind) {
        (Kind::Load(a, _), Kind::Store(b, _)) => a == b,
        (Kind::Store(a, _), Kind::Load(b, _) | Kind::Store(b, _)) => a == b,
        _ => false,
    };
    conflicts && first.processor != second.processor
}

/// The first of the events that races with this one, which comes next and whose processor has this cut.
fn first_race_to(events: &[Event], event: Event, cut: &[u32]) -> Option<usize>
    requires { IsCutOf events.now event.processor (slice_index cut.now) }
    ensures { IsFirstRaceTo events.now event result }
{
    for place in 0..events.len() {
        let earlier = events[place];
        if is_nearest_race_conflict(earlier, event)
            && place >= known_in(cut, earlier.processor) as usize
        {
            return Some(place);
        }
    }
    None
}

impl NearestRaces {
    /// Before the first event, of a history of `processors` processors, at most `MOST_JUDGED_PROCESSORS`, and `addresses`
    /// addresses. The only error is running out of memory.
    pub fn new(
        alloc: Global,
        processors: usize,
        addresses: usize,
    ) -> Result<NearestRaces, AllocError>
        requires { processors ≤ most_judged_processors }
        ensures tells { IfOk result (AreNearestRacesOf []) }
        ensures processors { IfOk result (λ x. x.processors ≡ processors) }
        ensures addresses { IfOk result (λ x. x.addresses ≡ addresses) }
    {
        let rows = addresses.checked_mul(processors).ok_or(AllocError)?;
        Ok(NearestRaces {
            processors,
            addresses,
            cuts: Cuts::new(alloc, processors)?,
            stores: SparseTable::new(alloc, rows)?,
            accesses: SparseTable::new(alloc, rows)?,
        })
    }

    /// Where the place of the processor's last access of the address is kept.
    fn row(&self, address: usize, processor: usize) -> usize
        requires fits { self.now.addresses * self.now.processors < 2 ^ 64 }
        requires address { address < self.now.addresses }
        requires processor { processor < self.now.processors }
        ensures is { result ≡ nearest_race_row self.now.processors address processor }
        ensures within { result + (self.now.processors - processor) ≤ self.now.addresses * self.now.processors }
    {
        address * self.processors + processor
    }

    /// The place of the last event that races with this one, which comes next; None where none does. It takes time in the
    /// order of the processors.
    pub fn nearest(&self, event: Event) -> Option<usize>
        requires tells { (j : List Event) × AreNearestRacesOf j self.now }
        requires processor { event.processor < self.now.processors }
        requires address { EventAddressInRange self.now.addresses event.kind }
        ensures { (j : List Event) → AreNearestRacesOf j self.now → IsNearestRaceTo j event result }
    {
        let processor = event.processor;
        let cut = self.cuts.of(processor);
        match event.kind {
            Kind::Load(address, _) => {
                nearest_race_in_row(
                    &self.stores,
                    self.row(address, 0),
                    self.processors,
                    cut,
                    processor,
                )
            }
            Kind::Store(address, _) => {
                nearest_race_in_row(
                    &self.accesses,
                    self.row(address, 0),
                    self.processors,
                    cut,
                    processor,
                )
            }
            _ => None,
        }
    }

    /// The place of the first event that races with this one, which comes next behind these; None where none does. The events are
    /// only gone through if one of them does, else it takes time in the order of the processors.
    pub fn first(&self, events: &[Event], event: Event) -> Option<usize>
        requires tells { AreNearestRacesOf events.now self.now }
        requires processor { event.processor < self.now.processors }
        requires address { EventAddressInRange self.now.addresses event.kind }
        ensures { IsFirstRaceTo events.now event result }
    {
        if self.nearest(event).is_none() {
            return None;
        }
        first_race_to(events, event, self.cuts.of(event.processor))
    }

    /// Keeps the place of the event, which comes next, if it is an access. The only error is running out of memory.
    fn keep(&mut self, event: Event) -> Result<(), AllocError>
        requires few { self.old.cuts.place < most_judged_events }
        requires processor { event.processor < self.old.processors }
        requires address { EventAddressInRange self.old.addresses event.kind }
        requires so_far { (j : List Event) × AreNearestRacesOf j self.old }
        ensures cuts { self.new.cuts ≡ self.old.cuts }
        ensures processors { self.new.processors ≡ self.old.processors }
        ensures addresses { self.new.addresses ≡ self.old.addresses }
        ensures kept { OnOk result ((j : List Event) → AreNearestRacesOf j self.old
            → NearestRaceAccessesAreKept (j ++ event ∷ []) self.new) }
    {
        let place = self.cuts.place as u32;
        match event.kind {
            Kind::Load(address, _) => {
                let row = self.row(address, event.processor);
                self.accesses.set(row, place)
            }
            Kind::Store(address, _) => {
                let row = self.row(address, event.processor);
                self.accesses.set(row, place)?;
                self.stores.set(row, place)
            }
            _ => Ok(()),
        }
    }

    /// Takes note of the event, which comes next. The only error is running out of memory, after which it may tell no
    /// history.
    pub fn note(&mut self, event: Event) -> Result<(), AllocError>
        requires few { self.old.cuts.place < most_judged_events }
        requires processor { event.processor < self.old.processors }
        requires address { EventAddressInRange self.old.addresses event.kind }
        requires so_far { (j : List Event) × AreNearestRacesOf j self.old }
        ensures tells { OnOk result ((j : List Event) → AreNearestRacesOf j self.old
            → AreNearestRacesOf (j ++ event ∷ []) self.new) }
        ensures processors { self.new.processors ≡ self.old.processors }
        ensures addresses { self.new.addresses ≡ self.old.addresses }
    {
        self.keep(event)?;
        self.cuts.note(event)
    }
}
