//! What each load of a whole history may answer.
ghost use Rattle.std.specs.Prelude.{◌≡◌, ℕ, ◌<◌, ◌≤◌, ◌+◌, ◌∷◌, ◌++◌, [], IfOk, List, length, map, vec_len};
ghost use Rattle.journal.specs.declared.event.Event.{Event};
ghost use Rattle.journal.specs.Prelude.{EventAddressInRange, EventAddressesInRange, EventProcessorsInRange};
ghost use Rattle.judge.specs.declared.flat_memory.FlatStore.{FlatStore as ALatestStore};
ghost use Rattle.judge.specs.Prelude.{AreKeptStoresOf};
ghost use Rattle.judge.specs.Sources.Prelude.{AreLatestRows, IsLatestRow};

use crate::flat_memory::FlatStore;
use crate::history::History;
use crate::kept_stores::KeptStores;
use journal::{Event, Kind};
use std::alloc::{AllocError, Global};

/// The places of these stores.
fn latest_store_places(alloc: Global, stores: &[FlatStore]) -> Result<Vec<usize>, AllocError>
    ensures { IfOk result (λ v. v.items ≡ map (λ (x : ALatestStore). x.place) stores.now) }
{
    stores
        .iter()
        .map(|store| store.place as usize)
        .collect(alloc)
}

/// The places of the latest stores of the event, which comes next.
fn latest_row_of(
    alloc: Global,
    sources: &KeptStores,
    event: Event,
) -> Result<Vec<usize>, AllocError>
    requires tells { (j : List Event) × AreKeptStoresOf j sources.now }
    requires processor { event.processor < sources.now.processors }
    requires address { EventAddressInRange sources.now.addresses event.kind }
    ensures { IfOk result (λ v. (j : List Event) → AreKeptStoresOf j sources.now
        → IsLatestRow (j ++ event ∷ []) (length j) v.items) }
{
    let Kind::Load(address, _) = event.kind else {
        return Ok(Vec::new(alloc));
    };
    let latest = sources.latest(alloc, event.processor, address)?;
    latest_store_places(alloc, &latest)
}

/// Of each event of the history: the places of the latest stores of its past to its address, by rising processor, where it is a
/// load; no place where it is none. The only error is running out of memory.
///
/// A load that has no place may answer 0, and any other the value of each of its places. It takes time in the order
/// of the events times the processors times (the processors and the logarithm of the events), and memory as
/// `KeptStores` does, besides the answer.
pub fn latest_rows(alloc: Global, history: &History<'_>) -> Result<Vec<Vec<usize>>, AllocError>
    ensures long { IfOk result (λ v. vec_len v ≡ length history.now.events) }
    ensures rows { IfOk result (λ v. AreLatestRows history.now.events v.items) }
{
    let events = history.events();
    let mut sources = KeptStores::new(alloc, history.sizes().processors, history.addresses())?;
    let mut rows = Vec::with_capacity(alloc, events.len())?;
    for place in 0..events.len() {
        let row = latest_row_of(alloc, &sources, events[place])?;
        rows.push(row)?;
        sources.note(events[place])?;
    }
    Ok(rows)
}
