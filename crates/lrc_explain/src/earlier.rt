//! The store that stands last before each access, whether or not it is ordered before it.
ghost use Rattle.std.specs.Prelude.{◌≡◌, ◌≤◌, ◌<◌, [], List, length};
ghost use Rattle.journal.specs.declared.event.Event.{Event};
ghost use Rattle.journal.specs.Prelude.{EventProcessorsInRange};
ghost use Rattle.judge.specs.Prelude.{AreCuts, most_in_sized_history};

use journal::{Event, Kind};
use judge::{Cuts, History};
use std::alloc::{AllocError, Global};

/// The last store to the address of an access that stands before it in the history, by whomever.
#[derive(Clone, Copy)]
pub struct Earlier {
    /// Where it stands.
    pub place: usize,
    /// Whether it happens before the access.
    pub is_ordered: bool,
}

/// The last store to an address so far.
#[derive(Clone, Copy)]
struct EarlierStore {
    by: usize,
    place: usize,
}

/// Whether the processor knows the store: whether it is its own, or in its cut.
fn is_earlier_store_known(cuts: &Cuts, processor: usize, store: EarlierStore) -> bool
    requires tells { (j : List Event) × AreCuts j cuts.now }
    requires processor { processor < cuts.now.present }
{
    if store.by == processor {
        return true;
    }
    match cuts.of(processor).get(store.by) {
        Some(limit) => store.place < *limit as usize,
        None => false,
    }
}

/// The last store to the address of the event, where it is an access that comes next.
fn earlier_at(cuts: &Cuts, last: &[Option<EarlierStore>], event: Event) -> Option<Earlier>
    requires tells { (j : List Event) × AreCuts j cuts.now }
    requires processor { event.processor < cuts.now.present }
{
    let (Kind::Load(address, _) | Kind::Store(address, _)) = event.kind else {
        return None;
    };
    let Some(Some(store)) = last.get(address) else {
        return None;
    };
    Some(Earlier {
        place: store.place,
        is_ordered: is_earlier_store_known(cuts, event.processor, *store),
    })
}

/// Keeps the event at this place, where it is a store.
fn keep_earlier_store(last: &mut [Option<EarlierStore>], place: usize, event: Event) {
    if let Kind::Store(address, _) = event.kind {
        if let Some(kept) = last.get_mut(address) {
            *kept = Some(EarlierStore {
                by: event.processor,
                place,
            });
        }
    }
}

/// Finds the last store before each event of a history, of which `cuts` tells nothing yet. `last` has the last store to
/// each address so far.
fn collect_earlier_stores(
    found: &mut [Option<Earlier>],
    last: &mut [Option<EarlierStore>],
    cuts: &mut Cuts,
    events: &[Event],
) -> Result<(), AllocError>
    requires few { length events.now ≤ most_in_sized_history }
    requires places { length found.old ≡ length events.now }
    requires tells { AreCuts [] cuts.old }
    requires processors { EventProcessorsInRange cuts.old.present events.now }
{
    for place in 0..events.len() {
        let event = events[place];
        found[place] = earlier_at(cuts, last, event);
        keep_earlier_store(last, place, event);
        cuts.note(event)?;
    }
    Ok(())
}

/// Of each event of the history, in order: the last store to its address before it, where it is an access and there is such a
/// store; else None. The only error is running out of memory.
///
/// It takes time in the order of the events, and for those of locks, flags and the barrier in that of the processors.
pub fn earlier_stores_before(
    alloc: Global,
    history: &History<'_>,
) -> Result<Vec<Option<Earlier>>, AllocError> {
    let events = history.events();
    let mut last = vec![in alloc; None; history.addresses()]?;
    let mut found = vec![in alloc; None; events.len()]?;
    let mut cuts = Cuts::new(alloc, history.sizes().processors)?;
    let collected = collect_earlier_stores(&mut found, &mut last, &mut cuts, events);
    drop(cuts);
    collected?;
    Ok(found)
}
