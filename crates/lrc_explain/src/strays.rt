//! The stores that have the value of a load that answers no latest store of its past.
ghost use Rattle.std.specs.Prelude.{◌≤◌, length};
ghost use Rattle.causes.specs.Prelude.{ArePathWays};

use causes::{Source, Ways};
use journal::{Event, Kind};
use judge::MOST_JUDGED_PROCESSORS;
use std::alloc::{AllocError, Global};
use std::collections::BTreeMap;

/// A store of a load's value that isn't a latest store of the load's past.
#[derive(Clone, Copy)]
pub struct Stray {
    /// Where it stands: before the load.
    pub store: usize,
    /// Whether it happens before the load.
    pub is_ordered: bool,
}

/// Of each address and value the last store so far.
#[derive(Drop)]
struct LastStoresForStrays {
    places: BTreeMap<(usize, u32), usize>,
}

impl LastStoresForStrays {
    /// Before the first event.
    fn new(alloc: Global) -> LastStoresForStrays {
        LastStoresForStrays {
            places: BTreeMap::new(alloc),
        }
    }

    /// Takes note of the event at this place, the next one. The only error is running out of memory.
    fn note(&mut self, place: usize, kind: Kind) -> Result<(), AllocError> {
        if let Kind::Store(address, value) = kind {
            self.places.insert((address, value), place)?;
        }
        Ok(())
    }

    /// The place of the last store of the event's value to its address, where it is a load.
    fn of(&self, kind: Kind) -> Option<usize> {
        match kind {
            Kind::Load(address, value) => self.places.get(&(address, value)).copied(),
            _ => None,
        }
    }
}

/// Whether the event at `store` happens before the one at `place`, which is this processor's.
fn is_stray_before(
    ways: &Ways,
    events: &[Event],
    store: usize,
    place: usize,
    processor: usize,
) -> bool
    requires { ArePathWays events.now ways.now }
{
    if store >= events.len() || processor >= MOST_JUDGED_PROCESSORS {
        return false;
    }
    match ways.first(events, store, processor) {
        Some(first) => first <= place,
        None => false,
    }
}

/// Of each event the last store before it of its value, where it is a load that answers no latest store of its past and there
/// is such a store; else None. The only error is running out of memory.
///
/// It takes time in the order of the events times the logarithm of the events.
pub fn strays_of(
    alloc: Global,
    ways: &Ways,
    events: &[Event],
    sources: &[Option<Source>],
) -> Result<Vec<Option<Stray>>, AllocError>
    requires { ArePathWays events.now ways.now }
{
    let mut last = LastStoresForStrays::new(alloc);
    let mut strays = Vec::with_capacity(alloc, events.len())?;
    for (place, event) in events.iter().enumerate() {
        let stray = match (sources.get(place), last.of(event.kind)) {
            (Some(Some(Source::Unexplained)), Some(store)) => Some(Stray {
                store,
                is_ordered: is_stray_before(ways, events, store, place, event.processor),
            }),
            _ => None,
        };
        strays.push(stray)?;
        last.note(place, event.kind)?;
    }
    Ok(strays)
}
