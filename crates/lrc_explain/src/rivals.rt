//! The rivals of the store that a load answers: the other latest stores of its past, and how they came into the copy.
ghost use Rattle.std.specs.Prelude.{◌≡◌, length};
ghost use Rattle.causes.specs.Prelude.{ArePathWays};

use crate::page_copy::PageCopy;
use causes::{Source, Ways};
use journal::{Event, Kind};
use judge::MOST_JUDGED_PROCESSORS;
use std::alloc::{AllocError, Global};
use std::collections::BTreeMap;

/// A latest store of a load that isn't the one that it answers.
#[derive(Clone, Copy)]
pub struct Rival {
    /// Where it stands.
    pub store: usize,
    /// Whether it is one of the load's own processor.
    pub is_own: bool,
    /// Where the load's processor fetched it before the load, where it did.
    pub fetch: Option<usize>,
}

/// A load whose rivals are found.
#[derive(Clone, Copy)]
struct RivaledLoad {
    place: usize,
    processor: usize,
    address: usize,
}

/// What rivals are found by.
#[derive(Drop)]
struct RivalSearch<'a> {
    ways: &'a Ways,
    events: &'a [Event],
    /// How many words a page has, where that is known.
    words: Option<usize>,
    /// Of each copy, the places of its processor's fetches of the page.
    fetches: BTreeMap<PageCopy, Vec<usize>>,
}

/// Of each copy, the places of its processor's fetches of the page. The only error is running out of memory.
fn rival_fetches_of(
    alloc: Global,
    events: &[Event],
) -> Result<BTreeMap<PageCopy, Vec<usize>>, AllocError> {
    let mut fetches = BTreeMap::new(alloc);
    for (place, event) in events.iter().enumerate() {
        if let Kind::Fetch { page, .. } = event.kind {
            let processor = event.processor;
            let copy = PageCopy { page, processor };
            fetches.entry(copy)?.or_insert(Vec::new(alloc)).push(place)?;
        }
    }
    Ok(fetches)
}

/// The first of these places from this one on.
fn first_rival_fetch_from(places: &[usize], from: usize) -> Option<usize> {
    let index = places.partition_point(|place| *place < from);
    places.get(index).copied()
}

impl RivalSearch<'_> {
    /// Where the load's processor fetched the store, which is another one's, before the load.
    fn fetch_of(&self, store: usize, load: RivaledLoad) -> Option<usize>
        requires { ArePathWays self.now.events.now self.now.ways.now }
    {
        let words = self.words?;
        let processor = load.processor;
        if words == 0 || store >= self.events.len() || processor >= MOST_JUDGED_PROCESSORS {
            return None;
        }
        let page = load.address / words;
        let first = self.ways.first(self.events, store, processor)?;
        let places = self.fetches.get(&PageCopy { page, processor })?;
        let fetch = first_rival_fetch_from(places, first)?;
        if fetch < load.place {
            Some(fetch)
        } else {
            None
        }
    }

    /// The rival of the load that stands there.
    fn rival(&self, store: usize, load: RivaledLoad) -> Rival
        requires { ArePathWays self.now.events.now self.now.ways.now }
    {
        let is_own = match self.events.get(store) {
            Some(event) => event.processor == load.processor,
            None => false,
        };
        let fetch = if is_own {
            None
        } else {
            self.fetch_of(store, load)
        };
        Rival {
            store,
            is_own,
            fetch,
        }
    }

    /// The rivals of the load that has these latest stores and answers the store at this place.
    fn rivals(
        &self,
        alloc: Global,
        latest: &[usize],
        answered: usize,
        load: RivaledLoad,
    ) -> Result<Vec<Rival>, AllocError>
        requires { ArePathWays self.now.events.now self.now.ways.now }
    {
        let mut rivals = Vec::new(alloc);
        for store in latest {
            if *store != answered {
                rivals.push(self.rival(*store, load))?;
            }
        }
        Ok(rivals)
    }

    /// The rivals of the event at this place, which has these latest stores and this source; none where it is no load that
    /// answers a store.
    fn rivals_at(
        &self,
        alloc: Global,
        latest: &[usize],
        source: Option<Source>,
        place: usize,
        event: Event,
    ) -> Result<Vec<Rival>, AllocError>
        requires { ArePathWays self.now.events.now self.now.ways.now }
    {
        let (Kind::Load(address, _), Some(Source::StoreAt(answered))) = (event.kind, source) else {
            return Ok(Vec::new(alloc));
        };
        let load = RivaledLoad {
            place,
            processor: event.processor,
            address,
        };
        self.rivals(alloc, latest, answered, load)
    }
}

/// Of each event its rivals, where it is a load that answers a store; else none. The only error is running out of memory.
///
/// It takes time in the order of the events and their latest stores, times the logarithm of the events.
pub fn rivals_of(
    alloc: Global,
    ways: &Ways,
    events: &[Event],
    words: Option<usize>,
    latest: &[Vec<usize>],
    sources: &[Option<Source>],
) -> Result<Vec<Vec<Rival>>, AllocError>
    requires ways { ArePathWays events.now ways.now }
    requires latest { length latest.now ≡ length events.now }
    requires sources { length sources.now ≡ length events.now }
{
    let rivalry = RivalSearch {
        ways,
        events,
        words,
        fetches: rival_fetches_of(alloc, events)?,
    };
    let mut rows = Vec::with_capacity(alloc, events.len())?;
    for place in 0..events.len() {
        let (latest, source) = (&latest[place], sources[place]);
        rows.push(rivalry.rivals_at(alloc, latest, source, place, events[place])?)?;
    }
    Ok(rows)
}
