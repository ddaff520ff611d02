//! Which store each load of a history answers.
ghost use Rattle.std.specs.Prelude.{◌≡◌, ◌↔◌, ℕ, IsTrue, IfOk, length, vec_len};
ghost use Rattle.base.specs.InOrderOnce.{Has};
ghost use Rattle.journal.specs.declared.event.Kind.TheVariants.{Store};
ghost use Rattle.journal.specs.Events.{EventAt};
ghost use Rattle.judge.specs.Sources.Latest.{AreLatest};
ghost use Rattle.judge.specs.Sources.Prelude.{AreLatestRows, IsLatestRow};
ghost use Rattle.causes.specs.Prelude.{AreSources, IsOriginAmong, IsSource, IsSourceAt, AreOriginsNamed, IsOriginNamed};
ghost use Rattle.causes.specs.Prelude.{IsOriginNamedAt};

use crate::origin::WordOrigin;
use journal::{Event, Kind};
use judge::History;
use std::alloc::{AllocError, Global};

/// Where the value that a load answers comes from.
#[derive(Clone, Copy, PartialEq, Eq)]
pub enum Source {
    /// From the store at this place: it is of the load's past and of its address, no other store to that address happens
    /// after it in that past, and its value is the reply.
    StoreAt(usize),
    /// From no store: the load's past has none to its address, and the reply is 0.
    NoStore,
    /// From nowhere: neither of these is so, and no load of a memory that keeps its promises answers this.
    Unexplained,
}

/// Whether the event stores this value.
fn is_source_of_value(event: Event, value: u32) -> bool
    ensures { IsTrue result ↔ ((a : ℕ) × (event.kind ≡ Store a value)) }
{
    match event.kind {
        Kind::Store(_, stored) => stored == value,
        _ => false,
    }
}

/// Whether the place is one of these.
fn has_source_place(places: &[usize], place: usize) -> bool
    ensures { IsTrue result ↔ Has places.now place }
{
    for other in places {
        if *other == place {
            return true;
        }
    }
    false
}

/// The store that the word of a load's copy comes from, if that is one of the load's latest stores, which stand at these places,
/// and stored this value.
fn source_origin_among(
    events: &[Event],
    places: &[usize],
    value: u32,
    origin: Option<WordOrigin>,
) -> Option<usize>
    requires latest { (k a : ℕ) × AreLatest events.now k a places.now }
    ensures { IsOriginAmong events.now places.now value origin result }
{
    let Some(origin) = origin else {
        return None;
    };
    if !has_source_place(places, origin.store) {
        return None;
    }
    if !is_source_of_value(events[origin.store], value) {
        return None;
    }
    Some(origin.store)
}

/// The source of a load that answers this value and whose latest stores stand at these places: the first one that
/// stored it.
fn first_source(events: &[Event], places: &[usize], value: u32) -> Source
    requires latest { (k a : ℕ) × AreLatest events.now k a places.now }
    ensures { (k a : ℕ) → AreLatest events.now k a places.now → IsSource events.now k a value result }
{
    for place in places {
        if is_source_of_value(events[*place], value) {
            return Source::StoreAt(*place);
        }
    }
    if places.is_empty() && value == 0 {
        Source::NoStore
    } else {
        Source::Unexplained
    }
}

/// The source of a load that answers this value, whose latest stores stand at these places, and whose copy has its word from
/// this origin: the origin if it may be that, else the first one that stored the value.
fn source_of(events: &[Event], places: &[usize], value: u32, origin: Option<WordOrigin>) -> Source
    requires latest { (k a : ℕ) × AreLatest events.now k a places.now }
    ensures source { (k a : ℕ) → AreLatest events.now k a places.now → IsSource events.now k a value result }
    ensures origin { (k a : ℕ) → AreLatest events.now k a places.now
        → IsOriginNamed events.now k a value origin result }
{
    match source_origin_among(events, places, value, origin) {
        Some(store) => Source::StoreAt(store),
        None => first_source(events, places, value),
    }
}

/// The source of the event, where it is a load. The places are its row of latest stores, and its copy has its word from this
/// origin.
fn source_at(
    events: &[Event],
    places: &[usize],
    event: Event,
    origin: Option<WordOrigin>,
) -> Option<Source>
    requires row { (k : ℕ) × EventAt events.now k event × IsLatestRow events.now k places.now }
    ensures source { (k : ℕ) → EventAt events.now k event → IsLatestRow events.now k places.now
        → IsSourceAt events.now k result }
    ensures origin { (k : ℕ) → EventAt events.now k event → IsLatestRow events.now k places.now
        → IsOriginNamedAt events.now k origin result }
{
    match event.kind {
        Kind::Load(_, value) => Some(source_of(events, places, value, origin)),
        _ => None,
    }
}

/// Of each event of the history where the value that it answers comes from, if it is a load, and None if it is none. The only
/// error is running out of memory.
///
/// `latest` has of each event the latest stores, as `judge::sources::latest` finds them, and `origins` where the word comes
/// from that its processor's copy has, as `origins` does. Where several latest stores have the value, the origin is named; if
/// it is none of them, the first.
pub fn sources_of_loads(
    alloc: Global,
    history: &History<'_>,
    latest: &[Vec<usize>],
    origins: &[Option<WordOrigin>],
) -> Result<Vec<Option<Source>>, AllocError>
    requires latest_long { length latest.now ≡ length history.now.events }
    requires latest { AreLatestRows history.now.events latest.now }
    requires origins_long { length origins.now ≡ length history.now.events }
    ensures long { IfOk result (λ v. vec_len v ≡ length history.now.events) }
    ensures sources { IfOk result (λ v. AreSources history.now.events v.items) }
    ensures origins { IfOk result (λ v. AreOriginsNamed history.now.events origins.now v.items) }
{
    let events = history.events();
    let mut sources = Vec::with_capacity(alloc, events.len())?;
    for place in 0..events.len() {
        let source = source_at(events, &latest[place], events[place], origins[place]);
        sources.push(source)?;
    }
    Ok(sources)
}
