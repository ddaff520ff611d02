//! Which event lets another one on.
ghost use Rattle.std.specs.Prelude.{◌≡◌, ◌↔◌, ◌==◌, ◌&&◌, ◌≤◌, IsTrue, cond, length, take};
ghost use Rattle.journal.specs.declared.event.Kind.TheVariants.{Release, Set};
ghost use Rattle.journal.specs.Prelude.{event_count, event_arrives, event_departs};
ghost use Rattle.causes.specs.Prelude.{EdgeLetsOn};

use journal::{Event, Kind};

/// Whether it is a release of this lock.
fn is_edge_release(kind: Kind, lock: usize) -> bool
    ensures { IsTrue result ↔ (kind ≡ Release lock) }
{
    match kind {
        Kind::Release(released) => released == lock,
        _ => false,
    }
}

/// Whether it sets this flag.
pub(crate) fn is_edge_flag_set(kind: Kind, flag: usize) -> bool
    ensures { IsTrue result ↔ (kind ≡ Set flag) }
{
    match kind {
        Kind::Set(set) => set == flag,
        _ => false,
    }
}

/// Whether it is an arrival.
pub(crate) fn is_edge_arrival(kind: Kind) -> bool
    ensures { result ≡ event_arrives kind }
{
    match kind {
        Kind::Arrive => true,
        _ => false,
    }
}

/// One for a departure of the processor, and else none.
fn edge_departures_of(event: Event, processor: usize) -> usize
    ensures { result ≡ cond ((event.processor == processor) && event_departs event.kind) 1 0 }
{
    let departs = match event.kind {
        Kind::Depart => true,
        _ => false,
    };
    usize::from(event.processor == processor && departs)
}

/// Whether what `from` is lets on what `to` is, where `arrived` arrivals of the one's processor stand before it and
/// `departed` departures of the other's.
pub(crate) fn edge_lets_on(from: Kind, arrived: usize, to: Kind, departed: usize) -> bool
    ensures { IsTrue result ↔ EdgeLetsOn from arrived to departed }
{
    match to {
        Kind::Acquire(lock) => is_edge_release(from, lock),
        Kind::Await(flag) => is_edge_flag_set(from, flag),
        Kind::Depart => is_edge_arrival(from) && arrived == departed,
        _ => false,
    }
}

/// How many departures of the processor stand before this place.
pub(crate) fn edge_departures_before(events: &[Event], processor: usize, place: usize) -> usize
    requires { place ≤ length events.now }
    ensures { result ≡ event_count event_departs (take place events.now) processor }
{
    let mut departed = 0;
    for i in 0..place {
        departed += edge_departures_of(events[i], processor);
    }
    departed
}
