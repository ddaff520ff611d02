//! The journal that is measured: the same for the same number of events.
//!
//! Its rounds have eight events each. Eight processors hold a lock one after the other, then the next
//! lock; each of the 64 locks guards the page of its number. The holder fetches the page if others
//! stored to it since its last fetch. Then it loads and stores two neighbouring words of it. The next
//! turns of the lock leave these alone until all of the page had theirs.
ghost use Rattle.std.specs.Prelude.{◌≡◌, ◌^◌, ◌≤◌, ◌<◌, IfOk, length};
ghost use Rattle.journal.specs.Prelude.{EventAddressInRange};

use journal::{Event, Journal, Kind};
use std::alloc::{AllocError, Global};

/// The processors of the journal's cluster.
const PROCESSORS: usize = 8;

/// The addresses of the journal's cluster: 64 pages of 64 words.
const ADDRESSES: usize = 4096;

/// Rounds between two in which one processor stores to one address.
const PERIOD: usize = 16384;

/// The round's processor.
fn processor_of(round: usize) -> usize
    ensures { result < 8 }
{
    round % PROCESSORS
}

/// The round's page, which is its lock too.
fn page_of(round: usize) -> usize
    ensures { result < 64 }
{
    round / 8 % 64
}

/// The first of the two addresses that the round uses; the second one follows it.
fn first_address_of(round: usize) -> usize
    ensures { result < 4095 }
{
    64 * page_of(round) + 2 * (round / 512 % 32)
}

/// What the round stores.
fn value_of(round: usize) -> u32
    requires { round ≤ 2 ^ 20 }
{
    round as u32 + 1
}

/// What the round's addresses hold before it.
fn value_before(round: usize) -> u32
    requires { round ≤ 2 ^ 20 }
{
    if processor_of(round) != 0 {
        // The value of the round before.
        round as u32
    } else if round >= PERIOD {
        value_of(round - PERIOD + 7)
    } else {
        0
    }
}

/// How many other processors stored to the round's page since its processor's last fetch of it.
fn writers_of(round: usize) -> u32
    ensures { result < 8 }
{
    if round < 512 {
        processor_of(round) as u32
    } else {
        7
    }
}

/// The fetch of the round's page; where there is nothing to fetch, one more load.
fn fetch_of(round: usize) -> Kind
    requires { round ≤ 2 ^ 20 }
    ensures { EventAddressInRange 4096 result }
{
    match writers_of(round) {
        0 => Kind::Load(first_address_of(round), value_before(round)),
        writers => Kind::Fetch {
            page: page_of(round),
            writers,
            records: writers,
            words: 2 * writers,
        },
    }
}

/// What the round's event of this number does.
fn kind_of(round: usize, number: usize) -> Kind
    requires { round ≤ 2 ^ 20 }
    ensures { EventAddressInRange 4096 result }
{
    let lock = page_of(round);
    let address = first_address_of(round);
    match number {
        0 => Kind::Ask(lock),
        1 => Kind::Acquire(lock),
        2 => fetch_of(round),
        3 => Kind::Load(address, value_before(round)),
        4 => Kind::Store(address, value_of(round)),
        5 => Kind::Load(address + 1, value_before(round)),
        6 => Kind::Store(address + 1, value_of(round)),
        _ => Kind::Release(lock),
    }
}

/// The event at this place.
fn event_at(place: usize) -> Event
    requires { place ≤ 2 ^ 21 }
    ensures processor { result.processor < 8 }
    ensures address { EventAddressInRange 4096 result.kind }
{
    let round = place / 8;
    Event {
        processor: processor_of(round),
        kind: kind_of(round, place % 8),
    }
}

/// The journal of this many events. The only error is running out of memory.
pub fn build(alloc: Global, events: usize) -> Result<Journal, AllocError>
    requires { events ≤ 2 ^ 21 }
    ensures { IfOk result (λ j. length j.events ≡ events) }
{
    let mut journal = Journal::new(alloc, PROCESSORS, ADDRESSES)?;
    journal.reserve(events)?;
    for place in 0..events {
        journal.append(event_at(place));
    }
    Ok(journal)
}
