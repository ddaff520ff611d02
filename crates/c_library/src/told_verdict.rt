//! What C is told of a history.
ghost use Rattle.std.specs.Prelude.{◌≡◌, ◌+◌, option_map};
ghost use Rattle.judge.specs.Why.{why_rank};
ghost use Rattle.c_library.specs.Prelude.{told_verdict_earlier, told_verdict_number, told_verdict_other, told_verdict_ill_formed, told_verdict_lie, told_verdict_miscounted};
ghost use Rattle.c_library.specs.Prelude.{told_verdict_of, told_verdict_race, told_verdict_store, told_verdict_stores, told_verdict_traffic, told_verdict_unexplained};

use journal::{MOST_PROCESSORS, Traffic};
use judge::{FlatStore, IllFormed, Miscounted, Permitted, Why};
use lrc_check::{Checked, Lie, TraceVerdict, Unexplained};

/// No place, and nobody.
pub const NONE: u64 = u64::MAX;

/// The places of two accesses that race, `NONE` twice where none do.
#[repr(C)]
#[derive(Clone, Copy)]
pub struct ToldRace {
    pub first: u64,
    pub second: u64,
}

/// What events cost.
#[repr(C)]
#[derive(Clone, Copy)]
pub struct ToldTraffic {
    pub messages: u64,
    pub records: u64,
    pub words: u64,
}

/// An event that no memory of the model makes after what stands before it, and why.
#[repr(C)]
#[derive(Clone, Copy)]
pub struct ToldLie {
    /// 1 it is a load that returned what it may not. 2 it is a fetch that counts what it should not. From 3 on it may not
    /// follow, by the reasons of `judge::Why` in their order. 0 there is no lie.
    pub why: u64,
    /// Its place in the history, counted from 0.
    pub place: u64,
    /// Who holds the lock, asked for it earlier, or has not arrived.
    pub other: u64,
    /// The place where the lock was asked for earlier.
    pub earlier: u64,
    /// What the fetch has to count.
    pub writers: u64,
    pub records: u64,
    pub words: u64,
    /// What the load may answer: of each processor, the place of its store that is a latest one of the load's past. Where
    /// there is none of anyone's, 0 alone. Under happens-before consistency there may be others.
    pub stores: [u64; MOST_PROCESSORS],
    /// Under sequential consistency, the place of the one store that it may answer.
    pub last: u64,
}

/// What is found of a history.
#[repr(C)]
#[derive(Clone, Copy)]
pub struct ToldVerdict {
    /// 0 it is faithful, 1 it lies, 2 judging ended with a race.
    pub verdict: u64,
    /// How many events were judged: all, or those up to the lie or the race and with it.
    pub judged: u64,
    /// The first lie.
    pub lie: ToldLie,
    /// The nearest race of what was judged.
    pub race: ToldRace,
    /// What a faithful history's events cost, by the counts of its own fetches; else zeros.
    pub traffic: ToldTraffic,
    /// How many loads of a faithful history weren't judged.
    pub unjudged: u64,
}

/// No lie.
const NO_LIE: ToldLie = ToldLie {
    why: 0,
    place: NONE,
    other: NONE,
    earlier: NONE,
    writers: 0,
    records: 0,
    words: 0,
    stores: [NONE; MOST_PROCESSORS],
    last: NONE,
};

/// Nothing spent.
const NO_TRAFFIC: ToldTraffic = ToldTraffic {
    messages: 0,
    records: 0,
    words: 0,
};

/// The number, or `NONE`.
fn told_verdict_number(number: Option<usize>) -> u64
    ensures { result ≡ told_verdict_number number }
{
    match number {
        Some(number) => number as u64,
        None => NONE,
    }
}

/// The places of these stores, each of the processor whose it is.
fn told_verdict_stores(stores: &[FlatStore]) -> [u64; MOST_PROCESSORS]
    ensures { result ≡ told_verdict_stores stores.now }
{
    let mut places = [NONE; MOST_PROCESSORS];
    for store in stores {
        if store.by < MOST_PROCESSORS {
            places[store.by] = u64::from(store.place);
        }
    }
    places
}

/// The place of the store, or `NONE`.
fn told_verdict_last(store: Option<FlatStore>) -> u64
    ensures { result ≡ told_verdict_number (option_map (λ x. x.place) store) }
{
    match store {
        Some(store) => u64::from(store.place),
        None => NONE,
    }
}

/// The place of the store, of the processor whose it is.
fn told_verdict_store(store: Option<FlatStore>) -> [u64; MOST_PROCESSORS]
    ensures { result ≡ told_verdict_store store }
{
    let mut places = [NONE; MOST_PROCESSORS];
    if let Some(store) = store {
        if store.by < MOST_PROCESSORS {
            places[store.by] = u64::from(store.place);
        }
    }
    places
}

/// The number of a reason.
fn told_verdict_why(why: Why) -> u64
    ensures { result ≡ 3 + why_rank why }
{
    match why {
        Why::NoSuchProcessor => 3,
        Why::OutOfRange => 4,
        Why::Waits(_) => 5,
        Why::AsksWhatItHolds => 6,
        Why::NotAsked => 7,
        Why::HeldBy(_) => 8,
        Why::AskedEarlier(..) => 9,
        Why::NotHeld => 10,
        Why::NotArrived(_) => 11,
        Why::NotSet => 12,
    }
}

/// Whom a reason names.
fn told_verdict_other(why: Why) -> u64
    ensures { result ≡ told_verdict_other why }
{
    match why {
        Why::HeldBy(other) | Why::AskedEarlier(other, _) | Why::NotArrived(other) => other as u64,
        _ => NONE,
    }
}

/// The earlier place that a reason names.
fn told_verdict_earlier(why: Why) -> u64
    ensures { result ≡ told_verdict_earlier why }
{
    match why {
        Why::AskedEarlier(_, place) => place as u64,
        _ => NONE,
    }
}

/// An event that may not follow.
fn told_verdict_ill_formed(event: &IllFormed) -> ToldLie
    ensures { result ≡ told_verdict_ill_formed event.now }
{
    ToldLie {
        why: told_verdict_why(event.why),
        place: event.place as u64,
        other: told_verdict_other(event.why),
        earlier: told_verdict_earlier(event.why),
        ..NO_LIE
    }
}

/// A load of what it may not answer.
fn told_verdict_unexplained(load: &Unexplained) -> ToldLie
    ensures { result ≡ told_verdict_unexplained load.now }
{
    let place = load.place as u64;
    match &load.permitted {
        Permitted::One(store) => ToldLie {
            why: 1,
            place,
            stores: told_verdict_store(*store),
            ..NO_LIE
        },
        Permitted::Latest(latest) | Permitted::Heard(latest, _) => ToldLie {
            why: 1,
            place,
            stores: told_verdict_stores(latest),
            ..NO_LIE
        },
        Permitted::Last(last) => ToldLie {
            why: 1,
            place,
            last: told_verdict_last(*last),
            ..NO_LIE
        },
    }
}

/// A fetch that counts what it should not.
fn told_verdict_miscounted(fetch: &Miscounted) -> ToldLie
    ensures { result ≡ told_verdict_miscounted fetch.now }
{
    ToldLie {
        why: 2,
        place: fetch.place as u64,
        writers: fetch.writers as u64,
        records: fetch.records as u64,
        words: fetch.words as u64,
        ..NO_LIE
    }
}

/// The lie.
fn told_verdict_lie(found: &Lie) -> ToldLie
    ensures { result ≡ told_verdict_lie found.now }
{
    match found {
        Lie::IllFormed(event) => told_verdict_ill_formed(event),
        Lie::Unexplained(load) => told_verdict_unexplained(load),
        Lie::Miscounted(fetch) => told_verdict_miscounted(fetch),
    }
}

/// The race.
pub fn told_verdict_race(found: Option<(usize, usize)>) -> ToldRace
    ensures { result ≡ told_verdict_race found }
{
    match found {
        Some((first, second)) => ToldRace {
            first: first as u64,
            second: second as u64,
        },
        None => ToldRace {
            first: NONE,
            second: NONE,
        },
    }
}

/// The costs.
fn told_verdict_traffic(spent: &Traffic) -> ToldTraffic
    ensures { result ≡ told_verdict_traffic spent.now }
{
    ToldTraffic {
        messages: spent.messages,
        records: spent.records,
        words: spent.words,
    }
}

/// All that was found.
pub fn told_verdict(found: &Checked) -> ToldVerdict
    ensures { result ≡ told_verdict_of found.now }
{
    let judged = found.count as u64;
    let race = told_verdict_race(found.race);
    match &found.verdict {
        TraceVerdict::Faithful {
            traffic: spent,
            unjudged,
        } => ToldVerdict {
            verdict: 0,
            judged,
            lie: NO_LIE,
            race,
            traffic: told_verdict_traffic(spent),
            unjudged: *unjudged as u64,
        },
        TraceVerdict::Lie(found) => ToldVerdict {
            verdict: 1,
            judged,
            lie: told_verdict_lie(found),
            race,
            traffic: NO_TRAFFIC,
            unjudged: 0,
        },
        TraceVerdict::Racy => ToldVerdict {
            verdict: 2,
            judged,
            lie: NO_LIE,
            race,
            traffic: NO_TRAFFIC,
            unjudged: 0,
        },
    }
}
