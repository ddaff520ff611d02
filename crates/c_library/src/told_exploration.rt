//! What C is told of a script's schedules.
ghost use Rattle.std.specs.Prelude.{◌≡◌, slice_index_or};
ghost use Rattle.c_library.specs.Prelude.{told_exploration_awaited_by, told_exploration_hanging, told_exploration_kind, told_exploration_number, told_exploration_racing, told_exploration_access};
ghost use Rattle.c_library.specs.Prelude.{told_exploration_conflict, told_exploration, told_exploration_wait, told_exploration_waits, told_exploration_value};

use crate::told_verdict::NONE;
use explore::{Explored, Hanging, Verdict};
use journal::{Event, Kind, MOST_PROCESSORS};

/// An access of a schedule; `NONE` in each field where there is none.
#[repr(C)]
#[derive(Clone, Copy)]
pub struct ToldAccess {
    /// Its place in the schedule, from 0.
    pub place: u64,
    pub processor: u64,
    /// Its kind's place among those of `journal::Kind`, from 0.
    pub kind: u64,
    pub address: u64,
    /// The word that it answered or wrote.
    pub value: u64,
}

/// Two accesses of a schedule that race.
#[repr(C)]
#[derive(Clone, Copy)]
pub struct ToldConflict {
    pub first: ToldAccess,
    /// The last event of the schedule.
    pub second: ToldAccess,
}

/// What a processor waits for; `NONE` twice where it doesn't wait.
#[repr(C)]
#[derive(Clone, Copy)]
pub struct ToldWait {
    /// The kind of the event that would end the wait.
    pub kind: u64,
    /// The lock or the flag.
    pub number: u64,
}

/// What is found of a script's schedules.
#[repr(C)]
#[derive(Clone, Copy)]
pub struct ToldExploration {
    /// 0 it never races, 1 it can race, 2 that isn't known.
    pub verdict: u64,
    /// 0 it never hangs, 1 it can hang, 2 that isn't known.
    pub hangs: u64,
    /// How many states were found.
    pub states: u64,
    /// How many different results of whole runs were met: what the shown words are at the end.
    pub outcomes: u64,
    /// 1 if there are no others, else 0.
    pub are_all: u64,
    /// A race, where it can race.
    pub race: ToldConflict,
    /// Where it can hang, what each processor waits for then.
    pub waits: [ToldWait; MOST_PROCESSORS],
}

/// No access.
const NO_ACCESS: ToldAccess = ToldAccess {
    place: NONE,
    processor: NONE,
    kind: NONE,
    address: NONE,
    value: NONE,
};

/// No wait.
const NO_WAIT: ToldWait = ToldWait {
    kind: NONE,
    number: NONE,
};

/// The number of a kind.
fn told_exploration_kind(kind: Kind) -> u64
    ensures { result ≡ told_exploration_kind kind }
{
    match kind {
        Kind::Load(..) => 0,
        Kind::Store(..) => 1,
        Kind::Fetch { .. } => 2,
        Kind::Ask(_) => 3,
        Kind::Acquire(_) => 4,
        Kind::Release(_) => 5,
        Kind::Arrive => 6,
        Kind::Depart => 7,
        Kind::Set(_) => 8,
        Kind::Watch(_) => 9,
        Kind::Await(_) => 10,
    }
}

/// The address, page, lock or flag that a kind names.
fn told_exploration_number(kind: Kind) -> u64
    ensures { result ≡ told_exploration_number kind }
{
    match kind {
        Kind::Load(number, _)
        | Kind::Store(number, _)
        | Kind::Fetch { page: number, .. }
        | Kind::Ask(number)
        | Kind::Acquire(number)
        | Kind::Release(number)
        | Kind::Set(number)
        | Kind::Watch(number)
        | Kind::Await(number) => number as u64,
        Kind::Arrive | Kind::Depart => NONE,
    }
}

/// The word that a kind names.
fn told_exploration_value(kind: Kind) -> u64
    ensures { result ≡ told_exploration_value kind }
{
    match kind {
        Kind::Load(_, value) | Kind::Store(_, value) => value as u64,
        _ => NONE,
    }
}

/// The event of these at a place.
fn told_exploration_access(events: &[Event], place: usize) -> ToldAccess
    ensures { result ≡ told_exploration_access events.now place }
{
    match events.get(place) {
        Some(event) => ToldAccess {
            place: place as u64,
            processor: event.processor as u64,
            kind: told_exploration_kind(event.kind),
            address: told_exploration_number(event.kind),
            value: told_exploration_value(event.kind),
        },
        None => NO_ACCESS,
    }
}

/// The two that race.
fn told_exploration_conflict(verdict: &Verdict) -> ToldConflict
    ensures { result ≡ told_exploration_conflict verdict.now }
{
    match verdict {
        Verdict::Racy(racy) => ToldConflict {
            first: told_exploration_access(&racy.events, racy.first),
            second: told_exploration_access(&racy.events, racy.events.len().saturating_sub(1)),
        },
        _ => ToldConflict {
            first: NO_ACCESS,
            second: NO_ACCESS,
        },
    }
}

/// The event that would end a wait.
fn told_exploration_wait(awaited: Option<Kind>) -> ToldWait
    ensures { result ≡ told_exploration_wait awaited }
{
    match awaited {
        Some(kind) => ToldWait {
            kind: told_exploration_kind(kind),
            number: told_exploration_number(kind),
        },
        None => NO_WAIT,
    }
}

/// What the processor waits for.
fn told_exploration_awaited_at(waits: &[Option<Kind>], processor: usize) -> Option<Kind>
    ensures { result ≡ slice_index_or waits.now processor None }
{
    if processor < waits.len() {
        waits[processor]
    } else {
        None
    }
}

/// What each processor that there may be waits for.
fn told_exploration_waits(waits: &[Option<Kind>]) -> [ToldWait; MOST_PROCESSORS]
    ensures { result ≡ told_exploration_waits waits.now }
{
    let mut told = [NO_WAIT; MOST_PROCESSORS];
    for processor in 0..MOST_PROCESSORS {
        told[processor] = told_exploration_wait(told_exploration_awaited_at(waits, processor));
    }
    told
}

/// What each waits for where a schedule hangs.
fn told_exploration_awaited_by(hanging: &Hanging) -> [ToldWait; MOST_PROCESSORS]
    ensures { result ≡ told_exploration_awaited_by hanging.now }
{
    match hanging {
        Hanging::Hangs(hang) => told_exploration_waits(&hang.waits),
        _ => [NO_WAIT; MOST_PROCESSORS],
    }
}

/// Whether the script races.
fn told_exploration_racing(verdict: &Verdict) -> u64
    ensures { result ≡ told_exploration_racing verdict.now }
{
    match verdict {
        Verdict::RaceFree => 0,
        Verdict::Racy(_) => 1,
        Verdict::Undecided => 2,
    }
}

/// Whether a schedule of it hangs.
fn told_exploration_hanging(hanging: &Hanging) -> u64
    ensures { result ≡ told_exploration_hanging hanging.now }
{
    match hanging {
        Hanging::Never => 0,
        Hanging::Hangs(_) => 1,
        Hanging::Undecided => 2,
    }
}

/// All that was found.
pub fn told_exploration(found: &Explored) -> ToldExploration
    ensures { result ≡ told_exploration found.now }
{
    ToldExploration {
        verdict: told_exploration_racing(&found.verdict),
        hangs: told_exploration_hanging(&found.hanging),
        states: found.states as u64,
        outcomes: found.outcomes.len() as u64,
        are_all: if found.are_all { 1 } else { 0 },
        race: told_exploration_conflict(&found.verdict),
        waits: told_exploration_awaited_by(&found.hanging),
    }
}
