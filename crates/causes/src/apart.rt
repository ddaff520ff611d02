//! What keeps the two accesses of a race apart: what the one's processor had heard of the other's, and which locks they held.
ghost use Rattle.std.specs.Prelude.{◌<◌, ◌≤◌, IfOk, length};
ghost use Rattle.journal.specs.declared.event.Event.{Event};
ghost use Rattle.journal.specs.Prelude.{EventProcessorsInRange, Race};
ghost use Rattle.judge.specs.Prelude.{most_in_sized_history, most_judged_processors};
ghost use Rattle.causes.specs.Prelude.{IsRaceApart};

use crate::heard::heard;
use crate::lock_holders::locks_of_holder_at;
use journal::Event;
use judge::History;
use std::alloc::{AllocError, Global};

/// Two accesses that race, and what keeps them apart.
#[derive(Drop)]
pub struct RaceApart {
    /// The place of the access that comes first.
    pub first: usize,
    /// The place of the other access, which has nothing to order it after the first one.
    pub second: usize,
    /// The place of the last event of the first one's processor that the second one's processor had heard of: the
    /// greatest place that happens before the second access. None where there is none.
    pub heard: Option<usize>,
    /// The locks that the first one's processor holds at it, rising.
    pub first_locks: Vec<usize>,
    /// The locks that the second one's processor holds at it, rising.
    pub second_locks: Vec<usize>,
}

/// What keeps the two accesses of this race of the events apart, which so many processors made, at most `judge::MOST_JUDGED_PROCESSORS`, with
/// so many locks. The only error is running out of memory.
///
/// It takes time in the order of the events up to the second access times the processors, and of the locks.
pub fn race_accesses_apart(
    alloc: Global,
    processors: usize,
    locks: usize,
    events: &[Event],
    race: (usize, usize),
) -> Result<RaceApart, AllocError>
    requires few { length events.now ≤ most_in_sized_history }
    requires few_processors { processors ≤ most_judged_processors }
    requires processors { EventProcessorsInRange processors events.now }
    requires race { Race events.now race.0 race.1 }
    ensures { IfOk result (IsRaceApart locks events.now race.0 race.1) }
{
    let (first, second) = race;
    let by = events[first].processor;
    let heard = heard(alloc, processors, events, by, second)?;
    let first_locks = locks_of_holder_at(alloc, events, first, locks)?;
    let second_locks = locks_of_holder_at(alloc, events, second, locks)?;
    Ok(RaceApart {
        first,
        second,
        heard,
        first_locks,
        second_locks,
    })
}

/// What keeps the two accesses of this race of the history apart, as `race_accesses_apart` answers it.
pub fn race_apart(
    alloc: Global,
    history: &History<'_>,
    race: (usize, usize),
) -> Result<RaceApart, AllocError>
    requires { Race history.now.events race.0 race.1 }
    ensures { IfOk result (IsRaceApart history.now.sizes.locks history.now.events race.0 race.1) }
{
    let sizes = history.sizes();
    race_accesses_apart(alloc, sizes.processors, sizes.locks, history.events(), race)
}
