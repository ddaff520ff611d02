//! Two next events that conflict, as a history whose last event is the first one that races.
ghost use Rattle.std.specs.Prelude.{◌≡◌, IfOk, MatchOption};
ghost use Rattle.journal.specs.Prelude.{IsFirstRace, RaceFree};
ghost use Rattle.conformance.specs.Follows.{plan_sizes};
ghost use Rattle.judge.specs.Prelude.{judged_sizes_of as judged_sizes};
ghost use Rattle.lrc_script.specs.Prelude.{IsLawful, Plan, plan_of};
ghost use Rattle.explore.specs.Prefixes.Prelude.{IsFlatBeginning};
ghost use Rattle.explore.specs.Explored.{IsExploredRacy};
ghost use Rattle.explore.specs.Racing.{AreRacing, IsRacingBeginning};

use crate::outcomes::answer::RacyEvents;
use crate::prefixes::ScriptCall;
use crate::search::neighbours::Neighbours;
use crate::state::found_states::FoundStates;
use journal::Event;
use judge::{History, Sizes};
use lrc_script::script::Script;
use std::alloc::{AllocError, Global};

/// The events to the state, and then the two that conflict, one after the other.
fn racing_history_events(
    alloc: Global,
    steps: &[Vec<ScriptCall>],
    found: &FoundStates,
    neighbours: Neighbours,
) -> Result<Vec<Event>, AllocError>
    requires { (s : Plan) × AreRacing s found.now steps.now neighbours }
    ensures { IfOk result (λ v. (s : Plan) → AreRacing s found.now steps.now neighbours
        → IsRacingBeginning s v.items) }
{
    let Neighbours {
        place,
        first,
        second,
    } = neighbours;
    let mut events = found.events_to(alloc, steps, place)?;
    let mut state = found.at(place)?;
    state.step(steps, first.processor, first.kind)?;
    let kind = state.next(steps, second.processor).unwrap();
    events.push(first)?;
    events.push(Event {
        processor: second.processor,
        kind,
    })?;
    Ok(events)
}

/// The sizes of the script's memory.
fn racing_history_sizes(script: &Script) -> Sizes
    ensures { judged_sizes result ≡ plan_sizes (plan_of script.now) }
{
    Sizes {
        processors: script.processors,
        pages: script.pages,
        words: script.words,
        locks: script.locks,
        flags: script.flags,
    }
}

/// The places of the two accesses of these events' first race, if they have one. The only error is running out of memory.
pub fn racing_history_race(
    alloc: Global,
    script: &Script,
    events: &[Event],
) -> Result<Option<(usize, usize)>, AllocError>
    requires lawful { IsLawful (plan_of script.now) }
    requires begins { IsFlatBeginning (plan_of script.now) events.now }
    ensures { IfOk result (λ o. MatchOption o (RaceFree events.now) (λ r. IsFirstRace events.now r.0 r.1)) }
{
    let history = History::new(racing_history_sizes(script), events).unwrap();
    history.first_race(alloc)
}

/// The events up to their first race, whose two accesses are at these places.
pub fn cut_racing_history(events: Vec<Event>, first: usize, second: usize) -> RacyEvents
    requires { IsFirstRace events.items first second }
    ensures { (s : Plan) → IsFlatBeginning s events.items → IsExploredRacy s result }
{
    let mut events = events;
    events.truncate(second + 1);
    RacyEvents { events, first }
}

/// The events up to the first one that races.
fn racing_history_up_to_race(
    alloc: Global,
    script: &Script,
    events: Vec<Event>,
) -> Result<RacyEvents, AllocError>
    requires lawful { IsLawful (plan_of script.now) }
    requires racing { IsRacingBeginning (plan_of script.now) events.items }
    ensures { IfOk result (IsExploredRacy (plan_of script.now)) }
{
    let race = racing_history_race(alloc, script, &events)?.unwrap();
    Ok(cut_racing_history(events, race.0, race.1))
}

/// A history in which the two events that conflict race, up to its first race. The only error is running out of memory.
pub fn racing_history(
    alloc: Global,
    script: &Script,
    steps: &[Vec<ScriptCall>],
    found: &FoundStates,
    neighbours: Neighbours,
) -> Result<RacyEvents, AllocError>
    requires { AreRacing (plan_of script.now) found.now steps.now neighbours }
    ensures { IfOk result (IsExploredRacy (plan_of script.now)) }
{
    let events = racing_history_events(alloc, steps, found, neighbours)?;
    racing_history_up_to_race(alloc, script, events)
}
