//! What one processor has heard of another's events.
ghost use Rattle.std.specs.Prelude.{◌≡◌, ◌≢◌, ◌↔◌, ℕ, ◌<◌, ◌≤◌, IfOk, length, false};
ghost use Rattle.journal.specs.declared.event.Event.{Event};
ghost use Rattle.journal.specs.declared.event.Kind.{Kind};
ghost use Rattle.journal.specs.Events.{EventAt};
ghost use Rattle.journal.specs.WellFormed.{Does};
ghost use Rattle.journal.specs.Prelude.{HappensBefore, EventProcessorsInRange, event_takes};
ghost use Rattle.judge.specs.Prelude.{most_in_sized_history, most_judged_processors};
ghost use Rattle.causes.specs.Prelude.{IsHeard};

use crate::step::{known_in_cut, note_step};
use journal::Event;
use judge::Cuts;
use std::alloc::{AllocError, Global};

/// The last event of the processor `by` that happens before the second place, where those of its events before the place `limit`
/// do and no others.
fn last_heard(events: &[Event], by: usize, second: usize, limit: usize) -> Option<usize>
    requires place { second < length events.now }
    requires tells { (i : ℕ) (a : Kind) → Does events.now i by a → i < second
        → HappensBefore events.now i second ↔ (i < limit) }
    ensures { IsHeard events.now by second result }
{
    let mut heard = None;
    for place in 0..second {
        if events[place].processor == by && place < limit {
            heard = Some(place);
        }
    }
    heard
}

/// The last event of the processor `by` that happens before the second place, where another processor's event stands
/// that takes nothing.
pub(crate) fn heard(
    alloc: Global,
    processors: usize,
    events: &[Event],
    by: usize,
    second: usize,
) -> Result<Option<usize>, AllocError>
    requires few { length events.now ≤ most_in_sized_history }
    requires few_processors { processors ≤ most_judged_processors }
    requires processors { EventProcessorsInRange processors events.now }
    requires by { by < most_judged_processors }
    requires second { (e : Event) × EventAt events.now second e × (event_takes e.kind ≡ false) × (by ≢ e.processor) }
    ensures { IfOk result (IsHeard events.now by second) }
{
    let mut cuts = Cuts::new(alloc, processors)?;
    for place in 0..second {
        note_step(&mut cuts, events, place)?;
    }
    let cut = cuts.of(events[second].processor);
    Ok(last_heard(events, by, second, known_in_cut(cut, by)))
}
