//! A history's events, one after the other, each with what its processor knew before it and knows after it.
ghost use Rattle.std.specs.Prelude.{◌≡◌, ◌+◌, ◌<◌, ◌≤◌, IfOk, OnOk, length, slice_index, take};
ghost use Rattle.journal.specs.Prelude.{EventProcessorsInRange};
ghost use Rattle.judge.specs.Prelude.{AreCuts, most_in_sized_history};
ghost use Rattle.causes.specs.Prelude.{NewsCutsAround};

use journal::Event;
use judge::Cuts;
use std::alloc::{AllocError, Global};

/// An event's place, and its processor's cuts before and after it.
#[derive(Drop)]
pub(crate) struct Step {
    pub(crate) place: usize,
    pub(crate) before: Vec<u32>,
    pub(crate) after: Vec<u32>,
}

/// The place up to which the cut has the processor's events: its entry, 0 if it has none.
pub(crate) fn known_in_cut(cut: &[u32], processor: usize) -> usize
    ensures { result ≡ slice_index cut.now processor }
{
    cut.get(processor).copied().unwrap_or(0) as usize
}

/// Takes note of the event at this place, the next one.
pub(crate) fn note_step(cuts: &mut Cuts, events: &[Event], place: usize) -> Result<(), AllocError>
    requires place { place < length events.now }
    requires few { length events.now ≤ most_in_sized_history }
    requires processors { EventProcessorsInRange cuts.old.present events.now }
    requires so_far { AreCuts (take place events.now) cuts.old }
    ensures cuts { OnOk result (AreCuts (take (place + 1) events.now) cuts.new) }
    ensures present { cuts.new.present ≡ cuts.old.present }
{
    cuts.note(events[place])?;
    Ok(())
}

/// Takes note of the event at this place, the next one, and tells it. The only error is running out of memory.
pub(crate) fn next_step(
    alloc: Global,
    cuts: &mut Cuts,
    events: &[Event],
    place: usize,
) -> Result<Step, AllocError>
    requires place { place < length events.now }
    requires few { length events.now ≤ most_in_sized_history }
    requires processors { EventProcessorsInRange cuts.old.present events.now }
    requires so_far { AreCuts (take place events.now) cuts.old }
    ensures cuts { OnOk result (AreCuts (take (place + 1) events.now) cuts.new) }
    ensures present { OnOk result (cuts.new.present ≡ cuts.old.present) }
    ensures step { IfOk result (NewsCutsAround events.now) }
    ensures place { IfOk result (λ s. s.place ≡ place) }
{
    let by = events[place].processor;
    let before = Vec::from_slice(alloc, cuts.of(by))?;
    note_step(cuts, events, place)?;
    let after = Vec::from_slice(alloc, cuts.of(by))?;
    Ok(Step {
        place,
        before,
        after,
    })
}
