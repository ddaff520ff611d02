//! Where a walk through a script's text stands in a processor's steps, and what is so whenever its next step is made.
ghost use Rattle.std.specs.Prelude.{◌≡◌, ℕ, ◌+◌, ◌<◌, ◌^◌, cond, false, length, max, min, slice_index, slice_index_or, slice_set};
ghost use Rattle.base.specs.Prelude.{most_processors};
ghost use Rattle.explore.specs.TextGuards.{text_guard_held_after_step, text_guard_step_departs};
ghost use Rattle.explore.specs.Users.{IsUserStepWithin};

use crate::prefixes::ScriptCall;
use crate::text::guards::{guarded_phase_after, track_held_guard};
use base::{MOST_LOCKS, MOST_PROCESSORS};

/// Of each processor, how many of its steps were made.
pub type StepsMade = [usize; MOST_PROCESSORS];

/// Where the walk stands in a processor's steps.
#[derive(Clone, Copy)]
pub struct WalkedRow {
    /// How many of them it has come through.
    pub place: usize,
    /// How often the processor has departed from the barrier.
    pub phase: usize,
    /// The locks that it holds.
    pub held: [bool; MOST_LOCKS],
    /// Of each processor, how many steps it has made whenever this one makes its next step.
    pub made: StepsMade,
}

/// Takes note that these steps were made too.
pub fn add_steps_made(made: &mut StepsMade, more: &StepsMade)
    ensures { (p : ℕ) → slice_index made.new p ≡ max (slice_index made.old p) (slice_index more.now p) }
{
    for processor in 0..MOST_PROCESSORS {
        made[processor] = made[processor].max(more[processor]);
    }
}

/// Keeps of these steps only those that were made there too.
pub fn keep_steps_made(made: &mut StepsMade, there: &StepsMade)
    ensures { (p : ℕ) → slice_index made.new p ≡ min (slice_index made.old p) (slice_index there.now p) }
{
    for processor in 0..MOST_PROCESSORS {
        made[processor] = made[processor].min(there[processor]);
    }
}

impl WalkedRow {
    /// At the first step, with nothing known of the others.
    pub fn new() -> WalkedRow
        ensures place { result.place ≡ 0 }
        ensures phase { result.phase ≡ 0 }
        ensures held { (l : ℕ) → slice_index_or result.held l false ≡ false }
        ensures made { (p : ℕ) → slice_index result.made p ≡ 0 }
    {
        WalkedRow {
            place: 0,
            phase: 0,
            held: [false; MOST_LOCKS],
            made: [0; MOST_PROCESSORS],
        }
    }

    /// Goes past the processor's next step.
    pub fn pass(&mut self, processor: usize, step: ScriptCall)
        requires within { (size : ℕ) × IsUserStepWithin size step }
        requires processor { processor < most_processors }
        requires place { self.old.place < 2 ^ 20 }
        requires phase { self.old.phase < 2 ^ 20 }
        ensures place { self.new.place ≡ self.old.place + 1 }
        ensures phase { self.new.phase ≡ self.old.phase + cond (text_guard_step_departs step) 1 0 }
        ensures held { (l : ℕ) → slice_index_or self.new.held l false
            ≡ text_guard_held_after_step l (slice_index_or self.old.held l false) step }
        ensures made { self.new.made ≡ slice_set self.old.made processor (self.old.place + 1) }
    {
        self.place += 1;
        self.phase = guarded_phase_after(self.phase, step);
        track_held_guard(&mut self.held, step);
        self.made[processor] = self.place;
    }
}
