//! Which outcomes came, how often, and where first.
ghost use Rattle.std.specs.Prelude.{ℕ, ◌≡◌, ◌≢◌, ◌<◌, ◌-◌, ◌^◌, ◌∷◌, ◌++◌, [], List, Some, slice_get, length, MatchOption, OnOk};
ghost use Rattle.std.specs.List.{sum_by};
ghost use Rattle.lrc_sample.specs.declared.outcome.SampleOutcome.{SampleOutcome};
ghost use Rattle.lrc_sample.specs.declared.tally.TallyLine.{TallyLine};
ghost use Rattle.lrc_sample.specs.Prelude.{IsTallyOrderByFrequency, IsTallyOrderAsSeen, IsTallyShown, IsTallyOrderStarted};
ghost use Rattle.lrc_sample.specs.Prelude.{TallyCountsOutcomes, tally_place_of_seed, tally_times_of};

use crate::outcome::SampleOutcome;
use conformance::Schedule;
use std::alloc::AllocError;

/// An outcome that came: of how many runs, where first, and by which schedule then. None is the run without a seed.
#[derive(Drop)]
pub struct TallyLine {
    pub outcome: SampleOutcome,
    pub times: u64,
    pub seed: Option<u64>,
    pub schedule: Schedule,
}

/// The place of the outcome's line. It compares with each line: kinds are few.
fn find_in_sample_tally(lines: &[TallyLine], outcome: &SampleOutcome) -> Option<usize>
    ensures { MatchOption result
        ((k : ℕ) (line : TallyLine) → slice_get lines.now k ≡ Some line → line.outcome ≢ outcome.now)
        (λ k. (line : TallyLine) × ((slice_get lines.now k ≡ Some line) × (line.outcome ≡ outcome.now))) }
{
    for (place, line) in lines.iter().enumerate() {
        if line.outcome.is_same(outcome) {
            return Some(place);
        }
    }
    None
}

/// Notes what one run more came to, the run of this seed, by this schedule.
pub fn note_in_sample_tally(
    lines: &mut Vec<TallyLine>,
    outcome: SampleOutcome,
    seed: Option<u64>,
    schedule: Schedule,
) -> Result<(), AllocError>
    requires { sum_by tally_times_of lines.old.items < 2 ^ 64 - 1 }
    ensures shown { OnOk result ((schedules : List (List ℕ)) → IsTallyShown schedules lines.old.items
        → tally_place_of_seed seed ≡ length schedules → IsTallyShown (schedules ++ schedule.turns.items ∷ []) lines.new.items) }
    ensures tally { OnOk result ((outcomes : List SampleOutcome) → IsTallyOrderStarted outcomes lines.old.items
        → tally_place_of_seed seed ≡ length outcomes → IsTallyOrderStarted (outcomes ++ outcome ∷ []) lines.new.items) }
{
    match find_in_sample_tally(lines, &outcome) {
        Some(place) => lines[place].times += 1,
        None => lines.push(TallyLine {
            outcome,
            times: 1,
            seed,
            schedule,
        })?,
    }
    Ok(())
}

/// Puts the most frequent first. Those that came as often stay in their order.
pub fn sort_sample_tally(lines: &mut Vec<TallyLine>) -> Result<(), AllocError>
    requires { sum_by tally_times_of lines.old.items < 2 ^ 64 }
    ensures tally { (outcomes : List SampleOutcome) → TallyCountsOutcomes outcomes lines.old.items
        → TallyCountsOutcomes outcomes lines.new.items }
    ensures shown { (schedules : List (List ℕ)) → IsTallyShown schedules lines.old.items
        → IsTallyShown schedules lines.new.items }
    ensures order { OnOk result (IsTallyOrderAsSeen lines.old.items → IsTallyOrderByFrequency lines.new.items) }
{
    lines.sort_by_key(|line| u64::MAX - line.times)
}
