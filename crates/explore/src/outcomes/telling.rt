//! Which replies of loads outcomes tell.
ghost use Rattle.std.specs.Prelude.{◌≡◌, ◌<◌, length, slice_get};
ghost use Rattle.explore.specs.FlatOutcomes.{FullFlatOutcomesLaw};
ghost use Rattle.lrc_script.specs.Prelude.{plan_of};
ghost use Rattle.explore.specs.OutcomeTelling.{is_told_by_outcome_telling, is_sum_for_outcome_telling, outcome_telling_of_script, outcome_telling_words};

use crate::prefixes::ScriptCall;
use lrc_script::script::Script;

/// How much of a run its outcome tells.
#[derive(Clone, Copy)]
pub enum Detail {
    /// The shown words at the end.
    Words,
    /// Those, and what each instruction `load` answered.
    Loads,
    /// Those, and what each `add` loaded, too.
    All,
}

/// What the outcomes of a script tell.
#[derive(Clone, Copy)]
pub struct OutcomeTelling {
    pub detail: Detail,
    /// How many words processor 0 shows at the end, by a load of each.
    pub shown: usize,
}

/// The step at this place, if there is one.
pub fn outcome_telling_step(steps: &[ScriptCall], place: usize) -> Option<ScriptCall>
    ensures { result ≡ slice_get steps.now place }
{
    if place < steps.len() {
        Some(steps[place])
    } else {
        None
    }
}

/// Whether the step adds to the reply before it.
pub fn is_sum_for_outcome_telling(step: Option<ScriptCall>) -> bool
    ensures { result ≡ is_sum_for_outcome_telling step }
{
    match step {
        Some(ScriptCall::Adds(_, _)) => true,
        _ => false,
    }
}

impl OutcomeTelling {
    /// What outcomes of the script tell by this detail.
    pub fn of_script(script: &Script, detail: Detail) -> OutcomeTelling
        ensures { result ≡ outcome_telling_of_script (plan_of script.now) detail }
    {
        OutcomeTelling {
            detail,
            shown: script.shown.len(),
        }
    }

    /// How many words the processor shows at the end.
    fn told_words(self, processor: usize) -> usize
        ensures { result ≡ outcome_telling_words self processor }
    {
        if processor == 0 { self.shown } else { 0 }
    }

    /// Whether outcomes tell the reply of the processor's step at this place, if that step loads.
    pub fn is_told(self, processor: usize, steps: &[ScriptCall], place: usize) -> bool
        requires { place < length steps.now }
        ensures { result ≡ is_told_by_outcome_telling self.detail (outcome_telling_words self processor) steps.now place }
    {
        match self.detail {
            Detail::Words => steps.len() - place <= self.told_words(processor),
            Detail::Loads => !is_sum_for_outcome_telling(outcome_telling_step(steps, place + 1)),
            Detail::All => true,
        }
    }
}

/// In full detail an outcome tells what each load answered.
pub fn full_outcome_telling_law()
    ensures { FullFlatOutcomesLaw }
{}
