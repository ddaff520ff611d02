//! The search for all schedules, in two stages: of a long one the first states alone, and what a few runs show; then all.
ghost use Rattle.std.specs.Prelude.{◌≡◌, ◌^◌, [], IfOk, IfSome, IsTrue};
ghost use Rattle.lrc_script.specs.Prelude.{IsLawful, plan_of};
ghost use Rattle.lrc_exploring.specs.Prelude.{AreSchedulesExplored, explore_detail};
ghost use Rattle.lrc_exploring.specs.ExploreAnswers.{IsHangMet};

use explore::{Detail, Explored, Hanging, Progress, explore};
use lrc_options::options::{ExploreOptions, OutcomeDetail};
use lrc_script::script::Script;
use std::alloc::{AllocError, Global};

/// How many states the first stage looks at. A search that is given up after them has taken some half a second.
const FIRST_STATES: u32 = 1 << 16;

/// How many states are looked at if the command line has no `--most`.
const DEFAULT_MOST: u32 = 1_000_000;

/// What outcomes tell, by the options.
pub fn explore_detail(outcomes: OutcomeDetail) -> Detail
    ensures { result ≡ explore_detail outcomes }
{
    match outcomes {
        OutcomeDetail::Words => Detail::Words,
        OutcomeDetail::Loads => Detail::Loads,
        OutcomeDetail::All => Detail::All,
    }
}

/// Whether a schedule hangs.
fn is_hang_met(hanging: &Hanging) -> bool
    ensures { IsTrue result → IsHangMet hanging.now }
{
    match hanging {
        Hanging::Hangs(_) => true,
        _ => false,
    }
}

/// Looks at the first states, and at a few runs if there are more: that is all if nothing is open, if no more states fit, or if a hang
/// was met and the options ask for no other number of states than the default. The only error is running out of memory.
fn explored_first<P: Progress>(
    alloc: Global,
    script: &Script,
    options: &ExploreOptions,
    progress: &mut P,
) -> Result<Option<Explored>, AllocError>
    requires lawful { IsLawful (plan_of script.now) }
    requires all { options.now.until.items ≡ [] }
    ensures { IfOk result (λ o. IfSome o (AreSchedulesExplored options.now (plan_of script.now))) }
{
    if options.most <= FIRST_STATES {
        return Ok(None);
    }
    let detail = explore_detail(options.outcomes);
    let explored = explore(alloc, script, detail, FIRST_STATES as usize, progress)?;
    if explored.is_settled() {
        return Ok(Some(explored));
    }
    // No more states fit.
    if explored.states <= FIRST_STATES as usize {
        return Ok(Some(explored));
    }
    if options.most == DEFAULT_MOST && is_hang_met(&explored.hanging) {
        return Ok(Some(explored));
    }
    Ok(None)
}

/// Looks at all schedules of the script, at as many states as the options ask for. Of a search with more than 2^16 of them, what a few
/// runs show is looked at first, after so many: if one races, that is the answer, and so it is if one hangs and the options ask for no
/// other number of states than the default. The only error is running out of memory.
pub fn schedules_explored<P: Progress>(
    alloc: Global,
    script: &Script,
    options: &ExploreOptions,
    progress: &mut P,
) -> Result<Explored, AllocError>
    requires lawful { IsLawful (plan_of script.now) }
    requires all { options.now.until.items ≡ [] }
    ensures { IfOk result (AreSchedulesExplored options.now (plan_of script.now)) }
{
    match explored_first(alloc, script, options, progress)? {
        Some(explored) => Ok(explored),
        None => {
            let detail = explore_detail(options.outcomes);
            explore(alloc, script, detail, options.most as usize, progress)
        }
    }
}
