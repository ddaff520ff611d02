//! One run of a script, and what it came to.
ghost use Rattle.std.specs.Prelude.{◌≡◌, IfOk};
ghost use Rattle.lrc_script.specs.Prelude.{IsLawful, plan_of};
ghost use Rattle.lrc_sample.specs.Prelude.{CameBySampleRunSeed, IsSampleRun, IsSampleRunTold, sample_outcome_of_end};

use crate::detail::SampleDetail;
use crate::outcome::{SampleOutcome, SampleOutcomeAnswers};
use conformance::{
    Cause, DrawnRun, Ended, LockChoice, RunFault, Schedule, ScheduleFault, ScriptRunner,
};
use lrc_script::script::Script;
use std::alloc::{AllocError, Global};
use std::sync::Wait;

/// A script that is sampled.
#[derive(Clone, Copy)]
pub struct SampledScript<'a> {
    /// What memory comes from.
    pub alloc: Global,
    pub script: &'a Script,
    /// The lock round the book of its runs.
    pub lock: LockChoice,
    /// How much of a run is told.
    pub detail: SampleDetail,
}

/// What a run came to, and by which turns.
#[derive(Drop)]
pub struct SampledRun {
    pub outcome: SampleOutcome,
    pub schedule: Schedule,
}

/// Running out of memory is told with processor 0.
pub(crate) fn no_memory(error: AllocError) -> RunFault {
    RunFault {
        processor: 0,
        cause: Cause::from(error),
    }
}

/// What a run came to, in this detail: a run that can't go on is stuck.
fn sampled_outcome(sampled: SampledScript<'_>, ended: Ended) -> Result<SampleOutcome, RunFault>
    ensures { IfOk result (λ outcome. outcome ≡ sample_outcome_of_end sampled.entry.detail (plan_of sampled.entry.script.now) ended) }
{
    let SampledScript {
        alloc,
        script,
        detail,
        ..
    } = sampled;
    match ended {
        Ended::Whole(report) => match SampleOutcomeAnswers::of(alloc, detail, script, report) {
            Ok(answers) => Ok(SampleOutcome::Ended(answers)),
            Err(error) => Err(no_memory(error)),
        },
        Ended::Halted(halt) => Ok(SampleOutcome::Stuck(halt.processor)),
    }
}

/// Runs the script by the turns that the seed draws, or without one in rounds by rising number.
fn sampled_run<T: ScriptRunner, R: Wait>(
    runs: &T,
    rt: &R,
    sampled: SampledScript<'_>,
    seed: Option<u64>,
) -> Result<DrawnRun, RunFault>
    requires { IsLawful (plan_of sampled.script.now) }
    ensures { IfOk result (IsSampleRun (CameBySampleRunSeed T.followed T.drawn sampled.entry.lock) (plan_of sampled.entry.script.now) seed) }
{
    let SampledScript {
        alloc,
        script,
        lock,
        ..
    } = sampled;
    let Some(seed) = seed else {
        let schedule = Schedule {
            turns: Vec::new(alloc),
        };
        return match runs.step_by(rt, alloc, script, lock, &schedule) {
            Ok(ended) => Ok(DrawnRun { schedule, ended }),
            Err(ScheduleFault::Run(fault)) => Err(fault),
            Err(ScheduleFault::Misfit(..)) => unreachable!("no turn"),
        };
    };
    runs.step_drawn(rt, alloc, script, lock, seed)
}

/// Runs the script by this seed's turns or without one, and tells what that came to.
pub(crate) fn told_sampled_run<T: ScriptRunner, R: Wait>(
    runs: &T,
    rt: &R,
    sampled: SampledScript<'_>,
    seed: Option<u64>,
) -> Result<SampledRun, RunFault>
    requires { IsLawful (plan_of sampled.script.now) }
    ensures { IfOk result (IsSampleRunTold (CameBySampleRunSeed T.followed T.drawn sampled.entry.lock) sampled.entry.detail (plan_of sampled.entry.script.now) seed) }
{
    let DrawnRun { schedule, ended } = sampled_run(runs, rt, sampled, seed)?;
    let outcome = sampled_outcome(sampled, ended)?;
    Ok(SampledRun { outcome, schedule })
}
