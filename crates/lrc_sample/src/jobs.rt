//! Runs of a script beside each other, on threads.
ghost use Rattle.std.specs.Prelude.{ℕ, ◌≤◌, ◌<◌, ◌+◌, IfOk, OnOk};
ghost use Rattle.std.specs.Thread.{IsSync};
ghost use Rattle.lrc_script.specs.Prelude.{IsLawful, plan_of};
ghost use Rattle.lrc_sample.specs.Prelude.{AreSampleRunsTold, CameBySampleRunSeed};

use crate::sampled_run::{SampledRun, SampledScript, no_memory, told_sampled_run};
use conformance::{RunFault, ScriptRunner};
use std::sync::Wait;
use std::thread::{Threads, join};

/// Runs the script by the turns that this seed draws, and adds what that came to.
fn add_sampled_run<T: ScriptRunner, R: Wait>(
    runs: &T,
    rt: &R,
    sampled: SampledScript<'_>,
    seed: u64,
    told: &mut Vec<SampledRun>,
) -> Result<(), RunFault>
    requires { IsLawful (plan_of sampled.script.now) }
    ensures { OnOk result ((from : ℕ) → AreSampleRunsTold (CameBySampleRunSeed T.followed T.drawn sampled.entry.lock) sampled.entry.detail (plan_of sampled.entry.script.now) from seed told.old.items
        → AreSampleRunsTold (CameBySampleRunSeed T.followed T.drawn sampled.entry.lock) sampled.entry.detail (plan_of sampled.entry.script.now) from (seed + 1) told.new.items) }
{
    let run = told_sampled_run(runs, rt, sampled, Some(seed))?;
    match told.push(run) {
        Ok(()) => Ok(()),
        Err(error) => Err(no_memory(error.into())),
    }
}

/// Runs the script by the turns that each of these seeds draws, one after the other: the seeds from `from` on that are less than `to`.
fn job_of_sampled_runs<T: ScriptRunner, R: Wait>(
    runs: &T,
    rt: &R,
    sampled: SampledScript<'_>,
    from: u64,
    to: u64,
) -> Result<Vec<SampledRun>, RunFault>
    requires lawful { IsLawful (plan_of sampled.script.now) }
    requires order { from ≤ to }
    ensures { IfOk result (λ told. AreSampleRunsTold (CameBySampleRunSeed T.followed T.drawn sampled.entry.lock) sampled.entry.detail (plan_of sampled.entry.script.now) from to told.items) }
{
    let mut told = Vec::new(sampled.alloc);
    for seed in from..to {
        add_sampled_run(runs, rt, sampled, seed, &mut told)?;
    }
    Ok(told)
}

/// The first seed of the second half, if the first half has so many of the jobs.
fn middle_of_jobs(from: u64, to: u64, first: u64, jobs: u64) -> u64
    requires order { from ≤ to }
    requires jobs { 0 < jobs }
    ensures { (from ≤ result) × (result ≤ to) }
{
    let seeds = to - from;
    from + (seeds.saturating_mul(first) / jobs).min(seeds)
}

/// The same, by so many jobs beside each other, each on a thread of its own if that can be started. Of faults it answers the
/// one that comes first in the order of the seeds.
#[cycle(jobs)]
pub(crate) fn sampled_runs_by_jobs<T: ScriptRunner + Sync, R: Threads + Wait + Sync>(
    runs: &T,
    rt: &R,
    sampled: SampledScript<'_>,
    jobs: u64,
    from: u64,
    to: u64,
) -> Result<Vec<SampledRun>, RunFault>
    requires lawful { IsLawful (plan_of sampled.script.now) }
    requires order { from ≤ to }
    ensures { IfOk result (λ told. AreSampleRunsTold (CameBySampleRunSeed T.followed T.drawn sampled.entry.lock) sampled.entry.detail (plan_of sampled.entry.script.now) from to told.items) }
{
    if jobs < 2 {
        return job_of_sampled_runs(runs, rt, sampled, from, to);
    }
    let first = jobs / 2;
    let second = jobs - first;
    let middle = middle_of_jobs(from, to, first, jobs);
    let before = move || -> Result<Vec<SampledRun>, RunFault>
        requires { IsSync T.row × IsSync R.row × IsLawful (plan_of sampled.script.now) × (from ≤ middle) }
        ensures { IfOk result (λ told. AreSampleRunsTold (CameBySampleRunSeed T.followed T.drawn sampled.entry.lock) sampled.entry.detail (plan_of sampled.entry.script.now) from middle told.items) }
    { sampled_runs_by_jobs(runs, rt, sampled, first, from, middle) };
    let after = move || -> Result<Vec<SampledRun>, RunFault>
        requires { IsSync T.row × IsSync R.row × IsLawful (plan_of sampled.script.now) × (middle ≤ to) }
        ensures { IfOk result (λ told. AreSampleRunsTold (CameBySampleRunSeed T.followed T.drawn sampled.entry.lock) sampled.entry.detail (plan_of sampled.entry.script.now) middle to told.items) }
    { sampled_runs_by_jobs(runs, rt, sampled, second, middle, to) };
    let (told, rest) = join(rt, before, after);
    let mut told = told?;
    let mut rest = rest?;
    match told.append(&mut rest) {
        Ok(()) => Ok(told),
        Err(error) => Err(no_memory(error)),
    }
}
