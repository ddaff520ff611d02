//! A script by many schedules.
ghost use Rattle.std.specs.Prelude.{◌≤◌, ◌+◌, ◌^◌, IfOk, OnOk};
ghost use Rattle.lrc_script.specs.Prelude.{IsLawful, plan_of};
ghost use Rattle.lrc_sample.specs.Prelude.{CameBySampleRunSeed, AreSampleRunsInMaking, IsSampleOfRuns, tally_place_of_seed};

use crate::jobs::sampled_runs_by_jobs;
use crate::sampled_run::{SampledRun, SampledScript, no_memory, told_sampled_run};
use crate::tally::{TallyLine, note_in_sample_tally, sort_sample_tally};
use conformance::{RunFault, ScriptRunner};
use std::sync::Wait;
use std::thread::Threads;

/// The most runs that are made beside each other.
const MOST_JOBS: u64 = 64;

/// How many runs are made by jobs before what they came to is noted, at most: so many schedules are kept until then. A thread is
/// started once for its part of these runs.
const MOST_BATCH: u64 = 256;

/// What the runs of a script came to: a line for each outcome, the most frequent first, and of as frequent ones the one
/// that came first.
#[derive(Drop)]
pub struct Sampled {
    pub lines: Vec<TallyLine>,
}

/// What is told how far a sample is.
pub trait SampleProgress {
    /// So many runs are done.
    fn ran(&mut self, runs: u64);
}

/// Runs the script once more, by this seed's turns or without one, and notes what it came to.
fn sample_once<T: ScriptRunner, R: Wait>(
    runs: &T,
    rt: &R,
    sampled: SampledScript<'_>,
    seed: Option<u64>,
    lines: &mut Vec<TallyLine>,
) -> Result<(), RunFault>
    requires lawful { IsLawful (plan_of sampled.script.now) }
    requires few { tally_place_of_seed seed ≤ 2 ^ 32 }
    requires made { AreSampleRunsInMaking (CameBySampleRunSeed T.followed T.drawn sampled.lock) sampled.detail (plan_of sampled.script.now) (tally_place_of_seed seed) lines.old.items }
    ensures { OnOk result (AreSampleRunsInMaking (CameBySampleRunSeed T.followed T.drawn sampled.entry.lock) sampled.entry.detail (plan_of sampled.entry.script.now) (tally_place_of_seed seed + 1)
        lines.new.items) }
{
    let run = told_sampled_run(runs, rt, sampled, seed)?;
    let SampledRun { outcome, schedule } = run;
    match note_in_sample_tally(lines, outcome, seed, schedule) {
        Ok(()) => Ok(()),
        Err(error) => Err(no_memory(error)),
    }
}

/// Runs the script by the turns that each seed from 0 to `seeds` - 1 draws, one after the other, and notes what that came to.
fn sample_in_turn<T: ScriptRunner, R: Wait, P: SampleProgress>(
    runs: &T,
    rt: &R,
    sampled: SampledScript<'_>,
    seeds: u32,
    lines: &mut Vec<TallyLine>,
    progress: &mut P,
) -> Result<(), RunFault>
    requires lawful { IsLawful (plan_of sampled.script.now) }
    requires made { AreSampleRunsInMaking (CameBySampleRunSeed T.followed T.drawn sampled.lock) sampled.detail (plan_of sampled.script.now) 1 lines.old.items }
    ensures { OnOk result (AreSampleRunsInMaking (CameBySampleRunSeed T.followed T.drawn sampled.entry.lock) sampled.entry.detail (plan_of sampled.entry.script.now) (seeds + 1) lines.new.items) }
{
    for seed in 0..seeds {
        let drawn = Some(u64::from(seed));
        sample_once(runs, rt, sampled, drawn, lines)?;
        progress.ran(u64::from(seed) + 2);
    }
    Ok(())
}

/// Runs the script by the turns that the seeds from `from` on draw that are less than `to`, by so many jobs, and notes in the
/// order of the seeds what that came to.
fn sample_batch<T: ScriptRunner + Sync, R: Threads + Wait + Sync>(
    runs: &T,
    rt: &R,
    sampled: SampledScript<'_>,
    jobs: u64,
    from: u64,
    to: u64,
    lines: &mut Vec<TallyLine>,
) -> Result<(), RunFault>
    requires lawful { IsLawful (plan_of sampled.script.now) }
    requires order { (from ≤ to) × (to ≤ 2 ^ 32) }
    requires made { AreSampleRunsInMaking (CameBySampleRunSeed T.followed T.drawn sampled.lock) sampled.detail (plan_of sampled.script.now) (from + 1) lines.old.items }
    ensures { OnOk result (AreSampleRunsInMaking (CameBySampleRunSeed T.followed T.drawn sampled.entry.lock) sampled.entry.detail (plan_of sampled.entry.script.now) (to + 1) lines.new.items) }
{
    let told = sampled_runs_by_jobs(runs, rt, sampled, jobs, from, to)?;
    let mut seed = from;
    for run in told {
        let SampledRun { outcome, schedule } = run;
        match note_in_sample_tally(lines, outcome, Some(seed), schedule) {
            Ok(()) => seed += 1,
            Err(error) => return Err(no_memory(error)),
        }
    }
    Ok(())
}

/// Does as `sample_in_turn`, with so many jobs beside each other.
fn sample_by_jobs<T: ScriptRunner + Sync, R: Threads + Wait + Sync, P: SampleProgress>(
    runs: &T,
    rt: &R,
    sampled: SampledScript<'_>,
    jobs: u64,
    seeds: u32,
    lines: &mut Vec<TallyLine>,
    progress: &mut P,
) -> Result<(), RunFault>
    requires lawful { IsLawful (plan_of sampled.script.now) }
    requires made { AreSampleRunsInMaking (CameBySampleRunSeed T.followed T.drawn sampled.lock) sampled.detail (plan_of sampled.script.now) 1 lines.old.items }
    ensures { OnOk result (AreSampleRunsInMaking (CameBySampleRunSeed T.followed T.drawn sampled.entry.lock) sampled.entry.detail (plan_of sampled.entry.script.now) (seeds + 1) lines.new.items) }
{
    let jobs = jobs.min(MOST_JOBS);
    let all = u64::from(seeds);
    let mut from = 0;
    while from < all {
        let to = all.min(from + MOST_BATCH);
        sample_batch(runs, rt, sampled, jobs, from, to, lines)?;
        progress.ran(to + 1);
        from = to;
    }
    Ok(())
}

/// Does as `sample_in_turn`, or with more than one job as `sample_by_jobs`.
fn sample_seeds<T: ScriptRunner + Sync, R: Threads + Wait + Sync, P: SampleProgress>(
    runs: &T,
    rt: &R,
    sampled: SampledScript<'_>,
    jobs: u64,
    seeds: u32,
    lines: &mut Vec<TallyLine>,
    progress: &mut P,
) -> Result<(), RunFault>
    requires lawful { IsLawful (plan_of sampled.script.now) }
    requires made { AreSampleRunsInMaking (CameBySampleRunSeed T.followed T.drawn sampled.lock) sampled.detail (plan_of sampled.script.now) 1 lines.old.items }
    ensures { OnOk result (AreSampleRunsInMaking (CameBySampleRunSeed T.followed T.drawn sampled.entry.lock) sampled.entry.detail (plan_of sampled.entry.script.now) (seeds + 1) lines.new.items) }
{
    if jobs < 2 {
        return sample_in_turn(runs, rt, sampled, seeds, lines, progress);
    }
    sample_by_jobs(runs, rt, sampled, jobs, seeds, lines, progress)
}

/// Runs the script by turns: in rounds by rising number, and then by the turns that each seed from 0 to `seeds` - 1 draws. It
/// tells each outcome once, in this detail, with the schedule of the first run that came to it. A run that is stuck is an outcome.
/// Every fault ends it, also running out of memory.
///
/// With more than one job, up to 64, so many runs are made beside each other, each on a thread of its own if that can be started.
/// What is told is the same: what they came to is noted in the order of the seeds.
///
/// It takes the time of the runs, and for each run a comparison with each outcome that came before: kinds are few. `progress`
/// is told now and then how many are done, with one job after each run.
pub fn sample<T: ScriptRunner + Sync, R: Threads + Wait + Sync, P: SampleProgress>(
    runs: &T,
    rt: &R,
    sampled: SampledScript<'_>,
    jobs: u64,
    seeds: u32,
    progress: &mut P,
) -> Result<Sampled, RunFault>
    requires { IsLawful (plan_of sampled.script.now) }
    ensures { IfOk result (IsSampleOfRuns (CameBySampleRunSeed T.followed T.drawn sampled.entry.lock) sampled.entry.detail (plan_of sampled.entry.script.now) (seeds + 1)) }
{
    let mut lines = Vec::new(sampled.alloc);
    sample_once(runs, rt, sampled, None, &mut lines)?;
    progress.ran(1);
    sample_seeds(runs, rt, sampled, jobs, seeds, &mut lines, progress)?;
    match sort_sample_tally(&mut lines) {
        Ok(()) => Ok(Sampled { lines }),
        Err(error) => Err(no_memory(error)),
    }
}
