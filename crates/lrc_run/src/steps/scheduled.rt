//! All processors by turns on one thread, as a schedule has them.
ghost use Rattle.std.specs.Prelude.{◌≡◌, ◌≢◌, ◌<◌, ◌≤◌, ◌^◌, All, IfErr, IfOk, OnOk, false, true, vec_len};
ghost use Rattle.conformance.specs.declared.progress.TurnProgress.TheVariants as progress;
ghost use Rattle.lrc_script.specs.Prelude.{IsLawful, plan_of};
ghost use Rattle.conformance.specs.Prelude.{IsEndByOrderedTurns, IsScheduleFault, plan_sizes, schedule_orders};
ghost use Rattle.conformance.specs.declared.schedule.Misfit.TheVariants as misfit;
ghost use Rattle.lrc_run.specs.Prelude.{AreAtRunSteps, AreRunTurnsTaken, IsClusterEnd, IsRunTurnDeadlockSeen, IsScheduledTurnFault, IsTurnOfRun, HaveGoneOnAfterRunTurns, lock_choice_width};
ghost use Rattle.conformance.specs.declared.script_runner.LockChoice.TheVariants as lock;

use super::{go_round, have_passed, run_step_at, run_steps_result, run_steps_start};
use cluster::{BookLock, BookTurn, Cluster, Processor};
use conformance::{Ended, Misfit, Schedule, ScheduleFault, TurnProgress};
use lrc_script::script::Script;
use std::alloc::Global;
use std::sync::Wait;

/// Runs the script on one thread, as far as it goes: first the schedule's turns, and when these are over rounds by rising
/// number, as [`step_as_far`](crate::step_as_far) has them without a seed.
///
/// The fault is [`Misfit`](ScheduleFault::Misfit) at the first turn of the schedule that isn't one of the script's: its
/// number is no processor's, or its processor doesn't get on in it; else a call's refusal as `step_as_far` tells it.
pub fn step_scheduled<R: Wait>(
    rt: &R,
    alloc: Global,
    script: &Script,
    schedule: &Schedule,
) -> Result<Ended, ScheduleFault>
    requires { IsLawful (plan_of script.now) }
    ensures end { IfOk result
        (IsEndByOrderedTurns (plan_of script.now) (schedule_orders (plan_of script.now) schedule.now.turns.items)) }
    ensures cluster { IfOk result (IsClusterEnd (lock_choice_width lock.Array) (plan_of script.now)) }
    ensures fault { IfErr result (IsScheduleFault (plan_of script.now) schedule.now.turns.items) }
{
    step_scheduled_with::<BookLock, R>(rt, alloc, script, schedule)
}

/// The same with a lock of the caller's choice round the book.
pub fn step_scheduled_with<T: BookTurn + Drop, R: Wait>(
    rt: &R,
    alloc: Global,
    script: &Script,
    schedule: &Schedule,
) -> Result<Ended, ScheduleFault>
    requires entries { T.ENTRIES ≤ 2 ^ 40 }
    requires lawful { IsLawful (plan_of script.now) }
    ensures end { IfOk result
        (IsEndByOrderedTurns (plan_of script.now) (schedule_orders (plan_of script.now) schedule.now.turns.items)) }
    ensures cluster { IfOk result (IsClusterEnd T.width (plan_of script.now)) }
    ensures fault { IfErr result (IsScheduleFault (plan_of script.now) schedule.now.turns.items) }
{
    let (cluster, mut processors, mut all) = run_steps_start::<T>(alloc, script)?;
    let passed = go_as_scheduled(
        rt,
        alloc,
        &cluster,
        &mut processors,
        &mut all,
        script,
        &schedule.turns,
    )?;
    Ok(run_steps_result(rt, alloc, cluster, processors, &all, script, passed)?)
}

/// The turns of a schedule, and then rounds by rising number: whether all have passed the closing barrier.
fn go_as_scheduled<T: BookTurn, R: Wait>(
    rt: &R,
    alloc: Global,
    cluster: &Cluster<T>,
    processors: &mut Vec<Processor<T>>,
    all: &mut Vec<TurnProgress>,
    script: &Script,
    turns: &[usize],
) -> Result<bool, ScheduleFault>
    requires lawful { IsLawful (plan_of script.now) }
    requires sizes { cluster.now.sizes ≡ plan_sizes (plan_of script.now) }
    requires way { AreAtRunSteps cluster.now (plan_of script.now).sections processors.old.items
        all.old.items }
    ensures gone { IfOk result (λ _. HaveGoneOnAfterRunTurns cluster.now (plan_of script.now) turns.now
        processors.old.items processors.new.items all.old.items all.new.items) }
    ensures whole { IfOk result (λ passed. passed ≡ true → All (λ x. x ≡ progress.Passed) all.new.items) }
    ensures stuck { IfOk result (λ passed. passed ≡ false → IsRunTurnDeadlockSeen processors.new.items) }
    ensures fault { IfErr result (IsScheduleFault (plan_of script.now) turns.now) }
{
    follow_scheduled_steps(rt, cluster, processors, all, script, turns)?;
    Ok(go_round(rt, alloc, cluster, processors, all, script, None)?)
}

/// The turns of a schedule, one after another. Each has to be one in which its processor gets on.
fn follow_scheduled_steps<T: BookTurn, R: Wait>(
    rt: &R,
    cluster: &Cluster<T>,
    processors: &mut Vec<Processor<T>>,
    all: &mut Vec<TurnProgress>,
    script: &Script,
    turns: &[usize],
) -> Result<(), ScheduleFault>
    requires lawful { IsLawful (plan_of script.now) }
    requires sizes { cluster.now.sizes ≡ plan_sizes (plan_of script.now) }
    requires way { AreAtRunSteps cluster.now (plan_of script.now).sections processors.old.items
        all.old.items }
    ensures way { OnOk result (AreAtRunSteps cluster.now (plan_of script.now).sections processors.new.items
        all.new.items) }
    ensures taken { OnOk result (AreRunTurnsTaken (plan_of script.now).sections turns.now
        processors.old.items processors.new.items all.old.items all.new.items) }
    ensures fault { IfErr result (IsScheduleFault (plan_of script.now) turns.now) }
{
    for place in 0..turns.len() {
        match follow_scheduled_step_at(rt, cluster, processors, all, script, place, turns[place]) {
            Ok(()) => {}
            Err(fault) => return Err(fault),
        }
    }
    Ok(())
}

/// The turn of processor `p`, which the schedule has at this place.
fn follow_scheduled_step_at<T: BookTurn, R: Wait>(
    rt: &R,
    cluster: &Cluster<T>,
    processors: &mut Vec<Processor<T>>,
    all: &mut Vec<TurnProgress>,
    script: &Script,
    place: usize,
    p: usize,
) -> Result<(), ScheduleFault>
    requires lawful { IsLawful (plan_of script.now) }
    requires sizes { cluster.now.sizes ≡ plan_sizes (plan_of script.now) }
    requires way { AreAtRunSteps cluster.now (plan_of script.now).sections processors.old.items
        all.old.items }
    requires few { place < 2 ^ 63 }
    ensures long { vec_len processors.new ≡ vec_len processors.old }
    ensures turn { OnOk result (IsTurnOfRun (plan_of script.now).sections p
        processors.old.items processors.new.items all.old.items all.new.items) }
    ensures fault { IfErr result (IsScheduledTurnFault (vec_len processors.old) place p) }
{
    if p >= processors.len() {
        return Err(ScheduleFault::Misfit(place + 1, Misfit::NoProcessor));
    }
    if run_step_at(rt, cluster, processors, all, script, p)? {
        return Ok(());
    }
    Err(ScheduleFault::Misfit(place + 1, in_vain(all.as_slice(), all[p])))
}

/// Why a processor that is there didn't get on.
fn in_vain(all: &[TurnProgress], progress: TurnProgress) -> Misfit
    ensures { result ≢ misfit.NoProcessor }
{
    if progress != TurnProgress::Passed {
        Misfit::Waits
    } else if have_passed(all) {
        Misfit::TooLong
    } else {
        Misfit::Ended
    }
}
