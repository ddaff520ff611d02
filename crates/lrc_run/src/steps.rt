//! All processors by turns on one thread.
ghost use Rattle.std.specs.Prelude.{◌≡◌, ◌≢◌, ◌≤◌, ◌<◌, ◌^◌, ◌↔◌, All, IfErr, IfOk, IsTrue, Some, false, true, length, replicate, slice_get, vec_len};
ghost use Rattle.cluster.specs.Copies.Prelude.{Local};
ghost use Rattle.std.specs.List.{range_with_len};
ghost use Rattle.lrc_script.specs.Prelude.{IsLawful, plan_of};
ghost use Rattle.conformance.specs.Prelude.{plan_sizes};
ghost use Rattle.cluster.specs.Prelude.{IsNewCluster};
ghost use Rattle.conformance.specs.declared.cause.Cause.TheVariants as cause;
ghost use Rattle.conformance.specs.declared.progress.TurnProgress.TheVariants as progress;
ghost use Rattle.conformance.specs.Prelude.{IsEndByOrderedTurns, IsReportByOrderedTurns, IsStuckByOrderedTurns, round_order_drawn, round_order_generator, ordered_turns_of_seed};
ghost use Rattle.lrc_run.specs.Prelude.{AreDrawnOrderProcessors, AreAtRunSteps, AreRunTurnsSeenAhead, AreRunTurns, HaveGoneOnInRunTurns, IsFollowedEndAfter};
ghost use Rattle.lrc_run.specs.Prelude.{IsClusterEnd, IsClusterLockOf, IsClusterReport, IsTurnOfRun, IsRunTurnDeadlockSeen, IsRunTurnRound, lock_choice_width};
ghost use Rattle.conformance.specs.declared.script_runner.LockChoice.TheVariants as lock;

mod catching_up;
mod drawn;
mod pace;
mod scheduled;
mod turns;

use self::catching_up::{catch_first_up, catch_up_with_first};
pub use self::drawn::{step_drawn, step_drawn_with};
pub use self::scheduled::{step_scheduled, step_scheduled_with};
use self::turns::make_run_turn;
use crate::orders::order;
use crate::run_ending::conclude_run_ending;
use book::Refused;
use cluster::{BookLock, BookTurn, Cluster, Processor, Waited};
use conformance::{Cause, Ended, Halt, RunFault, TurnProgress};
use lrc_report::Report;
use lrc_script::script::Script;
use rand_core::SeedableRng;
use rand_pcg::Pcg32;
use std::alloc::{AllocError, Global};
use std::sync::Wait;

/// Runs the script on one thread, in rounds in which each processor has a turn: by rising number, or with a seed
/// in orders that are drawn by it. Two calls with the same script and seed give the same report.
///
/// The fault is [`Stuck`](Cause::Stuck) of the least processor that waits, if each waits for what can't come any
/// more. Or it is a call's refusal, with the processor whose turn it was, or with processor 0 outside of turns.
pub fn step<R: Wait>(
    rt: &R,
    alloc: Global,
    script: &Script,
    seed: Option<u64>,
) -> Result<Report, RunFault>
    requires { IsLawful (plan_of script.now) }
    ensures turns { IfOk result (IsReportByOrderedTurns (plan_of script.now) (ordered_turns_of_seed (plan_of script.now) seed)) }
    ensures cluster { IfOk result (IsClusterReport (lock_choice_width lock.Array) (plan_of script.now)) }
    ensures stuck { IfErr result (λ fault. fault.cause ≡ cause.Stuck
        → IsStuckByOrderedTurns (plan_of script.now) (ordered_turns_of_seed (plan_of script.now) seed) fault.processor) }
{
    step_with::<BookLock, R>(rt, alloc, script, seed)
}

/// The same with a lock of the caller's choice round the book.
pub fn step_with<T: BookTurn + Drop, R: Wait>(
    rt: &R,
    alloc: Global,
    script: &Script,
    seed: Option<u64>,
) -> Result<Report, RunFault>
    requires entries { T.ENTRIES ≤ 2 ^ 40 }
    requires lawful { IsLawful (plan_of script.now) }
    ensures turns { IfOk result (IsReportByOrderedTurns (plan_of script.now) (ordered_turns_of_seed (plan_of script.now) seed)) }
    ensures cluster { IfOk result (IsClusterReport T.width (plan_of script.now)) }
    ensures stuck { IfErr result (λ fault. fault.cause ≡ cause.Stuck
        → IsStuckByOrderedTurns (plan_of script.now) (ordered_turns_of_seed (plan_of script.now) seed) fault.processor) }
{
    match step_as_far_with::<T, R>(rt, alloc, script, seed)? {
        Ended::Whole(report) => Ok(report),
        Ended::Halted(halt) => Err(RunFault {
            processor: halt.processor,
            cause: Cause::Stuck,
        }),
    }
}

/// The same with the array lock, except that a script that can't go on is no fault: then it answers the journal so far.
pub fn step_as_far<R: Wait>(
    rt: &R,
    alloc: Global,
    script: &Script,
    seed: Option<u64>,
) -> Result<Ended, RunFault>
    requires { IsLawful (plan_of script.now) }
    ensures end { IfOk result (IsEndByOrderedTurns (plan_of script.now) (ordered_turns_of_seed (plan_of script.now) seed)) }
    ensures cluster { IfOk result (IsClusterEnd (lock_choice_width lock.Array) (plan_of script.now)) }
    ensures err { IfErr result (λ fault. fault.cause ≢ cause.Stuck) }
{
    step_as_far_with::<BookLock, R>(rt, alloc, script, seed)
}

/// The same with a lock of the caller's choice round the book.
pub fn step_as_far_with<T: BookTurn + Drop, R: Wait>(
    rt: &R,
    alloc: Global,
    script: &Script,
    seed: Option<u64>,
) -> Result<Ended, RunFault>
    requires entries { T.ENTRIES ≤ 2 ^ 40 }
    requires lawful { IsLawful (plan_of script.now) }
    ensures end { IfOk result (IsEndByOrderedTurns (plan_of script.now) (ordered_turns_of_seed (plan_of script.now) seed)) }
    ensures cluster { IfOk result (IsClusterEnd T.width (plan_of script.now)) }
    ensures err { IfErr result (λ fault. fault.cause ≢ cause.Stuck) }
{
    let (cluster, mut processors, mut all) = run_steps_start::<T>(alloc, script)?;
    let passed = go_round(rt, alloc, &cluster, &mut processors, &mut all, script, seed)?;
    run_steps_result(rt, alloc, cluster, processors, &all, script, passed)
}

/// How the run ended: the report if all have passed the closing barrier, else the journal so far.
fn run_steps_result<T: BookTurn + Drop, R: Wait>(
    rt: &R,
    alloc: Global,
    cluster: Cluster<T>,
    processors: Vec<Processor<T>>,
    all: &[TurnProgress],
    script: &Script,
    passed: bool,
) -> Result<Ended, RunFault>
    requires lawful { IsLawful (plan_of script.now) }
    requires sizes { cluster.sizes ≡ plan_sizes (plan_of script.now) }
    requires lock { IsClusterLockOf T.width cluster }
    requires way { AreAtRunSteps cluster (plan_of script.now).sections processors.items all.now }
    requires whole { passed ≡ true → All (λ x. x ≡ progress.Passed) all.now }
    requires stuck { passed ≡ false → IsRunTurnDeadlockSeen processors.items }
    ensures end { IfOk result (IsFollowedEndAfter (plan_of script.now) processors.items all.now) }
    ensures cluster { IfOk result (IsClusterEnd T.width (plan_of script.now)) }
    ensures err { IfErr result (λ fault. fault.cause ≢ cause.Stuck) }
{
    if passed {
        return match conclude_run_ending(rt, alloc, cluster, processors, script) {
            Ok(report) => Ok(Ended::Whole(report)),
            Err(refused) => Err(outside(refused)),
        };
    }
    let journal = cluster.finish(processors);
    // Each processor waits, so the least that does is processor 0.
    Ok(Ended::Halted(Halt {
        processor: 0,
        journal,
    }))
}

/// A refusal outside of turns.
fn outside(refused: Refused) -> RunFault
    ensures { result.cause ≢ cause.Stuck }
{
    RunFault {
        processor: 0,
        cause: Cause::Refused(refused),
    }
}

/// The script's cluster.
fn run_steps_cluster<T: BookTurn>(
    alloc: Global,
    script: &Script,
) -> Result<(Cluster<T>, Vec<Processor<T>>), RunFault>
    requires { T.ENTRIES ≤ 2 ^ 40 }
    ensures sizes { IfOk result (λ r. r.0.sizes ≡ plan_sizes (plan_of script.now)) }
    ensures lock { IfOk result (λ r. IsClusterLockOf T.width r.0) }
    ensures new { IfOk result (λ r. IsNewCluster r.0 r.1.items) }
    ensures err { IfErr result (λ fault. fault.cause ≢ cause.Stuck) }
{
    match Cluster::new(
        alloc,
        script.processors,
        script.pages,
        script.words,
        script.locks,
        script.flags,
    ) {
        Ok(made) => Ok(made),
        Err(refused) => Err(outside(refused)),
    }
}

/// The script's cluster, and where each processor is at the start.
fn run_steps_start<T: BookTurn + Drop>(
    alloc: Global,
    script: &Script,
) -> Result<(Cluster<T>, Vec<Processor<T>>, Vec<TurnProgress>), RunFault>
    requires { T.ENTRIES ≤ 2 ^ 40 }
    ensures sizes { IfOk result (λ r. r.0.sizes ≡ plan_sizes (plan_of script.now)) }
    ensures lock { IfOk result (λ r. IsClusterLockOf T.width r.0) }
    ensures new { IfOk result (λ r. IsNewCluster r.0 r.1.items) }
    ensures begin { IfOk result (λ r. r.2.items ≡ replicate (length r.1.items) (progress.Next 0)) }
    ensures way { IfOk result (λ r. AreAtRunSteps r.0 (plan_of script.now).sections r.1.items r.2.items) }
    ensures err { IfErr result (λ fault. fault.cause ≢ cause.Stuck) }
{
    let (cluster, processors) = run_steps_cluster::<T>(alloc, script)?;
    let all = beginnings(alloc, processors.len())?;
    Ok((cluster, processors, all))
}

/// Rounds, until all have passed the closing barrier, or all wait for what can't come any more: whether they have passed.
fn go_round<T: BookTurn, R: Wait>(
    rt: &R,
    alloc: Global,
    cluster: &Cluster<T>,
    processors: &mut Vec<Processor<T>>,
    all: &mut Vec<TurnProgress>,
    script: &Script,
    seed: Option<u64>,
) -> Result<bool, RunFault>
    requires lawful { IsLawful (plan_of script.now) }
    requires sizes { cluster.now.sizes ≡ plan_sizes (plan_of script.now) }
    requires way { AreAtRunSteps cluster.now (plan_of script.now).sections processors.old.items
        all.old.items }
    ensures gone { IfOk result (λ _. HaveGoneOnInRunTurns cluster.now (plan_of script.now) seed processors.old.items
        processors.new.items all.old.items all.new.items) }
    ensures whole { IfOk result (λ passed. passed ≡ true → All (λ x. x ≡ progress.Passed) all.new.items) }
    ensures stuck { IfOk result (λ passed. passed ≡ false → IsRunTurnDeadlockSeen processors.new.items) }
    ensures err { IfErr result (λ fault. fault.cause ≢ cause.Stuck) }
{
    let mut list = match new_list(alloc, processors.len()) {
        Ok(list) => list,
        Err(error) => return Err(outside(Refused::from(error))),
    };
    let mut generator = generator_of(seed);
    for _ in rt.forever() {
        if have_passed(all.as_slice()) {
            return Ok(true);
        }
        draw(&mut generator, &mut list);
        if round_in_vain(rt, cluster, processors, all, script, &list)? {
            return Ok(false);
        }
    }
    unreachable!()
}

/// Where each processor is at the start.
fn beginnings(alloc: Global, count: usize) -> Result<Vec<TurnProgress>, RunFault>
    ensures ok { IfOk result (λ r. r.items ≡ replicate count (progress.Next 0)) }
    ensures err { IfErr result (λ fault. fault.cause ≢ cause.Stuck) }
{
    match vec![in alloc; TurnProgress::Next(0); count] {
        Ok(all) => Ok(all),
        Err(error) => Err(outside(Refused::from(error))),
    }
}

/// Memory for the order of a round.
fn new_list(alloc: Global, count: usize) -> Result<Vec<usize>, AllocError>
    ensures { IfOk result (λ r. vec_len r ≡ count) }
{
    vec![in alloc; 0; count]
}

/// The generator of this seed.
fn generator_of(seed: Option<u64>) -> Option<Pcg32>
    ensures { result ≡ round_order_generator seed }
{
    match seed {
        Some(seed) => Some(Pcg32::seed_from_u64(seed)),
        None => None,
    }
}

/// Whether all have passed the closing barrier.
fn have_passed(all: &[TurnProgress]) -> bool
    ensures { IsTrue result ↔ All (λ x. x ≡ progress.Passed) all.now }
{
    all.iter().all(|progress| *progress == TurnProgress::Passed)
}

/// Whether nothing can come any more, after a round in which nobody moved. Processor 0 looks, since each waits then.
fn is_stuck<T: BookTurn, R: Wait>(
    rt: &R,
    cluster: &Cluster<T>,
    processors: &mut Vec<Processor<T>>,
    moved: bool,
) -> Result<bool, RunFault>
    requires some { 0 < vec_len processors.old }
    requires own { (m : Local) → slice_get processors.old.items 0 ≡ Some m → m.lock ≡ cluster.now.lock }
    ensures seen { AreRunTurnsSeenAhead processors.old.items processors.new.items }
    ensures stuck { IfOk result (λ stuck. stuck ≡ true → IsRunTurnDeadlockSeen processors.new.items) }
    ensures err { IfErr result (λ fault. fault.cause ≢ cause.Stuck) }
{
    if moved {
        return Ok(false);
    }
    match cluster.wait(rt, &mut processors[0]) {
        Ok(Waited::Stuck) => Ok(true),
        Ok(_) => Ok(false),
        Err(refused) => Err(outside(refused)),
    }
}

/// The order of the next round: rising numbers, exchanged as the generator draws.
fn draw(generator: &mut Option<Pcg32>, list: &mut [usize])
    ensures list { list.new ≡ (round_order_drawn generator.old (length list.old)).0 }
    ensures state { generator.new ≡ (round_order_drawn generator.old (length list.old)).1 }
    ensures below { AreDrawnOrderProcessors (length list.old) list.new × (length list.new ≡ length list.old) }
{
    rise(list);
    if let Some(generator) = generator {
        order(generator, list);
    }
}

/// The numbers from 0 on, rising.
fn rise(list: &mut [usize])
    ensures { list.new ≡ range_with_len 0 (length list.old) }
{
    for place in 0..list.len() {
        list[place] = place;
    }
}

/// A round in the order of the list: whether nothing can come any more after it.
fn round_in_vain<T: BookTurn, R: Wait>(
    rt: &R,
    cluster: &Cluster<T>,
    processors: &mut Vec<Processor<T>>,
    all: &mut Vec<TurnProgress>,
    script: &Script,
    list: &[usize],
) -> Result<bool, RunFault>
    requires lawful { IsLawful (plan_of script.now) }
    requires sizes { cluster.now.sizes ≡ plan_sizes (plan_of script.now) }
    requires list { AreDrawnOrderProcessors (vec_len processors.old) list.now }
    requires way { AreAtRunSteps cluster.now (plan_of script.now).sections processors.old.items
        all.old.items }
    ensures round { IfOk result (λ _. IsRunTurnRound (plan_of script.now).sections list.now
        processors.old.items processors.new.items all.old.items all.new.items) }
    ensures stuck { IfOk result (λ stuck. stuck ≡ true → IsRunTurnDeadlockSeen processors.new.items) }
    ensures err { IfErr result (λ fault. fault.cause ≢ cause.Stuck) }
{
    let moved = round(rt, cluster, processors, all, script, list)?;
    is_stuck(rt, cluster, processors, moved)
}

/// A round: each processor of the list has its turn. Answers whether one got on.
fn round<T: BookTurn, R: Wait>(
    rt: &R,
    cluster: &Cluster<T>,
    processors: &mut Vec<Processor<T>>,
    all: &mut Vec<TurnProgress>,
    script: &Script,
    list: &[usize],
) -> Result<bool, RunFault>
    requires lawful { IsLawful (plan_of script.now) }
    requires sizes { cluster.now.sizes ≡ plan_sizes (plan_of script.now) }
    requires list { AreDrawnOrderProcessors (vec_len processors.old) list.now }
    requires way { AreAtRunSteps cluster.now (plan_of script.now).sections processors.old.items
        all.old.items }
    ensures turns { IfOk result (λ _. AreRunTurns (plan_of script.now).sections list.now
        processors.old.items processors.new.items all.old.items all.new.items) }
    ensures err { IfErr result (λ fault. fault.cause ≢ cause.Stuck) }
{
    let mut moved = false;
    for p in list {
        if run_step_at(rt, cluster, processors, all, script, *p)? {
            moved = true;
        }
    }
    Ok(moved)
}

/// The turn of processor `p`: whether it got on. It sees all that others have done before its turn, and processor 0 then
/// sees what it has done.
fn run_step_at<T: BookTurn, R: Wait>(
    rt: &R,
    cluster: &Cluster<T>,
    processors: &mut Vec<Processor<T>>,
    all: &mut Vec<TurnProgress>,
    script: &Script,
    p: usize,
) -> Result<bool, RunFault>
    requires lawful { IsLawful (plan_of script.now) }
    requires sizes { cluster.now.sizes ≡ plan_sizes (plan_of script.now) }
    requires within { p < vec_len processors.old }
    requires way { AreAtRunSteps cluster.now (plan_of script.now).sections processors.old.items
        all.old.items }
    ensures long { vec_len processors.new ≡ vec_len processors.old }
    ensures turn { IfOk result (λ _. IsTurnOfRun (plan_of script.now).sections p
        processors.old.items processors.new.items all.old.items all.new.items) }
    ensures vain { IfOk result (λ moved. moved ≡ false → AreRunTurnsSeenAhead processors.old.items processors.new.items
        × (all.new.items ≡ all.old.items)) }
    ensures err { IfErr result (λ fault. fault.cause ≢ cause.Stuck) }
{
    let section = &script.sections[p];
    catch_up_with_first(cluster, processors, p);
    match make_run_turn(rt, cluster, &mut processors[p], section, all[p]) {
        Ok(outcome) => {
            let (progress, moved) = outcome;
            catch_first_up(cluster, processors, p);
            all[p] = progress;
            Ok(moved)
        }
        Err(refused) => Err(RunFault {
            processor: p,
            cause: Cause::Refused(refused),
        }),
    }
}
