//! Runs of scripts with each processor on a thread of its own.
ghost use Rattle.std.specs.Prelude.{◌≡◌, ◌≢◌, ◌^◌, ◌<◌, ◌≤◌, IfErr, IfOk};
ghost use Rattle.lrc_script.specs.Prelude.{IsLawful, plan_of};
ghost use Rattle.conformance.specs.Prelude.{plan_sizes};
ghost use Rattle.conformance.specs.declared.cause.Cause.TheVariants as cause;
ghost use Rattle.lrc_run.specs.Prelude.{AreThreadResults, HaveRunCallsOfWalks, IsClusterReport, IsClusterRun, IsClusterLockOf, IsScriptReport, lock_choice_width};
ghost use Rattle.conformance.specs.declared.script_runner.LockChoice.TheVariants as lock;

mod threads;

use self::threads::run_all_threads;
use crate::course::Course;
use crate::gate::Gate;
use crate::run_ending::conclude_run_ending;
use crate::run_faults::all_or_run_fault;
use cluster::{BookLock, BookTurn, Cluster, Processor};
use conformance::{Cause, RunFault};
use lrc_report::Report;
use lrc_script::script::Script;
use std::alloc::Global;
use std::sync::Wait;
use std::thread::Threads;

/// Runs the script as [`run_with`] does, with the array lock round the book.
pub fn run<R: Threads + Wait + Sync, G: Gate + Sync>(
    rt: &R,
    alloc: Global,
    script: &Script,
    gate: &G,
    tries: u64,
) -> Result<Report, RunFault>
    requires tries { 0 < tries }
    requires lawful { IsLawful (plan_of script.now) }
    ensures report { IfOk result (λ report. IsScriptReport (plan_of script.now) report) }
    ensures ran { IsClusterRun (lock_choice_width lock.Array) (plan_of script.now) tries result }
{
    run_with::<BookLock, R, G>(rt, alloc, script, gate, tries)
}

/// Runs the script with each processor on a thread of its own and the lock `T` round the book: each does its
/// section, behind the gate at each instruction, and passes the closing barrier. When all threads have ended,
/// processor 0 loads what is shown, and the cluster is finished.
///
/// What a processor waits for is looked for `tries` times, and then it ends with [`Stuck`](Cause::Stuck); between two
/// looks its thread sleeps. It ends so at once if that can't come any more: each processor waits so, or has ended. An
/// error is the fault of the least processor whose cause isn't Stuck, and if there is none, of the least with Stuck.
/// A fault outside of the threads, such as refused memory, names processor 0.
pub fn run_with<T: BookTurn + Send + Drop, R: Threads + Wait + Sync, G: Gate + Sync>(
    rt: &R,
    alloc: Global,
    script: &Script,
    gate: &G,
    tries: u64,
) -> Result<Report, RunFault>
    requires tries { 0 < tries }
    requires lawful { IsLawful (plan_of script.now) }
    requires entries { T.ENTRIES ≤ 2 ^ 40 }
    ensures report { IfOk result (λ report. IsScriptReport (plan_of script.now) report) }
    ensures ran { IsClusterRun T.width (plan_of script.now) tries result }
{
    let (cluster, outcomes) = run_all_or_fault::<T, R, G>(rt, alloc, script, gate, tries)?;
    match all_or_run_fault(alloc, outcomes) {
        Ok(processors) => conclude_cluster_run(rt, alloc, cluster, processors, script),
        Err(fault) => Err(fault),
    }
}

/// The report of processors that have all walked their sections.
fn conclude_cluster_run<T: BookTurn + Drop, R: Wait>(
    rt: &R,
    alloc: Global,
    cluster: Cluster<T>,
    processors: Vec<Processor<T>>,
    script: &Script,
) -> Result<Report, RunFault>
    requires lawful { IsLawful (plan_of script.now) }
    requires sizes { cluster.sizes ≡ plan_sizes (plan_of script.now) }
    requires lock { IsClusterLockOf T.width cluster }
    requires walked { HaveRunCallsOfWalks cluster (plan_of script.now).sections processors.items }
    ensures report { IfOk result (λ report. IsScriptReport (plan_of script.now) report) }
    ensures cluster { IfOk result (IsClusterReport T.width (plan_of script.now)) }
    ensures err { IfErr result (λ fault. fault.cause ≢ cause.Stuck) }
{
    match conclude_run_ending(rt, alloc, cluster, processors, script) {
        Ok(report) => Ok(report),
        Err(refused) => Err(outside_cluster_run(Cause::Refused(refused))),
    }
}

/// A cause outside of the threads, which names processor 0.
fn outside_cluster_run(cause: Cause) -> RunFault
    ensures { result.cause ≡ cause }
{
    RunFault {
        processor: 0,
        cause,
    }
}

/// The script's cluster, and what came of its processors when all threads have ended. A fault names processor 0.
fn run_all_or_fault<T: BookTurn + Send + Drop, R: Threads + Wait + Sync, G: Gate + Sync>(
    rt: &R,
    alloc: Global,
    script: &Script,
    gate: &G,
    tries: u64,
) -> Result<(Cluster<T>, Vec<Result<Processor<T>, Cause>>), RunFault>
    requires lawful { IsLawful (plan_of script.now) }
    requires entries { T.ENTRIES ≤ 2 ^ 40 }
    ensures sizes { IfOk result (λ r. r.0.sizes ≡ plan_sizes (plan_of script.now)) }
    ensures lock { IfOk result (λ r. IsClusterLockOf T.width r.0) }
    ensures err { IfErr result (λ fault. fault.cause ≢ cause.Stuck) }
    ensures outcomes { IfOk result (λ r. AreThreadResults tries r.0 (plan_of script.now).sections r.1.items) }
{
    match run_all::<T, R, G>(rt, alloc, script, gate, tries) {
        Ok(all) => Ok(all),
        Err(cause) => Err(outside_cluster_run(cause)),
    }
}

/// The same. The only faults are what a cluster and the threads' memory are refused.
fn run_all<T: BookTurn + Send + Drop, R: Threads + Wait + Sync, G: Gate + Sync>(
    rt: &R,
    alloc: Global,
    script: &Script,
    gate: &G,
    tries: u64,
) -> Result<(Cluster<T>, Vec<Result<Processor<T>, Cause>>), Cause>
    requires lawful { IsLawful (plan_of script.now) }
    requires entries { T.ENTRIES ≤ 2 ^ 40 }
    ensures sizes { IfOk result (λ r. r.0.sizes ≡ plan_sizes (plan_of script.now)) }
    ensures lock { IfOk result (λ r. IsClusterLockOf T.width r.0) }
    ensures err { IfErr result (λ why. why ≢ cause.Stuck) }
    ensures outcomes { IfOk result (λ r. AreThreadResults tries r.0 (plan_of script.now).sections r.1.items) }
{
    let (cluster, processors) = Cluster::<T>::new(
        alloc,
        script.processors,
        script.pages,
        script.words,
        script.locks,
        script.flags,
    )?;
    let sections = script.sections.as_slice();
    let course = Course { gate, tries };
    let outcomes = run_all_threads(rt, alloc, &cluster, processors, &course, sections)?;
    Ok((cluster, outcomes))
}
