//! Processors on threads.
ghost use Rattle.std.specs.Prelude.{◌≡◌, ◌≤◌, [], IfOk, IfSome, length, vec_len, vec_capacity};
ghost use Rattle.std.specs.Thread.{IsSend, IsSync};
ghost use Rattle.lrc_script.specs.Prelude.{plan_sections};
ghost use Rattle.cluster.specs.Prelude.{IsNewCluster};
ghost use Rattle.lrc_run.specs.Prelude.{AreThreadResults, AreThreadResultsOf, AreThreadsStarted, IsThreadResultOf, IsWalkResult};

use crate::course::Course;
use crate::gate::Gate;
use crate::walk::walk;
use cluster::{BookTurn, Cluster, Processor};
use conformance::Cause;
use lrc_script::script::Instruction;
use std::alloc::{AllocError, Global};
use std::marker::Model;
use std::snapshot::Snapshot;
use std::sync::Wait;
use std::thread::{Promise, PromisedHandle, Scope, Threads, scope, scope_env};

/// What came of a processor: itself, past the closing barrier, or why it went no further.
type ThreadResult<T> = Result<Processor<T>, Cause>;

/// What a thread promises: the processor that it gives back was this one, and has walked this section; and if it is stuck,
/// it has looked in vain as often as this.
#[derive(Drop)]
struct SectionWalked<T: BookTurn> {
    was: Snapshot<Processor<T>>,
    section: Snapshot<Vec<Instruction>>,
    tries: Snapshot<u64>,
}

impl<T: BookTurn> Promise<Result<Processor<T>, Cause>> for SectionWalked<T> {
    ghost use Rattle.lrc_run.specs.Threads.{IsWalkResult};

    ghost kept_by = { λ p r. IsWalkResult p.tries.value p.was.value p.section.value.items r };
}

/// A processor's thread, if it could be started. Contracts see it as what it was started with.
#[derive(Drop)]
struct Thread<T: BookTurn> {
    handle: Option<PromisedHandle<Result<Processor<T>, Cause>, SectionWalked<T>>>,
}

impl<T: BookTurn> Model for Thread<T> {
    ghost use Rattle.std.specs.Prelude.{Option};
    ghost use Rattle.std.specs.Option.{option_map};
    ghost use Rattle.lrc_run.specs.Threads.{ThreadErrand};

    ghost Value = { Option ThreadErrand };

    ghost view = { λ t. option_map (λ h. record {
      processor = h.promise.was.value;
      section = h.promise.section.value.items;
      tries = h.promise.tries.value;
    }) t.handle };
}

impl<T: BookTurn + Drop> Thread<T> {
    /// Waits for the thread's end, and answers what came of its processor.
    fn join<R: Threads>(self, rt: &R) -> ThreadResult<T>
        ensures { IsThreadResultOf self result }
    {
        match self.handle {
            Some(handle) => handle.join(rt),
            None => Err(Cause::Thread),
        }
    }
}

/// Walks the section with this processor, and gives it back. One that goes no further says so to the cluster, since
/// others may wait for it.
fn run_thread_result<T: BookTurn, R: Wait, G: Gate>(
    rt: &R,
    cluster: &Cluster<T>,
    mut processor: Processor<T>,
    course: &Course<'_, G>,
    section: &[Instruction],
) -> ThreadResult<T>
    requires own { processor.lock ≡ cluster.now.lock }
    ensures { IsWalkResult course.now.tries processor section.now result }
{
    let number = processor.number();
    match walk(rt, cluster, &mut processor, course, section) {
        Ok(()) => Ok(processor),
        Err(cause) => {
            cluster.end(number);
            Err(cause)
        }
    }
}

/// Waits for all threads, and answers what came of their processors.
fn join_run_threads<T: BookTurn + Drop, R: Threads>(
    rt: &R,
    threads: Vec<Thread<T>>,
    mut outcomes: Vec<ThreadResult<T>>,
) -> Vec<ThreadResult<T>>
    requires room { (outcomes.items ≡ []) × (vec_len threads ≤ vec_capacity outcomes) }
    ensures { AreThreadResultsOf threads.items result.items }
{
    for thread in threads {
        outcomes.push_reserved(thread.join(rt));
    }
    outcomes
}

/// Moves the processor into a thread of its own, which walks the section. If that can't be started, the cluster is told
/// that the processor makes no calls.
fn start_run_thread<
    's,
    'x: 's,
    T: BookTurn + Send + Drop,
    R: Threads + Wait + Sync,
    G: Gate + Sync,
>(
    scope: &'s Scope<'s, &'x ()>,
    rt: &'x R,
    cluster: &'x Cluster<T>,
    processor: Processor<T>,
    course: &'x Course<'x, G>,
    section: &'x Vec<Instruction>,
) -> Thread<T>
    requires own { processor.lock ≡ cluster.now.lock }
    ensures { IfSome result (λ e. (e.processor ≡ processor) × (e.section ≡ section.now.items) × (e.tries ≡ course.now.tries)) }
{
    let promise = SectionWalked {
        was: Snapshot::of(&processor),
        section: Snapshot::of(section),
        tries: Snapshot::of(&course.tries),
    };
    let number = processor.number();
    let section = section.as_slice();
    let started = scope.spawn_with(
        promise,
        move || -> ThreadResult<T>
            requires own { processor.lock ≡ cluster.now.lock }
            ensures { IsWalkResult course.entry.now.tries processor section.entry.now result }
        { run_thread_result(rt, cluster, processor, course, section) },
    );
    let handle = started.ok();
    if handle.is_none() {
        cluster.end(number);
    }
    Thread { handle }
}

/// Moves each processor into a thread of its own, which walks the processor's section.
fn start_run_threads<
    's,
    'x: 's,
    T: BookTurn + Send + Drop,
    R: Threads + Wait + Sync,
    G: Gate + Sync,
>(
    scope: &'s Scope<'s, &'x ()>,
    rt: &'x R,
    cluster: &'x Cluster<T>,
    processors: Vec<Processor<T>>,
    course: &'x Course<'x, G>,
    sections: &'x [Vec<Instruction>],
    mut threads: Vec<Thread<T>>,
) -> Vec<Thread<T>>
    requires new { IsNewCluster cluster.now processors.items }
    requires sections { length sections.now ≡ vec_len processors }
    requires room { (threads.items ≡ []) × (vec_len processors ≤ vec_capacity threads) }
    ensures { AreThreadsStarted course.now.tries processors.items (plan_sections sections.now) result.items }
{
    for processor in processors {
        let section = &sections[threads.len()];
        let thread = start_run_thread(scope, rt, cluster, processor, course, section);
        threads.push_reserved(thread);
    }
    threads
}

/// Moves each processor into a thread of its own, which walks the processor's section, and waits for all threads:
/// what came of the processors, in their order. [`Thread`](Cause::Thread) came of one whose thread couldn't be
/// started; the others run on.
pub(super) fn run_all_threads<
    'x,
    T: BookTurn + Send + Drop,
    R: Threads + Wait + Sync,
    G: Gate + Sync,
>(
    rt: &'x R,
    alloc: Global,
    cluster: &'x Cluster<T>,
    processors: Vec<Processor<T>>,
    course: &'x Course<'x, G>,
    sections: &'x [Vec<Instruction>],
) -> Result<Vec<ThreadResult<T>>, AllocError>
    requires new { IsNewCluster cluster.now processors.items }
    requires sections { length sections.now ≡ vec_len processors }
    ensures { IfOk result (λ outcomes. AreThreadResults course.now.tries cluster.now (plan_sections sections.now)
        outcomes.items) }
{
    let threads = Vec::with_capacity(alloc, processors.len())?;
    let outcomes = Vec::with_capacity(alloc, processors.len())?;
    Ok(scope(
        scope_env(),
        rt,
        move |scope| -> Vec<ThreadResult<T>>
            requires bounds { IsSend T.row × IsSync T.row × IsSync R.row × IsSync G.row }
            requires new { IsNewCluster cluster.now processors.items }
            requires sections { length sections.now ≡ vec_len processors }
            requires threads { (threads.items ≡ []) × (vec_len processors ≤ vec_capacity threads) }
            requires outcomes { (outcomes.items ≡ [])
                × (vec_len processors ≤ vec_capacity outcomes) }
            ensures { AreThreadResults course.entry.now.tries cluster.entry.now (plan_sections sections.entry.now) result.items }
        {
            let threads = start_run_threads(
                scope, rt, cluster, processors, course, sections, threads,
            );
            join_run_threads(rt, threads, outcomes)
        },
    ))
}
