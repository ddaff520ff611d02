//! Processors on threads.
ghost use Rattle.std.specs.Prelude.{◌≡◌, ◌≤◌, [], IfOk, IfSome, length, vec_len, vec_capacity};
ghost use Rattle.std.specs.Thread.{IsSend, IsSync};
ghost use Rattle.cluster.specs.NewClusters.{shared_cluster};
ghost use Rattle.cluster.specs.Prelude.{HasCoverage, HasClusterCoverage, IsNewCluster};
ghost use Rattle.seats.specs.Prelude.{AreProgramRunEnds, HaveEndedInProgramRun, IsCoverAllowed};
ghost use Rattle.seats.specs.Prelude.{AreSeatedForProgramRun, HasRoomForProgramRun, HasWorkedSitting, HaveAllJoinedProgramRun, HaveAllWorkedInProgramRun, IsNobodyInProgramRun, IsProgramRunWork};
ghost use Rattle.seats.specs.Prelude.{NoneFaulted, new_sitting_processor, program_run_seat};

use crate::fault::SeatFault;
use crate::layout::Layout;
use crate::program::{Program, sit};
use cluster::{BookLock, Cluster, Processor};
use std::alloc::{AllocError, Global};
use std::marker::{Model, PhantomData};
use std::snapshot::Snapshot;
use std::sync::Wait;
use std::thread::{Promise, PromisedHandle, Scope, Threads, scope, scope_env};

/// What came of a processor: itself, with what its thread answered, or why it went no further.
type Work<X> = Result<(Processor<BookLock>, X), SeatFault>;

/// What a thread promises: that this processor has worked.
#[derive(Drop)]
struct SeatTaken<P: Program> {
    was: Snapshot<Processor<BookLock>>,
    layout: Snapshot<Layout>,
    program: PhantomData<P>,
}

impl<P: Program> Promise<Work<P::Answer>> for SeatTaken<P> {
    ghost use Rattle.std.specs.Prelude.{IfOk};
    ghost use Rattle.seats.specs.Sitting.{HasWorkedSitting};
    ghost use Rattle.seats.specs.ProgramRuns.{program_run_seat};

    ghost kept_by = { λ p r. IfOk r (λ x. HasWorkedSitting P.did (program_run_seat p.layout.value p.was.value) x.0 x.1) };
}

/// A processor's thread, if it could be started. Contracts see it as what it was started with.
#[derive(Drop)]
struct Thread<P: Program> {
    handle: Option<PromisedHandle<Work<P::Answer>, SeatTaken<P>>>,
}

impl<P: Program> Model for Thread<P> {
    ghost use Rattle.std.specs.Prelude.{Option};
    ghost use Rattle.std.specs.Option.{option_map};
    ghost use Rattle.seats.specs.ProgramRuns.{ProgramRunErrand};

    ghost Value = { Option ProgramRunErrand };

    ghost view = { λ t. option_map (λ h. record {
      processor = h.promise.was.value;
      layout = h.promise.layout.value;
    }) t.handle };
}

impl<P: Program> Thread<P> {
    /// Waits for the thread's end, and answers what came of its processor.
    fn join<R: Threads>(self, rt: &R) -> Work<P::Answer>
        ensures { IsProgramRunWork P.did self result }
    {
        match self.handle {
            Some(handle) => handle.join(rt),
            None => Err(SeatFault::NoThread),
        }
    }
}

/// Moves the processor into a thread of its own, on which the program works. If that can't be started, the cluster is told
/// that the processor makes no calls.
fn start_seat_thread<'s, 'x: 's, P: Program, R: Threads + Wait + Sync>(
    scope: &'s Scope<'s, &'x ()>,
    rt: &'x R,
    cluster: &'x Cluster<BookLock>,
    processor: Processor<BookLock>,
    layout: &'x Layout,
    program: &'x P,
) -> Thread<P>
    requires new { processor ≡ new_sitting_processor (program_run_seat layout.now processor) }
    requires own { shared_cluster processor.lock processor.sizes ≡ cluster.now }
    requires covers { HasCoverage processor }
    requires allowed { IsCoverAllowed processor }
    ensures { IfSome result (λ e. (e.processor ≡ processor) × (e.layout ≡ layout.now)) }
{
    let promise = SeatTaken {
        was: Snapshot::of(&processor),
        layout: Snapshot::of(layout),
        program: PhantomData,
    };
    let number = processor.number();
    let started = scope.spawn_with(
        promise,
        move || -> Work<P::Answer>
            requires new { processor ≡ new_sitting_processor (program_run_seat layout.now processor) }
            requires own { shared_cluster processor.lock processor.sizes ≡ cluster.now }
            requires covers { HasCoverage processor }
            requires allowed { IsCoverAllowed processor }
            ensures { IfOk result (λ x. HasWorkedSitting P.did (program_run_seat layout.entry.now processor) x.0 x.1) }
        { sit(rt, cluster, processor, layout, program) },
    );
    let handle = started.ok();
    if handle.is_none() {
        cluster.end(number);
    }
    Thread { handle }
}

/// Moves each processor into a thread of its own, on which the program works.
fn start_seat_threads<'s, 'x: 's, P: Program, R: Threads + Wait + Sync>(
    scope: &'s Scope<'s, &'x ()>,
    rt: &'x R,
    cluster: &'x Cluster<BookLock>,
    processors: Vec<Processor<BookLock>>,
    layout: &'x Layout,
    program: &'x P,
    mut threads: Vec<Thread<P>>,
) -> Vec<Thread<P>>
    requires new { IsNewCluster cluster.now processors.items }
    requires covered { HasClusterCoverage processors.items }
    requires room { (threads.items ≡ []) × (vec_len processors ≤ vec_capacity threads) }
    ensures { AreSeatedForProgramRun layout.now processors.items result.items }
{
    for processor in processors {
        let thread = start_seat_thread(scope, rt, cluster, processor, layout, program);
        threads.push_reserved(thread);
    }
    threads
}

/// The processors that came to their ends, by rising number, with what their threads answered; and of each processor whether
/// it did.
#[derive(Drop)]
pub(super) struct Workers<X> {
    pub(super) processors: Vec<Processor<BookLock>>,
    pub(super) answers: Vec<X>,
    pub(super) ends: Vec<Result<(), SeatFault>>,
}

/// Nobody yet, with room for as many.
fn nobody_on_seat_threads<X: Drop>(alloc: Global, count: usize) -> Result<Workers<X>, AllocError>
    ensures { IfOk result (λ w. IsNobodyInProgramRun w × HasRoomForProgramRun w count) }
{
    Ok(Workers {
        processors: Vec::with_capacity(alloc, count)?,
        answers: Vec::with_capacity(alloc, count)?,
        ends: Vec::with_capacity(alloc, count)?,
    })
}

/// Waits for all threads, and puts together what came of their processors.
fn join_seat_threads<P: Program, R: Threads>(
    rt: &R,
    threads: Vec<Thread<P>>,
    mut workers: Workers<P::Answer>,
) -> Workers<P::Answer>
    requires none { IsNobodyInProgramRun workers }
    requires room { HasRoomForProgramRun workers (vec_len threads) }
    ensures long { length result.ends.items ≡ length threads.items }
    ensures ended { HaveEndedInProgramRun P.did threads.items result.ends.items }
    ensures joined { NoneFaulted result.ends.items
        → HaveAllJoinedProgramRun P.did threads.items result.processors.items result.answers.items }
{
    for thread in threads {
        match thread.join(rt) {
            Ok((processor, answer)) => {
                workers.processors.push_reserved(processor);
                workers.answers.push_reserved(answer);
                workers.ends.push_reserved(Ok(()));
            }
            Err(fault) => workers.ends.push_reserved(Err(fault)),
        }
    }
    workers
}

/// Moves each processor into a thread of its own, on which the program works, and waits for all threads. All memory is
/// taken before the first one is started.
pub(super) fn work_on_seat_threads<'x, P: Program, R: Threads + Wait + Sync>(
    rt: &'x R,
    alloc: Global,
    cluster: &'x Cluster<BookLock>,
    processors: Vec<Processor<BookLock>>,
    layout: &'x Layout,
    program: &'x P,
) -> Result<Workers<P::Answer>, AllocError>
    requires new { IsNewCluster cluster.now processors.items }
    requires covered { HasClusterCoverage processors.items }
    ensures worked { IfOk result (λ w. NoneFaulted w.ends.items
        → HaveAllWorkedInProgramRun layout.now P.did processors.items w.processors.items w.answers.items) }
    ensures ended { IfOk result (λ w. AreProgramRunEnds layout.now P.did cluster.now w.ends.items) }
{
    let count = processors.len();
    let threads = Vec::with_capacity(alloc, count)?;
    let workers = nobody_on_seat_threads(alloc, count)?;
    Ok(scope(
        scope_env(),
        rt,
        move |scope| -> Workers<P::Answer>
            requires bounds { IsSync R.row × IsSync P.row }
            requires new { IsNewCluster cluster.now processors.items }
            requires covered { HasClusterCoverage processors.items }
            requires threads { (threads.items ≡ []) × (vec_len processors ≤ vec_capacity threads) }
            requires workers { IsNobodyInProgramRun workers × HasRoomForProgramRun workers (vec_len processors) }
            ensures worked { NoneFaulted result.ends.items
                → HaveAllWorkedInProgramRun layout.entry.now P.did processors.items result.processors.items result.answers.items }
            ensures ended { AreProgramRunEnds layout.entry.now P.did cluster.entry.now result.ends.items }
        {
            let threads = start_seat_threads(
                scope, rt, cluster, processors, layout, program, threads,
            );
            join_seat_threads(rt, threads, workers)
        },
    ))
}
