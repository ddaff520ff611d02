//! Each processor of a crew on a thread of its own.
ghost use Rattle.std.specs.Prelude.{◌≡◌, IfOk, map};
ghost use Rattle.test_crews.specs.Crews.Crews.{IsOf};

use crate::crews::calls::{Call, load, make, wait_on};
use crate::crews::crew::Crew;
use book::Refused;
use cluster::{BookTurn, Cluster, Processor, Waited};
use std::alloc::{AllocError, Global};
use std::sync::Wait;
use std::thread::{Threads, map_vec, yield_now};
use thiserror::Error;

/// How often a call is made at most, while memory is refused.
const TRIES: usize = 1_000_000;

/// What a processor does on its thread.
#[derive(Clone, Copy, Debug)]
pub enum Task {
    /// Adds one to the word at the address, under the lock.
    Add { lock: usize, address: usize },
    /// Arrives at the barrier, and departs with all others.
    Meet,
    /// Awaits the flag of its own number, and sets the next one. Processor 0 sets flag 1, and then awaits the last.
    Pass { last: usize },
    /// Acquires the lock of its own number.
    Hold,
    /// Acquires the lock of the other processor of two.
    Cross,
    /// Enters the book a thousand times, if it is this processor.
    Dawdle { processor: usize },
    /// Ends, if it is this processor.
    Leave { processor: usize },
}

/// Why a processor ends before its tasks are done.
#[derive(Clone, Copy, Debug, PartialEq, Eq, Error)]
pub enum CrewEnd {
    /// A call was refused.
    #[error("{0}")]
    Refused(#[from] Refused),
    /// All wait, and nothing can come.
    #[error("stuck")]
    Stuck,
    /// Nobody is left who could bring what it waits for.
    #[error("deserted")]
    Deserted,
    /// A task was to end.
    #[error("left")]
    Left,
}

impl From<AllocError> for CrewEnd {
    fn from(error: AllocError) -> CrewEnd {
        CrewEnd::Refused(Refused::from(error))
    }
}

/// Makes the call, and again while memory is refused.
fn insist<T: BookTurn, R: Wait>(
    cluster: &Cluster<T>,
    rt: &R,
    processor: &mut Processor<T>,
    call: Call,
) -> Result<(), Refused>
    requires { IsOf cluster.now processor.old }
    ensures own { IsOf cluster.now processor.new }
    ensures number { processor.new.number ≡ processor.old.number }
{
    for _ in 0..TRIES {
        match make(cluster, rt, processor, call) {
            Ok(_) => return Ok(()),
            Err(Refused::NoMemory) => yield_now(),
            Err(refused) => return Err(refused),
        }
    }
    Err(Refused::NoMemory)
}

/// Waits until what the processor awaits may have come.
fn rest<T: BookTurn, R: Wait>(
    cluster: &Cluster<T>,
    rt: &R,
    processor: &mut Processor<T>,
) -> Result<(), CrewEnd>
    requires { IsOf cluster.now processor.old }
    ensures own { IsOf cluster.now processor.new }
    ensures number { processor.new.number ≡ processor.old.number }
{
    match wait_on(cluster, rt, processor)? {
        Waited::MayHaveCome => Ok(()),
        Waited::Stuck => Err(CrewEnd::Stuck),
        Waited::Deserted => Err(CrewEnd::Deserted),
    }
}

/// Takes what the processor waits for, once it has come.
fn take<T: BookTurn, R: Wait>(
    cluster: &Cluster<T>,
    rt: &R,
    processor: &mut Processor<T>,
) -> Result<(), CrewEnd>
    requires { IsOf cluster.now processor.old }
    ensures own { IsOf cluster.now processor.new }
    ensures number { processor.new.number ≡ processor.old.number }
{
    for _ in rt.forever() {
        match insist(cluster, rt, processor, Call::Take) {
            Ok(()) => return Ok(()),
            Err(Refused::NotYet) => rest(cluster, rt, processor)?,
            Err(refused) => return Err(CrewEnd::Refused(refused)),
        }
    }
    unreachable!()
}

/// Makes the call, and takes what the processor waits for then.
fn wait_for<T: BookTurn, R: Wait>(
    cluster: &Cluster<T>,
    rt: &R,
    processor: &mut Processor<T>,
    call: Call,
) -> Result<(), CrewEnd>
    requires { IsOf cluster.now processor.old }
    ensures own { IsOf cluster.now processor.new }
    ensures number { processor.new.number ≡ processor.old.number }
{
    insist(cluster, rt, processor, call)?;
    take(cluster, rt, processor)
}

/// The word at the address, of a copy that is fetched where it is stale.
fn load_fresh<T: BookTurn, R: Wait>(
    cluster: &Cluster<T>,
    rt: &R,
    processor: &mut Processor<T>,
    address: usize,
) -> Result<u32, Refused>
    requires { IsOf cluster.now processor.old }
    ensures own { IsOf cluster.now processor.new }
    ensures number { processor.new.number ≡ processor.old.number }
{
    if let Err(Refused::Invalid(page)) = load(cluster, processor, address) {
        make(cluster, rt, processor, Call::Fetch(page))?;
    }
    load(cluster, processor, address)
}

/// Adds one to the word under the lock.
fn add<T: BookTurn, R: Wait>(
    cluster: &Cluster<T>,
    rt: &R,
    processor: &mut Processor<T>,
    lock: usize,
    address: usize,
) -> Result<(), CrewEnd>
    requires { IsOf cluster.now processor.old }
    ensures own { IsOf cluster.now processor.new }
    ensures number { processor.new.number ≡ processor.old.number }
{
    wait_for(cluster, rt, processor, Call::Ask(lock))?;
    let word = load_fresh(cluster, rt, processor, address)?;
    insist(
        cluster,
        rt,
        processor,
        Call::Store(address, word.wrapping_add(1)),
    )?;
    insist(cluster, rt, processor, Call::Release(lock))?;
    Ok(())
}

/// Passes a ring of flags on: processor 0 begins and ends it.
fn pass<T: BookTurn, R: Wait>(
    cluster: &Cluster<T>,
    rt: &R,
    processor: &mut Processor<T>,
    last: usize,
) -> Result<(), CrewEnd>
    requires { IsOf cluster.now processor.old }
    ensures own { IsOf cluster.now processor.new }
    ensures number { processor.new.number ≡ processor.old.number }
{
    let own = processor.number();
    if own == 0 {
        insist(cluster, rt, processor, Call::Set(1))?;
        return wait_for(cluster, rt, processor, Call::Watch(last));
    }
    wait_for(cluster, rt, processor, Call::Watch(own))?;
    insist(cluster, rt, processor, Call::Set(own.wrapping_add(1)))?;
    Ok(())
}

/// Enters the book a thousand times.
fn dawdle<T: BookTurn, R: Wait>(
    cluster: &Cluster<T>,
    rt: &R,
    processor: &mut Processor<T>,
) -> Result<(), CrewEnd>
    requires { IsOf cluster.now processor.old }
    ensures own { IsOf cluster.now processor.new }
    ensures number { processor.new.number ≡ processor.old.number }
{
    for _ in 0..1000 {
        insist(cluster, rt, processor, Call::Flush)?;
    }
    Ok(())
}

/// Does the task.
fn perform<T: BookTurn, R: Wait>(
    cluster: &Cluster<T>,
    rt: &R,
    processor: &mut Processor<T>,
    task: Task,
) -> Result<(), CrewEnd>
    requires { IsOf cluster.now processor.old }
    ensures own { IsOf cluster.now processor.new }
    ensures number { processor.new.number ≡ processor.old.number }
{
    let own = processor.number();
    match task {
        Task::Add { lock, address } => add(cluster, rt, processor, lock, address),
        Task::Meet => wait_for(cluster, rt, processor, Call::Arrive),
        Task::Pass { last } => pass(cluster, rt, processor, last),
        Task::Hold => wait_for(cluster, rt, processor, Call::Ask(own)),
        Task::Cross => wait_for(cluster, rt, processor, Call::Ask(own ^ 1)),
        Task::Dawdle { processor: who } if who == own => dawdle(cluster, rt, processor),
        Task::Leave { processor: who } if who == own => Err(CrewEnd::Left),
        Task::Dawdle { .. } | Task::Leave { .. } => Ok(()),
    }
}

/// Does the tasks, in their order.
fn perform_all<T: BookTurn, R: Wait>(
    cluster: &Cluster<T>,
    rt: &R,
    processor: &mut Processor<T>,
    tasks: &[Task],
) -> Result<(), CrewEnd>
    requires { IsOf cluster.now processor.old }
    ensures own { IsOf cluster.now processor.new }
    ensures number { processor.new.number ≡ processor.old.number }
{
    for task in tasks {
        perform(cluster, rt, processor, *task)?;
    }
    Ok(())
}

/// Does the tasks with this processor, and gives it back. Nobody waits in vain for one that ends early.
fn work<T: BookTurn, R: Wait>(
    cluster: &Cluster<T>,
    rt: &R,
    mut processor: Processor<T>,
    tasks: &[Task],
) -> (Processor<T>, Result<(), CrewEnd>)
    requires { IsOf cluster.now processor }
    ensures own { IsOf cluster.now result.0 }
    ensures number { result.0.number ≡ processor.number }
{
    let outcome = perform_all(cluster, rt, &mut processor, tasks);
    // Whoever is stuck or deserted has told all others by that.
    if let Err(CrewEnd::Refused(_) | CrewEnd::Left) = outcome {
        cluster.end(processor.number());
    }
    (processor, outcome)
}

/// The processors that came back, in order, and how each ended.
fn gathered<T: BookTurn>(
    alloc: Global,
    results: Vec<(Processor<T>, Result<(), CrewEnd>)>,
) -> Result<(Vec<Processor<T>>, Vec<Result<(), CrewEnd>>), AllocError>
    ensures { IfOk result (λ r. r.0.items ≡ map (λ p. p.0) results.items) }
{
    let mut processors = Vec::with_capacity(alloc, results.len())?;
    let mut outcomes = Vec::with_capacity(alloc, results.len())?;
    for (processor, outcome) in results {
        processors.push(processor)?;
        outcomes.push(outcome)?;
    }
    Ok((processors, outcomes))
}

/// Each processor does the tasks on a thread of its own. Answers the crew when all have ended, and how each did, by
/// their numbers.
pub fn run_each<T: BookTurn + Send + Drop, R: Threads + Wait + Sync>(
    rt: &R,
    alloc: Global,
    crew: Crew<T>,
    tasks: &[Task],
) -> Result<(Crew<T>, Vec<Result<(), CrewEnd>>), AllocError>
    ensures { IfOk result (λ r. r.0.cluster ≡ crew.cluster) }
{
    let Crew {
        cluster,
        processors,
    } = crew;
    let shared = &cluster;
    let results = map_vec(
        rt,
        processors,
        &|processor: Processor<T>| -> (Processor<T>, Result<(), CrewEnd>)
            requires { IsOf shared.now processor }
            ensures own { IsOf shared.entry.now result.0 }
            ensures number { result.0.number ≡ processor.number }
        { work(shared, rt, processor, tasks) },
    )?;
    let (processors, outcomes) = gathered(alloc, results)?;
    let crew = Crew {
        cluster,
        processors,
    };
    Ok((crew, outcomes))
}

/// The same, with how the first processor ended, by number, that ended early.
pub fn run<T: BookTurn + Send + Drop, R: Threads + Wait + Sync>(
    rt: &R,
    alloc: Global,
    crew: Crew<T>,
    tasks: &[Task],
) -> Result<(Crew<T>, Result<(), CrewEnd>), AllocError>
    ensures { IfOk result (λ r. r.0.cluster ≡ crew.cluster) }
{
    let (crew, outcomes) = run_each(rt, alloc, crew, tasks)?;
    Ok((crew, first_of(&outcomes)))
}

/// The first outcome that isn't Ok.
fn first_of(outcomes: &[Result<(), CrewEnd>]) -> Result<(), CrewEnd> {
    for outcome in outcomes {
        (*outcome)?;
    }
    Ok(())
}
