//! A program on a cluster of its own, with a thread for each processor.
ghost use Rattle.std.specs.Prelude.{ℕ, ◌≡◌, Err, IfErr, IfOk};
ghost use Rattle.cluster.specs.Copies.Sound.{AreSoundSizes};
ghost use Rattle.book.specs.declared.refused.Refused.TheVariants.{BadSize};
ghost use Rattle.seats.specs.Prelude.{IsFirstOpenInTables, IsGuardedRun, IsGuardedRunFault, IsProgramRun, IsProgramRunFault};
ghost use Rattle.seats.specs.declared.fault.SeatFault.TheVariants as fault;

mod threads;

use self::threads::{Workers, work_on_seat_threads};
use crate::fault::{ProcessorFault, SeatFault, told_fault};
use crate::layout::Layout;
use crate::program::Program;
use cluster::{BookLock, Cluster, Journal};
use std::alloc::Global;
use std::sync::Wait;
use std::thread::Threads;

/// What came of a program whose processors all came to their ends.
#[derive(Drop)]
pub struct ProgramRun<X> {
    /// What each processor's thread answered, by rising number.
    pub answers: Vec<X>,
    /// The whole history.
    pub journal: Journal,
}

/// Runs the program on a cluster of these sizes, with a thread for each processor: 1 to 16 processors, 1 to 64 pages of 1
/// to 64 words, and up to 32 locks and flags. Each processor keeps to the layout: if no word of it is open to all, nothing races.
///
/// # Errors
///
/// [`BadSize`](cluster::Refused::BadSize) if a size is outside these. Else the fault of the least processor that faulted
/// otherwise than by waiting in vain, and if there is none, of the least that waited in vain. A thread that couldn't be
/// started is [`NoThread`](crate::SeatFault::NoThread); the others run on, and whoever waits for it is told. A fault outside of the
/// threads, such as refused memory, names processor 0.
pub fn run<P: Program, R: Threads + Wait + Sync>(
    rt: &R,
    alloc: Global,
    processors: usize,
    pages: usize,
    words: usize,
    locks: usize,
    flags: usize,
    layout: &Layout,
    program: &P,
) -> Result<ProgramRun<P::Answer>, ProcessorFault>
    // All have kept to the layout, and done what the program says, and the journal has it all.
    ensures ran { IfOk result (λ r. IsProgramRun layout.now P.did
        (record { processors = processors; pages = pages; words = words; locks = locks; flags = flags })
        r.answers.items r.journal) }
    ensures size { (AreSoundSizes (record { processors = processors; pages = pages; words = words; locks = locks; flags = flags }) → ⊥)
        → result ≡ Err (record { processor = 0; fault = fault.Refused BadSize }) }
    // Which fault is told of the ends that the processors came to.
    ensures fault { IfErr result (IsProgramRunFault layout.now P.did
        (record { processors = processors; pages = pages; words = words; locks = locks; flags = flags })) }
{
    let (cluster, all) = Cluster::<BookLock>::new(alloc, processors, pages, words, locks, flags)?;
    let workers = work_on_seat_threads(rt, alloc, &cluster, all, layout, program)?;
    let Workers {
        processors,
        answers,
        ends,
    } = workers;
    if let Some(fault) = told_fault(&ends) {
        return Err(fault);
    }
    let journal = cluster.finish(processors);
    Ok(ProgramRun { answers, journal })
}

/// What came of a program whose layout leaves no word open to all.
#[derive(Drop)]
pub struct GuardedRun<X> {
    /// What each processor's thread answered, by rising number.
    pub answers: Vec<X>,
    /// The words at the end, by address.
    pub memory: Vec<u32>,
    /// The whole history.
    pub journal: Journal,
}

/// Runs the program as [`run`] does, by a layout that leaves no word open to all, and answers the memory at the end, too. Nothing
/// races, and all replies are those of one flat memory.
///
/// # Errors
///
/// [`Open`](SeatFault::Open) with the first address that is open to all, before anything is run. Else as [`run`], and
/// [`NoMemory`](cluster::Refused::NoMemory) if there is none for the words.
pub fn run_guarded<P: Program, R: Threads + Wait + Sync>(
    rt: &R,
    alloc: Global,
    processors: usize,
    pages: usize,
    words: usize,
    locks: usize,
    flags: usize,
    layout: &Layout,
    program: &P,
) -> Result<GuardedRun<P::Answer>, ProcessorFault>
    ensures ran { IfOk result (λ r. IsGuardedRun layout.now P.did
        (record { processors = processors; pages = pages; words = words; locks = locks; flags = flags })
        r.answers.items r.memory.items r.journal) }
    ensures fault { IfErr result (IsGuardedRunFault layout.now P.did
        (record { processors = processors; pages = pages; words = words; locks = locks; flags = flags })) }
    ensures left_open { (a : ℕ) → IsFirstOpenInTables layout.now a → result ≡ Err (record { processor = 0; fault = fault.Open a }) }
{
    if let Some(address) = layout.first_open() {
        return Err(ProcessorFault {
            processor: 0,
            fault: SeatFault::Open(address),
        });
    }
    let ran = run(
        rt, alloc, processors, pages, words, locks, flags, layout, program,
    )?;
    match ran.journal.replay()? {
        Some(memory) => Ok(GuardedRun {
            answers: ran.answers,
            memory,
            journal: ran.journal,
        }),
        None => unreachable!(),
    }
}
