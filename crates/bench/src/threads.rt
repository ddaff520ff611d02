//! Works of several threads.
ghost use Rattle.std.specs.Prelude.{◌≡◌, ◌≤◌, ◌*◌, ◌^◌, IfOk};

use anyhow::{Result, bail};
use cluster::BookLock;
use std::alloc::Global;
use std::sync::Wait;
use std::thread::Threads;
use test_crews::counters::{Counter, count_in_many};
use test_crews::crews::{Crew, Task, run};
use turn::{ArrayLock, TicketLock, Turn};

/// The ticket lock over a count.
pub type Tickets = TicketLock<u64, Counter, 4294967296>;

/// The array lock over a count.
pub type Row = ArrayLock<u64, Counter, 4294967296>;

/// Each of so many threads enters the lock alone and leaves it so many times. Answers the count, to which each adds
/// one while it is inside.
pub fn entries<T: Turn<u64, Counter> + Drop, R: Threads + Wait + Sync>(
    rt: &R,
    alloc: Global,
    threads: usize,
    times: u64,
) -> Result<u64>
    requires threads { (1 ≤ threads) × (threads ≤ 64) }
    requires times { times ≤ 2 ^ 32 }
    requires entries { T.ENTRIES ≤ 2 ^ 32 }
    ensures { IfOk result (λ n. n ≡ threads * times) }
{
    let Some(count) = count_in_many::<T, R>(rt, alloc, threads, times)? else {
        bail!("the chairs are spent");
    };
    Ok(count)
}

/// Each of so many processors, on a thread of its own, does the task so many times. Answers how many events the
/// journal has then.
pub fn tasks<R: Threads + Wait + Sync>(
    rt: &R,
    alloc: Global,
    threads: usize,
    task: Task,
    times: usize,
) -> Result<u64> {
    let crew = Crew::<BookLock>::new(alloc, [threads, 1, 1, 1, 0])?;
    let tasks = vec![in alloc; task; times]?;
    let (crew, outcome) = run(rt, alloc, crew, &tasks)?;
    outcome?;
    Ok(crew.finish().len() as u64)
}
