//! Scripts with each processor on a thread of its own: gates, and locks of few entries.
ghost use Rattle.std.specs.Prelude.{◌<◌, ◌≤◌, ◌^◌};

use book::{Book, Refused};
use cluster::{BookLock, BookTurn, Rule, TicketBookLock};
use lrc_report::Report;
use lrc_run::{Cause, Gate, Open, RunFault, Stopped, run, run_with};
use lrc_script::script::parse;
use std::alloc::Global;
use std::process::Abort;
use std::sync::Wait;
use std::sync::atomic::AtomicUsize;
use std::sync::atomic::Ordering::SeqCst;
use std::test::Fail;
use std::thread::{Threads, yield_now};
use turn::ArrayLock;

/// What the script's run answers, under the array lock and under the ticket lock.
fn both<R: Threads + Wait + Sync, G: Gate + Sync>(
    rt: &R,
    alloc: Global,
    text: &[u8],
    gate: &G,
    tries: u64,
) -> Result<(Result<Report, RunFault>, Result<Report, RunFault>), Fail>
    requires { 0 < tries }
{
    let script = parse(alloc, text)?;
    let array = run(rt, alloc, &script, gate, tries);
    let ticket = run_with::<TicketBookLock, R, G>(rt, alloc, &script, gate, tries);
    Ok((array, ticket))
}

/// Whether the script's run comes to its end, under either lock.
fn both_end<R: Threads + Wait + Sync, G: Gate + Sync>(
    rt: &R,
    alloc: Global,
    text: &[u8],
    gate: &G,
) -> Result<bool, Fail> {
    let (array, ticket) = both(rt, alloc, text, gate, 1_000_000)?;
    Ok(array.is_ok() && ticket.is_ok())
}

/// Runs a script that ends with this fault.
fn fails<R: Threads + Wait + Sync + Abort, G: Gate + Sync>(
    rt: &R,
    alloc: Global,
    text: &[u8],
    gate: &G,
    tries: u64,
    processor: usize,
    cause: Cause,
) -> Result<(), Fail>
    requires { 0 < tries }
{
    let (array, ticket) = both(rt, alloc, text, gate, tries)?;
    let fault = RunFault { processor, cause };
    assert!(rt; array.err() == Some(fault));
    assert!(rt; ticket.err() == Some(fault));
    Ok(())
}

/// What comes of a processor that awaits a flag which nobody sets, where the lock lets it enter so many times.
fn fault_of_waiting<T: BookTurn + Drop + Send + Sync, R: Threads + Wait + Sync>(
    rt: &R,
    alloc: Global,
    tries: u64,
) -> Result<Option<RunFault>, Fail>
    requires tries { 0 < tries }
    requires entries { T.ENTRIES ≤ 2 ^ 40 }
{
    let script = parse(alloc, b"cluster 1 1 1 0 1\np 0\nawait 0\nshow 0\n")?;
    Ok(run_with::<T, R, Open>(rt, alloc, &script, &Open, tries).err())
}

/// The fault of processor 0.
fn of_first(cause: Cause) -> Option<RunFault> {
    Some(RunFault {
        processor: 0,
        cause,
    })
}

/// One entry to watch the flag, and one for the only look.
#[test]
fn just_one_look(rt: HostRuntime) -> Result<(), Fail> {
    let enough = fault_of_waiting::<ArrayLock<Book, Rule, 2>, _>(&rt, rt.alloc(), 1)?;
    assert_eq!(&rt; enough, of_first(Cause::Stuck));
    let short = fault_of_waiting::<ArrayLock<Book, Rule, 1>, _>(&rt, rt.alloc(), 1)?;
    assert_eq!(&rt; short, of_first(Cause::Refused(Refused::SeatSpent)));
    Ok(())
}

/// One entry more to wait, which finds that the flag can't come: the looks that are left aren't made.
#[test]
fn known_to_be_stuck(rt: HostRuntime) -> Result<(), Fail> {
    let enough = fault_of_waiting::<ArrayLock<Book, Rule, 3>, _>(&rt, rt.alloc(), 1000)?;
    assert_eq!(&rt; enough, of_first(Cause::Stuck));
    let short = fault_of_waiting::<ArrayLock<Book, Rule, 2>, _>(&rt, rt.alloc(), 1000)?;
    assert_eq!(&rt; short, of_first(Cause::Refused(Refused::SeatSpent)));
    Ok(())
}

/// So many looks that nobody ends for want of them.
const FOREVER: u64 = 1_000_000_000_000;

/// How often a script is run: under another schedule each time.
const TIMES: usize = 40;

/// A processor that the gate stops leaves the others stuck, and none of them asleep: at the barrier, at a lock that it holds, at a
/// flag that it would have set. A run that slept for ever would not end within the time that a test has.
#[test]
fn stopped_and_waited_for(rt: HostRuntime) -> Result<(), Fail> {
    let texts: [&[u8]; 3] = [
        b"cluster 3 1 1 0\np 0\nbarrier\np 1\nload 0\nbarrier\np 2\nload 0\nbarrier\nshow 0\n",
        b"cluster 2 1 1 1\np 0\nacquire 0\nrelease 0\np 1\nacquire 0\nrelease 0\nshow 0\n",
        b"cluster 2 1 1 0 1\np 0\nload 0\nawait 0\np 1\nload 0\nset 0\nshow 0\n",
    ];
    let gate = StopsAt {
        from: 1,
        instruction: 2,
    };
    for _ in 0..TIMES {
        for text in texts {
            fails(&rt, rt.alloc(), text, &gate, FOREVER, 1, Cause::Gate)?;
        }
    }
    Ok(())
}

/// Processor 1 enters three times for each pair, and has six entries. Processor 0 is stuck at the closing barrier then,
/// and isn't the one that is told.
#[test]
fn another_has_spent_its_entries(rt: HostRuntime) -> Result<(), Fail> {
    let text =
        b"cluster 2 1 1 1\np 0\np 1\nacquire 0\nrelease 0\nacquire 0\nrelease 0\nacquire 0\nrelease 0\nshow 0\n";
    let script = parse(rt.alloc(), text)?;
    let fault = run_with::<ArrayLock<Book, Rule, 6>, HostRuntime, Open>(
        &rt,
        rt.alloc(),
        &script,
        &Open,
        FOREVER,
    ).err();
    let spent = RunFault {
        processor: 1,
        cause: Cause::Refused(Refused::SeatSpent),
    };
    assert_eq!(&rt; fault, Some(spent));
    Ok(())
}

/// Stops the processors from one number on at the instruction with this number.
#[derive(Clone, Copy)]
struct StopsAt {
    from: usize,
    instruction: usize,
}

impl Gate for StopsAt {
    fn pass(&self, processor: usize, instruction: usize) -> Result<(), Stopped> {
        if processor >= self.from && instruction == self.instruction {
            return Err(Stopped);
        }
        Ok(())
    }
}

#[test]
fn stopped_and_not_stuck(rt: HostRuntime) -> Result<(), Fail> {
    // Processor 0 is stuck at the closing barrier, and processors 1 and 2 are stopped.
    let text = b"cluster 3 1 1 0\np 0\nload 0\np 1\nload 0\np 2\nload 0\nload 0\nshow 0\n";
    let gate = StopsAt {
        from: 1,
        instruction: 1,
    };
    fails(&rt, rt.alloc(), text, &gate, 1000, 1, Cause::Gate)?;
    let gate = StopsAt {
        from: 0,
        instruction: 2,
    };
    fails(&rt, rt.alloc(), text, &gate, 1000, 2, Cause::Gate)
}

/// Counts the calls of processor 0 at instruction 2, and stops processor 1 at its first.
#[derive(Drop)]
struct Watching {
    calls: AtomicUsize,
}

impl Gate for Watching {
    fn pass(&self, processor: usize, instruction: usize) -> Result<(), Stopped> {
        if processor == 0 && instruction == 2 {
            self.calls.fetch_add(1, SeqCst);
        }
        if processor == 1 && instruction == 1 {
            return Err(Stopped);
        }
        Ok(())
    }
}

#[test]
fn the_gate_comes_before_its_instruction(rt: HostRuntime) -> Result<(), Fail> {
    // Were it called after processor 1's barrier, processor 0 would come to its second instruction.
    let text = b"cluster 2 1 1 0\np 0\nbarrier\nload 0\np 1\nbarrier\nshow 0\n";
    let gate = Watching {
        calls: AtomicUsize::new(0),
    };
    fails(&rt, rt.alloc(), text, &gate, 1000, 1, Cause::Gate)?;
    assert_eq!(&rt; gate.calls.load(SeqCst), 0);
    Ok(())
}

/// Adds up the numbers of the instructions at which processor 1 passes.
#[derive(Drop)]
struct Counting {
    calls: AtomicUsize,
    sum: AtomicUsize,
}

impl Gate for Counting {
    fn pass(&self, processor: usize, instruction: usize) -> Result<(), Stopped> {
        if processor == 1 {
            self.calls.fetch_add(1, SeqCst);
            self.sum.fetch_add(instruction, SeqCst);
        }
        Ok(())
    }
}

#[test]
fn the_gate_is_called_once_an_instruction(rt: HostRuntime) -> Result<(), Fail> {
    // Under each of the two locks at the instructions 1, 2 and 3, and not for the closing barrier.
    let text = b"cluster 2 1 1 0\np 0\nload 0\np 1\nload 0\nload 0\nload 0\nshow 0\n";
    let gate = Counting {
        calls: AtomicUsize::new(0),
        sum: AtomicUsize::new(0),
    };
    assert!(&rt; both_end(&rt, rt.alloc(), text, &gate)?);
    assert_eq!(&rt; gate.calls.load(SeqCst), 6);
    assert_eq!(&rt; gate.sum.load(SeqCst), 12);
    Ok(())
}

/// Lets a processor pass where the other one is at the gate at the same time.
#[derive(Drop)]
struct Meeting {
    first: AtomicUsize,
    second: AtomicUsize,
}

/// Says that one is there, and looks whether the other is.
fn meet(mine: &AtomicUsize, other: &AtomicUsize) -> Result<(), Stopped> {
    mine.store(1, SeqCst);
    for _ in 0..1_000_000 {
        if other.load(SeqCst) == 1 {
            return Ok(());
        }
        yield_now();
    }
    Err(Stopped)
}

impl Gate for Meeting {
    fn pass(&self, processor: usize, _instruction: usize) -> Result<(), Stopped> {
        if processor == 0 {
            meet(&self.first, &self.second)
        } else {
            meet(&self.second, &self.first)
        }
    }
}

/// A meeting to which nobody has come.
fn nobody_there() -> Meeting {
    Meeting {
        first: AtomicUsize::new(0),
        second: AtomicUsize::new(0),
    }
}

/// Whether two processors pass a gate at which each waits for the other, under this lock. On one thread neither would be let
/// through.
fn get_on<T: BookTurn + Drop + Send + Sync, R: Threads + Wait + Sync>(
    rt: &R,
    alloc: Global,
) -> Result<bool, Fail>
    requires { T.ENTRIES ≤ 2 ^ 40 }
{
    let script = parse(
        alloc,
        b"cluster 2 1 1 0\np 0\nload 0\np 1\nload 0\nshow 0\n",
    )?;
    Ok(run_with::<T, R, Meeting>(rt, alloc, &script, &nobody_there(), 1_000_000).is_ok())
}

#[test]
fn processors_run_at_the_same_time(rt: HostRuntime) -> Result<(), Fail> {
    assert!(&rt; get_on::<BookLock, _>(&rt, rt.alloc())?);
    assert!(&rt; get_on::<TicketBookLock, _>(&rt, rt.alloc())?);
    Ok(())
}
