//! A layout of its own tables, used in turn; programs on threads; what is made of a seat's calls.
ghost use Rattle.cluster.specs.Prelude.{HasClusterCoverage, IsNewCluster};

use cluster::{BookLock, Cluster, Processor, Refused};
use seats::{
    Grids, Guard, Layout, ProcessorFault, Program, Seat, SeatFault, Sitting, run, run_guarded, sit,
};
use std::alloc::{AllocError, Global};
use std::sync::Wait;
use std::thread::Threads;

#[test]
fn tables_come_in_turn(rt: HostRuntime) -> Result<(), AllocError> {
    let mut layout = Layout::new(rt.alloc(), 2, 1, 2)?;
    layout.put(2, 1, 9, Guard::Open);
    assert!(rt;
        layout.guard(2, 0) == Some(Guard::Of(0)),
        "before what was put"
    );
    assert!(rt; layout.guard(2, 1) == Some(Guard::Open), "what was put");
    assert!(rt; layout.guard(2, 2).is_none(), "past the last address");
    assert!(rt; layout.guard(3, 0).is_none(), "past the last table");
    assert!(rt;
        layout.next(0) == 1 && layout.next(1) == 2,
        "one after another"
    );
    assert!(rt; layout.next(2) == 1, "the round again");
    assert!(rt; layout.first_open() == Some(1), "an open word");
    Ok(())
}

/// Each round makes one grid, block by block, from the other, which all may load. The last block has a cell less.
#[test]
fn grids_are_made_in_turn(rt: HostRuntime) -> Result<(), AllocError> {
    let layout = Grids { cells: 5, share: 2 }.layout(rt.alloc(), 3)?;
    assert!(rt;
        layout.guard(0, 1) == Some(Guard::Of(0)) && layout.guard(0, 4) == Some(Guard::Of(2)),
        "blocks of the first grid"
    );
    assert!(rt;
        layout.guard(0, 5) == Some(Guard::Shared) && layout.guard(0, 9) == Some(Guard::Shared),
        "the second grid is read"
    );
    assert!(rt;
        layout.guard(1, 0) == Some(Guard::Shared) && layout.guard(1, 4) == Some(Guard::Shared),
        "the first grid is read"
    );
    assert!(rt;
        layout.guard(1, 5) == Some(Guard::Of(0)) && layout.guard(1, 8) == Some(Guard::Of(1)),
        "blocks of the second grid"
    );
    assert!(rt; layout.guard(1, 10).is_none(), "past the grids");
    assert!(rt; layout.next(1) == 0, "the rounds again");
    Ok(())
}

/// What the processors of a test do.
enum SeatTestErrand {
    /// Each stores its number in a page of its own, meets the others, and answers what its neighbour stored.
    Meet,
    /// Each acquires a lock of its own, meets the others, and then wants its neighbour's.
    Cross,
    /// All but the last one meet. The last one wants a lock that isn't there.
    Leave,
    /// Each stores to a word of its own, then to one under lock 0, and after the barrier to its neighbour's; the first loads
    /// a word that is shared.
    Keep,
    /// Each stores to the word under lock 0 without it.
    Forget,
}

impl Program for SeatTestErrand {
    type Answer = u32;

    ghost did = { λ processor deeds answer. Unit {0} };

    fn work<S: Sitting>(&self, seat: &mut Seat<'_, S>) -> Result<u32, SeatFault> {
        let number = seat.number();
        match self {
            SeatTestErrand::Meet => {
                seat.store(number.wrapping_mul(64), u32::try_from(number).unwrap_or(0))?;
                seat.barrier()?;
                seat.load((number ^ 1).wrapping_mul(64))
            }
            SeatTestErrand::Cross => {
                seat.lock(number)?;
                seat.barrier()?;
                seat.lock(number ^ 1)?;
                Ok(0)
            }
            SeatTestErrand::Leave => {
                if number == 1 {
                    seat.lock(32)?;
                }
                seat.barrier()?;
                Ok(0)
            }
            SeatTestErrand::Keep => {
                seat.store(number, 1)?;
                seat.lock(0)?;
                seat.store(2, 2)?;
                seat.unlock(0)?;
                seat.barrier()?;
                seat.store(number ^ 1, 3)?;
                seat.load(3)
            }
            SeatTestErrand::Forget => {
                seat.lock(0)?;
                seat.store(2, 1)?;
                seat.unlock(0)?;
                seat.store(2, 1)?;
                Ok(0)
            }
        }
    }
}

/// Two tables in turn: words 0 and 1 of the processors and then of their neighbours, word 2 under lock 0, word 3 shared.
fn two_phases(alloc: Global) -> Result<Layout, AllocError> {
    let mut layout = Layout::new(alloc, 64, 0, 2)?;
    for table in 0..2 {
        layout.put(table, table ^ 1, (table ^ 1).wrapping_add(1), Guard::Of(1));
        layout.put(table, 2, 3, Guard::Under(0));
        layout.put(table, 3, 4, Guard::Shared);
    }
    Ok(layout)
}

/// The fault of a run of two processors under the layout.
fn fault_of<R: Threads + Wait + Sync>(
    rt: &R,
    alloc: Global,
    layout: &Layout,
    errand: &SeatTestErrand,
) -> Option<ProcessorFault> {
    run(rt, alloc, 2, 1, 64, 2, 0, layout, errand).err()
}

#[test]
fn all_work_on_threads(rt: HostRuntime) -> Result<(), ProcessorFault> {
    let layout = Layout::open(rt.alloc(), 4096)?;
    let ran = run(
        &rt,
        rt.alloc(),
        16,
        64,
        64,
        32,
        32,
        &layout,
        &SeatTestErrand::Meet,
    )?;
    let wanted = [1, 0, 3, 2, 5, 4, 7, 6, 9, 8, 11, 10, 13, 12, 15, 14];
    assert!(rt;
        ran.answers.as_slice() == wanted.as_slice(),
        "what each neighbour stored"
    );
    assert!(rt; ran.journal.len() >= 16 * 4, "all calls");
    Ok(())
}

#[test]
fn least_fault_is_told(rt: HostRuntime) -> Result<(), AllocError> {
    let alloc = rt.alloc();
    let layout = Layout::open(alloc, 64)?;
    let stuck = ProcessorFault {
        processor: 0,
        fault: SeatFault::Stuck,
    };
    assert!(rt;
        fault_of(&rt, alloc, &layout, &SeatTestErrand::Cross) == Some(stuck),
        "all wait"
    );
    let left = ProcessorFault {
        processor: 1,
        fault: SeatFault::Refused(Refused::BadLock),
    };
    assert!(rt;
        fault_of(&rt, alloc, &layout, &SeatTestErrand::Leave) == Some(left),
        "a wait in vain comes after"
    );
    let none = run(&rt, alloc, 17, 1, 1, 0, 0, &layout, &SeatTestErrand::Meet).err();
    let bad = ProcessorFault {
        processor: 0,
        fault: SeatFault::Refused(Refused::BadSize),
    };
    assert!(rt; none == Some(bad), "too many");
    Ok(())
}

#[test]
fn seats_keep_to_layouts(rt: HostRuntime) -> Result<(), AllocError> {
    let alloc = rt.alloc();
    let layout = two_phases(alloc)?;
    assert!(rt; layout.first_open().is_none(), "no open word");
    assert!(rt;
        fault_of(&rt, alloc, &layout, &SeatTestErrand::Keep).is_none(),
        "all that is allowed"
    );
    let barred = ProcessorFault {
        processor: 0,
        fault: SeatFault::NotAllowed(2),
    };
    assert!(rt;
        fault_of(&rt, alloc, &layout, &SeatTestErrand::Forget) == Some(barred),
        "a store without its lock"
    );
    let beyond = ProcessorFault {
        processor: 0,
        fault: SeatFault::NotAllowed(0),
    };
    let none = Layout::open(alloc, 0)?;
    assert!(rt;
        fault_of(&rt, alloc, &none, &SeatTestErrand::Keep) == Some(beyond),
        "a word without a guard"
    );
    Ok(())
}

/// Each adds to word 2 under lock 0, meets the others, and answers that word, and 0 if what is behind it isn't.
#[derive(Drop)]
struct SeatTestAdder {
    alloc: Global,
}

impl Program for SeatTestAdder {
    type Answer = u32;

    ghost did = { λ processor deeds answer. Unit {0} };

    fn work<S: Sitting>(&self, seat: &mut Seat<'_, S>) -> Result<u32, SeatFault> {
        seat.add(0, 2, 5)?;
        seat.add_two(0, (2, 1), (2, u32::MAX))?;
        seat.barrier()?;
        seat.lock(0)?;
        let words = seat.words(self.alloc, 2, 4)?;
        seat.unlock(0)?;
        match words.as_slice() {
            [sum, 0] => Ok(*sum),
            _ => Ok(0),
        }
    }
}

/// Each adds 5 to word 2 under lock 0, meets the others, and answers the sum of that word and itself, and 0 if it finds another
/// balance than it is.
struct SeatTestWeigher;

impl Program for SeatTestWeigher {
    type Answer = u32;

    ghost did = { λ processor deeds answer. Unit {0} };

    fn work<S: Sitting>(&self, seat: &mut Seat<'_, S>) -> Result<u32, SeatFault> {
        seat.add(0, 2, 5)?;
        seat.barrier()?;
        let even = seat.balances(0, &[2, 3], &[2])?;
        let odd = seat.balances(0, &[2], &[3])?;
        seat.lock(0)?;
        let twice = seat.sum(&[2, 2])?;
        seat.unlock(0)?;
        if even && !odd { Ok(twice) } else { Ok(0) }
    }
}

/// Each stores values of other types to a word of its own, and answers the word of the last one, and 0 if it loads another value.
struct SeatTestViewer;

impl Program for SeatTestViewer {
    type Answer = u32;

    ghost did = { λ processor deeds answer. Unit {0} };

    fn work<S: Sitting>(&self, seat: &mut Seat<'_, S>) -> Result<u32, SeatFault> {
        let own = seat.number();
        seat.store_as(own, true)?;
        let yes: bool = seat.load_as(own)?;
        let one: u32 = seat.load_as(own)?;
        seat.store_as(own, -7i32)?;
        let less: i32 = seat.load_as(own)?;
        if yes && one == 1 && less == -7 {
            seat.load(own)
        } else {
            Ok(0)
        }
    }
}

#[test]
fn words_are_added_to(rt: HostRuntime) -> Result<(), ProcessorFault> {
    let alloc = rt.alloc();
    let layout = two_phases(alloc)?;
    let ran = run_guarded(
        &rt,
        alloc,
        2,
        1,
        64,
        1,
        0,
        &layout,
        &SeatTestAdder { alloc },
    )?;
    assert!(rt;
        ran.answers.as_slice() == [10, 10].as_slice(),
        "what both added"
    );
    assert!(rt;
        ran.memory.get(2).copied() == Some(10),
        "the same at the end"
    );
    assert!(rt; ran.memory.len() == 64, "all words");
    Ok(())
}

#[test]
fn words_are_weighed(rt: HostRuntime) -> Result<(), ProcessorFault> {
    let alloc = rt.alloc();
    let layout = two_phases(alloc)?;
    let ran = run_guarded(&rt, alloc, 2, 1, 64, 1, 0, &layout, &SeatTestWeigher)?;
    assert!(rt;
        ran.answers.as_slice() == [20, 20].as_slice(),
        "twice what both added, and both balances found"
    );
    Ok(())
}

#[test]
fn words_are_of_other_types(rt: HostRuntime) -> Result<(), ProcessorFault> {
    let alloc = rt.alloc();
    let layout = two_phases(alloc)?;
    let ran = run_guarded(&rt, alloc, 2, 1, 64, 1, 0, &layout, &SeatTestViewer)?;
    assert!(rt;
        ran.answers.as_slice() == [4294967289, 4294967289].as_slice(),
        "7 less than none, modulo 2^32"
    );
    Ok(())
}

#[test]
fn open_words_are_told(rt: HostRuntime) -> Result<(), AllocError> {
    let alloc = rt.alloc();
    let mut layout = Layout::new(alloc, 64, 0, 1)?;
    layout.put(0, 5, 6, Guard::Open);
    let open = ProcessorFault {
        processor: 0,
        fault: SeatFault::Open(5),
    };
    let ran = run_guarded(&rt, alloc, 2, 1, 64, 1, 0, &layout, &SeatTestViewer);
    assert!(rt; ran.err() == Some(open), "the first word that is open");
    Ok(())
}

/// Processor 0 stores to each of eight pages, and sets a flag. Processor 1 awaits it, and loads from the first pages in turn, as
/// often as makes sixteen events with the fetches: it fetches each page that it loads from.
#[derive(Clone, Copy)]
struct SeatTestFetcher {
    pages: usize,
}

impl Program for SeatTestFetcher {
    type Answer = u32;

    ghost did = { λ processor deeds answer. Unit {0} };

    fn work<S: Sitting>(&self, seat: &mut Seat<'_, S>) -> Result<u32, SeatFault> {
        if seat.number() == 0 {
            for page in 0..8 {
                seat.store(page, 1)?;
            }
            seat.set(0)?;
        } else {
            seat.await_flag(0)?;
            for turn in 0..16usize.saturating_sub(self.pages) {
                seat.load(turn.checked_rem(self.pages).unwrap_or(0))?;
            }
        }
        Ok(0)
    }
}

/// Lets the program work on one seat after another, all on this thread.
fn sit_in_turn<P: Program, R: Wait>(
    rt: &R,
    cluster: &Cluster<BookLock>,
    processors: Vec<Processor<BookLock>>,
    layout: &Layout,
    program: &P,
) -> Result<(), SeatFault>
    requires new { IsNewCluster cluster.now processors.items }
    requires covered { HasClusterCoverage processors.items }
{
    for processor in processors {
        sit(rt, cluster, processor, layout, program)?;
    }
    Ok(())
}

/// Fetches so many pages.
fn fetches<R: Wait>(rt: &R, alloc: Global, pages: usize) -> Result<(), SeatFault> {
    let layout = Layout::open(alloc, 8)?;
    let (cluster, processors) = Cluster::<BookLock>::new(alloc, 2, 8, 1, 0, 1)?;
    sit_in_turn(
        rt,
        &cluster,
        processors,
        &layout,
        &SeatTestFetcher { pages },
    )
}

// This test and the next make as many requests for memory (tests/memory/lists): a fetch makes none.
#[test]
fn one_page_is_fetched(rt: HostRuntime) -> Result<(), SeatFault> {
    fetches(&rt, rt.alloc(), 1)
}

#[test]
fn all_pages_are_fetched(rt: HostRuntime) -> Result<(), SeatFault> {
    fetches(&rt, rt.alloc(), 8)
}
