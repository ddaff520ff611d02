//! Tests of processors on threads of their own. What calls answer on one thread is in the lists of tests/calls, at the
//! repository's top.
ghost use Rattle.std.specs.Prelude.{◌≡◌, ◌≤◌, ◌^◌, length};
ghost use Rattle.test_memory.specs.Reaching.Prelude.{IsTable};

use crate::crews::{Call, CallAnswer, Crew, CrewEnd, Task, run, run_each};
use book::Refused;
use cluster::{BookLock, BookTurn, TicketBookLock};
use journal::{Event, Journal, Kind};
use std::process::Abort;
use std::sync::Wait;
use std::test::Fail;
use std::thread::Threads;
use test_memory::reaching::ReachTable;

/// The word at the address, of a copy that is fetched where it is stale.
fn loads_fresh<T: BookTurn, R: Wait>(
    crew: &mut Crew<T>,
    rt: &R,
    p: usize,
    address: usize,
) -> Result<u32, Refused> {
    if let Err(Refused::Invalid(page)) = crew.call(rt, p, Call::Load(address)) {
        crew.call(rt, p, Call::Fetch(page))?;
    }
    match crew.call(rt, p, Call::Load(address))? {
        CallAnswer::Word(word) => Ok(word),
        _ => Err(Refused::NotYet),
    }
}

/// What processor 0 finds at address 0 under the lock.
fn finds<T: BookTurn, R: Wait>(crew: &mut Crew<T>, rt: &R) -> Result<u32, Refused> {
    crew.call(rt, 0, Call::Ask(0))?;
    crew.call(rt, 0, Call::Take)?;
    let word = loads_fresh(crew, rt, 0, 0)?;
    crew.call(rt, 0, Call::Release(0))?;
    Ok(word)
}

/// The journal that an audit of processor 0 answers.
fn audited<T: BookTurn, R: Wait>(crew: &mut Crew<T>, rt: &R) -> Result<Journal, Refused> {
    match crew.call(rt, 0, Call::Audit)? {
        CallAnswer::Copy(journal) => Ok(journal),
        _ => Err(Refused::NotYet),
    }
}

/// Whether the journal replays, with these words at its end.
fn replays_to(journal: &Journal, wanted: &[u32]) -> Result<bool, Refused> {
    match journal.replay()? {
        Some(words) => Ok(words.as_slice() == wanted),
        None => Ok(false),
    }
}

/// Each of two threads adds one a hundred times, under a lock.
fn counts<T: BookTurn + Send + Drop, R: Abort + Threads + Wait + Sync + AllocGlobal>(
    rt: &R,
) -> Result<(), CrewEnd>
    requires { T.ENTRIES ≤ 2 ^ 40 }
{
    let crew = Crew::<T>::new(rt.alloc(), [2, 1, 1, 1, 0])?;
    let tasks = [Task::Add {
        lock: 0,
        address: 0,
    }; 100];
    let (mut crew, outcome) = run(rt, rt.alloc(), crew, &tasks)?;
    outcome?;
    assert!(rt; finds(&mut crew, rt)? == 200);
    assert!(rt; replays_to(&audited(&mut crew, rt)?, &[200])?);
    Ok(())
}

#[test]
fn two_threads_count_with_a_row(rt: HostRuntime) -> Result<(), Fail> {
    counts::<BookLock, _>(&rt)?;
    Ok(())
}

#[test]
fn two_threads_count_with_tickets(rt: HostRuntime) -> Result<(), Fail> {
    counts::<TicketBookLock, _>(&rt)?;
    Ok(())
}

/// Adds one to the words of four pages, each under its own lock.
const ADDS: [Task; 4] = [
    Task::Add {
        lock: 0,
        address: 1,
    },
    Task::Add {
        lock: 1,
        address: 6,
    },
    Task::Add {
        lock: 2,
        address: 11,
    },
    Task::Add {
        lock: 3,
        address: 12,
    },
];

/// The words after each of sixteen has added one to each twice.
const SUMS: [u32; 16] = [0, 32, 0, 0, 0, 0, 32, 0, 0, 0, 0, 32, 32, 0, 0, 0];

/// Sixteen threads add under four locks in turn, and meet, twice.
fn meets_twice<T: BookTurn + Send + Drop, R: Abort + Threads + Wait + Sync + AllocGlobal>(
    rt: &R,
) -> Result<(), CrewEnd>
    requires { T.ENTRIES ≤ 2 ^ 40 }
{
    let [first, second, third, fourth] = ADDS;
    let crew = Crew::<T>::new(rt.alloc(), [16, 4, 4, 4, 0])?;
    let round = [first, second, third, fourth, Task::Meet];
    let (crew, outcome) = run(rt, rt.alloc(), crew, &round)?;
    outcome?;
    let round = [fourth, third, second, first, Task::Meet];
    let (mut crew, outcome) = run(rt, rt.alloc(), crew, &round)?;
    outcome?;
    for p in 0..16 {
        sees_all(&mut crew, rt, p)?;
    }
    is_in_order(rt, &crew.finish())?;
    Ok(())
}

/// The processor loads all words.
fn sees_all<T: BookTurn, R: Abort + Wait>(
    crew: &mut Crew<T>,
    rt: &R,
    p: usize,
) -> Result<(), Refused> {
    for (address, word) in SUMS.iter().enumerate() {
        assert!(rt; loads_fresh(crew, rt, p, address)? == *word);
    }
    Ok(())
}

/// The journal has no race, and it replays; the first events agree with the slow program.
fn is_in_order(rt: &(impl Abort + AllocGlobal), journal: &Journal) -> Result<(), Refused> {
    assert!(rt; journal.first_race()?.is_none());
    assert!(rt; replays_to(journal, &SUMS)?);
    let events = journal.events();
    let events = &events[..events.len().min(400)];
    let table = ReachTable::new(rt.alloc(), events)?;
    assert!(rt; agrees(&table, events));
    Ok(())
}

/// Whether no two of the events race, and each load answers the last store that happens before it.
fn agrees(table: &ReachTable, events: &[Event]) -> bool
    requires { IsTable events.now table.now }
{
    for place in 0..events.len() {
        if races_before(table, events, place) || !is_explained(table, events, place) {
            return false;
        }
    }
    true
}

/// Whether an earlier event races with the one at this place.
fn races_before(table: &ReachTable, events: &[Event], place: usize) -> bool
    requires { IsTable events.now table.now }
{
    (0..place).any(|earlier| table.is_race(events, earlier, place))
}

/// Whether the event at this place is no load, or answers the last store that happens before it.
fn is_explained(table: &ReachTable, events: &[Event], place: usize) -> bool {
    let Some(event) = events.get(place) else {
        return false;
    };
    let Kind::Load(address, word) = event.kind else {
        return true;
    };
    let mut last = 0;
    for (earlier, event) in events.iter().enumerate() {
        if let Kind::Store(stored, value) = event.kind {
            if stored == address && table.happens_before(earlier, place) {
                last = value;
            }
        }
    }
    word == last
}

#[test]
fn sixteen_threads_meet_with_a_row(rt: HostRuntime) -> Result<(), Fail> {
    meets_twice::<BookLock, _>(&rt)?;
    Ok(())
}

#[test]
fn sixteen_threads_meet_with_tickets(rt: HostRuntime) -> Result<(), Fail> {
    meets_twice::<TicketBookLock, _>(&rt)?;
    Ok(())
}

/// A cluster, what all its processors do, and how each ends.
struct Ending {
    sizes: [usize; 5],
    tasks: &'static [Task],
    outcomes: &'static [Result<(), CrewEnd>],
}

/// How processors end that wait for each other. Each of these has to come to its end under every schedule.
const ENDINGS: [Ending; 7] = [
    // A ring of flags.
    Ending {
        sizes: [16, 1, 1, 0, 17],
        tasks: &[Task::Pass { last: 16 }],
        outcomes: &[Ok(()); 16],
    },
    // A lock that is handed round.
    Ending {
        sizes: [4, 1, 1, 1, 0],
        tasks: &[Task::Add {
            lock: 0,
            address: 0,
        }; 4],
        outcomes: &[Ok(()); 4],
    },
    // A barrier that one reaches late.
    Ending {
        sizes: [4, 1, 1, 0, 0],
        tasks: &[Task::Dawdle { processor: 2 }, Task::Meet],
        outcomes: &[Ok(()); 4],
    },
    // Each of two holds what the other asks for.
    Ending {
        sizes: [2, 1, 1, 2, 0],
        tasks: &[Task::Hold, Task::Meet, Task::Cross],
        outcomes: &[Err(CrewEnd::Stuck); 2],
    },
    // One ends before the barrier, and the others wait there.
    Ending {
        sizes: [3, 1, 1, 0, 0],
        tasks: &[Task::Leave { processor: 1 }, Task::Meet],
        outcomes: &[
            Err(CrewEnd::Deserted),
            Err(CrewEnd::Left),
            Err(CrewEnd::Deserted),
        ],
    },
    // One ends, and the others go on: each waits for what the other brings.
    Ending {
        sizes: [3, 1, 1, 1, 0],
        tasks: &[
            Task::Leave { processor: 2 },
            Task::Add {
                lock: 0,
                address: 0,
            },
            Task::Add {
                lock: 0,
                address: 0,
            },
            Task::Add {
                lock: 0,
                address: 0,
            },
            Task::Add {
                lock: 0,
                address: 0,
            },
        ],
        outcomes: &[Ok(()), Ok(()), Err(CrewEnd::Left)],
    },
    // One ends late, when the others sleep already.
    Ending {
        sizes: [3, 1, 1, 0, 0],
        tasks: &[
            Task::Dawdle { processor: 0 },
            Task::Leave { processor: 0 },
            Task::Meet,
        ],
        outcomes: &[
            Err(CrewEnd::Left),
            Err(CrewEnd::Deserted),
            Err(CrewEnd::Deserted),
        ],
    },
];

/// Whether the processors end so.
fn ends_so<R: Threads + Wait + Sync + AllocGlobal>(
    rt: &R,
    ending: &Ending,
) -> Result<bool, CrewEnd> {
    let crew = Crew::<BookLock>::new(rt.alloc(), ending.sizes)?;
    let (_crew, outcomes) = run_each(rt, rt.alloc(), crew, ending.tasks)?;
    Ok(outcomes.as_slice() == ending.outcomes)
}

// Nobody sleeps for ever: a run in which one did would last until the time is over that a test may take.
#[test]
fn nobody_sleeps_for_ever(rt: HostRuntime) -> Result<(), Fail> {
    for _ in 0..50 {
        for ending in &ENDINGS {
            assert!(&rt; ends_so(&rt, ending)?);
        }
    }
    Ok(())
}
