//! Works of one thread over a cluster's calls.

use anyhow::Result;
use book::Refused;
use cluster::{BookLock, Cluster, Processor};
use std::alloc::Global;
use std::rt::Clock;
use std::sync::Wait;
use std::time::Instant;
use test_crews::crews::{Call, Crew};

/// A lock that is free is asked for, taken and released.
const ROUND: [Call; 3] = [Call::Ask(0), Call::Take, Call::Release(0)];

/// Processor 0 makes these calls.
fn make_all<R: Wait>(rt: &R, crew: &mut Crew<BookLock>, calls: [Call; 3]) -> Result<(), Refused> {
    for call in calls {
        crew.call(rt, 0, call)?;
    }
    Ok(())
}

/// Asks for a free lock, takes it and releases it so many times, and answers how often.
pub fn grants<R: Wait>(rt: &R, alloc: Global, times: usize) -> Result<u64> {
    let mut crew = Crew::new(alloc, [1, 1, 64, 1, 0])?;
    for _ in 0..times {
        make_all(rt, &mut crew, ROUND)?;
    }
    Ok(times as u64)
}

/// What each of sixteen processors does until its open block is full.
#[derive(Clone, Copy)]
pub enum TimedAccess {
    Nothing,
    Load,
    Store,
}

/// Loads 256 words, which must be 0.
fn loads(processor: &mut Processor<BookLock>) -> Result<u32, Refused> {
    let mut all = 0;
    for _ in 0..4 {
        for address in 0..64 {
            all |= processor.load(address)?;
        }
    }
    Ok(all)
}

/// Stores 256 words.
fn stores(processor: &mut Processor<BookLock>) -> Result<u32, Refused> {
    for value in 0..4 {
        for address in 0..64 {
            processor.store(address, value)?;
        }
    }
    Ok(0)
}

/// Makes the accesses, and answers the words read.
fn fill_block(processor: &mut Processor<BookLock>, access: TimedAccess) -> Result<u32, Refused> {
    match access {
        TimedAccess::Nothing => Ok(0),
        TimedAccess::Load => loads(processor),
        TimedAccess::Store => stores(processor),
    }
}

/// A new cluster of sixteen processors, of which each does so on its own.
fn fill_blocks(alloc: Global, access: TimedAccess) -> Result<u32, Refused> {
    let (_cluster, mut all) = Cluster::<BookLock>::new(alloc, 16, 1, 64, 0, 0)?;
    let mut words = 0;
    for processor in &mut all {
        words |= fill_block(processor, access)?;
    }
    Ok(words)
}

/// Makes so many clusters of sixteen processors, which do so, 4096 accesses in all, and answers the words read.
pub fn accesses(alloc: Global, access: TimedAccess, times: usize) -> Result<u64> {
    let mut words = 0;
    for _ in 0..times {
        words |= fill_blocks(alloc, access)?;
    }
    Ok(u64::from(words))
}

/// Processor 0 stores to all words of all pages, and hands each full block in.
fn store_all<R: Wait>(rt: &R, crew: &mut Crew<BookLock>) -> Result<(), Refused> {
    for address in 0..4096 {
        crew.call(rt, 0, Call::Store(address, 7))?;
        if address % 256 == 255 {
            crew.call(rt, 0, Call::Flush)?;
        }
    }
    Ok(())
}

/// Each of the sixteen processors makes the call.
fn make_in_turn<R: Wait>(rt: &R, crew: &mut Crew<BookLock>, call: Call) -> Result<(), Refused> {
    for p in 0..16 {
        crew.call(rt, p, call)?;
    }
    Ok(())
}

/// The other processors fetch all pages.
fn fetch_all<R: Wait>(rt: &R, crew: &mut Crew<BookLock>) -> Result<(), Refused> {
    for number in 64..1024 {
        crew.call(rt, number / 64, Call::Fetch(number % 64))?;
    }
    Ok(())
}

/// The nanoseconds of all fetches, where one stored to all words and all have met since.
fn time_fetches<R: Wait + Clock>(rt: &R, crew: &mut Crew<BookLock>) -> Result<u32> {
    store_all(rt, crew)?;
    make_in_turn(rt, crew, Call::Arrive)?;
    make_in_turn(rt, crew, Call::Take)?;
    let began = Instant::now(rt)?;
    fetch_all(rt, crew)?;
    Ok(began.elapsed(rt)?.subsec_nanos())
}

/// In a cluster of sixteen processors and 64 pages of 64 words, so many times: one stores to all words, all meet, and
/// the others fetch all pages, with one record of 64 words each. Answers the nanoseconds of the 960 fetches, the least.
pub fn fetches<R: Wait + Clock>(rt: &R, alloc: Global, times: usize) -> Result<u64> {
    let mut crew = Crew::new(alloc, [16, 64, 64, 1, 0])?;
    let mut least = u32::MAX;
    for _ in 0..times {
        least = least.min(time_fetches(rt, &mut crew)?);
    }
    Ok(u64::from(least))
}
