//! Counting under a lock.
ghost use Rattle.std.specs.Prelude.{◌≡◌, ℕ, [], ◌∷◌, ◌+◌, ◌*◌, ◌^◌, ◌<◌, ◌≤◌, length, map, sum, vec_capacity};
ghost use Rattle.std.specs.Prelude.{MatchOption, MatchResult, OnOk, OnErr, IfOk};
ghost use Rattle.std.specs.List.{list_all};
ghost use Rattle.turn.specs.Prelude.{lock, chair_place, chair_view, entries, IsChairOutside, IsSameChair, AreChairsInOrder};
ghost use Rattle.test_crews.specs.Counters.Tallies.{IsNew, HasAdded};

use crate::counters::tally::{AddsOne, Counter};
use std::alloc::{AllocError, Global};
use std::sync::Wait;
use std::thread::{Threads, join, map_vec};
use turn::{Chair, Spent, Turn};

/// Adds one to the count.
pub fn add_one<T: Turn<u64, Counter>, R: Wait>(
    rt: &R,
    turn: &T,
    chair: &mut Chair<u64, Counter>,
) -> Result<(), Spent>
    requires own { lock chair.old ≡ T.id turn.now }
    requires outside { IsChairOutside chair.old }
    requires room { chair_view chair.old < 2 ^ 32 }
    ensures added { OnOk result ((chair_view chair.new ≡ chair_view chair.old + 1)
        × (entries chair.new ≡ entries chair.old + 1)
        × IsSameChair chair.old chair.new × IsChairOutside chair.new) }
    ensures spent { OnErr result ((entries chair.old ≡ T.ENTRIES) × (chair.new ≡ chair.old)) }
{
    let (held, count) = turn.enter(rt, chair)?;
    turn.leave::<AddsOne>(chair, held, count + 1);
    Ok(())
}

/// Adds one to the count that many times, or as often as the chair may still enter.
pub fn add_many<T: Turn<u64, Counter>, R: Wait>(
    rt: &R,
    turn: &T,
    chair: &mut Chair<u64, Counter>,
    times: u64,
) -> Result<(), Spent>
    requires own { lock chair.old ≡ T.id turn.now }
    requires outside { IsChairOutside chair.old }
    requires room { chair_view chair.old + times ≤ 2 ^ 32 }
    ensures same { IsSameChair chair.old chair.new × IsChairOutside chair.new }
    ensures added { OnOk result ((chair_view chair.new ≡ chair_view chair.old + times)
        × (entries chair.new ≡ entries chair.old + times)) }
    ensures spent { OnErr result (T.ENTRIES < entries chair.old + times) }
{
    for _ in 0..times {
        add_one(rt, turn, chair)?;
    }
    Ok(())
}

// Adds with a chair of its own, and gives the chair back, and whether it could enter as often.
fn added<T: Turn<u64, Counter>, R: Wait>(
    rt: &R,
    turn: &T,
    mut chair: Chair<u64, Counter>,
    times: u64,
) -> (Chair<u64, Counter>, bool)
    requires new { IsNew (T.id turn.now) chair }
    requires room { times ≤ 2 ^ 32 }
    ensures { HasAdded T.ENTRIES times chair result.0 result.1 }
{
    let added = add_many(rt, turn, &mut chair, times).is_ok();
    (chair, added)
}

// A lock over 0 with two chairs.
pub(super) fn open_two<T: Turn<u64, Counter>>(
    alloc: Global,
) -> Result<(T, Chair<u64, Counter>, Chair<u64, Counter>), AllocError>
    requires { 2 * T.ENTRIES < 2 ^ 64 }
    ensures size { IfOk result (λ r. T.size r.0 ≡ 2) }
    ensures first { IfOk result (λ r. IsNew (T.id r.0) r.1 × (chair_place r.1 ≡ 0)) }
    ensures second { IfOk result (λ r. IsNew (T.id r.0) r.2 × (chair_place r.2 ≡ 1)) }
{
    let (turn, mut chairs) = T::new(alloc, 0, 2)?;
    let Some(second) = chairs.pop() else {
        unreachable!()
    };
    let Some(first) = chairs.pop() else {
        unreachable!()
    };
    Ok((turn, first, second))
}

// The count of a lock with two chairs.
fn close_two<T: Turn<u64, Counter>>(
    turn: T,
    mut chairs: Vec<Chair<u64, Counter>>,
    first: Chair<u64, Counter>,
    second: Chair<u64, Counter>,
) -> u64
    requires size { T.size turn ≡ 2 }
    requires room { (chairs.items ≡ []) × (2 ≤ vec_capacity chairs) }
    requires first { (lock first ≡ T.id turn) × (chair_place first ≡ 0) × IsChairOutside first }
    requires second { (lock second ≡ T.id turn) × (chair_place second ≡ 1) × IsChairOutside second }
    ensures { result ≡ chair_view first + chair_view second }
{
    chairs.push_reserved(first);
    chairs.push_reserved(second);
    turn.close(chairs)
}

/// What two threads count that add one that many times each; None where a chair may not enter as often.
pub fn count_in_two<T: Turn<u64, Counter>, R: Threads + Wait + Sync>(
    rt: &R,
    alloc: Global,
    times: u64,
) -> Result<Option<u64>, AllocError>
    requires room { times ≤ 2 ^ 32 }
    requires entries { 2 * T.ENTRIES < 2 ^ 64 }
    ensures { IfOk result (λ count. MatchOption count (T.ENTRIES < times)
        (λ n. (n ≡ 2 * times) × (times ≤ T.ENTRIES))) }
{
    let chairs = Vec::with_capacity(alloc, 2)?;
    let (turn, first, second) = open_two::<T>(alloc)?;
    let shared = &turn;
    let ((first, one), (second, two)) = join(
        rt,
        move || -> (Chair<u64, Counter>, bool)
            requires { IsNew (T.id shared.now) first × (times ≤ 2 ^ 32) }
            ensures { HasAdded T.ENTRIES times first result.0 result.1 }
        { added(rt, shared, first, times) },
        move || -> (Chair<u64, Counter>, bool)
            requires { IsNew (T.id shared.now) second × (times ≤ 2 ^ 32) }
            ensures { HasAdded T.ENTRIES times second result.0 result.1 }
        { added(rt, shared, second, times) },
    );
    let count = close_two(turn, chairs, first, second);
    if one && two {
        Ok(Some(count))
    } else {
        Ok(None)
    }
}

// The chairs of that many threads, in order, and whether each could enter as often as it was to.
fn chairs_of(
    alloc: Global,
    results: Vec<(Chair<u64, Counter>, bool)>,
) -> Result<(Vec<Chair<u64, Counter>>, bool), AllocError>
    ensures chairs { IfOk result (λ r. r.0.items ≡ map (λ p. p.0) results.items) }
    ensures done { IfOk result (λ r. r.1 ≡ list_all (λ p. p.1) results.items) }
{
    let mut chairs = Vec::with_capacity(alloc, results.len())?;
    let mut all = true;
    for (chair, done) in results {
        chairs.push(chair)?;
        all = all && done;
    }
    Ok((chairs, all))
}

/// What that many threads count that add one that many times each; None where a chair may not enter as often.
pub fn count_in_many<T: Turn<u64, Counter> + Drop, R: Threads + Wait + Sync>(
    rt: &R,
    alloc: Global,
    threads: usize,
    times: u64,
) -> Result<Option<u64>, AllocError>
    requires threads { (1 ≤ threads) × (threads ≤ 2 ^ 16) }
    requires room { times ≤ 2 ^ 32 }
    requires entries { threads * T.ENTRIES < 2 ^ 64 }
    ensures { IfOk result (λ count. MatchOption count (T.ENTRIES < times)
        (λ n. (n ≡ threads * times) × (times ≤ T.ENTRIES))) }
{
    let (turn, chairs) = T::new(alloc, 0, threads)?;
    let shared = &turn;
    let results = map_vec(
        rt,
        chairs,
        &|chair: Chair<u64, Counter>| -> (Chair<u64, Counter>, bool)
            requires { IsNew (T.id shared.now) chair × (times ≤ 2 ^ 32) }
            ensures { HasAdded T.ENTRIES times chair result.0 result.1 }
        { added(rt, shared, chair, times) },
    )?;
    let (chairs, all) = chairs_of(alloc, results)?;
    let count = turn.close(chairs);
    if all { Ok(Some(count)) } else { Ok(None) }
}
