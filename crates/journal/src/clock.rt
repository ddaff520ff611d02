//! Vector timestamps of sixteen processors, for the race checker.
ghost use Rattle.std.specs.Prelude.{◌≡◌, ℕ, ◌+◌, ◌<◌, ◌≤◌, ◌^◌, ◌≢◌, ◌↔◌, ◌==◌, IsTrue, IfOk, OnOk, cond, max};
ghost use Rattle.std.specs.Prelude.{length, slice_index, slice_index_or, vec_len};
ghost use Rattle.std.specs.VecDeque.{deque_len};
ghost use Rattle.base.specs.Prelude.{most_processors};
ghost use Rattle.journal.specs.Prelude.{entry, clock_entry_in_map, ClockEntryJoinedAt};

use base::MOST_PROCESSORS;
use std::alloc::{AllocError, Global};
use std::collections::{BTreeMap, VecDeque};

/// A vector timestamp: of each processor, how many of its closing events are counted.
pub type Clock = [u32; MOST_PROCESSORS];

/// As many timestamps, all zeros. The only error is running out of memory.
pub(crate) fn zero_clocks(alloc: Global, count: usize) -> Result<Vec<Clock>, AllocError>
    ensures long { IfOk result (λ v. vec_len v ≡ count) }
    ensures zeros { IfOk result (λ v. (n q : ℕ) → entry v.items n q ≡ 0) }
{
    vec![in alloc; [0; MOST_PROCESSORS]; count]
}

/// Raises each entry to the other timestamp's, if that is greater.
pub(crate) fn join(clock: &mut Clock, other: &Clock)
    ensures { (q : ℕ) → slice_index clock.new q
        ≡ max (slice_index clock.old q) (slice_index other.now q) }
{
    // All is read before anything is written, so that the compiler can join four entries at a time.
    let mut joined = *other;
    for q in 0..MOST_PROCESSORS {
        joined[q] = joined[q].max(clock[q]);
    }
    *clock = joined;
}

/// Counts one more closing event of the processor.
pub(crate) fn tick(clock: &mut Clock, processor: usize)
    requires processor { processor < most_processors }
    requires room { slice_index clock.old processor < 2 ^ 22 }
    ensures { (q : ℕ) → slice_index clock.new q
        ≡ slice_index clock.old q + cond (processor == q) 1 0 }
{
    clock[processor] += 1;
}

/// Whether each entry but the processor's own is at most the other timestamp's.
pub(crate) fn others_are_within_clock(clock: &Clock, other: &Clock, processor: usize) -> bool
    ensures { IsTrue result ↔ ((q : ℕ) → q ≢ processor
        → slice_index clock.now q ≤ slice_index other.now q) }
{
    let mut within = true;
    for q in 0..MOST_PROCESSORS {
        within &= q == processor || clock[q] <= other[q];
    }
    within
}

/// The timestamp that is kept under this number, zeros if there is none.
pub(crate) fn clock_at(clocks: &BTreeMap<usize, Clock>, number: usize) -> Clock
    ensures { (q : ℕ) → slice_index result q ≡ clock_entry_in_map clocks.now number q }
{
    clocks.get(&number).copied().unwrap_or([0; MOST_PROCESSORS])
}

/// Joins the timestamp into that which is kept under this number.
pub(crate) fn join_clock_at(
    clocks: &mut BTreeMap<usize, Clock>,
    number: usize,
    clock: &Clock,
) -> Result<(), AllocError>
    ensures { OnOk result (ClockEntryJoinedAt (clock_entry_in_map clocks.old) (clock_entry_in_map clocks.new) number
        (slice_index clock.now)) }
{
    let mut kept = clock_at(clocks, number);
    join(&mut kept, clock);
    clocks.insert(number, kept)?;
    Ok(())
}

/// Joins the timestamp at this place of the queue into another one; past its end there is none.
#[inline(always)]
pub(crate) fn join_clock_from(clock: &mut Clock, clocks: &VecDeque<Clock>, place: usize)
    ensures { (q : ℕ) → slice_index clock.new q
        ≡ max (slice_index clock.old q) (entry clocks.now.items place q) }
{
    if place < clocks.len() {
        join(clock, &clocks[place]);
    }
}

/// Makes the queue long enough for this place, with zeros.
#[cold]
#[inline(never)]
fn grow_clock_in(clocks: &mut VecDeque<Clock>, place: usize) -> Result<(), AllocError>
    ensures within { OnOk result (place < deque_len clocks.new) }
    ensures same { OnOk result ((n q : ℕ) → entry clocks.new.items n q ≡ entry clocks.old.items n q) }
{
    while clocks.len() <= place {
        clocks.push_back([0; MOST_PROCESSORS])?;
    }
    Ok(())
}

/// Joins the timestamp into that at this place of the queue, which grows as far as it has to.
#[inline(always)]
pub(crate) fn join_clock_in(
    clocks: &mut VecDeque<Clock>,
    place: usize,
    clock: &Clock,
) -> Result<(), AllocError>
    ensures { OnOk result (ClockEntryJoinedAt (entry clocks.old.items) (entry clocks.new.items) place
        (slice_index clock.now)) }
{
    if clocks.len() <= place {
        grow_clock_in(clocks, place)?;
    }
    join(&mut clocks[place], clock);
    Ok(())
}
