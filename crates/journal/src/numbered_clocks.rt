//! The timestamps of locks or flags, by their numbers.
ghost use Rattle.std.specs.Prelude.{◌≡◌, ℕ, IfOk, OnOk, max, slice_index};
ghost use Rattle.journal.specs.Prelude.{numbered_clock_at, ClockEntryJoinedAt};

use crate::clock::{Clock, clock_at, join, join_clock_at, join_clock_from, join_clock_in};
use std::alloc::{AllocError, Global};
use std::collections::{BTreeMap, VecDeque};

/// Numbers below this have a place each in a table, which takes 64 KiB at most.
const FIRST_HIGH: usize = 1024;

/// A timestamp for each number; zeros at first. A low number is found at once, a high one by a search in those
/// that occur, however great it is.
///
/// What joins timestamps is inlined up to `EventClocks::note`, since the calls would cost half as much as the joining.
#[derive(Drop)]
pub(crate) struct NumberedClocks {
    low: VecDeque<Clock>,
    high: BTreeMap<usize, Clock>,
}

impl NumberedClocks {
    /// Zeros for each number.
    pub(crate) fn new(alloc: Global) -> NumberedClocks
        ensures { (n q : ℕ) → numbered_clock_at result n q ≡ 0 }
    {
        NumberedClocks {
            low: VecDeque::new(alloc),
            high: BTreeMap::new(alloc),
        }
    }

    /// Joins the timestamp of this number into another one.
    #[inline(always)]
    pub(crate) fn join_into(&self, number: usize, clock: &mut Clock)
        ensures { (q : ℕ) → slice_index clock.new q
            ≡ max (slice_index clock.old q) (numbered_clock_at self.now number q) }
    {
        if number < FIRST_HIGH {
            join_clock_from(clock, &self.low, number);
        } else {
            join(clock, &clock_at(&self.high, number));
        }
    }

    /// Joins the timestamp into that of this number. The only error is running out of memory.
    #[inline(always)]
    pub(crate) fn join(&mut self, number: usize, clock: &Clock) -> Result<(), AllocError>
        ensures { OnOk result (ClockEntryJoinedAt (numbered_clock_at self.old) (numbered_clock_at self.new) number
            (slice_index clock.now)) }
    {
        if number < FIRST_HIGH {
            join_clock_in(&mut self.low, number, clock)
        } else {
            join_clock_at(&mut self.high, number, clock)
        }
    }
}
