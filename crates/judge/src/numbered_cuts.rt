//! The cuts of locks or flags, by their numbers.
ghost use Rattle.std.specs.Prelude.{◌≡◌, ℕ, ◌<◌, ◌≤◌, OnOk, length, slice_index, take};
ghost use Rattle.std.specs.BTreeMap.{get};
ghost use Rattle.std.specs.Ordering.{nat_cmp};
ghost use Rattle.judge.specs.Prelude.{CutEntriesJoinedAt, most_judged_processors, numbered_cut_at, numbered_cut_kept};

use crate::cut_rows::{CutRows, join_cut};
use std::alloc::{AllocError, Global};
use std::collections::BTreeMap;

/// Numbers below this have a row each in a table, which takes 4 KiB a processor at most.
const FIRST_HIGH: usize = 1024;

/// A cut for each number; zeros at first. A low number is found at once, a high one by a search in those that occur,
/// however great it is.
///
/// What joins cuts is inlined up to `Cuts::note`, since the calls would cost half as much as the joining.
#[derive(Drop)]
pub(crate) struct NumberedCuts {
    low: CutRows,
    high: BTreeMap<usize, Vec<u32>>,
}

impl NumberedCuts {
    /// Zeros for each number, of so many processors.
    pub(crate) fn new(alloc: Global, processors: usize) -> NumberedCuts
        requires { processors ≤ most_judged_processors }
        ensures width { result.low.width ≡ processors }
        ensures zeros { (n q : ℕ) → numbered_cut_at result n q ≡ 0 }
    {
        NumberedCuts {
            low: CutRows::new(alloc, processors),
            high: BTreeMap::new(alloc),
        }
    }

    /// The cut of a high number; nothing if none is kept.
    fn high_cut(&self, number: usize) -> &[u32]
        ensures { result.now ≡ take self.now.low.width (numbered_cut_kept (get nat_cmp self.now.high number)) }
    {
        match self.high.get(&number) {
            Some(cut) => &cut[..cut.len().min(self.low.width)],
            None => &[],
        }
    }

    /// The cut of this number; nothing where it is all zeros.
    #[inline(always)]
    pub(crate) fn cut(&self, number: usize) -> &[u32]
        ensures within { length result.now ≤ self.now.low.width }
        ensures entries { (q : ℕ) → slice_index result.now q ≡ numbered_cut_at self.now number q }
    {
        if number < FIRST_HIGH {
            self.low.row(number)
        } else {
            self.high_cut(number)
        }
    }

    /// Joins the cut into that of a high number. The only error is running out of memory.
    fn join_high(&mut self, number: usize, cut: &[u32]) -> Result<(), AllocError>
        requires number { 1024 ≤ number }
        requires cut { length cut.now ≡ self.old.low.width }
        ensures low { self.new.low ≡ self.old.low }
        ensures joined { OnOk result
            (CutEntriesJoinedAt (numbered_cut_at self.old) (numbered_cut_at self.new) number (slice_index cut.now)) }
    {
        let mut joined = Vec::from_slice(self.low.allocator(), cut)?;
        join_cut(&mut joined, 0, self.high_cut(number));
        self.high.insert(number, joined)?;
        Ok(())
    }

    /// Joins the cut, which has an entry for each processor, into that of this number. The only error is running out of memory.
    #[inline(always)]
    pub(crate) fn join(&mut self, number: usize, cut: &[u32]) -> Result<(), AllocError>
        requires { length cut.now ≡ self.old.low.width }
        ensures width { self.new.low.width ≡ self.old.low.width }
        ensures joined { OnOk result
            (CutEntriesJoinedAt (numbered_cut_at self.old) (numbered_cut_at self.new) number (slice_index cut.now)) }
    {
        if number < FIRST_HIGH {
            self.low.join_in(number, cut)
        } else {
            self.join_high(number, cut)
        }
    }
}
