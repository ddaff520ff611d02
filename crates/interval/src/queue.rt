//! The kept intervals of one owner.
ghost use Rattle.std.specs.Prelude.{◌≡◌, ◌-◌, ◌≤◌, [], ◌∷◌, ◌++◌, filter, length, map, slice_get, OnOk, OnErr};
ghost use Rattle.std.specs.Option.{option_copied};
ghost use Rattle.interval.specs.Prelude.{kept_closing_has_records, interval_queue_within, interval_queue_dropped_below, counted_pages_of, PageCountsGrew, PageCountsHaveRoom};

use crate::interval::KeptInterval;
use std::alloc::{AllocError, Global};
use std::collections::VecDeque;
use std::marker::Model;

/// The kept intervals of one owner in the order of their numbers, the first of which is `first`.
#[derive(Drop)]
pub(crate) struct Queue {
    first: u64,
    kept: VecDeque<KeptInterval>,
}

impl Model for Queue {
    ghost use Rattle.interval.specs.IntervalQueues.{IntervalQueue as OwnerQueue};

    ghost Value = { OwnerQueue };

    ghost view = { λ q. record { first = q.first; kept = q.kept.items } };
}

impl Queue {
    /// No interval yet.
    pub(crate) fn new(alloc: Global) -> Queue
        ensures first { result.first ≡ 0 }
        ensures kept { result.kept ≡ [] }
    {
        Queue {
            first: 0,
            kept: VecDeque::new(alloc),
        }
    }

    /// The number of the first interval, or of the next one if none is kept.
    pub(crate) fn first(&self) -> u64
        ensures { result ≡ self.now.first }
    {
        self.first
    }

    /// Adds the owner's next interval.
    pub(crate) fn push(&mut self, kept: KeptInterval) -> Result<(), AllocError>
        ensures ok { OnOk result (self.new
            ≡ record { first = self.old.first; kept = self.old.kept ++ kept ∷ [] }) }
        ensures err { OnErr result (self.new ≡ self.old) }
    {
        self.kept.push_back(kept)?;
        Ok(())
    }

    /// The interval with this number, if it was closed.
    pub(crate) fn numbered(&self, number: u64) -> Option<&KeptInterval>
        requires { self.now.first ≤ number }
        ensures { option_copied result ≡ slice_get self.now.kept (number - self.now.first) }
    {
        self.kept.get((number - self.first) as usize)
    }

    /// How many intervals have numbers in `from..to`.
    pub(crate) fn count(&self, from: u64, to: u64) -> usize
        requires { self.now.first ≤ from }
        ensures { result ≡ length (interval_queue_within self.now from to) }
    {
        let start = (from - self.first) as usize;
        let end = to.saturating_sub(self.first).min(self.kept.len() as u64) as usize;
        end.saturating_sub(start)
    }

    /// Adds the intervals with numbers in `from..to` to the list, by rising number, but for those without records.
    pub(crate) fn gather<'q>(
        &'q self,
        from: u64,
        to: u64,
        news: &mut Vec<&'q KeptInterval>,
    ) -> Result<(), AllocError>
        requires { self.now.first ≤ from }
        ensures { OnOk result (map (λ k. k.now) news.new.items ≡ map (λ k. k.now) news.old.items
            ++ filter kept_closing_has_records (interval_queue_within self.now from to)) }
    {
        let start = (from - self.first) as usize;
        let end = to.saturating_sub(self.first).min(self.kept.len() as u64) as usize;
        for index in start..end {
            let kept = &self.kept[index];
            if kept.leaves_records() {
                news.push(kept)?;
            }
        }
        Ok(())
    }

    /// Counts the records of the intervals with numbers in `from..to`, by pages, as
    /// `Interval::count_pages` does.
    pub(crate) fn count_pages(&self, from: u64, to: u64, base: usize, counts: &mut [usize])
        requires kept { self.now.first ≤ from }
        requires room { PageCountsHaveRoom base (counted_pages_of (interval_queue_within self.now from to)) counts.old }
        ensures { PageCountsGrew base (counted_pages_of (interval_queue_within self.now from to)) counts.old counts.new }
    {
        let start = (from - self.first) as usize;
        let end = to.saturating_sub(self.first).min(self.kept.len() as u64) as usize;
        for index in start..end {
            self.kept[index].interval.count_pages(base, counts);
        }
    }

    /// Drops the intervals with numbers below `to`.
    pub(crate) fn trim(&mut self, to: u64)
        ensures { self.new ≡ interval_queue_dropped_below self.old to }
    {
        let count = to.saturating_sub(self.first).min(self.kept.len() as u64);
        for _ in 0..count {
            let _ = self.kept.pop_front();
        }
        self.first += count;
    }
}
