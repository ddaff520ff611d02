//! The closed intervals of all owners.
ghost use Rattle.std.specs.Prelude.{◌≡◌, ℕ, ◌+◌, ◌-◌, ◌^◌, ◌<◌, ◌≤◌, ◌==◌, MatchOption, OnOk, OnErr, IfOk, List};
ghost use Rattle.std.specs.Prelude.{replicate, [], ◌∷◌, length, find, filter, count_by, slice_get, slice_index};
ghost use Rattle.std.specs.Prelude.{EachIndex, map};
ghost use Rattle.std.specs.Option.{option_copied};
ghost use Rattle.vtime.specs.TicksAndJoins.{tick};
ghost use Rattle.interval.specs.Prelude.{SentIntervalPagesRise, IsSentInIntervalOrder, HasKeptClosingsBetween, kept_closings_pushed, kept_closings_trimmed_below, kept_closing_has_records, is_news_of_kept_closings};
ghost use Rattle.interval.specs.Prelude.{kept_closings_between, is_kept_closing_of_page, record_of, SameQueuedIntervals};

use crate::interval::{Interval, KeptInterval};
use crate::notice::{Notice, Sent};
use crate::queue::Queue;
use page::Record;
use std::alloc::{AllocError, Global};
use std::marker::Model;
use vtime::VTime;

/// The closed intervals that some processor may still have to learn of, in closing order.
#[derive(Drop)]
pub struct Closed {
    queues: Vec<Queue>,
    pushed: u64,
}

impl Model for Closed {
    ghost use Rattle.interval.specs.KeptClosings.{KeptClosings};

    ghost Value = { KeptClosings };

    ghost use Rattle.interval.specs.IntervalQueues.{interval_queue_closings, AreIntervalQueues};

    ghost view = { λ c. interval_queue_closings c.queues.items c.pushed };

    ghost invariant = { λ c. AreIntervalQueues c.queues.items c.pushed };
}

impl Closed {
    /// Keeps intervals of this many owners, of which none is closed.
    pub fn new(alloc: Global, owners: usize) -> Result<Closed, AllocError>
        ensures kept { IfOk result (λ c. c.kept ≡ []) }
        ensures first { IfOk result (λ c. c.first ≡ replicate owners 0) }
        ensures next { IfOk result (λ c. c.next ≡ replicate owners 0) }
        ensures pushed { IfOk result (λ c. c.pushed ≡ 0) }
    {
        let mut queues = Vec::with_capacity(alloc, owners)?;
        for _ in 0..owners {
            queues.push(Queue::new(alloc))?;
        }
        Ok(Closed { queues, pushed: 0 })
    }

    /// Keeps one more interval, the last one closed so far. Without memory nothing changes.
    pub fn push(&mut self, interval: Interval) -> Result<(), AllocError>
        requires owner { interval.owner < length self.old.next }
        requires number { interval.number ≡ slice_index self.old.next interval.owner }
        requires pages { SentIntervalPagesRise interval.records }
        requires fits { self.old.pushed < 2 ^ 64 - 1 }
        ensures ok { OnOk result (self.new ≡ kept_closings_pushed self.old interval) }

        // A processor that isn't to perform the interval is sent what was sent before.
        ensures same_news { OnOk result ((old new : List ℕ) → slice_index new interval.owner ≤ interval.number
            → kept_closings_between self.new old new ≡ kept_closings_between self.old old new) }
        ensures err { OnErr result (self.new ≡ self.old) }
    {
        let owner = interval.owner;
        self.queues[owner].push(KeptInterval {
            place: self.pushed,
            interval,
        })?;
        self.pushed += 1;
        Ok(())
    }

    /// What has to be sent to a processor that has performed `old` and is to perform `new`: the records of the
    /// kept intervals that `new` covers and `old` doesn't, in closing order, and within one interval by
    /// rising page. It costs a look at every owner, a sort of the intervals that are sent, and a step for
    /// each record; what else is kept costs nothing. It takes memory for those intervals and for what it
    /// answers.
    pub fn between(&self, old: &VTime, new: &VTime) -> Result<Vec<Sent>, AllocError>
        requires { HasKeptClosingsBetween self.now old.now new.now }
        ensures value { IfOk result (λ sent. sent.items ≡ kept_closings_between self.now old.now new.now) }
        ensures in_order { IfOk result (λ sent. IsSentInIntervalOrder sent.items) }
    {
        self.between_and_more(old, new, 0)
    }

    /// The same, with memory for this many records more.
    fn between_and_more(
        &self,
        old: &VTime,
        new: &VTime,
        more: usize,
    ) -> Result<Vec<Sent>, AllocError>
        requires { HasKeptClosingsBetween self.now old.now new.now }
        ensures value { IfOk result (λ sent. sent.items ≡ kept_closings_between self.now old.now new.now) }
        ensures in_order { IfOk result (λ sent. IsSentInIntervalOrder sent.items) }
    {
        let mut news = self.intervals_between(old, new)?;
        news.sort_unstable_by_key(|kept| kept.place);
        let room = closed_interval_room(&news, more);
        let mut sent = Vec::with_capacity(*self.queues.allocator(), room)?;
        for kept in &news {
            kept.send(&mut sent)?;
        }
        Ok(sent)
    }

    /// How many notices of each page `between` answers: entry n of the slice, whatever stood there, becomes
    /// the number for page n. Pages past the slice's end are not counted. It takes no memory, and costs in
    /// the order of the owners, the slice, and the intervals between the timestamps with their records.
    pub fn count_news(&self, old: &VTime, new: &VTime, counts: &mut [usize])
        requires { HasKeptClosingsBetween self.now old.now new.now }
        ensures each { EachIndex counts.new
            (λ n. slice_index counts.new n ≡ count_by (is_kept_closing_of_page n)
            (kept_closings_between self.now old.now new.now)) }
        ensures same_length { length counts.new ≡ length counts.old }
    {
        self.count_pages(0, old, new, counts);
    }

    /// How many notices of the page `between` answers. It takes no memory, and costs as `count_news` does.
    pub fn news_of(&self, page: usize, old: &VTime, new: &VTime) -> usize
        requires { HasKeptClosingsBetween self.now old.now new.now }
        ensures { result ≡ count_by (is_kept_closing_of_page page) (kept_closings_between self.now old.now new.now) }
    {
        let mut count = [0];
        self.count_pages(page, old, new, &mut count);
        count[0]
    }

    /// As `count_news`, with the number for page `base + i` in entry i: one walk over each owner's intervals
    /// between the timestamps, in no order.
    fn count_pages(&self, base: usize, old: &VTime, new: &VTime, counts: &mut [usize])
        requires { HasKeptClosingsBetween self.now old.now new.now }
        ensures each { EachIndex counts.new
            (λ i. slice_index counts.new i ≡ count_by (is_kept_closing_of_page (base + i))
            (kept_closings_between self.now old.now new.now)) }
        ensures same_length { length counts.new ≡ length counts.old }
    {
        counts.fill(0);
        for (owner, queue) in self.queues.iter().enumerate() {
            queue.count_pages(old.entry(owner), new.entry(owner), base, counts);
        }
    }

    /// What `between` will answer once the interval is pushed: with it a caller can take all the memory
    /// that it needs before it changes anything.
    pub fn between_after_interval(
        &self,
        interval: &Interval,
        old: &VTime,
        new: &VTime,
    ) -> Result<Vec<Sent>, AllocError>
        requires owner { interval.now.owner < length self.now.next }
        requires pages { SentIntervalPagesRise interval.now.records }
        requires kept { HasKeptClosingsBetween self.now old.now new.now }
        ensures value { IfOk result (λ sent. sent.items
            ≡ kept_closings_between (kept_closings_pushed self.now interval.now) old.now new.now) }
        ensures in_order { IfOk result (λ sent. IsSentInIntervalOrder sent.items) }
    {
        let mut sent = self.between_and_more(old, new, interval.records.len())?;
        let (owner, number) = (interval.owner, interval.number);
        if new.covers(owner, number) && !old.covers(owner, number) {
            interval.send(self.pushed, &mut sent)?;
        }
        Ok(sent)
    }

    /// The intervals with records that `new` covers and `old` doesn't, owner by owner.
    fn intervals_between(&self, old: &VTime, new: &VTime) -> Result<Vec<&KeptInterval>, AllocError>
        requires { HasKeptClosingsBetween self.now old.now new.now }
        ensures { IfOk result (λ news. SameQueuedIntervals
            (filter kept_closing_has_records (filter (is_news_of_kept_closings old.now new.now) self.now.kept))
            (map (λ k. k.now) news.items)) }
    {
        let count = self.count_intervals(old, new);
        let mut news = Vec::with_capacity(*self.queues.allocator(), count)?;
        for (owner, queue) in self.queues.iter().enumerate() {
            queue.gather(old.entry(owner), new.entry(owner), &mut news)?;
        }
        Ok(news)
    }

    /// How many intervals these are at most. It says for how many memory is taken at once, and nothing rests on it.
    fn count_intervals(&self, old: &VTime, new: &VTime) -> usize
        requires { HasKeptClosingsBetween self.now old.now new.now }
    {
        let mut count: usize = 0;
        for (owner, queue) in self.queues.iter().enumerate() {
            count = count.saturating_add(queue.count(old.entry(owner), new.entry(owner)));
        }
        count
    }

    /// The record that a notice announces: `None` if its interval was trimmed or never was.
    pub fn record_of(&self, notice: &Notice) -> Option<&Record>
        ensures { option_copied result ≡ record_of self.now notice.now }
    {
        let queue = self.queues.get(notice.owner)?;
        if notice.number < queue.first() {
            return None;
        }
        queue.numbered(notice.number)?.interval.record(notice.page)
    }

    /// The number of the owner's first interval that is kept, or of its next one if none is.
    pub fn first(&self, owner: usize) -> u64
        requires { owner < length self.now.first }
        ensures value { slice_get self.now.first owner ≡ Some result }
        ensures earliest { MatchOption (find (λ k. k.interval.owner == owner) self.now.kept)
            (slice_get self.now.next owner ≡ Some result) (λ k. k.interval.number ≡ result) }
    {
        self.queues[owner].first()
    }

    /// Drops the owner's intervals with numbers below `to`, which everyone has performed.
    pub fn trim(&mut self, owner: usize, to: u64)
        requires { owner < length self.old.first }
        ensures value { self.new ≡ kept_closings_trimmed_below self.old owner to }

        // A processor that has performed the dropped intervals is sent what was sent before.
        ensures same_news { (old new : List ℕ) → to ≤ slice_index old owner
            → kept_closings_between self.new old new ≡ kept_closings_between self.old old new }
    {
        self.queues[owner].trim(to);
    }
}

/// How many records these intervals have, and so many more. It says for how many memory is taken at once, and nothing
/// rests on it.
fn closed_interval_room(news: &[&KeptInterval], more: usize) -> usize {
    let mut room = more;
    for kept in news {
        room = room.saturating_add(kept.interval.records.len());
    }
    room
}
