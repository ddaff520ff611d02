//! The records that a copy lacks.
ghost use Rattle.std.specs.Prelude.{◌≡◌, ℕ, ◌<◌, ◌≤◌, ◌+◌, ◌-◌, Some, OnOk, IsTrue, [], length, map, slice_get};
ghost use Rattle.std.specs.VecDeque.{deque_capacity, deque_len};
ghost use Rattle.interval.specs.Prelude.{SentRecord};
ghost use Rattle.journal.specs.Prelude.{MissingIntervalsInOrder};
ghost use Rattle.book.specs.Prelude.{page_news_of_notice};
ghost use Rattle.cluster.specs.Copies.Prelude.{IsPlaceInBacklog, IsInsertedInBacklog, backlog_of_none, backlog_read_from};

use interval::Sent;
use std::alloc::{AllocError, Global};
use std::collections::VecDeque;
use std::marker::Model;

/// Records in closing order, in a ring that is read round from `start` on.
///
/// A record is put at the ring's end, once the ring is turned so that it belongs there. What one call brings is in
/// closing order, so all of it goes in while the ring turns back once and then on.
#[derive(Debug, Drop)]
pub(crate) struct Backlog {
    ring: VecDeque<Sent>,
    start: usize,
}

impl Model for Backlog {
    ghost use Rattle.std.specs.Prelude.{◌≤◌, ◌-◌, length};
    ghost use Rattle.std.specs.VecDeque.{deque_capacity};
    ghost use Rattle.cluster.specs.Copies.Backlogs.{BacklogOfCopy, backlog_read_from};

    ghost Value = { BacklogOfCopy };

    ghost view = { λ b. record {
      records = backlog_read_from b.start b.ring.items;
      room = deque_capacity b.ring - length b.ring.items;
    } };

    ghost invariant = { λ b. b.start ≤ length b.ring.items };
}

impl Backlog {
    /// No records.
    pub(crate) fn new(alloc: Global) -> Backlog
        ensures { result ≡ backlog_of_none }
    {
        Backlog {
            ring: VecDeque::from_vec(Vec::new(alloc)),
            start: 0,
        }
    }

    /// How many they are.
    pub(crate) fn len(&self) -> usize
        ensures { result ≡ length self.now.records }
    {
        self.ring.len()
    }

    /// The record at this place of their order.
    pub(crate) fn at(&self, index: usize) -> &Sent
        requires { index < length self.now.records }
        ensures { slice_get self.now.records index ≡ Some result.now }
    {
        let first = self.ring.len() - self.start;
        if index < first {
            return &self.ring[self.start + index];
        }
        &self.ring[index - first]
    }

    /// Makes room for `count` more. Answers `AllocError` if memory for them is refused.
    pub(crate) fn reserve(&mut self, count: usize) -> Result<(), AllocError>
        ensures records { self.new.records ≡ self.old.records }
        ensures ok { OnOk result (count ≤ self.new.room) }
    {
        self.ring.reserve(count)
    }

    /// Puts a record at its place in closing order. Takes no memory.
    ///
    /// It costs as many steps as records stand between that place and the place of the last one that was put.
    pub(crate) fn put(&mut self, sent: Sent)
        requires room { 0 < self.old.room }
        requires order { MissingIntervalsInOrder (map page_news_of_notice self.old.records) }
        ensures put { IsInsertedInBacklog self.old.records sent self.new.records }
        ensures room { self.new.room + 1 ≡ self.old.room }
    {
        if self.start == 0 && comes_last_in_backlog(&self.ring, sent.place) {
            self.ring.push_back_reserved(sent);
            return;
        }
        let start = self.ring.len() - self.place_of(sent.place);
        turn(&mut self.ring, self.start, start);
        self.start = start;
        self.ring.push_back_reserved(sent);
    }

    /// Lets go of all records. Their places are room again.
    pub(crate) fn clear(&mut self)
        ensures records { self.new.records ≡ [] }
        ensures room { self.new.room ≡ self.old.room + length self.old.records }
    {
        self.ring.clear();
        self.start = 0;
    }

    /// How many records were closed no later than `place`, if they are in closing order. It looks from the place
    /// of the last one that was put.
    #[inline(never)]
    fn place_of(&self, place: u64) -> usize
        requires { MissingIntervalsInOrder (map page_news_of_notice self.now.records) }
        ensures { IsPlaceInBacklog self.now.records place result }
    {
        let last = self.ring.len() - self.start;
        let start = self.back_from(last, place);
        self.on_from(start, place)
    }

    /// The last place up to `from` right behind a record that was closed no later than `place`; 0 if there is none.
    fn back_from(&self, from: usize, place: u64) -> usize
        requires within { from ≤ length self.now.records }
        ensures within { result ≤ from }
        ensures before { (x : SentRecord) → 0 < result
            → slice_get self.now.records (result - 1) ≡ Some x → x.place ≤ place }
    {
        let mut at = from;
        while at > 0 && self.at(at - 1).place > place {
            at -= 1;
        }
        at
    }

    /// How many records were closed no later than `place`, if those before `from` were.
    fn on_from(&self, from: usize, place: u64) -> usize
        requires within { from ≤ length self.now.records }
        requires before { (i : ℕ) (x : SentRecord) → i < from
            → slice_get self.now.records i ≡ Some x → x.place ≤ place }
        requires order { MissingIntervalsInOrder (map page_news_of_notice self.now.records) }
        ensures { IsPlaceInBacklog self.now.records place result }
    {
        let mut at = from;
        while at < self.len() && self.at(at).place <= place {
            at += 1;
        }
        at
    }
}

/// Whether the ring's last record, if there is one, was closed no later than `place`.
fn comes_last_in_backlog(ring: &VecDeque<Sent>, place: u64) -> bool
    ensures { IsTrue result → (x : SentRecord) → 0 < length ring.now.items
        → slice_get ring.now.items (length ring.now.items - 1) ≡ Some x → x.place ≤ place }
{
    match ring.back() {
        Some(last) => last.place <= place,
        None => true,
    }
}

/// Turns the ring, so that it is read round from `to` on as it was from `from` on.
#[inline(never)]
fn turn(ring: &mut VecDeque<Sent>, from: usize, to: usize)
    requires from { from ≤ length ring.old.items }
    requires to { to ≤ length ring.old.items }
    ensures items { backlog_read_from to ring.new.items ≡ backlog_read_from from ring.old.items }
    ensures len { deque_len ring.new ≡ deque_len ring.old }
    ensures capacity { deque_capacity ring.new ≡ deque_capacity ring.old }
{
    if from < to {
        ring.rotate_right(to - from);
    } else if to < from {
        ring.rotate_left(from - to);
    }
}
