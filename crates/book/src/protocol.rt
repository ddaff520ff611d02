//! What a book is made of, and the steps that its calls share.
ghost use Rattle.std.specs.Prelude.{ℕ, ◌≡◌, ◌+◌, ◌^◌, ◌<◌, ◌≤◌, map, IfOk, IfSome, length, Some};
ghost use Rattle.std.specs.Prelude.{slice_get, slice_set, slice_index};
ghost use Rattle.std.specs.Arc.{arc_value};
ghost use Rattle.std.specs.Option.{option_map};
ghost use Rattle.base.specs.Prelude.{most_in_block};
ghost use Rattle.journal.specs.Prelude.{closing_awaits_kind, closing_kind};
ghost use Rattle.vtime.specs.TicksAndJoins.{tick};
ghost use Rattle.interval.specs.Prelude.{SentIntervalPagesRise, HasKeptClosingsBetween, kept_closings_pushed};
ghost use Rattle.lockq.specs.LockQueues.{lock_queue_at};
ghost use Rattle.transit.specs.Prelude.{letter};
ghost use Rattle.book.specs.Prelude.{AllowsClosingCall, IsOpenForAllowedCall, AllowsNoticesOfCall, transition_open_interval, transition_closed_by, transition_if_free};
ghost use Rattle.book.specs.Prelude.{transition_grant, transition_barrier_left, transition_flag_joined, transition_departures_to, book_state_time_of, BookEndsClosed};

mod counting;
mod named;

use crate::journal_room::{append_in_journal_room, make_journal_room};
use crate::mail::departure_mail;
use crate::refused::Refused;
use barrier::{Barrier, Stage};
use interval::{Closed, Interval};
use journal::{Awaited, Closing, Event, Journal};
use lockq::Locks;
use page::Record;
use std::alloc::{AllocError, Global};
use std::marker::Model;
use std::sync::Arc;
use transit::{Message, Transit};
use vtime::VTime;

/// The parts of a book, which keeps them behind a pointer.
#[derive(Drop)]
pub(crate) struct Protocol {
    pub(crate) words: usize,
    pub(crate) journal: Journal,
    pub(crate) owing: usize,
    pub(crate) closed: Closed,
    pub(crate) times: Vec<VTime>,
    pub(crate) locks: Locks,
    pub(crate) barrier: Barrier,
    pub(crate) flags: Vec<Option<VTime>>,
    pub(crate) awaits: Vec<Option<Awaited>>,
    pub(crate) transit: Transit,
}

impl Model for Protocol {
    ghost use Rattle.book.specs.BookState.{BookState};
    ghost use Rattle.book.specs.BookInvariant.{book_invariant_state, BookInvariant};

    ghost Value = { BookState };

    ghost view = { book_invariant_state };

    ghost invariant = { BookInvariant };
}

impl Protocol {
    /// The departures of all, if the episode is complete with the arrival of the interval's owner, at
    /// the time `own`.
    pub(crate) fn departures_with(
        &self,
        interval: &Interval,
        own: &VTime,
    ) -> Result<Option<Vec<Message>>, AllocError>
        requires owner { interval.now.owner < length self.now.closed.next }
        requires processor { interval.now.owner < length self.now.times }
        requires pages { SentIntervalPagesRise interval.now.records }
        requires away { slice_get self.now.barrier.stages interval.now.owner ≡ Some Stage.Away }
        requires own_long { length own.now ≡ length self.now.barrier.stages }
        requires long { length self.now.barrier.stages ≡ length self.now.closed.first }
        requires all { (r : ℕ) → r < length self.now.times
            → AllowsNoticesOfCall self.now.closed (slice_set self.now.times interval.now.owner own.now) r }
        ensures { IfOk result (λ o. option_map (λ ms. map letter ms.items) o ≡ transition_departures_to
            (kept_closings_pushed self.now.closed interval.now) self.now.barrier
            (slice_set self.now.times interval.now.owner own.now) interval.now.owner own.now) }
    {
        let barrier = &self.barrier;
        let is_last = barrier.completes(interval.owner);
        if !is_last {
            return Ok(None);
        }
        let alloc = *self.times.allocator();
        let time = barrier.time_with(own);
        let all = departure_mail(alloc, &self.closed, &self.times, interval, own, &time)?;
        Ok(Some(all))
    }

    /// The grant to `processor` of a lock that nobody holds. That `processor` is about to close its interval changes
    /// nothing in it: the lock's time doesn't cover that interval.
    pub(crate) fn grant_if_free(
        &self,
        processor: usize,
        lock: usize,
    ) -> Result<Option<Message>, AllocError>
        requires lock { lock < length self.now.locks.locks }
        requires processor { processor < length self.now.times }
        requires keeps { HasKeptClosingsBetween self.now.closed (book_state_time_of self.now processor) (lock_queue_at self.now.locks lock).time }
        ensures { IfOk result (λ m. option_map letter m
            ≡ transition_if_free (lock_queue_at self.now.locks lock).holder (transition_grant self.now processor (lock_queue_at self.now.locks lock).time)) }
    {
        let locks = &self.locks;
        if locks.holder(lock).is_some() {
            return Ok(None);
        }
        let (closed, own) = (&self.closed, &self.times[processor]);
        let time = locks.time(lock).copy();
        let notices = closed.between(own, &time)?;
        Ok(Some(Message::Grant { time, notices }))
    }

    /// The open interval of `processor`, with what it stored.
    pub(crate) fn open_interval(&self, processor: usize, records: Vec<Arc<Record>>) -> Interval
        requires { IsOpenForAllowedCall self.now processor }
        ensures { result ≡ transition_open_interval self.now processor (map arc_value records.items) }
    {
        Interval {
            owner: processor,
            number: self.times[processor].entry(processor),
            records,
        }
    }

    /// The timestamp that `processor` will have when it has closed its interval.
    pub(crate) fn closing_time(&self, processor: usize) -> VTime
        requires open { IsOpenForAllowedCall self.now processor }
        requires fits { slice_index (book_state_time_of self.now processor) processor + 1 < 2 ^ 64 }
        ensures { result ≡ tick (book_state_time_of self.now processor) processor }
    {
        let mut time = self.times[processor].copy();
        time.tick(processor);
        time
    }

    /// Hands the block in, closes the open interval of `processor` and appends the event of this call, which closes it. All growths
    /// come first.
    pub(crate) fn close(
        &mut self,
        processor: usize,
        closing: Closing,
        block: &[Event],
        interval: Interval,
    ) -> Result<(), Refused>
        requires call { AllowsClosingCall self.old processor block.now }
        requires short { length block.now ≤ most_in_block }
        requires open { interval ≡ transition_open_interval self.old processor interval.records }
        requires rising { SentIntervalPagesRise interval.records }
        ensures { BookEndsClosed block.now (λ b. transition_closed_by b processor (closing_kind closing) interval.records) self.old self.new result }
    {
        make_journal_room(&mut self.journal, self.owing, block.len() + 1)?;
        self.closed.push(interval)?;
        append_in_journal_room(&mut self.journal, block);
        let kind = closing.kind();
        self.journal.append(Event { processor, kind });
        self.times[processor].tick(processor);
        self.awaits[processor] = closing.awaits();
        Ok(())
    }
}

/// The time of a flag after one more set.
pub(crate) fn protocol_flag_with_set(kept: &Option<VTime>, time: &VTime) -> VTime
    requires { IfSome kept.now (λ t. length t ≡ length time.now) }
    ensures { result ≡ transition_flag_joined kept.now time.now }
{
    match kept {
        Some(kept) => {
            let mut joined = kept.copy();
            joined.join(time);
            joined
        }
        None => time.copy(),
    }
}

/// The barrier's part of a take.
pub(crate) fn leave(barrier: &mut Barrier, awaited: Awaited, processor: usize)
    requires { awaited ≡ Awaited.Departure → slice_get barrier.old.stages processor ≡ Some Stage.Free }
    ensures { barrier.new ≡ transition_barrier_left (closing_awaits_kind awaited) barrier.old processor }
{
    match awaited {
        Awaited::Departure => barrier.depart(processor),
        Awaited::Grant(_) | Awaited::Signal(_) => {}
    }
}
