//! The book: everything that the processors share.
ghost use Rattle.std.specs.Prelude.{◌≡◌, ◌≢◌, ℕ, ◌+◌, ◌*◌, ◌^◌, ◌<◌, ◌≤◌, ◌↔◌, ◌⊎◌, EachIndex, IsTrue, Some, Err};
ghost use Rattle.std.specs.Prelude.{OnOk, OnErr, IfErr, IfOk, List, ◌++◌, map, length, count_by, slice_get, slice_index};
ghost use Rattle.std.specs.Arc.{arc_value};
ghost use Rattle.base.specs.Prelude.{most_events, most_in_block, most_processors, Has, most_locks};
ghost use Rattle.journal.specs.Prelude.{Sizes, Ready, IsJournalCutRefusal, IsDeadlock, closing_kind, did};
ghost use Rattle.journal.specs.declared.event.Event.{Event as AnEvent};
ghost use Rattle.interval.specs.Prelude.{SentIntervalPagesRise, is_kept_closing_of_page};
ghost use Rattle.transit.specs.Prelude.{letter};
ghost use Rattle.book.specs.Prelude.{brought_by_message, WasBookCut, AllowsFlushCall, AllowsClosingCall, AllowsAskCall, AllowsReleaseCall, AllowsSomeTakeCall};
ghost use Rattle.book.specs.Prelude.{IsProcessorOfAllowedCall, transition_new_book, transition_handed_in, transition_handed_last, transition_watched, transition_set, transition_asked};
ghost use Rattle.book.specs.Prelude.{transition_released, transition_arrived, BookEndsClosed, BookEndsHandedIn, IsFullRefusal, Represents, IsRoomRefusal};
ghost use Rattle.book.specs.Prelude.{HasClosedBeforeBookWaits, IsBlockOfAllowedCalls, AllowsCallThatCloses, transition_closed, RepresentsSomeHistory, LetsBookWaitEnd, TransitionTakes};

use crate::done_waiting::all_wait_in_vain;
use crate::empty::{empty_history, empty_locks, empty_timestamps};
use crate::journal_room::{append_in_journal_room, make_journal_room};
use crate::mail::{grant_mail_to, mail_has_come, post_all_mail, post_grant_mail, receive_mail};
use crate::protocol::{Protocol, leave, protocol_flag_with_set};
use crate::refused::Refused;
use crate::trims::trim;
use crate::waiters::Waiters;
use barrier::Barrier;
use base::{MOST_EVENTS, MOST_IN_BLOCK};
use journal::{Awaited, Closing, CutFault, Event, Journal, Kind};
use page::Record;
use std::alloc::{AllocError, Global};
use std::marker::Model;
use std::mem::size_of;
use std::sync::Arc;
use transit::Message;

/// The protocol's state: the journal, the closed intervals, the processors' timestamps, the
/// distributed locks, the barrier, the flags, what each processor waits for, and the messages on
/// their way (Keleher, Cox and Zwaenepoel 1992, sections 3 and 4). It moves as a pointer, at each
/// enter and leave of its lock.
#[derive(Drop)]
pub struct Book {
    parts: Box<Protocol>,
}

// A book moves as a pointer.
const _: () = prove!(size_of::<Book>() == 8);

impl Model for Book {
    ghost use Rattle.book.specs.BookState.{BookState};

    ghost Value = { BookState };

    ghost view = { λ b. b.parts.value };
}

impl Book {
    /// The empty book of a cluster of these sizes: 1 to `MOST_PROCESSORS` processors, up to `MOST_LOCKS` locks, flags, pages
    /// and words a page within the cluster's sizes. The only error is running out of memory.
    pub fn new(
        alloc: Global,
        processors: usize,
        pages: usize,
        words: usize,
        locks: usize,
        flags: usize,
    ) -> Result<Book, AllocError>
        requires some { 1 ≤ processors }
        requires most { processors ≤ most_processors }
        requires locks { locks ≤ most_locks }
        requires addresses { pages * words < 2 ^ 64 }
        ensures { IfOk result (λ b. b ≡ transition_new_book (record {
          processors = processors;
          pages = pages;
          words = words;
          locks = locks;
          flags = flags;
        })) }
    {
        let owing = MOST_IN_BLOCK * processors;
        let (journal, closed) = empty_history(alloc, processors, pages * words, owing)?;
        let (times, awaits) = empty_timestamps(alloc, processors)?;
        let (locks, flags, transit) = empty_locks(alloc, processors, locks, flags)?;
        let barrier = Barrier::new(alloc, processors);
        let parts = Protocol {
            words,
            journal,
            owing,
            closed,
            times,
            locks,
            barrier,
            flags,
            awaits,
            transit,
        };
        Ok(Book {
            parts: Box::new(alloc, parts)?,
        })
    }

    /// Hands in a block of loads, stores and fetches of `processor`, which is empty if `processor` waits.
    /// JournalFull exactly if the journal would have more than 2^20 events.
    pub fn hand_in(&mut self, processor: usize, block: &[Event]) -> Result<(), Refused>
        requires call { AllowsFlushCall self.old processor block.now }
        requires short { length block.now ≤ most_in_block }
        ensures { BookEndsHandedIn block.now self.old self.new result }
    {
        let parts = &mut *self.parts;
        make_journal_room(&mut parts.journal, parts.owing, block.len())?;
        append_in_journal_room(&mut parts.journal, block);
        Ok(())
    }

    /// Hands in a block as `hand_in` does, and answers a copy of the whole journal after it.
    pub fn audit(&mut self, processor: usize, block: &[Event]) -> Result<Journal, Refused>
        requires call { AllowsFlushCall self.old processor block.now }
        requires short { length block.now ≤ most_in_block }
        ensures call { BookEndsHandedIn block.now self.old self.new result }
        ensures copy { IfOk result (λ j. j ≡ record self.new.journal { room = j.room }) }
    {
        let parts = &mut *self.parts;
        make_journal_room(&mut parts.journal, parts.owing, block.len())?;
        let mut copy = parts.journal.copy_with_room(block.len())?;
        append_in_journal_room(&mut parts.journal, block);
        append_in_journal_room(&mut copy, block);
        Ok(copy)
    }

    /// Closes the interval of `processor` by this call, as [`ask`](Book::ask), [`release`](Book::release),
    /// [`arrive`](Book::arrive), [`set`](Book::set) or [`watch`](Book::watch) does.
    pub fn close(
        &mut self,
        processor: usize,
        closing: Closing,
        block: &[Event],
        records: Vec<Arc<Record>>,
    ) -> Result<(), Refused>
        requires call { AllowsCallThatCloses (closing_kind closing) self.old processor block.now }
        requires short { length block.now ≤ most_in_block }
        requires rising { SentIntervalPagesRise (map arc_value records.items) }
        ensures { BookEndsClosed block.now (λ b. transition_closed (closing_kind closing) b processor (map arc_value records.items))
            self.old self.new result }
    {
        match closing {
            Closing::Ask(lock) => self.ask(processor, lock, block, records),
            Closing::Release(lock) => self.release(processor, lock, block, records),
            Closing::Arrive => self.arrive(processor, block, records),
            Closing::Set(flag) => self.set(processor, flag, block, records),
            Closing::Watch(flag) => self.watch(processor, flag, block, records),
        }
    }

    /// Watches a flag: closes the interval, whose records these are, and from then on `processor` waits for the
    /// flag. Otherwise as `hand_in`, with one event more.
    pub fn watch(
        &mut self,
        processor: usize,
        flag: usize,
        block: &[Event],
        records: Vec<Arc<Record>>,
    ) -> Result<(), Refused>
        requires call { AllowsClosingCall self.old processor block.now }
        requires short { length block.now ≤ most_in_block }
        requires rising { SentIntervalPagesRise (map arc_value records.items) }
        ensures { BookEndsClosed block.now (λ b. transition_watched b processor flag (map arc_value records.items))
            self.old self.new result }
    {
        let parts = &mut *self.parts;
        let interval = parts.open_interval(processor, records);
        parts.close(processor, Closing::Watch(flag), block, interval)
    }

    /// Sets a flag: closes the interval, and joins the timestamp of `processor` after that into the flag's.
    /// Otherwise as `watch`.
    pub fn set(
        &mut self,
        processor: usize,
        flag: usize,
        block: &[Event],
        records: Vec<Arc<Record>>,
    ) -> Result<(), Refused>
        requires call { AllowsClosingCall self.old processor block.now }
        requires flag { flag < length self.old.flags }
        requires short { length block.now ≤ most_in_block }
        requires rising { SentIntervalPagesRise (map arc_value records.items) }
        ensures { BookEndsClosed block.now (λ b. transition_set b processor flag (map arc_value records.items))
            self.old self.new result }
    {
        let parts = &mut *self.parts;
        let interval = parts.open_interval(processor, records);
        parts.close(processor, Closing::Set(flag), block, interval)?;
        let time = protocol_flag_with_set(&parts.flags[flag], &parts.times[processor]);
        parts.flags[flag] = Some(time);
        Ok(())
    }

    /// Asks for a lock that `processor` doesn't hold: closes the interval, and puts `processor` into the lock's line.
    /// If nobody holds the lock, the grant is posted, with what the lock's last release knew and `processor`
    /// doesn't. Otherwise as `watch`.
    pub fn ask(
        &mut self,
        processor: usize,
        lock: usize,
        block: &[Event],
        records: Vec<Arc<Record>>,
    ) -> Result<(), Refused>
        requires call { AllowsAskCall self.old processor lock block.now }
        requires short { length block.now ≤ most_in_block }
        requires rising { SentIntervalPagesRise (map arc_value records.items) }
        ensures { BookEndsClosed block.now (λ b. transition_asked b processor lock (map arc_value records.items))
            self.old self.new result }
    {
        let parts = &mut *self.parts;
        make_journal_room(&mut parts.journal, parts.owing, block.len() + 1)?;
        let grant = parts.grant_if_free(processor, lock)?;
        let interval = parts.open_interval(processor, records);
        parts.close(processor, Closing::Ask(lock), block, interval)?;
        parts.locks.ask(lock, processor);
        if let Some(message) = grant {
            parts.transit.post(processor, message);
        }
        Ok(())
    }

    /// Releases a lock that `processor` holds: closes the interval, and leaves the timestamp of `processor` after that
    /// with the lock. The first of the lock's queue gets its grant, with what it doesn't know. Otherwise as `watch`.
    pub fn release(
        &mut self,
        processor: usize,
        lock: usize,
        block: &[Event],
        records: Vec<Arc<Record>>,
    ) -> Result<(), Refused>
        requires call { AllowsReleaseCall self.old processor lock block.now }
        requires short { length block.now ≤ most_in_block }
        requires rising { SentIntervalPagesRise (map arc_value records.items) }
        ensures { BookEndsClosed block.now (λ b. transition_released b processor lock (map arc_value records.items))
            self.old self.new result }
    {
        let parts = &mut *self.parts;
        make_journal_room(&mut parts.journal, parts.owing, block.len() + 1)?;
        let interval = parts.open_interval(processor, records);
        let time = parts.closing_time(processor);
        let locks = &parts.locks;
        let grant = grant_mail_to(
            locks.next(lock),
            &parts.closed,
            &parts.times,
            &interval,
            &time,
        )?;
        parts.close(processor, Closing::Release(lock), block, interval)?;
        parts.locks.release(lock, processor, time);
        post_grant_mail(&mut parts.transit, grant);
        Ok(())
    }

    /// Arrives at the barrier: closes the interval, and joins the timestamp of `processor` after that into the
    /// episode's. If all others have arrived, the episode is complete, and each processor gets its
    /// departure, with what it doesn't know. Otherwise as `watch`.
    pub fn arrive(
        &mut self,
        processor: usize,
        block: &[Event],
        records: Vec<Arc<Record>>,
    ) -> Result<(), Refused>
        requires call { AllowsClosingCall self.old processor block.now }
        requires short { length block.now ≤ most_in_block }
        requires rising { SentIntervalPagesRise (map arc_value records.items) }
        ensures { BookEndsClosed block.now (λ b. transition_arrived b processor (map arc_value records.items))
            self.old self.new result }
    {
        let parts = &mut *self.parts;
        make_journal_room(&mut parts.journal, parts.owing, block.len() + 1)?;
        let interval = parts.open_interval(processor, records);
        let time = parts.closing_time(processor);
        let departures = parts.departures_with(&interval, &time)?;
        parts.close(processor, Closing::Arrive, block, interval)?;
        parts.barrier.arrive(processor, &time);
        if let Some(messages) = departures {
            post_all_mail(&mut parts.transit, messages);
        }
        Ok(())
    }

    /// Takes what `processor` waits for: its grant, its departure, or the signal of its flag as the flag stands now,
    /// with what it is to perform. NotYet exactly if that hasn't come: if `processor` isn't ready in any history
    /// that the book represents. Else JournalFull exactly if the journal would have more than 2^20 events.
    /// Intervals that everyone has performed are dropped then; a refused call drops none.
    pub fn take(&mut self, processor: usize) -> Result<Message, Refused>
        requires call { AllowsSomeTakeCall self.old processor }
        ensures ok { IfOk result (λ m. TransitionTakes self.old processor (letter m) self.new) }
        ensures brings { IfOk result (λ m. (letter m).notices ≡ brought_by_message self.old processor) }
        ensures err { OnErr result (self.new ≡ self.old) }
        ensures absent { (s : Sizes) (h : List AnEvent) → Represents s h self.old
            → result ≡ Err Refused.NotYet ↔ (¬ Ready s h processor) }
        ensures full { result ≢ Err Refused.NotYet
            → IsFullRefusal (length self.old.journal.events + 1) result }
        ensures only { IfErr result (λ e. (e ≡ Refused.NotYet) ⊎ IsRoomRefusal e) }
    {
        let parts = &mut *self.parts;
        let Some(awaited) = parts.awaits[processor] else {
            unreachable!("the processor waits")
        };
        if !mail_has_come(&parts.flags, &parts.transit, processor, awaited) {
            return Err(Refused::NotYet);
        }
        make_journal_room(&mut parts.journal, parts.owing, 1)?;
        let (closed, flags) = (&parts.closed, &parts.flags);
        let message = receive_mail(
            &mut parts.transit,
            closed,
            flags,
            &parts.times[processor],
            processor,
            awaited,
        )?;
        let kind = awaited.kind();
        parts.journal.append(Event { processor, kind });
        let before = parts.times[processor].copy();
        parts.times[processor].join(message.time());
        parts.awaits[processor] = None;
        leave(&mut parts.barrier, awaited, processor);
        trim(&mut parts.closed, &parts.times, processor, &before);
        Ok(message)
    }

    /// Hands in the last block of `processor` at the end, past the limit. It takes no memory.
    pub fn last(&mut self, processor: usize, block: &[Event])
        requires call { AllowsFlushCall self.old processor block.now }
        requires room { length block.now ≤ self.old.journal.room }
        ensures { self.new ≡ transition_handed_last self.old block.now }
    {
        let parts = &mut *self.parts;
        append_in_journal_room(&mut parts.journal, block);
        parts.owing -= block.len();
    }

    /// Cuts off the journal's events up to the last arrival of the last complete episode, as
    /// [`Journal::cut`] does and with its faults, and leaves all else: locks, flags, timestamps, the kept
    /// intervals, messages, and the room for what is owing. The history stays the one that it was. After an
    /// error all is as before.
    pub fn cut(&mut self) -> Result<(), CutFault>
        ensures ok { OnOk result (WasBookCut self.old self.new) }
        ensures err { OnErr result (self.new ≡ self.old) }
        ensures fault { IfErr result (IsJournalCutRefusal self.old.journal) }
    {
        let parts = &mut *self.parts;
        parts.journal.cut()
    }

    /// Whether the journal has the 2^20 events that it may have, so that a take, which would add one, is refused.
    pub fn is_full(&self) -> bool
        ensures { IsTrue result ↔ (most_events ≤ length self.now.journal.events) }
    {
        self.parts.journal.len() >= MOST_EVENTS
    }

    /// Whether `processor` is ready: what it waits for has come, so that a take isn't answered NotYet. It takes no
    /// memory, and costs the same however much has come.
    pub fn is_ready(&self, processor: usize) -> bool
        requires call { AllowsSomeTakeCall self.now processor }
        ensures { (s : Sizes) (h : List AnEvent) → Represents s h self.now → IsTrue result ↔ Ready s h processor }
    {
        let parts = &*self.parts;
        let Some(awaited) = parts.awaits[processor] else {
            unreachable!("the processor waits")
        };
        mail_has_come(&parts.flags, &parts.transit, processor, awaited)
    }

    /// Whether the history is a deadlock: each processor waits, and what it waits for has come for none. It takes no
    /// memory.
    pub fn is_deadlocked(&self) -> bool
        requires told { RepresentsSomeHistory self.now }
        ensures { (s : Sizes) (h : List AnEvent) → Represents s h self.now → IsTrue result ↔ IsDeadlock s h }
    {
        let parts = &*self.parts;
        all_wait_in_vain(&parts.awaits, &parts.flags, &parts.transit)
    }

    /// Whom `processor` has let go on by this event, with which it has just closed its interval: who holds the lock
    /// next that it released, all that wait for the departure if it completed the episode, all that wait for the flag
    /// that it set. No other processor becomes ready by this event. It takes no memory. It costs nothing
    /// after an ask, a watch, and an arrival that completes nothing, and the same however many processors there are
    /// after a release.
    pub fn let_on(&self, processor: usize, kind: Kind) -> Waiters
        requires closed { HasClosedBeforeBookWaits self.now processor kind }
        ensures ready { (s : Sizes) (h : List AnEvent) (q : ℕ) → Represents s h self.now → Has result q → Ready s h q }
        ensures all { (s : Sizes) (h block : List AnEvent) (q : ℕ) → Represents s (did (h ++ block) processor kind) self.now
            → IsBlockOfAllowedCalls s processor block → LetsBookWaitEnd s h block processor kind q → Has result q }
        ensures within { (q : ℕ) → Has result q → q < length self.now.awaits }
    {
        let parts = &*self.parts;
        parts.named_by(processor, kind)
    }

    /// The number of the first kept interval of processor `q`.
    pub fn first(&self, q: usize) -> u64
        requires { q < length self.now.closed.first }
        ensures { slice_get self.now.closed.first q ≡ Some result }
    {
        let closed = &self.parts.closed;
        closed.first(q)
    }

    /// The journal alone, with whatever room it has.
    pub fn into_journal(self) -> Journal
        ensures { result ≡ record self.journal { room = result.room } }
    {
        Box::into_inner(self.parts).journal
    }

    /// How many notices of the page a take by `processor` would bring now: none if `processor` waits for nothing, or
    /// if what it waits for isn't there. It takes no memory.
    pub fn due(&self, processor: usize, page: usize) -> usize
        requires call { IsProcessorOfAllowedCall self.now processor }
        ensures { result ≡ count_by (is_kept_closing_of_page page) (brought_by_message self.now processor) }
    {
        let parts = &*self.parts;
        match parts.awaits[processor] {
            Some(Awaited::Grant(_) | Awaited::Departure) => parts.count_page_by_message(
                processor, page,
            ),
            Some(Awaited::Signal(flag)) => parts.count_page_by_flag(processor, flag, page),
            None => 0,
        }
    }

    /// How many notices of each page a take by `processor` would bring now: entry n of the slice, whatever stood
    /// there, becomes the number for page n, as `due` answers it. Pages past the slice's end are not counted.
    /// It takes no memory, and costs in the order of the slice and of what a take would bring.
    pub fn count_due(&self, processor: usize, counts: &mut [usize])
        requires call { IsProcessorOfAllowedCall self.now processor }
        ensures each { EachIndex counts.new (λ n. slice_index counts.new n
            ≡ count_by (is_kept_closing_of_page n) (brought_by_message self.now processor)) }
        ensures same_length { length counts.new ≡ length counts.old }
    {
        let parts = &*self.parts;
        match parts.awaits[processor] {
            Some(Awaited::Grant(_) | Awaited::Departure) => parts.count_by_message(
                processor, counts,
            ),
            Some(Awaited::Signal(flag)) => parts.count_by_flag(processor, flag, counts),
            None => counts.fill(0),
        }
    }
}
