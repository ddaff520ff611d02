//! A book with the history that tells it.
ghost use Rattle.std.specs.Prelude.{◌≡◌, ◌<◌, ◌≤◌, ◌*◌, ◌^◌, ◌++◌, ◌∷◌, [], ◌↔◌, IfErr, IfOk, IfSome, OnOk, OnErr};
ghost use Rattle.std.specs.Prelude.{IsTrue, Some, None, length, map, count_by, slice_get};
ghost use Rattle.std.specs.Arc.{arc_value};
ghost use Rattle.journal.specs.Prelude.{event, did, JournalWasCut, IsJournalCutRefusal, IsDeadlock};
ghost use Rattle.journal.specs.declared.event.Kind.{Kind as AKind};
ghost use Rattle.interval.specs.Prelude.{SentIntervalPagesRise, is_kept_closing_of_page};
ghost use Rattle.book.specs.Prelude.{IsAllowedInnerCall, AllowsIdleBlockCall, AllowsBlockCall, AreOpenRecordsOfBookLaw, brought_by_message, HoldsRepresentedHistory};
ghost use Rattle.test_memory.specs.Histories.Prelude.{MadeFrom, MayCloseHere};

use crate::histories::history::{awaited_by, holds, note, note_closing, open_of};
use book::{Book, Refused};
use journal::{CutFault, Event, Journal, Kind};
use page::Record;
use std::alloc::{AllocError, Global};
use std::marker::Model;
use std::sync::Arc;
use transit::Message;

/// A book with the history of what was done: the history tells the book.
///
/// Each call is one of the book's, on which the history says whether it may be made: else it is refused
/// before the book is asked. After a refusal all is as before.
#[derive(Drop)]
pub struct Told {
    processors: usize,
    pages: usize,
    words: usize,
    locks: usize,
    flags: usize,
    owing: usize,
    history: Vec<Event>,
    book: Book,
}

impl Model for Told {
    ghost use Rattle.test_memory.specs.Histories.Telling.{Telling};
    ghost use Rattle.test_memory.specs.Histories.Keeping.{telling_of, RepresentsWithRoom};

    ghost Value = { Telling };

    ghost view = { telling_of };

    ghost invariant = { RepresentsWithRoom };
}

impl Told {
    /// A new book of a cluster of these sizes: 1 to 16 processors, up to 64 pages of 1 to 64 words, up to
    /// 32 locks and flags. The only error is running out of memory.
    pub fn new(
        alloc: Global,
        processors: usize,
        pages: usize,
        words: usize,
        locks: usize,
        flags: usize,
    ) -> Result<Told, AllocError>
        requires some { 1 ≤ processors }
        requires most { processors ≤ 16 }
        requires pages { pages ≤ 64 }
        requires word { 1 ≤ words }
        requires words { words ≤ 64 }
        requires locks { locks ≤ 32 }
        ensures sizes { IfOk result (λ t. t.sizes ≡ record {
          processors = processors;
          pages = pages;
          words = words;
          locks = locks;
          flags = flags;
        }) }
        ensures history { IfOk result (λ t. t.history ≡ []) }
    {
        let book = Book::new(alloc, processors, pages, words, locks, flags)?;
        Ok(Told {
            processors,
            pages,
            words,
            locks,
            flags,
            owing: 256 * processors,
            history: Vec::new(alloc),
            book,
        })
    }

    pub(crate) fn allocator(&self) -> Global {
        *self.history.allocator()
    }

    pub(crate) fn pages(&self) -> usize
        ensures { result ≡ self.now.sizes.pages }
    {
        self.pages
    }

    pub(crate) fn words(&self) -> usize
        ensures value { result ≡ self.now.sizes.words }
        ensures some { 0 < result }
        ensures few { result ≤ 64 }
    {
        self.words
    }

    /// What `p` waits for.
    fn waits_for(&self, p: usize) -> Option<Kind>
        requires { p < self.now.sizes.processors }
        ensures { slice_get self.now.book.awaits p ≡ Some result }
    {
        awaited_by(&self.history, p)
    }

    /// Whether this is a load, a store or a fetch of `p` within the sizes.
    fn is_inner(&self, p: usize, event: &Event) -> bool
        ensures { IsTrue result → IsAllowedInnerCall self.now.sizes p event.now }
    {
        event.processor == p
            && match event.kind {
                Kind::Load(address, _) | Kind::Store(address, _) => {
                    address / self.words < self.pages
                }
                Kind::Fetch { page, .. } => page < self.pages,
                _ => false,
            }
    }

    /// Whether `p` waits for nothing, and the block is one that it may hand in.
    fn may_hand_in(&self, p: usize, block: &[Event]) -> Result<(), Refused>
        ensures { OnOk result (AllowsIdleBlockCall self.now.sizes self.now.book p block.now
            × (length block.now ≤ 256)) }
    {
        if p >= self.processors {
            return Err(Refused::OutOfRange);
        }
        if self.waits_for(p).is_some() {
            return Err(Refused::Waiting);
        }
        if block.len() > 256 {
            return Err(Refused::BlockFull);
        }
        for event in block {
            if !self.is_inner(p, event) {
                return Err(Refused::OutOfRange);
            }
        }
        Ok(())
    }

    /// Whether `p` may hand the block in, which is empty where it waits.
    fn may_give(&self, p: usize, block: &[Event]) -> Result<(), Refused>
        ensures { OnOk result (AllowsBlockCall self.now.sizes self.now.book p block.now
            × (length block.now ≤ 256)) }
    {
        if !block.is_empty() {
            return self.may_hand_in(p, block);
        }
        if p >= self.processors {
            return Err(Refused::OutOfRange);
        }
        let _waits = self.waits_for(p);
        Ok(())
    }

    /// The records of the interval of `p`, which it may close after this block.
    fn closing(&self, p: usize, block: &[Event]) -> Result<Vec<Arc<Record>>, Refused>
        ensures { IfOk result (λ rs. MayCloseHere self.now p block.now (map arc_value rs.items)) }
    {
        self.may_hand_in(p, block)?;
        let mut events = open_of(self.allocator(), &self.history, p)?;
        events.extend_from_slice(block)?;
        Ok(self.records_of(&events)?)
    }

    /// Hands in a block of loads, stores and fetches of `p`, also of none where `p` waits.
    pub fn hand_in(&mut self, p: usize, block: &[Event]) -> Result<(), Refused>
        ensures ok { OnOk result (MadeFrom self.old (self.old.history ++ block.now) self.new) }
        ensures err { OnErr result (self.new ≡ self.old) }
    {
        self.may_give(p, block)?;
        self.history.reserve(block.len())?;
        self.book.hand_in(p, block)?;
        note(&mut self.history, block);
        Ok(())
    }

    /// Asks for a lock, which `p` doesn't hold, after this block.
    pub fn ask(&mut self, p: usize, l: usize, block: &[Event]) -> Result<(), Refused>
        ensures ok { OnOk result
            (MadeFrom self.old (did (self.old.history ++ block.now) p (Kind.Ask l)) self.new) }
        ensures err { OnErr result (self.new ≡ self.old) }
    {
        let records = self.closing(p, block)?;
        if l >= self.locks {
            return Err(Refused::BadLock);
        }
        if holds(&self.history, p, l) {
            return Err(Refused::AlreadyHeld);
        }
        self.history.reserve(block.len() + 1)?;
        self.book.ask(p, l, block, records)?;
        note_closing(&mut self.history, block, p, Kind::Ask(l));
        Ok(())
    }

    /// Releases a lock, which `p` holds, after this block.
    pub fn release(&mut self, p: usize, l: usize, block: &[Event]) -> Result<(), Refused>
        ensures ok { OnOk result
            (MadeFrom self.old (did (self.old.history ++ block.now) p (Kind.Release l)) self.new) }
        ensures err { OnErr result (self.new ≡ self.old) }
    {
        let records = self.closing(p, block)?;
        if l >= self.locks {
            return Err(Refused::BadLock);
        }
        if !holds(&self.history, p, l) {
            return Err(Refused::NotHeld);
        }
        self.history.reserve(block.len() + 1)?;
        self.book.release(p, l, block, records)?;
        note_closing(&mut self.history, block, p, Kind::Release(l));
        Ok(())
    }

    /// Sets a flag after this block.
    pub fn set(&mut self, p: usize, f: usize, block: &[Event]) -> Result<(), Refused>
        ensures ok { OnOk result
            (MadeFrom self.old (did (self.old.history ++ block.now) p (Kind.Set f)) self.new) }
        ensures err { OnErr result (self.new ≡ self.old) }
    {
        let records = self.closing(p, block)?;
        if f >= self.flags {
            return Err(Refused::BadFlag);
        }
        self.history.reserve(block.len() + 1)?;
        self.book.set(p, f, block, records)?;
        note_closing(&mut self.history, block, p, Kind::Set(f));
        Ok(())
    }

    /// Watches a flag after this block.
    pub fn watch(&mut self, p: usize, f: usize, block: &[Event]) -> Result<(), Refused>
        ensures ok { OnOk result
            (MadeFrom self.old (did (self.old.history ++ block.now) p (Kind.Watch f)) self.new) }
        ensures err { OnErr result (self.new ≡ self.old) }
    {
        let records = self.closing(p, block)?;
        if f >= self.flags {
            return Err(Refused::BadFlag);
        }
        self.history.reserve(block.len() + 1)?;
        self.book.watch(p, f, block, records)?;
        note_closing(&mut self.history, block, p, Kind::Watch(f));
        Ok(())
    }

    /// Arrives at the barrier after this block.
    pub fn arrive(&mut self, p: usize, block: &[Event]) -> Result<(), Refused>
        ensures ok { OnOk result
            (MadeFrom self.old (did (self.old.history ++ block.now) p Kind.Arrive) self.new) }
        ensures err { OnErr result (self.new ≡ self.old) }
    {
        let records = self.closing(p, block)?;
        self.history.reserve(block.len() + 1)?;
        self.book.arrive(p, block, records)?;
        note_closing(&mut self.history, block, p, Kind::Arrive);
        Ok(())
    }

    /// Takes what `p` waits for.
    pub fn take(&mut self, p: usize) -> Result<Message, Refused>
        ensures ok { OnOk result ((k : AKind) × (slice_get self.old.book.awaits p ≡ Some (Some k))
            × MadeFrom self.old (did self.old.history p k) self.new) }
        ensures err { OnErr result (self.new ≡ self.old) }
    {
        if p >= self.processors {
            return Err(Refused::OutOfRange);
        }
        let Some(kind) = self.waits_for(p) else {
            return Err(Refused::NothingAwaited);
        };
        self.history.reserve(1)?;
        let message = self.book.take(p)?;
        self.history.push_reserved(Event { processor: p, kind });
        Ok(message)
    }

    /// Hands in a block as `hand_in` does, and answers a copy of the whole journal after it, which holds the
    /// history.
    pub fn audit(&mut self, p: usize, block: &[Event]) -> Result<Journal, Refused>
        ensures ok { OnOk result (MadeFrom self.old (self.old.history ++ block.now) self.new) }
        ensures copy { IfOk result (λ j. HoldsRepresentedHistory j self.new.history) }
        ensures err { OnErr result (self.new ≡ self.old) }
    {
        self.may_give(p, block)?;
        self.history.reserve(block.len())?;
        let copy = self.book.audit(p, block)?;
        note(&mut self.history, block);
        Ok(copy)
    }

    /// Cuts the journal; the history stays.
    pub fn cut(&mut self) -> Result<(), CutFault>
        ensures ok { OnOk result (MadeFrom self.old self.old.history self.new) }
        ensures cut { OnOk result (JournalWasCut self.old.book.journal self.new.book.journal) }
        ensures err { OnErr result (self.new ≡ self.old) }
        ensures fault { IfErr result (IsJournalCutRefusal self.old.book.journal) }
    {
        self.book.cut()
    }

    /// Hands in a last block, for which the book keeps room.
    pub fn last(&mut self, p: usize, block: &[Event]) -> Result<(), Refused>
        ensures ok { OnOk result (MadeFrom self.old (self.old.history ++ block.now) self.new) }
        ensures err { OnErr result (self.new ≡ self.old) }
    {
        self.may_give(p, block)?;
        if block.len() > self.owing {
            return Err(Refused::JournalFull);
        }
        self.history.reserve(block.len())?;
        self.book.last(p, block);
        self.owing -= block.len();
        note(&mut self.history, block);
        Ok(())
    }

    /// How many notices of the page a take by `p` would bring now; None where `p` is no processor.
    pub fn due(&self, p: usize, page: usize) -> Option<usize>
        ensures none { result ≡ None ↔ (self.now.sizes.processors ≤ p) }
        ensures some { IfSome result (λ n. n
            ≡ count_by (is_kept_closing_of_page page) (brought_by_message self.now.book p)) }
    {
        if p < self.processors {
            Some(self.book.due(p, page))
        } else {
            None
        }
    }

    /// Whether the history is a deadlock.
    pub fn is_deadlocked(&self) -> bool
        ensures { IsTrue result ↔ IsDeadlock self.now.sizes self.now.history }
    {
        self.book.is_deadlocked()
    }

    /// The number of the first kept interval of processor `q`; None where that is no processor.
    pub fn first(&self, q: usize) -> Option<u64>
        ensures none { result ≡ None ↔ (self.now.sizes.processors ≤ q) }
        ensures some { IfSome result (λ n. slice_get self.now.book.closed.first q ≡ Some n) }
    {
        if q < self.processors {
            Some(self.book.first(q))
        } else {
            None
        }
    }

    /// The journal, which holds the history.
    pub fn into_journal(self) -> Journal
        ensures { HoldsRepresentedHistory result self.history }
    {
        self.book.into_journal()
    }
}
