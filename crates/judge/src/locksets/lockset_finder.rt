//! Finds the words some of whose accesses need a lock and have none.
ghost use Rattle.std.specs.Prelude.{◌≡◌, ◌↔◌, ◌+◌, ◌<◌, ◌≤◌, ◌∷◌, ◌++◌, [], ℕ, IfOk, IsTrue, List, MatchOption, OnOk, Some, length, slice_index, vec_len};
ghost use Rattle.journal.specs.declared.event.Event.{Event as AnEvent};
ghost use Rattle.journal.specs.Events.{event_stores};
ghost use Rattle.journal.specs.Prelude.{EventAddressesInRange, EventAddressInRange, EventProcessorsInRange, event_address};
ghost use Rattle.judge.specs.Prelude.{IsSparse, most_judged_events, most_judged_processors, most_sparse_values, sparse_at, sparse_room};
ghost use Rattle.judge.specs.Locksets.Prelude.{AreKeptLocksetWords, AreKeptLocksetsOfAll, ComesNextToWatch, IsGuardedPair, IsLocksetFinderOf, IsUnguardedPair, IsUnprotectedAsked};
ghost use Rattle.judge.specs.Locksets.Prelude.{IsWatchCandidate, IsWatchedNext, PairsLeaveUnprotected, PairsTellUnprotected, TellsGuardedPair, WatchedTells};

use crate::cuts::Cuts;
use crate::locksets::held_locks::HeldLocks;
use crate::locksets::unlocked::unlocked_event;
use crate::locksets::watched_word::{Guarded, LockedAccess, PairedAccess, WatchedWord};
use crate::sparse_table::SparseTable;
use journal::{Event, Kind};
use std::alloc::{AllocError, Global};

/// Which words are told, of those some of whose accesses only a lock would keep apart, and hold none in common.
#[derive(Clone, Copy, Debug, PartialEq, Eq)]
pub enum LocksetWords {
    /// Those of which other such accesses hold one in common: somebody forgot it.
    Forgotten,
    /// These, and those that no lock guards: they are handed over from one processor to the next.
    All,
}

/// A word some of whose accesses only a lock would keep apart, and hold none in common.
#[derive(Clone, Copy, Debug, PartialEq, Eq)]
pub struct Unprotected {
    pub address: usize,
    /// Two such accesses that hold no lock in common.
    pub unguarded: (PairedAccess, PairedAccess),
    /// Two that do, if there are such: then somebody forgot the lock. The word is handed over where there are none.
    pub guarded: Option<Guarded>,
}

/// A history, taken an event at a time, of which it tells the words that need a lock and have none at times, or never.
///
/// It says nothing of a word that only one processor stores to, nor of accesses that flags, the barrier or their
/// processor's own order keep apart. An access takes time in the order of the sets of locks with which its word was accessed,
/// times the processors, and times the locks of its own set and of each of those. It takes memory in the order of the words
/// that are accessed, and of the accesses that are kept of each: from the first store by a second processor on the last one of
/// each processor, kind and set of locks held, however long the history is.
#[derive(Drop)]
pub struct LocksetFinder {
    addresses: usize,
    /// What each processor knows of the others, where locks order nothing.
    cuts: Cuts,
    /// The locks that each processor holds.
    held: Vec<HeldLocks>,
    /// By address what is kept of each word that is accessed.
    words: SparseTable<WatchedWord>,
}

/// The address that is accessed, and whether it is stored to.
fn finder_access_of(kind: Kind) -> Option<(usize, bool)>
    ensures { MatchOption result (event_address kind ≡ None)
        (λ x. (event_address kind ≡ Some x.0) × (x.1 ≡ event_stores kind)) }
{
    match kind {
        Kind::Load(address, _) => Some((address, false)),
        Kind::Store(address, _) => Some((address, true)),
        _ => None,
    }
}

/// Takes note of the lock that the event acquires or releases. The only error is running out of memory.
fn update_finder_locks(held: &mut [HeldLocks], event: Event) -> Result<(), AllocError>
    requires { event.processor < length held.old }
    ensures long { length held.new ≡ length held.old }
    ensures locks { OnOk result ((j : List AnEvent) → AreKeptLocksetsOfAll j held.old → AreKeptLocksetsOfAll (j ++ event ∷ []) held.new) }
{
    held[event.processor].note(event.kind)
}

/// The sets of so many processors, before the first event. The only error is running out of memory.
fn finder_locks_at_start(alloc: Global, count: usize) -> Result<Vec<HeldLocks>, AllocError>
    ensures long { IfOk result (λ v. vec_len v ≡ count) }
    ensures none { IfOk result (λ v. AreKeptLocksetsOfAll [] v.items) }
{
    let mut held = Vec::with_capacity(alloc, count)?;
    for _ in 0..count {
        held.push(HeldLocks::none(alloc))?;
    }
    Ok(held)
}

/// Takes note of an access of the word at this address, which comes next; its processor knows this of the others. The only
/// error is running out of memory.
fn watch_finder_word(
    alloc: Global,
    words: &mut SparseTable<WatchedWord>,
    address: usize,
    access: LockedAccess,
    cut: &[u32],
) -> Result<(), AllocError>
    requires sparse { IsSparse words.old }
    requires room { address < sparse_room words.old }
    requires few { vec_len words.old.kept < most_sparse_values }
    requires next { (h : List AnEvent) × (n : ℕ) × IsWatchedNext h address n access (slice_index cut.now)
        × AreKeptLocksetWords h n (sparse_at words.old) }
    ensures room { sparse_room words.new ≡ sparse_room words.old }
    ensures few { vec_len words.new.kept ≤ vec_len words.old.kept + 1 }
    ensures sparse { OnOk result (IsSparse words.new) }
    ensures noted { OnOk result ((h : List AnEvent) (n : ℕ) → IsWatchedNext h address n access (slice_index cut.now)
        → AreKeptLocksetWords h n (sparse_at words.old) → AreKeptLocksetWords h (n + 1) (sparse_at words.new)) }
{
    match words.place(address) {
        Some(place) => words.kept[place].note(access, cut),
        None => {
            let mut word = WatchedWord::new(alloc);
            word.note(access, cut)?;
            words.add(address, word)
        }
    }
}

/// What was found of the word at this address.
fn finder_answer_of(words: &SparseTable<WatchedWord>, address: usize) -> Option<Unprotected>
    requires { IsSparse words.now }
    ensures { (j : List AnEvent) → AreKeptLocksetWords j (length j) (sparse_at words.now)
        → MatchOption result ((i k : ℕ) → ¬ IsUnguardedPair j address i k)
        (λ x. PairsLeaveUnprotected j x × (x.address ≡ address)) }
{
    let word = &words.kept[words.place(address)?];
    let unguarded = word.unguarded?;
    Some(Unprotected {
        address,
        unguarded,
        guarded: word.guarded,
    })
}

/// Whether such a word is to be told.
fn is_unprotected_asked(asked: LocksetWords, word: Unprotected) -> bool
    ensures { IsTrue result ↔ IsUnprotectedAsked asked word }
{
    match asked {
        LocksetWords::Forgotten => word.guarded.is_some(),
        LocksetWords::All => true,
    }
}

/// Adds what was found of the word at this address, if that is asked for. The only error is running out of memory.
fn add_finder_answer(
    found: &mut Vec<Unprotected>,
    asked: LocksetWords,
    words: &SparseTable<WatchedWord>,
    address: usize,
) -> Result<(), AllocError>
    requires { IsSparse words.now }
    ensures { OnOk result ((j : List AnEvent) → AreKeptLocksetWords j (length j) (sparse_at words.now)
        → PairsTellUnprotected asked j address found.old.items → PairsTellUnprotected asked j (address + 1) found.new.items) }
{
    if let Some(answer) = finder_answer_of(words, address) {
        if is_unprotected_asked(asked, answer) {
            found.push(answer)?;
        }
    }
    Ok(())
}

impl LocksetFinder {
    /// Before the first event, of a history of `processors` processors, at most `MOST_JUDGED_PROCESSORS`, and `addresses`
    /// addresses. The only error is running out of memory.
    pub fn new(
        alloc: Global,
        processors: usize,
        addresses: usize,
    ) -> Result<LocksetFinder, AllocError>
        requires { processors ≤ most_judged_processors }
        ensures tells { IfOk result (IsLocksetFinderOf []) }
        ensures processors { IfOk result (λ x. x.cuts.present ≡ processors) }
        ensures addresses { IfOk result (λ x. x.addresses ≡ addresses) }
    {
        Ok(LocksetFinder {
            addresses,
            cuts: Cuts::new(alloc, processors)?,
            held: finder_locks_at_start(alloc, processors)?,
            words: SparseTable::new(alloc, addresses)?,
        })
    }

    /// The access that comes next, by this processor, with the locks that it holds. The only error is running out of memory.
    fn access(&self, processor: usize, stores: bool) -> Result<LockedAccess, AllocError>
        requires processor { processor < self.now.cuts.present }
        requires tells { (j : List AnEvent) × IsLocksetFinderOf j self.now }
        ensures { IfOk result (λ x. (h j : List AnEvent) (a : ℕ) (e : AnEvent) → IsLocksetFinderOf j self.now
            → ComesNextToWatch h j e → e.processor ≡ processor → event_address e.kind ≡ Some a → stores ≡ event_stores e.kind
            → IsWatchCandidate h a (length j) x) }
    {
        let held = self.held[processor].copied()?;
        Ok(LockedAccess {
            processor,
            stores,
            place: self.cuts.place,
            held,
        })
    }

    /// Takes note of the word that the event, which comes next, accesses, if it accesses one. The only error is running out of
    /// memory.
    fn watch(&mut self, alloc: Global, event: Event) -> Result<(), AllocError>
        requires few { self.old.cuts.place < most_judged_events }
        requires processor { event.processor < self.old.cuts.present }
        requires address { EventAddressInRange self.old.addresses event.kind }
        requires so_far { (j : List AnEvent) × IsLocksetFinderOf j self.old }
        ensures rest { self.new ≡ record self.old { words = self.new.words } }
        ensures room { sparse_room self.new.words ≡ sparse_room self.old.words }
        ensures few { vec_len self.new.words.kept ≤ vec_len self.old.words.kept + 1 }
        ensures sparse { OnOk result (IsSparse self.new.words) }
        ensures words { OnOk result ((h j : List AnEvent) → IsLocksetFinderOf j self.old → ComesNextToWatch h j event
            → AreKeptLocksetWords h (length j + 1) (sparse_at self.new.words)) }
    {
        let Some((address, stores)) = finder_access_of(event.kind) else {
            return Ok(());
        };
        let access = self.access(event.processor, stores)?;
        let cut = self.cuts.of(event.processor);
        watch_finder_word(alloc, &mut self.words, address, access, cut)
    }

    /// Takes note of the event, which comes next. The only error is running out of memory, after which it may tell no
    /// history.
    pub fn note(&mut self, alloc: Global, event: Event) -> Result<(), AllocError>
        requires few { self.old.cuts.place < most_judged_events }
        requires processor { event.processor < self.old.cuts.present }
        requires address { EventAddressInRange self.old.addresses event.kind }
        requires so_far { (j : List AnEvent) × IsLocksetFinderOf j self.old }
        ensures tells { OnOk result ((j : List AnEvent) → IsLocksetFinderOf j self.old
            → IsLocksetFinderOf (j ++ event ∷ []) self.new) }
        ensures processors { self.new.cuts.present ≡ self.old.cuts.present }
        ensures addresses { self.new.addresses ≡ self.old.addresses }
    {
        self.watch(alloc, event)?;
        update_finder_locks(&mut self.held, event)?;
        self.cuts.note(unlocked_event(event))
    }

    /// Two accesses of the word that only a lock keeps apart, and that hold one in common; None if there are none so far. `found`
    /// tells these two with the word, once others hold none in common.
    pub fn guarded(&self, address: usize) -> Option<Guarded>
        requires { (j : List AnEvent) × IsLocksetFinderOf j self.now }
        ensures { (j : List AnEvent) → IsLocksetFinderOf j self.now
            → MatchOption result ((i k l : ℕ) → ¬ IsGuardedPair j address i k l) (TellsGuardedPair j address) }
    {
        let word = &self.words.kept[self.words.place(address)?];
        word.guarded
    }

    /// The words that need a lock and have none, those that are asked for, by rising address. The only error is running out of
    /// memory.
    pub fn found(&self, alloc: Global, asked: LocksetWords) -> Result<Vec<Unprotected>, AllocError>
        requires { (j : List AnEvent) × IsLocksetFinderOf j self.now }
        ensures { IfOk result (λ v. (j : List AnEvent) → IsLocksetFinderOf j self.now
            → PairsTellUnprotected asked j self.now.addresses v.items) }
    {
        let mut found = Vec::new(alloc);
        for address in 0..self.addresses {
            add_finder_answer(&mut found, asked, &self.words, address)?;
        }
        Ok(found)
    }
}
