//! A word's accesses, and those of them that only a lock keeps apart.
ghost use Rattle.std.specs.Prelude.{◌≡◌, ◌↔◌, ◌+◌, ◌<◌, ℕ, IsTrue, List, MatchOption, OnOk, slice_index};
ghost use Rattle.base.specs.Prelude.{Has};
ghost use Rattle.judge.specs.Prelude.{most_judged_processors};
ghost use Rattle.journal.specs.declared.event.Event.{Event};
ghost use Rattle.judge.specs.declared.locksets.watched_word.LockedAccess.{LockedAccess};
ghost use Rattle.judge.specs.Locksets.Prelude.{AreWatchedRacing, AreWatchedStorers, IsWatchedNext, HeldLocksShare, IsWatchedKept};
ghost use Rattle.judge.specs.Locksets.Prelude.{IsWatchedGuarded, IsWatchedGuardedWith, IsWatchedAlike, IsWatchCandidate, IsWatchedUnguarded};
ghost use Rattle.judge.specs.Locksets.Prelude.{IsUnwatched, IsWatchedUnguardedWith, WatchedTells, paired_access};

use crate::cut_rows::known_in;
use crate::locksets::held_locks::HeldLocks;
use std::alloc::{AllocError, Global};

/// An access of a word, with the locks that its processor held.
#[derive(Drop)]
pub(crate) struct LockedAccess {
    pub(crate) processor: usize,
    /// Whether it is a store.
    pub(crate) stores: bool,
    pub(crate) place: usize,
    pub(crate) held: HeldLocks,
}

/// One of two accesses that only a lock keeps apart.
#[derive(Clone, Copy, Debug, PartialEq, Eq)]
pub struct PairedAccess {
    /// Its place in the history, counted from 0.
    pub place: usize,
    /// Who made it.
    pub processor: usize,
}

/// Two accesses that only a lock keeps apart, and a lock that was held at both.
#[derive(Clone, Copy, Debug, PartialEq, Eq)]
pub struct Guarded {
    pub accesses: (PairedAccess, PairedAccess),
    pub lock: usize,
}

/// Who has stored to a word.
#[derive(Clone, Copy)]
pub(crate) enum WatchedStorers {
    Nobody,
    One(usize),
    Several,
}

/// What is kept of a word.
///
/// Of two accesses of one kind by one processor with the same locks, the later one is ordered with less: so the last
/// one of each tells all.
#[derive(Drop)]
pub(crate) struct WatchedWord {
    pub(crate) storers: WatchedStorers,
    /// Of each processor, kind and set of locks the last access, since a second processor has stored.
    pub(crate) accesses: Vec<LockedAccess>,
    /// Two accesses that only a lock keeps apart, and that hold none in common.
    pub(crate) unguarded: Option<(PairedAccess, PairedAccess)>,
    pub(crate) guarded: Option<Guarded>,
}

impl LockedAccess {
    /// The access, as it is told.
    fn paired(&self) -> PairedAccess
        ensures { result ≡ paired_access self.now }
    {
        PairedAccess {
            place: self.place,
            processor: self.processor,
        }
    }
}

impl WatchedStorers {
    /// With the access, which comes next.
    fn with(self, access: &LockedAccess) -> WatchedStorers
        ensures { (j : List Event) (a n : ℕ) → AreWatchedStorers j a n self → IsWatchCandidate j a n access.now
            → AreWatchedStorers j a (n + 1) result }
    {
        if !access.stores {
            return self;
        }
        match self {
            WatchedStorers::Nobody => WatchedStorers::One(access.processor),
            WatchedStorers::One(first) => {
                if first == access.processor {
                    self
                } else {
                    WatchedStorers::Several
                }
            }
            WatchedStorers::Several => self,
        }
    }
}

/// Whether the accesses, of which the second one's processor knows this of the others, need a lock.
fn are_watched_racing(earlier: &LockedAccess, later: &LockedAccess, cut: &[u32]) -> bool
    ensures { IsTrue result ↔ AreWatchedRacing earlier.now later.now (slice_index cut.now) }
{
    earlier.processor != later.processor
        && (earlier.stores || later.stores)
        && known_in(cut, earlier.processor) as usize <= earlier.place
}

/// The first of these accesses that needs a lock with a later one and has one in common with it.
fn watched_word_first_guarded(
    accesses: &[LockedAccess],
    later: &LockedAccess,
    cut: &[u32],
) -> Option<Guarded>
    ensures { MatchOption result
        ((x : LockedAccess) (l : ℕ) → Has accesses.now x → AreWatchedRacing x later.now (slice_index cut.now)
        → ¬ HeldLocksShare x.held later.now.held l)
        (IsWatchedGuardedWith accesses.now later.now (slice_index cut.now)) }
{
    for access in accesses {
        if are_watched_racing(access, later, cut) {
            if let Some(lock) = access.held.common(&later.held) {
                let accesses = (access.paired(), later.paired());
                return Some(Guarded { accesses, lock });
            }
        }
    }
    None
}

/// The first of these accesses that needs a lock with a later one and has none in common with it.
fn watched_word_first_unguarded(
    accesses: &[LockedAccess],
    later: &LockedAccess,
    cut: &[u32],
) -> Option<(PairedAccess, PairedAccess)>
    ensures { MatchOption result
        ((x : LockedAccess) → Has accesses.now x → AreWatchedRacing x later.now (slice_index cut.now)
        → (l : ℕ) × HeldLocksShare x.held later.now.held l)
        (IsWatchedUnguardedWith accesses.now later.now (slice_index cut.now)) }
{
    for access in accesses {
        if are_watched_racing(access, later, cut) && access.held.common(&later.held).is_none() {
            return Some((access.paired(), later.paired()));
        }
    }
    None
}

/// Whether the accesses are of one processor and kind, with the same locks.
fn are_watched_alike(one: &LockedAccess, other: &LockedAccess) -> bool
    ensures { IsTrue result ↔ IsWatchedAlike one.now other.now }
{
    one.processor == other.processor && one.stores == other.stores && one.held.are_same(&other.held)
}

/// Keeps the access, in the place of one like it, if there is one. The only error is running out of memory.
fn keep_watched_access(
    accesses: &mut Vec<LockedAccess>,
    access: LockedAccess,
) -> Result<(), AllocError>
    ensures { OnOk result (IsWatchedKept accesses.old.items access accesses.new.items) }
{
    for index in 0..accesses.len() {
        if are_watched_alike(&accesses[index], &access) {
            accesses[index] = access;
            return Ok(());
        }
    }
    accesses.push(access)?;
    Ok(())
}

impl WatchedWord {
    /// Before its first access.
    pub(crate) fn new(alloc: Global) -> WatchedWord
        ensures { (j : List Event) (a n : ℕ) → IsUnwatched j a n → WatchedTells j a n result }
    {
        WatchedWord {
            storers: WatchedStorers::Nobody,
            accesses: Vec::new(alloc),
            unguarded: None,
            guarded: None,
        }
    }

    /// Two accesses with a lock in common, up to the one that comes next.
    fn guarded_with(&self, access: &LockedAccess, cut: &[u32]) -> Option<Guarded>
        requires { (j : List Event) × (a : ℕ) × (n : ℕ) × WatchedTells j a n self.now
            × IsWatchedNext j a n access.now (slice_index cut.now) }
        ensures { (j : List Event) (a n : ℕ) → WatchedTells j a n self.now
            → IsWatchedNext j a n access.now (slice_index cut.now) → IsWatchedGuarded j a (n + 1) result }
    {
        if self.guarded.is_some() {
            return self.guarded;
        }
        watched_word_first_guarded(&self.accesses, access, cut)
    }

    /// Two with none in common.
    fn unguarded_with(
        &self,
        access: &LockedAccess,
        cut: &[u32],
    ) -> Option<(PairedAccess, PairedAccess)>
        requires { (j : List Event) × (a : ℕ) × (n : ℕ) × WatchedTells j a n self.now
            × IsWatchedNext j a n access.now (slice_index cut.now) }
        ensures { (j : List Event) (a n : ℕ) → WatchedTells j a n self.now
            → IsWatchedNext j a n access.now (slice_index cut.now) → IsWatchedUnguarded j a (n + 1) result }
    {
        if self.unguarded.is_some() {
            return self.unguarded;
        }
        watched_word_first_unguarded(&self.accesses, access, cut)
    }

    /// Takes note of an access of the word, which comes next; its processor knows this of the others. The only error is running
    /// out of memory.
    pub(crate) fn note(&mut self, access: LockedAccess, cut: &[u32]) -> Result<(), AllocError>
        requires { (j : List Event) × (a : ℕ) × (n : ℕ) × WatchedTells j a n self.old
            × IsWatchedNext j a n access (slice_index cut.now) }
        ensures { OnOk result ((j : List Event) (a n : ℕ) → WatchedTells j a n self.old
            → IsWatchedNext j a n access (slice_index cut.now) → WatchedTells j a (n + 1) self.new) }
    {
        let guarded = self.guarded_with(&access, cut);
        let unguarded = self.unguarded_with(&access, cut);
        self.guarded = guarded;
        self.unguarded = unguarded;
        self.storers = self.storers.with(&access);
        match self.storers {
            WatchedStorers::Several => keep_watched_access(&mut self.accesses, access),
            _ => Ok(()),
        }
    }
}
