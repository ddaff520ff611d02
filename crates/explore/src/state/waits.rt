//! Who waits for what, and what has come.
ghost use Rattle.std.specs.Prelude.{◌≡◌, ◌↔◌, ℕ, ◌+◌, ◌<◌, ◌≤◌, ◌^◌, ◌==◌, ◌&&◌, [], ◌∷◌, ◌++◌, IsTrue};
ghost use Rattle.std.specs.Prelude.{All, List, IfOk, MatchOption, OnOk, cond, false, length, slice_index, slice_index_or};
ghost use Rattle.base.specs.Prelude.{Has, most_flags, most_locks, most_processors};
ghost use Rattle.journal.specs.declared.event.Event.{Event as AnEvent};
ghost use Rattle.journal.specs.declared.event.Kind.{Kind as AKind};
ghost use Rattle.journal.specs.declared.event.Kind.TheVariants.{Ask, Depart};
ghost use Rattle.journal.specs.Sizes.{Sizes as TheSizes};
ghost use Rattle.journal.specs.WellFormed.{WellFormedAllows, WellFormedKindInRange, LastIs, WellFormedGrant, WellFormedNext};
ghost use Rattle.journal.specs.Prelude.{Holds, event_count, did, event, event_arrives, event_departs, event_takes};
ghost use Rattle.judge.specs.FrontTells.{FrontTellsFlagSet};
ghost use Rattle.judge.specs.Prelude.{AreJudgedSizesSmall, WhyWaitsFor, front_tells_holder_after, front_tells_flag_set_after};
ghost use Rattle.explore.specs.KeptWaiting.{KeptWaitingAskedAfter, IsKeptWaitingForLock, MayFollowKeptWaiting, IsFirstKeptWaiting, IsLikeKeptWaiting, IsKeptWaitingPossible, TellsKeptWaiting, kept_waiting_asked, kept_waiting_flags, kept_waiting_holders, kept_waiting_told, kept_waiting_without};
ghost use Rattle.explore.specs.WaitCodes.{wait_code_holder, wait_code_nobody};

use crate::state::wait_code::{LockHolder, WaitCode, wait_code_end_of};
use base::{MOST_FLAGS, MOST_LOCKS, MOST_PROCESSORS};
use journal::Kind;
use std::alloc::{AllocError, Global};

/// What the processors of a cluster wait for, and what of it has come.
#[derive(Drop)]
pub struct Waiting {
    /// What each processor waits for.
    waits: [Option<WaitCode>; MOST_PROCESSORS],
    /// How often each has arrived at the barrier. It has departed as often, unless it waits there.
    arrivals: [u32; MOST_PROCESSORS],
    /// Who holds each lock.
    holders: [LockHolder; MOST_LOCKS],
    /// Which flags are set.
    flags: [bool; MOST_FLAGS],
    /// Who waits for a lock, in the order of their asks.
    asked: Vec<usize>,
}

/// Whether an event of this kind ends a wait.
fn is_waiting_ended_by(kind: Kind) -> bool
    ensures { result ≡ event_takes kind }
{
    match kind {
        Kind::Acquire(_) | Kind::Depart | Kind::Await(_) => true,
        _ => false,
    }
}

/// Whether the two kinds are the same.
fn is_same_waiting_kind(a: Kind, b: Kind) -> bool
    ensures { IsTrue result ↔ (a ≡ b) }
{
    a == b
}

/// Counts the event if it is an arrival.
fn count_waiting_arrival(arrivals: &mut [u32; MOST_PROCESSORS], processor: usize, kind: Kind)
    requires processor { processor < most_processors }
    requires room { slice_index arrivals.old processor < 2 ^ 22 }
    ensures arrivals { (q : ℕ) → slice_index arrivals.new q
        ≡ slice_index arrivals.old q + cond ((processor == q) && event_arrives kind) 1 0 }
    ensures long { length arrivals.new ≡ length arrivals.old }
{
    if let Kind::Arrive = kind {
        arrivals[processor] += 1;
    }
}

/// Takes note of who acquires or releases a lock.
fn hold_waiting_lock(holders: &mut [LockHolder; MOST_LOCKS], processor: usize, kind: Kind)
    requires processor { processor < most_processors }
    requires in_range { (s : TheSizes) × AreJudgedSizesSmall s × WellFormedKindInRange s kind }
    ensures holders { (l : ℕ) → wait_code_holder (slice_index_or holders.new l wait_code_nobody)
        ≡ front_tells_holder_after (wait_code_holder (slice_index_or holders.old l wait_code_nobody)) l processor kind }
    ensures long { length holders.new ≡ length holders.old }
{
    match kind {
        Kind::Acquire(lock) => holders[lock] = LockHolder::of(processor),
        Kind::Release(lock) => holders[lock] = LockHolder::nobody(),
        _ => {}
    }
}

/// Takes note of a flag that is set.
fn set(flags: &mut [bool; MOST_FLAGS], kind: Kind)
    requires { (s : TheSizes) × AreJudgedSizesSmall s × WellFormedKindInRange s kind }
    ensures flags { (f : ℕ) → slice_index_or flags.new f false
        ≡ front_tells_flag_set_after (slice_index_or flags.old f false) f kind }
    ensures long { length flags.new ≡ length flags.old }
{
    if let Kind::Set(flag) = kind {
        flags[flag] = true;
    }
}

/// Takes note that the processor holds these locks.
fn hold_waiting_locks(holders: &mut [LockHolder; MOST_LOCKS], processor: usize, locks: &[usize])
    requires processor { processor < most_processors }
    requires locks { All (λ l. l < most_locks) locks.now }
    ensures { holders.new ≡ kept_waiting_holders processor holders.old locks.now }
{
    for lock in locks {
        holders[*lock] = LockHolder::of(processor);
    }
}

/// Takes note that these flags are set.
fn set_waiting_flags(set: &mut [bool; MOST_FLAGS], flags: &[usize])
    requires { All (λ f. f < most_flags) flags.now }
    ensures { set.new ≡ kept_waiting_flags set.old flags.now }
{
    for flag in flags {
        set[*flag] = true;
    }
}

/// Takes the processor out.
pub(crate) fn leave(asked: &mut Vec<usize>, processor: usize)
    ensures { asked.new.items ≡ kept_waiting_without asked.old.items processor }
{
    asked.retain(|other| *other != processor);
}

/// Puts who asks for a lock at the end, and takes out who acquires one.
fn queue_waiting(asked: &mut Vec<usize>, processor: usize, kind: Kind) -> Result<(), AllocError>
    ensures { OnOk result (KeptWaitingAskedAfter asked.old.items asked.new.items processor kind) }
{
    match kind {
        Kind::Ask(_) => asked.push(processor)?,
        Kind::Acquire(_) => leave(asked, processor),
        _ => {}
    }
    Ok(())
}

/// The first of these processors that waits for the lock.
fn first_waiting_of(
    asked: &[usize],
    waits: &[Option<WaitCode>; MOST_PROCESSORS],
    lock: usize,
) -> Option<usize>
    requires small { All (λ q. q < most_processors) asked.now }
    requires lock { lock < most_locks }
    ensures { MatchOption result ((q : ℕ) → Has asked.now q → ¬ IsKeptWaitingForLock waits.now q lock)
        (IsFirstKeptWaiting asked.now waits.now lock) }
{
    for processor in asked {
        if waits[*processor] == Some(WaitCode::Lock(lock as u8)) {
            return Some(*processor);
        }
    }
    None
}

impl Waiting {
    /// Before the first event.
    pub fn new(alloc: Global) -> Waiting
        ensures { TellsKeptWaiting [] result }
    {
        Waiting {
            waits: [None; MOST_PROCESSORS],
            arrivals: [0; MOST_PROCESSORS],
            holders: [LockHolder::nobody(); MOST_LOCKS],
            flags: [false; MOST_FLAGS],
            asked: Vec::new(alloc),
        }
    }

    /// Another one that tells the same. The only error is running out of memory.
    pub fn copy(&self) -> Result<Waiting, AllocError>
        ensures { IfOk result (IsLikeKeptWaiting self.now) }
    {
        Ok(Waiting {
            waits: self.waits,
            arrivals: self.arrivals,
            holders: self.holders,
            flags: self.flags,
            asked: self.asked.clone()?,
        })
    }

    /// Who waits for a lock, in the order of their asks.
    pub fn into_asked(self) -> Vec<usize>
        ensures { result ≡ self.asked }
    {
        let Waiting { asked, .. } = self;
        asked
    }

    /// These wait for a lock, in this order; nothing else is told yet.
    pub fn of_asked(asked: Vec<usize>) -> Waiting
        ensures { result ≡ kept_waiting_asked asked }
    {
        Waiting {
            waits: [None; MOST_PROCESSORS],
            arrivals: [0; MOST_PROCESSORS],
            holders: [LockHolder::nobody(); MOST_LOCKS],
            flags: [false; MOST_FLAGS],
            asked,
        }
    }

    /// Takes note that the processor waits for this, has arrived so often, holds these locks and has set these flags.
    pub fn tell(
        &mut self,
        processor: usize,
        wait: Option<WaitCode>,
        arrivals: u32,
        locks: &[usize],
        flags: &[usize],
    )
        requires processor { processor < most_processors }
        requires locks { All (λ l. l < most_locks) locks.now }
        requires flags { All (λ f. f < most_flags) flags.now }
        ensures { self.new ≡ kept_waiting_told self.old processor wait arrivals locks.now flags.now }
    {
        self.waits[processor] = wait;
        self.arrivals[processor] = arrivals;
        hold_waiting_locks(&mut self.holders, processor, locks);
        set_waiting_flags(&mut self.flags, flags);
    }

    /// What the processor waits for.
    pub fn of(&self, processor: usize) -> Option<Kind>
        requires { processor < most_processors }
        ensures { (j : List AnEvent) → TellsKeptWaiting j self.now
            → (k : AKind) → (result ≡ Some k) ↔ WhyWaitsFor j processor k }
    {
        wait_code_end_of(self.waits[processor])
    }

    /// What the processor waits for, in a few bytes.
    pub fn wait(&self, processor: usize) -> Option<WaitCode>
        requires { processor < most_processors }
        ensures { result ≡ slice_index_or self.now.waits processor None }
    {
        self.waits[processor]
    }

    /// Who holds the lock; None if there is no such lock.
    pub fn holder(&self, lock: usize) -> Option<usize>
        ensures { (j : List AnEvent) → TellsKeptWaiting j self.now → (q : ℕ) → (result ≡ Some q) ↔ Holds j q lock }
    {
        if lock < MOST_LOCKS {
            self.holders[lock].processor()
        } else {
            None
        }
    }

    /// Whether the flag is set; not if there is no such flag.
    pub fn is_set(&self, flag: usize) -> bool
        ensures { (j : List AnEvent) → TellsKeptWaiting j self.now → IsTrue result ↔ FrontTellsFlagSet j flag }
    {
        flag < MOST_FLAGS && self.flags[flag]
    }

    /// Whether the first of two processors has arrived at the barrier less often than the second one.
    pub fn is_behind(&self, first: usize, second: usize) -> bool
        requires first { first < most_processors }
        requires second { second < most_processors }
        ensures { IsTrue result ↔ (slice_index self.now.arrivals first < slice_index self.now.arrivals second) }
    {
        self.arrivals[first] < self.arrivals[second]
    }

    /// Whether the lock, for which the processor waits, is free, and nobody asked for it earlier.
    fn may_acquire(&self, processor: usize, lock: usize) -> bool
        requires lock { lock < most_locks }
        requires tells { (j : List AnEvent) × TellsKeptWaiting j self.now }
        ensures { (j : List AnEvent) → TellsKeptWaiting j self.now → (i : ℕ)
            → LastIs j processor i (Ask lock) → IsTrue result ↔ WellFormedGrant j i lock }
    {
        if let Some(_) = self.holders[lock].processor() {
            return false;
        }
        match first_waiting_of(&self.asked, &self.waits, lock) {
            Some(first) => first == processor,
            None => false,
        }
    }

    /// Whether all processors have arrived as often as this one, which waits at the barrier.
    fn may_depart(&self, processors: usize, processor: usize) -> bool
        requires processors { processors ≤ most_processors }
        requires processor { processor < most_processors }
        ensures { (j : List AnEvent) → TellsKeptWaiting j self.now → WhyWaitsFor j processor Depart
            → IsTrue result ↔ ((q : ℕ) → q < processors
            → event_count event_departs j processor + 1 ≤ event_count event_arrives j q) }
    {
        let arrivals = self.arrivals[processor];
        for other in 0..processors {
            if self.arrivals[other] < arrivals {
                return false;
            }
        }
        true
    }

    /// Whether the processor holds the lock.
    fn holds(&self, processor: usize, lock: usize) -> bool
        requires { lock < most_locks }
        ensures { (j : List AnEvent) → TellsKeptWaiting j self.now → IsTrue result ↔ Holds j processor lock }
    {
        match self.holders[lock].processor() {
            Some(holder) => holder == processor,
            None => false,
        }
    }

    /// Whether this, for which the processor waits, has come.
    fn has_come(&self, processors: usize, processor: usize, kind: Kind) -> bool
        requires { IsKeptWaitingPossible self.now processors processor kind }
        ensures { (s : TheSizes) (j : List AnEvent) → s.processors ≡ processors
            → TellsKeptWaiting j self.now → WhyWaitsFor j processor kind
            → IsTrue result ↔ WellFormedAllows s j processor kind }
    {
        match kind {
            Kind::Acquire(lock) => self.may_acquire(processor, lock),
            Kind::Depart => self.may_depart(processors, processor),
            Kind::Await(flag) => self.flags[flag],
            _ => false,
        }
    }

    /// Whether the processor, which waits for nothing, may do this.
    fn may_begin(&self, processor: usize, kind: Kind) -> bool
        requires { (s : TheSizes) × AreJudgedSizesSmall s × WellFormedKindInRange s kind }
        ensures { (s : TheSizes) (j : List AnEvent) → TellsKeptWaiting j self.now
            → ((k : AKind) → ¬ WhyWaitsFor j processor k)
            → IsTrue result ↔ WellFormedAllows s j processor kind }
    {
        if is_waiting_ended_by(kind) {
            return false;
        }
        match kind {
            Kind::Ask(lock) => !self.holds(processor, lock),
            Kind::Release(lock) => self.holds(processor, lock),
            _ => true,
        }
    }

    /// Whether the processor's next event may be this.
    pub fn may_follow(&self, processors: usize, processor: usize, kind: Kind) -> bool
        requires { IsKeptWaitingPossible self.now processors processor kind }
        ensures { (s : TheSizes) (j : List AnEvent) → s.processors ≡ processors
            → WellFormedKindInRange s kind → TellsKeptWaiting j self.now
            → IsTrue result ↔ WellFormedNext s j (event processor kind) }
    {
        match self.of(processor) {
            Some(awaited) => is_same_waiting_kind(awaited, kind)
                && self.has_come(processors, processor, kind),
            None => self.may_begin(processor, kind),
        }
    }

    /// Takes note of the processor's next event. The only error is running out of memory, after which this may tell
    /// no events.
    pub fn note(&mut self, processor: usize, kind: Kind) -> Result<(), AllocError>
        requires { MayFollowKeptWaiting self.old processor kind }
        ensures { OnOk result ((s : TheSizes) (j : List AnEvent) → TellsKeptWaiting j self.old
            → WellFormedNext s j (event processor kind) → processor < most_processors
            → TellsKeptWaiting (did j processor kind) self.new) }
    {
        queue_waiting(&mut self.asked, processor, kind)?;
        count_waiting_arrival(&mut self.arrivals, processor, kind);
        hold_waiting_lock(&mut self.holders, processor, kind);
        set(&mut self.flags, kind);
        self.waits[processor] = WaitCode::after(kind);
        Ok(())
    }
}
