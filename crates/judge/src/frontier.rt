//! What a history so far says of what may come next.
ghost use Rattle.std.specs.Prelude.{◌≡◌, ◌↔◌, ℕ, ◌+◌, ◌-◌, ◌<◌, ◌≤◌, ◌^◌, ◌==◌, ◌&&◌, [], ◌∷◌, ◌++◌, Bool, IsTrue};
ghost use Rattle.std.specs.Prelude.{IfOk, List, MatchOption, cond, false, length, slice_index, slice_index_or, vec_len};
ghost use Rattle.journal.specs.declared.event.Event.{Event};
ghost use Rattle.journal.specs.declared.event.Kind.{Kind as AKind};
ghost use Rattle.journal.specs.declared.event.Kind.TheVariants.{Acquire, Ask, Await, Depart};
ghost use Rattle.journal.specs.Sizes.{Sizes as TheSizes};
ghost use Rattle.journal.specs.WellFormed.{WellFormedKindInRange};
ghost use Rattle.journal.specs.Prelude.{Holds, event, event_arrives, event_departs};
ghost use Rattle.judge.specs.Prelude.{AreStreamedSizes, FrontTellsFirstAsk, WhyIsInTurn, IsWhyVerdict, LaxMayFollow, FrontTellsNobodyAsks, FrontTellsHistory};
ghost use Rattle.judge.specs.Prelude.{WhyMayTake, WhyWaitsFor, front_tells_holder_after, front_tells_flag_set_after, judged_sizes_of, most_judged_events};

use crate::kinds::{is_lax_without_ask, is_same_kind, kind_awaited_after};
use crate::sizes::Sizes;
use crate::why::Why;
use journal::{Event, Kind};
use std::alloc::{AllocError, Global};

/// What a processor did last, and where.
#[derive(Clone, Copy)]
pub(crate) struct LastEvent {
    pub(crate) place: usize,
    pub(crate) kind: Kind,
}

/// A history, taken an event at a time, of which it tells whether an event may come next.
#[derive(Drop)]
pub struct Frontier {
    pub(crate) sizes: Sizes,
    /// How many events there are.
    pub(crate) place: usize,
    /// The last event of each processor.
    pub(crate) last: Vec<Option<LastEvent>>,
    /// How often each processor has arrived.
    pub(crate) arrivals: Vec<u32>,
    /// How often it has departed.
    pub(crate) departures: Vec<u32>,
    /// Who holds each lock.
    pub(crate) holders: Vec<Option<usize>>,
    /// Which flags are set.
    pub(crate) flags: Vec<bool>,
}

/// The place of a processor's last event, if that asks for the lock.
fn frontier_ask_at(last: Option<LastEvent>, lock: usize) -> Option<usize>
    ensures { (i : ℕ) → (result ≡ Some i) ↔ (last ≡ Some (record { place = i; kind = Ask lock })) }
{
    let last = last?;
    if last.kind == Kind::Ask(lock) {
        Some(last.place)
    } else {
        None
    }
}

/// Counts the event where it is an arrival or a departure.
fn update_frontier_episodes(arrivals: &mut Vec<u32>, departures: &mut Vec<u32>, event: Event)
    requires arrived { event.processor < vec_len arrivals.old }
    requires departed { event.processor < vec_len departures.old }
    requires arrivals_room { slice_index arrivals.old.items event.processor < 2 ^ 32 - 1 }
    requires departures_room { slice_index departures.old.items event.processor < 2 ^ 32 - 1 }
    ensures long_arrivals { vec_len arrivals.new ≡ vec_len arrivals.old }
    ensures long_departures { vec_len departures.new ≡ vec_len departures.old }
    ensures arrivals { (q : ℕ) → slice_index arrivals.new.items q
        ≡ slice_index arrivals.old.items q + cond ((event.processor == q) && event_arrives event.kind) 1 0 }
    ensures departures { (q : ℕ) → slice_index departures.new.items q
        ≡ slice_index departures.old.items q + cond ((event.processor == q) && event_departs event.kind) 1 0 }
{
    match event.kind {
        Kind::Arrive => arrivals[event.processor] += 1,
        Kind::Depart => departures[event.processor] += 1,
        _ => {}
    }
}

/// Takes note of who acquires or releases a lock.
fn update_frontier_holders(holders: &mut [Option<usize>], event: Event)
    requires { (s : TheSizes) × (s.locks ≤ length holders.old) × WellFormedKindInRange s event.kind }
    ensures long { length holders.new ≡ length holders.old }
    ensures holders { (l : ℕ) → slice_index_or holders.new l None
        ≡ front_tells_holder_after (slice_index_or holders.old l None) l event.processor event.kind }
{
    match event.kind {
        Kind::Acquire(lock) => holders[lock] = Some(event.processor),
        Kind::Release(lock) => holders[lock] = None,
        _ => {}
    }
}

/// Takes note of a flag that is set.
fn set(flags: &mut [bool], kind: Kind)
    requires { (s : TheSizes) × (s.flags ≤ length flags.old) × WellFormedKindInRange s kind }
    ensures long { length flags.new ≡ length flags.old }
    ensures flags { (f : ℕ) → slice_index_or flags.new f false
        ≡ front_tells_flag_set_after (slice_index_or flags.old f false) f kind }
{
    if let Kind::Set(flag) = kind {
        flags[flag] = true;
    }
}

impl Frontier {
    /// Before the first event of a history of these sizes. It takes 16 bytes a lock and a byte a flag. The only error is
    /// running out of memory.
    pub fn new(alloc: Global, sizes: Sizes) -> Result<Frontier, AllocError>
        requires { AreStreamedSizes (judged_sizes_of sizes) }
        ensures tells { IfOk result (FrontTellsHistory []) }
        ensures sizes { IfOk result (λ x. x.sizes ≡ sizes) }
    {
        Ok(Frontier {
            sizes,
            place: 0,
            last: vec![in alloc; None; sizes.processors]?,
            arrivals: vec![in alloc; 0; sizes.processors]?,
            departures: vec![in alloc; 0; sizes.processors]?,
            holders: vec![in alloc; None; sizes.locks]?,
            flags: vec![in alloc; false; sizes.flags]?,
        })
    }

    /// How many events there are.
    pub fn count(&self) -> usize
        ensures { result ≡ self.now.place }
    {
        self.place
    }

    /// What the processor waits for.
    fn awaited(&self, processor: usize) -> Option<Kind>
        requires { processor < vec_len self.now.last }
        ensures { (j : List Event) → FrontTellsHistory j self.now → (k : AKind)
            → (result ≡ Some k) ↔ WhyWaitsFor j processor k }
    {
        let last = self.last[processor]?;
        kind_awaited_after(last.kind)
    }

    /// Of the open asks of the lock, whose is the first one, and its place.
    fn first_ask(&self, lock: usize) -> Option<(usize, usize)>
        requires { (j : List Event) × FrontTellsHistory j self.now }
        ensures { (j : List Event) → FrontTellsHistory j self.now
            → MatchOption result (FrontTellsNobodyAsks j lock) (λ x. FrontTellsFirstAsk j lock x.0 x.1) }
    {
        let mut first = None;
        let mut limit = self.place;
        for processor in 0..self.sizes.processors {
            if let Some(place) = frontier_ask_at(self.last[processor], lock) {
                if place < limit {
                    limit = place;
                    first = Some((processor, place));
                }
            }
        }
        first
    }

    /// Why the lock is not granted to the processor, whose ask of it is open, or doesn't have to be.
    fn not_granted(&self, processor: usize, lock: usize, lax: bool) -> Option<Why>
        requires lock { lock < vec_len self.now.holders }
        requires tells { (j : List Event) × FrontTellsHistory j self.now }
        ensures { (j : List Event) → FrontTellsHistory j self.now
            → WhyIsInTurn (judged_sizes_of self.now.sizes) j (event processor (Acquire lock))
            → WhyMayTake lax j processor (Acquire lock)
            → IsWhyVerdict lax (judged_sizes_of self.now.sizes) j (event processor (Acquire lock)) result }
    {
        if let Some(holder) = self.holders[lock] {
            return Some(Why::HeldBy(holder));
        }
        if lax {
            return None;
        }
        let (first, place) = self.first_ask(lock)?;
        if first == processor {
            None
        } else {
            Some(Why::AskedEarlier(first, place))
        }
    }

    /// Why the processor, which has arrived, does not depart.
    fn not_departed(&self, processor: usize) -> Option<Why>
        requires processor { processor < self.now.sizes.processors }
        requires tells { (j : List Event) × FrontTellsHistory j self.now }
        ensures { (j : List Event) → FrontTellsHistory j self.now
            → WhyIsInTurn (judged_sizes_of self.now.sizes) j (event processor Depart)
            → WhyWaitsFor j processor Depart → (lax : Bool)
            → IsWhyVerdict lax (judged_sizes_of self.now.sizes) j (event processor Depart) result }
    {
        let departures = self.departures[processor];
        for other in 0..self.sizes.processors {
            if self.arrivals[other] <= departures {
                return Some(Why::NotArrived(other));
            }
        }
        None
    }

    /// Why the event, which its processor waits for or doesn't have to, may not come next.
    fn not_let_on(&self, event: Event, lax: bool) -> Option<Why>
        requires { (j : List Event) × FrontTellsHistory j self.now × WhyIsInTurn (judged_sizes_of self.now.sizes) j event }
        ensures { (j : List Event) → FrontTellsHistory j self.now → WhyIsInTurn (judged_sizes_of self.now.sizes) j event
            → WhyMayTake lax j event.processor event.kind
            → IsWhyVerdict lax (judged_sizes_of self.now.sizes) j event result }
    {
        match event.kind {
            Kind::Acquire(lock) => self.not_granted(event.processor, lock, lax),
            Kind::Depart => self.not_departed(event.processor),
            Kind::Await(flag) => {
                if self.flags[flag] {
                    None
                } else {
                    Some(Why::NotSet)
                }
            }
            _ => None,
        }
    }

    /// Why the event may not come next, whose processor waits for nothing, and which it has to wait for if it takes.
    fn not_free(&self, event: Event) -> Option<Why>
        requires { (j : List Event) × FrontTellsHistory j self.now × WhyIsInTurn (judged_sizes_of self.now.sizes) j event }
        ensures { (j : List Event) → FrontTellsHistory j self.now → WhyIsInTurn (judged_sizes_of self.now.sizes) j event
            → (lax : Bool) → ¬ WhyMayTake lax j event.processor event.kind
            → IsWhyVerdict lax (judged_sizes_of self.now.sizes) j event result }
    {
        match event.kind {
            Kind::Acquire(_) | Kind::Depart | Kind::Await(_) => Some(Why::NotAsked),
            Kind::Ask(lock) => {
                if self.holds(event.processor, lock) {
                    Some(Why::AsksWhatItHolds)
                } else {
                    None
                }
            }
            Kind::Release(lock) => {
                if self.holds(event.processor, lock) {
                    None
                } else {
                    Some(Why::NotHeld)
                }
            }
            _ => None,
        }
    }

    /// Whether the processor holds the lock.
    fn holds(&self, processor: usize, lock: usize) -> bool
        requires { lock < vec_len self.now.holders }
        ensures { (j : List Event) → FrontTellsHistory j self.now → IsTrue result ↔ Holds j processor lock }
    {
        match self.holders[lock] {
            Some(holder) => holder == processor,
            None => false,
        }
    }

    /// Why the event may not come next; None where it may. `lax` leaves out that a lock's asks are granted in their
    /// order, and that an acquire or an await comes after its ask or watch.
    pub fn may_follow(&self, event: Event, lax: bool) -> Option<Why>
        requires { (j : List Event) × FrontTellsHistory j self.now }
        ensures { (j : List Event) → FrontTellsHistory j self.now
            → IsWhyVerdict lax (judged_sizes_of self.now.sizes) j event result }
    {
        if event.processor >= self.sizes.processors {
            return Some(Why::NoSuchProcessor);
        }
        if !self.sizes.have(event.kind) {
            return Some(Why::OutOfRange);
        }
        match self.awaited(event.processor) {
            Some(kind) => {
                if is_same_kind(event.kind, kind) {
                    self.not_let_on(event, lax)
                } else {
                    Some(Why::Waits(kind))
                }
            }
            None => {
                if lax && is_lax_without_ask(event.kind) {
                    self.not_let_on(event, true)
                } else {
                    self.not_free(event)
                }
            }
        }
    }

    /// Takes note of the event, which may come next.
    pub fn note(&mut self, event: Event)
        requires few { self.old.place < most_judged_events }
        requires may_follow { (j : List Event) × FrontTellsHistory j self.old
            × LaxMayFollow (judged_sizes_of self.old.sizes) j event }
        ensures tells { (j : List Event) → FrontTellsHistory j self.old
            → LaxMayFollow (judged_sizes_of self.old.sizes) j event → FrontTellsHistory (j ++ event ∷ []) self.new }
        ensures sizes { self.new.sizes ≡ self.old.sizes }
    {
        let place = self.place;
        let kind = event.kind;
        update_frontier_episodes(&mut self.arrivals, &mut self.departures, event);
        update_frontier_holders(&mut self.holders, event);
        set(&mut self.flags, kind);
        self.last[event.processor] = Some(LastEvent { place, kind });
        self.place += 1;
    }
}
