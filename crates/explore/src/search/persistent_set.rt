//! Persistent sets: processors of which none goes on by what others do, until one of them asks for a free lock. So their asks for
//! free locks may come first, before whatever the others do (Godefroid, Partial-order methods for the verification of concurrent
//! systems, 1996).
ghost use Rattle.std.specs.Prelude.{ℕ, ◌≡◌, ◌↔◌, ◌<◌, ◌≤◌, ◌⊎◌, IfSome, IsTrue, List, MatchOption, None, Option, Some, [], length, slice_index, slice_index_or};
ghost use Rattle.std.specs.Global.{Vec as AVec};
ghost use Rattle.base.specs.Prelude.{most_processors};
ghost use Rattle.journal.specs.declared.event.Event.{Event as AnEvent};
ghost use Rattle.journal.specs.declared.event.Kind.{Kind as AKind};
ghost use Rattle.journal.specs.declared.event.Kind.TheVariants.{Ask};
ghost use Rattle.lrc_script.specs.Prelude.{Plan};
ghost use Rattle.explore.specs.declared.prefixes.script_call.ScriptCall.{ScriptCall as AStep};
ghost use Rattle.explore.specs.FreeChoice.{AreFreeChoiceAmongNexts, HasPersistentAsks, IsFreeChoiceGiven, IsHopeless};
ghost use Rattle.explore.specs.PersistentSets.{AsksInPersistentSet, HasLateMember, HasLockHolder, IsAskSettled, IsLockFree, IsPersistentMember, IsPersistentSet, KeepsPersistentMembers, PersistentMember};
ghost use Rattle.explore.specs.KeptWaiting.{TellsKeptWaiting};
ghost use Rattle.judge.specs.Why.{WhyWaitsFor};
ghost use Rattle.journal.specs.declared.event.Kind.TheVariants.{Depart};

use crate::prefixes::ScriptCall;
use crate::state::flat_state::FlatState;
use crate::state::wait_code::WaitCode;
use crate::text::facts::{CallEnds, TextFacts};
use base::{MOST_LOCKS, MOST_PROCESSORS};
use journal::Kind;

/// Of each processor whether a set has it.
pub type PersistentMembers = [bool; MOST_PROCESSORS];

/// Adds a processor. Whether there is one of that number.
fn add_member(members: &mut PersistentMembers, processor: usize) -> bool
    ensures keeps { KeepsPersistentMembers members.old members.new }
    ensures added { IsTrue result → IsPersistentMember members.new processor }
    ensures long { length members.new ≡ length members.old }
{
    if processor >= MOST_PROCESSORS {
        return false;
    }
    members[processor] = true;
    true
}

/// Adds each processor that has yet to make the call of this number, by where such calls end. Whether the number is one.
fn add_all_yet_to_call(
    members: &mut PersistentMembers,
    state: &FlatState,
    ends: &CallEnds,
    number: usize,
) -> bool
    ensures keeps { KeepsPersistentMembers members.old members.new }
    ensures all { IsTrue result → (p : ℕ) → slice_index state.now.done p < slice_index_or (slice_index_or ends.now p []) number 0
        → IsPersistentMember members.new p }
    ensures long { length members.new ≡ length members.old }
{
    if number >= MOST_LOCKS {
        return false;
    }
    for processor in 0..MOST_PROCESSORS {
        if state.steps_done(processor) < ends[processor][number] {
            members[processor] = true;
        }
    }
    true
}

/// The first of these processors that hasn't arrived at the barrier as often as this one.
fn late_processor(
    among: &PersistentMembers,
    state: &FlatState,
    processors: usize,
    processor: usize,
) -> Option<usize>
    requires processors { processors ≤ most_processors }
    requires processor { processor < most_processors }
    ensures { IfSome result (λ late. (late < processors)
        × (slice_index state.now.waiting.arrivals late < slice_index state.now.waiting.arrivals processor)) }
{
    for other in 0..processors {
        if among[other] && state.waiting.is_behind(other, processor) {
            return Some(other);
        }
    }
    None
}

/// Adds who lets a processor go on that asks for this lock: its holder, or if it is free all that have yet to ask for it. Whether
/// that was done.
fn settle_ask(
    members: &mut PersistentMembers,
    state: &FlatState,
    facts: &TextFacts,
    lock: usize,
) -> bool
    ensures keeps { KeepsPersistentMembers members.old members.new }
    ensures settled { IsTrue result → (s : Plan) (rows : List (AVec AStep)) (g : List AnEvent)
        → IsFreeChoiceGiven s rows facts.now state.now g → IsAskSettled rows g members.new lock }
    ensures long { length members.new ≡ length members.old }
{
    match state.waiting.holder(lock) {
        Some(holder) => add_member(members, holder),
        None => add_all_yet_to_call(members, state, &facts.ask_ends, lock),
    }
}

/// Adds who holds the lock. Whether somebody does.
fn settle_lock(members: &mut PersistentMembers, state: &FlatState, lock: usize) -> bool
    ensures keeps { KeepsPersistentMembers members.old members.new }
    ensures settled { IsTrue result → (g : List AnEvent) → TellsKeptWaiting g state.now.waiting → HasLockHolder g members.new lock }
    ensures long { length members.new ≡ length members.old }
{
    let Some(holder) = state.waiting.holder(lock) else {
        return false;
    };
    add_member(members, holder)
}

/// Adds one that hasn't arrived at the barrier where the processor waits, if no member is late. Whether there is one.
fn settle_barrier(
    members: &mut PersistentMembers,
    steps: &[Vec<ScriptCall>],
    state: &FlatState,
    processor: usize,
) -> bool
    requires processors { length steps.now ≤ most_processors }
    requires processor { processor < most_processors }
    ensures keeps { KeepsPersistentMembers members.old members.new }
    ensures settled { IsTrue result → (g : List AnEvent) → TellsKeptWaiting g state.now.waiting → WhyWaitsFor g processor Depart
        → HasLateMember steps.now g members.new processor }
    ensures long { length members.new ≡ length members.old }
{
    let processors = steps.len();
    let everybody = [true; MOST_PROCESSORS];
    let late = match late_processor(members, state, processors, processor) {
        Some(late) => Some(late),
        None => late_processor(&everybody, state, processors, processor),
    };
    match late {
        Some(late) => add_member(members, late),
        None => false,
    }
}

/// Adds who lets the processor go on, which may do nothing next. Whether that was done.
fn settle_wait(
    members: &mut PersistentMembers,
    steps: &[Vec<ScriptCall>],
    state: &FlatState,
    facts: &TextFacts,
    processor: usize,
) -> bool
    requires processors { length steps.now ≤ most_processors }
    requires processor { processor < most_processors }
    ensures keeps { KeepsPersistentMembers members.old members.new }
    ensures settled { IsTrue result → (s : Plan) (g : List AnEvent) (nexts : List (Option AKind))
        → IsFreeChoiceGiven s steps.now facts.now state.now g → PersistentMember steps.now g nexts members.new processor }
    ensures long { length members.new ≡ length members.old }
{
    match state.waiting.wait(processor) {
        Some(WaitCode::Lock(lock)) => settle_lock(members, state, lock as usize),
        Some(WaitCode::Barrier) => settle_barrier(members, steps, state, processor),
        Some(WaitCode::Flag(flag)) => {
            !state.waiting.is_set(flag as usize)
                && add_all_yet_to_call(members, state, &facts.set_ends, flag as usize)
        }
        None => processor < steps.len() && steps[processor].len() <= state.steps_done(processor),
    }
}

/// The lock, if the event is an ask.
pub fn asked_lock(next: Option<Kind>) -> Option<usize>
    ensures { (lock : ℕ) → (result ≡ Some lock) ↔ (next ≡ Some (Ask lock)) }
{
    match next {
        Some(Kind::Ask(lock)) => Some(lock),
        _ => None,
    }
}

/// Adds who lets the processor go on, which may do this next. Whether that was done: not if it accesses a word that isn't guarded.
fn settle(
    members: &mut PersistentMembers,
    steps: &[Vec<ScriptCall>],
    state: &FlatState,
    facts: &TextFacts,
    processor: usize,
    next: Option<Kind>,
) -> bool
    requires processors { length steps.now ≤ most_processors }
    requires processor { processor < most_processors }
    ensures keeps { KeepsPersistentMembers members.old members.new }
    ensures settled { IsTrue result → (s : Plan) (g : List AnEvent) (nexts : List (Option AKind)) → slice_index_or nexts processor None ≡ next
        → IsFreeChoiceGiven s steps.now facts.now state.now g → PersistentMember steps.now g nexts members.new processor }
    ensures long { length members.new ≡ length members.old }
{
    match asked_lock(next) {
        Some(lock) => settle_ask(members, state, facts, lock),
        None => next.is_none() && settle_wait(members, steps, state, facts, processor),
    }
}

/// The first of so many processors that is a member and isn't settled.
fn first_unsettled(
    members: &PersistentMembers,
    settled: &PersistentMembers,
    processors: usize,
) -> Option<usize>
    requires { processors ≤ most_processors }
    ensures { MatchOption result ((p : ℕ) → p < processors → IsPersistentMember members.now p → IsPersistentMember settled.now p)
        (λ p. p < processors) }
{
    for processor in 0..processors {
        if members[processor] && !settled[processor] {
            return Some(processor);
        }
    }
    None
}

/// A persistent set that has the processor, with as few others as can be told; None if none can.
fn persistent_set_of(
    steps: &[Vec<ScriptCall>],
    state: &FlatState,
    nexts: &[Option<Kind>; MOST_PROCESSORS],
    facts: &TextFacts,
    processor: usize,
) -> Option<PersistentMembers>
    requires processors { length steps.now ≤ most_processors }
    requires processor { processor < most_processors }
    ensures member { IfSome result (λ members. IsPersistentMember members processor) }
    ensures set { IfSome result (λ members. (s : Plan) (g : List AnEvent) → IsFreeChoiceGiven s steps.now facts.now state.now g
        → IsPersistentSet steps.now g nexts.now members) }
{
    let mut members = [false; MOST_PROCESSORS];
    let mut settled = [false; MOST_PROCESSORS];
    members[processor] = true;
    for _ in 0..MOST_PROCESSORS + 1 {
        let Some(open) = first_unsettled(&members, &settled, steps.len()) else {
            return Some(members);
        };
        if !settle(&mut members, steps, state, facts, open, nexts[open]) {
            return None;
        }
        settled[open] = true;
    }
    None
}

/// The lock, if the event is an ask for one that is free.
fn free_lock_asked(state: &FlatState, next: Option<Kind>) -> Option<usize>
    ensures { (g : List AnEvent) → TellsKeptWaiting g state.now.waiting → (lock : ℕ) → (result ≡ Some lock) ↔ ((next ≡ Some (Ask lock)) × IsLockFree g lock) }
{
    let lock = asked_lock(next)?;
    match state.waiting.holder(lock) {
        Some(_) => None,
        None => Some(lock),
    }
}

/// The event, if a member may ask for a free lock by it.
fn free_ask_of(state: &FlatState, next: Option<Kind>, is_member: bool) -> Option<Kind>
    ensures same { (k : AKind) → result ≡ Some k → next ≡ Some k }
    ensures ask { (g : List AnEvent) → TellsKeptWaiting g state.now.waiting → (lock : ℕ) → IsTrue is_member → next ≡ Some (Ask lock)
        → IsLockFree g lock → result ≡ Some (Ask lock) }
{
    if is_member && free_lock_asked(state, next).is_some() {
        next
    } else {
        None
    }
}

/// The asks for free locks of the members among so many processors.
pub fn free_asks_of(
    state: &FlatState,
    nexts: &[Option<Kind>; MOST_PROCESSORS],
    members: &PersistentMembers,
    processors: usize,
) -> [Option<Kind>; MOST_PROCESSORS]
    requires { processors ≤ most_processors }
    ensures all { (g : List AnEvent) (p lock : ℕ) → p < processors → TellsKeptWaiting g state.now.waiting → AsksInPersistentSet g nexts.now members.now p lock
        → slice_index_or result p None ≡ Some (Ask lock) }
    ensures among { AreFreeChoiceAmongNexts nexts.now result }
    ensures long { length result ≡ most_processors }
{
    let mut asks = [None; MOST_PROCESSORS];
    for processor in 0..processors {
        asks[processor] = free_ask_of(state, nexts[processor], members[processor]);
    }
    asks
}

/// A persistent set that has the processor, if it asks for a free lock next and there is such a set.
fn persistent_set_of_asker(
    steps: &[Vec<ScriptCall>],
    state: &FlatState,
    nexts: &[Option<Kind>; MOST_PROCESSORS],
    facts: &TextFacts,
    processor: usize,
) -> Option<PersistentMembers>
    requires processors { length steps.now ≤ most_processors }
    requires processor { processor < most_processors }
    ensures { IfSome result (λ members. (s : Plan) (g : List AnEvent) → IsFreeChoiceGiven s steps.now facts.now state.now g
        → HasPersistentAsks steps.now g nexts.now members) }
{
    free_lock_asked(state, nexts[processor])?;
    persistent_set_of(steps, state, nexts, facts, processor)
}

/// How many of so many processors are members that may ask for a free lock next.
fn count_free_asks(
    state: &FlatState,
    nexts: &[Option<Kind>; MOST_PROCESSORS],
    members: &PersistentMembers,
    processors: usize,
) -> usize
    requires { processors ≤ most_processors }
{
    (0..processors)
        .filter(|processor| {
            members[*processor] && free_lock_asked(state, nexts[*processor]).is_some()
        })
        .count()
}

/// Marks the lock. Whether there is such a lock, which wasn't marked before.
fn mark(marks: &mut [bool; MOST_LOCKS], lock: usize) -> bool {
    if lock >= MOST_LOCKS || marks[lock] {
        return false;
    }
    marks[lock] = true;
    true
}

/// A persistent set with asks for free locks, one that has the fewest; None if no set can be told. All who ask for one lock are in
/// the same sets, so each lock is tried once.
pub fn persistent_set_of_fewest_asks(
    steps: &[Vec<ScriptCall>],
    state: &FlatState,
    nexts: &[Option<Kind>; MOST_PROCESSORS],
    facts: &TextFacts,
) -> Option<PersistentMembers>
    requires processors { length steps.now ≤ most_processors }
    ensures { IfSome result (λ members. (s : Plan) (g : List AnEvent) → IsFreeChoiceGiven s steps.now facts.now state.now g
        → HasPersistentAsks steps.now g nexts.now members) }
{
    let mut best = None;
    let mut fewest = MOST_PROCESSORS + 1;
    let mut tried = [false; MOST_LOCKS];
    for processor in 0..steps.len() {
        if let Some(lock) = asked_lock(nexts[processor])
            && mark(&mut tried, lock)
            && let Some(members) = persistent_set_of_asker(steps, state, nexts, facts, processor)
        {
            let count = count_free_asks(state, nexts, &members, steps.len());
            if count == 1 {
                return Some(members);
            }
            if count < fewest {
                fewest = count;
                best = Some(members);
            }
        }
    }
    best
}

/// Whether nobody will ever ask for a free lock: all processors are in a persistent set, and none of them may do so next.
pub fn is_hopeless(
    steps: &[Vec<ScriptCall>],
    state: &FlatState,
    nexts: &[Option<Kind>; MOST_PROCESSORS],
    facts: &TextFacts,
) -> bool
    requires processors { length steps.now ≤ most_processors }
    ensures { IsTrue result → (s : Plan) (g : List AnEvent) → IsFreeChoiceGiven s steps.now facts.now state.now g
        → IsHopeless steps.now g nexts.now }
{
    let mut members = [true; MOST_PROCESSORS];
    for processor in 0..steps.len() {
        let next = nexts[processor];
        if free_lock_asked(state, next).is_some()
            || !settle(&mut members, steps, state, facts, processor, next)
        {
            return false;
        }
    }
    true
}
