//! Which of the next events are followed: one that commutes with all that other processors may do, if there is one; else the asks
//! of a persistent set; else those for one lock, if nobody else will ask for it; else all.
ghost use Rattle.std.specs.Prelude.{◌≡◌, ◌↔◌, ℕ, ◌<◌, ◌≤◌, IfSome, ⊤, IsTrue, List, MatchOption, None, Some, [], false, length};
ghost use Rattle.std.specs.Prelude.{slice_index, slice_index_or};
ghost use Rattle.std.specs.Global.{Vec as AVec};
ghost use Rattle.base.specs.Prelude.{most_processors};
ghost use Rattle.journal.specs.declared.event.Kind.{Kind as AKind};
ghost use Rattle.journal.specs.declared.event.Kind.TheVariants.{Ask};
ghost use Rattle.explore.specs.declared.prefixes.script_call.ScriptCall.{ScriptCall as AStep};
ghost use Rattle.journal.specs.declared.event.Event.{Event as AnEvent};
ghost use Rattle.lrc_script.specs.Prelude.{Plan};
ghost use Rattle.explore.specs.FreeChoice.{IsFreeChoiceGiven, AreFreeChoiceAmongNexts, IsFreeChoiceAskedByAll, IsFreeChoice, IsFreeForChoiceByWords};

use crate::prefixes::ScriptCall;
use crate::search::persistent_set::{
    asked_lock, free_asks_of, is_hopeless, persistent_set_of_fewest_asks,
};
use crate::state::flat_state::FlatState;
use crate::text::facts::{CallEnds, TextFacts};
use base::{MOST_LOCKS, MOST_PROCESSORS};
use journal::Kind;

/// Whether the word is said to be guarded.
fn is_free_choice_word_guarded(guarded: &[bool], address: usize) -> bool
    ensures { IsTrue result → IsTrue (slice_index_or guarded.now address false) }
{
    address < guarded.len() && guarded[address]
}

/// Whether the event commutes with all that other processors may do: it is no ask, and accesses no word but one that is said
/// to be guarded.
pub fn is_free_choice(guarded: &[bool], kind: Kind) -> bool
    ensures { IsTrue result → IsFreeForChoiceByWords guarded.now kind }
{
    match kind {
        Kind::Ask(_) => false,
        Kind::Load(address, _) | Kind::Store(address, _) => is_free_choice_word_guarded(
            guarded, address,
        ),
        _ => true,
    }
}

/// This event alone.
pub fn free_choice_alone(processor: usize, kind: Kind) -> [Option<Kind>; MOST_PROCESSORS]
    requires { processor < most_processors }
    ensures own { slice_index_or result processor None ≡ Some kind }
    ensures only { (p : ℕ) (k : AKind) → slice_index_or result p None ≡ Some k → (p ≡ processor) × (k ≡ kind) }
    ensures long { length result ≡ most_processors }
{
    let mut nexts = [None; MOST_PROCESSORS];
    nexts[processor] = Some(kind);
    nexts
}

/// Whether the event is an ask for this lock.
fn free_choice_asks_for(next: Option<Kind>, lock: usize) -> bool
    ensures { IsTrue result ↔ (next ≡ Some (Ask lock)) }
{
    match next {
        Some(Kind::Ask(asked)) => asked == lock,
        _ => false,
    }
}

/// The event, if it asks for this lock.
fn free_choice_only_ask(next: Option<Kind>, lock: usize) -> Option<Kind>
    ensures ask { next ≡ Some (Ask lock) → result ≡ Some (Ask lock) }
    ensures same { (k : AKind) → result ≡ Some k → next ≡ Some k }
{
    if free_choice_asks_for(next, lock) {
        next
    } else {
        None
    }
}

/// Those of the events that ask for the lock.
fn free_choice_asks_among(
    nexts: &[Option<Kind>; MOST_PROCESSORS],
    lock: usize,
) -> [Option<Kind>; MOST_PROCESSORS]
    ensures all { (p : ℕ) → slice_index_or nexts.now p None ≡ Some (Ask lock)
        → slice_index_or result p None ≡ Some (Ask lock) }
    ensures among { AreFreeChoiceAmongNexts nexts.now result }
    ensures long { length result ≡ most_processors }
{
    let mut asks = [None; MOST_PROCESSORS];
    for processor in 0..MOST_PROCESSORS {
        asks[processor] = free_choice_only_ask(nexts[processor], lock);
    }
    asks
}

/// Whether a processor asks for the lock next, or not any more: it has done so many steps, and its asks end there.
fn free_choice_asks_now(
    next: Option<Kind>,
    done: usize,
    ends: &[usize; MOST_LOCKS],
    lock: usize,
) -> bool
    ensures { IsTrue result → done < slice_index_or ends.now lock 0 → next ≡ Some (Ask lock) }
{
    lock >= MOST_LOCKS || done >= ends[lock] || free_choice_asks_for(next, lock)
}

/// Whether each processor that has yet to ask for the lock may do so next.
fn free_choice_may_all_ask(
    state: &FlatState,
    nexts: &[Option<Kind>; MOST_PROCESSORS],
    ends: &CallEnds,
    lock: usize,
) -> bool
    ensures { IsTrue result → (p : ℕ) → slice_index state.now.done p < slice_index_or (slice_index_or ends.now p []) lock 0
        → slice_index_or nexts.now p None ≡ Some (Ask lock) }
{
    for processor in 0..MOST_PROCESSORS {
        let done = state.steps_done(processor);
        if !free_choice_asks_now(nexts[processor], done, &ends[processor], lock) {
            return false;
        }
    }
    true
}

/// The first lock that somebody may ask for next, if all may that have yet to ask for it.
fn free_choice_asked_by_all(
    state: &FlatState,
    nexts: &[Option<Kind>; MOST_PROCESSORS],
    ends: &CallEnds,
) -> Option<usize>
    ensures { MatchOption result ⊤ (IsFreeChoiceAskedByAll state.now.done nexts.now ends.now) }
{
    for processor in 0..MOST_PROCESSORS {
        if let Some(Kind::Ask(lock)) = nexts[processor] {
            if free_choice_may_all_ask(state, nexts, ends, lock) {
                return Some(lock);
            }
        }
    }
    None
}

/// The first lock that somebody may ask for next.
fn free_choice_first_asked(nexts: &[Option<Kind>; MOST_PROCESSORS]) -> Option<usize>
    ensures { IfSome result (λ lock. (p : ℕ) × (slice_index_or nexts.now p None ≡ Some (Ask lock))) }
{
    for processor in 0..MOST_PROCESSORS {
        if let Some(lock) = asked_lock(nexts[processor]) {
            return Some(lock);
        }
    }
    None
}

/// The asks for the first lock that is asked for, if nobody will ever ask for a free one; else all.
fn free_choice_hopeless_or_all(
    steps: &[Vec<ScriptCall>],
    state: &FlatState,
    nexts: &[Option<Kind>; MOST_PROCESSORS],
    facts: &TextFacts,
) -> [Option<Kind>; MOST_PROCESSORS]
    requires { length steps.now ≤ most_processors }
    ensures choice { (s : Plan) (g : List AnEvent) → IsFreeChoiceGiven s steps.now facts.now state.now g
        → IsFreeChoice steps.now g nexts.now result }
    ensures among { AreFreeChoiceAmongNexts nexts.now result }
    ensures long { length result ≡ most_processors }
{
    match free_choice_first_asked(nexts) {
        Some(lock) if is_hopeless(steps, state, nexts, facts) => free_choice_asks_among(
            nexts, lock,
        ),
        _ => *nexts,
    }
}

/// Where none of these events is free, and no persistent set can be told: the asks for one lock, if all may ask for it that have yet
/// to, or if nobody will ever ask for a free one; else all.
fn free_choice_asks_or_all(
    steps: &[Vec<ScriptCall>],
    state: &FlatState,
    nexts: &[Option<Kind>; MOST_PROCESSORS],
    facts: &TextFacts,
) -> [Option<Kind>; MOST_PROCESSORS]
    requires { length steps.now ≤ most_processors }
    ensures choice { (s : Plan) (g : List AnEvent) → IsFreeChoiceGiven s steps.now facts.now state.now g
        → IsFreeChoice steps.now g nexts.now result }
    ensures among { AreFreeChoiceAmongNexts nexts.now result }
    ensures long { length result ≡ most_processors }
{
    match free_choice_asked_by_all(state, nexts, &facts.ask_ends) {
        Some(lock) => free_choice_asks_among(nexts, lock),
        None => free_choice_hopeless_or_all(steps, state, nexts, facts),
    }
}

/// Where none of these events is free: the asks of a persistent set, if one can be told; else those for one lock, or all.
fn free_choice_asks(
    steps: &[Vec<ScriptCall>],
    state: &FlatState,
    nexts: &[Option<Kind>; MOST_PROCESSORS],
    facts: &TextFacts,
) -> [Option<Kind>; MOST_PROCESSORS]
    requires { length steps.now ≤ most_processors }
    ensures choice { (s : Plan) (g : List AnEvent) → IsFreeChoiceGiven s steps.now facts.now state.now g
        → IsFreeChoice steps.now g nexts.now result }
    ensures among { AreFreeChoiceAmongNexts nexts.now result }
    ensures long { length result ≡ most_processors }
{
    match persistent_set_of_fewest_asks(steps, state, nexts, facts) {
        Some(members) => free_asks_of(state, nexts, &members, steps.len()),
        None => free_choice_asks_or_all(steps, state, nexts, facts),
    }
}

/// Which of these events are followed after the state. The first that is free, alone: swaps of events that commute lead to
/// the same states. If none is, the asks of a persistent set, since whatever comes next of them all may as well come first. Else
/// the asks for one lock, if nobody else will ask for it, or nobody will ever ask for a free one. Else all. So a search that follows
/// no others misses no race, no hang and no outcome.
pub fn free_choice(
    steps: &[Vec<ScriptCall>],
    state: &FlatState,
    nexts: &[Option<Kind>; MOST_PROCESSORS],
    facts: &TextFacts,
) -> [Option<Kind>; MOST_PROCESSORS]
    requires { length steps.now ≤ most_processors }
    ensures choice { (s : Plan) (g : List AnEvent) → IsFreeChoiceGiven s steps.now facts.now state.now g
        → IsFreeChoice steps.now g nexts.now result }
    ensures among { AreFreeChoiceAmongNexts nexts.now result }
    ensures long { length result ≡ most_processors }
{
    for processor in 0..MOST_PROCESSORS {
        if let Some(kind) = nexts[processor] {
            if is_free_choice(&facts.guarded, kind) {
                return free_choice_alone(processor, kind);
            }
        }
    }
    free_choice_asks(steps, state, nexts, facts)
}
