//! Whether the script's text shows that no lock keeps a run from its end: of the locks that a processor holds together, the
//! one that it asked for later has a lower rank, and it holds none while it waits at the barrier or for a flag.
//!
//! The ranks are those of a hierarchy of resources (Havender, Avoiding deadlock in multitasking systems, IBM Systems Journal
//! 1968), read off the text, so that they hold in every run.
ghost use Rattle.std.specs.Prelude.{◌≡◌, ◌<◌, ℕ, IsTrue, false, slice_index_or};
ghost use Rattle.base.specs.Prelude.{most_locks};
ghost use Rattle.journal.specs.declared.event.Kind.TheVariants.{Acquire};
ghost use Rattle.lrc_script.specs.Prelude.{Plan};
ghost use Rattle.explore.specs.declared.prefixes.script_call.ScriptCall.TheVariants.{Call};
ghost use Rattle.explore.specs.LockRanks.{AreRowsLockRanked, IsRowLockRanked, RankedLocksLaw, ends_unlocked_wait};
ghost use Rattle.explore.specs.Machines.{AreLawfulMachineSteps};
ghost use Rattle.explore.specs.Users.{AreUserRowsWithin, AreUserStepsWithin, IsUserStepWithin};

use crate::prefixes::ScriptCall;
use crate::text::guards::{has_any_guard, track_held_guard};
use base::MOST_LOCKS;
use journal::Kind;

/// Of each lock its rank.
type Ranks = [usize; MOST_LOCKS];

/// Of each lock, those that some processor holds when it acquires this one.
type OuterLocks = [[bool; MOST_LOCKS]; MOST_LOCKS];

/// Adds these locks to the set.
fn add_held_locks(set: &mut [bool; MOST_LOCKS], held: &[bool; MOST_LOCKS]) {
    for lock in 0..MOST_LOCKS {
        set[lock] |= held[lock];
    }
}

/// Takes note of the locks that are held, if the step acquires one.
fn note_outer_locks_at(outer: &mut OuterLocks, held: &[bool; MOST_LOCKS], step: ScriptCall)
    requires { (size : ℕ) × IsUserStepWithin size step }
{
    if let ScriptCall::Call(Kind::Acquire(lock)) = step {
        add_held_locks(&mut outer[lock], held);
    }
}

/// Takes note of the locks that are held at each step of the row that acquires one.
fn note_outer_locks(outer: &mut OuterLocks, row: &[ScriptCall])
    requires { (size : ℕ) × AreUserStepsWithin size row.now }
{
    let mut held = [false; MOST_LOCKS];
    for step in row {
        note_outer_locks_at(outer, &held, *step);
        track_held_guard(&mut held, *step);
    }
}

/// Gives each lock of the set a rank above this one.
fn raise_ranks_above(ranks: &mut Ranks, set: &[bool; MOST_LOCKS], rank: usize) {
    for lock in 0..MOST_LOCKS {
        if set[lock] && ranks[lock] <= rank {
            ranks[lock] = rank.saturating_add(1);
        }
    }
}

/// Gives the locks that are held when one is acquired a rank above that one's.
fn raise_outer_ranks(ranks: &mut Ranks, outer: &OuterLocks) {
    for lock in 0..MOST_LOCKS {
        let rank = ranks[lock];
        raise_ranks_above(ranks, &outer[lock], rank);
    }
}

/// Ranks that the locks fit, if there are such: one round for each lock that stands above others is enough.
fn ranks_by(outer: &OuterLocks) -> Ranks {
    let mut ranks = [0; MOST_LOCKS];
    for _ in 0..MOST_LOCKS {
        raise_outer_ranks(&mut ranks, outer);
    }
    ranks
}

/// Whether each of these locks has a higher rank than this one.
fn are_ranked_above(ranks: &Ranks, held: &[bool; MOST_LOCKS], lock: usize) -> bool
    requires { lock < most_locks }
    ensures { IsTrue result → (m : ℕ) → IsTrue (slice_index_or held.now m false)
        → slice_index_or ranks.now lock 0 < slice_index_or ranks.now m 0 }
{
    for other in 0..MOST_LOCKS {
        if held[other] && ranks[other] <= ranks[lock] {
            return false;
        }
    }
    true
}

/// Whether the step fits the ranks, if these locks are held before it.
fn is_step_ranked(ranks: &Ranks, held: &[bool; MOST_LOCKS], step: ScriptCall) -> bool
    requires { (size : ℕ) × IsUserStepWithin size step }
    ensures falls { IsTrue result → (l m : ℕ) → step ≡ Call (Acquire l) → IsTrue (slice_index_or held.now m false)
        → slice_index_or ranks.now l 0 < slice_index_or ranks.now m 0 }
    ensures unlocked { IsTrue result → IsTrue (ends_unlocked_wait step) → (m : ℕ) → ¬ IsTrue (slice_index_or held.now m false) }
{
    match step {
        ScriptCall::Call(Kind::Acquire(lock)) => are_ranked_above(ranks, held, lock),
        ScriptCall::Call(Kind::Depart | Kind::Await(_)) => !has_any_guard(held),
        _ => true,
    }
}

/// Whether the row of steps fits the ranks.
fn is_row_ranked(ranks: &Ranks, row: &[ScriptCall]) -> bool
    requires { (size : ℕ) × AreUserStepsWithin size row.now }
    ensures { IsTrue result → IsRowLockRanked (λ l. slice_index_or ranks.now l 0) row.now }
{
    let mut held = [false; MOST_LOCKS];
    for step in row {
        if !is_step_ranked(ranks, &held, *step) {
            return false;
        }
        track_held_guard(&mut held, *step);
    }
    !has_any_guard(&held)
}

/// Of each lock, those that are held at steps of these rows that acquire it.
fn outer_locks_of(steps: &[Vec<ScriptCall>]) -> OuterLocks
    requires { (size : ℕ) × AreUserRowsWithin size steps.now }
{
    let mut outer = [[false; MOST_LOCKS]; MOST_LOCKS];
    for row in steps {
        note_outer_locks(&mut outer, row);
    }
    outer
}

/// Whether all rows of steps fit the ranks.
fn are_rows_ranked(ranks: &Ranks, steps: &[Vec<ScriptCall>]) -> bool
    requires { (size : ℕ) × AreUserRowsWithin size steps.now }
    ensures { IsTrue result → AreRowsLockRanked (λ l. slice_index_or ranks.now l 0) steps.now }
{
    for row in steps {
        if !is_row_ranked(ranks, row) {
            return false;
        }
    }
    true
}

/// Whether there are ranks that all rows of a script's steps fit.
pub fn are_locks_ranked(steps: &[Vec<ScriptCall>]) -> bool
    requires { (s : Plan) × AreLawfulMachineSteps s steps.now }
    ensures { IsTrue result → (rank : ℕ → ℕ) × AreRowsLockRanked rank steps.now }
{
    are_rows_ranked(&ranks_by(&outer_locks_of(steps)), steps)
}

/// If the locks of a script are ranked, and one of its runs comes to its end, none gets stuck. Of the processors that wait for
/// a lock, take one whose lock has the lowest rank: nobody can hold that lock, since its holder would wait for a lock of a
/// lower rank. The barrier and flags alone stop no run where another one goes on: what they wait for stays there.
pub fn ranked_locks_law()
    ensures { RankedLocksLaw }
{}
