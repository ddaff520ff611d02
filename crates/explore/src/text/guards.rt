//! Which words the script's text shows to be guarded: accesses of them that conflict are apart by a barrier, or made under
//! one lock. Whatever the order of events, they don't race.
//!
//! Where a script has flags, it is also enough that such accesses come one behind the other in every run: the later one behind
//! an await of a flag that is set behind the earlier one only (module `walk`).
//!
//! It is the lockset discipline of Savage, Burrows, Nelson, Sobalvarro and Anderson (Eraser, TOCS 1997), for each phase
//! between two barriers by itself, and of the text, so that it holds of every run.
ghost use Rattle.std.specs.Prelude.{◌≡◌, ◌≢◌, ◌↔◌, ℕ, ◌+◌, ◌<◌, ◌≤◌, ◌^◌, ◌⊎◌, ◌&&◌, ◌||◌, ◌==◌, not, Bool, IsTrue, List, None, Some};
ghost use Rattle.std.specs.Prelude.{IfOk, MatchOption, OnOk, cond, false, length, map, slice_get, slice_index_or, vec_len};
ghost use Rattle.std.specs.BTreeMap.{get};
ghost use Rattle.std.specs.Ordering.{nat_cmp};
ghost use Rattle.lrc_script.specs.Lawful.{plan_addresses};
ghost use Rattle.lrc_script.specs.Prelude.{plan_of};
ghost use Rattle.explore.specs.declared.text.guards.GuardedUsers.{GuardedUsers as TheUsers};
ghost use Rattle.explore.specs.declared.text.guards.GuardedWordUse.{GuardedWordUse as AWordUse};
ghost use Rattle.explore.specs.TextGuards.{AreGuardedByText, GuardedTextLaw, text_guard_step_departs, text_guard_held_after_step, text_guarded_step_address, text_guarded_step_stores};
ghost use Rattle.explore.specs.Machines.{AreLawfulMachineSteps};
ghost use Rattle.explore.specs.Users.{AreStepUsersNoted, AreUserRowsNoted, AreUserRowsWithin, UsersAreAllSound, AreUserStepsWithin, HasUsersNoted, UsersAreClean, IsUser};
ghost use Rattle.explore.specs.Users.{AreUserRowsFew, HasUser, HasUserAt, IsUserStepWithin, UsersAreKept};

use crate::prefixes::ScriptCall;
use crate::text::walk::words_guarded_by_walk;
use base::MOST_LOCKS;
use journal::Kind;
use lrc_script::script::Script;
use std::alloc::{AllocError, Global};
use std::collections::BTreeMap;

/// Who accesses a word in one phase, and how.
#[derive(Clone, Copy)]
pub struct GuardedUsers {
    /// One of them.
    processor: usize,
    /// Whether there are others.
    are_several: bool,
    /// Whether one of them stores.
    stores: bool,
    /// The locks that are held at each access.
    locks: [bool; MOST_LOCKS],
}

/// Who accesses a word in each phase.
#[derive(Drop)]
pub struct GuardedWordUse {
    phases: BTreeMap<usize, GuardedUsers>,
    /// Whether in each phase nobody else accesses it, nobody stores, or a lock is common to all.
    is_guarded: bool,
}

/// The locks that are in both sets.
fn common_guards(first: &[bool; MOST_LOCKS], second: &[bool; MOST_LOCKS]) -> [bool; MOST_LOCKS]
    ensures { (l : ℕ) → IsTrue (slice_index_or result l false)
        → IsTrue (slice_index_or first.now l false) × IsTrue (slice_index_or second.now l false) }
{
    let mut both = [false; MOST_LOCKS];
    for lock in 0..32 {
        both[lock] = first[lock] & second[lock];
    }
    both
}

/// Whether there is a lock in the set.
pub(crate) fn has_any_guard(locks: &[bool; MOST_LOCKS]) -> bool
    ensures { IsTrue result ↔ ((l : ℕ) × IsTrue (slice_index_or locks.now l false)) }
{
    for lock in 0..32 {
        if locks[lock] {
            return true;
        }
    }
    false
}

impl GuardedUsers {
    /// These users and those.
    fn join(self, other: GuardedUsers) -> GuardedUsers
        ensures { (p : ℕ) (store : Bool) (held : ℕ → Bool) → IsUser self p store held ⊎ IsUser other p store held
            → IsUser result p store held }
    {
        GuardedUsers {
            processor: self.processor,
            are_several: self.are_several | other.are_several | (self.processor != other.processor),
            stores: self.stores | other.stores,
            locks: common_guards(&self.locks, &other.locks),
        }
    }

    /// Whether it is one user alone, or nobody stores, or a lock is common to all.
    fn are_clean(&self) -> bool
        ensures { IsTrue result → UsersAreClean self.now }
    {
        !self.are_several || !self.stores || has_any_guard(&self.locks)
    }
}

impl GuardedWordUse {
    /// Nobody's.
    fn new(alloc: Global) -> GuardedWordUse
        ensures { (phase : ℕ) → get nat_cmp result.phases phase ≡ None }
    {
        GuardedWordUse {
            phases: BTreeMap::new(alloc),
            is_guarded: true,
        }
    }

    /// The users in this phase, and these.
    fn joined(&self, phase: usize, user: GuardedUsers) -> GuardedUsers
        ensures old { (u : TheUsers) → get nat_cmp self.now.phases phase ≡ Some u → (p : ℕ) (store : Bool) (held : ℕ → Bool)
            → IsUser u p store held → IsUser result p store held }
        ensures new { (p : ℕ) (store : Bool) (held : ℕ → Bool) → IsUser user p store held
            → IsUser result p store held }
    {
        match self.phases.get(&phase).copied() {
            Some(users) => users.join(user),
            None => user,
        }
    }

    /// Takes note of users in this phase. The only error is running out of memory, after which this may be of no use.
    fn note(&mut self, phase: usize, user: GuardedUsers) -> Result<(), AllocError>
        ensures { OnOk result (HasUsersNoted self.old self.new phase user) }
    {
        let users = self.joined(phase, user);
        self.is_guarded &= users.are_clean();
        self.phases.insert(phase, users)?;
        Ok(())
    }
}

/// The address that a step accesses.
pub(crate) fn guarded_address_of(step: ScriptCall) -> Option<usize>
    ensures { result ≡ text_guarded_step_address step }
{
    match step {
        ScriptCall::Call(Kind::Load(address, _) | Kind::Store(address, _)) => Some(address),
        ScriptCall::Call(_) => None,
        ScriptCall::Adds(address, _) => Some(address),
    }
}

/// Whether it stores.
pub(crate) fn guarded_step_stores(step: ScriptCall) -> bool
    ensures { result ≡ text_guarded_step_stores step }
{
    matches!(
        step,
        ScriptCall::Call(Kind::Store(_, _)) | ScriptCall::Adds(_, _)
    )
}

/// Whether it departs from the barrier.
fn guard_step_departs(step: ScriptCall) -> bool
    ensures { result ≡ text_guard_step_departs step }
{
    matches!(step, ScriptCall::Call(Kind::Depart))
}

/// Takes note of the lock that the step takes or gives up.
pub(crate) fn track_held_guard(held: &mut [bool; MOST_LOCKS], step: ScriptCall)
    requires { (size : ℕ) × IsUserStepWithin size step }
    ensures held { (l : ℕ) → slice_index_or held.new l false
        ≡ text_guard_held_after_step l (slice_index_or held.old l false) step }
    ensures long { length held.new ≡ length held.old }
{
    match step {
        ScriptCall::Call(Kind::Acquire(lock)) => held[lock] = true,
        ScriptCall::Call(Kind::Release(lock)) => held[lock] = false,
        _ => {}
    }
}

/// The phase after the step.
pub(crate) fn guarded_phase_after(phase: usize, step: ScriptCall) -> usize
    requires { phase < 2 ^ 20 }
    ensures { result ≡ phase + cond (text_guard_step_departs step) 1 0 }
{
    if guard_step_departs(step) {
        phase + 1
    } else {
        phase
    }
}

/// Takes note of what the processor's step accesses in this phase, with these locks held. The only error is running out of
/// memory, after which this may be of no use.
fn track_guarded_step(
    words: &mut Vec<GuardedWordUse>,
    processor: usize,
    phase: usize,
    locks: &[bool; MOST_LOCKS],
    step: ScriptCall,
) -> Result<(), AllocError>
    requires { IsUserStepWithin (vec_len words.old) step }
    ensures keeps { OnOk result (UsersAreKept words.old.items words.new.items) }
    ensures noted { OnOk result ((held : ℕ → Bool) → ((l : ℕ) → slice_index_or locks.now l false ≡ held l) → (w : ℕ)
        → text_guarded_step_address step ≡ Some w → HasUserAt words.new.items w phase processor (text_guarded_step_stores step) held) }
{
    if let Some(address) = guarded_address_of(step) {
        let user = GuardedUsers {
            processor,
            are_several: false,
            stores: guarded_step_stores(step),
            locks: *locks,
        };
        words[address].note(phase, user)?;
    }
    Ok(())
}

/// Takes note of what a processor's steps access. The only error is running out of memory, after which this may be of no use.
fn track_guarded_row(
    words: &mut Vec<GuardedWordUse>,
    processor: usize,
    row: &[ScriptCall],
) -> Result<(), AllocError>
    requires within { AreUserStepsWithin (vec_len words.old) row.now }
    requires few { length row.now < 2 ^ 15 }
    ensures keeps { OnOk result (UsersAreKept words.old.items words.new.items) }
    ensures noted { OnOk result (AreStepUsersNoted words.new.items processor row.now (length row.now)) }
{
    let mut phase = 0;
    let mut held = [false; MOST_LOCKS];
    for step in row {
        track_guarded_step(words, processor, phase, &held, *step)?;
        phase = guarded_phase_after(phase, *step);
        track_held_guard(&mut held, *step);
    }
    Ok(())
}

/// So many words that nobody uses. The only error is running out of memory.
fn unused_guarded_words(alloc: Global, size: usize) -> Result<Vec<GuardedWordUse>, AllocError>
    ensures long { IfOk result (λ v. vec_len v ≡ size) }
    ensures sound { IfOk result (λ v. UsersAreAllSound v.items) }
{
    let mut words = Vec::new(alloc);
    for _ in 0..size {
        words.push(GuardedWordUse::new(alloc))?;
    }
    Ok(words)
}

/// Who uses each of the words. The only error is running out of memory.
fn guarded_word_uses(
    alloc: Global,
    size: usize,
    steps: &[Vec<ScriptCall>],
) -> Result<Vec<GuardedWordUse>, AllocError>
    requires within { AreUserRowsWithin size steps.now }
    requires few { AreUserRowsFew steps.now }
    ensures long { IfOk result (λ v. vec_len v ≡ size) }
    ensures noted { IfOk result (λ v. AreUserRowsNoted v.items steps.now (length steps.now)) }
    ensures sound { IfOk result (λ v. UsersAreAllSound v.items) }
{
    let mut words = unused_guarded_words(alloc, size)?;
    for processor in 0..steps.len() {
        track_guarded_row(&mut words, processor, &steps[processor])?;
    }
    Ok(words)
}

/// Of each word whether it is guarded. The only error is running out of memory.
fn guarded_flags_of(alloc: Global, words: &[GuardedWordUse]) -> Result<Vec<bool>, AllocError>
    ensures { IfOk result (λ v. v.items ≡ map (λ (x : AWordUse). x.is_guarded) words.now) }
{
    let mut flags = Vec::new(alloc);
    for word in words {
        flags.push(word.is_guarded)?;
    }
    Ok(flags)
}

/// Of each word of the script, whether the text shows it to be guarded by locks and barriers. The only error is running out of
/// memory.
fn words_guarded_by_locks(
    alloc: Global,
    script: &Script,
    steps: &[Vec<ScriptCall>],
) -> Result<Vec<bool>, AllocError>
    requires { AreLawfulMachineSteps (plan_of script.now) steps.now }
    ensures long { IfOk result (λ v. vec_len v ≡ plan_addresses (plan_of script.now)) }
    ensures guarded { IfOk result (λ v. AreGuardedByText steps.now v.items) }
{
    let words = guarded_word_uses(alloc, script.pages * script.words, steps)?;
    guarded_flags_of(alloc, &words)
}

/// Calls a word guarded also if the others do.
fn join_guarded(words: &mut Vec<bool>, others: &[bool])
    requires { vec_len words.old ≡ length others.now }
    ensures long { vec_len words.new ≡ vec_len words.old }
    ensures joined { (w : ℕ) → IsTrue (slice_index_or words.new.items w false)
        → IsTrue (slice_index_or words.old.items w false) ⊎ IsTrue (slice_index_or others.now w false) }
{
    for place in 0..words.len() {
        words[place] |= others[place];
    }
}

/// Of each word of the script, whether locks and barriers, or a walk through the text, show it to be guarded. The only error is
/// running out of memory.
pub fn guarded_words_with_walk(
    alloc: Global,
    script: &Script,
    steps: &[Vec<ScriptCall>],
) -> Result<Vec<bool>, AllocError>
    requires { AreLawfulMachineSteps (plan_of script.now) steps.now }
    ensures long { IfOk result (λ v. vec_len v ≡ plan_addresses (plan_of script.now)) }
    ensures guarded { IfOk result (λ v. AreGuardedByText steps.now v.items) }
{
    let mut guarded = words_guarded_by_locks(alloc, script, steps)?;
    if are_all_guarded(&guarded) {
        return Ok(guarded);
    }
    let by_walk = words_guarded_by_walk(alloc, guarded.len(), steps)?;
    join_guarded(&mut guarded, &by_walk);
    Ok(guarded)
}

/// Of each word of the script, whether the text shows it to be guarded: by a walk too if the script has flags. The only error is
/// running out of memory.
pub fn guarded_words(
    alloc: Global,
    script: &Script,
    steps: &[Vec<ScriptCall>],
) -> Result<Vec<bool>, AllocError>
    requires { AreLawfulMachineSteps (plan_of script.now) steps.now }
    ensures long { IfOk result (λ v. vec_len v ≡ plan_addresses (plan_of script.now)) }
    ensures guarded { IfOk result (λ v. AreGuardedByText steps.now v.items) }
{
    if script.flags == 0 {
        return words_guarded_by_locks(alloc, script, steps);
    }
    guarded_words_with_walk(alloc, script, steps)
}

/// Whether all of these hold.
pub fn are_all_guarded(words: &[bool]) -> bool
    ensures { IsTrue result → (w : ℕ) → w < length words.now → IsTrue (slice_index_or words.now w false) }
{
    words.iter().all(|is| *is)
}

/// A script of which all words are guarded has no race, whatever the order of events. Two accesses that may both come next
/// are in one phase, since each processor has arrived as often as any has departed; and a lock has one holder. So no two of
/// them conflict, and by the law of neighbours no prefix races.
pub fn guarded_law()
    ensures { GuardedTextLaw }
{}
