//! What in the script's text keeps its locks from being ranked: asks that go in a circle, or a lock that is held while its holder
//! waits at the barrier or for a flag.
ghost use Rattle.std.specs.Prelude.{◌≡◌, ◌⊎◌, ℕ, ◌<◌, ◌≤◌, IfOk, IfSome, IsTrue, OnOk, Some, false, length, slice_get, slice_index_or};
ghost use Rattle.base.specs.InOrderOnce.{Has};
ghost use Rattle.base.specs.Prelude.{most_processors};
ghost use Rattle.journal.specs.declared.event.Kind.TheVariants.{Acquire};
ghost use Rattle.explore.specs.declared.prefixes.script_call.ScriptCall.TheVariants.{Call};
ghost use Rattle.explore.specs.declared.text.unranked_locks.TextAsk.{TextAsk as AnAsk};
ghost use Rattle.explore.specs.LockRanks.{ends_unlocked_wait};
ghost use Rattle.explore.specs.UnrankedLocks.{AreTextAsks, AreUnrankedLocks, IsTextAskCircle, IsTextWait};
ghost use Rattle.explore.specs.Users.{AreUserRowsFew, AreUserRowsWithin};
ghost use Rattle.explore.specs.WalkedWords.{walked_row_holds};

use crate::prefixes::ScriptCall;
use crate::text::walked_rows::WalkedRow;
use base::MOST_LOCKS;
use journal::Kind;
use std::alloc::{AllocError, Global};

/// A step that acquires a lock while another one is held.
#[derive(Clone, Copy)]
pub struct TextAsk {
    pub processor: usize,
    /// The place of the step among the processor's.
    pub place: usize,
    pub held: usize,
    pub asked: usize,
}

/// A step that waits at the barrier or for a flag while a lock is held.
#[derive(Clone, Copy)]
pub struct TextWait {
    pub processor: usize,
    /// The place of the step among the processor's.
    pub place: usize,
    pub held: usize,
}

/// What keeps the locks from being ranked, so far as it is found.
#[derive(Drop)]
pub struct UnrankedLocks {
    /// Asks each of which holds what the one before asks for, and the first what the last asks for.
    pub circle: Option<Vec<TextAsk>>,
    /// The first wait while a lock is held.
    pub wait: Option<TextWait>,
}

/// Of each two locks whether some ask for the second is noted while the first is held.
type NotedTextAsks = [[bool; MOST_LOCKS]; MOST_LOCKS];

/// Adds the ask, unless there is one for the same lock that holds the same.
fn note_text_ask(
    asks: &mut Vec<TextAsk>,
    noted: &mut NotedTextAsks,
    ask: TextAsk,
) -> Result<(), AllocError>
    ensures { OnOk result ((x : AnAsk) → Has asks.new.items x → Has asks.old.items x ⊎ (x ≡ ask)) }
{
    let TextAsk { held, asked, .. } = ask;
    if held >= MOST_LOCKS || asked >= MOST_LOCKS || noted[held][asked] {
        return Ok(());
    }
    noted[held][asked] = true;
    asks.push(ask)?;
    Ok(())
}

/// Adds the ask for this lock that holds the other one where the cursor stands, if it is held there.
fn note_text_ask_holding(
    asks: &mut Vec<TextAsk>,
    noted: &mut NotedTextAsks,
    processor: usize,
    at: &WalkedRow,
    asked: usize,
    held: usize,
) -> Result<(), AllocError>
    ensures { OnOk result ((x : AnAsk) → Has asks.new.items x → Has asks.old.items x
        ⊎ ((x.processor ≡ processor) × (x.place ≡ at.now.place) × (x.asked ≡ asked) × IsTrue (walked_row_holds at.now x.held))) }
{
    if held >= MOST_LOCKS || !at.held[held] {
        return Ok(());
    }
    let ask = TextAsk {
        processor,
        place: at.place,
        held,
        asked,
    };
    note_text_ask(asks, noted, ask)
}

/// Adds the asks for this lock where the cursor stands, of each lock that is held, unless there is one of the same two.
fn note_text_asks_for(
    asks: &mut Vec<TextAsk>,
    noted: &mut NotedTextAsks,
    processor: usize,
    at: &WalkedRow,
    asked: usize,
) -> Result<(), AllocError>
    ensures { OnOk result ((x : AnAsk) → Has asks.new.items x → Has asks.old.items x
        ⊎ ((x.processor ≡ processor) × (x.place ≡ at.now.place) × (x.asked ≡ asked) × IsTrue (walked_row_holds at.now x.held))) }
{
    for held in 0..MOST_LOCKS {
        note_text_ask_holding(asks, noted, processor, at, asked, held)?;
    }
    Ok(())
}

/// Adds the asks that the step makes where the cursor stands.
fn note_step_text_asks(
    asks: &mut Vec<TextAsk>,
    noted: &mut NotedTextAsks,
    processor: usize,
    at: &WalkedRow,
    step: ScriptCall,
) -> Result<(), AllocError>
    ensures { OnOk result ((x : AnAsk) → Has asks.new.items x → Has asks.old.items x
        ⊎ ((x.processor ≡ processor) × (x.place ≡ at.now.place) × (step ≡ Call (Acquire x.asked)) × IsTrue (walked_row_holds at.now x.held))) }
{
    match step {
        ScriptCall::Call(Kind::Acquire(asked)) => {
            note_text_asks_for(asks, noted, processor, at, asked)
        }
        _ => Ok(()),
    }
}

/// Adds the asks of the processor's steps.
fn note_row_text_asks(
    asks: &mut Vec<TextAsk>,
    noted: &mut NotedTextAsks,
    steps: &[Vec<ScriptCall>],
    processor: usize,
) -> Result<(), AllocError>
    requires within { (size : ℕ) × AreUserRowsWithin size steps.now }
    requires few { AreUserRowsFew steps.now }
    requires processors { length steps.now ≤ most_processors }
    requires processor { processor < length steps.now }
    ensures { OnOk result (AreTextAsks steps.now asks.old.items → AreTextAsks steps.now asks.new.items) }
{
    let mut at = WalkedRow::new();
    let row = &steps[processor];
    for place in 0..row.len() {
        let step = row[place];
        note_step_text_asks(asks, noted, processor, &at, step)?;
        at.pass(processor, step);
    }
    Ok(())
}

/// The asks of these steps, of each two locks the first one. The only error is running out of memory.
fn text_asks_of(alloc: Global, steps: &[Vec<ScriptCall>]) -> Result<Vec<TextAsk>, AllocError>
    requires within { (size : ℕ) × AreUserRowsWithin size steps.now }
    requires few { AreUserRowsFew steps.now }
    requires processors { length steps.now ≤ most_processors }
    ensures { IfOk result (λ v. AreTextAsks steps.now v.items) }
{
    let mut asks = Vec::new(alloc);
    let mut noted = [[false; MOST_LOCKS]; MOST_LOCKS];
    for processor in 0..steps.len() {
        note_row_text_asks(&mut asks, &mut noted, steps, processor)?;
    }
    Ok(asks)
}

/// The locks that are held at an ask for one of these.
fn locks_before(asks: &[TextAsk], locks: &[bool; MOST_LOCKS]) -> [bool; MOST_LOCKS] {
    let mut before = [false; MOST_LOCKS];
    for ask in asks {
        if ask.held < MOST_LOCKS && ask.asked < MOST_LOCKS && locks[ask.asked] {
            before[ask.held] = true;
        }
    }
    before
}

/// The locks from which asks lead on for ever: those that no number of rounds leaves out.
fn endless_locks(asks: &[TextAsk]) -> [bool; MOST_LOCKS] {
    let mut locks = [true; MOST_LOCKS];
    for _ in 0..MOST_LOCKS {
        locks = locks_before(asks, &locks);
    }
    locks
}

/// The first of these locks.
fn first_lock_of(locks: &[bool; MOST_LOCKS]) -> Option<usize>
    ensures { IfSome result (λ l. IsTrue (slice_index_or locks.now l false)) }
{
    for lock in 0..MOST_LOCKS {
        if locks[lock] {
            return Some(lock);
        }
    }
    None
}

/// The first ask for one of these locks that holds this one.
fn text_ask_onward(asks: &[TextAsk], locks: &[bool; MOST_LOCKS], held: usize) -> Option<TextAsk>
    ensures { IfSome result (λ x. Has asks.now x × (x.held ≡ held)) }
{
    for place in 0..asks.len() {
        let ask = asks[place];
        if ask.held == held && ask.asked < MOST_LOCKS && locks[ask.asked] {
            return Some(ask);
        }
    }
    None
}

/// The place of an ask that holds this lock.
fn text_ask_place(asks: &[TextAsk], held: usize) -> Option<usize>
    ensures { IfSome result (λ n. (x : AnAsk) × (slice_get asks.now n ≡ Some x) × (x.held ≡ held)) }
{
    for place in 0..asks.len() {
        if asks[place].held == held {
            return Some(place);
        }
    }
    None
}

/// A circle of these asks, by those that lead on from this lock to one of these. The only error is running out of memory.
fn lock_circle_from(
    alloc: Global,
    steps: &[Vec<ScriptCall>],
    asks: &[TextAsk],
    locks: &[bool; MOST_LOCKS],
    start: usize,
) -> Result<Option<Vec<TextAsk>>, AllocError>
    requires { AreTextAsks steps.now asks.now }
    ensures { IfOk result (λ found. IfSome found (λ v. IsTextAskCircle steps.now v.items)) }
{
    let mut path = Vec::new(alloc);
    let mut lock = start;
    for _ in 0..=MOST_LOCKS {
        let Some(ask) = text_ask_onward(asks, locks, lock) else {
            return Ok(None);
        };
        path.push(ask)?;
        lock = ask.asked;
        if let Some(first) = text_ask_place(&path, lock) {
            return Ok(Some(Vec::from_slice(alloc, &path[first..])?));
        }
    }
    Ok(None)
}

/// Asks of these steps that go in a circle, if some do. The only error is running out of memory.
fn lock_circle(alloc: Global, steps: &[Vec<ScriptCall>]) -> Result<Option<Vec<TextAsk>>, AllocError>
    requires within { (size : ℕ) × AreUserRowsWithin size steps.now }
    requires few { AreUserRowsFew steps.now }
    requires processors { length steps.now ≤ most_processors }
    ensures { IfOk result (λ found. IfSome found (λ v. IsTextAskCircle steps.now v.items)) }
{
    let asks = text_asks_of(alloc, steps)?;
    let locks = endless_locks(&asks);
    match first_lock_of(&locks) {
        Some(start) => lock_circle_from(alloc, steps, &asks, &locks, start),
        None => Ok(None),
    }
}

/// Whether the step waits at the barrier or for a flag.
fn step_waits_unlocked(step: ScriptCall) -> bool
    ensures { result ≡ ends_unlocked_wait step }
{
    matches!(step, ScriptCall::Call(Kind::Depart | Kind::Await(_)))
}

/// The first of the processor's steps that waits while a lock is held.
fn text_wait_in_row(steps: &[Vec<ScriptCall>], processor: usize) -> Option<TextWait>
    requires within { (size : ℕ) × AreUserRowsWithin size steps.now }
    requires few { AreUserRowsFew steps.now }
    requires processors { length steps.now ≤ most_processors }
    requires processor { processor < length steps.now }
    ensures { IfSome result (IsTextWait steps.now) }
{
    let mut at = WalkedRow::new();
    let row = &steps[processor];
    for place in 0..row.len() {
        let step = row[place];
        if step_waits_unlocked(step)
            && let Some(held) = first_lock_of(&at.held)
        {
            return Some(TextWait {
                processor,
                place,
                held,
            });
        }
        at.pass(processor, step);
    }
    None
}

/// The first step that waits while a lock is held: the least processor's.
fn first_text_wait(steps: &[Vec<ScriptCall>]) -> Option<TextWait>
    requires within { (size : ℕ) × AreUserRowsWithin size steps.now }
    requires few { AreUserRowsFew steps.now }
    requires processors { length steps.now ≤ most_processors }
    ensures { IfSome result (IsTextWait steps.now) }
{
    for processor in 0..steps.len() {
        if let Some(wait) = text_wait_in_row(steps, processor) {
            return Some(wait);
        }
    }
    None
}

/// What keeps the locks of these steps from being ranked. The only error is running out of memory.
pub fn unranked_locks(alloc: Global, steps: &[Vec<ScriptCall>]) -> Result<UnrankedLocks, AllocError>
    requires within { (size : ℕ) × AreUserRowsWithin size steps.now }
    requires few { AreUserRowsFew steps.now }
    requires processors { length steps.now ≤ most_processors }
    ensures { IfOk result (AreUnrankedLocks steps.now) }
{
    let circle = lock_circle(alloc, steps)?;
    let wait = first_text_wait(steps);
    Ok(UnrankedLocks { circle, wait })
}
