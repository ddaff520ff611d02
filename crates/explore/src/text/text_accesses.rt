//! The accesses of a word that a script's text has, and which of them neither a barrier nor a lock keeps apart.
ghost use Rattle.std.specs.Prelude.{◌≡◌, ℕ, [], ◌<◌, ◌≤◌, ◌⊎◌, IfOk, IfSome, IsTrue, MatchOption, OnOk, Some, false, length, slice_get, slice_index_or, vec_len};
ghost use Rattle.std.specs.Global.{Vec as AVec};
ghost use Rattle.base.specs.InOrderOnce.{Has};
ghost use Rattle.explore.specs.declared.prefixes.script_call.ScriptCall.{ScriptCall as AStep};
ghost use Rattle.explore.specs.declared.text.text_accesses.TextAccess.{TextAccess as AnAccess};
ghost use Rattle.base.specs.Prelude.{most_processors};
ghost use Rattle.explore.specs.TextGuards.{text_guarded_step_address, text_guarded_step_stores};
ghost use Rattle.explore.specs.WalkedWords.{walked_row_holds};
ghost use Rattle.explore.specs.UnguardedWords.{AreKeptTextAccesses, AreTextAccesses, AreTextAccessesApart, AreTextAccessesOfRow, AreTextAccessesOfRows, AreTextAccessesOpen, HasTextAccessLike, IsTextAccessLike, text_accesses_kept};
ghost use Rattle.explore.specs.Users.{AreUserRowsFew, AreUserRowsWithin};

use crate::prefixes::ScriptCall;
use crate::text::flag_orders::FlagOrders;
use crate::text::guards::{guarded_address_of, guarded_step_stores};
use crate::text::walked_rows::WalkedRow;
use base::MOST_LOCKS;
use journal::Kind;
use std::alloc::{AllocError, Global};

/// An access of a word, and what guards it.
#[derive(Clone, Copy)]
pub struct TextAccess {
    pub processor: usize,
    /// The place of its step among the processor's.
    pub place: usize,
    pub stores: bool,
    /// How often the processor has departed from the barrier before.
    pub phase: usize,
    /// The locks that it holds.
    pub held: [bool; MOST_LOCKS],
    /// How many times the processor has set or awaited a flag before.
    pub flags_met: usize,
}

/// Whether both sets have the same locks.
fn are_same_guards(first: &[bool; MOST_LOCKS], second: &[bool; MOST_LOCKS]) -> bool
    ensures { IsTrue result → (l : ℕ) → slice_index_or first.now l false ≡ slice_index_or second.now l false }
{
    for lock in 0..MOST_LOCKS {
        if first[lock] != second[lock] {
            return false;
        }
    }
    true
}

/// Whether both sets have a lock.
fn have_common_guard(first: &[bool; MOST_LOCKS], second: &[bool; MOST_LOCKS]) -> bool
    ensures common { IsTrue result
        → (l : ℕ) × IsTrue (slice_index_or first.now l false) × IsTrue (slice_index_or second.now l false) }
    ensures none { result ≡ false → (l : ℕ) → IsTrue (slice_index_or first.now l false) → ¬ IsTrue (slice_index_or second.now l false) }
{
    for lock in 0..MOST_LOCKS {
        if first[lock] && second[lock] {
            return true;
        }
    }
    false
}

impl TextAccess {
    /// Whether it is the same processor's in the same phase, with no flag between them.
    fn is_in_phase_of(&self, other: &TextAccess) -> bool
        ensures { IsTrue result → (self.now.processor ≡ other.now.processor) × (self.now.phase ≡ other.now.phase) }
    {
        self.processor == other.processor
            && self.phase == other.phase
            && self.flags_met == other.flags_met
    }

    /// Whether what the text says of it is said of the other one, too.
    fn is_like(&self, other: &TextAccess) -> bool
        ensures { IsTrue result → IsTextAccessLike self.now other.now.processor other.now.phase other.now.stores
            (λ l. slice_index_or other.now.held l false) }
    {
        self.is_in_phase_of(other)
            && self.stores == other.stores
            && are_same_guards(&self.held, &other.held)
    }

    /// Whether a barrier or a lock keeps it apart from the other one, or they don't conflict.
    fn is_apart_from(&self, other: &TextAccess) -> bool
        ensures apart { IsTrue result → AreTextAccessesApart self.now other.now }
        ensures unapart { result ≡ false → AreTextAccessesOpen self.now other.now }
    {
        if self.phase != other.phase || self.processor == other.processor {
            return true;
        }
        if !self.stores && !other.stores {
            return true;
        }
        have_common_guard(&self.held, &other.held)
    }
}

/// Whether one of the accesses is like this one: of the same processor's in the same phase, which come last.
fn has_text_access_like(accesses: &[TextAccess], access: &TextAccess) -> bool
    ensures { IsTrue result → HasTextAccessLike accesses.now access.now.processor access.now.phase access.now.stores
        (λ l. slice_index_or access.now.held l false) }
{
    for place in (0..accesses.len()).rev() {
        if !accesses[place].is_in_phase_of(access) {
            return false;
        }
        if accesses[place].is_like(access) {
            return true;
        }
    }
    false
}

/// Adds the access, if there is none like it.
fn note_text_access(accesses: &mut Vec<TextAccess>, access: TextAccess) -> Result<(), AllocError>
    ensures keeps { OnOk result ((x : AnAccess) → Has accesses.old.items x → Has accesses.new.items x) }
    ensures only { OnOk result ((x : AnAccess) → Has accesses.new.items x → Has accesses.old.items x ⊎ (x ≡ access)) }
    ensures noted { OnOk result (HasTextAccessLike accesses.new.items access.processor access.phase access.stores
        (λ l. slice_index_or access.held l false)) }
{
    if has_text_access_like(accesses, &access) {
        return Ok(());
    }
    accesses.push(access)?;
    Ok(())
}

/// How many times a flag was met, after the step.
fn flags_met_after(met: usize, step: ScriptCall) -> usize {
    match step {
        ScriptCall::Call(Kind::Set(_) | Kind::Await(_)) => met.saturating_add(1),
        _ => met,
    }
}

/// Adds the access that the step at the cursor's place makes, if it makes one of a word that isn't known to be guarded, and if there
/// is none like it. A row of accesses is kept for each word.
fn note_step_text_access(
    kept: &mut Vec<Vec<TextAccess>>,
    guarded: &[bool],
    processor: usize,
    at: &WalkedRow,
    flags_met: usize,
    step: ScriptCall,
) -> Result<(), AllocError>
    requires { vec_len kept.old ≡ length guarded.now }
    ensures long { vec_len kept.new ≡ vec_len kept.old }
    ensures keeps { OnOk result ((w : ℕ) (x : AnAccess) → Has (text_accesses_kept kept.old.items w) x → Has (text_accesses_kept kept.new.items w) x) }
    ensures only { OnOk result ((w : ℕ) (x : AnAccess) → Has (text_accesses_kept kept.new.items w) x → Has (text_accesses_kept kept.old.items w) x
        ⊎ ((text_guarded_step_address step ≡ Some w) × (x.place ≡ at.now.place)
        × IsTextAccessLike x processor at.now.phase (text_guarded_step_stores step) (walked_row_holds at.now))) }
    ensures noted { OnOk result ((w : ℕ) → w < length guarded.now → slice_index_or guarded.now w false ≡ false
        → text_guarded_step_address step ≡ Some w → HasTextAccessLike (text_accesses_kept kept.new.items w) processor at.now.phase
        (text_guarded_step_stores step) (walked_row_holds at.now)) }
{
    let Some(word) = guarded_address_of(step) else {
        return Ok(());
    };
    if word >= guarded.len() || guarded[word] {
        return Ok(());
    }
    let access = TextAccess {
        processor,
        place: at.place,
        stores: guarded_step_stores(step),
        phase: at.phase,
        held: at.held,
        flags_met,
    };
    note_text_access(&mut kept[word], access)
}

/// Adds the processor's accesses of each word that isn't known to be guarded, but for those that are like others of them.
fn note_row_text_accesses(
    kept: &mut Vec<Vec<TextAccess>>,
    guarded: &[bool],
    steps: &[Vec<ScriptCall>],
    processor: usize,
) -> Result<(), AllocError>
    requires long { vec_len kept.old ≡ length guarded.now }
    requires within { (size : ℕ) × AreUserRowsWithin size steps.now }
    requires few { AreUserRowsFew steps.now }
    requires processors { length steps.now ≤ most_processors }
    requires processor { processor < length steps.now }
    ensures long { vec_len kept.new ≡ vec_len kept.old }
    ensures keeps { OnOk result ((w : ℕ) (x : AnAccess) → Has (text_accesses_kept kept.old.items w) x → Has (text_accesses_kept kept.new.items w) x) }
    ensures are { OnOk result ((w : ℕ) → AreTextAccesses steps.now w (text_accesses_kept kept.old.items w)
        → AreTextAccesses steps.now w (text_accesses_kept kept.new.items w)) }
    ensures noted { OnOk result ((w : ℕ) → w < length guarded.now → slice_index_or guarded.now w false ≡ false
        → (row : AVec AStep) → slice_get steps.now processor ≡ Some row
        → AreTextAccessesOfRow steps.now w (text_accesses_kept kept.new.items w) processor (length row.items)) }
{
    let mut at = WalkedRow::new();
    let mut flags_met: usize = 0;
    let row = &steps[processor];
    for place in 0..row.len() {
        let step = row[place];
        note_step_text_access(kept, guarded, processor, &at, flags_met, step)?;
        at.pass(processor, step);
        flags_met = flags_met_after(flags_met, step);
    }
    Ok(())
}

/// So many rows without an access. The only error is running out of memory.
fn no_text_accesses(alloc: Global, count: usize) -> Result<Vec<Vec<TextAccess>>, AllocError>
    ensures long { IfOk result (λ v. vec_len v ≡ count) }
    ensures none { IfOk result (λ v. (w : ℕ) → text_accesses_kept v.items w ≡ []) }
{
    let mut kept = Vec::with_capacity(alloc, count)?;
    for _ in 0..count {
        kept.push(Vec::new(alloc))?;
    }
    Ok(kept)
}

/// By words, the accesses of each that isn't known to be guarded, but for those that are like others of them. It walks through the
/// text once. The only error is running out of memory.
pub fn text_accesses_by_word(
    alloc: Global,
    guarded: &[bool],
    steps: &[Vec<ScriptCall>],
) -> Result<Vec<Vec<TextAccess>>, AllocError>
    requires within { (size : ℕ) × AreUserRowsWithin size steps.now }
    requires few { AreUserRowsFew steps.now }
    requires processors { length steps.now ≤ most_processors }
    ensures long { IfOk result (λ v. vec_len v ≡ length guarded.now) }
    ensures are { IfOk result (λ v. AreKeptTextAccesses steps.now guarded.now v.items) }
{
    let mut kept = no_text_accesses(alloc, guarded.len())?;
    for processor in 0..steps.len() {
        note_row_text_accesses(&mut kept, guarded, steps, processor)?;
    }
    Ok(kept)
}

/// The first of these that isn't kept apart from this one.
fn first_open_text_access(accesses: &[TextAccess], access: &TextAccess) -> Option<TextAccess>
    ensures { MatchOption result ((x : AnAccess) → Has accesses.now x → AreTextAccessesApart access.now x)
        (λ x. Has accesses.now x × AreTextAccessesOpen access.now x) }
{
    for place in 0..accesses.len() {
        if !access.is_apart_from(&accesses[place]) {
            return Some(accesses[place]);
        }
    }
    None
}

/// The first two of these that aren't kept apart.
pub fn open_text_accesses(accesses: &[TextAccess]) -> Option<(TextAccess, TextAccess)>
    ensures { MatchOption result ((x y : AnAccess) → Has accesses.now x → Has accesses.now y → AreTextAccessesApart x y)
        (λ pair. Has accesses.now pair.0 × Has accesses.now pair.1 × AreTextAccessesOpen pair.0 pair.1) }
{
    for place in 0..accesses.len() {
        if let Some(second) = first_open_text_access(accesses, &accesses[place]) {
            return Some((accesses[place], second));
        }
    }
    None
}

/// The first of these that isn't kept apart from this one, nor by a flag.
fn first_unordered_text_access(
    accesses: &[TextAccess],
    access: &TextAccess,
    orders: &FlagOrders,
) -> Option<TextAccess>
    ensures { IfSome result (λ x. Has accesses.now x × AreTextAccessesOpen access.now x) }
{
    for place in 0..accesses.len() {
        if !access.is_apart_from(&accesses[place])
            && !orders.are_ordered(access, &accesses[place])
        {
            return Some(accesses[place]);
        }
    }
    None
}

/// The first two of these that aren't kept apart, nor by a flag.
fn unordered_text_accesses(
    accesses: &[TextAccess],
    orders: &FlagOrders,
) -> Option<(TextAccess, TextAccess)>
    ensures { IfSome result (λ pair. Has accesses.now pair.0 × Has accesses.now pair.1 × AreTextAccessesOpen pair.0 pair.1) }
{
    for place in 0..accesses.len() {
        if let Some(second) = first_unordered_text_access(accesses, &accesses[place], orders) {
            return Some((accesses[place], second));
        }
    }
    None
}

/// Two of these that aren't kept apart: two that no flag is known to keep apart either, if there are such.
pub fn told_text_accesses(
    accesses: &[TextAccess],
    orders: &FlagOrders,
) -> Option<(TextAccess, TextAccess)>
    ensures { MatchOption result ((x y : AnAccess) → Has accesses.now x → Has accesses.now y → AreTextAccessesApart x y)
        (λ pair. Has accesses.now pair.0 × Has accesses.now pair.1 × AreTextAccessesOpen pair.0 pair.1) }
{
    match unordered_text_accesses(accesses, orders) {
        Some(pair) => Some(pair),
        None => open_text_accesses(accesses),
    }
}
