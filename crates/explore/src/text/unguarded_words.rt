//! Which words the script's text doesn't show to be guarded, and two accesses of each that it doesn't keep apart.
//!
//! Words that `guarded_words` shows are left out, and so are those of which a lock keeps each two accesses apart that conflict
//! in one phase: these need not be under one lock that is common to all.
ghost use Rattle.std.specs.Prelude.{◌≡◌, ℕ, ◌<◌, IfOk, IsTrue, List, MatchOption, length};
ghost use Rattle.std.specs.Global.{Vec as AVec};
ghost use Rattle.lrc_script.specs.Prelude.{Plan};
ghost use Rattle.explore.specs.Machines.{AreLawfulMachineSteps};
ghost use Rattle.explore.specs.TextGuards.{AreGuardedByText, IsGuardedByText};
ghost use Rattle.explore.specs.UnguardedWords.{AreKeptTextAccesses, AreUnguardedWords, IsUnguardedWord};
ghost use Rattle.explore.specs.declared.prefixes.script_call.ScriptCall.{ScriptCall as AStep};

use crate::prefixes::ScriptCall;
use crate::text::flag_orders::FlagOrders;
use crate::text::text_accesses::{
    TextAccess, open_text_accesses, text_accesses_by_word, told_text_accesses,
};
use std::alloc::{AllocError, Global};

/// A word, and two accesses of it that neither a barrier nor a lock keeps apart: two that no flag is known to keep apart either, if
/// there are such.
#[derive(Clone, Copy)]
pub struct UnguardedWord {
    pub word: usize,
    pub first: TextAccess,
    pub second: TextAccess,
}

/// The word with two accesses that aren't kept apart, if it isn't guarded. `kept` has its accesses if it isn't known to be guarded.
fn unguarded_word(
    guarded: &[bool],
    kept: &[Vec<TextAccess>],
    orders: &FlagOrders,
    word: usize,
) -> Option<UnguardedWord>
    requires within { word < length guarded.now }
    requires long { length kept.now ≡ length guarded.now }
    ensures { (steps : List (AVec AStep)) → AreGuardedByText steps guarded.now → AreKeptTextAccesses steps guarded.now kept.now
        → MatchOption result (IsGuardedByText steps word) (λ x. (x.word ≡ word) × IsUnguardedWord steps guarded.now x) }
{
    if guarded[word] {
        return None;
    }
    let Some((first, second)) = told_text_accesses(&kept[word], orders) else {
        return None;
    };
    Some(UnguardedWord {
        word,
        first,
        second,
    })
}

/// The words that the text doesn't show to be guarded, the least first, if it shows these. The only error is running out of
/// memory.
pub fn unguarded_words(
    alloc: Global,
    steps: &[Vec<ScriptCall>],
    guarded: &[bool],
    orders: &FlagOrders,
) -> Result<Vec<UnguardedWord>, AllocError>
    requires lawful { (s : Plan) × AreLawfulMachineSteps s steps.now }
    requires guarded { AreGuardedByText steps.now guarded.now }
    ensures { IfOk result (λ v. AreUnguardedWords steps.now guarded.now v.items) }
{
    let kept = text_accesses_by_word(alloc, guarded, steps)?;
    let mut words = Vec::new(alloc);
    for word in 0..guarded.len() {
        if let Some(found) = unguarded_word(guarded, &kept, orders, word) {
            words.push(found)?;
        }
    }
    Ok(words)
}

/// Whether the word is known to be guarded, or each two of its accesses are kept apart.
fn is_kept_apart(guarded: &[bool], kept: &[Vec<TextAccess>], word: usize) -> bool
    requires within { word < length guarded.now }
    requires long { length kept.now ≡ length guarded.now }
    ensures { IsTrue result → (steps : List (AVec AStep)) → AreGuardedByText steps guarded.now → AreKeptTextAccesses steps guarded.now kept.now
        → IsGuardedByText steps word }
{
    if guarded[word] {
        return true;
    }
    match open_text_accesses(&kept[word]) {
        Some(_) => false,
        None => true,
    }
}

/// Whether the text shows each word to be guarded, if it shows these: `unguarded_words` has none then. The only error is running
/// out of memory.
pub fn are_all_kept_apart(
    alloc: Global,
    steps: &[Vec<ScriptCall>],
    guarded: &[bool],
) -> Result<bool, AllocError>
    requires lawful { (s : Plan) × AreLawfulMachineSteps s steps.now }
    requires guarded { AreGuardedByText steps.now guarded.now }
    ensures { IfOk result (λ apart. IsTrue apart → (w : ℕ) → w < length guarded.now → IsGuardedByText steps.now w) }
{
    let kept = text_accesses_by_word(alloc, guarded, steps)?;
    for word in 0..guarded.len() {
        if !is_kept_apart(guarded, &kept, word) {
            return Ok(false);
        }
    }
    Ok(true)
}
