//! Whether a run is one that is looked for: whether the loads at its end answer words that are asked for.
ghost use Rattle.std.specs.Prelude.{◌≡◌, ◌≢◌, ◌↔◌, ℕ, IfOk, IsTrue};
ghost use Rattle.base.specs.InOrderOnce.{Has};
ghost use Rattle.journal.specs.declared.event.Kind.TheVariants.{Load};
ghost use Rattle.lrc_script.specs.Prelude.{plan_of};
ghost use Rattle.explore.specs.AllowedBeginnings.{TellsAllowedBeginning, allowed_beginning_events};
ghost use Rattle.explore.specs.AllowedSearchEnds.{AreAllowedUntilLoads, IsAllowedRunOfGoal};
ghost use Rattle.explore.specs.AllowedUntil.{IsAllowedUntilRun};
ghost use Rattle.explore.specs.Machines.{AreLawfulMachineSteps};

use crate::goal::Goal;
use crate::prefixes::ScriptCall;
use crate::rules::beginning::AllowedBeginning;
use crate::rules::calls::calls_by;
use journal::Kind;
use lrc_script::script::Script;
use std::alloc::{AllocError, Global};

/// Whether the call loads this address, and is answered this word.
fn is_word_load(call: Kind, address: usize, word: u32) -> bool
    ensures { IsTrue result ↔ (call ≡ Load address word) }
{
    match call {
        Kind::Load(at, answer) => at == address && answer == word,
        _ => false,
    }
}

/// Whether one of these calls loads the address, and is answered the word.
fn has_word_loaded(calls: &[Kind], address: usize, word: u32) -> bool
    ensures { IsTrue result ↔ Has calls.now (Load address word) }
{
    for call in calls {
        if is_word_load(*call, address, word) {
            return true;
        }
    }
    false
}

/// Whether the call loads this address, and is answered another word.
fn is_other_word_load(call: Kind, address: usize, word: u32) -> bool
    ensures { IsTrue result ↔ ((other : ℕ) × (call ≡ Load address other) × (other ≢ word)) }
{
    match call {
        Kind::Load(at, other) => at == address && other != word,
        _ => false,
    }
}

/// Whether one of these calls loads the address, and is answered another word.
fn has_other_word_loaded(calls: &[Kind], address: usize, word: u32) -> bool
    ensures { IsTrue result ↔ ((other : ℕ) × Has calls.now (Load address other) × (other ≢ word)) }
{
    for call in calls {
        if is_other_word_load(*call, address, word) {
            return true;
        }
    }
    false
}

/// Whether these calls load this word at the address, and no other one.
fn is_word_loaded(calls: &[Kind], address: usize, word: u32) -> bool
    ensures { IsTrue result ↔ ((w : ℕ) → Has calls.now (Load address w) ↔ (w ≡ word)) }
{
    has_word_loaded(calls, address, word) && !has_other_word_loaded(calls, address, word)
}

/// Whether these calls load each of these words at its address, and no other one there.
fn are_words_loaded(calls: &[Kind], words: &[(usize, u32)]) -> bool
    ensures { IsTrue result ↔ AreAllowedUntilLoads words.now calls.now }
{
    for (address, word) in words {
        if !is_word_loaded(calls, *address, *word) {
            return false;
        }
    }
    true
}

/// Whether the beginning is a whole run that ends with these words.
fn ends_with_words(
    alloc: Global,
    script: &Script,
    steps: &[Vec<ScriptCall>],
    beginning: &AllowedBeginning,
    words: &[(usize, u32)],
) -> Result<bool, AllocError>
    requires steps { AreLawfulMachineSteps (plan_of script.now) steps.now }
    requires told { TellsAllowedBeginning (plan_of script.now) beginning.now }
    ensures { IfOk result (λ has. IsTrue has ↔ IsAllowedUntilRun (plan_of script.now) words.now (allowed_beginning_events beginning.now)) }
{
    if !beginning.is_whole(steps) {
        return Ok(false);
    }
    let calls = calls_by(alloc, beginning.events(), 0)?;
    let first = calls.len().saturating_sub(script.shown.len());
    Ok(are_words_loaded(&calls[first..], words))
}

/// Whether the beginning is a run that is looked for. The only error is running out of memory.
pub fn is_goal_met(
    alloc: Global,
    script: &Script,
    steps: &[Vec<ScriptCall>],
    beginning: &AllowedBeginning,
    goal: Goal<'_>,
) -> Result<bool, AllocError>
    requires steps { AreLawfulMachineSteps (plan_of script.now) steps.now }
    requires told { TellsAllowedBeginning (plan_of script.now) beginning.now }
    ensures { IfOk result (λ is. IsTrue is ↔ IsAllowedRunOfGoal (plan_of script.now) goal.entry (allowed_beginning_events beginning.now)) }
{
    match goal {
        Goal::All => Ok(false),
        Goal::Until(words) => ends_with_words(alloc, script, steps, beginning, words),
    }
}
