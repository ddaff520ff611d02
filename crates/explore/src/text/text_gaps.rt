//! What the text of a script leaves open.
ghost use Rattle.std.specs.Prelude.{IfOk};
ghost use Rattle.lrc_script.specs.Prelude.{IsLawful, Plan, plan_of};
ghost use Rattle.explore.specs.Machines.{AreLawfulMachineSteps};
ghost use Rattle.explore.specs.TextGaps.{AreTextGaps};
ghost use Rattle.explore.specs.TextGuards.{AreGuardedByText};
ghost use Rattle.explore.specs.UnguardedWords.{AreUnguardedWords};
ghost use Rattle.explore.specs.UnrankedLocks.{AreUnrankedLocks};

use crate::prefixes::{ScriptCall, script_calls_of_all};
use crate::text::flag_orders::FlagOrders;
use crate::text::guards::guarded_words_with_walk;
use crate::text::unguarded_words::{UnguardedWord, unguarded_words};
use crate::text::unranked_locks::{UnrankedLocks, unranked_locks};
use lrc_script::script::Script;
use std::alloc::{AllocError, Global};

/// What the text of a script leaves open.
#[derive(Drop)]
pub struct TextGaps {
    /// The words that it doesn't show to be guarded, the least first.
    pub words: Vec<UnguardedWord>,
    /// What keeps its locks from being ranked.
    pub locks: UnrankedLocks,
}

/// What the text leaves open, if it shows these words to be guarded.
fn text_gaps_with(
    alloc: Global,
    steps: &[Vec<ScriptCall>],
    guarded: &[bool],
    orders: &FlagOrders,
) -> Result<TextGaps, AllocError>
    requires lawful { (s : Plan) × AreLawfulMachineSteps s steps.now }
    requires guarded { AreGuardedByText steps.now guarded.now }
    ensures words { IfOk result (λ gaps. AreUnguardedWords steps.now guarded.now gaps.words.items) }
    ensures locks { IfOk result (λ gaps. AreUnrankedLocks steps.now gaps.locks) }
{
    let words = unguarded_words(alloc, steps, guarded, orders)?;
    let locks = unranked_locks(alloc, steps)?;
    Ok(TextGaps { words, locks })
}

/// What the text leaves open, by the script's steps.
fn text_gaps_of(
    alloc: Global,
    script: &Script,
    steps: &[Vec<ScriptCall>],
) -> Result<TextGaps, AllocError>
    requires { AreLawfulMachineSteps (plan_of script.now) steps.now }
    ensures { IfOk result (AreTextGaps (plan_of script.now)) }
{
    let guarded = guarded_words_with_walk(alloc, script, steps)?;
    let orders = FlagOrders::of(alloc, script, steps)?;
    text_gaps_with(alloc, steps, &guarded, &orders)
}

/// What the text of the script leaves open. The only error is
/// running out of memory.
pub fn text_gaps(alloc: Global, script: &Script) -> Result<TextGaps, AllocError>
    requires { IsLawful (plan_of script.now) }
    ensures { IfOk result (AreTextGaps (plan_of script.now)) }
{
    let steps = script_calls_of_all(alloc, script)?;
    text_gaps_of(alloc, script, &steps)
}
