//! What a script's text shows of events to come.
ghost use Rattle.std.specs.Prelude.{◌≡◌, ◌≤◌, ◌↔◌, ℕ, IfOk, Some, length, slice_get};
ghost use Rattle.lrc_script.specs.Prelude.{plan_of};
ghost use Rattle.lrc_script.specs.Lawful.{plan_addresses};
ghost use Rattle.std.specs.Global.{Vec as AVec};
ghost use Rattle.base.specs.Prelude.{most_processors};
ghost use Rattle.explore.specs.declared.prefixes.script_call.ScriptCall.{ScriptCall as AStep};
ghost use Rattle.explore.specs.declared.prefixes.script_call.ScriptCall.TheVariants.{Call};
ghost use Rattle.explore.specs.FreeChoice.{AreFreeChoiceEnds, AreFreeChoiceEndsOfAll, AreFreeChoiceNumbersSmall, AreFreeChoiceTextFacts, free_choice_numbered_call};
ghost use Rattle.explore.specs.Machines.{AreLawfulMachineSteps};

use crate::prefixes::ScriptCall;
use crate::text::guards::guarded_words;
use base::{MOST_LOCKS, MOST_PROCESSORS};
use journal::Kind;
use lrc_script::script::Script;
use std::alloc::{AllocError, Global};

/// Of each processor and number, how many steps there are up to the last that makes a call of that number; 0 if none does. Locks
/// and flags are numbered alike: there are at most as many of each.
pub type CallEnds = [[usize; MOST_LOCKS]; MOST_PROCESSORS];

/// What a script's text shows of events to come.
#[derive(Drop)]
pub struct TextFacts {
    /// Of each word, whether it is guarded.
    pub guarded: Vec<bool>,
    /// Where the asks for each lock end.
    pub ask_ends: CallEnds,
    /// Where each flag was set for the last time.
    pub set_ends: CallEnds,
}

/// Calls that have a number.
#[derive(Clone, Copy)]
pub enum NumberedCalls {
    /// Asks, by their locks.
    Asks,
    /// Sets, by their flags.
    Sets,
}

impl NumberedCalls {
    /// The number of the call that the step makes, if it is one of these.
    fn number(self, step: ScriptCall) -> Option<usize>
        ensures { (n : ℕ) → (result ≡ Some n) ↔ (step ≡ Call (free_choice_numbered_call self n)) }
    {
        match (self, step) {
            (NumberedCalls::Asks, ScriptCall::Call(Kind::Ask(lock))) => Some(lock),
            (NumberedCalls::Sets, ScriptCall::Call(Kind::Set(flag))) => Some(flag),
            _ => None,
        }
    }

    /// Of each number, how many of these steps there are up to the last that makes the call.
    fn ends_in(self, row: &[ScriptCall]) -> [usize; MOST_LOCKS]
        requires { AreFreeChoiceNumbersSmall row.now }
        ensures { AreFreeChoiceEnds self row.now result }
    {
        let mut ends = [0; MOST_LOCKS];
        for place in 0..row.len() {
            if let Some(number) = self.number(row[place]) {
                ends[number] = place + 1;
            }
        }
        ends
    }

    /// The same of each processor.
    fn ends_of_all(self, steps: &[Vec<ScriptCall>]) -> CallEnds
        requires few { length steps.now ≤ most_processors }
        requires small { (p : ℕ) (row : AVec AStep) → slice_get steps.now p ≡ Some row → AreFreeChoiceNumbersSmall row.items }
        ensures { AreFreeChoiceEndsOfAll self steps.now result }
    {
        let mut ends = [[0; MOST_LOCKS]; MOST_PROCESSORS];
        for processor in 0..steps.len() {
            ends[processor] = self.ends_in(&steps[processor]);
        }
        ends
    }
}

/// What the script's text shows. The only error is running out of memory.
pub fn text_facts(
    alloc: Global,
    script: &Script,
    steps: &[Vec<ScriptCall>],
) -> Result<TextFacts, AllocError>
    requires { AreLawfulMachineSteps (plan_of script.now) steps.now }
    ensures long { IfOk result (λ f. length f.guarded.items ≡ plan_addresses (plan_of script.now)) }
    ensures facts { IfOk result (AreFreeChoiceTextFacts steps.now) }
{
    let guarded = guarded_words(alloc, script, steps)?;
    Ok(TextFacts {
        guarded,
        ask_ends: NumberedCalls::Asks.ends_of_all(steps),
        set_ends: NumberedCalls::Sets.ends_of_all(steps),
    })
}
