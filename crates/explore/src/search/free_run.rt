//! Free events, one after another: the states between them are passed over.
ghost use Rattle.std.specs.Prelude.{◌≡◌, ◌++◌, List, MatchOption, OnOk, ⊤};
ghost use Rattle.explore.specs.FreeChoice.{AreFreeChoiceTextFacts};
ghost use Rattle.explore.specs.FreeRun.{IsFreeRunNoted, IsNextInFreeRun};
ghost use Rattle.explore.specs.Machines.{IsMachineRunning};

use crate::prefixes::ScriptCall;
use crate::search::free_choice::is_free_choice;
use crate::state::flat_state::FlatState;
use crate::state::origins::MOST_MAKERS;
use crate::state::wait_code::ProcessorNumber;
use crate::text::facts::TextFacts;
use arrayvec::ArrayVec;
use journal::Event;
use std::alloc::AllocError;

/// The first free event that may come next. What the processors behind its own may do isn't looked at, nor whether a call that
/// isn't free may be made.
fn free_run_next(state: &FlatState, steps: &[Vec<ScriptCall>], guarded: &[bool]) -> Option<Event>
    requires { IsMachineRunning state.now steps.now }
    ensures { MatchOption result ⊤ (IsNextInFreeRun steps.now guarded.now state.now) }
{
    for processor in 0..steps.len() {
        if let Some(kind) = state.next_call(steps, processor) {
            if is_free_choice(guarded, kind) && state.may_make(steps, processor, kind) {
                return Some(Event { processor, kind });
            }
        }
    }
    None
}

/// Makes free events as long as there are any, and adds their makers to these until there is no room for one more. The only
/// error is running out of memory, after which the machine may be of no use.
pub fn make_free_run(
    state: &mut FlatState,
    makers: &mut ArrayVec<ProcessorNumber, MOST_MAKERS>,
    steps: &[Vec<ScriptCall>],
    facts: &TextFacts,
) -> Result<(), AllocError>
    requires running { IsMachineRunning state.old steps.now }
    requires facts { AreFreeChoiceTextFacts steps.now facts.now }
    ensures { OnOk result (IsFreeRunNoted steps.now state.old state.new makers.old.items makers.new.items) }
{
    while !makers.is_full() {
        let Some(event) = free_run_next(state, steps, &facts.guarded) else {
            return Ok(());
        };
        state.step(steps, event.processor, event.kind)?;
        makers.push(ProcessorNumber::of(event.processor));
    }
    Ok(())
}
