//! A history is judged.
ghost use Rattle.std.specs.Prelude.{◌≡◌, ◌≢◌, IfErr, IfOk};
ghost use Rattle.c_library.specs.Prelude.{IsCallFaultCode, IsGivenJudgedEvents, IsGivenJudgedFault, IsGivenJudgedTold};

use crate::call_fault::CallFault;
use crate::given::{
    GivenEvent, GivenRules, GivenSizes, are_given_few, given_events_of, have_given_kinds,
};
use crate::told_verdict::{ToldVerdict, told_verdict};
use journal::Event;
use lrc_check::judge_history;
use std::alloc::Global;

/// The events that are to be judged, if all that was handed in is in range.
pub fn given_judged_events(
    alloc: Global,
    sizes: GivenSizes,
    rules: GivenRules,
    events: &[GivenEvent],
) -> Result<Vec<Event>, CallFault>
    ensures taken { IfOk result (λ v. IsGivenJudgedEvents sizes rules events.now v.items) }
    ensures refused { IfErr result (IsGivenJudgedFault sizes rules events.now) }
{
    if !sizes.sizes().are_judged() {
        return Err(CallFault::BadSizes);
    }
    if !rules.are_known() {
        return Err(CallFault::BadRules);
    }
    if !are_given_few(events) {
        return Err(CallFault::TooMany);
    }
    if !have_given_kinds(events) {
        return Err(CallFault::BadEvent);
    }
    Ok(given_events_of(alloc, events)?)
}

/// Judges the events, if all that was handed in is in range.
fn judge_given(
    alloc: Global,
    sizes: GivenSizes,
    rules: GivenRules,
    events: &[GivenEvent],
) -> Result<ToldVerdict, CallFault>
    ensures told { IfOk result (IsGivenJudgedTold sizes rules events.now) }
    ensures refused { IfErr result (IsGivenJudgedFault sizes rules events.now) }
{
    let history = given_judged_events(alloc, sizes, rules, events)?;
    let (found, _) = judge_history(alloc, sizes.sizes(), &history, rules.rules())?;
    Ok(told_verdict(&found))
}

/// Judges the events by the rules, and writes what was found of them; answers 0. Else it answers the code of a fault, and
/// writes nothing.
#[unsafe(no_mangle)]
pub extern "C" fn cevandle_judge_nonnull(
    alloc: Global,
    sizes: GivenSizes,
    rules: GivenRules,
    events: &[GivenEvent],
    told: &mut ToldVerdict,
) -> u32
    ensures told { result ≡ 0 → IsGivenJudgedTold sizes rules events.now told.new }
    ensures refused { result ≢ 0 → IsCallFaultCode (IsGivenJudgedFault sizes rules events.now) result }
    ensures unwritten { result ≢ 0 → told.new ≡ told.old }
{
    match judge_given(alloc, sizes, rules, events) {
        Ok(found) => {
            *told = found;
            0
        }
        Err(fault) => fault.code(),
    }
}
