//! What processors have called among some events, and what they call next.
ghost use Rattle.std.specs.Prelude.{◌≡◌, ◌↔◌, ◌<◌, ◌≤◌, ◌==◌, ◌++◌, ℕ, IfOk, OnOk, [], ◌∷◌, cond, count_by, length, slice_get, Some};
ghost use Rattle.std.specs.Global.{Vec as AVec};
ghost use Rattle.journal.specs.declared.event.Event.{Event as AnEvent};
ghost use Rattle.journal.specs.declared.event.Kind.{Kind as AKind};
ghost use Rattle.conformance.specs.Follows.{calls_of, is_fetch};
ghost use Rattle.explore.specs.declared.prefixes.script_call.ScriptCall.{ScriptCall as AStep};
ghost use Rattle.explore.specs.Prefixes.ScriptCalls.{FitsScriptCall, last_reply_of_script_calls, replyless_script_call, script_call_reply_after};
ghost use Rattle.explore.specs.OutcomeTelling.{outcome_telling_replies};

use crate::outcomes::telling::OutcomeTelling;
use crate::outcomes::told_replies::told_replies_of;
use crate::prefixes::ScriptCall;
use journal::{Event, Kind};
use std::alloc::{AllocError, Global};

/// The call that the step says, after this reply; a load without one.
pub fn call_of(step: ScriptCall, reply: u32) -> Kind
    ensures call { (k : AKind) → (result ≡ replyless_script_call k) ↔ FitsScriptCall reply step k }
    ensures plain { replyless_script_call result ≡ result }
{
    match step {
        ScriptCall::Call(Kind::Load(address, _)) => Kind::Load(address, 0),
        ScriptCall::Call(kind) => kind,
        ScriptCall::Adds(address, addend) => Kind::Store(address, reply.wrapping_add(addend)),
    }
}

/// How many of these events the processor made.
pub fn calls_made(events: &[Event], processor: usize) -> usize
    ensures { result ≡ count_by (λ (e : AnEvent). e.processor == processor) events.now }
{
    events
        .iter()
        .filter(|event| event.processor == processor)
        .count()
}

/// The reply that the processor was given last, after one event more.
fn reply_after(reply: u32, event: Event, processor: usize) -> u32
    ensures { result ≡ cond (event.processor == processor) (script_call_reply_after reply event.kind) reply }
{
    match event.kind {
        Kind::Load(_, word) if event.processor == processor => word,
        _ => reply,
    }
}

/// What the processor's last load among these events answered, 0 if there is none.
pub fn reply_before(events: &[Event], processor: usize) -> u32
    ensures { result ≡ last_reply_of_script_calls (calls_of events.now processor) }
{
    let mut reply = 0;
    for event in events {
        reply = reply_after(reply, *event, processor);
    }
    reply
}

/// Whether the event is a fetch, which is no call.
fn is_page_fetch(kind: Kind) -> bool
    ensures { result ≡ is_fetch kind }
{
    match kind {
        Kind::Fetch { .. } => true,
        _ => false,
    }
}

/// Puts the event's kind at the end, if the processor called it.
fn keep_call_by(calls: &mut Vec<Kind>, event: Event, processor: usize) -> Result<(), AllocError>
    ensures { OnOk result (calls.new.items ≡ calls.old.items ++ calls_of (event ∷ []) processor) }
{
    if event.processor == processor && !is_page_fetch(event.kind) {
        calls.push(event.kind)?;
    }
    Ok(())
}

/// What the processor called among these events, in order. The only error is running out of memory.
pub fn calls_by(alloc: Global, events: &[Event], processor: usize) -> Result<Vec<Kind>, AllocError>
    ensures { IfOk result (λ v. v.items ≡ calls_of events.now processor) }
{
    let mut calls = Vec::new(alloc);
    for event in events {
        keep_call_by(&mut calls, *event, processor)?;
    }
    Ok(calls)
}

/// What is told of the processor's loads among these events. Its steps are these. The only error is running out of memory.
fn replies_of(
    alloc: Global,
    telling: OutcomeTelling,
    events: &[Event],
    processor: usize,
    steps: &[ScriptCall],
) -> Result<Vec<u32>, AllocError>
    requires { length (calls_of events.now processor) ≤ length steps.now }
    ensures { IfOk result (λ v. v.items ≡ outcome_telling_replies telling processor steps.now 0 (calls_of events.now processor)) }
{
    let calls = calls_by(alloc, events, processor)?;
    told_replies_of(alloc, telling, processor, steps, &calls)
}

/// Of each processor, what is told of its loads among these events. Its steps are one of these rows. The only error is running out of
/// memory.
pub fn replies_of_all(
    alloc: Global,
    telling: OutcomeTelling,
    events: &[Event],
    steps: &[Vec<ScriptCall>],
) -> Result<Vec<Vec<u32>>, AllocError>
    requires { (p : ℕ) (row : AVec AStep) → slice_get steps.now p ≡ Some row
        → length (calls_of events.now p) ≤ length row.items }
    ensures long { IfOk result (λ v. length v.items ≡ length steps.now) }
    ensures each { IfOk result (λ v. (p : ℕ) (row : AVec AStep) (told : AVec ℕ) → slice_get steps.now p ≡ Some row
        → slice_get v.items p ≡ Some told → told.items ≡ outcome_telling_replies telling p row.items 0 (calls_of events.now p)) }
{
    let mut all = Vec::new(alloc);
    for processor in 0..steps.len() {
        let row = &steps[processor];
        all.push(replies_of(alloc, telling, events, processor, row)?)?;
    }
    Ok(all)
}
