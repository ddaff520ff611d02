//! Whether a history follows its script.
ghost use Rattle.std.specs.Prelude.{◌≡◌, ◌↔◌, ◌<◌, ◌+◌, ◌++◌, ◌∷◌, [], IfOk, IsTrue, List, MatchOption, None, Some, false, true, length, option_to_list, replicate, slice_get};
ghost use Rattle.journal.specs.declared.event.Event.{Event as AnEvent};
ghost use Rattle.lrc_script.specs.Prelude.{Plan, plan_of};
ghost use Rattle.conformance.specs.Follows.{calls_of, is_fetch};
ghost use Rattle.explore.specs.Prefixes.Prelude.{AreScriptCallRows};
ghost use Rattle.explore.specs.Prefixes.ScriptCalls.{FitsScriptCall, script_call_reply_after};
ghost use Rattle.lrc_tester.specs.Following.{HaveCome, IsEventNoted, IsFollowing, IsStrayMet, WrittenAsksLaw, left_out_ask, with_ask, with_asks};
ghost use Rattle.lrc_tester.specs.declared.following.Come.{Come as AStage};

use crate::next::{Next, next_of};
use explore::prefixes::{ScriptCall, script_calls_of_all};
use journal::{Event, Kind};
use lrc_script::script::Script;
use std::alloc::{AllocError, Global};

/// Whether a history follows its script.
#[derive(Clone, Copy)]
pub enum Following {
    /// It does.
    Follows,
    /// The event at this place isn't what its processor does next by the script, which is this. What stands before it begins the
    /// script.
    Strays(usize, Next),
    /// All events begin the script, and this processor is the least that hasn't come to its end, and what it does next.
    Unfinished(usize, Next),
}

/// How far a processor has come in its section.
#[derive(Clone, Copy)]
struct Come {
    /// How many calls it has made.
    made: usize,
    /// What its last load returned; 0 before.
    reply: u32,
    /// Its last call.
    last: Option<Kind>,
}

/// An event that strays.
#[derive(Clone, Copy)]
struct Stray {
    /// Its place.
    place: usize,
    /// Its processor.
    processor: usize,
    /// How many calls that has made before it.
    made: usize,
}

/// Whether a fetch, which is no call of a section.
fn is_fetch(kind: Kind) -> bool
    ensures { result ≡ is_fetch kind }
{
    match kind {
        Kind::Fetch { .. } => true,
        _ => false,
    }
}

/// Whether the call is what the step says, if the processor's last load returned this.
fn fits(step: ScriptCall, reply: u32, call: Kind) -> bool
    ensures { IsTrue result ↔ FitsScriptCall reply step call }
{
    match (step, call) {
        (ScriptCall::Call(Kind::Load(said, _)), Kind::Load(address, _)) => said == address,
        (ScriptCall::Call(said), _) => said == call,
        (ScriptCall::Adds(address, value), _) => {
            call == Kind::Store(address, reply.wrapping_add(value))
        }
    }
}

/// What the last load has returned after this call.
fn reply_after(reply: u32, call: Kind) -> u32
    ensures { result ≡ script_call_reply_after reply call }
{
    match call {
        Kind::Load(_, value) => value,
        _ => reply,
    }
}

/// The ask or the watch that was left out before this call, if its processor made that one last.
fn left_out_ask(last: Option<Kind>, call: Kind) -> Option<Kind>
    ensures { option_to_list result ≡ left_out_ask last call }
{
    match (call, last) {
        (Kind::Acquire(lock), Some(Kind::Ask(asked))) if asked == lock => None,
        (Kind::Acquire(lock), _) => Some(Kind::Ask(lock)),
        (Kind::Await(flag), Some(Kind::Watch(watched))) if watched == flag => None,
        (Kind::Await(flag), _) => Some(Kind::Watch(flag)),
        _ => None,
    }
}

impl Come {
    /// How far the processor has come with this call, if its steps say that next.
    fn after(self, steps: &[ScriptCall], call: Kind) -> Option<Come>
        ensures { MatchOption result
            ((step : ScriptCall) → slice_get steps.now self.made ≡ Some step → ¬ FitsScriptCall self.reply step call)
            (λ x. (step : ScriptCall) × (slice_get steps.now self.made ≡ Some step) × FitsScriptCall self.reply step call
            × (x.made ≡ self.made + 1) × (x.reply ≡ script_call_reply_after self.reply call) × (x.last ≡ Some call)) }
    {
        let step = *steps.get(self.made)?;
        if !fits(step, self.reply, call) {
            return None;
        }
        Some(Come {
            made: self.made + 1,
            reply: reply_after(self.reply, call),
            last: Some(call),
        })
    }
}

/// Takes note of an event, if it is what its processor's section says next: whether it is. A fetch always is.
fn take_note(rows: &[Vec<ScriptCall>], come: &mut [Come], event: Event) -> bool
    requires long { length come.old ≡ length rows.now }
    requires inside { event.processor < length come.old }
    ensures long { length come.new ≡ length come.old }
    ensures noted { (s : Plan) → (g : List AnEvent) → AreScriptCallRows s rows.now → HaveCome s come.old g
        → IsEventNoted s come.new (g ++ event ∷ []) result }
{
    if is_fetch(event.kind) {
        return true;
    }
    let now = come[event.processor];
    match now.after(&rows[event.processor], event.kind) {
        Some(next) => {
            come[event.processor] = next;
            true
        }
        None => false,
    }
}

/// Takes note of two events of one processor, the first before the second, if they are what its section says next.
fn take_both(rows: &[Vec<ScriptCall>], come: &mut [Come], first: Event, second: Event) -> bool
    requires long { length come.old ≡ length rows.now }
    requires inside { first.processor < length come.old }
    requires same { first.processor ≡ second.processor }
    ensures long { length come.new ≡ length come.old }
    ensures noted { (s : Plan) → (g : List AnEvent) → AreScriptCallRows s rows.now → HaveCome s come.old g
        → IsEventNoted s come.new ((g ++ first ∷ []) ++ second ∷ []) result }
{
    take_note(rows, come, first) && take_note(rows, come, second)
}

/// Takes note of an event, and right before it of the ask or the watch that was left out: whether they are what its processor's
/// section says next. An event of a processor that has no section always is.
fn take_with_ask(rows: &[Vec<ScriptCall>], come: &mut [Come], event: Event) -> bool
    requires { length come.old ≡ length rows.now }
    ensures long { length come.new ≡ length come.old }
    ensures noted { (s : Plan) → (g : List AnEvent) → AreScriptCallRows s rows.now → HaveCome s come.old g
        → IsEventNoted s come.new (with_ask g event) result }
{
    if event.processor >= come.len() {
        return true;
    }
    match left_out_ask(come[event.processor].last, event.kind) {
        Some(kind) => {
            let ask = Event {
                processor: event.processor,
                kind,
            };
            take_both(rows, come, ask, event)
        }
        None => take_note(rows, come, event),
    }
}

/// Whether the history follows its script, if all events begin it.
fn end(script: &Script, rows: &[Vec<ScriptCall>], come: &[Come]) -> Following
    requires { length come.now ≡ length rows.now }
    ensures { (g : List AnEvent) → AreScriptCallRows (plan_of script.now) rows.now → HaveCome (plan_of script.now) come.now (with_asks g)
        → IsFollowing (plan_of script.now) g result }
{
    for processor in 0..come.len() {
        let made = come[processor].made;
        if made != rows[processor].len() {
            return Following::Unfinished(processor, next_of(script, processor, made));
        }
    }
    Following::Follows
}

/// How many calls the processor has made; 0, if it has no section.
fn calls_made(come: &[Come], processor: usize) -> usize
    ensures { (x : AStage) → slice_get come.now processor ≡ Some x → result ≡ x.made }
{
    match come.get(processor) {
        Some(x) => x.made,
        None => 0,
    }
}

/// The first event that isn't what its processor does next.
fn first_stray(rows: &[Vec<ScriptCall>], come: &mut [Come], events: &[Event]) -> Option<Stray>
    requires { length come.old ≡ length rows.now }
    ensures long { length come.new ≡ length come.old }
    ensures stray { (s : Plan) → AreScriptCallRows s rows.now → HaveCome s come.old []
        → MatchOption result (HaveCome s come.new (with_asks events.now)) (IsStrayMet s events.now) }
{
    for place in 0..events.len() {
        let event = events[place];
        let made = calls_made(come, event.processor);
        if !take_with_ask(rows, come, event) {
            return Some(Stray {
                place,
                processor: event.processor,
                made,
            });
        }
    }
    None
}

/// How far processors have come before the first event.
fn start(alloc: Global, processors: usize) -> Result<Vec<Come>, AllocError>
    ensures { IfOk result (λ v. v.items ≡ replicate processors (record { made = 0; reply = 0; last = None })) }
{
    let come = vec![in alloc; Come {
        made: 0,
        reply: 0,
        last: None
    }; processors]?;
    Ok(come)
}

/// Whether the events follow the script: each processor's calls, fetches aside, are those of its section, a closing barrier's, and
/// of processor 0 the loads of the shown words. An ask or a watch may be left out: its acquire or await stands for it, too. It
/// takes time in the order of the events, and memory in that of the script. The only error is running out of memory.
pub fn follow(alloc: Global, script: &Script, events: &[Event]) -> Result<Following, AllocError>
    ensures { IfOk result (IsFollowing (plan_of script.now) events.now) }
{
    let rows = script_calls_of_all(alloc, script)?;
    let mut come = start(alloc, rows.len())?;
    match first_stray(&rows, &mut come, events) {
        Some(stray) => {
            let next = next_of(script, stray.processor, stray.made);
            Ok(Following::Strays(stray.place, next))
        }
        None => Ok(end(script, &rows, &come)),
    }
}

/// A history that follows the script as it is written follows it with the left-out asks put in, too.
pub fn written_asks_law()
    ensures { WrittenAsksLaw }
{}
