//! What of a trace is told: how far, and what is said of it.
ghost use Rattle.std.specs.Prelude.{◌≡◌, IfOk, false, is_some};
ghost use Rattle.lrc_check.specs.Traces.Prelude.{IsLawfulTrace, trace_sizes_of};
ghost use Rattle.lrc_check.specs.Prelude.{IsHeldTrace, IsTraceRaceApart, IsTraceTold, IsTrueCheckVerdict, is_told_trace_a_lie};

use crate::checked::{Rules, TraceVerdict};
use crate::checking_traces::{JudgedTrace, trace_race_apart};
use crate::history_judge::judge_history;
use crate::told_events::ToldEvents;
use crate::told_races::ToldRaces;
use crate::trace_history::{trace_history_of, trace_history_sizes};
use crate::traces::trace::LabelledTrace;
use crate::verdict_text::{verdict_lie_text, verdict_text_of};
use crate::waiting::waits_at_end_of_trace;
use causes::wait_circles;
use journal::Event;
use judge::{History, MemoryModel};
use std::alloc::{AllocError, Global};

/// What of a trace is told: its events up to the first lie and with it, or all if there is none.
#[derive(Drop)]
pub struct ToldTrace<'a> {
    pub history: History<'a>,
    /// Their labels, as they are shown among other words: a byte that is no printable sign of ASCII as `?`.
    pub labels: Vec<Vec<u8>>,
    /// Why the last of them is a lie, as the verdict says it; None if it is none.
    pub lie: Option<String>,
    /// The places of the two accesses of the first race, the nearest one; None if no race was found.
    pub race: Option<(usize, usize)>,
    /// The text that `check` writes of the trace.
    pub verdict: Vec<u8>,
}

/// Why the event that ended the judging is a lie; None if it ended otherwise.
fn lie_to_tell_of_trace(alloc: Global, verdict: &TraceVerdict) -> Result<Option<String>, AllocError>
    ensures { IfOk result (λ lie. is_some lie ≡ is_told_trace_a_lie verdict.now) }
{
    match verdict {
        TraceVerdict::Lie(lie) => Ok(Some(verdict_lie_text(alloc, lie)?)),
        _ => Ok(None),
    }
}

/// What is told of the trace, of which this was found by the rules. The only error is running out of memory.
fn tell_judged_trace<'a>(
    alloc: Global,
    labelled: &'a LabelledTrace,
    judged: &JudgedTrace,
    rules: Rules,
) -> Result<ToldTrace<'a>, AllocError>
    requires held { IsHeldTrace (trace_sizes_of labelled.now.trace.sizes) labelled.now.trace.events.items }
    requires on { rules.ends_at_race ≡ false }
    requires found { IsTrueCheckVerdict rules (trace_sizes_of labelled.now.trace.sizes) labelled.now.trace.events.items judged.now.found }
    ensures { IfOk result (IsTraceTold rules.model rules.lax (trace_sizes_of labelled.now.trace.sizes) labelled.now.trace.events.items
        labelled.now.labels) }
{
    let told = ToldEvents::of_trace(labelled);
    let verdict = verdict_text_of(alloc, told, judged, rules)?;
    let lie = lie_to_tell_of_trace(alloc, &judged.found.verdict)?;
    let count = judged.found.count;
    let events: &[Event] = &labelled.trace.events;
    let labels = labelled.labels.shown(alloc, count)?;
    Ok(ToldTrace {
        history: trace_history_of(labelled.trace.sizes, &events[..count]),
        labels,
        lie,
        race: judged.found.race,
        verdict,
    })
}

/// Judges the trace by these rules. The only error is running out of memory.
fn judge_told_trace(
    alloc: Global,
    labelled: &LabelledTrace,
    rules: Rules,
) -> Result<JudgedTrace, AllocError>
    requires { IsLawfulTrace (trace_sizes_of labelled.now.trace.sizes) labelled.now.trace.events.items }
    ensures found { IfOk result
        (λ x. IsTrueCheckVerdict rules (trace_sizes_of labelled.now.trace.sizes) labelled.now.trace.events.items x.found) }
    ensures race { IfOk result
        (λ x. IsTraceRaceApart (trace_sizes_of labelled.now.trace.sizes) labelled.now.trace.events.items x.found.race x.race) }
{
    let sizes = labelled.trace.sizes;
    let events: &[Event] = &labelled.trace.events;
    let (found, unprotected) = judge_history(alloc, trace_history_sizes(sizes), events, rules)?;
    let race = trace_race_apart(alloc, sizes, events, found.race)?;
    let waits = waits_at_end_of_trace(alloc, sizes, events, &found.verdict)?;
    let circles = wait_circles(alloc, &waits)?;
    Ok(JudgedTrace {
        found,
        race,
        unprotected,
        racing: Vec::new(alloc),
        races: ToldRaces::none(alloc),
        waits,
        circles,
        unfinished: labelled.unfinished,
    })
}

/// What is told of the trace, which is judged by the model, lax or not. Whether it `can_trace_be_held` is to be asked before.
/// The only error is running out of memory.
pub fn tell_trace(
    alloc: Global,
    labelled: &LabelledTrace,
    model: MemoryModel,
    lax: bool,
) -> Result<ToldTrace<'_>, AllocError>
    requires { IsHeldTrace (trace_sizes_of labelled.now.trace.sizes) labelled.now.trace.events.items }
    ensures { IfOk result
        (IsTraceTold model lax (trace_sizes_of labelled.now.trace.sizes) labelled.now.trace.events.items labelled.now.labels) }
{
    let rules = Rules {
        model,
        lax,
        ends_at_race: false,
        locksets: None,
        all_races: false,
    };
    let judged = judge_told_trace(alloc, labelled, rules)?;
    let told = tell_judged_trace(alloc, labelled, &judged, rules);
    drop(judged);
    told
}
