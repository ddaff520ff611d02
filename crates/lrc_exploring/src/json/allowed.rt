//! What was found of all schedules of a racy script, and what its runs may show by the rules of the memory.
ghost use Rattle.std.specs.Prelude.{◌≡◌, ℕ, List, OnOk, Err};
ghost use Rattle.std.specs.Io.KnownBytes.{Appends};
ghost use Rattle.lrc_json.specs.Prelude.{AreMoreLinesPut, HasMembers};
ghost use Rattle.lrc_exploring.specs.Prelude.{IsAllowedJson, allowed_rules};
ghost use Rattle.lrc_json.specs.declared.fault.JsonFault.TheVariants.{NoMemory};

use crate::json::explored::{
    explored_summary_json, put_explored_json, put_explored_result_json, put_schedule_json,
};
use explore::{AllowedOutcomes, Explored, MemoryShowing, MemoryShown, ShownRun};
use journal::Event;
use lrc_explore::{RunAnswer, run_answers, sorted_run_outcomes};
use lrc_json::JsonFault;
use lrc_json::events::event_json;
use lrc_json::members::{Members, Values};
use lrc_json::output::JsonLines;
use lrc_script::script::Script;
use std::alloc::{AllocError, Global};
use std::io::Write;

/// A load of these events, and the store that it answers, if it answers one.
fn allowed_answer_json(alloc: Global, events: &[Event], answer: RunAnswer) -> Members {
    let mut members = Members::new(alloc);
    if let Some(load) = events.get(answer.load) {
        members.put_object("load", event_json(alloc, answer.load, *load, b""));
    }
    if let Some(place) = answer.store
        && let Some(store) = events.get(place)
    {
        members.put_object("store", event_json(alloc, place, *store, b""));
    }
    members
}

/// Adds that the rules alone allow a run with these events: which store each of its loads answers. The only error is running out
/// of memory.
pub fn put_alone_json(
    members: &mut Members,
    alloc: Global,
    script: &Script,
    events: &[Event],
) -> Result<(), AllocError> {
    let answers = run_answers(alloc, script, events)?;
    let mut list = Values::new(alloc);
    for answer in &answers {
        list.put_object(allowed_answer_json(alloc, events, *answer));
    }
    members.put_flag("alone", true);
    members.put_list("answers", list);
    Ok(())
}

/// An outcome that the rules allow, with a schedule if this memory shows it.
fn allowed_outcome_json(
    alloc: Global,
    script: &Script,
    run: &ShownRun,
    showing: MemoryShowing<'_>,
) -> Result<Members, AllocError> {
    let mut members = Members::telling(alloc, "allowed");
    put_explored_result_json(&mut members, alloc, &script.shown, &run.outcome.replies);
    match showing {
        MemoryShowing::Shown(schedule) => put_schedule_json(&mut members, alloc, schedule),
        MemoryShowing::Never => put_alone_json(&mut members, alloc, script, &run.events)?,
        MemoryShowing::Undecided => {}
    }
    Ok(members)
}

/// How many outcomes the rules allow, whether there are no others, and how many beginnings of runs were looked at.
fn allowed_rules_json(alloc: Global, allowed: &AllowedOutcomes) -> Members
    ensures { HasMembers result (allowed_rules allowed.now) }
{
    let mut members = Members::telling(alloc, "rules");
    members.put_number("outcomes", allowed.outcomes.len());
    members.put_flag("all", allowed.are_all);
    members.put_number("beginnings", allowed.beginnings);
    members
}

/// Adds a line for each outcome that the rules allow.
fn put_allowed_json(
    lines: &mut JsonLines,
    alloc: Global,
    script: &Script,
    allowed: &AllowedOutcomes,
    shown: &MemoryShown,
) -> Result<(), AllocError>
    ensures { OnOk result (AreMoreLinesPut lines.old lines.new) }
{
    let rows = sorted_run_outcomes(alloc, &allowed.outcomes)?;
    for (_, place) in &rows {
        if let Some(run) = allowed.outcomes.get(*place) {
            lines.put_made(allowed_outcome_json(alloc, script, run, shown.of(&run.outcome)));
        }
    }
    Ok(())
}

/// The same; that memory ran out is told at the end.
fn put_allowed_lines_json(
    lines: &mut JsonLines,
    alloc: Global,
    script: &Script,
    allowed: &AllowedOutcomes,
    shown: &MemoryShown,
)
    ensures { AreMoreLinesPut lines.old lines.new }
{
    let put = put_allowed_json(lines, alloc, script, allowed, shown);
    lines.note(put);
}

/// Writes what was found of all schedules of a racy script that shows these addresses, and what its runs may show by the rules of the
/// memory, and flushes the writer: the objects of `write_explored_json`, and before `end` an `allowed` for each outcome, with what `shown` says of it, and
/// `rules`.
///
/// # Errors
///
/// NoMemory, after which nothing was written. After Output a beginning of the lines may be.
pub fn write_allowed_json<W: Write>(
    alloc: Global,
    script: &Script,
    explored: &Explored,
    allowed: &AllowedOutcomes,
    shown: &MemoryShown,
    out: &mut W,
) -> Result<(), JsonFault>
    ensures written { OnOk result ((text : List ℕ) × IsAllowedJson explored.now allowed.now text × Appends (W.contents out.old) (W.contents out.new) text) }
    ensures unwritten { result ≡ Err NoMemory → W.contents out.new ≡ W.contents out.old }
{
    let mut lines = JsonLines::new(alloc);
    put_explored_json(&mut lines, alloc, script, explored);
    put_allowed_lines_json(&mut lines, alloc, script, allowed, shown);
    lines.put(allowed_rules_json(alloc, allowed));
    lines.put(explored_summary_json(alloc, explored));
    lines.write(out)
}
