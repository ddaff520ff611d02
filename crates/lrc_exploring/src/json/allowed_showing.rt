//! Whether the rules of the memory allow a run of a racy script that ends with words that were asked for, behind a schedule that races.
ghost use Rattle.std.specs.Prelude.{◌≡◌, ℕ, List, OnOk, Err};
ghost use Rattle.std.specs.Io.KnownBytes.{Appends};
ghost use Rattle.lrc_json.specs.Prelude.{AreMoreLinesPut, HasMembers};
ghost use Rattle.lrc_exploring.specs.Prelude.{IsAllowedShowingJson, allowed_until_rules};
ghost use Rattle.lrc_json.specs.declared.fault.JsonFault.TheVariants.{NoMemory};

use crate::json::allowed::put_alone_json;
use crate::json::explored::{put_explored_result_json, put_schedule_json};
use crate::json::showing::{put_showing_json, showing_summary_json};
use explore::{AllowedShowing, AllowedUntil, ExploredUntil, MemoryUntil, ShownRun};
use lrc_json::JsonFault;
use lrc_json::events::events_json;
use lrc_json::members::Members;
use lrc_json::output::JsonLines;
use lrc_script::script::Script;
use std::alloc::{AllocError, Global};
use std::io::Write;

/// Adds what a run shows that the rules allow, and its events, and if this memory never shows it, which store each load answers.
fn put_allowed_showing_run_json(
    members: &mut Members,
    alloc: Global,
    script: &Script,
    run: &ShownRun,
    until: &MemoryUntil<'_>,
) -> Result<(), AllocError> {
    put_explored_result_json(members, alloc, &script.shown, &run.outcome.replies);
    members.put_list("events", events_json(alloc, &run.events));
    match until {
        MemoryUntil::Never => put_alone_json(members, alloc, script, &run.events),
        _ => Ok(()),
    }
}

/// A run that the rules allow, and that ends with the words: what it shows, and its events; or an outcome that this memory shows, with its
/// schedule.
fn allowed_showing_run_json(
    alloc: Global,
    script: &Script,
    run: &ShownRun,
    until: &MemoryUntil<'_>,
) -> Result<Members, AllocError> {
    let mut members = Members::telling(alloc, "allowed");
    match until {
        MemoryUntil::Shown(outcome, schedule) => {
            put_explored_result_json(&mut members, alloc, &script.shown, &outcome.replies);
            put_schedule_json(&mut members, alloc, *schedule);
        }
        _ => put_allowed_showing_run_json(&mut members, alloc, script, run, until)?,
    }
    Ok(members)
}

/// Adds the line of a run that the rules allow, if they allow one.
fn put_allowed_showing_json(
    lines: &mut JsonLines,
    alloc: Global,
    script: &Script,
    showing: &AllowedShowing,
    until: &MemoryUntil<'_>,
)
    ensures { AreMoreLinesPut lines.old lines.new }
{
    if let AllowedShowing::Shown(run) = showing {
        lines.put_made(allowed_showing_run_json(alloc, script, run, until));
    }
}

/// What the rules say, and how many beginnings of runs were looked at.
fn allowed_showing_rules_json(alloc: Global, allowed: &AllowedUntil) -> Members
    ensures { HasMembers result (allowed_until_rules allowed.now) }
{
    let answer = match &allowed.showing {
        AllowedShowing::Shown(_) => "shown",
        AllowedShowing::Never => "never",
        AllowedShowing::Undecided => "undecided",
    };
    let mut members = Members::telling(alloc, "rules");
    members.put_text("until", answer);
    members.put_number("beginnings", allowed.beginnings);
    members
}

/// Writes a schedule of a racy script that races, and whether the rules of the memory allow a run that ends with the words that were asked for,
/// and flushes the writer: the objects of `write_showing_json`, and before `end` an `allowed`, if they allow one, and `rules`.
///
/// # Errors
///
/// NoMemory, after which nothing was written. After Output a beginning of the lines may be.
pub fn write_allowed_showing_json<W: Write>(
    alloc: Global,
    script: &Script,
    explored: &ExploredUntil,
    allowed: &AllowedUntil,
    until: &MemoryUntil<'_>,
    out: &mut W,
) -> Result<(), JsonFault>
    ensures written { OnOk result ((text : List ℕ) × IsAllowedShowingJson explored.now allowed.now text × Appends (W.contents out.old) (W.contents out.new) text) }
    ensures unwritten { result ≡ Err NoMemory → W.contents out.new ≡ W.contents out.old }
{
    let mut lines = JsonLines::new(alloc);
    put_showing_json(&mut lines, alloc, script, explored);
    put_allowed_showing_json(&mut lines, alloc, script, &allowed.showing, until);
    lines.put(allowed_showing_rules_json(alloc, allowed));
    lines.put(showing_summary_json(alloc, explored));
    lines.write(out)
}
