//! Whether a run of a script ends with words that were asked for: the run, or a schedule that races, and at the end the answer.
ghost use Rattle.std.specs.Prelude.{◌≡◌, ℕ, List, OnOk, Err, None};
ghost use Rattle.std.specs.Io.KnownBytes.{Appends};
ghost use Rattle.lrc_json.specs.Prelude.{AreLinesPut, HasMembers};
ghost use Rattle.lrc_exploring.specs.Prelude.{IsShowingFront, IsShowingJson, showing_end};
ghost use Rattle.lrc_json.specs.declared.fault.JsonFault.TheVariants.{NoMemory};

use crate::json::explored::{explored_race_json, put_explored_result_json, put_schedule_json};
use explore::{ExploredUntil, Showing, ShownRun};
use lrc_explore::schedule_of_events;
use lrc_json::JsonFault;
use lrc_json::members::Members;
use lrc_json::output::JsonLines;
use lrc_script::script::Script;
use std::alloc::{AllocError, Global};
use std::io::Write;

/// A run that ends with the words: what it shows, and a schedule by which the script comes to it.
fn showing_run_json(alloc: Global, script: &Script, run: &ShownRun) -> Result<Members, AllocError> {
    let schedule = schedule_of_events(alloc, script, &run.events)?;
    let mut members = Members::telling(alloc, "shown");
    put_explored_result_json(&mut members, alloc, &script.shown, &run.outcome.replies);
    put_schedule_json(&mut members, alloc, &schedule);
    Ok(members)
}

/// The answer, and how many states were found.
pub fn showing_summary_json(alloc: Global, explored: &ExploredUntil) -> Members
    ensures { HasMembers result (showing_end explored.now) }
{
    let (key, answer) = match &explored.showing {
        Showing::Shown(_) => ("until", "shown"),
        Showing::Never => ("until", "never"),
        Showing::Racy(_) => ("verdict", "racy"),
        Showing::Undecided => ("until", "undecided"),
    };
    let mut members = Members::telling(alloc, "end");
    members.put_text(key, answer);
    members.put_number("states", explored.states);
    members
}

/// Adds the line of a run that ends with the words, or of a schedule that races, if there is one.
pub fn put_showing_json(
    lines: &mut JsonLines,
    alloc: Global,
    script: &Script,
    explored: &ExploredUntil,
)
    ensures { lines.new.fault ≡ None → (front : List ℕ) × IsShowingFront explored.now.showing front × AreLinesPut lines.old lines.new front }
{
    match &explored.showing {
        Showing::Shown(run) => lines.put_made(showing_run_json(alloc, script, run)),
        Showing::Racy(racy) => lines.put_made(explored_race_json(alloc, script, racy)),
        _ => {}
    }
}

/// Writes whether a run of the script ends with the words that were asked for, and flushes the writer: an object a line. First
/// `shown`, if one does, or `race`, if a schedule races, and at the end `end`.
///
/// # Errors
///
/// NoMemory, after which nothing was written. After Output a beginning of the lines may be.
pub fn write_showing_json<W: Write>(
    alloc: Global,
    script: &Script,
    explored: &ExploredUntil,
    out: &mut W,
) -> Result<(), JsonFault>
    ensures written { OnOk result ((text : List ℕ) × IsShowingJson explored.now text × Appends (W.contents out.old) (W.contents out.new) text) }
    ensures unwritten { result ≡ Err NoMemory → W.contents out.new ≡ W.contents out.old }
{
    let mut lines = JsonLines::new(alloc);
    put_showing_json(&mut lines, alloc, script, explored);
    lines.put(showing_summary_json(alloc, explored));
    lines.write(out)
}
