//! Writes whether the rules of the memory allow a run of a racy script that ends with words that were asked for.
ghost use Rattle.std.specs.Prelude.{◌≡◌, ◌++◌, IfErr, IfOk, OnOk, codes};
ghost use Rattle.lrc_report.specs.Prelude.{report_events_text};
ghost use Rattle.lrc_explore.specs.Prelude.{AllowedShowingWritten, ExploreTextUnwritten, IsAllowedShowingAnswer, IsAllowedShowingOfMemory, IsAllowedShowingOfRun, IsAllowedShowingOfSchedule, IsAllowedShowingText, allowed_text_beginnings};

use crate::allowed_text::put_allowed_text_beginnings;
use crate::explored_events::put_explored_events;
use crate::explored_text::write_explored_text;
use crate::fault::ExploreFault;
use crate::outcomes::{explored_outcome_line, put_run_answers};
use crate::schedule_lines::schedule_line;
use crate::showing_text::showing_text_of;
use conformance::Schedule;
use explore::{AllowedShowing, AllowedUntil, ExploredUntil, MemoryUntil, ScriptOutcome, ShownRun};
use journal::Event;
use lrc_script::script::Script;
use std::alloc::{AllocError, Global};
use std::io::Write;

/// Adds this line on what the rules allow, that of what a run shows, one for each of its events, and those on what its loads answer.
fn put_allowed_showing_run(
    text: &mut Vec<u8>,
    first: &[u8],
    outcome: &[u8],
    events: &[Event],
    answers: &[u8],
) -> Result<(), AllocError>
    ensures { OnOk result (text.new.items ≡ text.old.items ++ (first.now ++ outcome.now ++ report_events_text 0 events.now
        ++ answers.now)) }
{
    text.extend_from_slice(first)?;
    text.extend_from_slice(outcome)?;
    put_explored_events(text, events)?;
    text.extend_from_slice(answers)?;
    Ok(())
}

/// The lines of a run that the rules allow, of which nothing is known of this memory.
fn allowed_showing_run(
    alloc: Global,
    script: &Script,
    run: &ShownRun,
) -> Result<Vec<u8>, AllocError>
    ensures { IfOk result (λ t. IsAllowedShowingOfRun (codes "until by the rules\n") run.now.events.items t.items) }
{
    let outcome = explored_outcome_line(alloc, &script.shown, &run.outcome)?;
    let mut text = Vec::new(alloc);
    put_allowed_showing_run(
        &mut text,
        b"until by the rules\n",
        &outcome,
        &run.events,
        &[],
    )?;
    Ok(text)
}

/// The lines of a run that the rules alone allow.
fn allowed_showing_run_alone(
    alloc: Global,
    script: &Script,
    run: &ShownRun,
) -> Result<Vec<u8>, AllocError>
    ensures { IfOk result (λ t. IsAllowedShowingOfRun (codes "until by the rules alone\n") run.now.events.items t.items) }
{
    let outcome = explored_outcome_line(alloc, &script.shown, &run.outcome)?;
    let mut answers = Vec::new(alloc);
    put_run_answers(&mut answers, alloc, script, &run.events)?;
    let mut text = Vec::new(alloc);
    put_allowed_showing_run(
        &mut text,
        b"until by the rules alone\n",
        &outcome,
        &run.events,
        &answers,
    )?;
    Ok(text)
}

/// Adds that a run is shown, the line of what it shows, and that of a schedule.
fn put_allowed_showing_schedule(
    text: &mut Vec<u8>,
    outcome: &[u8],
    schedule: &[u8],
) -> Result<(), AllocError>
    ensures { OnOk result (text.new.items ≡ text.old.items ++ (codes "until shown\n" ++ outcome.now ++ schedule.now)) }
{
    text.extend_from_slice(b"until shown\n")?;
    text.extend_from_slice(outcome)?;
    text.extend_from_slice(schedule)
}

/// The lines of a run that this memory shows.
fn allowed_showing_schedule(
    alloc: Global,
    script: &Script,
    outcome: &ScriptOutcome,
    schedule: &Schedule,
) -> Result<Vec<u8>, AllocError>
    ensures { IfOk result (λ t. IsAllowedShowingOfSchedule t.items) }
{
    let outcome = explored_outcome_line(alloc, &script.shown, outcome)?;
    let line = schedule_line(alloc, schedule)?;
    let mut text = Vec::new(alloc);
    put_allowed_showing_schedule(&mut text, &outcome, line.as_bytes())?;
    Ok(text)
}

/// The lines on a run that the rules allow, by whether this memory shows one that ends with the words.
fn allowed_showing_of_memory(
    alloc: Global,
    script: &Script,
    run: &ShownRun,
    until: &MemoryUntil<'_>,
) -> Result<Vec<u8>, AllocError>
    ensures { IfOk result (λ t. IsAllowedShowingOfMemory until.now run.now.events.items t.items) }
{
    match until {
        MemoryUntil::Shown(outcome, schedule) => {
            allowed_showing_schedule(alloc, script, *outcome, *schedule)
        }
        MemoryUntil::Never => allowed_showing_run_alone(alloc, script, run),
        MemoryUntil::Undecided => allowed_showing_run(alloc, script, run),
    }
}

/// The lines of what the rules allow.
fn allowed_showing_answer(
    alloc: Global,
    script: &Script,
    showing: &AllowedShowing,
    until: &MemoryUntil<'_>,
) -> Result<Vec<u8>, AllocError>
    ensures { IfOk result (λ t. IsAllowedShowingAnswer showing.now until.now t.items) }
{
    match showing {
        AllowedShowing::Shown(run) => allowed_showing_of_memory(alloc, script, run, until),
        AllowedShowing::Never => Vec::from_slice(alloc, b"until never by the rules\n"),
        AllowedShowing::Undecided => Vec::from_slice(alloc, b"until undecided by the rules\n"),
    }
}

/// Adds the lines of what the rules allow, and how many beginnings of runs were looked at.
fn put_allowed_showing(
    text: &mut Vec<u8>,
    answer: &[u8],
    beginnings: usize,
) -> Result<(), AllocError>
    ensures { OnOk result (text.new.items ≡ text.old.items ++ (answer.now ++ allowed_text_beginnings beginnings)) }
{
    text.extend_from_slice(answer)?;
    put_allowed_text_beginnings(text, beginnings)?;
    Ok(())
}

/// The text of what was found of a racy script, with what the rules allow.
fn allowed_showing_text(
    alloc: Global,
    script: &Script,
    explored: &ExploredUntil,
    allowed: &AllowedUntil,
    until: &MemoryUntil<'_>,
) -> Result<Vec<u8>, AllocError>
    ensures { IfOk result (λ t. IsAllowedShowingText explored.now allowed.now until.now t.items) }
{
    let answer = allowed_showing_answer(alloc, script, &allowed.showing, until)?;
    let mut text = showing_text_of(alloc, script, explored)?;
    put_allowed_showing(&mut text, &answer, allowed.beginnings)?;
    Ok(text)
}

/// Writes what was found of all schedules of a racy script as `render_showing_text` does. Then it writes whether this memory shows
/// a run that ends with the words, or the rules alone allow one. It is one write if the writer takes all of it, and the writer is
/// flushed:
///
/// ```text
/// until by the rules alone
///   words 0 1
/// event 0 0 store 0 1
/// event 1 1 store 0 2
/// ..
///     event 9 0 load 0 1 answers event 0 0 store 0 1
/// beginnings 9
/// ```
///
/// The line of what the run shows is as `render` has it, and those of its events as a journal has them; behind them stands which store each load
/// answers. If this memory shows a run, the first line is `until shown`, and behind the second one stands that of a schedule alone. If the search
/// for a schedule was given up, the first line is `until by the rules`, and nothing is said of the answers. If the rules allow no such run,
/// it is `until never by the rules`, and `until undecided by the rules` if the search for one was given up.
///
/// # Errors
///
/// Output if a write or the flush fails; NoMemory, after which nothing was written.
pub fn render_allowed_showing_text<W: Write>(
    alloc: Global,
    script: &Script,
    explored: &ExploredUntil,
    allowed: &AllowedUntil,
    until: &MemoryUntil<'_>,
    out: &mut W,
) -> Result<(), ExploreFault>
    ensures written { OnOk result (AllowedShowingWritten (W.contents out.old) (W.contents out.new) explored.now allowed.now until.now) }
    ensures unwritten { IfErr result (ExploreTextUnwritten (W.contents out.old) (W.contents out.new)) }
{
    let text = allowed_showing_text(alloc, script, explored, allowed, until)?;
    write_explored_text(&text, out)
}
