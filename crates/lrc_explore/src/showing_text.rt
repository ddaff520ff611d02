//! Writes whether a run of a script ends with words that were asked for.
ghost use Rattle.std.specs.Prelude.{◌≡◌, ◌++◌, IfErr, IfOk, OnOk, codes};
ghost use Rattle.lrc_explore.specs.Prelude.{ExploreTextUnwritten, ShowingWritten, explore_text_states};
ghost use Rattle.lrc_explore.specs.Prelude.{IsShowingText, IsShowingTextOfRace, IsShowingTextOfRun};

use crate::explored_text::{put_explored_text_racy, put_explored_text_states, write_explored_text};
use crate::fault::ExploreFault;
use crate::outcomes::explored_outcome_line;
use crate::schedule_lines::schedule_line_of_events;
use explore::{ExploredUntil, RacyEvents, Showing, ShownRun};
use lrc_script::script::Script;
use std::alloc::{AllocError, Global};
use std::io::Write;

/// Adds that a run was found, the line of what it shows, that of its schedule, and how many states were found.
fn put_showing_text_of_run(
    text: &mut Vec<u8>,
    outcome: &[u8],
    schedule: &[u8],
    states: usize,
) -> Result<(), AllocError>
    ensures { OnOk result (text.new.items ≡ text.old.items ++ (codes "until shown\n" ++ outcome.now ++ schedule.now
        ++ explore_text_states states)) }
{
    text.extend_from_slice(b"until shown\n")?;
    text.extend_from_slice(outcome)?;
    text.extend_from_slice(schedule)?;
    put_explored_text_states(text, states)?;
    Ok(())
}

/// The text of a run that was found.
fn showing_text_of_run(
    alloc: Global,
    script: &Script,
    run: &ShownRun,
    states: usize,
) -> Result<Vec<u8>, AllocError>
    ensures { IfOk result (λ t. IsShowingTextOfRun states t.items) }
{
    let outcome = explored_outcome_line(alloc, &script.shown, &run.outcome)?;
    let line = schedule_line_of_events(alloc, script, &run.events)?;
    let mut text = Vec::new(alloc);
    put_showing_text_of_run(&mut text, &outcome, line.as_bytes(), states)?;
    Ok(text)
}

/// The text of a script that races.
fn showing_text_of_race(
    alloc: Global,
    script: &Script,
    racy: &RacyEvents,
    states: usize,
) -> Result<Vec<u8>, AllocError>
    ensures { IfOk result (λ t. IsShowingTextOfRace racy.now states t.items) }
{
    let line = schedule_line_of_events(alloc, script, &racy.events)?;
    let mut text = Vec::new(alloc);
    put_explored_text_racy(&mut text, racy, line.as_bytes(), &[], states)?;
    Ok(text)
}

/// The text that has this line, and how many states were found.
fn showing_text_of_line(alloc: Global, line: &[u8], states: usize) -> Result<Vec<u8>, AllocError>
    ensures { IfOk result (λ t. t.items ≡ line.now ++ explore_text_states states) }
{
    let mut text = Vec::from_slice(alloc, line)?;
    put_explored_text_states(&mut text, states)?;
    Ok(text)
}

/// The text of what was found. The only error is running out of memory.
pub fn showing_text_of(
    alloc: Global,
    script: &Script,
    explored: &ExploredUntil,
) -> Result<Vec<u8>, AllocError>
    ensures { IfOk result (λ t. IsShowingText explored.now.showing explored.now.states t.items) }
{
    let states = explored.states;
    match &explored.showing {
        Showing::Shown(run) => showing_text_of_run(alloc, script, run, states),
        Showing::Never => showing_text_of_line(alloc, b"until never\n", states),
        Showing::Racy(racy) => showing_text_of_race(alloc, script, racy, states),
        Showing::Undecided => showing_text_of_line(alloc, b"until undecided\n", states),
    }
}

/// Writes whether a run of the script ends with the words that were asked for, in one write if the writer takes all of it, and
/// flushes the writer:
///
/// ```text
/// until shown
///   words 0 2 replies p0 0 p1 1
///   schedule 0:2,1:2
/// states 12
/// ```
///
/// The line of what the run shows is as `render` has it. By the schedule `step` shows the same. If no run ends with the words,
/// the first line is `until never`, and `until undecided` if the search was given up. Of a script that races come the lines that
/// `render` has of it.
///
/// # Errors
///
/// Output if a write or the flush fails; NoMemory, after which nothing was written.
pub fn render_showing_text<W: Write>(
    alloc: Global,
    script: &Script,
    explored: &ExploredUntil,
    out: &mut W,
) -> Result<(), ExploreFault>
    ensures written { OnOk result (ShowingWritten (W.contents out.old) (W.contents out.new) explored.now) }
    ensures unwritten { IfErr result (ExploreTextUnwritten (W.contents out.old) (W.contents out.new)) }
{
    let text = showing_text_of(alloc, script, explored)?;
    write_explored_text(&text, out)
}
