//! Writes what all schedules of a script come to.
ghost use Rattle.std.specs.Prelude.{◌≡◌, ◌++◌, IfErr, IfOk, OnOk, codes, vec_len};
ghost use Rattle.std.specs.Io.KnownBytes.{Appends};
ghost use Rattle.lrc_explore.specs.declared.fault.ExploreFault.TheVariants.{Output};
ghost use Rattle.lrc_report.specs.Prelude.{report_events_text};
ghost use Rattle.lrc_explore.specs.Prelude.{IsExploreText, IsExploreTextOfHangEvents, IsExploreTextOfHang, IsExploreTextOfMetHang, IsExploreTextOfQuiet, IsExploreTextOfRacy};
ghost use Rattle.lrc_explore.specs.Prelude.{ExploreTextUnwritten, ExploreTextWritten, explore_text_outcomes_end, explore_text_outcomes, explore_text_racy, explore_text_states};

use crate::explored_events::{put_explored_event_at, put_explored_events};
use crate::fault::ExploreFault;
use crate::hanging::hanging_waits_text;
use crate::numbers::put_number;
use crate::outcomes::shown_outcome_lines;
use crate::schedule_lines::schedule_line_of_events;
use explore::{Explored, Hang, Hanging, RacyEvents, Verdict};
use journal::Event;
use lrc_script::script::Script;
use std::alloc::{AllocError, Global};
use std::io::Write;

/// Adds how many states were found.
pub fn put_explored_text_states(text: &mut Vec<u8>, states: usize) -> Result<(), AllocError>
    ensures { OnOk result (text.new.items ≡ text.old.items ++ explore_text_states states) }
{
    put_number(text, b"states ", states as u64)?;
    text.extend_from_slice(b"\n")
}

/// Adds a schedule that hangs, these lines on who waits for what, and that of its turns.
fn put_explored_text_hang(
    text: &mut Vec<u8>,
    hang: &Hang,
    waits: &[u8],
    schedule: &[u8],
) -> Result<(), AllocError>
    ensures { OnOk result (text.new.items
        ≡ text.old.items ++ (codes "hangs\n" ++ report_events_text 0 hang.now.events.items ++ waits.now ++ schedule.now)) }
{
    text.extend_from_slice(b"hangs\n")?;
    put_explored_events(text, &hang.events)?;
    text.extend_from_slice(waits)?;
    text.extend_from_slice(schedule)
}

/// A schedule that hangs: its events, who waits for what, and its turns.
fn explored_text_of_hang_events(
    alloc: Global,
    script: &Script,
    hang: &Hang,
) -> Result<Vec<u8>, AllocError>
    ensures { IfOk result (λ t. IsExploreTextOfHangEvents hang.now t.items) }
{
    let waits = hanging_waits_text(alloc, hang)?;
    let line = schedule_line_of_events(alloc, script, &hang.events)?;
    let mut text = Vec::new(alloc);
    put_explored_text_hang(&mut text, hang, &waits, line.as_bytes())?;
    Ok(text)
}

/// Whether a schedule hangs, and how.
fn explored_text_of_hang(
    alloc: Global,
    script: &Script,
    hanging: &Hanging,
) -> Result<Vec<u8>, AllocError>
    ensures { IfOk result (λ t. IsExploreTextOfHang hanging.now t.items) }
{
    match hanging {
        Hanging::Never => Vec::from_slice(alloc, b"hangs never\n"),
        Hanging::Hangs(hang) => explored_text_of_hang_events(alloc, script, hang),
        Hanging::Undecided => Vec::from_slice(alloc, b"hangs undecided\n"),
    }
}

/// A schedule that hangs, if one was met.
fn explored_text_of_met_hang(
    alloc: Global,
    script: &Script,
    hanging: &Hanging,
) -> Result<Vec<u8>, AllocError>
    ensures { IfOk result (λ t. IsExploreTextOfMetHang hanging.now t.items) }
{
    match hanging {
        Hanging::Hangs(hang) => explored_text_of_hang_events(alloc, script, hang),
        _ => Ok(Vec::new(alloc)),
    }
}

/// The end of the line on outcomes: whether there are no others.
fn explored_text_count_end(are_all: bool) -> &'static [u8]
    ensures { result.now ≡ explore_text_outcomes_end are_all }
{
    if are_all { b"\n" } else { b" so far\n" }
}

/// Adds how many outcomes were found, and whether there are no others.
fn put_explored_text_count(
    text: &mut Vec<u8>,
    outcomes: usize,
    are_all: bool,
) -> Result<(), AllocError>
    ensures { OnOk result (text.new.items ≡ text.old.items ++ explore_text_outcomes outcomes are_all) }
{
    put_number(text, b"outcomes ", outcomes as u64)?;
    text.extend_from_slice(explored_text_count_end(are_all))
}

/// Adds the events of a schedule that races, and the lines of the two that race: the one at this place and the last one.
fn put_explored_text_race(
    text: &mut Vec<u8>,
    events: &[Event],
    first: usize,
) -> Result<(), AllocError>
    ensures { OnOk result (text.new.items ≡ text.old.items ++ explore_text_racy events.now first) }
{
    let last = events.len().saturating_sub(1);
    put_explored_events(text, events)?;
    text.extend_from_slice(b"race\n")?;
    put_explored_event_at(text, events, first)?;
    put_explored_event_at(text, events, last)
}

/// Adds the text of a script that races, by this line of a schedule, and of which there are these lines on a hang that was met.
/// The only error is running out of memory.
pub fn put_explored_text_racy(
    text: &mut Vec<u8>,
    racy: &RacyEvents,
    schedule: &[u8],
    hang: &[u8],
    states: usize,
) -> Result<(), AllocError>
    ensures { OnOk result (text.new.items ≡ text.old.items ++ (codes "verdict racy\n"
        ++ explore_text_racy racy.now.events.items racy.now.first ++ schedule.now ++ hang.now ++ explore_text_states states)) }
{
    text.extend_from_slice(b"verdict racy\n")?;
    put_explored_text_race(text, &racy.events, racy.first)?;
    text.extend_from_slice(schedule)?;
    text.extend_from_slice(hang)?;
    put_explored_text_states(text, states)?;
    Ok(())
}

/// Adds the text of a script of which no race was found, after the line of its verdict, with these lines on its outcomes
/// and its hangs.
fn put_explored_text_quiet(
    text: &mut Vec<u8>,
    verdict: &[u8],
    explored: &Explored,
    outcomes: &[u8],
    hangs: &[u8],
) -> Result<(), AllocError>
    ensures { OnOk result (text.new.items ≡ text.old.items ++ (verdict.now
        ++ explore_text_outcomes (vec_len explored.now.outcomes) explored.now.are_all ++ outcomes.now ++ hangs.now
        ++ explore_text_states explored.now.states)) }
{
    text.extend_from_slice(verdict)?;
    put_explored_text_count(text, explored.outcomes.len(), explored.are_all)?;
    text.extend_from_slice(outcomes)?;
    text.extend_from_slice(hangs)?;
    put_explored_text_states(text, explored.states)?;
    Ok(())
}

/// The text of a script of which no race was found, after the line of its verdict.
fn explored_text_of_quiet(
    alloc: Global,
    verdict: &[u8],
    script: &Script,
    explored: &Explored,
) -> Result<Vec<u8>, AllocError>
    ensures { IfOk result (λ t. IsExploreTextOfQuiet verdict.now explored.now t.items) }
{
    let outcomes = shown_outcome_lines(alloc, script, &explored.outcomes)?;
    let hangs = explored_text_of_hang(alloc, script, &explored.hanging)?;
    let mut text = Vec::new(alloc);
    put_explored_text_quiet(&mut text, verdict, explored, &outcomes, &hangs)?;
    Ok(text)
}

/// The text of a script that races.
fn explored_text_of_racy(
    alloc: Global,
    script: &Script,
    racy: &RacyEvents,
    explored: &Explored,
) -> Result<Vec<u8>, AllocError>
    ensures { IfOk result (λ t. IsExploreTextOfRacy racy.now explored.now t.items) }
{
    let line = schedule_line_of_events(alloc, script, &racy.events)?;
    let hang = explored_text_of_met_hang(alloc, script, &explored.hanging)?;
    let mut text = Vec::new(alloc);
    put_explored_text_racy(&mut text, racy, line.as_bytes(), &hang, explored.states)?;
    Ok(text)
}

/// The text of what was found of the script. The only error is running out of memory.
pub fn explored_text_of(
    alloc: Global,
    script: &Script,
    explored: &Explored,
) -> Result<Vec<u8>, AllocError>
    ensures { IfOk result (λ t. IsExploreText explored.now t.items) }
{
    match &explored.verdict {
        Verdict::RaceFree => explored_text_of_quiet(
            alloc,
            b"verdict race-free under every schedule\n",
            script,
            explored,
        ),
        Verdict::Racy(racy) => explored_text_of_racy(alloc, script, racy, explored),
        Verdict::Undecided => explored_text_of_quiet(
            alloc,
            b"verdict undecided\n",
            script,
            explored,
        ),
    }
}

/// Writes the text and flushes the writer.
pub fn write_explored_text<W: Write>(text: &[u8], out: &mut W) -> Result<(), ExploreFault>
    ensures written { OnOk result (Appends (W.contents out.old) (W.contents out.new) text.now) }
    ensures fault { IfErr result (λ e. e ≡ Output) }
{
    match out.write_all(text) {
        Ok(()) => match out.flush() {
            Ok(()) => Ok(()),
            Err(_) => Err(ExploreFault::Output),
        },
        Err(_) => Err(ExploreFault::Output),
    }
}

/// Writes what was found of all schedules of the script, in one write if the writer takes all of it, and flushes the
/// writer:
///
/// ```text
/// verdict race-free under every schedule
/// outcomes 2
///   words 0 2 replies p0 0 p1 1 schedule 0:4,1:4,0
///   words 0 2 replies p0 1 p1 0 schedule 1:4,0:4,1
/// hangs never
/// states 5
/// ```
///
/// An outcome's line has each shown address with its word at the end, and for each processor that loads what its own loads
/// answered, in order; and a schedule by which `step` shows it. The lines stand in rising order of the replies: of
/// processor 0 first, those that show the words among them, as its last ones. If some schedule can't go on, behind `hangs`
/// come its events, a line for each processor that waits, and one of its turns. Of a script that races come the events of a
/// schedule whose last one races, then `race`, the lines of the two and that of the turns. A schedule that hangs is last, if
/// one was met. Of a search that was given up there is what it has found: `verdict undecided`, `outcomes N so far`,
/// `hangs undecided`, or what is known in place of each.
///
/// It takes time and memory in the order of the text, beside sorting the outcomes.
///
/// # Errors
///
/// Output if a write or the flush fails; NoMemory, after which nothing was written.
pub fn render<W: Write>(
    alloc: Global,
    script: &Script,
    explored: &Explored,
    out: &mut W,
) -> Result<(), ExploreFault>
    ensures written { OnOk result (ExploreTextWritten (W.contents out.old) (W.contents out.new) explored.now) }
    ensures unwritten { IfErr result (ExploreTextUnwritten (W.contents out.old) (W.contents out.new)) }
{
    let text = explored_text_of(alloc, script, explored)?;
    write_explored_text(&text, out)
}
