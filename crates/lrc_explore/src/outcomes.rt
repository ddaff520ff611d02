//! What whole runs show, a line each.

use crate::answered_stores::{RunAnswer, run_answers};
use crate::explored_events::put_explored_event_words;
use crate::numbers::put_number;
use crate::schedule_turns::schedule_of_makers;
use conformance::Schedule;
use explore::{
    MemoryShowing, MemoryShown, ProcessorNumber, ScriptOutcome, ShownOutcome, ShownRun,
    explored_outcome_parts,
};
use journal::Event;
use lrc_script::script::Script;
use std::alloc::{AllocError, Global};

/// What the loads of each processor answered, of each run, and the run's place among these: in rising order of the replies. The only
/// error is running out of memory.
pub fn sorted_run_outcomes(
    alloc: Global,
    runs: &[ShownRun],
) -> Result<Vec<(&[Vec<u32>], usize)>, AllocError> {
    let mut rows = Vec::with_capacity(alloc, runs.len())?;
    for (place, run) in runs.iter().enumerate() {
        rows.push((run.outcome.replies.as_slice(), place))?;
    }
    rows.sort_unstable();
    Ok(rows)
}

/// What the loads of each processor answered, and the makers of a run that shows it, of each outcome: in rising order of the
/// replies. The only error is running out of memory.
pub fn sorted_shown_outcomes(
    alloc: Global,
    outcomes: &[ShownOutcome],
) -> Result<Vec<(&[Vec<u32>], &[ProcessorNumber])>, AllocError> {
    let mut rows = Vec::with_capacity(alloc, outcomes.len())?;
    for shown in outcomes {
        rows.push((shown.outcome.replies.as_slice(), shown.makers.as_slice()))?;
    }
    rows.sort_unstable();
    Ok(rows)
}

/// Adds a shown address with its word.
fn put_explored_outcome_word(
    text: &mut Vec<u8>,
    address: usize,
    word: u32,
) -> Result<(), AllocError> {
    put_number(text, b" ", address as u64)?;
    put_number(text, b" ", u64::from(word))
}

/// Adds each shown address with its word.
fn put_explored_outcome_words(
    text: &mut Vec<u8>,
    shown: &[usize],
    words: &[u32],
) -> Result<(), AllocError> {
    text.extend_from_slice(b"  words")?;
    for (address, word) in shown.iter().zip(words) {
        put_explored_outcome_word(text, *address, *word)?;
    }
    Ok(())
}

/// Adds what the processor's own loads answered.
fn put_own_explored_outcome(
    text: &mut Vec<u8>,
    processor: usize,
    own: &[u32],
) -> Result<(), AllocError> {
    put_number(text, b" p", processor as u64)?;
    for word in own {
        put_number(text, b" ", u64::from(*word))?;
    }
    Ok(())
}

/// Adds the replies of each processor that loads.
fn put_explored_outcome_replies(
    text: &mut Vec<u8>,
    replies: &[Vec<u32>],
    shown: usize,
) -> Result<(), AllocError> {
    let mut front: &[u8] = b" replies";
    for processor in 0..replies.len() {
        let (own, _) = explored_outcome_parts(replies, processor, shown);
        if !own.is_empty() {
            text.extend_from_slice(front)?;
            put_own_explored_outcome(text, processor, own)?;
            front = b"";
        }
    }
    Ok(())
}

/// Adds an outcome of runs that show these addresses, and no line feed.
fn put_explored_outcome(
    text: &mut Vec<u8>,
    shown: &[usize],
    replies: &[Vec<u32>],
) -> Result<(), AllocError> {
    let (_, words) = explored_outcome_parts(replies, 0, shown.len());
    put_explored_outcome_words(text, shown, words)?;
    put_explored_outcome_replies(text, replies, shown.len())
}

/// Adds a schedule, and a line feed.
fn put_explored_outcome_schedule(
    text: &mut Vec<u8>,
    alloc: Global,
    schedule: &Schedule,
) -> Result<(), AllocError> {
    let mut line = String::from_str(alloc, " schedule ")?;
    schedule.put(&mut line)?;
    line.push_str("\n")?;
    text.extend_from_slice(line.as_bytes())
}

/// Adds a line that says which store a load of these events answers.
fn put_run_answer(
    text: &mut Vec<u8>,
    events: &[Event],
    answer: RunAnswer,
) -> Result<(), AllocError> {
    let Some(load) = events.get(answer.load) else {
        return Ok(());
    };
    text.extend_from_slice(b"    ")?;
    put_explored_event_words(text, answer.load, load)?;
    match answer.store {
        Some(place) => {
            text.extend_from_slice(b" answers ")?;
            if let Some(store) = events.get(place) {
                put_explored_event_words(text, place, store)?;
            }
        }
        None => text.extend_from_slice(b" answers no store")?,
    }
    text.extend_from_slice(b"\n")
}

/// Adds a line for each load of a run, which says which store it answers. The only error is running out of memory.
pub fn put_run_answers(
    text: &mut Vec<u8>,
    alloc: Global,
    script: &Script,
    events: &[Event],
) -> Result<(), AllocError> {
    let answers = run_answers(alloc, script, events)?;
    for answer in &answers {
        put_run_answer(text, events, *answer)?;
    }
    Ok(())
}

/// Adds whether this memory shows the outcome of a run: a schedule, or that no schedule does, and which store each load answers.
fn put_run_showing(
    text: &mut Vec<u8>,
    alloc: Global,
    script: &Script,
    run: &ShownRun,
    showing: MemoryShowing<'_>,
) -> Result<(), AllocError> {
    match showing {
        MemoryShowing::Shown(schedule) => put_explored_outcome_schedule(text, alloc, schedule),
        MemoryShowing::Undecided => text.extend_from_slice(b" schedule undecided\n"),
        MemoryShowing::Never => {
            text.extend_from_slice(b" by the rules alone\n")?;
            put_run_answers(text, alloc, script, &run.events)
        }
    }
}

/// The line of an outcome of runs that show these addresses. The only error is running out of memory.
pub fn explored_outcome_line(
    alloc: Global,
    shown: &[usize],
    outcome: &ScriptOutcome,
) -> Result<Vec<u8>, AllocError> {
    let mut text = Vec::new(alloc);
    put_explored_outcome(&mut text, shown, &outcome.replies)?;
    text.extend_from_slice(b"\n")?;
    Ok(text)
}

/// A line for the outcome of each of these runs, with a schedule if this memory shows it; if no schedule does, one more for each load of
/// the run. The only error is running out of memory.
pub fn run_outcome_lines(
    alloc: Global,
    script: &Script,
    runs: &[ShownRun],
    shown: &MemoryShown,
) -> Result<Vec<u8>, AllocError> {
    let rows = sorted_run_outcomes(alloc, runs)?;
    let mut text = Vec::new(alloc);
    for (replies, place) in &rows {
        put_explored_outcome(&mut text, &script.shown, *replies)?;
        if let Some(run) = runs.get(*place) {
            put_run_showing(&mut text, alloc, script, run, shown.of(&run.outcome))?;
        }
    }
    Ok(text)
}

/// A line for each outcome of the script, with a schedule by which `step` shows it. The only error is running out of memory.
pub fn shown_outcome_lines(
    alloc: Global,
    script: &Script,
    outcomes: &[ShownOutcome],
) -> Result<Vec<u8>, AllocError> {
    let rows = sorted_shown_outcomes(alloc, outcomes)?;
    let mut text = Vec::new(alloc);
    for (replies, makers) in &rows {
        put_explored_outcome(&mut text, &script.shown, *replies)?;
        let schedule = schedule_of_makers(alloc, script, *makers)?;
        put_explored_outcome_schedule(&mut text, alloc, &schedule)?;
    }
    Ok(text)
}
