//! Which store each load of a run answers.

use journal::{Event, Kind};
use judge::sources::latest_rows;
use judge::{History, Sizes};
use lrc_script::script::Script;
use std::alloc::{AllocError, Global};

/// A load of a run, and the store that it answers.
#[derive(Clone, Copy)]
pub struct RunAnswer {
    /// The place of the load.
    pub load: usize,
    /// That of the store; None if it answers that nothing was stored.
    pub store: Option<usize>,
}

/// The first of these places at which this value is stored.
fn answered_store(events: &[Event], places: &[usize], value: u32) -> Option<usize> {
    for place in places {
        if let Some(event) = events.get(*place) {
            if let Kind::Store(_, stored) = event.kind {
                if stored == value {
                    return Some(*place);
                }
            }
        }
    }
    None
}

/// Adds what the event at this place answers, if it is a load, whose latest stores stand at these places.
fn add_run_answer(
    answers: &mut Vec<RunAnswer>,
    events: &[Event],
    load: usize,
    places: &[usize],
) -> Result<(), AllocError> {
    if let Some(event) = events.get(load) {
        if let Kind::Load(_, value) = event.kind {
            let store = answered_store(events, places, value);
            answers.push(RunAnswer { load, store })?;
        }
    }
    Ok(())
}

/// Of each load of a run that the rules of the memory allow, in order, the store that it answers: a latest one of its past; of several
/// that stored the value the one of the lowest processor. The only error is running out of memory.
pub fn run_answers(
    alloc: Global,
    script: &Script,
    events: &[Event],
) -> Result<Vec<RunAnswer>, AllocError> {
    let mut answers = Vec::new(alloc);
    let sizes = Sizes {
        processors: script.processors,
        pages: script.pages,
        words: script.words,
        locks: script.locks,
        flags: script.flags,
    };
    let Some(history) = History::new(sizes, events) else {
        return Ok(answers);
    };
    let rows = latest_rows(alloc, &history)?;
    for (load, places) in rows.iter().enumerate() {
        add_run_answer(&mut answers, events, load, places)?;
    }
    Ok(answers)
}
