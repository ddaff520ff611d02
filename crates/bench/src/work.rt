//! What is measured of a journal.
ghost use Rattle.std.specs.Prelude.{◌≡◌, ◌^◌, ◌≤◌, IfOk, IfSome};
ghost use Rattle.bench.specs.Answers.{IsAnswerOf, work_name};

use crate::journals::build;
use journal::{Journal, MOST_HELD, Traffic};
use std::alloc::{AllocError, Global};

/// What is done to the journal.
#[derive(Clone, Copy)]
pub enum Work {
    Build,
    Append,
    FirstRace,
    Replay,
    Traffic,
    Copy,
}

impl Work {
    /// The work of this name.
    pub fn named(name: &str) -> Option<Work>
        ensures { IfSome result (λ w. name.now ≡ work_name w) }
    {
        match name {
            "build" => Some(Work::Build),
            "append" => Some(Work::Append),
            "first_race" => Some(Work::FirstRace),
            "replay" => Some(Work::Replay),
            "traffic" => Some(Work::Traffic),
            "copy" => Some(Work::Copy),
            _ => None,
        }
    }
}

/// What the work gave.
#[derive(Clone, Copy)]
pub enum WorkAnswer {
    Events(usize),
    FirstRace(Option<(usize, usize)>),
    Replays(bool),
    Traffic(Traffic),
}

/// Does the work once.
fn do_once(alloc: Global, work: Work, journal: &Journal) -> Result<WorkAnswer, AllocError>
    ensures { IfOk result (IsAnswerOf work journal.now) }
{
    match work {
        Work::Build => Ok(WorkAnswer::Events(journal.len())),
        Work::Append => Ok(WorkAnswer::Events(build(alloc, journal.len())?.len())),
        Work::FirstRace => Ok(WorkAnswer::FirstRace(journal.first_race()?)),
        Work::Replay => Ok(WorkAnswer::Replays(journal.replay()?.is_some())),
        Work::Traffic => Ok(WorkAnswer::Traffic(journal.traffic())),
        Work::Copy => Ok(WorkAnswer::Events(journal.copy()?.len())),
    }
}

/// Does the work so many times and once more, and gives the last answer.
pub fn do_times(
    alloc: Global,
    work: Work,
    journal: &Journal,
    more: usize,
) -> Result<WorkAnswer, AllocError>
    ensures { IfOk result (IsAnswerOf work journal.now) }
{
    for _ in 0..more {
        do_once(alloc, work, journal)?;
    }
    do_once(alloc, work, journal)
}

/// A work, on a journal of how many events, and how many times more than once.
#[derive(Clone, Copy)]
pub struct JournalOrder {
    work: Work,
    events: usize,
    more: usize,
    ghost few: { events ≤ 2 ^ 21 },
}

/// The order that these words are; None where they ask for nothing that is done to a journal.
pub fn journal_order_of(words: &[String]) -> Option<JournalOrder> {
    let [work, events, times] = words else {
        return None;
    };
    let work = Work::named(work.as_str())?;
    let events = events.parse::<usize>().ok()?;
    let more = times.parse::<usize>().ok()?.checked_sub(1)?;
    if events <= MOST_HELD {
        Some(JournalOrder { work, events, more })
    } else {
        None
    }
}

/// Builds the journal, does the work, and gives the last answer.
pub fn measure(alloc: Global, order: JournalOrder) -> Result<WorkAnswer, AllocError> {
    let journal = build(alloc, order.events)?;
    do_times(alloc, order.work, &journal, order.more)
}
