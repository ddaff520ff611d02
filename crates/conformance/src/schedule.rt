//! Schedules: which processor has its turn, one turn after another.
ghost use Rattle.std.specs.Prelude.{ℕ, ◌≡◌, ◌++◌, IfOk, IfSome, List, OnOk, Some, replicate, string_bytes};
ghost use Rattle.lrc_script.specs.Prelude.{parts_of_read_line};
ghost use Rattle.conformance.specs.Prelude.{IsScheduleText, schedule_item_text, schedule_text_item_turns, schedule_text, schedule_turns_text};

use crate::cause::{Cause, RunFault};
use crate::ended::Ended;
use lrc_script::line::{number, split_script_line_at};
use std::alloc::{AllocError, Global};
use thiserror::Error;

/// The most turns of a schedule that fits: each of 16 processors begins and ends 10,000 instructions and the closing
/// barrier.
pub const MOST_TURNS: usize = 16 * 2 * 10_001;

/// Why a schedule doesn't fit its script.
#[derive(Clone, Copy, Debug, PartialEq, Eq, Error)]
pub enum Misfit {
    /// What is written there gives no turn.
    #[error("not understood")]
    NotUnderstood,
    /// The script has no processor of this number.
    #[error("no such processor")]
    NoProcessor,
    /// What the processor waits for hasn't come.
    #[error("processor waits")]
    Waits,
    /// The processor has passed the closing barrier, and others haven't.
    #[error("processor has ended")]
    Ended,
    /// All processors have passed the closing barrier; or there are more than [`MOST_TURNS`].
    #[error("too long")]
    TooLong,
}

/// Why a run by a schedule came to no end.
#[derive(Clone, Copy, Debug, PartialEq, Eq, Error)]
pub enum ScheduleFault {
    /// What ends any run by turns.
    #[error("{0}")]
    Run(RunFault),
    /// The schedule doesn't fit at this turn, counted from 1.
    #[error("schedule: turn {0}: {1}")]
    Misfit(usize, Misfit),
}

impl From<AllocError> for ScheduleFault {
    fn from(error: AllocError) -> ScheduleFault {
        ScheduleFault::Run(RunFault {
            processor: 0,
            cause: Cause::from(error),
        })
    }
}

impl From<RunFault> for ScheduleFault {
    ghost use Rattle.conformance.specs.declared.schedule.ScheduleFault.TheVariants as fault;

    ghost from_gives = { λ e r. r ≡ fault.Run e };

    fn from(fault: RunFault) -> ScheduleFault {
        ScheduleFault::Run(fault)
    }
}

/// The processors that have their turns first, one after another. When these are over, rounds by rising number follow.
#[derive(Drop)]
pub struct Schedule {
    pub turns: Vec<usize>,
}

/// A run whose turns were drawn: the turns that got on, and how it ended.
#[derive(Drop)]
pub struct DrawnRun {
    pub schedule: Schedule,
    pub ended: Ended,
}

/// The processor and the number of its turns that an item of a schedule's text gives: `P`, or `P:K` with K above 0.
fn schedule_item_of(item: &[u8]) -> Option<(usize, usize)>
    ensures { IfSome result (λ x. schedule_text_item_turns (parts_of_read_line 58 item.now) ≡ Some (replicate x.1 x.0)) }
{
    let (word, rest) = split_script_line_at(item, b':');
    let processor = number(word)?;
    let Some(rest) = rest else {
        return Some((processor as usize, 1));
    };
    let (word, more) = split_script_line_at(rest, b':');
    let count = number(word)?;
    if count == 0 || more.is_some() {
        return None;
    }
    Some((processor as usize, count as usize))
}

/// Adds so many turns of a processor.
fn repeat(turns: &mut Vec<usize>, processor: usize, count: usize) -> Result<(), AllocError>
    ensures { OnOk result (turns.new.items ≡ turns.old.items ++ replicate count processor) }
{
    for _ in 0..count {
        turns.push(processor)?;
    }
    Ok(())
}

/// Adds the turns that an item gives.
fn add_schedule_item(turns: &mut Vec<usize>, item: &[u8]) -> Result<(), ScheduleFault>
    ensures { OnOk result ((new : List ℕ) × (schedule_text_item_turns (parts_of_read_line 58 item.now) ≡ Some new)
        × (turns.new.items ≡ turns.old.items ++ new)) }
{
    let before = turns.len();
    let Some((processor, count)) = schedule_item_of(item) else {
        return Err(ScheduleFault::Misfit(before + 1, Misfit::NotUnderstood));
    };
    if count > MOST_TURNS.saturating_sub(before) {
        return Err(ScheduleFault::Misfit(MOST_TURNS + 1, Misfit::TooLong));
    }
    Ok(repeat(turns, processor, count)?)
}

/// Adds the text of so many turns of a processor in a row.
fn put_schedule_item(text: &mut String, processor: usize, count: usize) -> Result<(), AllocError>
    ensures { OnOk result (string_bytes text.new ≡ string_bytes text.old ++ schedule_item_text processor count) }
{
    if count == 1 {
        write!(text, "{processor}")
    } else {
        write!(text, "{processor}:{count}")
    }
}

/// Adds the text of a turn and those behind it.
fn put_schedule_rest(text: &mut String, first: usize, rest: &[usize]) -> Result<(), AllocError>
    ensures { OnOk result (string_bytes text.new ≡ string_bytes text.old ++ schedule_turns_text first 1 rest.now) }
{
    let mut processor = first;
    let mut count: usize = 1;
    for next in rest {
        if *next == processor {
            count += 1;
        } else {
            put_schedule_item(text, processor, count)?;
            text.push_str(",")?;
            processor = *next;
            count = 1;
        }
    }
    put_schedule_item(text, processor, count)
}

impl Schedule {
    /// Reads a schedule's text: `-` for none of its own turns, else items with a comma between two. An item is a
    /// processor's number, or that, a colon and how many turns it has in a row.
    ///
    /// # Errors
    ///
    /// [`NotUnderstood`](Misfit::NotUnderstood) at the first turn that an item was to give, if it is none;
    /// [`TooLong`](Misfit::TooLong) if there are more than [`MOST_TURNS`]; or running out of memory.
    pub fn parse(alloc: Global, text: &str) -> Result<Schedule, ScheduleFault>
        ensures { IfOk result (λ schedule. IsScheduleText text.now schedule.turns.items) }
    {
        let mut turns = Vec::new(alloc);
        if text == "-" {
            return Ok(Schedule { turns });
        }
        let mut rest = Some(text.as_bytes());
        while let Some(bytes) = rest {
            let (item, after) = split_script_line_at(bytes, b',');
            add_schedule_item(&mut turns, item)?;
            rest = after;
        }
        Ok(Schedule { turns })
    }

    /// Adds the schedule's text, in its shortest form: turns of one processor in a row are one item.
    pub fn put(&self, text: &mut String) -> Result<(), AllocError>
        ensures { OnOk result (string_bytes text.new ≡ string_bytes text.old ++ schedule_text self.now.turns.items) }
    {
        match self.turns.as_slice() {
            [] => text.push_str("-"),
            [first, rest @ ..] => put_schedule_rest(text, *first, rest),
        }
    }
}
