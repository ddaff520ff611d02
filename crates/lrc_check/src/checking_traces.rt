//! What was found of a trace, and its text.
ghost use Rattle.std.specs.Prelude.{ℕ, List, IfErr, IfOk, IfSome, OnOk};
ghost use Rattle.std.specs.Io.KnownBytes.{Appends, Keeps};
ghost use Rattle.journal.specs.Prelude.{Race};
ghost use Rattle.lrc_check.specs.Traces.Prelude.{IsLawfulTrace, trace_sizes_of};
ghost use Rattle.lrc_check.specs.Prelude.{IsTraceRaceApart, IsFaultFoundBeforeBytesWritten, IsFaultFoundInBytes};

use crate::check_fault::CheckFault;
use crate::checked::{Checked, Rules};
use crate::racing_words::RacingWord;
use crate::told_events::ToldEvents;
use crate::told_races::ToldRaces;
use crate::traces::trace::TraceSizes;
use crate::verdict_text::verdict_text_of;
use base::MOST_HELD;
use causes::{RaceApart, Wait, race_accesses_apart};
use journal::Event;
use judge::locksets::Unprotected;
use lrc_report::render::OutFault;
use std::alloc::{AllocError, Global};
use std::io::Write;

/// What keeps the accesses of this race of the trace apart; None where no race was found, or if the trace has more than `MOST_HELD`
/// events.
pub(crate) fn trace_race_apart(
    alloc: Global,
    sizes: TraceSizes,
    events: &[Event],
    race: Option<(usize, usize)>,
) -> Result<Option<RaceApart>, AllocError>
    requires trace { IsLawfulTrace (trace_sizes_of sizes) events.now }
    requires race { IfSome race (λ r. Race events.now r.0 r.1) }
    ensures { IfOk result (IsTraceRaceApart (trace_sizes_of sizes) events.now race) }
{
    let Some(race) = race else {
        return Ok(None);
    };
    if events.len() > MOST_HELD {
        return Ok(None);
    }
    let TraceSizes {
        processors,
        locks,
        ..
    } = sizes;
    let apart = race_accesses_apart(alloc, processors, locks, events, race)?;
    Ok(Some(apart))
}

/// Writes the bytes, and has the writer pass on what it still keeps.
fn write_checked_trace_text<W: Write>(out: &mut W, bytes: &[u8]) -> Result<(), OutFault>
    ensures { OnOk result (Appends (W.contents out.old) (W.contents out.new) bytes.now) }
{
    if out.write_all(bytes).is_err() {
        return Err(OutFault);
    }
    match out.flush() {
        Ok(()) => Ok(()),
        Err(_) => Err(OutFault),
    }
}

/// What was found of a trace, and of its race.
#[derive(Drop)]
pub struct JudgedTrace {
    pub found: Checked,
    /// What keeps the race's accesses apart; None where no race was found, if the trace has more than `MOST_HELD` events, or if not
    /// all of them are at hand.
    pub race: Option<RaceApart>,
    /// By rising address the words that need a lock and have none, those that were asked for, if the trace is faithful and has
    /// no race; empty otherwise.
    pub unprotected: Vec<Unprotected>,
    /// The words that race, each with its first race, if all were asked for and the trace is faithful; empty otherwise.
    pub racing: Vec<RacingWord>,
    /// How these are told.
    pub races: ToldRaces,
    /// What each processor waits for in vain at the end of a faithful trace whose events are all at hand, if any waits; empty
    /// otherwise.
    pub waits: Vec<Wait>,
    /// Of these the circles of processors that wait for each other.
    pub circles: Vec<Vec<usize>>,
    /// The number of the line in whose midst the trace ends; None if it doesn't.
    pub unfinished: Option<usize>,
}

/// Writes what was found of a trace of which these events can be told, and flushes the writer.
///
/// # Errors
///
/// Nothing was written where memory ran out. After `Output` a beginning of the text may have been. The others never come.
pub fn write_verdict<W: Write>(
    alloc: Global,
    told: ToldEvents<'_>,
    judged: &JudgedTrace,
    rules: Rules,
    out: &mut W,
) -> Result<(), CheckFault>
    ensures written { OnOk result ((text : List ℕ) × Appends (W.contents out.old) (W.contents out.new) text) }
    ensures refused { IfErr result (λ fault. IsFaultFoundInBytes fault → ⊥) }
    ensures early { IfErr result
        (λ fault. IsFaultFoundBeforeBytesWritten fault → Keeps (W.contents out.old) (W.contents out.new)) }
{
    let text = verdict_text_of(alloc, told, judged, rules)?;
    write_checked_trace_text(out, &text)?;
    Ok(())
}
