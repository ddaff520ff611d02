//! What was found of all schedules of a script: a schedule that races, one that hangs, the outcomes, and at the end the verdict.
ghost use Rattle.std.specs.Prelude.{◌≡◌, ℕ, Err, IfOk, List, None, OnOk, string_bytes};
ghost use Rattle.std.specs.Io.KnownBytes.{Appends};
ghost use Rattle.conformance.specs.Prelude.{schedule_text};
ghost use Rattle.lrc_json.specs.Prelude.{AreLinesPut, AreMoreLinesPut, BecameMembers, HasItems, HasMembers};
ghost use Rattle.lrc_exploring.specs.Prelude.{HasScheduleMembers, IsExploredFront, IsExploredJson, IsHangLine, IsVerdictLines, explored_end, explored_hang, explored_hangs, explored_race, explored_verdict, explored_wait, explored_waits, with_schedule};
ghost use Rattle.lrc_json.specs.declared.fault.JsonFault.TheVariants.{NoMemory};

use conformance::Schedule;
use explore::{
    Explored, Hang, Hanging, ProcessorNumber, RacyEvents, Verdict, explored_outcome_parts,
};
use journal::Kind;
use lrc_explore::{schedule_of_events, schedule_of_makers, sorted_shown_outcomes};
use lrc_json::JsonFault;
use lrc_json::events::events_json;
use lrc_json::members::{Members, Values};
use lrc_json::outcomes::{outcome_replies_json, outcome_word_json};
use lrc_json::output::JsonLines;
use lrc_script::script::Script;
use std::alloc::{AllocError, Global};
use std::io::Write;

/// The text of a schedule.
fn schedule_json(alloc: Global, schedule: &Schedule) -> Result<String, AllocError>
    ensures { IfOk result (λ s. string_bytes s ≡ schedule_text schedule.now.turns.items) }
{
    let mut text = String::new(alloc);
    schedule.put(&mut text)?;
    Ok(text)
}

/// Adds the turns of a schedule.
pub fn put_schedule_json(members: &mut Members, alloc: Global, schedule: &Schedule)
    ensures { BecameMembers members.old members.new (with_schedule schedule.now.turns.items) }
{
    members.put_string("schedule", schedule_json(alloc, schedule));
}

/// A schedule whose last event races with the one at a place. The only error is running out of memory.
pub fn explored_race_json(
    alloc: Global,
    script: &Script,
    racy: &RacyEvents,
) -> Result<Members, AllocError>
    ensures { IfOk result (HasScheduleMembers (explored_race racy.now)) }
{
    let schedule = schedule_of_events(alloc, script, &racy.events)?;
    let mut members = Members::telling(alloc, "race");
    members.put_list("events", events_json(alloc, &racy.events));
    members.put_number("first", racy.first);
    members.put_number("second", racy.events.len().saturating_sub(1));
    put_schedule_json(&mut members, alloc, &schedule);
    Ok(members)
}

/// What a processor waits for.
fn explored_wait_json(alloc: Global, processor: usize, awaited: Kind) -> Members
    ensures { HasMembers result (explored_wait processor awaited) }
{
    let mut members = Members::new(alloc);
    members.put_number("processor", processor);
    match awaited {
        Kind::Acquire(lock) => members.put_number("lock", lock),
        Kind::Await(flag) => members.put_number("flag", flag),
        _ => members.put_flag("barrier", true),
    }
    members
}

/// What each processor waits for that waits.
fn explored_waits_json(alloc: Global, hang: &Hang) -> Values
    ensures { HasItems result (explored_waits 0 hang.now.waits.items) }
{
    let mut list = Values::new(alloc);
    for (processor, awaited) in hang.waits.iter().enumerate() {
        if let Some(kind) = *awaited {
            list.put_object(explored_wait_json(alloc, processor, kind));
        }
    }
    list
}

/// A schedule that hangs.
fn explored_hang_json(alloc: Global, script: &Script, hang: &Hang) -> Result<Members, AllocError>
    ensures { IfOk result (HasScheduleMembers (explored_hang hang.now)) }
{
    let schedule = schedule_of_events(alloc, script, &hang.events)?;
    let mut members = Members::telling(alloc, "hang");
    members.put_list("events", events_json(alloc, &hang.events));
    members.put_list("waits", explored_waits_json(alloc, hang));
    put_schedule_json(&mut members, alloc, &schedule);
    Ok(members)
}

/// The shown addresses with these words.
fn explored_words_json(alloc: Global, shown: &[usize], words: &[u32]) -> Values {
    let mut list = Values::new(alloc);
    for (address, word) in shown.iter().zip(words) {
        list.put_object(outcome_word_json(alloc, *address, *word));
    }
    list
}

/// What the loads answered, of each processor that loads, in runs that show so many addresses.
fn explored_replies_json(alloc: Global, replies: &[Vec<u32>], shown: usize) -> Values {
    let mut list = Values::new(alloc);
    for processor in 0..replies.len() {
        let (own, _) = explored_outcome_parts(replies, processor, shown);
        if !own.is_empty() {
            list.put_object(outcome_replies_json(alloc, processor, own));
        }
    }
    list
}

/// Adds what a run shows, of runs that show these addresses.
pub fn put_explored_result_json(
    members: &mut Members,
    alloc: Global,
    shown: &[usize],
    replies: &[Vec<u32>],
) {
    let (_, words) = explored_outcome_parts(replies, 0, shown.len());
    members.put_list("words", explored_words_json(alloc, shown, words));
    members.put_list(
        "replies",
        explored_replies_json(alloc, replies, shown.len()),
    );
}

/// An outcome of the script, with a run that shows it.
fn explored_outcome_json(
    alloc: Global,
    script: &Script,
    replies: &[Vec<u32>],
    makers: &[ProcessorNumber],
) -> Result<Members, AllocError> {
    let schedule = schedule_of_makers(alloc, script, makers)?;
    let mut members = Members::telling(alloc, "outcome");
    put_explored_result_json(&mut members, alloc, &script.shown, replies);
    put_schedule_json(&mut members, alloc, &schedule);
    Ok(members)
}

/// Adds a line for each outcome.
fn put_explored_outcomes_json(
    lines: &mut JsonLines,
    alloc: Global,
    script: &Script,
    explored: &Explored,
) -> Result<(), AllocError>
    ensures { OnOk result (AreMoreLinesPut lines.old lines.new) }
{
    let rows = sorted_shown_outcomes(alloc, &explored.outcomes)?;
    for (replies, makers) in &rows {
        lines.put_made(explored_outcome_json(alloc, script, *replies, *makers));
    }
    Ok(())
}

/// The name of a verdict.
fn explored_verdict_json(verdict: &Verdict) -> &'static str
    ensures { result.now ≡ explored_verdict verdict.now }
{
    match verdict {
        Verdict::RaceFree => "race-free",
        Verdict::Racy(_) => "racy",
        Verdict::Undecided => "undecided",
    }
}

/// Whether a schedule hangs.
fn explored_hangs_json(hanging: &Hanging) -> &'static str
    ensures { result.now ≡ explored_hangs hanging.now }
{
    match hanging {
        Hanging::Never => "never",
        Hanging::Hangs(_) => "hangs",
        Hanging::Undecided => "undecided",
    }
}

/// The verdict, how far outcomes and hangs are known, and how many states were found. Of a script that races no outcome is
/// told, and whether it hangs only where it does.
pub fn explored_summary_json(alloc: Global, explored: &Explored) -> Members
    ensures { HasMembers result (explored_end explored.now) }
{
    let mut members = Members::telling(alloc, "end");
    members.put_text("verdict", explored_verdict_json(&explored.verdict));
    members.put_number("states", explored.states);
    if let Verdict::Racy(_) = explored.verdict {
        return members;
    }
    members.put_text("hangs", explored_hangs_json(&explored.hanging));
    members.put_number("outcomes", explored.outcomes.len());
    members.put_flag("all", explored.are_all);
    members
}

/// Adds the line of a schedule that races, or a line for each outcome.
fn put_verdict_json(lines: &mut JsonLines, alloc: Global, script: &Script, explored: &Explored)
    ensures { lines.new.fault ≡ None → (first : List ℕ) × IsVerdictLines explored.now.verdict first × AreLinesPut lines.old lines.new first }
{
    if let Verdict::Racy(racy) = &explored.verdict {
        lines.put_made(explored_race_json(alloc, script, racy));
    } else {
        let put = put_explored_outcomes_json(lines, alloc, script, explored);
        lines.note(put);
    }
}

/// Adds the line of a schedule that hangs, if there is one.
fn put_hang_json(lines: &mut JsonLines, alloc: Global, script: &Script, hanging: &Hanging)
    ensures { lines.new.fault ≡ None → (line : List ℕ) × IsHangLine hanging.now line × AreLinesPut lines.old lines.new line }
{
    if let Hanging::Hangs(hang) = hanging {
        lines.put_made(explored_hang_json(alloc, script, hang));
    }
}

/// Adds the lines of what was found of the script, but for the end.
pub fn put_explored_json(lines: &mut JsonLines, alloc: Global, script: &Script, explored: &Explored)
    ensures { lines.new.fault ≡ None → (front : List ℕ) × IsExploredFront explored.now front × AreLinesPut lines.old lines.new front }
{
    put_verdict_json(lines, alloc, script, explored);
    put_hang_json(lines, alloc, script, &explored.hanging);
}

/// Writes what was found of all schedules of the script, and flushes the writer: an object a line.
/// First `race`, or else `outcome` for each outcome, then `hang`, if a schedule hangs, and at the end `end`.
///
/// # Errors
///
/// NoMemory, after which nothing was written. After Output a beginning of the lines may be.
pub fn write_explored_json<W: Write>(
    alloc: Global,
    script: &Script,
    explored: &Explored,
    out: &mut W,
) -> Result<(), JsonFault>
    ensures written { OnOk result ((text : List ℕ) × IsExploredJson explored.now text × Appends (W.contents out.old) (W.contents out.new) text) }
    ensures unwritten { result ≡ Err NoMemory → W.contents out.new ≡ W.contents out.old }
{
    let mut lines = JsonLines::new(alloc);
    put_explored_json(&mut lines, alloc, script, explored);
    lines.put(explored_summary_json(alloc, explored));
    lines.write(out)
}
