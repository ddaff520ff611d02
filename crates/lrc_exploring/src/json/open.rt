//! What was found of a script of which something is open, and what in its text leaves it open.
ghost use Rattle.std.specs.Prelude.{◌≡◌, ℕ, List, OnOk, Err};
ghost use Rattle.std.specs.Io.KnownBytes.{Appends};
ghost use Rattle.lrc_json.specs.Prelude.{AreMoreLinesPut};
ghost use Rattle.lrc_exploring.specs.Prelude.{IsOpenJson};
ghost use Rattle.lrc_json.specs.declared.fault.JsonFault.TheVariants.{NoMemory};

use crate::json::explored::{explored_summary_json, put_explored_json};
use explore::{
    Explored, Hanging, TextAccess, TextAsk, TextGaps, TextWait, UnguardedWord, UnrankedLocks,
    Verdict,
};
use lrc_explore::script_step_line;
use lrc_json::JsonFault;
use lrc_json::members::{Members, Values};
use lrc_json::output::JsonLines;
use lrc_script::script::{Instruction, Script};
use std::alloc::{AllocError, Global};
use std::io::Write;

/// The text of an instruction.
fn instruction_json(alloc: Global, instruction: Instruction) -> Result<String, AllocError> {
    format!(in alloc; "{instruction}")
}

/// Where the processor makes the step at this place: the processor, and the line and its text, unless it is past its section.
fn step_json(alloc: Global, script: &Script, processor: usize, place: usize) -> Members {
    let mut members = Members::new(alloc);
    members.put_number("processor", processor);
    if let Some(step) = script_step_line(script, processor, place) {
        members.put_number("line", step.line);
        members.put_string("text", instruction_json(alloc, step.instruction));
    }
    members
}

/// The locks of a set.
fn locks_of(alloc: Global, held: &[bool]) -> Result<Vec<usize>, AllocError> {
    let mut locks = Vec::new(alloc);
    for (lock, is_held) in held.iter().enumerate() {
        if *is_held {
            locks.push(lock)?;
        }
    }
    Ok(locks)
}

/// An access, with the locks that are held there.
fn access_json(alloc: Global, script: &Script, access: &TextAccess) -> Result<Members, AllocError> {
    let locks = locks_of(alloc, &access.held)?;
    let mut members = step_json(alloc, script, access.processor, access.place);
    members.put_list("holds", Values::of_numbers(alloc, &locks));
    Ok(members)
}

/// A word that isn't guarded, and two accesses of it that aren't kept apart.
fn unguarded_json(
    alloc: Global,
    script: &Script,
    word: &UnguardedWord,
) -> Result<Members, AllocError> {
    let first = access_json(alloc, script, &word.first)?;
    let second = access_json(alloc, script, &word.second)?;
    let mut members = Members::telling(alloc, "unguarded");
    members.put_number("word", word.word);
    members.put_object("first", first);
    members.put_object("second", second);
    Ok(members)
}

/// A step at which this lock is held.
fn held_json(
    alloc: Global,
    script: &Script,
    processor: usize,
    place: usize,
    held: usize,
) -> Members {
    let mut members = step_json(alloc, script, processor, place);
    members.put_list("holds", Values::of_numbers(alloc, &[held]));
    members
}

/// Asks that go in a circle.
fn circle_json(alloc: Global, script: &Script, circle: &[TextAsk]) -> Values {
    let mut list = Values::new(alloc);
    for ask in circle {
        list.put_object(held_json(alloc, script, ask.processor, ask.place, ask.held));
    }
    list
}

/// Adds a wait while a lock is held.
fn put_wait_json(members: &mut Members, alloc: Global, script: &Script, wait: &TextWait) {
    members.put_object(
        "wait",
        held_json(alloc, script, wait.processor, wait.place, wait.held),
    );
}

/// What keeps the locks from being ranked.
fn unranked_json(alloc: Global, script: &Script, locks: &UnrankedLocks) -> Members {
    let mut members = Members::telling(alloc, "unranked");
    if let Some(circle) = &locks.circle {
        members.put_list("circle", circle_json(alloc, script, circle));
    }
    if let Some(wait) = &locks.wait {
        put_wait_json(&mut members, alloc, script, wait);
    }
    members
}

/// Adds a line for each word that isn't guarded.
fn put_unguarded_json(
    lines: &mut JsonLines,
    alloc: Global,
    script: &Script,
    words: &[UnguardedWord],
)
    ensures { AreMoreLinesPut lines.old lines.new }
{
    for word in words {
        lines.put_made(unguarded_json(alloc, script, word));
    }
}

/// Adds a line for each word that isn't guarded, if the verdict is open, and one for the locks, if it is open whether a schedule
/// hangs.
fn put_gaps_json(
    lines: &mut JsonLines,
    alloc: Global,
    script: &Script,
    explored: &Explored,
    gaps: &TextGaps,
)
    ensures { AreMoreLinesPut lines.old lines.new }
{
    if let Verdict::Undecided = explored.verdict {
        put_unguarded_json(lines, alloc, script, &gaps.words);
    }
    let locks = &gaps.locks;
    if let Hanging::Undecided = explored.hanging
        && (locks.circle.is_some() || locks.wait.is_some())
    {
        lines.put(unranked_json(alloc, script, locks));
    }
}

/// Writes what was found of all schedules of a script of which something is open, and flushes the writer: the objects of
/// `write_explored_json`, and before `end` an `unguarded` for each such word, and `unranked`.
///
/// # Errors
///
/// NoMemory, after which nothing was written. After Output a beginning of the lines may be.
pub fn write_open_json<W: Write>(
    alloc: Global,
    script: &Script,
    explored: &Explored,
    gaps: &TextGaps,
    out: &mut W,
) -> Result<(), JsonFault>
    ensures written { OnOk result ((text : List ℕ) × IsOpenJson explored.now text × Appends (W.contents out.old) (W.contents out.new) text) }
    ensures unwritten { result ≡ Err NoMemory → W.contents out.new ≡ W.contents out.old }
{
    let mut lines = JsonLines::new(alloc);
    put_explored_json(&mut lines, alloc, script, explored);
    put_gaps_json(&mut lines, alloc, script, explored, gaps);
    lines.put(explored_summary_json(alloc, explored));
    lines.write(out)
}
