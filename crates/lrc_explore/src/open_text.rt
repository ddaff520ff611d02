//! Writes what was found of a script of which something is open, and what in its text leaves it open.
ghost use Rattle.std.specs.Prelude.{IfErr, IfOk, OnOk};
ghost use Rattle.lrc_explore.specs.Prelude.{ExploreTextUnwritten, IsOpenText, OpenTextWritten};

use crate::explored_text::{explored_text_of, write_explored_text};
use crate::fault::ExploreFault;
use crate::numbers::put_number;
use crate::script_lines::script_step_line;
use explore::{
    Explored, Hanging, TextAccess, TextAsk, TextGaps, TextWait, UnguardedWord, UnrankedLocks,
    Verdict,
};
use lrc_script::script::{Instruction, Script};
use std::alloc::{AllocError, Global};
use std::io::Write;

/// How many words are told one by one.
pub const MOST_OPEN_WORDS: usize = 8;

/// Adds the instruction's text.
fn put_open_instruction(text: &mut Vec<u8>, instruction: Instruction) -> Result<(), AllocError> {
    let alloc = *text.allocator();
    let words = format!(in alloc; "{instruction}")?;
    text.extend_from_slice(words.as_bytes())
}

/// Adds a line's number, its processor and its instruction: of the step at this place. After the last line of the section stands
/// its end.
fn put_open_step(
    text: &mut Vec<u8>,
    script: &Script,
    processor: usize,
    place: usize,
) -> Result<(), AllocError> {
    let Some(step) = script_step_line(script, processor, place) else {
        return put_number(text, b"    end p", processor as u64);
    };
    put_number(text, b"    line ", step.line as u64)?;
    put_number(text, b" p", processor as u64)?;
    text.extend_from_slice(b" ")?;
    put_open_instruction(text, step.instruction)
}

/// Adds the locks that are held, if some are.
fn put_open_locks(text: &mut Vec<u8>, held: &[bool]) -> Result<(), AllocError> {
    let mut front: &[u8] = b" holds ";
    for (lock, is_held) in held.iter().enumerate() {
        if *is_held {
            put_number(text, front, lock as u64)?;
            front = b" ";
        }
    }
    text.extend_from_slice(b"\n")
}

/// Adds the line of an access, with the locks that are held there.
fn put_open_access(
    text: &mut Vec<u8>,
    script: &Script,
    access: &TextAccess,
) -> Result<(), AllocError> {
    put_open_step(text, script, access.processor, access.place)?;
    put_open_locks(text, &access.held)
}

/// Adds a word, and the lines of the two accesses that aren't kept apart.
fn put_open_word(
    text: &mut Vec<u8>,
    script: &Script,
    word: &UnguardedWord,
) -> Result<(), AllocError> {
    put_number(text, b"  word ", word.word as u64)?;
    text.extend_from_slice(b"\n")?;
    put_open_access(text, script, &word.first)?;
    put_open_access(text, script, &word.second)
}

/// Adds how many words aren't guarded, and the first of them.
fn put_open_words(
    text: &mut Vec<u8>,
    script: &Script,
    words: &[UnguardedWord],
) -> Result<(), AllocError> {
    put_number(text, b"unguarded ", words.len() as u64)?;
    text.extend_from_slice(b"\n")?;
    for word in words.iter().take(MOST_OPEN_WORDS) {
        put_open_word(text, script, word)?;
    }
    if words.len() > MOST_OPEN_WORDS {
        put_number(text, b"  and ", (words.len() - MOST_OPEN_WORDS) as u64)?;
        text.extend_from_slice(b" more\n")?;
    }
    Ok(())
}

/// Adds the line of a step at which this lock is held.
fn put_open_lock(
    text: &mut Vec<u8>,
    script: &Script,
    processor: usize,
    place: usize,
    held: usize,
) -> Result<(), AllocError> {
    put_open_step(text, script, processor, place)?;
    put_number(text, b" holds ", held as u64)?;
    text.extend_from_slice(b"\n")
}

/// Adds the lines of asks that go in a circle.
fn put_open_circle(
    text: &mut Vec<u8>,
    script: &Script,
    circle: &[TextAsk],
) -> Result<(), AllocError> {
    text.extend_from_slice(b"  circle\n")?;
    for ask in circle {
        put_open_lock(text, script, ask.processor, ask.place, ask.held)?;
    }
    Ok(())
}

/// Adds the line of a wait while a lock is held.
fn put_open_wait(text: &mut Vec<u8>, script: &Script, wait: &TextWait) -> Result<(), AllocError> {
    text.extend_from_slice(b"  wait\n")?;
    put_open_lock(text, script, wait.processor, wait.place, wait.held)
}

/// Adds what keeps the locks from being ranked, if something does.
fn put_unranked_locks(
    text: &mut Vec<u8>,
    script: &Script,
    locks: &UnrankedLocks,
) -> Result<(), AllocError> {
    if locks.circle.is_some() || locks.wait.is_some() {
        text.extend_from_slice(b"unranked\n")?;
    }
    if let Some(circle) = &locks.circle {
        put_open_circle(text, script, circle)?;
    }
    if let Some(wait) = &locks.wait {
        put_open_wait(text, script, wait)?;
    }
    Ok(())
}

/// What in the text leaves open whether the script races, and whether a schedule hangs.
fn open_lines(
    alloc: Global,
    script: &Script,
    explored: &Explored,
    gaps: &TextGaps,
) -> Result<Vec<u8>, AllocError> {
    let mut text = Vec::new(alloc);
    if let Verdict::Undecided = explored.verdict {
        put_open_words(&mut text, script, &gaps.words)?;
    }
    if let Hanging::Undecided = explored.hanging {
        put_unranked_locks(&mut text, script, &gaps.locks)?;
    }
    Ok(text)
}

/// The text of what was found, with what in the script's text leaves it open.
fn open_text_of(
    alloc: Global,
    script: &Script,
    explored: &Explored,
    gaps: &TextGaps,
) -> Result<Vec<u8>, AllocError>
    ensures { IfOk result (λ t. IsOpenText explored.now t.items) }
{
    let lines = open_lines(alloc, script, explored, gaps)?;
    let mut text = explored_text_of(alloc, script, explored)?;
    text.extend_from_slice(&lines)?;
    Ok(text)
}

/// Writes what was found of a script of which something is open as `render` does, and then what in its text leaves that open. It is
/// one write if the writer takes all of it, and the writer is flushed:
///
/// ```text
/// unguarded 1
///   word 0
///     line 8 p0 store 0 1
///     line 16 p2 load 0 holds 1
/// unranked
///   circle
///     line 4 p0 acquire 1 holds 0
///     line 10 p1 acquire 0 holds 1
///   wait
///     line 12 p1 barrier holds 0
/// ```
///
/// If the verdict is open, it says how many words aren't guarded. Of the first eight it has the lines of two accesses that neither a
/// barrier nor a lock keeps apart, with the locks that are held there. If it is open whether a schedule hangs, it has the lines
/// of asks that go in a circle, and of a wait while a lock is held. `end p1` is the closing barrier.
///
/// # Errors
///
/// Output if a write or the flush fails; NoMemory, after which nothing was written.
pub fn render_open_text<W: Write>(
    alloc: Global,
    script: &Script,
    explored: &Explored,
    gaps: &TextGaps,
    out: &mut W,
) -> Result<(), ExploreFault>
    ensures written { OnOk result (OpenTextWritten (W.contents out.old) (W.contents out.new) explored.now) }
    ensures unwritten { IfErr result (ExploreTextUnwritten (W.contents out.old) (W.contents out.new)) }
{
    let text = open_text_of(alloc, script, explored, gaps)?;
    write_explored_text(&text, out)
}
