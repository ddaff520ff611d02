//! Writes what runs of a racy script may show by the rules of the memory.
ghost use Rattle.std.specs.Prelude.{◌≡◌, ◌++◌, IfErr, IfOk, OnOk};
ghost use Rattle.lrc_explore.specs.Prelude.{AllowedTextWritten, ExploreTextUnwritten, IsAllowedText, allowed_text_beginnings, allowed_text_count, allowed_text_end, allowed_text_told};

use crate::explored_text::{explored_text_of, write_explored_text};
use crate::fault::ExploreFault;
use crate::numbers::put_number;
use crate::outcomes::run_outcome_lines;
use explore::{AllowedOutcomes, Explored, MemoryShown};
use lrc_script::script::Script;
use std::alloc::{AllocError, Global};
use std::io::Write;

/// The end of the line on outcomes: whether the rules allow no others.
fn allowed_text_end(are_all: bool) -> &'static [u8]
    ensures { result.now ≡ allowed_text_end are_all }
{
    if are_all {
        b" by the rules\n"
    } else {
        b" by the rules so far\n"
    }
}

/// Adds how many outcomes the rules allow, and whether there are no others.
fn put_allowed_text_count(
    text: &mut Vec<u8>,
    outcomes: usize,
    are_all: bool,
) -> Result<(), AllocError>
    ensures { OnOk result (text.new.items ≡ text.old.items ++ allowed_text_count outcomes are_all) }
{
    put_number(text, b"outcomes ", outcomes as u64)?;
    text.extend_from_slice(allowed_text_end(are_all))
}

/// Adds how many beginnings of runs were looked at.
pub fn put_allowed_text_beginnings(text: &mut Vec<u8>, beginnings: usize) -> Result<(), AllocError>
    ensures { OnOk result (text.new.items ≡ text.old.items ++ allowed_text_beginnings beginnings) }
{
    put_number(text, b"beginnings ", beginnings as u64)?;
    text.extend_from_slice(b"\n")
}

/// Adds how many outcomes the rules allow, these lines on them, and how many beginnings of runs were looked at.
fn put_allowed_text(
    text: &mut Vec<u8>,
    allowed: &AllowedOutcomes,
    lines: &[u8],
) -> Result<(), AllocError>
    ensures { OnOk result (text.new.items ≡ text.old.items ++ allowed_text_told allowed.now lines.now) }
{
    put_allowed_text_count(text, allowed.outcomes.len(), allowed.are_all)?;
    text.extend_from_slice(lines)?;
    put_allowed_text_beginnings(text, allowed.beginnings)?;
    Ok(())
}

/// The text of what was found of a racy script, with what the rules allow.
fn allowed_text(
    alloc: Global,
    script: &Script,
    explored: &Explored,
    allowed: &AllowedOutcomes,
    shown: &MemoryShown,
) -> Result<Vec<u8>, AllocError>
    ensures { IfOk result (λ t. IsAllowedText explored.now allowed.now t.items) }
{
    let lines = run_outcome_lines(alloc, script, &allowed.outcomes, shown)?;
    let mut text = explored_text_of(alloc, script, explored)?;
    put_allowed_text(&mut text, allowed, &lines)?;
    Ok(text)
}

/// Writes what was found of all schedules of a racy script as `render` does, and then what its runs may show by the rules of the
/// memory. It is one write if the writer takes all of it, and the writer is flushed:
///
/// ```text
/// outcomes 2 by the rules
///   words 0 1 by the rules alone
///     event 9 0 load 0 1 answers event 0 0 store 0 1
///   words 0 2 schedule 0:2,1:2
/// beginnings 9
/// ```
///
/// A line of an outcome is as `render` has it, with a schedule if this memory shows it. If no schedule of `step` shows it, the run that the rules
/// allow is told by the store that each of its loads answers. `schedule undecided` stands there if the search for one was given up. If that for
/// outcomes was given up, `so far` stands behind the rules.
///
/// # Errors
///
/// Output if a write or the flush fails; NoMemory, after which nothing was written.
pub fn render_allowed_text<W: Write>(
    alloc: Global,
    script: &Script,
    explored: &Explored,
    allowed: &AllowedOutcomes,
    shown: &MemoryShown,
    out: &mut W,
) -> Result<(), ExploreFault>
    ensures written { OnOk result (AllowedTextWritten (W.contents out.old) (W.contents out.new) explored.now allowed.now) }
    ensures unwritten { IfErr result (ExploreTextUnwritten (W.contents out.old) (W.contents out.new)) }
{
    let text = allowed_text(alloc, script, explored, allowed, shown)?;
    write_explored_text(&text, out)
}
