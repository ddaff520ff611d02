//! The line of a trace's sizes.
ghost use Rattle.std.specs.Prelude.{◌≡◌, ◌↔◌, IfErr, IfOk, IsTrue, MatchOption};
ghost use Rattle.lrc_script.specs.Prelude.{Nothing, LineReadGives, is_read_line_due};
ghost use Rattle.lrc_check.specs.Traces.Prelude.{AreNoTraceHeadNumbers, AreTraceSizes, TraceFaultSaysNoSizes, TraceLineHasSizes};
ghost use Rattle.lrc_check.specs.Traces.Prelude.{trace_head_numbers_of, trace_head_numbers_read, trace_sizes_of};

use crate::trace_history::trace_history_sizes;
use crate::traces::fault::TraceFault;
use crate::traces::trace::TraceSizes;
use lrc_script::fault::ScriptFault;
use lrc_script::line::{
    LineKeyword, Numbers, is_script_line_separated, number_count, read_numbers,
    split_script_line_at,
};
use std::alloc::Global;

/// Whether a first line may begin with this keyword, and have so many numbers.
fn is_first_trace_head_keyword(keyword: LineKeyword, count: usize) -> bool
    ensures { result ≡ is_read_line_due Nothing keyword count }
{
    match keyword {
        LineKeyword::Cluster => count == 4 || count == 5,
        _ => false,
    }
}

/// The numbers of a first line.
#[tactic(auto, unfolding(crate::specs::Traces::Heads::trace_head_first_word_read))]
fn read_trace_head_numbers(alloc: Global, line: &[u8]) -> Result<Numbers, ScriptFault>
    ensures { LineReadGives (λ ns. ns.items) result (trace_head_numbers_read line.now) }
{
    if !is_script_line_separated(line) {
        return Err(ScriptFault::BadLine);
    }
    let (word, words) = split_script_line_at(line, b' ');
    let Some(keyword) = LineKeyword::of(word) else {
        return Err(ScriptFault::BadLine);
    };
    if !is_first_trace_head_keyword(keyword, number_count(words)) {
        return Err(ScriptFault::BadLine);
    }
    read_numbers(alloc, words)
}

/// Whether a trace may have these sizes.
fn are_trace_head_sizes(sizes: TraceSizes) -> bool
    ensures { IsTrue result ↔ AreTraceSizes (trace_sizes_of sizes) }
{
    trace_history_sizes(sizes).are_streamed()
        && 1 <= sizes.processors
        && 1 <= sizes.pages
        && 1 <= sizes.words
}

/// The sizes that have these numbers, if a trace may have them. No flags are written with four numbers.
fn sizes_with_trace_head(numbers: &[u32]) -> Option<TraceSizes>
    ensures { MatchOption result (AreNoTraceHeadNumbers numbers.now)
        (λ s. AreTraceSizes (trace_sizes_of s) × (numbers.now ≡ trace_head_numbers_of (trace_sizes_of s))) }
{
    let (processors, pages, words, locks, flags) = match numbers {
        [p, n, w, l] => (*p, *n, *w, *l, 0),
        [_, _, _, _, 0] => return None,
        [p, n, w, l, g] => (*p, *n, *w, *l, *g),
        _ => return None,
    };
    let sizes = TraceSizes {
        processors: processors as usize,
        pages: pages as usize,
        words: words as usize,
        locks: locks as usize,
        flags: flags as usize,
    };
    if are_trace_head_sizes(sizes) {
        Some(sizes)
    } else {
        None
    }
}

/// The sizes that the line gives, or what is wrong with it.
pub fn read_trace_head(alloc: Global, line: &[u8]) -> Result<TraceSizes, TraceFault>
    ensures sizes { IfOk result (λ s. TraceLineHasSizes line.now (trace_sizes_of s)) }
    ensures fault { IfErr result (λ e. TraceFaultSaysNoSizes e line.now) }
{
    let numbers = match read_trace_head_numbers(alloc, line) {
        Ok(numbers) => numbers,
        Err(fault) => return Err(TraceFault::from(fault)),
    };
    match sizes_with_trace_head(numbers.as_slice()) {
        Some(sizes) => Ok(sizes),
        None => Err(TraceFault::BadSize),
    }
}
