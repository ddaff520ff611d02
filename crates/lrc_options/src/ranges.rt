//! Which events are told, and of which processors: what the texts of `--events` and `--processors` give.
ghost use Rattle.std.specs.Prelude.{ℕ, ◌≡◌, ◌≢◌, ◌<◌, ◌≤◌, ◌↔◌, [], ◌∷◌, Bool, IfSome, IsTrue, List, MatchOption, Option};
ghost use Rattle.lrc_script.specs.Prelude.{line_read_number, parts_of_read_line};
ghost use Rattle.lrc_options.specs.declared.ranges.EventRange.{EventRange};
ghost use Rattle.lrc_options.specs.Ranges.{AreProcessorsWritten, IsOptionRangeEnd, IsOptionRangeStart, IsOptionRangeWritten, most_trace_processors};

use crate::options::MOST_TRACE_PROCESSORS;
use lrc_script::line::{number, split_script_line_at};

/// Events by their numbers, which follow each other.
#[derive(Clone, Copy)]
pub struct EventRange {
    /// The first one's number.
    pub first: usize,
    /// The number behind the last one; None where they go on to the end.
    pub end: Option<usize>,
}

/// All events.
pub(crate) const ALL_EVENTS: EventRange = EventRange {
    first: 0,
    end: None,
};

/// Where a range starts whose text begins so: at 0 where nothing is written.
fn option_range_start(text: &[u8]) -> Option<usize>
    ensures { MatchOption result ((n : ℕ) → ¬ IsOptionRangeStart text.now n) (IsOptionRangeStart text.now) }
{
    if text.is_empty() {
        return Some(0);
    }
    let first = number(text)?;
    Some(first as usize)
}

/// The number behind the last one of a range whose text ends so; None where nothing is written.
fn option_range_end(text: &[u8]) -> Option<Option<usize>>
    ensures { MatchOption result ((o : Option ℕ) → ¬ IsOptionRangeEnd text.now o) (IsOptionRangeEnd text.now) }
{
    if text.is_empty() {
        return Some(None);
    }
    let last = number(text)?;
    Some(Some(last as usize + 1))
}

/// What stands before the two dots of a text, and what stands behind them; None where it has no two dots, or others.
fn option_range_around_dots(text: &str) -> Option<(&[u8], &[u8])>
    ensures { MatchOption result ((from to : List ℕ) → parts_of_read_line 46 text.now ≢ from ∷ [] ∷ to ∷ [])
        (λ x. parts_of_read_line 46 text.now ≡ x.0.now ∷ [] ∷ x.1.now ∷ []) }
{
    let (from, rest) = split_script_line_at(text.as_bytes(), b'.');
    let (between, rest) = split_script_line_at(rest?, b'.');
    let (to, rest) = split_script_line_at(rest?, b'.');
    if !between.is_empty() || rest.is_some() {
        return None;
    }
    Some((from, to))
}

/// Whether events of these numbers are some.
fn is_option_range_nonempty(first: usize, end: Option<usize>) -> bool
    ensures { IsTrue result ↔ IfSome end (λ n. first < n) }
{
    match end {
        Some(end) => first < end,
        None => true,
    }
}

/// The range that a text gives: `A..B` for the events from A to B, both of them with it, `A..` for those from A on, and `..B` for
/// those up to B. None where it gives none.
pub(crate) fn option_range_of_events(text: &str) -> Option<EventRange>
    ensures { MatchOption result ((x : EventRange) → ¬ IsOptionRangeWritten text.now x) (IsOptionRangeWritten text.now) }
{
    let (from, to) = option_range_around_dots(text)?;
    let first = option_range_start(from)?;
    let end = option_range_end(to)?;
    if !is_option_range_nonempty(first, end) {
        return None;
    }
    Some(EventRange { first, end })
}

/// The processor that is written so, if it is one of the first, so many of them.
fn processor(text: &[u8], limit: usize) -> Option<usize>
    ensures { MatchOption result ((p : ℕ) → line_read_number text.now ≡ Some p → limit ≤ p)
        (λ p. (line_read_number text.now ≡ Some p) × (p < limit)) }
{
    let processor = number(text)? as usize;
    if processor < limit {
        Some(processor)
    } else {
        None
    }
}

/// Of each processor whether the text names it: numbers below the limit with commas between. None where one of them is no such
/// number.
pub(crate) fn processors(text: &str, limit: usize) -> Option<[bool; MOST_TRACE_PROCESSORS]>
    requires { limit ≤ most_trace_processors }
    ensures { MatchOption result ((marks : List Bool) → ¬ AreProcessorsWritten limit (parts_of_read_line 44 text.now) marks)
        (AreProcessorsWritten limit (parts_of_read_line 44 text.now)) }
{
    let mut marks = [false; MOST_TRACE_PROCESSORS];
    let mut rest = Some(text.as_bytes());
    while let Some(bytes) = rest {
        let (item, after) = split_script_line_at(bytes, b',');
        marks[processor(item, limit)?] = true;
        rest = after;
    }
    Some(marks)
}
