//! The labels of a trace's lines: what stands on a line behind two spaces in a row is the logger's own. And which lines are
//! passed over.
ghost use Rattle.std.specs.Prelude.{◌≡◌, ℕ, ◌+◌, ◌<◌, ◌≤◌, ◌^◌, [], ◌∷◌, ◌++◌, IfOk, IfSome, MatchOption, OnOk, length, map, slice_index_or};
ghost use Rattle.lrc_script.specs.Prelude.{parts_of_read_line};
ghost use Rattle.lrc_check.specs.Traces.Prelude.{AreTraceLabelsShown, is_trace_line_passed_over, line_without_trace_label, trace_event_label, trace_label_at, trace_line_label, trace_label_byte_shown};
ghost use Rattle.lrc_check.specs.Traces.Prelude.{IsTraceLineOfEvent};

use journal::Event;
use lrc_script::line::split_line;
use std::alloc::{AllocError, Global};
use std::marker::Model;

/// Where the label's two spaces stand on a line, if it has a label. A line's first byte is none of these.
fn spaces_before_trace_label(line: &[u8]) -> Option<usize>
    ensures { MatchOption result (trace_label_at line.now ≡ length line.now)
        (λ at. (trace_label_at line.now ≡ at) × (at + 2 ≤ length line.now)) }
{
    for at in 2..line.len() {
        if line[at - 1] == b' ' && line[at] == b' ' {
            return Some(at - 1);
        }
    }
    None
}

/// Whether the line is passed over: whether it is empty, or begins with `#`.
pub(crate) fn is_trace_line_passed_over(line: &[u8]) -> bool
    ensures { result ≡ is_trace_line_passed_over line.now }
{
    match line {
        [] => true,
        [first, ..] => *first == b'#',
    }
}

/// A line without its label, and the label, which has no byte if there is none.
pub fn split_trace_label(line: &[u8]) -> (&[u8], &[u8])
    ensures bare { result.0.now ≡ line_without_trace_label line.now }
    ensures label { result.1.now ≡ trace_line_label line.now }
{
    match spaces_before_trace_label(line) {
        Some(at) => (&line[..at], &line[at + 2..]),
        None => (line, b""),
    }
}

/// A line without its label, and the label. A line that was read as an event's as a whole has none, and none is looked for.
pub(crate) fn split_trace_label_unless_read<'a>(
    line: &'a [u8],
    read: Option<(usize, Event)>,
) -> (&'a [u8], &'a [u8])
    requires { IfSome read (λ x. IsTraceLineOfEvent line.now x.0 x.1) }
    ensures bare { result.0.now ≡ line_without_trace_label line.now }
    ensures label { result.1.now ≡ trace_line_label line.now }
{
    match read {
        Some(_) => (line, b""),
        None => split_trace_label(line),
    }
}

/// What stands behind the first line, nothing if there is one line alone.
fn rest_of_trace_labels(lines: &[u8]) -> &[u8]
    ensures { (n : ℕ) → slice_index_or (parts_of_read_line 10 result.now) n []
        ≡ slice_index_or (parts_of_read_line 10 lines.now) (n + 1) [] }
{
    match split_line(lines) {
        Some((_, behind)) => behind,
        None => b"",
    }
}

/// The first line.
fn first_of_trace_labels(lines: &[u8]) -> &[u8]
    ensures { result.now ≡ slice_index_or (parts_of_read_line 10 lines.now) 0 [] }
{
    match split_line(lines) {
        Some((line, _)) => line,
        None => lines,
    }
}

/// The line at this index, counted from 0, nothing if there are no more.
fn line_of_trace_labels(lines: &[u8], index: usize) -> &[u8]
    ensures { result.now ≡ slice_index_or (parts_of_read_line 10 lines.now) index [] }
{
    let mut behind = lines;
    for _ in 0..index {
        behind = rest_of_trace_labels(behind);
    }
    first_of_trace_labels(behind)
}

/// A byte of a label as it is shown among other words: one that is no printable sign of ASCII as `?`.
fn printable_byte_of_trace_label(byte: u8) -> u8
    ensures { result ≡ trace_label_byte_shown byte }
{
    if b' ' <= byte && byte <= b'~' {
        byte
    } else {
        b'?'
    }
}

/// A label as it is shown among other words.
fn show_trace_label(alloc: Global, label: &[u8]) -> Result<Vec<u8>, AllocError>
    ensures { IfOk result (λ v. v.items ≡ map trace_label_byte_shown label.now) }
{
    label
        .iter()
        .map(|byte| printable_byte_of_trace_label(*byte))
        .collect(alloc)
}

/// A walk through labels of a trace's lines, in order.
#[derive(Drop)]
pub(crate) struct TraceLabelWalk<'a> {
    left: &'a [u8],
}

impl<'a> TraceLabelWalk<'a> {
    /// The next label, without a byte if there is none.
    pub(crate) fn next_label(&mut self) -> &'a [u8]
        ensures label { result.now ≡ slice_index_or (parts_of_read_line 10 self.old.left.now) 0 [] }
        ensures left { (n : ℕ) → slice_index_or (parts_of_read_line 10 self.new.left.now) n []
            ≡ slice_index_or (parts_of_read_line 10 self.old.left.now) (n + 1) [] }
    {
        let label = first_of_trace_labels(self.left);
        self.left = rest_of_trace_labels(self.left);
        label
    }
}

/// The labels of a trace's lines. They are kept as a text that has of each line its label, so a line without one takes one
/// byte. Contracts see that text.
#[derive(Drop)]
pub struct TraceLabels {
    lines: Vec<u8>,
}

impl Model for TraceLabels {
    ghost use Rattle.std.specs.Prelude.{ℕ, List};

    ghost Value = { List ℕ };

    ghost view = { λ l. l.lines.items };
}

impl TraceLabels {
    /// Before the first line.
    pub fn new(alloc: Global) -> TraceLabels
        ensures { result ≡ [] }
    {
        TraceLabels {
            lines: Vec::new(alloc),
        }
    }

    /// Keeps the next line's label. The only error is running out of memory.
    pub(crate) fn push(&mut self, label: &[u8]) -> Result<(), AllocError>
        ensures { OnOk result (self.new ≡ self.old ++ (label.now ++ 10 ∷ [])) }
    {
        self.lines.extend_from_slice(label)?;
        self.lines.push(b'\n')?;
        Ok(())
    }

    /// Forgets the labels, and keeps their memory for the next ones.
    pub(crate) fn clear(&mut self)
        ensures { self.new ≡ [] }
    {
        self.lines.clear();
    }

    /// The label of the event at this place, without a byte if it has none. It takes time in the order of the lines.
    pub fn of(&self, place: usize) -> &[u8]
        ensures { result.now ≡ trace_event_label self.now place }
    {
        line_of_trace_labels(rest_of_trace_labels(&self.lines), place)
    }

    /// The label at this index among those that are there, counted from 0, without a byte if it has none. It takes time in the
    /// order of the lines.
    pub fn at(&self, index: usize) -> &[u8]
        ensures { result.now ≡ slice_index_or (parts_of_read_line 10 self.now) index [] }
    {
        line_of_trace_labels(&self.lines, index)
    }

    /// A walk through the labels of the events, from the first one on. The labels begin with that of the line of the sizes, if
    /// they are `headed`.
    pub(crate) fn walk(&self, headed: bool) -> TraceLabelWalk<'_> {
        TraceLabelWalk {
            left: if headed {
                rest_of_trace_labels(&self.lines)
            } else {
                &self.lines
            },
        }
    }

    /// The labels of the first so many events, as they are shown among other words. It takes time in the order of the lines. The
    /// only error is running out of memory.
    pub(crate) fn shown(&self, alloc: Global, count: usize) -> Result<Vec<Vec<u8>>, AllocError>
        ensures { IfOk result (AreTraceLabelsShown self.now count) }
    {
        let mut shown = Vec::new(alloc);
        let mut behind = rest_of_trace_labels(&self.lines);
        for _ in 0..count {
            shown.push(show_trace_label(alloc, first_of_trace_labels(behind))?)?;
            behind = rest_of_trace_labels(behind);
        }
        Ok(shown)
    }
}
