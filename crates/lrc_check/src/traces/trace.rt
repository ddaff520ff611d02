//! A trace: the sizes of a cluster, and its events in order.

use crate::traces::labels::TraceLabels;
use journal::Event;
use judge::MOST_JUDGED_EVENTS;

/// The most events of a trace: each place fits a word.
pub const MOST_TRACED_EVENTS: usize = MOST_JUDGED_EVENTS;

/// The sizes of a cluster of `processors` processors that share `pages` pages of `words` words, `locks` locks and
/// `flags` flags.
#[derive(Clone, Copy, Debug, PartialEq, Eq)]
pub struct TraceSizes {
    pub processors: usize,
    pub pages: usize,
    pub words: usize,
    pub locks: usize,
    pub flags: usize,
}

/// What happened in a cluster, as somebody tells it: its sizes, and its events in order.
#[derive(Debug, PartialEq, Eq, Drop)]
pub struct Trace {
    pub sizes: TraceSizes,
    pub events: Vec<Event>,
}

/// A trace, and the labels of its lines.
#[derive(Drop)]
pub struct LabelledTrace {
    pub trace: Trace,
    pub labels: TraceLabels,
    /// The number of the line in whose midst its text ends, of which nothing was read; None if it doesn't.
    pub unfinished: Option<usize>,
}
