//! Traces as histories.
ghost use Rattle.std.specs.Prelude.{◌≡◌, ◌↔◌, IsTrue};
ghost use Rattle.judge.specs.Prelude.{whole_sized_history};
ghost use Rattle.judge.specs.Prelude.{judged_sizes_of as judged_sizes};
ghost use Rattle.lrc_check.specs.Prelude.{IsFewForHeldTrace, IsHeldTrace};
ghost use Rattle.lrc_check.specs.Traces.Prelude.{trace_sizes_of};

use crate::traces::trace::{Trace, TraceSizes};
use base::MOST_HELD;
use journal::Event;
use judge::{History, Sizes};

/// The trace's sizes, as they are judged by.
pub(crate) fn trace_history_sizes(sizes: TraceSizes) -> Sizes
    ensures { judged_sizes result ≡ trace_sizes_of sizes }
{
    Sizes {
        processors: sizes.processors,
        pages: sizes.pages,
        words: sizes.words,
        locks: sizes.locks,
        flags: sizes.flags,
    }
}

/// Whether the trace can be told with all its events at hand: whether it has no more than `MOST_HELD` of them.
pub fn can_trace_be_held(trace: &Trace) -> bool
    ensures { IsTrue result ↔ IsFewForHeldTrace trace.now.events.items }
{
    trace.events.len() <= MOST_HELD
}

/// The history of a trace of these sizes and events.
pub(crate) fn trace_history_of(sizes: TraceSizes, events: &[Event]) -> History<'_>
    requires { IsHeldTrace (trace_sizes_of sizes) events.now }
    ensures sizes { judged_sizes result.sizes ≡ trace_sizes_of sizes }
    ensures whole { result ≡ whole_sized_history result.sizes events.now }
{
    History::new(trace_history_sizes(sizes), events).unwrap()
}
