//! How a run by turns ended.

use journal::Journal;
use lrc_report::Report;

/// A run that can't go on: each processor waits, and what it waits for has come for none. No event can follow.
#[derive(Drop)]
pub struct Halt {
    /// The least processor that waits. Since each waits, it is processor 0.
    pub processor: usize,
    /// All that was called until then. In it the last event of each processor is an ask, an arrival or a watch.
    pub journal: Journal,
}

/// How a run by turns ended.
#[derive(Drop)]
pub enum Ended {
    /// All processors did their sections.
    Whole(Report),
    /// None could go on.
    Halted(Halt),
}
