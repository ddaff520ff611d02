//! Closed intervals, and which of them a processor still has to learn of.
//!
//! - Contracts see `Closed` as one list in closing order (`KeptClosings`, specs/KeptClosings), an `Interval` as
//!   `ClosedInterval` and what is sent as `SentRecord` (specs/SentIntervals). How the intervals lie, a queue
//!   for each owner, is specs/IntervalQueues, and counts of pages are specs/PageCounts.
//! - Proved: `between` is a filter of that list by two timestamps, and comes in closing order. `push` and
//!   `trim` change the list as they say, and what is sent stays the same. `count_news` and
//!   `news_of` are counts of what `between` would return.
//! - Only tested: that no call allocates without need. That the counts take none, and what a call costs, is
//!   read off the code.
#![tactic(auto)]

mod closed;
mod interval;
mod notice;
mod queue;

pub use closed::Closed;
pub use interval::{Interval, KeptInterval};
pub use notice::{Notice, Sent};
