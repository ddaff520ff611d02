//! A fetch that counts what it should not.
ghost use Rattle.std.specs.Prelude.{◌≡◌, ◌↔◌, IfSome, IsTrue, List, MatchOption};
ghost use Rattle.journal.specs.declared.event.Event.{Event};
ghost use Rattle.judge.specs.Prelude.{IsEventInSizes, IsNotMiscounted, Miscounts, TellsDueCounts, judged_sizes_of};

use crate::due_counts::{DueAmounts, DueCounts};
use journal::{Event, Kind};

/// A fetch whose counts are not those of its gap, and the counts that are.
#[derive(Clone, Copy, Debug, PartialEq, Eq)]
pub struct Miscounted {
    /// Its place in the history, counted from 0.
    pub place: usize,
    /// How many processors stored in the gap.
    pub writers: usize,
    /// In how many of their intervals.
    pub records: usize,
    /// At how many addresses, each counted once for each of these intervals.
    pub words: usize,
}

/// Whether these are the counts.
fn is_not_miscounted(due: DueAmounts, writers: u32, records: u32, words: u32) -> bool
    ensures { IsTrue result ↔ (due ≡ record { writers = writers; records = records; words = words }) }
{
    due.writers == writers as usize
        && due.records == records as usize
        && due.words == words as usize
}

/// What is due at this place instead, where the event there is a fetch that counts something else.
pub fn miscount(counts: &DueCounts, event: Event, place: usize) -> Option<Miscounted>
    requires tells { (j : List Event) × TellsDueCounts j counts.now }
    requires within { IsEventInSizes (judged_sizes_of counts.now.stored.sizes) event }
    ensures place { IfSome result (λ m. m.place ≡ place) }
    ensures verdict { (j : List Event) → TellsDueCounts j counts.now
        → MatchOption result (IsNotMiscounted (judged_sizes_of counts.now.stored.sizes) j event)
        (Miscounts (judged_sizes_of counts.now.stored.sizes) j event) }
{
    match event.kind {
        Kind::Fetch {
            writers,
            page,
            records,
            words,
        } => {
            let due = counts.due(event.processor, page);
            if is_not_miscounted(due, writers, records, words) {
                None
            } else {
                Some(Miscounted {
                    place,
                    writers: due.writers,
                    records: due.records,
                    words: due.words,
                })
            }
        }
        _ => None,
    }
}
