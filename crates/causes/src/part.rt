//! Parts of a history: the events of some processors from one place to another.
ghost use Rattle.std.specs.Prelude.{ℕ, ◌<◌, ◌↔◌, IfSome, IsTrue};
ghost use Rattle.judge.specs.Prelude.{most_judged_processors};
ghost use Rattle.causes.specs.Prelude.{IsInPart};

use judge::MOST_JUDGED_PROCESSORS;

/// A part of a history: the events of some processors from one place to another. Places count what was cut off, too.
#[derive(Clone, Copy)]
pub struct Part {
    /// The place of the first event.
    pub first: usize,
    /// The place behind the last event; None where the part goes on to the end.
    pub end: Option<usize>,
    /// Of each processor, whether the part has its events.
    pub processors: [bool; MOST_JUDGED_PROCESSORS],
}

/// Whether the place stands before this end.
fn is_before_part_end(place: usize, end: Option<usize>) -> bool
    ensures { IsTrue result ↔ IfSome end (λ n. place < n) }
{
    match end {
        Some(end) => place < end,
        None => true,
    }
}

impl Part {
    /// All of a history.
    pub fn whole() -> Part
        ensures { (k p : ℕ) → p < most_judged_processors → IsInPart result k p }
    {
        Part {
            first: 0,
            end: None,
            processors: [true; MOST_JUDGED_PROCESSORS],
        }
    }

    /// Whether the part has the event of this processor at this place.
    pub fn has(&self, place: usize, processor: usize) -> bool
        ensures { IsTrue result ↔ IsInPart self.now place processor }
    {
        processor < MOST_JUDGED_PROCESSORS
            && self.processors[processor]
            && self.first <= place
            && is_before_part_end(place, self.end)
    }
}
