//! Sets of processors.
ghost use Rattle.std.specs.Prelude.{◌≡◌, ℕ, ◌<◌, ◌⊎◌, ◌↔◌, IsTrue, []};
ghost use Rattle.base.specs.Prelude.{most_processors, Has};

use base::MOST_PROCESSORS;
use std::marker::Model;

/// Processors that wait. Contracts see the list of their numbers, each of them once, from the least on.
#[derive(Drop)]
pub struct Waiters {
    marks: [bool; MOST_PROCESSORS],
}

impl Model for Waiters {
    ghost use Rattle.std.specs.Prelude.{ℕ, List};
    ghost use Rattle.book.specs.Waiters.{waiters_from};

    ghost Value = { List ℕ };

    ghost view = { λ w. waiters_from 0 w.marks };
}

impl Waiters {
    /// No processor.
    pub fn none() -> Waiters
        ensures { result ≡ [] }
    {
        Waiters {
            marks: [false; MOST_PROCESSORS],
        }
    }

    /// Whether the processor is one of them.
    pub fn has(&self, processor: usize) -> bool
        ensures { IsTrue result ↔ Has self.now processor }
    {
        processor < MOST_PROCESSORS && self.marks[processor]
    }

    /// Adds a processor, if its number is below `MOST_PROCESSORS`.
    pub(crate) fn add(&mut self, processor: usize)
        ensures { (q : ℕ) → Has self.new q ↔ (((q ≡ processor) × (q < most_processors)) ⊎ Has self.old q) }
    {
        if processor < MOST_PROCESSORS {
            self.marks[processor] = true;
        }
    }
}
