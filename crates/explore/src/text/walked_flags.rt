//! What a walk through a script's text knows of a flag: whoever finds it set comes after some set of it.
ghost use Rattle.std.specs.Prelude.{◌≡◌, ℕ, ◌<◌, ◌↔◌, IsTrue, false, min, slice_index, slice_index_or, slice_set};
ghost use Rattle.base.specs.Prelude.{most_processors};

use crate::text::walked_rows::{StepsMade, keep_steps_made};
use base::MOST_PROCESSORS;

/// What the walk knows of a flag.
#[derive(Clone, Copy)]
pub struct WalkedFlag {
    /// Who sets it somewhere, and whose first set the walk hasn't come to.
    pub due: [bool; MOST_PROCESSORS],
    /// Of each processor, how many steps it has made whenever somebody sets the flag who isn't due. At first all that there
    /// may be: of a flag that nobody sets anything may be said.
    pub made: StepsMade,
}

impl WalkedFlag {
    /// A flag that nobody sets.
    pub fn new() -> WalkedFlag {
        WalkedFlag {
            due: [false; MOST_PROCESSORS],
            made: [usize::MAX; MOST_PROCESSORS],
        }
    }

    /// Takes note that this processor sets it somewhere.
    pub fn expect(&mut self, processor: usize)
        requires { processor < most_processors }
        ensures mine { IsTrue (slice_index_or self.new.due processor false) }
        ensures keeps { (q : ℕ) → IsTrue (slice_index_or self.old.due q false) → IsTrue (slice_index_or self.new.due q false) }
    {
        self.due[processor] = true;
    }

    /// Whether everybody's first set was come to.
    pub fn is_passed(&self) -> bool
        ensures { IsTrue result → (q : ℕ) → slice_index_or self.now.due q false ≡ false }
    {
        for processor in 0..MOST_PROCESSORS {
            if self.due[processor] {
                return false;
            }
        }
        true
    }

    /// Takes note of a set by this processor, whenever which these steps were made.
    pub fn pass(&mut self, processor: usize, made: &StepsMade)
        requires { processor < most_processors }
        ensures due { self.new.due ≡ slice_set self.old.due processor false }
        ensures made { (p : ℕ) → slice_index self.new.made p ≡ min (slice_index self.old.made p) (slice_index made.now p) }
    {
        self.due[processor] = false;
        keep_steps_made(&mut self.made, made);
    }
}
