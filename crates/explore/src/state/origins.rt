//! Where the states of a search were found first.
ghost use Rattle.std.specs.Prelude.{◌≡◌, ◌+◌, ◌<◌, ◌≤◌, ◌++◌, [], ◌∷◌, OnOk, Some, length, slice_get};
ghost use Rattle.explore.specs.Origins.{AreOriginsInOrder, StateOrigin as AnOrigin, most_origin_makers, most_state_origins, origin_start, state_origins};

use crate::state::wait_code::ProcessorNumber;
use std::alloc::{AllocError, Global};

/// The most makers of one origin.
pub const MOST_MAKERS: usize = 16;

/// Where a state was found first. Each state has one, so its numbers have 32 bits.
#[derive(Clone, Copy)]
pub struct Origin {
    /// The place of the earlier state that it comes from.
    from: u32,
    /// How many makers there are up to the last of those that lead to it.
    ends: u32,
}

/// Where each state but the first one comes from: by which events of which earlier state.
#[derive(Drop)]
pub struct Origins {
    origins: Vec<Origin>,
    /// Of each of these events the processor that makes it, in one vector for all states. What it makes the earlier state tells.
    makers: Vec<ProcessorNumber>,
}

impl Origins {
    /// None.
    pub fn new(alloc: Global) -> Origins
        ensures none { state_origins result ≡ [] }
        ensures in_order { AreOriginsInOrder result }
    {
        Origins {
            origins: Vec::new(alloc),
            makers: Vec::new(alloc),
        }
    }

    /// Puts an origin at the end. The only error is running out of memory, after which these may be of no use.
    pub fn push(&mut self, from: usize, makers: &[ProcessorNumber]) -> Result<(), AllocError>
        requires in_order { AreOriginsInOrder self.old }
        requires few { length (state_origins self.old) + 1 < most_state_origins }
        requires from { from < most_state_origins }
        requires makers { length makers.now ≤ most_origin_makers }
        ensures pushed { OnOk result (state_origins self.new ≡ state_origins self.old ++ record { from = from; makers = makers.now } ∷ []) }
        ensures in_order { OnOk result (AreOriginsInOrder self.new) }
    {
        self.makers.extend_from_slice(makers)?;
        let ends = self.makers.len() as u32;
        let from = from as u32;
        self.origins.push(Origin { from, ends })?;
        Ok(())
    }

    /// Where the makers of this origin begin.
    fn start(&self, place: usize) -> usize
        requires { place < length self.now.origins.items }
        ensures { result ≡ origin_start self.now.origins.items place }
    {
        if place == 0 {
            0
        } else {
            self.origins[place - 1].ends as usize
        }
    }

    /// The place of the earlier state.
    pub fn from(&self, place: usize) -> usize
        requires { place < length (state_origins self.now) }
        ensures { (o : AnOrigin) → slice_get (state_origins self.now) place ≡ Some o → result ≡ o.from }
    {
        self.origins[place].from as usize
    }

    /// Of each event that leads from the earlier state to this one, the processor that makes it.
    pub fn makers(&self, place: usize) -> &[ProcessorNumber]
        requires place { place < length (state_origins self.now) }
        requires in_order { AreOriginsInOrder self.now }
        ensures { (o : AnOrigin) → slice_get (state_origins self.now) place ≡ Some o → result.now ≡ o.makers }
    {
        &self.makers[self.start(place)..self.origins[place].ends as usize]
    }
}
