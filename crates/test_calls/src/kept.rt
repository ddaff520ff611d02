//! The journal at hand.

use crate::answer::Said;
use crate::fault::ListFault;
use crate::written::Written;
use book::Refused;
use journal::{Event, Journal};
use std::alloc::Global;

/// The journal at hand.
#[derive(Drop)]
pub enum Kept {
    /// None yet.
    Nothing,
    /// What an audit or a cluster's end answered.
    Answered(Journal),
    /// One that is given event by event.
    Given(Written),
}

impl Kept {
    /// The journal at hand.
    pub fn journal(&self) -> Result<&Journal, ListFault> {
        match self {
            Kept::Nothing => Err(ListFault::NoJournal),
            Kept::Answered(journal) => Ok(journal),
            Kept::Given(written) => Ok(written.journal()),
        }
    }

    /// Begins a journal of these sizes in place of the one before.
    pub fn begin(
        &mut self,
        alloc: Global,
        processors: usize,
        addresses: usize,
    ) -> Result<(), Refused> {
        *self = Kept::Given(Written::new(alloc, processors, addresses)?);
        Ok(())
    }

    /// Puts the event at the end of the journal that was begun.
    pub fn append(&mut self, place: u64, event: Event) -> Result<Said, ListFault> {
        match self {
            Kept::Given(written) => Ok(Said::of(written.append(place, event))),
            _ => Err(ListFault::NoJournal),
        }
    }

    /// Cuts the journal that was begun.
    pub fn cut(&mut self) -> Result<Said, ListFault> {
        match self {
            Kept::Given(written) => Ok(Said::of(written.cut())),
            _ => Err(ListFault::NoJournal),
        }
    }
}
