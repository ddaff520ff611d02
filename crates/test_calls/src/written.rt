//! A journal that is given event by event.
ghost use Rattle.std.specs.Prelude.{◌≡◌, ◌<◌, IsTrue};
ghost use Rattle.journal.specs.Prelude.{EventAddressInRange};

use book::Refused;
use journal::{Event, Journal, Kind, MOST_HELD};
use std::alloc::{AllocError, Global};

/// A journal with the sizes that it was begun with.
#[derive(Drop)]
pub struct Written {
    journal: Journal,
    processors: usize,
    addresses: usize,
    ghost own: { (journal.processors ≡ processors) × (journal.addresses ≡ addresses) },
}

impl Written {
    /// The empty journal of at most sixteen processors; the error is a bad size or running out of memory.
    pub fn new(alloc: Global, processors: usize, addresses: usize) -> Result<Written, Refused> {
        if processors > 16 {
            return Err(Refused::BadSize);
        }
        let journal = Journal::new(alloc, processors, addresses)?;
        Ok(Written {
            journal,
            processors,
            addresses,
        })
    }

    /// The journal.
    pub fn journal(&self) -> &Journal {
        &self.journal
    }

    /// Whether the event is one of such a journal.
    fn fits(&self, event: Event) -> bool
        ensures processor { IsTrue result → event.processor < self.now.processors }
        ensures address { IsTrue result → EventAddressInRange self.now.addresses event.kind }
    {
        let in_range = match event.kind {
            Kind::Load(address, _) | Kind::Store(address, _) => address < self.addresses,
            _ => true,
        };
        in_range && event.processor < self.processors
    }

    /// Puts the event at the end, which has to be at this place. After a refusal all is as before.
    pub fn append(&mut self, place: u64, event: Event) -> Result<(), Refused> {
        if !self.fits(event) || place != self.next_place() {
            return Err(Refused::OutOfRange);
        }
        if self.journal.len() >= MOST_HELD {
            return Err(Refused::JournalFull);
        }
        self.journal.reserve(1)?;
        self.journal.append(event);
        Ok(())
    }

    /// The place of the event that comes next.
    fn next_place(&self) -> u64 {
        self.journal.cut_events() + self.journal.len() as u64
    }

    /// Cuts it.
    pub fn cut(&mut self) -> Result<(), Refused> {
        Ok(self.journal.cut()?)
    }
}
