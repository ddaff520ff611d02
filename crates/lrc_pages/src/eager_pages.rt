//! What a trace would cost under eager release consistency. Nothing is proved of it beyond that it is safe.

use crate::heard_stores::lengthen_row;
use crate::page_uses::page_of_word;
use crate::processor_set::ProcessorSet;
use journal::{Event, Kind};
use std::alloc::{AllocError, Global};

/// What a trace costs under eager release consistency: messages, by what they are for, and the words that fetches bring.
#[derive(Clone, Copy, Debug, Default, PartialEq, Eq, Drop)]
pub struct EagerTraffic {
    /// Messages that hand locks over, two for each.
    pub locks: u64,
    /// Messages that tell of flags, two for each await.
    pub flags: u64,
    /// Messages to the barrier and from it, one for each arrival and each departure.
    pub barriers: u64,
    /// Write notices and their answers, two for each processor that a release tells.
    pub notices: u64,
    /// Messages of fetches, two for each.
    pub answers: u64,
    /// How many fetches there are.
    pub fetches: u64,
    /// The words that they bring.
    pub words: u64,
}

/// What is kept of a page.
#[derive(Clone, Copy, Default, Drop)]
struct HeldPage {
    /// Who has a copy.
    holders: ProcessorSet,
    /// Who has stored in it since its last release.
    dirty: ProcessorSet,
    /// Whether some release told of it.
    is_released: bool,
}

/// A trace under eager release consistency, on pages of one size. It takes 72 bytes for each page, and 8 for each page and
/// processor that stores in it from one release to the next.
#[derive(Drop)]
pub(crate) struct EagerPages {
    words: usize,
    pages: Vec<HeldPage>,
    /// By processors: the pages in which it has stored since its last release.
    stored: Vec<Vec<usize>>,
    traffic: EagerTraffic,
}

impl EagerTraffic {
    /// The messages of all kinds.
    pub fn messages(&self) -> u64 {
        let handed = self.locks.saturating_add(self.flags);
        let held = self.barriers.saturating_add(self.notices);
        handed.saturating_add(held).saturating_add(self.answers)
    }

    /// Counts a fetch of a page of so many words.
    fn fetch(&mut self, words: usize) {
        self.answers = self.answers.saturating_add(2);
        self.fetches = self.fetches.saturating_add(1);
        self.words = self.words.saturating_add(words as u64);
    }

    /// Counts what an event of this kind costs by itself.
    fn count(&mut self, kind: Kind) {
        match kind {
            Kind::Acquire(_) => self.locks = self.locks.saturating_add(2),
            Kind::Await(_) => self.flags = self.flags.saturating_add(2),
            Kind::Arrive | Kind::Depart => self.barriers = self.barriers.saturating_add(1),
            _ => {}
        }
    }
}

impl EagerPages {
    /// Before the first event, on pages of so many words.
    pub(crate) fn new(alloc: Global, words: usize) -> EagerPages {
        EagerPages {
            words,
            pages: Vec::new(alloc),
            stored: Vec::new(alloc),
            traffic: EagerTraffic::default(),
        }
    }

    /// What it costs.
    pub(crate) fn traffic(&self) -> EagerTraffic {
        self.traffic
    }

    /// The processor accesses the word. The only error is running out of memory.
    fn access(&mut self, processor: usize, address: usize) -> Result<(), AllocError> {
        let page = page_of_word(address, self.words);
        lengthen_row(&mut self.pages, page, HeldPage::default())?;
        if let Some(held) = self.pages.get_mut(page) {
            if !held.holders.has(processor) && held.is_released {
                self.traffic.fetch(self.words);
            }
            held.holders.add(processor);
        }
        Ok(())
    }

    /// It stores to the word. The only error is running out of memory.
    fn store(&mut self, alloc: Global, processor: usize, address: usize) -> Result<(), AllocError> {
        self.access(processor, address)?;
        for _ in self.stored.len()..processor.saturating_add(1) {
            self.stored.push(Vec::new(alloc))?;
        }
        let page = page_of_word(address, self.words);
        if let Some(held) = self.pages.get_mut(page)
            && let Some(stored) = self.stored.get_mut(processor)
            && !held.dirty.has(processor)
        {
            held.dirty.add(processor);
            stored.push(page)?;
        }
        Ok(())
    }

    /// It releases: its copies of the pages that it has stored in are made whole, and all other copies of them are taken away.
    fn release(&mut self, processor: usize) {
        let Some(stored) = self.stored.get_mut(processor) else {
            return;
        };
        let mut told = ProcessorSet::default();
        for page in stored.iter() {
            if let Some(held) = self.pages.get_mut(*page) {
                if !held.holders.has(processor) {
                    self.traffic.fetch(self.words);
                }
                told.join(&held.holders);
                held.holders = ProcessorSet::of(processor);
                held.dirty.remove(processor);
                held.is_released = true;
            }
        }
        stored.clear();
        told.remove(processor);
        let notices = told.count().saturating_mul(2);
        self.traffic.notices = self.traffic.notices.saturating_add(notices);
    }

    /// Takes note of the event, which comes next. The only error is running out of memory.
    pub(crate) fn note(&mut self, alloc: Global, event: Event) -> Result<(), AllocError> {
        let processor = event.processor;
        self.traffic.count(event.kind);
        match event.kind {
            Kind::Load(address, _) => self.access(processor, address),
            Kind::Store(address, _) => self.store(alloc, processor, address),
            Kind::Release(_) | Kind::Arrive | Kind::Set(_) => {
                self.release(processor);
                Ok(())
            }
            _ => Ok(()),
        }
    }
}
