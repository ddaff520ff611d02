//! The records of an interval, made of its events.
ghost use Rattle.std.specs.Prelude.{◌≡◌, ◌<◌, ◌≤◌, ℕ, List, IfOk, length, map};
ghost use Rattle.std.specs.Arc.{arc_value};
ghost use Rattle.base.specs.Prelude.{wrote, mark_write};
ghost use Rattle.journal.specs.Prelude.{Sizes, block_write, open_interval_contents};
ghost use Rattle.journal.specs.declared.event.Event.{Event as AnEvent};
ghost use Rattle.test_memory.specs.Histories.Prelude.{IsOpenIn, AreOpenBelow};

use crate::histories::told::Told;
use journal::{Event, Kind};
use page::{Access, Page, Record};
use std::alloc::AllocError;
use std::sync::Arc;

impl Told {
    /// The records of an open interval with these events: one for each page in which they store, in
    /// rising order.
    pub(crate) fn records_of(&self, events: &[Event]) -> Result<Vec<Arc<Record>>, AllocError>
        ensures { (h : List AnEvent) (p : ℕ) → open_interval_contents h p ≡ events.now → IfOk result (λ rs.
            AreOpenBelow self.now.sizes h p self.now.sizes.pages (map arc_value rs.items)) }
    {
        let alloc = self.allocator();
        let mut records = Vec::new(alloc);
        for page in 0..self.pages() {
            if let Some(record) = self.record_of(page, events)? {
                records.push(Arc::new(alloc, record)?)?;
            }
        }
        Ok(records)
    }

    /// What the events store in the page, if they store in it.
    fn record_of(&self, page: usize, events: &[Event]) -> Result<Option<Record>, AllocError>
        ensures { (h : List AnEvent) (p : ℕ) → open_interval_contents h p ≡ events.now
            → IfOk result (λ o. IsOpenIn self.now.sizes h p page o) }
    {
        let words = self.words();
        let mut copy = Page::zero(self.allocator(), words)?;
        for event in events {
            store_in(&mut copy, words, page, event);
        }
        copy.harvest(page)
    }
}

/// Does to a copy of the page what the event stores in it.
fn store_in(copy: &mut Page, words: usize, page: usize, event: &Event)
    requires some { 0 < words }
    requires long { length copy.old.words ≡ words }
    requires valid { copy.old.access ≡ Access.Valid }
    ensures words { (s : Sizes) → s.words ≡ words
        → copy.new.words ≡ wrote copy.old.words (block_write s page event.now.kind) }
    ensures dirty { (s : Sizes) → s.words ≡ words
        → copy.new.dirty ≡ mark_write copy.old.dirty (block_write s page event.now.kind) }
    ensures access { copy.new.access ≡ copy.old.access }
{
    if let Kind::Store(address, word) = event.kind {
        if address / words == page {
            copy.store(address % words, word);
        }
    }
}
