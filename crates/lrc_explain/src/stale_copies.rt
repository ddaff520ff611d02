//! Which pages go stale by an event that takes, and whose records a fetch brings.

use crate::page_copy::PageCopy;
use causes::Due;
use journal::{Event, Kind};
use lrc_prose::text::ProseText;
use std::alloc::{AllocError, Global};
use std::collections::BTreeSet;

/// How many pages of an event are told at most.
const MOST_TOLD: usize = 3;

/// Which copies of pages are stale, as far as is known.
#[derive(Drop)]
pub struct StaleCopies {
    copies: BTreeSet<PageCopy>,
}

impl StaleCopies {
    /// None.
    pub fn new(alloc: Global) -> StaleCopies {
        StaleCopies {
            copies: BTreeSet::new(alloc),
        }
    }

    /// Whether the processor's copy of the page is.
    fn is(&self, page: usize, processor: usize) -> bool {
        self.copies.contains(&PageCopy { page, processor })
    }

    /// Takes note of the event, which tells of these records. The only error is running out of memory.
    pub fn note(&mut self, event: Event, dues: &[Due]) -> Result<(), AllocError> {
        let processor = event.processor;
        if let Kind::Fetch { page, .. } = event.kind {
            self.copies.remove(&PageCopy { page, processor });
            return Ok(());
        }
        for due in dues {
            let page = due.page;
            self.copies.insert(PageCopy { page, processor })?;
        }
        Ok(())
    }
}

/// Whose records a fetch brings. Empty where nobody's are known.
#[derive(Clone, Copy)]
pub struct StaleCopyWriters<'a> {
    pub dues: &'a [Due],
    /// Whether some are from before the cut.
    pub has_older: bool,
}

impl StaleCopyWriters<'_> {
    /// Puts what stands in front of the writer at this index.
    fn put_front(&self, text: &mut ProseText, index: usize) {
        let is_last = !self.has_older && index.saturating_add(1) == self.dues.len();
        text.put(match index {
            0 => ", of",
            _ if is_last => " and",
            _ => ",",
        });
    }

    /// Puts them, with a comma before them.
    pub fn put(&self, text: &mut ProseText) {
        for (index, due) in self.dues.iter().enumerate() {
            self.put_front(text, index);
            text.put_number(" p", due.writer);
        }
        match (self.has_older, self.dues.len()) {
            (false, _) => {}
            (true, 0) => text.put(", from before the cut"),
            (true, _) => text.put(" and from before the cut"),
        }
    }
}

/// Which pages go stale by an event that takes.
#[derive(Clone, Copy)]
pub struct GoneStaleCopies<'a> {
    pub processor: usize,
    /// The records that it brings word of, by rising pages.
    pub dues: &'a [Due],
    /// Which copies were stale before it.
    pub stale: &'a StaleCopies,
    /// Whether something was cut off, so that nobody knows which copies were stale.
    pub is_cut: bool,
}

impl GoneStaleCopies<'_> {
    /// Puts the first records of a page, the one of this number.
    fn put_page(&self, text: &mut ProseText, due: Due, number: usize) {
        if number > 1 {
            text.put("; ");
        }
        text.put_number("page ", due.page);
        if self.is_cut || self.stale.is(due.page, self.processor) {
            text.put(" lacks ");
            text.put_count(due.records, "record");
            text.put(" more");
        } else {
            text.put(" goes stale: ");
            text.put_count(due.records, "record");
        }
        text.put_number(" of p", due.writer);
    }

    /// Puts them.
    pub fn put(&self, text: &mut ProseText) {
        let mut pages: usize = 0;
        let mut last = None;
        for due in self.dues {
            let is_next = last != Some(due.page);
            if is_next {
                pages = pages.saturating_add(1);
                last = Some(due.page);
            }
            if pages > MOST_TOLD {
                continue;
            }
            if is_next {
                self.put_page(text, *due, pages);
            } else {
                text.put_number(", ", due.records);
                text.put_number(" of p", due.writer);
            }
        }
        if pages > MOST_TOLD {
            text.put("; ");
            text.put_count(pages.saturating_sub(MOST_TOLD), "more page");
        }
    }
}
