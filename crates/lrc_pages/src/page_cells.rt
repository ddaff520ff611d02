//! Who stores in pages of one size and who loads from them, and how often. Nothing is proved of it beyond that it is safe.

use crate::heard_stores::lengthen_row;
use crate::page_uses::page_of_word;
use crate::top_pages::TopPage;
use journal::{Event, Kind};
use std::alloc::{AllocError, Global};

/// What a processor does on a page.
#[derive(Clone, Copy, Debug, Default, PartialEq, Eq, Drop)]
pub struct PageCell {
    /// How often it stores there.
    pub stores: u32,
    /// How often it loads from there.
    pub loads: u32,
}

/// What each processor does on each page of one size. It takes 8 bytes for each page and processor that accesses any.
#[derive(Drop)]
pub(crate) struct PageCells {
    words: usize,
    /// By processors, up to the last one that accesses any, and then by pages.
    cells: Vec<Vec<PageCell>>,
}

impl PageCell {
    /// The processor accesses the page once more.
    fn access(&mut self, stores: bool) {
        if stores {
            self.stores = self.stores.saturating_add(1);
        } else {
            self.loads = self.loads.saturating_add(1);
        }
    }
}

impl PageCells {
    /// Before the first event, on pages of so many words.
    pub(crate) fn new(alloc: Global, words: usize) -> PageCells {
        PageCells {
            words,
            cells: Vec::new(alloc),
        }
    }

    /// The processor accesses the word. The only error is running out of memory.
    fn access(
        &mut self,
        alloc: Global,
        processor: usize,
        address: usize,
        stores: bool,
    ) -> Result<(), AllocError> {
        for _ in self.cells.len()..processor.saturating_add(1) {
            self.cells.push(Vec::new(alloc))?;
        }
        let page = page_of_word(address, self.words);
        if let Some(row) = self.cells.get_mut(processor) {
            lengthen_row(row, page, PageCell::default())?;
            if let Some(cell) = row.get_mut(page) {
                cell.access(stores);
            }
        }
        Ok(())
    }

    /// Takes note of the event, which comes next. The only error is running out of memory.
    pub(crate) fn note(&mut self, alloc: Global, event: Event) -> Result<(), AllocError> {
        match event.kind {
            Kind::Load(address, _) => self.access(alloc, event.processor, address, false),
            Kind::Store(address, _) => self.access(alloc, event.processor, address, true),
            _ => Ok(()),
        }
    }

    /// What the processor does on the page.
    fn of(&self, processor: usize, page: usize) -> PageCell {
        match self.cells.get(processor) {
            Some(row) => match row.get(page) {
                Some(cell) => *cell,
                None => PageCell::default(),
            },
            None => PageCell::default(),
        }
    }

    /// What each processor up to the last that accesses any page does on this one. The only error is running out of memory.
    fn row(&self, alloc: Global, page: usize) -> Result<Vec<PageCell>, AllocError> {
        let mut row = Vec::new(alloc);
        for processor in 0..self.cells.len() {
            row.push(self.of(processor, page))?;
        }
        Ok(row)
    }

    /// What each processor does on each of these pages. The only error is running out of memory.
    pub(crate) fn rows(
        &self,
        alloc: Global,
        pages: &[TopPage],
    ) -> Result<Vec<Vec<PageCell>>, AllocError> {
        let mut rows = Vec::new(alloc);
        for page in pages {
            rows.push(self.row(alloc, page.page)?)?;
        }
        Ok(rows)
    }
}
