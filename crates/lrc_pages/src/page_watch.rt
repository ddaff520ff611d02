//! What a trace's pages are used for and what their fetches wait for, on pages of some sizes. Nothing is proved of it beyond that it
//! is safe.

use crate::eager_pages::{EagerPages, EagerTraffic};
use crate::heard_stores::HeardStores;
use crate::line_labels::{LineLabels, shown_label};
use crate::page_cells::{PageCell, PageCells};
use crate::page_uses::{PageUses, WordAccess};
use crate::paged_history::PagedHistory;
use crate::top_pages::TopPage;
use journal::Event;
use lrc_options::options::PagesOptions;
use std::alloc::{AllocError, Global};
use std::cmp::Reverse;

/// A label, and what the accesses with this label wait for.
#[derive(Debug, Drop)]
pub struct LabelWait {
    /// The label, each byte that is no printable sign of ASCII as `?`.
    pub label: String,
    /// The messages of the fetches right before these accesses.
    pub messages: u64,
}

/// What is told of pages beyond their costs, as it is found.
#[derive(Drop)]
pub struct PageWatch {
    labels: LineLabels,
    heard: HeardStores,
    /// One for each size, if pages are to be told.
    uses: Vec<PageUses>,
    /// One for each size, if eager release consistency is to be told.
    eager: Vec<EagerPages>,
    /// One for the first size, if a picture is to be made.
    cells: Vec<PageCells>,
}

/// What the uses of pages of these sizes are kept in. The only error is running out of memory.
fn uses_of_sizes(alloc: Global, words: &[usize]) -> Result<Vec<PageUses>, AllocError> {
    let mut uses = Vec::new(alloc);
    for words in words {
        uses.push(PageUses::new(alloc, *words))?;
    }
    Ok(uses)
}

/// What the costs of eager release consistency are kept in. The only error is running out of memory.
fn eager_of_sizes(alloc: Global, words: &[usize]) -> Result<Vec<EagerPages>, AllocError> {
    let mut eager = Vec::new(alloc);
    for words in words {
        eager.push(EagerPages::new(alloc, *words))?;
    }
    Ok(eager)
}

/// What processors do on pages of the first size is kept in this. The only error is running out of memory.
fn cells_of_sizes(alloc: Global, words: &[usize]) -> Result<Vec<PageCells>, AllocError> {
    let mut cells = Vec::new(alloc);
    if let Some(first) = words.first() {
        cells.push(PageCells::new(alloc, *first))?;
    }
    Ok(cells)
}

/// Whether what pages are used for is asked for.
fn wants_page_uses(options: &PagesOptions) -> bool {
    options.top.is_some() || options.svg
}

/// Whether something is asked for that a watch finds.
pub(crate) fn wants_page_watch(options: &PagesOptions) -> bool {
    wants_page_uses(options) || options.eager
}

impl PageWatch {
    /// Before the first piece: of what the options ask for. The only error is running out of memory.
    pub fn new(alloc: Global, options: &PagesOptions) -> Result<PageWatch, AllocError> {
        let words: &[usize] = &options.page_words;
        let used = if wants_page_uses(options) { words } else { &[] };
        let held = if options.eager { words } else { &[] };
        let drawn = if options.svg { words } else { &[] };
        Ok(PageWatch {
            labels: LineLabels::new(alloc),
            heard: HeardStores::new(alloc),
            uses: uses_of_sizes(alloc, used)?,
            eager: eager_of_sizes(alloc, held)?,
            cells: cells_of_sizes(alloc, drawn)?,
        })
    }

    /// Takes note of the next piece of the trace's text. The only error is running out of memory.
    fn feed(&mut self, alloc: Global, piece: &[u8]) -> Result<(), AllocError> {
        if self.uses.is_empty() {
            return Ok(());
        }
        self.labels.feed(alloc, piece)
    }

    /// Takes note of the event, which comes next, for the uses of pages. The only error is running out of memory.
    fn note_uses(
        &mut self,
        alloc: Global,
        histories: &[PagedHistory],
        place: usize,
        event: Event,
    ) -> Result<(), AllocError> {
        let Some(first) = histories.first() else {
            return Ok(());
        };
        self.heard.note(alloc, first.processors(), event)?;
        let label = self.labels.number(place);
        let Some(access) = WordAccess::of(event, label, &self.heard) else {
            return Ok(());
        };
        for (uses, history) in self.uses.iter_mut().zip(histories.iter()) {
            uses.note(alloc, access, history.traffic())?;
        }
        Ok(())
    }

    /// Takes note of the event, which comes next, stands at this place among those of the piece, and was told to the histories. The
    /// only error is running out of memory.
    pub(crate) fn note(
        &mut self,
        alloc: Global,
        histories: &[PagedHistory],
        place: usize,
        event: Event,
    ) -> Result<(), AllocError> {
        if !self.uses.is_empty() {
            self.note_uses(alloc, histories, place, event)?;
        }
        for eager in self.eager.iter_mut() {
            eager.note(alloc, event)?;
        }
        for cells in self.cells.iter_mut() {
            cells.note(alloc, event)?;
        }
        Ok(())
    }

    /// What pages of the size at this place are used for, if that is watched.
    pub(crate) fn uses(&self, at: usize) -> Option<&PageUses> {
        self.uses.get(at)
    }

    /// What eager release consistency costs on pages of the size at this place, if that is watched.
    pub(crate) fn eager(&self, at: usize) -> Option<EagerTraffic> {
        match self.eager.get(at) {
            Some(eager) => Some(eager.traffic()),
            None => None,
        }
    }

    /// What each processor does on each of these pages of the size at this place; nothing if that isn't watched. The only error is
    /// running out of memory.
    fn cells(
        &self,
        alloc: Global,
        at: usize,
        pages: &[TopPage],
    ) -> Result<Vec<Vec<PageCell>>, AllocError> {
        match self.cells.get(at) {
            Some(cells) => cells.rows(alloc, pages),
            None => Ok(Vec::new(alloc)),
        }
    }

    /// The labels whose accesses wait for most messages on pages of the size at this place, so many at most; of two that wait for as
    /// many, the one that stands first in the trace. The only error is running out of memory.
    fn labels(&self, alloc: Global, at: usize, most: usize) -> Result<Vec<LabelWait>, AllocError> {
        let mut waits = Vec::new(alloc);
        let Some(uses) = self.uses.get(at) else {
            return Ok(waits);
        };
        for (number, messages) in ranked_labels(alloc, uses.waited(), most)? {
            let label = shown_label(alloc, self.labels.label(number))?;
            waits.push(LabelWait { label, messages })?;
        }
        Ok(waits)
    }
}

/// The labels whose accesses wait for any message, with how many, most first. The only error is running out of memory.
fn ranked_labels(
    alloc: Global,
    waited: &[u64],
    most: usize,
) -> Result<Vec<(usize, u64)>, AllocError> {
    let mut ranks = Vec::new(alloc);
    for (number, messages) in waited.iter().enumerate() {
        if *messages > 0 {
            ranks.push((Reverse(*messages), number))?;
        }
    }
    ranks.sort()?;
    let mut told = Vec::new(alloc);
    for (messages, number) in ranks.iter().take(most) {
        told.push((*number, messages.0))?;
    }
    Ok(told)
}

/// Takes note of the next piece of the trace's text, if there is a watch. The only error is running out of memory.
pub(crate) fn feed_watch(
    alloc: Global,
    watch: &mut Option<PageWatch>,
    piece: &[u8],
) -> Result<(), AllocError> {
    match watch {
        Some(watch) => watch.feed(alloc, piece),
        None => Ok(()),
    }
}

/// The labels whose accesses wait for most messages, if that is watched. The only error is running out of memory.
pub(crate) fn labels_waited_for(
    alloc: Global,
    watch: Option<&PageWatch>,
    at: usize,
    most: usize,
) -> Result<Vec<LabelWait>, AllocError> {
    match watch {
        Some(watch) => watch.labels(alloc, at, most),
        None => Ok(Vec::new(alloc)),
    }
}

/// What each processor does on each of these pages, if that is watched. The only error is running out of memory.
pub(crate) fn cells_watched(
    alloc: Global,
    watch: Option<&PageWatch>,
    at: usize,
    pages: &[TopPage],
) -> Result<Vec<Vec<PageCell>>, AllocError> {
    match watch {
        Some(watch) => watch.cells(alloc, at, pages),
        None => Ok(Vec::new(alloc)),
    }
}
