//! What a trace costs on pages of one size, as it is told.
ghost use Rattle.std.specs.Prelude.{◌≡◌, ◌+◌, ◌-◌, ◌<◌, ◌≤◌, ◌^◌, [], ◌++◌, IfOk, List, OnOk};
ghost use Rattle.journal.specs.declared.event.Event.{Event};
ghost use Rattle.journal.specs.Prelude.{Sizes as JournalSizes};
ghost use Rattle.judge.specs.Prelude.{AreStreamedSizes, judged_sizes_of};
ghost use Rattle.lrc_pages.specs.declared.paged_history.PagedHistory.{PagedHistory};
ghost use Rattle.lrc_pages.specs.Prelude.{ArePageRows, ArePagedTraces, AreTracedEvents, IsPageRow, IsPagedOn, paged_sizes, paged_words};

use crate::eager_pages::EagerTraffic;
use crate::page_cells::PageCell;
use crate::page_traffic::PageTraffic;
use crate::page_uses::PageUses;
use crate::page_watch::{LabelWait, PageWatch, cells_watched, labels_waited_for};
use crate::paged_history::{PagedFault, PagedHistory};
use crate::top_pages::{TopPage, top_pages};
use journal::Event;
use judge::Sizes;
use std::alloc::{AllocError, Global};

/// What a trace costs on pages of one size.
#[derive(Drop)]
pub struct PageRow {
    /// How many words a page has.
    pub words: usize,
    /// How many messages are sent.
    pub messages: u64,
    /// What the trace costs with its fetches.
    pub traffic: PageTraffic,
    /// How many pages are accessed.
    pub touched: usize,
    /// The pages that are fetched most, if they are asked for.
    pub top: Vec<TopPage>,
    /// The labels whose accesses wait for most messages, if they are asked for.
    pub labels: Vec<LabelWait>,
    /// What the trace costs under eager release consistency, if that is asked for.
    pub eager: Option<EagerTraffic>,
    /// How many words useless fetches bring, if pages or a picture are asked for.
    pub useless_words: u64,
    /// Of each page of `top` what each processor does there, if a picture is asked for and this is its first size.
    pub cells: Vec<Vec<PageCell>>,
}

/// How many of so many words useless fetches bring; 0 if that isn't watched.
fn useless_words_of(uses: Option<&PageUses>, words: u64) -> u64 {
    match uses {
        Some(uses) => uses.useless_words(words),
        None => 0,
    }
}

/// The sizes of the same memory on pages of so many words.
pub(crate) fn sizes_on_pages(sizes: Sizes, words: usize) -> Sizes
    requires sizes { AreStreamedSizes (judged_sizes_of sizes) }
    requires words { (0 < words) × (words ≤ 2 ^ 20) }
    ensures sizes { judged_sizes_of result ≡ paged_sizes (judged_sizes_of sizes) words }
    ensures words { result.words ≡ words }
{
    let addresses = sizes.pages * sizes.words;
    Sizes {
        pages: (addresses + (words - 1)) / words,
        words,
        ..sizes
    }
}

/// Takes note of these events, the next ones, on pages of each size. After an error they may tell no trace.
pub(crate) fn read_on_pages(
    histories: &mut [PagedHistory],
    events: &[Event],
) -> Result<(), PagedFault>
    requires { (s : JournalSizes) × (j : List Event) × ArePagedTraces s j histories.old × AreTracedEvents s events.now }
    ensures words { OnOk result (paged_words histories.new ≡ paged_words histories.old) }
    ensures told { OnOk result ((s : JournalSizes) (j : List Event) → ArePagedTraces s j histories.old
        → ArePagedTraces s (j ++ events.now) histories.new) }
{
    for at in 0..histories.len() {
        histories[at].read_all(events)?;
    }
    Ok(())
}

/// The same, and has the watch take note of each event. After an error they may tell no trace.
fn read_watched(
    alloc: Global,
    histories: &mut [PagedHistory],
    watch: &mut PageWatch,
    events: &[Event],
) -> Result<(), PagedFault>
    requires { (s : JournalSizes) × (j : List Event) × ArePagedTraces s j histories.old × AreTracedEvents s events.now }
    ensures words { OnOk result (paged_words histories.new ≡ paged_words histories.old) }
    ensures told { OnOk result ((s : JournalSizes) (j : List Event) → ArePagedTraces s j histories.old
        → ArePagedTraces s (j ++ events.now) histories.new) }
{
    for at in 0..events.len() {
        let event = events[at];
        read_on_pages(histories, &[event])?;
        watch.note(alloc, histories, at, event)?;
    }
    Ok(())
}

/// The same, if there is a watch.
pub(crate) fn read_if_watched(
    alloc: Global,
    histories: &mut [PagedHistory],
    watch: &mut Option<PageWatch>,
    events: &[Event],
) -> Result<(), PagedFault>
    requires { (s : JournalSizes) × (j : List Event) × ArePagedTraces s j histories.old × AreTracedEvents s events.now }
    ensures words { OnOk result (paged_words histories.new ≡ paged_words histories.old) }
    ensures told { OnOk result ((s : JournalSizes) (j : List Event) → ArePagedTraces s j histories.old
        → ArePagedTraces s (j ++ events.now) histories.new) }
{
    match watch {
        Some(watch) => read_watched(alloc, histories, watch, events),
        None => read_on_pages(histories, events),
    }
}

/// What the trace costs on pages of this size, as it was told, with so many pages at most. The size stands at this place among
/// those that are watched. The only error is running out of memory.
fn page_row_of(
    alloc: Global,
    history: &PagedHistory,
    most: usize,
    watch: Option<&PageWatch>,
    at: usize,
) -> Result<PageRow, AllocError>
    requires { (s : JournalSizes) × (j : List Event) × IsPagedOn s j history.now }
    ensures words { IfOk result (λ row. row.words ≡ history.now.sizes.words) }
    ensures row { IfOk result (λ row. (s : JournalSizes) (j : List Event) → IsPagedOn s j history.now → IsPageRow most s j row) }
{
    let uses = watch.and_then(|watch| watch.uses(at));
    let top = top_pages(alloc, history.tallies(), uses, most)?;
    let labels = labels_waited_for(alloc, watch, at, most)?;
    let cells = cells_watched(alloc, watch, at, &top)?;
    Ok(PageRow {
        words: history.words(),
        messages: history.traffic().messages(),
        traffic: history.traffic(),
        touched: history.touched(),
        top,
        labels,
        eager: watch.and_then(|watch| watch.eager(at)),
        useless_words: useless_words_of(uses, history.traffic().words),
        cells,
    })
}

/// The same of each size. The only error is running out of memory.
pub(crate) fn page_rows(
    alloc: Global,
    histories: &[PagedHistory],
    most: usize,
    watch: Option<&PageWatch>,
) -> Result<Vec<PageRow>, AllocError>
    requires { (s : JournalSizes) × (j : List Event) × ArePagedTraces s j histories.now }
    ensures { IfOk result (λ rows. (s : JournalSizes) (j : List Event) → ArePagedTraces s j histories.now
        → ArePageRows most s j (paged_words histories.now) rows.items) }
{
    let mut rows = Vec::with_capacity(alloc, histories.len())?;
    for at in 0..histories.len() {
        rows.push(page_row_of(alloc, &histories[at], most, watch, at)?)?;
    }
    Ok(rows)
}
