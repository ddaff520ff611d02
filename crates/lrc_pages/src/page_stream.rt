//! A trace that is told on pages as it is read.
ghost use Rattle.std.specs.Prelude.{◌≡◌, ◌≢◌, ℕ, None, [], ◌∷◌, ◌++◌, IfErr, IfOk, List, OnOk};
ghost use Rattle.journal.specs.declared.event.Event.{Event};
ghost use Rattle.judge.specs.Prelude.{AreStreamedSizes, judged_sizes_of};
ghost use Rattle.lrc_check.specs.declared.traces.fault.TraceFault.TheVariants as trace;
ghost use Rattle.lrc_check.specs.Traces.Prelude.{FedTextBeginsTrace, IsNoLawfulTrace, trace_sizes_of, without_trace_labels};
ghost use Rattle.lrc_pages.specs.declared.page_stream.PageFault.TheVariants as page;
ghost use Rattle.lrc_pages.specs.Prelude.{ArePagedIfBegun, ArePagedTraces, HasPagesToRead, IsFoundOnPages, IsPagedOn, IsPageFaultInBytes, IsPageStream, paged_words};

use crate::page_row::{PageRow, page_rows, read_if_watched, sizes_on_pages};
use crate::page_watch::{PageWatch, feed_watch};
use crate::paged_history::{PagedFault, PagedHistory};
use judge::{MOST_ADDRESSES, Sizes};
use lrc_check::traces::fault::TraceFault;
use lrc_check::traces::reader::Reader;
use lrc_check::traces::trace::TraceSizes;
use std::alloc::{AllocError, Global};

/// Why a trace isn't told on pages.
#[derive(Clone, Copy, Debug, Drop)]
pub enum PageFault {
    /// The bytes are no trace's: this line has the fault.
    Trace(usize, TraceFault),
    /// The trace's addresses don't fit on pages of so many words.
    Unfit(usize),
    /// With its fetches it has more events than a history may have.
    Full,
    /// Memory ran out.
    NoMemory,
}

impl From<(usize, TraceFault)> for PageFault {
    ghost from_gives = { λ given fault. IsPageFaultInBytes fault → given.1 ≢ trace.NoMemory };

    fn from((line, fault): (usize, TraceFault)) -> PageFault {
        match fault {
            TraceFault::NoMemory => PageFault::NoMemory,
            _ => PageFault::Trace(line, fault),
        }
    }
}

impl From<PagedFault> for PageFault {
    ghost from_gives = { λ _ fault. IsPageFaultInBytes fault → ⊥ };

    fn from(fault: PagedFault) -> PageFault {
        match fault {
            PagedFault::Full => PageFault::Full,
            PagedFault::NoMemory => PageFault::NoMemory,
        }
    }
}

impl From<AllocError> for PageFault {
    ghost from_gives = { λ _ fault. fault ≡ page.NoMemory };

    fn from(_error: AllocError) -> PageFault {
        PageFault::NoMemory
    }
}

/// A trace that is told as it is read, on pages of each of some sizes. It takes the memory of a `PagedHistory` for each, and of the
/// events of one piece, however long the trace is.
#[derive(Drop)]
pub struct PageStream {
    reader: Reader,
    /// How many words a page has, for each size.
    words: Vec<usize>,
    /// How many pages are told of each size, at most.
    most: usize,
    /// What else is found of pages, if it is asked for.
    watch: Option<PageWatch>,
    /// One for each size; None before the line of the sizes.
    histories: Option<Vec<PagedHistory>>,
}

/// The trace's sizes, as they are judged by.
fn page_stream_sizes(sizes: TraceSizes) -> Sizes
    ensures { judged_sizes_of result ≡ trace_sizes_of sizes }
{
    Sizes {
        processors: sizes.processors,
        pages: sizes.pages,
        words: sizes.words,
        locks: sizes.locks,
        flags: sizes.flags,
    }
}

/// Before the first event, on pages of so many words. The last page may end past the last address, but not past the most that a
/// trace may have.
fn begun_on_page(alloc: Global, sizes: Sizes, words: usize) -> Result<PagedHistory, PageFault>
    requires { AreStreamedSizes (judged_sizes_of sizes) }
    ensures words { IfOk result (λ x. x.sizes.words ≡ words) }
    ensures told { IfOk result (IsPagedOn (judged_sizes_of sizes) []) }
    ensures refused { IfErr result (λ fault. IsPageFaultInBytes fault → ⊥) }
{
    if words == 0 || words > MOST_ADDRESSES {
        return Err(PageFault::Unfit(words));
    }
    let sizes = sizes_on_pages(sizes, words);
    if !sizes.are_streamed() {
        return Err(PageFault::Unfit(words));
    }
    let history = PagedHistory::new(alloc, sizes)?;
    Ok(history)
}

/// Adds it. The only error is running out of memory.
fn push_history(histories: &mut Vec<PagedHistory>, history: PagedHistory) -> Result<(), AllocError>
    ensures { OnOk result (histories.new.items ≡ histories.old.items ++ history ∷ []) }
{
    histories.push(history)?;
    Ok(())
}

/// The same of each size.
fn begun_on_pages(
    alloc: Global,
    sizes: Sizes,
    words: &[usize],
) -> Result<Vec<PagedHistory>, PageFault>
    requires { AreStreamedSizes (judged_sizes_of sizes) }
    ensures words { IfOk result (λ xs. paged_words xs.items ≡ words.now) }
    ensures told { IfOk result (λ xs. ArePagedTraces (judged_sizes_of sizes) [] xs.items) }
    ensures refused { IfErr result (λ fault. IsPageFaultInBytes fault → ⊥) }
{
    let mut histories = Vec::with_capacity(alloc, words.len())?;
    for at in 0..words.len() {
        let history = begun_on_page(alloc, sizes, words[at])?;
        push_history(&mut histories, history)?;
    }
    Ok(histories)
}

impl PageStream {
    /// Before the first piece, on pages of so many words each, of which so many are to be told at most. The watch is one of these
    /// sizes.
    pub fn new(
        alloc: Global,
        words: Vec<usize>,
        most: usize,
        watch: Option<PageWatch>,
    ) -> PageStream
        ensures stream { IsPageStream [] result }
        ensures words { result.words ≡ words }
        ensures most { result.most ≡ most }
    {
        PageStream {
            reader: Reader::new(alloc),
            words,
            most,
            watch,
            histories: None,
        }
    }

    /// Makes the histories, if the sizes are known and there are none.
    fn begin(&mut self, alloc: Global) -> Result<(), PageFault>
        requires { (front : List Event) × HasPagesToRead front self.old }
        ensures reader { self.new.reader ≡ self.old.reader }
        ensures words { self.new.words ≡ self.old.words }
        ensures most { self.new.most ≡ self.old.most }
        ensures begun { OnOk result ((front : List Event) → HasPagesToRead front self.old → HasPagesToRead front self.new) }
        ensures known { OnOk result (self.new.histories ≡ None → self.old.reader.sizes ≡ None) }
        ensures refused { IfErr result (λ fault. IsPageFaultInBytes fault → ⊥) }
    {
        if self.histories.is_none() {
            if let Some(sizes) = self.reader.sizes() {
                let histories = begun_on_pages(alloc, page_stream_sizes(sizes), &self.words)?;
                drop(self.histories.replace(histories));
            }
        }
        Ok(())
    }

    /// Tells the events at hand, which end in this piece.
    fn read(&mut self, alloc: Global, piece: &[u8]) -> Result<(), PageFault>
        requires { (front : List Event) × HasPagesToRead front self.old }
        ensures reader { self.new.reader ≡ self.old.reader }
        ensures words { self.new.words ≡ self.old.words }
        ensures most { self.new.most ≡ self.old.most }
        ensures told { OnOk result ((front : List Event) → HasPagesToRead front self.old
            → ArePagedIfBegun self.old.words.items self.old.reader.sizes (front ++ self.old.reader.events) self.new.histories) }
        ensures refused { IfErr result (λ fault. IsPageFaultInBytes fault → ⊥) }
    {
        self.begin(alloc)?;
        feed_watch(alloc, &mut self.watch, piece)?;
        if let Some(histories) = &mut self.histories {
            read_if_watched(alloc, histories, &mut self.watch, self.reader.events())?;
        }
        Ok(())
    }

    /// Takes the next piece of the trace's text, and tells the events of the lines that end in it.
    ///
    /// # Errors
    ///
    /// `Trace`, with the first line that has a fault, comes only where no trace has a text that begins so. After an error the stream
    /// tells no trace.
    pub fn feed(&mut self, alloc: Global, piece: &[u8]) -> Result<(), PageFault>
        requires { (bytes : List ℕ) × IsPageStream bytes self.old }
        ensures words { self.new.words ≡ self.old.words }
        ensures most { self.new.most ≡ self.old.most }
        ensures stream { OnOk result ((bytes : List ℕ) → IsPageStream bytes self.old → IsPageStream (bytes ++ piece.now) self.new) }
        ensures refused { IfErr result (λ fault. IsPageFaultInBytes fault → (bytes : List ℕ) → IsPageStream bytes self.old
            → ¬ FedTextBeginsTrace (bytes ++ piece.now)) }
    {
        self.reader.let_go();
        self.reader.feed(alloc, piece)?;
        self.read(alloc, piece)
    }

    /// What the trace costs, if its text ends here: a row for each size.
    ///
    /// # Errors
    ///
    /// `Trace` alone, with the number of the line that has to be there or to end, or running out of memory.
    pub fn finish(&self, alloc: Global) -> Result<Vec<PageRow>, PageFault>
        requires { (bytes : List ℕ) × IsPageStream bytes self.now }
        ensures found { IfOk result (λ rows. (bytes : List ℕ) → IsPageStream bytes self.now
            → IsFoundOnPages self.now.most self.now.words.items bytes rows.items) }
        ensures refused { IfErr result (λ fault. IsPageFaultInBytes fault → (bytes : List ℕ) → IsPageStream bytes self.now
            → IsNoLawfulTrace (without_trace_labels bytes)) }
    {
        self.reader.end()?;
        match &self.histories {
            Some(histories) => Ok(page_rows(alloc, histories, self.most, self.watch.as_ref())?),
            None => Ok(Vec::new(alloc)),
        }
    }

    /// The bytes of the line that a fault is told of, without its line feed, and how many lines before it were passed over.
    pub fn refused_line(&self) -> (&[u8], usize) {
        (self.reader.unfinished(), self.reader.passed())
    }

    /// The trace's sizes, if their line was read.
    pub fn sizes(&self) -> Option<TraceSizes> {
        self.reader.sizes()
    }
}
