//! Which copies of pages are known to lack nothing.
ghost use Rattle.std.specs.Prelude.{◌≡◌, ◌≢◌, ◌<◌, ◌↔◌, ◌^◌, ℕ, [], ◌∷◌, ◌++◌, IfOk, IsTrue, List, OnOk, length, slice_index, vec_len};
ghost use Rattle.journal.specs.declared.event.Event.{Event};
ghost use Rattle.journal.specs.BroughtCopy.{BroughtCopyHasNoGap};
ghost use Rattle.journal.specs.Prelude.{Sizes, event_takes};
ghost use Rattle.lrc_pages.specs.Prelude.{AreWholeCopies, HasTaken, HasWholeCopiesOf, IsFoundWhole, takes_of, whole_at, whole_copy_at};

use journal::{Event, Kind};
use std::alloc::{AllocError, Global};

/// A copy lacks nothing that lacked nothing once, if its processor has taken nothing since. So this keeps of each processor how
/// often it has taken, and of each page how often it had when its copy was last found whole.
///
/// It takes four bytes for each page and processor that accesses any.
#[derive(Drop)]
pub(crate) struct WholeCopies {
    pages: usize,
    takes: Vec<u32>,
    /// By processors, and then by pages; nothing before a processor's first access.
    whole: Vec<Vec<u32>>,
}

/// Whether its processor gets to know of others' events by an event of this kind.
fn takes_by_kind(kind: Kind) -> bool
    ensures { result ≡ event_takes kind }
{
    match kind {
        Kind::Acquire(_) | Kind::Depart | Kind::Await(_) => true,
        _ => false,
    }
}

/// So many empty rows. The only error is running out of memory.
fn whole_copy_rows(alloc: Global, count: usize) -> Result<Vec<Vec<u32>>, AllocError>
    ensures long { IfOk result (λ v. length v.items ≡ count) }
    ensures none { IfOk result (λ v. (p n : ℕ) → whole_copy_at v.items p n ≡ 0) }
{
    let mut rows = Vec::with_capacity(alloc, count)?;
    for _ in 0..count {
        rows.push(Vec::new(alloc))?;
    }
    Ok(rows)
}

/// The number at this place of the row; 0 past its end.
fn whole_copy_number(row: &[u32], page: usize) -> u32
    ensures { result ≡ slice_index row.now page }
{
    if page < row.len() { row[page] } else { 0 }
}

/// Lengthens the row by zeros to so many pages, if it doesn't have the page. The only error is running out of memory.
fn lengthen_whole_copy_row(row: &mut Vec<u32>, page: usize, pages: usize) -> Result<(), AllocError>
    requires { page < pages }
    ensures long { OnOk result (page < vec_len row.new) }
    ensures same { (n : ℕ) → slice_index row.new.items n ≡ slice_index row.old.items n }
{
    if row.len() <= page {
        row.resize(pages, 0)?;
    }
    Ok(())
}

/// Writes the number at this place of the processor's row. The only error is running out of memory.
fn set_whole_copy_number(
    rows: &mut Vec<Vec<u32>>,
    processor: usize,
    page: usize,
    pages: usize,
    number: u32,
) -> Result<(), AllocError>
    requires processor { processor < vec_len rows.old }
    requires page { page < pages }
    ensures room { OnOk result (vec_len rows.new ≡ vec_len rows.old) }
    ensures now { OnOk result (whole_copy_at rows.new.items processor page ≡ number) }
    ensures others { OnOk result ((q m : ℕ) → q ≢ processor → whole_copy_at rows.new.items q m ≡ whole_copy_at rows.old.items q m) }
    ensures pages { OnOk result ((m : ℕ) → m ≢ page
        → whole_copy_at rows.new.items processor m ≡ whole_copy_at rows.old.items processor m) }
{
    let row = &mut rows[processor];
    lengthen_whole_copy_row(row, page, pages)?;
    row[page] = number;
    Ok(())
}

impl WholeCopies {
    /// Before the first event. The only error is running out of memory.
    pub(crate) fn new(
        alloc: Global,
        processors: usize,
        pages: usize,
    ) -> Result<WholeCopies, AllocError>
        ensures none { IfOk result (λ c. (s : Sizes) → s.processors ≡ processors → AreWholeCopies s [] c) }
        ensures pages { IfOk result (λ c. c.pages ≡ pages) }
    {
        Ok(WholeCopies {
            pages,
            takes: vec![in alloc; 0; processors]?,
            whole: whole_copy_rows(alloc, processors)?,
        })
    }

    /// Whether it is known that the processor's copy of the page lacks nothing.
    pub(crate) fn is_whole(&self, processor: usize, page: usize) -> bool
        requires takes { processor < vec_len self.now.takes }
        requires whole { processor < vec_len self.now.whole }
        ensures { IsTrue result ↔ (whole_at self.now processor page ≡ takes_of self.now processor) }
    {
        whole_copy_number(&self.whole[processor], page) == self.takes[processor]
    }

    /// Keeps that the processor's copy of the page lacks nothing. The only error is running out of memory.
    pub(crate) fn find(&mut self, processor: usize, page: usize) -> Result<(), AllocError>
        requires takes { processor < vec_len self.old.takes }
        requires whole { processor < vec_len self.old.whole }
        requires page { page < self.old.pages }
        ensures pages { self.new.pages ≡ self.old.pages }
        ensures found { OnOk result (IsFoundWhole self.old self.new processor page) }
    {
        let takes = self.takes[processor];
        set_whole_copy_number(&mut self.whole, processor, page, self.pages, takes)
    }

    /// Keeps that the processor has taken once more.
    fn take(&mut self, processor: usize)
        requires takes { processor < vec_len self.old.takes }
        requires few { takes_of self.old processor < 2 ^ 31 }
        ensures pages { self.new.pages ≡ self.old.pages }
        ensures taken { HasTaken self.old self.new processor }
    {
        self.takes[processor] += 1;
    }

    /// Takes note of the event, which comes next.
    pub(crate) fn note(&mut self, event: Event)
        requires takes { event.processor < vec_len self.old.takes }
        requires few { takes_of self.old event.processor < 2 ^ 31 }
        ensures pages { self.new.pages ≡ self.old.pages }
        ensures whole { (s : Sizes) (h : List Event) → AreWholeCopies s h self.old → AreWholeCopies s (h ++ event ∷ []) self.new }
    {
        if takes_by_kind(event.kind) {
            self.take(event.processor);
        }
    }
}
