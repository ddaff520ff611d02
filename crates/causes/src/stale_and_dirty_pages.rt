//! Which of a processor's copies of pages are stale or dirty. Each other one is valid and clean.
ghost use Rattle.std.specs.Prelude.{ℕ, ◌<◌, ◌^◌, ◌↔◌, IfOk, IsTrue, List, length};
ghost use Rattle.base.specs.Prelude.{most_processors};
ghost use Rattle.journal.specs.declared.event.Event.{Event};
ghost use Rattle.judge.specs.Prelude.{TellsFetchGaps, judged_sizes_of};
ghost use Rattle.causes.specs.Prelude.{AreThoseInFinalWait, IsEventStateDirty, IsEventStateStale};

use crate::notices::{has_notice_of, notice_stores_in};
use crate::span::span_of_fetch;
use base::MOST_PROCESSORS;
use judge::Gaps;
use std::alloc::{AllocError, Global};

/// Whether the processor's copy of the page is stale.
fn is_stale_page(gaps: &Gaps, reader: usize, page: usize) -> bool
    requires tells { (j : List Event) × TellsFetchGaps j gaps.now }
    requires reader { reader < most_processors }
    requires page { page < gaps.now.sizes.pages }
    ensures { (j : List Event) → TellsFetchGaps j gaps.now
        → IsTrue result ↔ IsEventStateStale (judged_sizes_of gaps.now.sizes) j reader page }
{
    let span = span_of_fetch(gaps, reader, page);
    for writer in 0..MOST_PROCESSORS {
        if has_notice_of(gaps, &span, page, writer) {
            return true;
        }
    }
    false
}

/// The pages of which the processor's copy is stale, rising. The only error is running out of memory.
pub(crate) fn stale_pages(
    alloc: Global,
    gaps: &Gaps,
    reader: usize,
) -> Result<Vec<usize>, AllocError>
    requires tells { (j : List Event) × TellsFetchGaps j gaps.now }
    requires reader { reader < most_processors }
    ensures { IfOk result (λ v. (j : List Event) → TellsFetchGaps j gaps.now
        → AreThoseInFinalWait (IsEventStateStale (judged_sizes_of gaps.now.sizes) j reader) gaps.now.sizes.pages v.items) }
{
    let mut pages = Vec::new(alloc);
    for page in 0..gaps.pages() {
        if is_stale_page(gaps, reader, page) {
            pages.push(page)?;
        }
    }
    Ok(pages)
}

/// The pages of which the processor's copy is dirty, rising. The only error is running out of memory.
pub(crate) fn dirty_pages(alloc: Global, gaps: &Gaps, by: usize) -> Result<Vec<usize>, AllocError>
    requires tells { (j : List Event) × TellsFetchGaps j gaps.now × (length j < 2 ^ 22) }
    requires by { by < most_processors }
    ensures { IfOk result (λ v. (j : List Event) → TellsFetchGaps j gaps.now
        → AreThoseInFinalWait (IsEventStateDirty (judged_sizes_of gaps.now.sizes) j by) gaps.now.sizes.pages v.items) }
{
    let open = gaps.time(by)[by];
    let mut pages = Vec::new(alloc);
    for page in 0..gaps.pages() {
        if notice_stores_in(gaps, page, by, open) {
            pages.push(page)?;
        }
    }
    Ok(pages)
}
