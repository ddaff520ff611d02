//! Write notices: which intervals of other processors an event tells its processor of, page by page.
ghost use Rattle.std.specs.Prelude.{◌≡◌, ℕ, ◌+◌, ◌*◌, ◌<◌, ◌≤◌, ◌^◌, ◌↔◌, IfOk, IsTrue, List, OnOk, length, take};
ghost use Rattle.base.specs.Prelude.{most_processors};
ghost use Rattle.journal.specs.declared.event.Event.{Event};
ghost use Rattle.journal.specs.Events.{EventAt};
ghost use Rattle.judge.specs.Prelude.{FetchGapStoreInPage, IsEventInSizes, TellsFetchGaps, gap_tally_place_of, most_in_sized_history, judged_sizes_of};
ghost use Rattle.causes.specs.Prelude.{AreNoticesAt, HasNoticeOf, NoticesBelow};

use crate::span::{Span, span_of_fetch, span_of_taking};
use crate::taking_events::is_taking_event;
use base::MOST_PROCESSORS;
use journal::{Event, Kind};
use judge::Gaps;
use std::alloc::{AllocError, Global};

/// A write notice: a processor stored in a page in one of its intervals.
#[derive(Clone, Copy)]
pub struct WriteNotice {
    /// The page.
    pub page: usize,
    /// The processor whose interval it is.
    pub writer: usize,
    /// The interval's number, counted from 0.
    pub interval: u32,
}

/// Whether the processor stores in the page in its interval of this number.
pub(crate) fn notice_stores_in(gaps: &Gaps, page: usize, by: usize, interval: u32) -> bool
    requires tells { (j : List Event) × TellsFetchGaps j gaps.now }
    requires page { page < gaps.now.sizes.pages }
    requires by { by < most_processors }
    requires interval { interval + 1 < 2 ^ 32 }
    ensures { (j : List Event) → TellsFetchGaps j gaps.now
        → IsTrue result ↔ FetchGapStoreInPage (judged_sizes_of gaps.now.sizes) j page by interval }
{
    gaps.records(page, by, interval, interval + 1) > 0
}

/// Whether the span has something of the page and the writer.
pub(crate) fn has_notice_of(gaps: &Gaps, span: &Span, page: usize, writer: usize) -> bool
    requires tells { (j : List Event) × TellsFetchGaps j gaps.now }
    requires page { page < gaps.now.sizes.pages }
    requires writer { writer < most_processors }
    ensures { (j : List Event) → TellsFetchGaps j gaps.now
        → IsTrue result ↔ HasNoticeOf (judged_sizes_of gaps.now.sizes) j span.now page writer }
{
    writer != span.reader && gaps.records(page, writer, span.from[writer], span.to[writer]) > 0
}

/// Adds what the span has of the page and the writer.
fn add_notices_of_writer(
    notices: &mut Vec<WriteNotice>,
    gaps: &Gaps,
    span: &Span,
    page: usize,
    writer: usize,
) -> Result<(), AllocError>
    requires tells { (j : List Event) × TellsFetchGaps j gaps.now }
    requires from { span.now.first ≤ page }
    requires to { page < span.now.end }
    requires page { page < gaps.now.sizes.pages }
    requires writer { writer < most_processors }
    ensures { OnOk result ((j : List Event) → TellsFetchGaps j gaps.now
        → NoticesBelow (judged_sizes_of gaps.now.sizes) j span.now (gap_tally_place_of page writer) 0 notices.old.items
        → NoticesBelow (judged_sizes_of gaps.now.sizes) j span.now (gap_tally_place_of page writer + 1) 0 notices.new.items) }
{
    if !has_notice_of(gaps, span, page, writer) {
        return Ok(());
    }
    for interval in span.from[writer]..span.to[writer] {
        if notice_stores_in(gaps, page, writer, interval) {
            notices.push(WriteNotice {
                page,
                writer,
                interval,
            })?;
        }
    }
    Ok(())
}

/// Adds what the span has of the page.
fn add_notices_of_page(
    notices: &mut Vec<WriteNotice>,
    gaps: &Gaps,
    span: &Span,
    page: usize,
) -> Result<(), AllocError>
    requires tells { (j : List Event) × TellsFetchGaps j gaps.now }
    requires from { span.now.first ≤ page }
    requires to { page < span.now.end }
    requires page { page < gaps.now.sizes.pages }
    ensures { OnOk result ((j : List Event) → TellsFetchGaps j gaps.now
        → NoticesBelow (judged_sizes_of gaps.now.sizes) j span.now (page * most_processors) 0 notices.old.items
        → NoticesBelow (judged_sizes_of gaps.now.sizes) j span.now (page * most_processors + most_processors) 0 notices.new.items) }
{
    for writer in 0..MOST_PROCESSORS {
        add_notices_of_writer(notices, gaps, span, page, writer)?;
    }
    Ok(())
}

/// What the span has.
fn notices_in(alloc: Global, gaps: &Gaps, span: &Span) -> Result<Vec<WriteNotice>, AllocError>
    requires tells { (j : List Event) × TellsFetchGaps j gaps.now }
    requires order { span.now.first ≤ span.now.end }
    requires pages { span.now.end ≤ gaps.now.sizes.pages }
    ensures { IfOk result (λ v. (j : List Event) → TellsFetchGaps j gaps.now
        → NoticesBelow (judged_sizes_of gaps.now.sizes) j span.now (span.now.end * most_processors) 0 v.items) }
{
    let mut notices = Vec::new(alloc);
    for page in span.first..span.end {
        add_notices_of_page(&mut notices, gaps, span, page)?;
    }
    Ok(notices)
}

/// Takes note of the event at this place, the next one, and answers of which write notices it tells. The only error is
/// running out of memory, after which the gaps may tell no history.
pub(crate) fn notices_at(
    alloc: Global,
    gaps: &mut Gaps,
    events: &[Event],
    place: usize,
) -> Result<Vec<WriteNotice>, AllocError>
    requires few { length events.now ≤ most_in_sized_history }
    requires place { place < length events.now }
    requires within { (k : ℕ) (e : Event) → EventAt events.now k e → IsEventInSizes (judged_sizes_of gaps.old.sizes) e }
    requires so_far { TellsFetchGaps (take place events.now) gaps.old }
    ensures sizes { gaps.new.sizes ≡ gaps.old.sizes }
    ensures tells { OnOk result (TellsFetchGaps (take (place + 1) events.now) gaps.new) }
    ensures notices { IfOk result (λ v. (e : Event) → EventAt events.now place e
        → AreNoticesAt (judged_sizes_of gaps.old.sizes) events.now place e v.items) }
{
    let event = events[place];
    if let Kind::Fetch { page, .. } = event.kind {
        let notices = notices_in(alloc, gaps, &span_of_fetch(gaps, event.processor, page))?;
        gaps.note(events, place)?;
        return Ok(notices);
    }
    let before = *gaps.time(event.processor);
    gaps.note(events, place)?;
    if is_taking_event(event.kind) {
        notices_in(alloc, gaps, &span_of_taking(gaps, event.processor, &before))
    } else {
        Ok(Vec::new(alloc))
    }
}
