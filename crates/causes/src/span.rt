//! Spans: pages, with of each processor the intervals that a fetch or an event that takes brings word of.
ghost use Rattle.std.specs.Prelude.{◌≡◌, ℕ, ◌+◌, ◌<◌, List, slice_index};
ghost use Rattle.base.specs.Prelude.{most_processors};
ghost use Rattle.journal.specs.declared.event.Event.{Event};
ghost use Rattle.journal.specs.Prelude.{IsTimeOf};
ghost use Rattle.judge.specs.Prelude.{FetchGapBroughtUpTo, TellsFetchGaps, judged_sizes_of};

use journal::Clock;
use judge::Gaps;

/// Some pages, and of each processor but the reader some of its intervals.
#[derive(Drop)]
pub(crate) struct Span {
    pub(crate) reader: usize,
    /// The first page.
    pub(crate) first: usize,
    /// The page after the last one.
    pub(crate) end: usize,
    /// Of each processor the first interval.
    pub(crate) from: Clock,
    /// Of each processor the interval after the last one.
    pub(crate) to: Clock,
}

/// What a fetch of the page by this processor brings, if it comes next.
pub(crate) fn span_of_fetch(gaps: &Gaps, reader: usize, page: usize) -> Span
    requires tells { (j : List Event) × TellsFetchGaps j gaps.now }
    requires reader { reader < most_processors }
    requires page { page < gaps.now.sizes.pages }
    ensures reader { result.reader ≡ reader }
    ensures first { result.first ≡ page }
    ensures end { result.end ≡ page + 1 }
    ensures from { (j : List Event) → TellsFetchGaps j gaps.now
        → FetchGapBroughtUpTo (judged_sizes_of gaps.now.sizes) j reader page (slice_index result.from) }
    ensures to { (j : List Event) → TellsFetchGaps j gaps.now → IsTimeOf j reader (slice_index result.to) }
{
    Span {
        reader,
        first: page,
        end: page + 1,
        from: gaps.last_fetch(reader, page),
        to: *gaps.time(reader),
    }
}

/// What this processor, whose timestamp was this, got word of since.
pub(crate) fn span_of_taking(gaps: &Gaps, reader: usize, before: &Clock) -> Span
    requires tells { (j : List Event) × TellsFetchGaps j gaps.now }
    requires reader { reader < most_processors }
    ensures reader { result.reader ≡ reader }
    ensures first { result.first ≡ 0 }
    ensures end { result.end ≡ gaps.now.sizes.pages }
    ensures from { result.from ≡ before.now }
    ensures to { (j : List Event) → TellsFetchGaps j gaps.now → IsTimeOf j reader (slice_index result.to) }
{
    Span {
        reader,
        first: 0,
        end: gaps.pages(),
        from: *before,
        to: *gaps.time(reader),
    }
}
