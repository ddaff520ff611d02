//! Which stores a fetch brings to a word of its page, and which of them it applies last.
ghost use Rattle.std.specs.Prelude.{◌≡◌, ℕ, ◌/◌, ◌<◌, ◌≤◌, List, length, take};
ghost use Rattle.base.specs.Prelude.{most_processors};
ghost use Rattle.journal.specs.declared.event.Event.{Event};
ghost use Rattle.journal.specs.PageImages.{FetchesPageImage};
ghost use Rattle.journal.specs.Sizes.{Sizes as SizesOf};
ghost use Rattle.judge.specs.Prelude.{TellsFetchGaps, judged_sizes_of};
ghost use Rattle.causes.specs.Prelude.{IsFetchedOriginFetch, IsFetchedOriginLaterApplied, IsFetchedOriginLookup, FetchedOriginLastApplied};

use crate::index::Index;
use crate::store_rows::StoreRows;
use journal::Clock;
use judge::Gaps;

/// A store that a fetch brings, and where its interval is closed. A fetch applies them in the order of the latter.
#[derive(Clone, Copy)]
pub(crate) struct Applied {
    pub(crate) store: usize,
    pub(crate) closed: usize,
}

/// A fetch: where it stands, whose it is, which page it fetches, and the timestamps between which lies what it brings: that
/// of its processor's last fetch of the page, and the one that its processor has.
#[derive(Clone, Copy)]
pub(crate) struct PageFetch {
    pub(crate) place: usize,
    pub(crate) reader: usize,
    pub(crate) page: usize,
    pub(crate) from: Clock,
    pub(crate) to: Clock,
}

/// What is looked up of a history.
#[derive(Drop)]
pub(crate) struct LookedUp {
    pub(crate) index: Index,
    pub(crate) stores: StoreRows,
}

/// The last applied of the stores of `by` to the address that the fetch brings.
fn brought_by(looked: &LookedUp, fetch: &PageFetch, address: usize, by: usize) -> Option<Applied>
    requires told { (s : SizesOf) × (j : List Event) × IsFetchedOriginLookup j looked.now × IsFetchedOriginFetch s j fetch.now }
    requires address { address < looked.now.stores.addresses }
    requires by { by < most_processors }
    ensures { (s : SizesOf) (j : List Event) → IsFetchedOriginLookup j looked.now → IsFetchedOriginFetch s j fetch.now
        → address / s.words ≡ fetch.now.page
        → FetchedOriginLastApplied s j fetch.now.reader address fetch.now.place (λ q. q ≡ by) result }
{
    if by == fetch.reader {
        return None;
    }
    let Some(store) = looked.stores.last(address, by, fetch.to[by]) else {
        return None;
    };
    if store.interval < fetch.from[by] {
        return None;
    }
    Some(Applied {
        store: store.place,
        closed: looked.index.closings[by][store.interval as usize],
    })
}

/// That of the two which is applied later.
fn later_brought(one: Option<Applied>, two: Option<Applied>) -> Option<Applied>
    ensures { IsFetchedOriginLaterApplied one two result }
{
    let Some(first) = one else {
        return two;
    };
    let Some(second) = two else {
        return one;
    };
    let is_before = first.closed < second.closed
        || first.closed == second.closed && first.store < second.store;
    if is_before { two } else { one }
}

/// The last applied of the stores to the address that the fetch brings.
pub(crate) fn last_brought(looked: &LookedUp, fetch: &PageFetch, address: usize) -> Option<Applied>
    requires told { (s : SizesOf) × (j : List Event) × IsFetchedOriginLookup j looked.now × IsFetchedOriginFetch s j fetch.now }
    requires address { address < looked.now.stores.addresses }
    ensures { (s : SizesOf) (j : List Event) → IsFetchedOriginLookup j looked.now → IsFetchedOriginFetch s j fetch.now
        → address / s.words ≡ fetch.now.page
        → FetchedOriginLastApplied s j fetch.now.reader address fetch.now.place (λ q. q < most_processors) result }
{
    let mut last = None;
    for by in 0..16 {
        last = later_brought(last, brought_by(looked, fetch, address, by));
    }
    last
}

/// The fetch of the page by the processor, the event at this place. The gaps tell what stands before it.
pub(crate) fn brought_fetch_at(gaps: &Gaps, place: usize, reader: usize, page: usize) -> PageFetch
    requires tells { (j : List Event) × TellsFetchGaps (take place j) gaps.now }
    requires reader { reader < most_processors }
    requires page { page < gaps.now.sizes.pages }
    ensures fetch { (j : List Event) → TellsFetchGaps (take place j) gaps.now → place ≤ length j → FetchesPageImage j place reader page
        → IsFetchedOriginFetch (judged_sizes_of gaps.now.sizes) j result }
    ensures place { result.place ≡ place }
    ensures reader { result.reader ≡ reader }
    ensures page { result.page ≡ page }
{
    PageFetch {
        place,
        reader,
        page,
        from: gaps.last_fetch(reader, page),
        to: *gaps.time(reader),
    }
}
