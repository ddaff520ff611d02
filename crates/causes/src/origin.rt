//! Where the words of copies come from: of each load, the store whose word stands in its processor's copy.
ghost use Rattle.std.specs.Prelude.{◌≡◌, ℕ, ◌+◌, ◌*◌, ◌<◌, ◌≤◌, [], IfOk, List, None, Option, Some, length, slice_get, take, vec_len};
ghost use Rattle.base.specs.Prelude.{most_processors};
ghost use Rattle.journal.specs.declared.event.Event.{Event};
ghost use Rattle.journal.specs.Events.{EventAt};
ghost use Rattle.journal.specs.Sizes.{Sizes as SizesOf};
ghost use Rattle.judge.specs.Prelude.{AreJudgedSizes, IsEventInSizes, TellsFetchGaps, most_in_sized_history, judged_sizes_most_addresses, judged_sizes_of};
ghost use Rattle.causes.specs.declared.origin.WordOrigin.{WordOrigin};
ghost use Rattle.causes.specs.Prelude.{AreOrigins, AreOriginsBefore, AreOriginsPartFetched, IsFetchedOriginFetch};
ghost use Rattle.causes.specs.Prelude.{IsFetchedOriginLookup, IsFetchedOriginAfter, IsOriginAt};

use crate::brought::{Applied, LookedUp, PageFetch, brought_fetch_at, last_brought};
use crate::index::index_of;
use crate::store_rows::StoreRows;
use base::MOST_PROCESSORS;
use journal::{Event, Kind};
use judge::{Gaps, History, Sizes};
use std::alloc::{AllocError, Global};

/// Where the word of a copy comes from.
#[derive(Clone, Copy, PartialEq, Eq)]
pub struct WordOrigin {
    /// The place of the store.
    pub store: usize,
    /// The place of the event by which the copy has it: the store itself, if it is the copy's processor's own, else that
    /// processor's fetch.
    pub write: usize,
}

/// The origin of a word that had this one, after a fetch at the place that brings this.
fn origin_after(
    old: Option<WordOrigin>,
    place: usize,
    brought: Option<Applied>,
) -> Option<WordOrigin>
    ensures { IsFetchedOriginAfter old place brought result }
{
    match brought {
        Some(applied) => Some(WordOrigin {
            store: applied.store,
            write: place,
        }),
        None => old,
    }
}

/// Takes note of the fetch of a page of so many words.
fn fetch_origins(
    words: &mut [Option<WordOrigin>],
    looked: &LookedUp,
    fetch: &PageFetch,
    size: usize,
)
    requires told { (s : SizesOf) × (j : List Event) × IsFetchedOriginLookup j looked.now × IsFetchedOriginFetch s j fetch.now
        × (s.pages * s.words ≡ looked.now.stores.addresses) × (size ≡ s.words)
        × AreOriginsBefore s j fetch.now.place words.old }
    requires page { fetch.now.page * size + size ≤ looked.now.stores.addresses }
    requires reader { fetch.now.reader < most_processors }
    requires few { looked.now.stores.addresses ≤ judged_sizes_most_addresses }
    ensures { (s : SizesOf) (j : List Event) → IsFetchedOriginLookup j looked.now → IsFetchedOriginFetch s j fetch.now → size ≡ s.words
        → AreOriginsBefore s j fetch.now.place words.old
        → AreOriginsPartFetched s j fetch.now.place fetch.now.reader (fetch.now.page * size)
        (fetch.now.page * size + size) words.new }
{
    for offset in 0..size {
        let address = fetch.page * size + offset;
        let row = address * MOST_PROCESSORS + fetch.reader;
        words[row] = origin_after(
            words[row],
            fetch.place,
            last_brought(looked, fetch, address),
        );
    }
}

/// Takes note of the event at this place, the next one. The gaps tell what stands before it.
pub(crate) fn update_origins(
    words: &mut [Option<WordOrigin>],
    looked: &LookedUp,
    gaps: &Gaps,
    events: &[Event],
    place: usize,
    size: usize,
)
    requires place { place < length events.now }
    requires within { (k : ℕ) (e : Event) → EventAt events.now k e → IsEventInSizes (judged_sizes_of gaps.now.sizes) e }
    requires tells { TellsFetchGaps (take place events.now) gaps.now }
    requires looked { IsFetchedOriginLookup events.now looked.now }
    requires addresses { looked.now.stores.addresses ≡ gaps.now.sizes.pages * gaps.now.sizes.words }
    requires size { size ≡ gaps.now.sizes.words }
    requires so_far { AreOriginsBefore (judged_sizes_of gaps.now.sizes) events.now place words.old }
    ensures { AreOriginsBefore (judged_sizes_of gaps.now.sizes) events.now (place + 1) words.new }
{
    let event = events[place];
    match event.kind {
        Kind::Store(address, _) => {
            words[address * MOST_PROCESSORS + event.processor] = Some(WordOrigin {
                store: place,
                write: place,
            });
        }
        Kind::Fetch { page, .. } => {
            let fetch = brought_fetch_at(gaps, place, event.processor, page);
            fetch_origins(words, looked, &fetch, size);
        }
        _ => {}
    }
}

/// Where the word comes from that the event at this place loads; None if it is no load.
fn origin_at(words: &[Option<WordOrigin>], events: &[Event], place: usize) -> Option<WordOrigin>
    requires place { place < length events.now }
    requires so_far { (s : SizesOf) × AreOriginsBefore s events.now place words.now
        × ((k : ℕ) (e : Event) → EventAt events.now k e → IsEventInSizes s e) × (s.processors ≤ most_processors) }
    ensures { (s : SizesOf) → AreOriginsBefore s events.now place words.now
        → ((k : ℕ) (e : Event) → EventAt events.now k e → IsEventInSizes s e) → s.processors ≤ most_processors
        → IsOriginAt s events.now place result }
{
    let event = events[place];
    match event.kind {
        Kind::Load(address, _) => words[address * MOST_PROCESSORS + event.processor],
        _ => None,
    }
}

/// Of each event its origin, where the gaps tell nothing so far and no word has one.
fn all_origins(
    alloc: Global,
    words: &mut [Option<WordOrigin>],
    looked: &LookedUp,
    gaps: &mut Gaps,
    events: &[Event],
    sizes: Sizes,
) -> Result<Vec<Option<WordOrigin>>, AllocError>
    requires few { length events.now ≤ most_in_sized_history }
    requires within { (k : ℕ) (e : Event) → EventAt events.now k e → IsEventInSizes (judged_sizes_of sizes) e }
    requires sizes { gaps.old.sizes ≡ sizes }
    requires start { TellsFetchGaps [] gaps.old }
    requires looked { IsFetchedOriginLookup events.now looked.now }
    requires addresses { looked.now.stores.addresses ≡ sizes.pages * sizes.words }
    requires words { AreOriginsBefore (judged_sizes_of sizes) events.now 0 words.old }
    ensures long { IfOk result (λ v. vec_len v ≡ length events.now) }
    ensures origins { IfOk result (λ v. AreOrigins (judged_sizes_of sizes) events.now v.items) }
{
    let mut rows = Vec::with_capacity(alloc, events.len())?;
    for place in 0..events.len() {
        rows.push(origin_at(words, events, place))?;
        update_origins(words, looked, gaps, events, place, sizes.words);
        gaps.note(events, place)?;
    }
    Ok(rows)
}

/// So many words without origins.
pub(crate) fn no_origins(alloc: Global, count: usize) -> Result<Vec<Option<WordOrigin>>, AllocError>
    ensures long { IfOk result (λ v. vec_len v ≡ count) }
    ensures none { IfOk result (λ v. (n : ℕ) (o : Option WordOrigin) → slice_get v.items n ≡ Some o → o ≡ None) }
{
    let mut words = Vec::with_capacity(alloc, count)?;
    for _ in 0..count {
        words.push(None)?;
    }
    Ok(words)
}

/// Of each event of the history: where the word comes from that it loads, which stands in its processor's copy; None if it is no
/// load, or if no store has come into the copy there.
///
/// A copy has a word from its processor's own store, or from a fetch. A fetch applies the intervals of its gap in the order
/// in which they were closed. So of a word it has the gap's store whose interval was closed last, the last of them in it.
///
/// It has at most 16 processors. The only error is running out of memory. It takes time in the order of the events, and for each
/// fetch that of the page's words times the processors times the logarithm of the events.
pub fn origins(alloc: Global, history: &History<'_>) -> Result<Vec<Option<WordOrigin>>, AllocError>
    requires { history.now.sizes.processors ≤ most_processors }
    ensures long { IfOk result (λ v. vec_len v ≡ length history.now.events) }
    ensures origins { IfOk result (λ v. AreOrigins (judged_sizes_of history.now.sizes) history.now.events v.items) }
{
    let sizes = history.sizes();
    let events = history.events();
    let addresses = sizes.pages * sizes.words;
    let looked = LookedUp {
        index: index_of(alloc, events)?,
        stores: StoreRows::of(alloc, addresses, events)?,
    };
    let mut words = no_origins(alloc, addresses * MOST_PROCESSORS)?;
    let mut gaps = Gaps::new(alloc, sizes)?;
    all_origins(alloc, &mut words, &looked, &mut gaps, events, sizes)
}
