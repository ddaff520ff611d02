//! Which words of its processor's copies each event writes, and from which stores they are.
ghost use Rattle.std.specs.Prelude.{◌≡◌, ℕ, ◌+◌, ◌*◌, ◌<◌, ◌≤◌, [], IfOk, List, length, vec_len};
ghost use Rattle.base.specs.Prelude.{most_processors};
ghost use Rattle.journal.specs.declared.event.Event.{Event};
ghost use Rattle.journal.specs.Events.{EventAt};
ghost use Rattle.journal.specs.Sizes.{Sizes as SizesOf};
ghost use Rattle.judge.specs.Prelude.{AreJudgedSizes, IsEventInSizes, TellsFetchGaps, most_in_sized_history, judged_sizes_most_addresses, judged_sizes_of};
ghost use Rattle.causes.specs.Prelude.{AreAllEventWrites, AreOriginsBefore, AreEventWrites, AreEventWritesAmong, IsFetchedOriginLookup, IsEventWriteOfStore, IsEventWriteRange};

use crate::brought::LookedUp;
use crate::index::index_of;
use crate::origin::{WordOrigin, no_origins, update_origins};
use crate::store_rows::StoreRows;
use base::MOST_PROCESSORS;
use journal::{Event, Kind};
use judge::{Gaps, History, Sizes};
use std::alloc::{AllocError, Global};

/// A word that an event writes in its processor's copy.
#[derive(Clone, Copy, PartialEq, Eq)]
pub struct WrittenWord {
    /// Its address.
    pub address: usize,
    /// The place of the store from which the copy has it.
    pub store: usize,
}

/// The addresses at which an event may write.
#[derive(Clone, Copy)]
pub(crate) struct WrittenRange {
    pub(crate) first: usize,
    /// The address behind the last one.
    pub(crate) end: usize,
}

/// The addresses at which this event may write: that which it stores to, those of the page that it fetches, or none.
fn written_range(event: Event, sizes: Sizes) -> WrittenRange
    requires small { AreJudgedSizes (judged_sizes_of sizes) }
    requires within { IsEventInSizes (judged_sizes_of sizes) event }
    ensures within { result.end ≤ sizes.pages * sizes.words }
    ensures all { (j : List Event) (k : ℕ) → ((m : ℕ) (e : Event) → EventAt j m e → IsEventInSizes (judged_sizes_of sizes) e)
        → EventAt j k event → IsEventWriteRange (judged_sizes_of sizes) j k event.processor result }
{
    match event.kind {
        Kind::Store(address, _) => WrittenRange {
            first: address,
            end: address + 1,
        },
        Kind::Fetch { page, .. } => WrittenRange {
            first: page * sizes.words,
            end: page * sizes.words + sizes.words,
        },
        _ => WrittenRange { first: 0, end: 0 },
    }
}

/// The store of a word with this origin, where it was written at this place.
fn written_store(origin: Option<WordOrigin>, place: usize) -> Option<usize>
    ensures { IsEventWriteOfStore origin place result }
{
    match origin {
        Some(origin) if origin.write == place => Some(origin.store),
        _ => None,
    }
}

/// The words of these addresses that the event at this place has written in this processor's copy, where these are the origins
/// after it. The only error is running out of memory.
fn written_among(
    alloc: Global,
    words: &[Option<WordOrigin>],
    place: usize,
    reader: usize,
    range: WrittenRange,
) -> Result<Vec<WrittenWord>, AllocError>
    requires reader { reader < most_processors }
    requires few { range.end ≤ judged_sizes_most_addresses }
    requires long { range.end * most_processors ≤ length words.now }
    ensures { IfOk result (λ v. (s : SizesOf) (j : List Event) → AreOriginsBefore s j (place + 1) words.now
        → AreEventWritesAmong s j place reader range v.items) }
{
    let mut written = Vec::new(alloc);
    for address in range.first..range.end {
        if let Some(store) = written_store(words[address * MOST_PROCESSORS + reader], place) {
            written.push(WrittenWord { address, store })?;
        }
    }
    Ok(written)
}

/// The words that the event at this place has written, where these are the origins after it. The only error is running out of
/// memory.
fn written_at(
    alloc: Global,
    words: &[Option<WordOrigin>],
    events: &[Event],
    place: usize,
    sizes: Sizes,
) -> Result<Vec<WrittenWord>, AllocError>
    requires place { place < length events.now }
    requires sizes { AreJudgedSizes (judged_sizes_of sizes) }
    requires within { (k : ℕ) (e : Event) → EventAt events.now k e → IsEventInSizes (judged_sizes_of sizes) e }
    requires words { AreOriginsBefore (judged_sizes_of sizes) events.now (place + 1) words.now }
    ensures { IfOk result (λ v. AreEventWrites (judged_sizes_of sizes) events.now place v.items) }
{
    let event = events[place];
    let range = written_range(event, sizes);
    let written = written_among(alloc, words, place, event.processor, range)?;
    Ok(written)
}

/// Of each event the words that it writes, where the gaps tell nothing so far and no word has an origin.
fn all_written(
    alloc: Global,
    words: &mut [Option<WordOrigin>],
    looked: &LookedUp,
    gaps: &mut Gaps,
    events: &[Event],
    sizes: Sizes,
) -> Result<Vec<Vec<WrittenWord>>, AllocError>
    requires few { length events.now ≤ most_in_sized_history }
    requires within { (k : ℕ) (e : Event) → EventAt events.now k e → IsEventInSizes (judged_sizes_of sizes) e }
    requires sizes { gaps.old.sizes ≡ sizes }
    requires start { TellsFetchGaps [] gaps.old }
    requires looked { IsFetchedOriginLookup events.now looked.now }
    requires addresses { looked.now.stores.addresses ≡ sizes.pages * sizes.words }
    requires words { AreOriginsBefore (judged_sizes_of sizes) events.now 0 words.old }
    ensures long { IfOk result (λ v. vec_len v ≡ length events.now) }
    ensures written { IfOk result (λ v. AreAllEventWrites (judged_sizes_of sizes) events.now v.items) }
{
    let mut rows = Vec::with_capacity(alloc, events.len())?;
    for place in 0..events.len() {
        update_origins(words, looked, gaps, events, place, sizes.words);
        rows.push(written_at(alloc, words, events, place, sizes)?)?;
        gaps.note(events, place)?;
    }
    Ok(rows)
}

/// Of each event of the history: the words that it writes in its processor's copies, by rising addresses, each with the store
/// from which the copy has it then. A store writes its own word. A fetch writes the words that the records of its gap have; of
/// several stores to one it takes the one whose interval was closed last, the last of them in it. Other events write nothing.
///
/// So a copy's word after the first N events is that of the last of them which writes it, or 0 where none does.
///
/// It has at most 16 processors. The only error is running out of memory. It takes time as `origins` does.
pub fn written_words(
    alloc: Global,
    history: &History<'_>,
) -> Result<Vec<Vec<WrittenWord>>, AllocError>
    requires { history.now.sizes.processors ≤ most_processors }
    ensures long { IfOk result (λ v. vec_len v ≡ length history.now.events) }
    ensures written { IfOk result (λ v. AreAllEventWrites (judged_sizes_of history.now.sizes) history.now.events v.items) }
{
    let sizes = history.sizes();
    let events = history.events();
    let addresses = sizes.pages * sizes.words;
    let looked = LookedUp {
        index: index_of(alloc, events)?,
        stores: StoreRows::of(alloc, addresses, events)?,
    };
    let mut words = no_origins(alloc, addresses * MOST_PROCESSORS)?;
    let mut gaps = Gaps::new(alloc, sizes)?;
    all_written(alloc, &mut words, &looked, &mut gaps, events, sizes)
}
