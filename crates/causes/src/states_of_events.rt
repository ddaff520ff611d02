//! The protocol's state at the events of a history: timestamps, intervals with their records, write notices, and which copies
//! are stale or dirty.
ghost use Rattle.std.specs.Prelude.{◌≡◌, ℕ, ◌+◌, ◌<◌, ◌≤◌, [], IfOk, OnOk, false, length, take, true, vec_len};
ghost use Rattle.base.specs.Prelude.{most_processors};
ghost use Rattle.journal.specs.declared.event.Event.{Event};
ghost use Rattle.journal.specs.Events.{EventAt, event_interval_at};
ghost use Rattle.journal.specs.Prelude.{event_closes};
ghost use Rattle.judge.specs.Prelude.{IsEventInSizes, TellsFetchGaps, most_in_sized_history, judged_sizes_of};
ghost use Rattle.causes.specs.Prelude.{AreClosedRecords, AreEventStates, AreNoticesAt, IsEventState, IsClosedRecordIndex, IsEventStateIfAsked};

use crate::closed_records::{ClosedRecordIndex, PageRecord};
use crate::index::is_index_closing;
use crate::notices::{WriteNotice, notices_at};
use crate::stale_and_dirty_pages::{dirty_pages, stale_pages};
use journal::{Clock, Event};
use judge::{Gaps, History};
use std::alloc::{AllocError, Global};

/// The protocol's state at an event, in the words of Keleher, Cox and Zwaenepoel (1992).
#[derive(Drop)]
pub struct EventState {
    /// The vector timestamp of its processor after it.
    pub time: Clock,
    /// The number of its processor's interval that it lies in, counted from 0; of a closing event that which it closes.
    pub interval: u32,
    /// Of a closing event, the records of the interval that it closes, by rising pages.
    pub records: Vec<PageRecord>,
    /// Of an event that takes, the write notices that it brings; of a fetch, those whose records it applies: by page, writer
    /// and interval.
    pub notices: Vec<WriteNotice>,
    /// The pages of which its processor's copy is stale after it, rising: it lacks a store of its processor's past.
    pub stale: Vec<usize>,
    /// The pages of which its processor's copy is dirty after it, rising: its processor has stored in the page since it last
    /// closed an interval.
    pub dirty: Vec<usize>,
}

/// The records of the interval that the event at this place closes; none where it closes none. The gaps tell what stands up
/// to it.
fn event_state_records_at(
    alloc: Global,
    index: &ClosedRecordIndex,
    gaps: &Gaps,
    events: &[Event],
    place: usize,
) -> Result<Vec<PageRecord>, AllocError>
    requires few { length events.now ≤ most_in_sized_history }
    requires place { place < length events.now }
    requires within { (k : ℕ) (e : Event) → EventAt events.now k e → IsEventInSizes (judged_sizes_of gaps.now.sizes) e }
    requires tells { TellsFetchGaps (take (place + 1) events.now) gaps.now }
    requires index { IsClosedRecordIndex (judged_sizes_of gaps.now.sizes) events.now index.now }
    ensures closes { IfOk result (λ v. (e : Event) → EventAt events.now place e → event_closes e.kind ≡ true
        → AreClosedRecords (judged_sizes_of gaps.now.sizes) events.now e.processor (event_interval_at events.now e.processor place)
        v.items) }
    ensures others { IfOk result (λ v. (e : Event) → EventAt events.now place e → event_closes e.kind ≡ false
        → v.items ≡ []) }
{
    let event = events[place];
    if is_index_closing(event, event.processor) {
        index.records(alloc, gaps, events, place)
    } else {
        Ok(Vec::new(alloc))
    }
}

/// The state at the event at this place, which tells of these notices. The gaps tell what stands up to it.
fn event_state_of(
    alloc: Global,
    index: &ClosedRecordIndex,
    gaps: &Gaps,
    events: &[Event],
    place: usize,
    notices: Vec<WriteNotice>,
) -> Result<EventState, AllocError>
    requires few { length events.now ≤ most_in_sized_history }
    requires place { place < length events.now }
    requires within { (k : ℕ) (e : Event) → EventAt events.now k e → IsEventInSizes (judged_sizes_of gaps.now.sizes) e }
    requires tells { TellsFetchGaps (take (place + 1) events.now) gaps.now }
    requires index { IsClosedRecordIndex (judged_sizes_of gaps.now.sizes) events.now index.now }
    requires notices { (e : Event) → EventAt events.now place e
        → AreNoticesAt (judged_sizes_of gaps.now.sizes) events.now place e notices.items }
    ensures { IfOk result (λ x. (e : Event) → EventAt events.now place e
        → IsEventState (judged_sizes_of gaps.now.sizes) events.now place e x) }
{
    let by = events[place].processor;
    let records = event_state_records_at(alloc, index, gaps, events, place)?;
    let stale = stale_pages(alloc, gaps, by)?;
    let dirty = dirty_pages(alloc, gaps, by)?;
    Ok(EventState {
        time: *gaps.time(by),
        interval: index.numbers[place],
        records,
        notices,
        stale,
        dirty,
    })
}

/// Takes note of the event at this place, the next one, and answers its state, if that is asked for. The only error is
/// running out of memory, after which the gaps may tell no history.
fn event_state_at(
    alloc: Global,
    index: &ClosedRecordIndex,
    gaps: &mut Gaps,
    events: &[Event],
    place: usize,
    is_asked: bool,
) -> Result<Option<EventState>, AllocError>
    requires few { length events.now ≤ most_in_sized_history }
    requires place { place < length events.now }
    requires within { (k : ℕ) (e : Event) → EventAt events.now k e → IsEventInSizes (judged_sizes_of gaps.old.sizes) e }
    requires so_far { TellsFetchGaps (take place events.now) gaps.old }
    requires index { IsClosedRecordIndex (judged_sizes_of gaps.old.sizes) events.now index.now }
    ensures sizes { gaps.new.sizes ≡ gaps.old.sizes }
    ensures tells { OnOk result (TellsFetchGaps (take (place + 1) events.now) gaps.new) }
    ensures state { IfOk result (IsEventStateIfAsked (judged_sizes_of gaps.old.sizes) events.now place is_asked) }
{
    if !is_asked {
        gaps.note(events, place)?;
        return Ok(None);
    }
    let notices = notices_at(alloc, gaps, events, place)?;
    let state = event_state_of(alloc, index, gaps, events, place, notices)?;
    Ok(Some(state))
}

/// Of each event its state, if that is asked for. The gaps tell nothing so far.
fn all_event_states(
    alloc: Global,
    index: &ClosedRecordIndex,
    gaps: &mut Gaps,
    events: &[Event],
    asked: &[bool],
) -> Result<Vec<Option<EventState>>, AllocError>
    requires few { length events.now ≤ most_in_sized_history }
    requires within { (k : ℕ) (e : Event) → EventAt events.now k e → IsEventInSizes (judged_sizes_of gaps.old.sizes) e }
    requires start { TellsFetchGaps [] gaps.old }
    requires index { IsClosedRecordIndex (judged_sizes_of gaps.old.sizes) events.now index.now }
    requires asked { length asked.now ≡ length events.now }
    ensures long { IfOk result (λ v. vec_len v ≡ length events.now) }
    ensures states { IfOk result (λ v. AreEventStates (judged_sizes_of gaps.old.sizes) events.now asked.now v.items) }
{
    let mut rows = Vec::with_capacity(alloc, events.len())?;
    for place in 0..events.len() {
        rows.push(event_state_at(alloc, index, gaps, events, place, asked[place])?)?;
    }
    Ok(rows)
}

/// Of each event of the history, which has at most 16 processors, the protocol's state, if `asked` has true for it; else None. The
/// only error is running out of memory.
///
/// It takes time in the order of the events. For each event whose state is asked for it also takes that of the pages times
/// the processors times the logarithm of the events. A closing event adds that of the words of the pages that it has
/// records of. One that takes or fetches adds that of the intervals that it brings, times the pages.
pub fn event_states(
    alloc: Global,
    history: &History<'_>,
    asked: &[bool],
) -> Result<Vec<Option<EventState>>, AllocError>
    requires few_processors { history.now.sizes.processors ≤ most_processors }
    requires asked { length asked.now ≡ length history.now.events }
    ensures long { IfOk result (λ v. vec_len v ≡ length history.now.events) }
    ensures states { IfOk result (λ v. AreEventStates (judged_sizes_of history.now.sizes) history.now.events asked.now v.items) }
{
    let sizes = history.sizes();
    let events = history.events();
    let index = ClosedRecordIndex::of(alloc, sizes, events)?;
    let mut gaps = Gaps::new(alloc, sizes)?;
    all_event_states(alloc, &index, &mut gaps, events, asked)
}
