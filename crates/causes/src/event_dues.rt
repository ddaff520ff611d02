//! What copies of pages lack: of which records an event that takes brings word, and which a fetch brings.
ghost use Rattle.std.specs.Prelude.{◌≡◌, ℕ, ◌+◌, ◌*◌, ◌<◌, ◌≤◌, ◌^◌, [], IfOk, List, OnOk, Some, length, slice_index, take, true, vec_len};
ghost use Rattle.base.specs.Prelude.{most_processors};
ghost use Rattle.journal.specs.declared.event.Event.{Event};
ghost use Rattle.journal.specs.declared.event.Kind.TheVariants.{Fetch};
ghost use Rattle.journal.specs.Events.{EventAt};
ghost use Rattle.journal.specs.Prelude.{IsTimeOf, event_takes};
ghost use Rattle.judge.specs.Prelude.{IsEventInSizes, TellsFetchGaps, most_in_sized_history, judged_sizes_of};
ghost use Rattle.causes.specs.Prelude.{AreAllDues, DuesBelow, AreDues, IsOneOfDues};

use crate::span::{Span, span_of_fetch, span_of_taking};
use crate::taking_events::is_taking_event;
use journal::{Clock, Event, Kind};
use judge::{Gaps, History};
use std::alloc::{AllocError, Global};

/// Records of a page that a copy lacks. A record is what one interval of its processor changes in one page.
#[derive(Clone, Copy)]
pub struct Due {
    /// The page.
    pub page: usize,
    /// Whose records they are.
    pub writer: usize,
    /// How many.
    pub records: usize,
}

/// What there is of the page and the writer in the span.
fn one_of_dues(gaps: &Gaps, span: &Span, page: usize, writer: usize) -> Option<Due>
    requires tells { (j : List Event) × TellsFetchGaps j gaps.now × (length j < 2 ^ 22) }
    requires from { span.now.first ≤ page }
    requires to { page < span.now.end }
    requires page { page < gaps.now.sizes.pages }
    requires writer { writer < most_processors }
    ensures { (j : List Event) → TellsFetchGaps j gaps.now
        → IsOneOfDues (judged_sizes_of gaps.now.sizes) j span.now page writer result }
{
    if writer == span.reader || span.to[writer] <= span.from[writer] {
        return None;
    }
    let records = gaps.records(page, writer, span.from[writer], span.to[writer]);
    if records == 0 {
        return None;
    }
    Some(Due {
        page,
        writer,
        records,
    })
}

/// Adds what there is of the page in the span.
fn add_dues(dues: &mut Vec<Due>, gaps: &Gaps, span: &Span, page: usize) -> Result<(), AllocError>
    requires tells { (j : List Event) × TellsFetchGaps j gaps.now × (length j < 2 ^ 22) }
    requires from { span.now.first ≤ page }
    requires to { page < span.now.end }
    requires page { page < gaps.now.sizes.pages }
    ensures { OnOk result ((j : List Event) → TellsFetchGaps j gaps.now
        → DuesBelow (judged_sizes_of gaps.now.sizes) j span.now (page * most_processors) dues.old.items
        → DuesBelow (judged_sizes_of gaps.now.sizes) j span.now (page * most_processors + most_processors) dues.new.items) }
{
    for writer in 0..16 {
        if let Some(due) = one_of_dues(gaps, span, page, writer) {
            dues.push(due)?;
        }
    }
    Ok(())
}

/// What there is in the span.
fn dues_in(alloc: Global, gaps: &Gaps, span: &Span) -> Result<Vec<Due>, AllocError>
    requires tells { (j : List Event) × TellsFetchGaps j gaps.now × (length j < 2 ^ 22) }
    requires order { span.now.first ≤ span.now.end }
    requires pages { span.now.end ≤ gaps.now.sizes.pages }
    ensures { IfOk result (λ v. (j : List Event) → TellsFetchGaps j gaps.now
        → DuesBelow (judged_sizes_of gaps.now.sizes) j span.now (span.now.end * most_processors) v.items) }
{
    let mut dues = Vec::new(alloc);
    for page in span.first..span.end {
        add_dues(&mut dues, gaps, span, page)?;
    }
    Ok(dues)
}

/// What a fetch of the page, the event at this place, brings its processor. The gaps tell what stands before it.
fn dues_of_fetch(
    alloc: Global,
    gaps: &Gaps,
    events: &[Event],
    place: usize,
    page: usize,
) -> Result<Vec<Due>, AllocError>
    requires few { length events.now ≤ most_in_sized_history }
    requires tells { TellsFetchGaps (take place events.now) gaps.now }
    requires place { place < length events.now }
    requires processor { (e : Event) → EventAt events.now place e → e.processor < most_processors }
    requires fetch { (e : Event) → EventAt events.now place e
        → (w : ℕ) × (r : ℕ) × (d : ℕ) × (e.kind ≡ Fetch w page r d) }
    requires page { page < gaps.now.sizes.pages }
    ensures { IfOk result (λ v. (e : Event) → EventAt events.now place e
        → AreDues (judged_sizes_of gaps.now.sizes) events.now place e v.items) }
{
    let span = span_of_fetch(gaps, events[place].processor, page);
    dues_in(alloc, gaps, &span)
}

/// What the event at this place, which takes, brings word of to its processor, whose timestamp before it was this. The
/// gaps tell what stands up to it.
fn dues_of_taking(
    alloc: Global,
    gaps: &Gaps,
    events: &[Event],
    place: usize,
    before: &Clock,
) -> Result<Vec<Due>, AllocError>
    requires few { length events.now ≤ most_in_sized_history }
    requires tells { TellsFetchGaps (take (place + 1) events.now) gaps.now }
    requires place { place < length events.now }
    requires within { (k : ℕ) (e : Event) → EventAt events.now k e → IsEventInSizes (judged_sizes_of gaps.now.sizes) e }
    requires takes { (e : Event) → EventAt events.now place e → event_takes e.kind ≡ true }
    requires before { (e : Event) → EventAt events.now place e
        → IsTimeOf (take place events.now) e.processor (slice_index before.now) }
    ensures { IfOk result (λ v. (e : Event) → EventAt events.now place e
        → AreDues (judged_sizes_of gaps.now.sizes) events.now place e v.items) }
{
    let span = span_of_taking(gaps, events[place].processor, before);
    dues_in(alloc, gaps, &span)
}

/// Takes note of the event at this place, the next one, and answers of which records it tells. The only error is running
/// out of memory, after which the gaps may tell no history.
fn dues_at(
    alloc: Global,
    gaps: &mut Gaps,
    events: &[Event],
    place: usize,
) -> Result<Vec<Due>, AllocError>
    requires few { length events.now ≤ most_in_sized_history }
    requires place { place < length events.now }
    requires within { (k : ℕ) (e : Event) → EventAt events.now k e → IsEventInSizes (judged_sizes_of gaps.old.sizes) e }
    requires so_far { TellsFetchGaps (take place events.now) gaps.old }
    ensures sizes { gaps.new.sizes ≡ gaps.old.sizes }
    ensures tells { OnOk result (TellsFetchGaps (take (place + 1) events.now) gaps.new) }
    ensures dues { IfOk result (λ v. (e : Event) → EventAt events.now place e
        → AreDues (judged_sizes_of gaps.old.sizes) events.now place e v.items) }
{
    let event = events[place];
    if let Kind::Fetch { page, .. } = event.kind {
        let dues = dues_of_fetch(alloc, gaps, events, place, page)?;
        gaps.note(events, place)?;
        return Ok(dues);
    }
    let before = *gaps.time(event.processor);
    gaps.note(events, place)?;
    if is_taking_event(event.kind) {
        dues_of_taking(alloc, gaps, events, place, &before)
    } else {
        Ok(Vec::new(alloc))
    }
}

/// Takes note of all events, and answers of which records each tells. The gaps tell nothing so far.
fn all_dues(alloc: Global, gaps: &mut Gaps, events: &[Event]) -> Result<Vec<Vec<Due>>, AllocError>
    requires few { length events.now ≤ most_in_sized_history }
    requires within { (k : ℕ) (e : Event) → EventAt events.now k e → IsEventInSizes (judged_sizes_of gaps.old.sizes) e }
    requires start { TellsFetchGaps [] gaps.old }
    ensures long { IfOk result (λ v. vec_len v ≡ length events.now) }
    ensures dues { IfOk result (λ v. AreAllDues (judged_sizes_of gaps.old.sizes) events.now v.items) }
{
    let mut rows = Vec::with_capacity(alloc, events.len())?;
    for place in 0..events.len() {
        rows.push(dues_at(alloc, gaps, events, place)?)?;
    }
    Ok(rows)
}

/// What each event of the history tells of. A fetch: which records its processor's copy of the page lacked, by writers. An event
/// that takes: which records its processor's copies lack after it that they did not lack before, by pages and then by writers.
/// Any other event: nothing. A page with such records is stale.
///
/// It has at most 16 processors. The only error is running out of memory. It takes time in the order of the events, and for each
/// event that takes that of the pages times the processors of which it brings news, times the logarithm of the events.
pub fn dues(alloc: Global, history: &History<'_>) -> Result<Vec<Vec<Due>>, AllocError>
    requires { history.now.sizes.processors ≤ most_processors }
    ensures long { IfOk result (λ v. vec_len v ≡ length history.now.events) }
    ensures dues { IfOk result (λ v. AreAllDues (judged_sizes_of history.now.sizes) history.now.events v.items) }
{
    let mut gaps = Gaps::new(alloc, history.sizes())?;
    all_dues(alloc, &mut gaps, history.events())
}
