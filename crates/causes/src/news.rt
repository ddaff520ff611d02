//! What each event brings its processor news of: the events that let it through and that its processor had not heard of.
ghost use Rattle.std.specs.Prelude.{◌≡◌, ◌↔◌, ◌⊎◌, ℕ, ◌<◌, ◌≤◌, [], IsTrue, IfOk, OnOk, length, vec_len};
ghost use Rattle.base.specs.Prelude.{Has};
ghost use Rattle.base.specs.InOrderOnce.{IsOnce};
ghost use Rattle.journal.specs.Times.{ClosesAt};
ghost use Rattle.journal.specs.Prelude.{EventProcessorsInRange};
ghost use Rattle.judge.specs.Prelude.{AreCuts, most_in_sized_history, most_judged_processors};
ghost use Rattle.causes.specs.Prelude.{AreIncomingNews, AreNewsRising, AreIndexedTurns, EdgeFromOther, IsIndex, IsNewsOfStep, NewsCutsAround};

use crate::edge::edge_lets_on;
use crate::index::{Index, Turn, index_of, index_places_before};
use crate::step::{Step, known_in_cut, next_step};
use journal::Event;
use judge::{Cuts, History};
use std::alloc::{AllocError, Global};

/// Whether an edge leads from the event at the first place to another processor's at the second one.
pub(crate) fn is_news_edge(events: &[Event], turns: &[Turn], from: usize, to: usize) -> bool
    requires from { from < length events.now }
    requires to { to < length events.now }
    requires turns { AreIndexedTurns events.now turns.now }
    ensures { IsTrue result ↔ EdgeFromOther events.now from to }
{
    let start = events[from];
    let end = events[to];
    if start.processor == end.processor {
        return false;
    }
    from < to
        && edge_lets_on(
            start.kind,
            turns[from].arrived,
            end.kind,
            turns[to].departed,
        )
}

/// Adds the places of the events of the processor `by` that the step brings news of.
fn add_news(
    places: &mut Vec<usize>,
    events: &[Event],
    index: &Index,
    step: &Step,
    by: usize,
) -> Result<(), AllocError>
    requires by { by < most_judged_processors }
    requires index { IsIndex events.now index.now }
    requires step { NewsCutsAround events.now step.now }
    ensures has { OnOk result ((i : ℕ)
        → Has places.new.items i ↔ (Has places.old.items i ⊎ IsNewsOfStep events.now step.now by i)) }
    ensures once { OnOk result (IsOnce places.old.items
        → ((i : ℕ) → Has places.old.items i → ¬ ClosesAt events.now by i) → IsOnce places.new.items) }
{
    let known = known_in_cut(&step.before, by);
    let now = known_in_cut(&step.after, by);
    if known == now {
        return Ok(());
    }
    let closings = &index.closings[by];
    let first = index_places_before(closings, known);
    let end = index_places_before(closings, now);
    for number in first..end {
        let place = closings[number];
        if is_news_edge(events, &index.turns, place, step.place) {
            places.push(place)?;
        }
    }
    Ok(())
}

/// The places of the events that the step brings news of and that have an edge to it, rising.
fn news(
    alloc: Global,
    events: &[Event],
    index: &Index,
    step: &Step,
    processors: usize,
) -> Result<Vec<usize>, AllocError>
    requires few_processors { processors ≤ most_judged_processors }
    requires processors { EventProcessorsInRange processors events.now }
    requires index { IsIndex events.now index.now }
    requires step { NewsCutsAround events.now step.now }
    ensures { IfOk result (λ v. AreNewsRising events.now step.now.place v.items) }
{
    let mut places = Vec::new(alloc);
    for by in 0..processors {
        add_news(&mut places, events, index, step, by)?;
    }
    places.sort_unstable();
    Ok(places)
}

/// Of each event its news, where the cuts tell nothing so far.
fn all_news(
    alloc: Global,
    cuts: &mut Cuts,
    events: &[Event],
    index: &Index,
    processors: usize,
) -> Result<Vec<Vec<usize>>, AllocError>
    requires few { length events.now ≤ most_in_sized_history }
    requires present { cuts.old.present ≡ processors }
    requires processors { EventProcessorsInRange processors events.now }
    requires start { AreCuts [] cuts.old }
    requires index { IsIndex events.now index.now }
    ensures long { IfOk result (λ v. vec_len v ≡ length events.now) }
    ensures news { IfOk result (λ v. AreIncomingNews events.now v.items) }
{
    let mut rows = Vec::with_capacity(alloc, events.len())?;
    for place in 0..events.len() {
        let step = next_step(alloc, cuts, events, place)?;
        rows.push(news(alloc, events, index, &step, processors)?)?;
    }
    Ok(rows)
}

/// Of each event of the history: the places, rising, of the events of other processors that have an edge to it and that its
/// processor had not heard of: that happen before none of its earlier events. None where it takes nothing, or nothing new. The
/// only error is running out of memory.
///
/// Each event stands at most once among the news of each other processor. So time and memory are in the order of the
/// number of events times that of processors; each event's news are sorted besides.
pub fn incoming_news(alloc: Global, history: &History<'_>) -> Result<Vec<Vec<usize>>, AllocError>
    ensures long { IfOk result (λ v. vec_len v ≡ length history.now.events) }
    ensures news { IfOk result (λ v. AreIncomingNews history.now.events v.items) }
{
    let events = history.events();
    let processors = history.sizes().processors;
    let index = index_of(alloc, events)?;
    let mut cuts = Cuts::new(alloc, processors)?;
    all_news(alloc, &mut cuts, events, &index, processors)
}
