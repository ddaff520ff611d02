//! The events of a run, told.

use crate::columns::{Columns, columns_of};
use crate::extent::Extent;
use crate::findings::{findings_of, race_finding_of};
use crate::halting::put_trace_waits;
use crate::held_now::HeldNow;
use crate::notes::HistoryNotes;
use crate::stale_copies::StaleCopies;
use crate::told_history::{ToldHistory, told_history_numbers};
use causes::Part;
use journal::Event;
use judge::History;
use lrc_prose::racing::RaceProse;
use lrc_prose::text::ProseText;
use std::alloc::{AllocError, Global};

/// Puts the event at this place, before which this is held and these copies are stale, and below it the protocol's state, where
/// that is told.
fn put_chronicle_event(
    text: &mut ProseText,
    held: &HeldNow,
    stale: &StaleCopies,
    known: &HistoryNotes<'_>,
    layout: &Columns,
    place: usize,
    event: Event,
) {
    layout.put_event(text, known.numbers.of(place), event);
    known.put_note(text, held, stale, place, event);
    text.end_line();
    if let Some(state) = known.state(place, event) {
        layout.begin_below(text);
        state.put(text);
        text.end_line();
    }
}

/// Puts a line for each event that is told, under the line of titles. The only error is running out of memory.
fn put_chronicle_events(
    text: &mut ProseText,
    alloc: Global,
    known: &HistoryNotes<'_>,
    layout: &Columns,
    told: &[bool],
) -> Result<(), AllocError> {
    let mut held = HeldNow::new(alloc, known.sizes.processors)?;
    let mut stale = StaleCopies::new(alloc);
    layout.put_titles(text);
    for (place, event) in known.events.iter().enumerate() {
        if told.get(place) == Some(&true) {
            put_chronicle_event(text, &held, &stale, known, layout, place, *event);
        }
        held.note(place, *event)?;
        stale.note(*event, known.dues(place))?;
    }
    Ok(())
}

/// Puts how many events were cut off, where any was.
fn put_chronicle_cut(text: &mut ProseText, cut: u64) {
    if cut > 0 {
        text.put_number("cut ", cut);
        text.end_line();
    }
}

/// Of each event of the history whether it is told: whether it isn't cut off, and the part has it. The only error is running out
/// of memory.
fn chronicle_tells(
    alloc: Global,
    part: &Part,
    history: &History<'_>,
) -> Result<Vec<bool>, AllocError> {
    let numbers = told_history_numbers(history);
    let events = history.events();
    let mut told = Vec::with_capacity(alloc, events.len())?;
    for (place, event) in events.iter().enumerate() {
        let number = numbers.of(place) as usize;
        told.push(!numbers.is_cut(place) && part.has(number, event.processor))?;
    }
    Ok(told)
}

/// Puts what is known of a history, of which these events are told, and an empty line. The only error is running out of memory.
fn put_chronicle_of_known(
    text: &mut ProseText,
    alloc: Global,
    part: &Part,
    known: &HistoryNotes<'_>,
    told: &[bool],
) -> Result<(), AllocError> {
    let last = known.numbers.of(known.events.len().saturating_sub(1));
    let layout = columns_of(
        alloc,
        known.sizes.processors,
        part,
        known.events,
        told,
        last,
    )?;
    put_chronicle_cut(text, known.numbers.cut);
    put_chronicle_events(text, alloc, known, &layout, told)?;
    text.end_line();
    Ok(())
}

/// Puts as much of the history, and an empty line. The only error is running out of memory.
fn put_chronicle_of_history(
    text: &mut ProseText,
    alloc: Global,
    extent: &Extent,
    history: &ToldHistory<'_>,
) -> Result<(), AllocError> {
    let told = chronicle_tells(alloc, &extent.part, history.history)?;
    let asked: &[bool] = if extent.state { &told } else { &[] };
    let found = findings_of(alloc, history.history, extent.pages, asked)?;
    let known = HistoryNotes::new(*history, &found);
    let put = put_chronicle_of_known(text, alloc, &extent.part, &known, &told);
    drop(found);
    put
}

/// Puts the sentences on the first race, where there is one, and an empty line behind them. The only error is running out of
/// memory.
fn put_chronicle_race(
    text: &mut ProseText,
    alloc: Global,
    history: &History<'_>,
) -> Result<(), AllocError> {
    if let Some(apart) = &race_finding_of(alloc, history)? {
        let race = RaceProse {
            numbers: told_history_numbers(history),
            events: history.events(),
            apart,
        };
        race.put(text);
        text.end_line();
    }
    Ok(())
}

/// Puts as much of the history of a run, then the first race, and an empty line. The only error is running out of memory.
pub fn put_chronicle(
    text: &mut ProseText,
    alloc: Global,
    extent: &Extent,
    history: &History<'_>,
) -> Result<(), AllocError> {
    put_chronicle_of_history(text, alloc, extent, &ToldHistory::of_run(history))?;
    put_chronicle_race(text, alloc, history)
}

/// Puts as much of the history of a trace, and an empty line; then who waits for whom if it can't go on, unless its last event is
/// a lie. The only error is running out of memory.
pub fn put_chronicle_of_trace(
    text: &mut ProseText,
    alloc: Global,
    extent: &Extent,
    history: &ToldHistory<'_>,
) -> Result<(), AllocError> {
    put_chronicle_of_history(text, alloc, extent, history)?;
    if history.lie.is_none() {
        put_trace_waits(text, alloc, history.history)?;
    }
    Ok(())
}
