//! What a picture has of a run besides its events: what is said of each, which loads answer which stores, who waits for whom.

use crate::findings::{Findings, findings_of};
use crate::halting::Halted;
use crate::held_now::HeldNow;
use crate::notes::HistoryNotes;
use crate::stale_copies::StaleCopies;
use crate::told_history::{ProseNumbers, ToldHistory};
use causes::Source;
use judge::History;
use lrc_prose::text::ProseText;
use std::alloc::{AllocError, Global};

/// What is told of a run's events, those alone that are left in the journal: their places are counted from 0.
#[derive(Drop)]
pub struct Sketch {
    /// Of each event what is said of it, in one line.
    pub notes: Vec<Vec<u8>>,
    /// Of each event the place of the store that it answers, where it is a load of the value of one that is left.
    pub reads: Vec<Option<usize>>,
    /// Of each event whether it is a load that misses a store: one that stands before it, and is neither what it answers nor
    /// ordered before it.
    pub stale: Vec<bool>,
    /// Of each processor for what it waits, where the run can't go on, in words; None where it waits for nothing.
    pub waits: Vec<Option<Vec<u8>>>,
    /// Of each processor the one that could let it go on, where there is one.
    pub holders: Vec<Option<usize>>,
}

/// Adds of each event that is left what is said of it. The only error is running out of memory.
fn add_sketch_notes(
    notes: &mut Vec<Vec<u8>>,
    alloc: Global,
    known: &HistoryNotes<'_>,
) -> Result<(), AllocError> {
    let mut held = HeldNow::new(alloc, known.sizes.processors)?;
    let mut stale = StaleCopies::new(alloc);
    add_sketch_notes_by(notes, alloc, known, &mut held, &mut stale)
}

/// The same, by what is held and which copies are stale, both as the history begins.
fn add_sketch_notes_by(
    notes: &mut Vec<Vec<u8>>,
    alloc: Global,
    known: &HistoryNotes<'_>,
    held: &mut HeldNow,
    stale: &mut StaleCopies,
) -> Result<(), AllocError> {
    for (place, event) in known.events.iter().enumerate() {
        if !known.numbers.is_cut(place) {
            let mut text = ProseText::new(alloc);
            known.put_note(&mut text, held, stale, place, *event);
            notes.push(text.into_line()?)?;
        }
        held.note(place, *event)?;
        stale.note(*event, known.dues(place))?;
    }
    Ok(())
}

/// The place of the store that has the word that the event at this place answers.
fn sketch_store_of(found: &Findings, place: usize) -> Option<usize> {
    match found.loads.sources.get(place) {
        Some(Some(Source::StoreAt(store))) => Some(*store),
        _ => Some(found.loads.stray(place)?.store),
    }
}

/// The same, counted from where the events are that are left.
fn sketch_read_at(found: &Findings, numbers: ProseNumbers, place: usize) -> Option<usize> {
    let store = sketch_store_of(found, place)?;
    if numbers.is_cut(store) {
        None
    } else {
        Some(store.saturating_sub(numbers.opening))
    }
}

/// Whether the event at this place is a load that misses a store.
fn sketch_is_stale(found: &Findings, place: usize) -> bool {
    match (
        found.loads.sources.get(place),
        found.loads.earlier.get(place),
    ) {
        (Some(Some(_)), Some(Some(last))) => {
            !last.is_ordered && sketch_store_of(found, place) != Some(last.place)
        }
        _ => false,
    }
}

/// Of each event that is left, of so many in all, the place of the store that it answers. The only error is running out of
/// memory.
fn sketch_reads_of(
    alloc: Global,
    found: &Findings,
    numbers: ProseNumbers,
    count: usize,
) -> Result<Vec<Option<usize>>, AllocError> {
    let mut reads = Vec::new(alloc);
    for place in numbers.opening..count {
        reads.push(sketch_read_at(found, numbers, place))?;
    }
    Ok(reads)
}

/// Of each event that is left, of so many in all, whether it misses a store. The only error is running out of memory.
fn sketch_stale_of(
    alloc: Global,
    found: &Findings,
    numbers: ProseNumbers,
    count: usize,
) -> Result<Vec<bool>, AllocError> {
    let mut stale = Vec::new(alloc);
    for place in numbers.opening..count {
        stale.push(sketch_is_stale(found, place))?;
    }
    Ok(stale)
}

/// For what the processor waits, in words; None where it waits for nothing. The only error is running out of memory.
fn sketch_wait_of(
    alloc: Global,
    halted: &Halted,
    processor: usize,
) -> Result<Option<Vec<u8>>, AllocError> {
    if !halted.waits(processor) {
        return Ok(None);
    }
    let mut text = ProseText::new(alloc);
    halted.put_wait(&mut text, processor);
    Ok(Some(text.into_line()?))
}

/// For what each of so many processors waits. The only error is running out of memory.
fn sketch_waits_of(
    alloc: Global,
    halted: &Halted,
    processors: usize,
) -> Result<Vec<Option<Vec<u8>>>, AllocError> {
    let mut waits = Vec::new(alloc);
    for processor in 0..processors {
        waits.push(sketch_wait_of(alloc, halted, processor)?)?;
    }
    Ok(waits)
}

/// Of each of so many processors the one that could let it go on. The only error is running out of memory.
fn sketch_holders_of(
    alloc: Global,
    halted: &Halted,
    processors: usize,
) -> Result<Vec<Option<usize>>, AllocError> {
    let mut holders = Vec::new(alloc);
    for processor in 0..processors {
        holders.push(halted.waits_for(processor))?;
    }
    Ok(holders)
}

/// Adds what is told of the events of the history, of which this is found. The only error is running out of memory.
fn add_sketch_findings(
    sketch: &mut Sketch,
    alloc: Global,
    history: &ToldHistory<'_>,
    found: &Findings,
) -> Result<(), AllocError> {
    let known = HistoryNotes::new(*history, found);
    add_sketch_notes(&mut sketch.notes, alloc, &known)?;
    let numbers = known.numbers;
    let count = known.events.len();
    sketch.reads = sketch_reads_of(alloc, found, numbers, count)?;
    sketch.stale = sketch_stale_of(alloc, found, numbers, count)?;
    Ok(())
}

/// Adds what is told of the events of the history, and of its pages, if these are told. The only error is running out of memory.
fn add_sketch_history(
    sketch: &mut Sketch,
    alloc: Global,
    history: &ToldHistory<'_>,
    pages: bool,
) -> Result<(), AllocError> {
    let found = findings_of(alloc, history.history, pages, &[])?;
    let added = add_sketch_findings(sketch, alloc, history, &found);
    drop(found);
    added
}

/// What is told of the events of the history, and of its pages, if these are told. The only error is running out of memory.
fn sketch_history(
    alloc: Global,
    history: &ToldHistory<'_>,
    pages: bool,
) -> Result<Sketch, AllocError> {
    let mut sketch = Sketch {
        notes: Vec::new(alloc),
        reads: Vec::new(alloc),
        stale: Vec::new(alloc),
        waits: Vec::new(alloc),
        holders: Vec::new(alloc),
    };
    add_sketch_history(&mut sketch, alloc, history, pages)?;
    Ok(sketch)
}

/// Adds who waits at the history's end, for what and for whom. The only error is running out of memory.
fn add_sketch_waits(
    sketch: &mut Sketch,
    alloc: Global,
    history: &History<'_>,
) -> Result<(), AllocError> {
    let processors = history.sizes().processors;
    let halted = Halted::of(alloc, history)?;
    sketch.waits = sketch_waits_of(alloc, &halted, processors)?;
    sketch.holders = sketch_holders_of(alloc, &halted, processors)?;
    Ok(())
}

/// What is told of the events of a run with this history, and of its pages. The only error is running out of memory.
pub fn sketch_run(alloc: Global, history: &History<'_>) -> Result<Sketch, AllocError> {
    let told = ToldHistory::of_run(history);
    let mut sketch = sketch_history(alloc, &told, true)?;
    add_sketch_waits(&mut sketch, alloc, history)?;
    Ok(sketch)
}

/// What is told of the events of a trace, and of its pages, if these are told. Nobody waits at its end, as far as is told. The
/// only error is running out of memory.
pub fn sketch_trace(
    alloc: Global,
    history: &ToldHistory<'_>,
    pages: bool,
) -> Result<Sketch, AllocError> {
    sketch_history(alloc, history, pages)
}
