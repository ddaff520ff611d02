//! What the events of a run change, as a page has it: for each event a list of cells, each with its new text and its looks.
//! A list ends with a 0, which stands for nothing.

use crate::changes::{RunChanges, Standing, StateChange};
use crate::svg::Svg;
use causes::{Due, WrittenWord};
use journal::{Awaited, Clock, Event, Kind};

/// The looks of a dirty word.
const DIRTY: &str = "dirty";

/// What is said of a copy that lacks nothing, and how it looks.
const VALID: &str = "valid";

/// What is said of a copy that lacks stores, and how it looks.
const STALE: &str = "stale";

/// Puts a timestamp of so many processors.
pub fn put_time_in_step_entry(text: &mut Svg, time: &Clock, processors: usize) {
    for (processor, entry) in time.iter().enumerate() {
        if processor < processors {
            text.put_number(if processor == 0 { "" } else { " " }, *entry as usize);
        }
    }
}

/// Puts for what a processor waits.
fn put_awaited_in_step_entry(text: &mut Svg, awaited: Awaited) {
    match awaited {
        Awaited::Grant(lock) => text.put_number("lock ", lock),
        Awaited::Departure => text.put("barrier"),
        Awaited::Signal(flag) => text.put_number("flag ", flag),
    }
}

/// Puts the message that a processor may take.
fn put_message_in_step_entry(text: &mut Svg, awaited: Awaited) {
    match awaited {
        Awaited::Grant(lock) => text.put_number("grant of lock ", lock),
        Awaited::Departure => text.put("departure"),
        Awaited::Signal(flag) => text.put_number("signal of flag ", flag),
    }
}

/// Puts for what a processor waits, or which message is on its way to it.
fn put_standing_in_step_entry(text: &mut Svg, standing: Standing) {
    match standing {
        Standing::Runs => {}
        Standing::Waits(awaited) => {
            text.put("waits: ");
            put_awaited_in_step_entry(text, awaited);
        }
        Standing::Sent(awaited) => {
            put_message_in_step_entry(text, awaited);
            text.put(" in transit");
        }
    }
}

/// Puts who holds a lock, and who asked for it.
fn put_lock_in_step_entry(text: &mut Svg, holder: Option<usize>, is_known: bool, queue: &[usize]) {
    match (holder, is_known) {
        (Some(processor), _) => text.put_number("p", processor),
        (None, true) => text.put("free"),
        (None, false) => text.put("?"),
    }
    for (index, processor) in queue.iter().enumerate() {
        text.put_number(if index == 0 { "; asked: p" } else { ", p" }, *processor);
    }
}

/// Begins a cell's entry: its name is a letter, a number, and with a second one this behind a point.
fn begin_step_entry(text: &mut Svg, letter: &str, first: usize, second: Option<usize>) {
    text.put("[\"");
    text.put_number(letter, first);
    if let Some(number) = second {
        text.put_number(".", number);
    }
    text.put("\",\"");
}

/// Ends a cell's entry, with its looks.
fn end(text: &mut Svg, looks: &str) {
    text.put("\",\"");
    text.put(looks);
    text.put("\"]");
}

/// Puts the entry of a word; with None its text stays.
fn put_word_step_entry(
    text: &mut Svg,
    processor: usize,
    address: usize,
    word: Option<u32>,
    looks: &str,
) {
    text.put_number("[\"w", processor);
    text.put_number(".", address);
    match word {
        Some(word) => {
            text.put_number("\",\"", word as usize);
            end(text, looks);
        }
        None => {
            text.put("\",null,\"");
            text.put(looks);
            text.put("\"]");
        }
    }
}

/// Puts what a processor's copy of a page is.
fn put_copy_step_entry(text: &mut Svg, processor: usize, page: usize, state: &str) {
    begin_step_entry(text, "c", processor, Some(page));
    text.put(state);
    end(text, state);
}

/// Puts a change's entry.
fn put_change_step_entry(text: &mut Svg, change: &StateChange) {
    match change {
        StateChange::Clean { processor, address } => {
            put_word_step_entry(text, *processor, *address, None, "");
        }
        StateChange::Valid { processor, page } => put_copy_step_entry(
            text, *processor, *page, VALID,
        ),
        StateChange::Lock {
            lock,
            holder,
            is_known,
            queue,
        } => {
            begin_step_entry(text, "l", *lock, None);
            put_lock_in_step_entry(text, *holder, *is_known, queue);
            end(text, "text");
        }
        StateChange::Flag { flag } => {
            begin_step_entry(text, "f", *flag, None);
            text.put("set");
            end(text, "text");
        }
        StateChange::Stands {
            processor,
            standing,
        } => {
            begin_step_entry(text, "s", *processor, None);
            put_standing_in_step_entry(text, *standing);
            end(text, "text");
        }
    }
}

/// Whether an event of this kind leaves timestamps as they are.
fn step_entry_keeps_time(kind: Kind) -> bool {
    match kind {
        Kind::Load(..) | Kind::Store(..) | Kind::Fetch { .. } => true,
        _ => false,
    }
}

/// Puts the entry of the event's processor's timestamp after it, where the event changes that.
fn put_new_time_step_entry(text: &mut Svg, event: Event, time: Option<&Clock>, processors: usize) {
    if step_entry_keeps_time(event.kind) {
        return;
    }
    if let Some(time) = time {
        begin_step_entry(text, "t", event.processor, None);
        put_time_in_step_entry(text, time, processors);
        end(text, "text");
        text.put(",");
    }
}

/// The word that the store at this place stores.
fn step_entry_stored_word(events: &[Event], place: usize) -> u32 {
    match events.get(place) {
        Some(
            Event {
                kind: Kind::Store(_, word),
                ..
            },
        ) => *word,
        _ => 0,
    }
}

/// Puts the entries of the words that the event writes. A store's own word is dirty, and those that a fetch brings aren't.
fn put_written_step_entries(
    text: &mut Svg,
    events: &[Event],
    event: Event,
    written: &[WrittenWord],
) {
    let looks = match event.kind {
        Kind::Store(..) => DIRTY,
        _ => "",
    };
    for word in written {
        let value = step_entry_stored_word(events, word.store);
        put_word_step_entry(text, event.processor, word.address, Some(value), looks);
        text.put(",");
    }
}

/// Puts the entries of the copies that the event makes valid, or that go stale by these records.
fn put_copies_step_entries(text: &mut Svg, event: Event, dues: &[Due]) {
    if let Kind::Fetch { page, .. } = event.kind {
        put_copy_step_entry(text, event.processor, page, VALID);
        text.put(",");
        return;
    }
    let mut last = None;
    for due in dues {
        if last != Some(due.page) {
            last = Some(due.page);
            put_copy_step_entry(text, event.processor, due.page, STALE);
            text.put(",");
        }
    }
}

/// Puts the entries of what the event at this place changes, each behind a comma but for the last, which is none.
fn put_event_step_entries(
    text: &mut Svg,
    events: &[Event],
    changes: &RunChanges,
    place: usize,
    event: Event,
    processors: usize,
) {
    text.put("[");
    put_new_time_step_entry(text, event, changes.times.get(place), processors);
    if let Some(written) = changes.written.get(place) {
        put_written_step_entries(text, events, event, written);
    }
    if let Some(dues) = changes.dues.get(place) {
        put_copies_step_entries(text, event, dues);
    }
    if let Some(others) = changes.others.get(place) {
        for other in others {
            put_change_step_entry(text, other);
            text.put(",");
        }
    }
    text.put("0]");
}

/// Puts what each of these events changes, of a run of so many processors.
pub fn put_step_entries(text: &mut Svg, events: &[Event], changes: &RunChanges, processors: usize) {
    text.put("[");
    for (place, event) in events.iter().enumerate() {
        put_event_step_entries(text, events, changes, place, *event, processors);
        text.put(",\n");
    }
    text.put("0]");
}
