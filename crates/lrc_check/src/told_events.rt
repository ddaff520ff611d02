//! The events of a trace that can be told. Of a trace that is judged as it is read the first ones were let go of.
ghost use Rattle.std.specs.Prelude.{◌≡◌, ℕ, ◌+◌, ◌<◌, ◌≤◌, IfOk, List, ◌++◌, length, option_map, slice_get};
ghost use Rattle.journal.specs.declared.event.Event.{Event};
ghost use Rattle.lrc_check.specs.Traces.Prelude.{IsFedTextOf, trace_event_label, trace_labels_of};
ghost use Rattle.lrc_check.specs.Prelude.{told_event, told_known_event, told_known_label, told_label};

use crate::traces::labels::TraceLabels;
use crate::traces::reader::Reader;
use crate::traces::trace::LabelledTrace;
use journal::Event;
use std::alloc::{AllocError, Global};

/// An event of a trace that is known though it isn't at hand any more.
#[derive(Debug, Drop)]
pub struct KnownEvent {
    /// Its place in the trace.
    pub place: usize,
    pub event: Event,
    /// Without a byte if it has none, or if it isn't known.
    pub label: Vec<u8>,
}

impl KnownEvent {
    /// The event at this place with a copy of its label. The only error is running out of memory.
    pub(crate) fn of(
        alloc: Global,
        place: usize,
        event: Event,
        label: &[u8],
    ) -> Result<KnownEvent, AllocError>
        ensures { IfOk result (λ x. (x.place ≡ place) × (x.event ≡ event) × (x.label.items ≡ label.now)) }
    {
        let mut kept = Vec::new(alloc);
        kept.extend_from_slice(label)?;
        Ok(KnownEvent {
            place,
            event,
            label: kept,
        })
    }
}

/// The events of a trace that can be told: the last ones, with their labels, and some of those before.
#[derive(Clone, Copy)]
pub struct ToldEvents<'a> {
    /// How many events of the trace stand before those at hand.
    pub gone: usize,
    /// Whether the labels begin with that of the line of the sizes.
    pub headed: bool,
    pub events: &'a [Event],
    /// Their labels, one for each, behind that of the line of the sizes if that was not let go of.
    pub labels: &'a TraceLabels,
    /// Events from before these that are known nevertheless.
    pub before: &'a [KnownEvent],
}

/// The event of this place, if it is among the known ones.
fn told_event_before(known: &[KnownEvent], place: usize) -> Option<Event>
    ensures { result ≡ option_map (λ x. x.event) (told_known_event known.now place) }
{
    known
        .iter()
        .find(|event| event.place == place)
        .map(|event| event.event)
}

/// The label of the event of this place, if it is among the known ones.
fn told_label_before(known: &[KnownEvent], place: usize) -> &[u8]
    ensures { result.now ≡ told_known_label (told_known_event known.now place) }
{
    for event in known {
        if event.place == place {
            return &event.label;
        }
    }
    b""
}

impl<'a> ToldEvents<'a> {
    /// All events of a trace that is at hand as a whole.
    pub fn of_trace(labelled: &'a LabelledTrace) -> ToldEvents<'a>
        ensures event { (place : ℕ) → told_event result place ≡ slice_get labelled.now.trace.events.items place }
        ensures label { (place : ℕ) → told_label result place ≡ trace_event_label labelled.now.labels place }
    {
        ToldEvents {
            gone: 0,
            headed: true,
            events: &labelled.trace.events,
            labels: &labelled.labels,
            before: &[],
        }
    }

    /// The events that a reader didn't let go of, and these from before them.
    pub fn of_reader(reader: &'a Reader, before: &'a [KnownEvent]) -> ToldEvents<'a>
        ensures event { (bytes : List ℕ) (front : List Event) (told : List ℕ) → IsFedTextOf bytes front told reader.now
            → (place : ℕ) → reader.now.gone ≤ place → told_event result place ≡ slice_get (front ++ reader.now.events) place }
        ensures before { (place : ℕ) → place < reader.now.gone
            → told_event result place ≡ option_map (λ x. x.event) (told_known_event before.now place) }
        ensures label { (bytes : List ℕ) (front : List Event) (told : List ℕ) → IsFedTextOf bytes front told reader.now
            → (place : ℕ) → reader.now.gone ≤ place → place < reader.now.gone + length reader.now.events
            → told_label result place ≡ trace_event_label (trace_labels_of bytes) place }
    {
        ToldEvents {
            gone: reader.gone(),
            headed: reader.is_headed(),
            events: reader.events(),
            labels: reader.labels(),
            before,
        }
    }

    /// The event at this place, if it is known.
    pub fn event(&self, place: usize) -> Option<Event>
        ensures { result ≡ told_event self.now place }
    {
        if place < self.gone {
            told_event_before(self.before, place)
        } else {
            self.events.get(place - self.gone).copied()
        }
    }

    /// The label of the event at this place, without a byte if it has none or isn't known. It takes time in the order of the
    /// lines.
    pub fn label(&self, place: usize) -> &[u8]
        ensures { result.now ≡ told_label self.now place }
    {
        if place < self.gone {
            return told_label_before(self.before, place);
        }
        let index = place - self.gone;
        if self.headed {
            self.labels.of(index)
        } else {
            self.labels.at(index)
        }
    }
}
