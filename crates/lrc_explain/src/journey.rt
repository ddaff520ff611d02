//! How what a load answers came to its processor: the ways from stores to loads.
ghost use Rattle.std.specs.Prelude.{◌<◌, length};
ghost use Rattle.causes.specs.Prelude.{ArePathWays};

use crate::told_history::ProseNumbers;
use causes::{Source, Ways};
use journal::{Event, Kind};
use lrc_prose::text::ProseText;
use std::alloc::{AllocError, Global};

/// How many crossings are told at most.
const MOST_CROSSINGS: usize = 3;

/// The way from the store that the event at this place answers; None where it answers none.
fn journey_to(
    alloc: Global,
    ways: &Ways,
    events: &[Event],
    source: Option<Source>,
    place: usize,
) -> Result<Option<Vec<usize>>, AllocError>
    requires tells { ArePathWays events.now ways.now }
    requires place { place < length events.now }
{
    let Some(Source::StoreAt(from)) = source else {
        return Ok(None);
    };
    if from >= events.len() {
        return Ok(None);
    }
    ways.way(alloc, events, from, place)
}

/// Of each event, the places of a way from the store that it answers to it, where it is a load; else None. The only
/// error is running out of memory.
///
/// It takes time for each load as `causes::Ways::way` does.
pub fn journey_to_each_load(
    alloc: Global,
    ways: &Ways,
    events: &[Event],
    loads: &[Option<Source>],
) -> Result<Vec<Option<Vec<usize>>>, AllocError>
    requires { ArePathWays events.now ways.now }
{
    let mut found = Vec::with_capacity(alloc, events.len())?;
    for place in 0..events.len() {
        let source = match loads.get(place) {
            Some(source) => *source,
            None => None,
        };
        found.push(journey_to(alloc, ways, events, source, place)?)?;
    }
    Ok(found)
}

/// An edge of a way, from the event at one place to that at the other.
#[derive(Clone, Copy)]
struct Edge {
    from: usize,
    to: usize,
}

/// The crossings of a way: where it goes from one processor to another. Empty where it goes from none.
#[derive(Clone, Copy)]
pub struct JourneyCrossings<'a> {
    pub numbers: ProseNumbers,
    pub events: &'a [Event],
    /// The places of the way.
    pub places: &'a [usize],
}

/// What an event did, in a word.
fn journey_word_of(kind: Kind) -> &'static str {
    match kind {
        Kind::Acquire(_) => "acquire",
        Kind::Release(_) => "release",
        Kind::Arrive => "arrive",
        Kind::Depart => "depart",
        Kind::Set(_) => "set",
        Kind::Await(_) => "await",
        _ => "event",
    }
}

impl JourneyCrossings<'_> {
    /// The edge to the place at this index of the way.
    fn edge(&self, index: usize) -> Edge
        requires first { 0 < index }
        requires end { index < length self.now.places.now }
    {
        Edge {
            from: self.places[index - 1],
            to: self.places[index],
        }
    }

    /// Whether the edge leads from one processor to another.
    fn crosses(&self, edge: Edge) -> bool {
        match (self.events.get(edge.from), self.events.get(edge.to)) {
            (Some(from), Some(to)) => from.processor != to.processor,
            _ => false,
        }
    }

    /// How many there are.
    fn count(&self) -> usize {
        let mut count: usize = 0;
        for index in 1..self.places.len() {
            if self.crosses(self.edge(index)) {
                count = count.saturating_add(1);
            }
        }
        count
    }

    /// Puts what the event at this place did, and its number.
    fn put_event(&self, text: &mut ProseText, place: usize) {
        let events = self.events;
        if let Some(event) = events.get(place) {
            text.put(journey_word_of(event.kind));
            text.put_number(" at ", self.numbers.of(place));
        }
    }

    /// Puts one crossing, the one of this number among so many. Of many only the first and the last are told.
    fn put_crossing(&self, text: &mut ProseText, edge: Edge, number: usize, count: usize) {
        let left_out = count.saturating_sub(2);
        if count > MOST_CROSSINGS && number == 1 {
            text.put_number(", ", left_out);
            text.put(" more between");
        }
        if count > MOST_CROSSINGS && number > 0 && number <= left_out {
            return;
        }
        text.put(if number == 0 { ", by " } else { ", " });
        self.put_event(text, edge.from);
        text.put(" and ");
        self.put_event(text, edge.to);
    }

    /// Puts them, with commas before them.
    pub fn put(&self, text: &mut ProseText) {
        let count = self.count();
        let mut number: usize = 0;
        for index in 1..self.places.len() {
            let edge = self.edge(index);
            if self.crosses(edge) {
                self.put_crossing(text, edge, number, count);
                number = number.saturating_add(1);
            }
        }
    }
}
