//! What is said to the right of an event: why it went as it did, and for whom its processor waits.

use crate::earlier::Earlier;
use crate::findings::Findings;
use crate::held_now::{HeldNow, PastDeed};
use crate::journey::JourneyCrossings;
use crate::marked_processors::MarkedProcessors;
use crate::rivals::Rival;
use crate::stale_copies::{GoneStaleCopies, StaleCopies, StaleCopyWriters};
use crate::strays::Stray;
use crate::told_history::{ProseNumbers, ToldHistory, told_history_numbers};
use crate::told_state::ToldState;
use causes::{Due, Source, WordOrigin};
use journal::{Event, Kind};
use judge::{MOST_JUDGED_PROCESSORS, Sizes};
use lrc_prose::text::ProseText;

/// What is known of a history.
#[derive(Clone, Copy)]
pub struct HistoryNotes<'a> {
    pub numbers: ProseNumbers,
    pub sizes: Sizes,
    pub events: &'a [Event],
    /// Of each event its label.
    pub labels: &'a [Vec<u8>],
    /// Why the last event is a lie, in words; None where it is none.
    pub lie: Option<&'a str>,
    pub found: &'a Findings,
}

impl<'a> HistoryNotes<'a> {
    /// The history of which this was found.
    pub fn new(told: ToldHistory<'a>, found: &'a Findings) -> HistoryNotes<'a> {
        HistoryNotes {
            numbers: told_history_numbers(told.history),
            sizes: told.history.sizes(),
            events: told.history.events(),
            labels: told.labels,
            lie: told.lie,
            found,
        }
    }
}

impl HistoryNotes<'_> {
    /// The event at this place, which is one of the history.
    fn deed(&self, place: usize) -> PastDeed {
        let processor = match self.events.get(place) {
            Some(event) => event.processor,
            None => 0,
        };
        PastDeed { place, processor }
    }

    /// The last store before the event at this place to its address.
    fn earlier(&self, place: usize) -> Option<Earlier> {
        match self.found.loads.earlier.get(place) {
            Some(earlier) => *earlier,
            None => None,
        }
    }

    /// The crossings of the way to the load at this place.
    fn crossings(&self, place: usize) -> JourneyCrossings<'_> {
        let none: &[usize] = &[];
        let places = match self.found.loads.ways.get(place) {
            Some(Some(places)) => places.as_slice(),
            _ => none,
        };
        JourneyCrossings {
            numbers: self.numbers,
            events: self.events,
            places,
        }
    }

    /// Puts that the load at this place answers the store at that one, and how its word came there.
    fn put_store(&self, text: &mut ProseText, place: usize, store: usize) {
        text.put_number("event ", self.numbers.of(store));
        text.put_number(": p", self.deed(store).processor);
        text.put(" stored it");
        self.crossings(place).put(text);
    }

    /// Puts where the value of the load of the address at this place comes from.
    fn put_source(&self, text: &mut ProseText, place: usize, address: usize, source: Source) {
        match source {
            Source::StoreAt(store) => self.put_store(text, place, store),
            _ if self.numbers.has_cut() => text.put("what stood before the cut"),
            Source::NoStore => {
                text.put_number("no store to ", address);
                text.put(" happens before it");
            }
            Source::Unexplained => self.put_stray(text, self.found.loads.stray(place)),
        }
    }

    /// Puts which other store has the word of a load that answers none that it may.
    fn put_stray(&self, text: &mut ProseText, stray: Option<Stray>) {
        let Some(stray) = stray else {
            text.put("no store before it has this word");
            return;
        };
        text.put_number("event ", self.numbers.of(stray.store));
        text.put_number(": p", self.deed(stray.store).processor);
        text.put(if stray.is_ordered {
            " stored it, which later stores overwrite"
        } else {
            " stored it, which nothing orders before the load"
        });
    }

    /// The other latest stores of the load at this place.
    fn rivals(&self, place: usize) -> &[Rival] {
        let none: &[Rival] = &[];
        match self.found.loads.rivals.get(place) {
            Some(rivals) => rivals.as_slice(),
            None => none,
        }
    }

    /// Where the word comes from that the load at this place answers; None where nobody knows.
    fn origin(&self, place: usize, source: Source) -> Option<WordOrigin> {
        match self.found.loads.origins.get(place) {
            Some(Some(origin)) if source == Source::StoreAt(origin.store) => Some(*origin),
            _ => None,
        }
    }

    /// Where the word comes from that the load at this place answers, where it was fetched.
    fn fetched(&self, place: usize, source: Source) -> Option<WordOrigin> {
        let origin = self.origin(place, source)?;
        match self.events.get(origin.write) {
            Some(
                Event {
                    kind: Kind::Fetch { .. },
                    ..
                },
            ) => Some(origin),
            _ => None,
        }
    }

    /// Puts why the copy of the load's processor doesn't have the rival's word, but the one that was fetched.
    fn put_rival(&self, text: &mut ProseText, rival: Rival, fetched: Option<WordOrigin>) {
        put_other_store_note(text, self.numbers, self.deed(rival.store));
        text.put(" is as late");
        let Some(origin) = fetched else {
            return;
        };
        let write = self.numbers.of(origin.write);
        match rival.fetch {
            Some(fetch) if fetch == origin.write => {
                text.put_number(": the fetch at ", write);
                text.put(" applied it first");
            }
            Some(fetch) => {
                text.put_number(": the fetch at ", self.numbers.of(fetch));
                text.put(" had brought it before");
            }
            None if rival.is_own => {
                text.put_number(": the fetch at ", write);
                text.put(" overwrote it");
            }
            None => {}
        }
    }

    /// Whether the store is one of the rivals of the load at this place.
    fn is_rival(&self, place: usize, store: usize) -> bool {
        self.rivals(place).iter().any(|rival| rival.store == store)
    }

    /// Puts why the last store before the load that isn't told of yet isn't what it answers, where there is such a store.
    fn put_last(&self, text: &mut ProseText, place: usize, source: Source) {
        let Some(last) = self.earlier(place) else {
            return;
        };
        if source != Source::StoreAt(last.place) {
            if !last.is_ordered && !self.found.loads.is_stray(place, last.place) {
                put_other_store_note(text, self.numbers, self.deed(last.place));
                text.put(" is not ordered before it");
            }
            return;
        }
        let Some(before) = self.earlier(last.place) else {
            return;
        };
        if !self.is_rival(place, before.place) {
            let store = self.deed(before.place);
            put_overwritten_note(text, self.numbers, store, before.is_ordered, last.place);
        }
    }

    /// Puts what is said of the load of the address at this place.
    fn put_load(&self, text: &mut ProseText, place: usize, address: usize) {
        if let Some(Some(source)) = self.found.loads.sources.get(place) {
            self.put_source(text, place, address, *source);
            let fetched = self.fetched(place, *source);
            for rival in self.rivals(place) {
                self.put_rival(text, *rival, fetched);
            }
            self.put_last(text, place, *source);
        }
    }

    /// The records that the event at this place tells of.
    pub fn dues(&self, place: usize) -> &[Due] {
        let none: &[Due] = &[];
        match self.found.dues.get(place) {
            Some(dues) => dues.as_slice(),
            None => none,
        }
    }

    /// Puts whose records the fetch at this place brings, so many in all.
    fn put_writers(&self, text: &mut ProseText, place: usize, records: u32) {
        if self.found.dues.is_empty() {
            return;
        }
        let dues = self.dues(place);
        let writers = StaleCopyWriters {
            dues,
            has_older: self.numbers.has_cut() && note_records_of(dues) < records as usize,
        };
        writers.put(text);
    }

    /// The events of others that let the one at this place through and that its processor had not heard of.
    fn incoming(&self, place: usize) -> &[usize] {
        let none: &[usize] = &[];
        match self.found.incoming.get(place) {
            Some(places) => places.as_slice(),
            None => none,
        }
    }

    /// Puts a set that an await follows, the one of this index among those that are told.
    fn put_awaited_set(&self, text: &mut ProseText, index: usize, is_last: bool, set: usize) {
        let front = match index {
            0 => "after p",
            _ if is_last => ", and p",
            _ => ", p",
        };
        put_note_by(text, self.numbers, front, self.deed(set), "set");
    }

    /// Puts what is said of the await at this place of a flag that was set first by this: all sets that bring news, or else the
    /// first one.
    fn put_await(&self, text: &mut ProseText, place: usize, first: Option<PastDeed>) {
        let sets = self.incoming(place);
        if sets.is_empty() {
            put_awaited_note(text, self.numbers, first);
            return;
        }
        for (index, set) in sets.iter().enumerate() {
            let is_last = index.saturating_add(1) == sets.len();
            self.put_awaited_set(text, index, is_last, *set);
        }
    }

    /// Puts what is said of the departure at this place: whose arrivals it follows.
    fn put_depart(&self, text: &mut ProseText, place: usize) {
        let mut marks = [false; MOST_JUDGED_PROCESSORS];
        for arrival in self.incoming(place) {
            if let Some(mark) = marks.get_mut(self.deed(*arrival).processor) {
                *mark = true;
            }
        }
        let arrived = MarkedProcessors {
            marks: &marks,
            mark: true,
            but: MOST_JUDGED_PROCESSORS,
        };
        match arrived.count() {
            0 => return,
            1 => text.put("after the arrival of "),
            _ => text.put("after the arrivals of "),
        }
        arrived.put(text);
    }

    /// Why the event at this place is a lie, in words, where it is one.
    fn lie_at(&self, place: usize) -> Option<&str> {
        let lie = self.lie?;
        if place.saturating_add(1) == self.events.len() {
            Some(lie)
        } else {
            None
        }
    }

    /// Puts that the event at this place is a lie, and why; of a load besides what it answers.
    fn put_lie(&self, text: &mut ProseText, reason: &str, place: usize, event: Event) {
        text.put("a lie: ");
        text.put(reason);
        if let Kind::Load(address, _) = event.kind {
            text.put("; ");
            self.put_load(text, place, address);
        }
    }

    /// Puts the label of the event at this place, behind two spaces where something stands before it.
    fn put_label(&self, text: &mut ProseText, start: usize, place: usize) {
        if let Some(label) = self.labels.get(place)
            && !label.is_empty()
        {
            text.leave(if text.len() > start { 2 } else { 0 });
            text.put(str::from_utf8(label).unwrap_or(""));
        }
    }

    /// Puts what is said of the event at this place, before which this is held and these copies are stale, and its label.
    /// Nothing is put where there is nothing to say.
    pub fn put_note(
        &self,
        text: &mut ProseText,
        held: &HeldNow,
        stale: &StaleCopies,
        place: usize,
        event: Event,
    ) {
        let start = text.len();
        self.put_told(text, held, stale, place, event);
        self.put_label(text, start, place);
    }

    /// Puts the same, without the label.
    fn put_told(
        &self,
        text: &mut ProseText,
        held: &HeldNow,
        stale: &StaleCopies,
        place: usize,
        event: Event,
    ) {
        if let Some(reason) = self.lie_at(place) {
            self.put_lie(text, reason, place, event);
            return;
        }
        let start = text.len();
        self.put_reason(text, held, place, event);
        if let Kind::Fetch { records, .. } = event.kind {
            self.put_writers(text, place, records);
            return;
        }
        let dues = self.dues(place);
        if text.len() > start && !dues.is_empty() {
            text.put("; ");
        }
        let gone = GoneStaleCopies {
            processor: event.processor,
            dues,
            stale,
            is_cut: self.numbers.has_cut(),
        };
        gone.put(text);
    }

    /// The protocol's state at the event at this place, where that is told.
    pub fn state(&self, place: usize, event: Event) -> Option<ToldState<'_>> {
        match self.found.states.get(place) {
            Some(Some(state)) => Some(ToldState {
                event,
                processors: self.sizes.processors,
                pages: self.sizes.pages,
                words: self.sizes.words,
                is_cut: self.numbers.has_cut(),
                state,
            }),
            _ => None,
        }
    }

    /// Puts the same, without what is said of records.
    fn put_reason(&self, text: &mut ProseText, held: &HeldNow, place: usize, event: Event) {
        match event.kind {
            Kind::Load(address, _) => self.put_load(text, place, address),
            Kind::Fetch { records, words, .. } => put_fetch_note(text, records, words),
            Kind::Ask(lock) => put_ask_note(text, lock, held),
            Kind::Acquire(lock) => put_acquire_note(text, self.numbers, held.lock(lock).released),
            Kind::Watch(flag) => put_watch_note(text, self.numbers, flag, held.set(flag)),
            Kind::Await(flag) => self.put_await(text, place, held.set(flag)),
            Kind::Arrive => put_arrive_note(text, held.arrived(), event.processor),
            Kind::Depart => self.put_depart(text, place),
            _ => {}
        }
    }
}

/// Puts whose store it is that a load doesn't answer.
fn put_other_store_note(text: &mut ProseText, numbers: ProseNumbers, store: PastDeed) {
    text.put_number("; event ", numbers.of(store.place));
    text.put_number("'s store by p", store.processor);
}

/// Puts why the store isn't what a load answers that comes later and answers the one at `source`.
fn put_overwritten_note(
    text: &mut ProseText,
    numbers: ProseNumbers,
    store: PastDeed,
    is_ordered: bool,
    source: usize,
) {
    put_other_store_note(text, numbers, store);
    text.put(if is_ordered {
        " is overwritten by"
    } else {
        " is not ordered before"
    });
    text.put_number(" event ", numbers.of(source));
}

/// Puts whose event of this name lets one through, behind these words.
fn put_note_by(
    text: &mut ProseText,
    numbers: ProseNumbers,
    front: &str,
    deed: PastDeed,
    name: &str,
) {
    text.put_number(front, deed.processor);
    text.put("'s ");
    text.put(name);
    text.put_number(", event ", numbers.of(deed.place));
}

/// Puts what is said of an acquire of a lock that had this release.
fn put_acquire_note(text: &mut ProseText, numbers: ProseNumbers, released: Option<PastDeed>) {
    match released {
        Some(release) => put_note_by(text, numbers, "after p", release, "release"),
        None if numbers.has_cut() => text.put("nobody held it since the cut"),
        None => text.put("nobody held it before"),
    }
}

/// Puts what is said of an await of a flag that this set, of which its processor had heard.
fn put_awaited_note(text: &mut ProseText, numbers: ProseNumbers, set: Option<PastDeed>) {
    match set {
        Some(set) => put_note_by(text, numbers, "after p", set, "set"),
        None if numbers.has_cut() => text.put("it was set before the cut"),
        None => {}
    }
}

/// Puts what is said of a watch of a flag that this set.
fn put_watch_note(text: &mut ProseText, numbers: ProseNumbers, flag: usize, set: Option<PastDeed>) {
    if set.is_none() && !numbers.has_cut() {
        text.put_number("waits: nobody has set flag ", flag);
    }
}

/// How many records these are.
fn note_records_of(dues: &[Due]) -> usize {
    let mut records: usize = 0;
    for due in dues {
        records = records.saturating_add(due.records);
    }
    records
}

/// Puts what is said of a fetch.
fn put_fetch_note(text: &mut ProseText, records: u32, words: u32) {
    text.put_count(records as usize, "record");
    text.put(", ");
    text.put_count(words as usize, "word");
}

/// Puts what is said of an ask for the lock, before which this is held.
fn put_ask_note(text: &mut ProseText, lock: usize, held: &HeldNow) {
    if let Some(asker) = held.asker(lock) {
        text.put_number("waits: p", asker);
        text.put_number(" asked for lock ", lock);
        text.put(" before it");
    } else if let Some(holder) = held.lock(lock).holder {
        text.put_number("waits: p", holder);
        text.put_number(" holds lock ", lock);
    }
}

/// Puts what is said of an arrival of the processor, before which these had arrived.
fn put_arrive_note(text: &mut ProseText, arrived: &[bool], processor: usize) {
    let missing = MarkedProcessors {
        marks: arrived,
        mark: false,
        but: processor,
    };
    let count = missing.count();
    if count == 0 {
        return;
    }
    text.put("waits: ");
    missing.put(text);
    text.put(if count == 1 {
        " has not arrived"
    } else {
        " have not arrived"
    });
}
