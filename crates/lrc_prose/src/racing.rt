//! A race, in sentences: its accesses, what keeps them apart, and what would have ordered them.

use crate::label::put_prose_label;
use crate::numbers::ProseNumbers;
use crate::text::ProseText;
use causes::RaceApart;
use journal::{Event, Kind};

/// A race of a history with these events, and what keeps its accesses apart.
#[derive(Clone, Copy)]
pub struct RaceProse<'a> {
    pub numbers: ProseNumbers,
    pub events: &'a [Event],
    pub apart: &'a RaceApart,
}

/// An event with its number.
#[derive(Clone, Copy)]
struct RaceProseEvent {
    number: u64,
    event: Event,
}

impl RaceProseEvent {
    /// Puts its number, who made it, and what it did.
    fn put(self, text: &mut ProseText) {
        text.put_number("event ", self.number);
        text.put_number(" (p", self.event.processor);
        text.put(": ");
        put_prose_label(text, self.event.kind);
        text.put(")");
    }
}

impl RaceProse<'_> {
    /// The event at this place.
    fn numbered(&self, place: usize) -> Option<RaceProseEvent> {
        let event = self.events.get(place)?;
        Some(RaceProseEvent {
            number: self.numbers.of(place),
            event: *event,
        })
    }

    /// The last event of the first processor that the second one had heard of; None where it is none that is told.
    fn heard(&self) -> Option<RaceProseEvent> {
        let place = self.apart.heard?;
        if self.numbers.is_cut(place) {
            return None;
        }
        self.numbered(place)
    }

    /// Puts what the second processor had heard of the first one's.
    fn put_heard(&self, text: &mut ProseText, first: usize, second: usize) {
        text.put_number("p", second);
        if self.apart.heard.is_none() {
            text.put_number(" had heard nothing of p", first);
            text.put(".");
            return;
        }
        text.put_number(" had last heard of p", first);
        match self.heard() {
            Some(heard) => {
                text.put_number("'s event ", heard.number);
                text.put(" (");
                put_prose_label(text, heard.event.kind);
                text.put(").");
            }
            None => text.put(" before the cut."),
        }
    }

    /// Puts the value that the second access missed, where it is a load of another word than the first one stored before it.
    fn put_missed(
        &self,
        text: &mut ProseText,
        indent: usize,
        first: RaceProseEvent,
        second: RaceProseEvent,
    ) {
        let (Kind::Store(_, stored), Kind::Load(_, answered)) = (
            first.event.kind,
            second.event.kind,
        ) else {
            return;
        };
        if stored != answered {
            begin_race_prose_line(text, indent);
            text.put("Stale: ");
            put_prose_label(text, second.event.kind);
            text.put_number(", though event ", first.number);
            text.put_number(" had stored ", stored);
            text.put(".");
            text.end_line();
        }
    }

    /// Puts that the two hold no lock in common, and which ones each holds.
    fn put_no_lock(&self, text: &mut ProseText, first: usize, second: usize) {
        text.put("No lock in common");
        if self.numbers.has_cut() {
            text.put(" since the cut");
        }
        text.put_number(": p", first);
        put_race_prose_locks(text, &self.apart.first_locks);
        text.put_number(", p", second);
        put_race_prose_locks(text, &self.apart.second_locks);
        text.put(".");
    }

    /// Whether somebody has set, watched or awaited a flag before this place, as far as that is told.
    fn has_flags(&self, before: usize) -> bool {
        for place in self.numbers.opening..before {
            let Some(event) = self.events.get(place) else {
                return false;
            };
            if let Kind::Set(_) | Kind::Watch(_) | Kind::Await(_) = event.kind {
                return true;
            }
        }
        false
    }

    /// The last flag that the processor of this access has awaited before it, and the number of that event, if it is told.
    fn awaited(&self, access: usize) -> Option<(usize, u64)> {
        let by = self.events.get(access)?.processor;
        let mut last = None;
        for place in self.numbers.opening..access {
            let event = self.events.get(place)?;
            if let Kind::Await(flag) = event.kind
                && event.processor == by
            {
                last = Some((flag, self.numbers.of(place)));
            }
        }
        last
    }

    /// Puts which flag the processor of this access has awaited last.
    fn put_awaited(&self, text: &mut ProseText, access: usize) {
        match self.awaited(access) {
            Some((flag, number)) => {
                text.put_number(" had last awaited flag ", flag);
                text.put_number(" (event ", number);
                text.put(")");
            }
            None => text.put(" had awaited none"),
        }
    }

    /// Puts, if there are flags, which of them the two have awaited: a lock may be made of flags, and is none of the locks that
    /// are told.
    fn put_flags(&self, text: &mut ProseText, indent: usize, first: usize, second: usize) {
        if !self.has_flags(self.apart.second) {
            return;
        }
        begin_race_prose_line(text, indent);
        text.put("Flags aren't among these locks");
        text.put(if self.numbers.has_cut() {
            "; since the cut"
        } else {
            ":"
        });
        text.put_number(" p", first);
        self.put_awaited(text, self.apart.first);
        text.put_number(", p", second);
        self.put_awaited(text, self.apart.second);
        text.put(".");
        text.end_line();
    }

    /// Puts what would have ordered the two.
    fn put_remedy(&self, text: &mut ProseText, first: RaceProseEvent, second: RaceProseEvent) {
        text.put("What would order them: one lock round both, a barrier between them,");
        text.put_number(" or a flag that p", first.event.processor);
        text.put_number(" sets after event ", first.number);
        text.put_number(" and p", second.event.processor);
        text.put_number(" awaits before event ", second.number);
        text.put(".");
    }

    /// The two accesses; None where the history doesn't have them.
    fn accesses(&self) -> Option<(RaceProseEvent, RaceProseEvent)> {
        let first = self.numbered(self.apart.first)?;
        let second = self.numbered(self.apart.second)?;
        Some((first, second))
    }

    /// Puts what keeps the two apart and what would have ordered them: sentences, each in lines of its own behind so many
    /// spaces.
    pub fn put_reasons(&self, text: &mut ProseText, indent: usize) {
        let Some((first, second)) = self.accesses() else {
            return;
        };
        begin_race_prose_line(text, indent);
        text.put("Neither happens before the other.");
        text.end_line();
        begin_race_prose_line(text, indent);
        self.put_heard(text, first.event.processor, second.event.processor);
        text.end_line();
        self.put_missed(text, indent, first, second);
        begin_race_prose_line(text, indent);
        self.put_no_lock(text, first.event.processor, second.event.processor);
        text.end_line();
        self.put_flags(text, indent, first.event.processor, second.event.processor);
        begin_race_prose_line(text, indent);
        self.put_remedy(text, first, second);
        text.end_line();
    }

    /// Puts which two accesses race, and the sentences of `put_reasons`.
    pub fn put(&self, text: &mut ProseText) {
        if let Some((first, second)) = self.accesses() {
            put_race_prose_accesses(text, first, second);
        }
        self.put_reasons(text, 0);
    }
}

/// Puts which two accesses race.
fn put_race_prose_accesses(text: &mut ProseText, first: RaceProseEvent, second: RaceProseEvent) {
    if let Kind::Load(address, _) | Kind::Store(address, _) = first.event.kind {
        first.put(text);
        text.put(" and ");
        second.put(text);
        text.put_number(" race at address ", address);
        text.put(".");
        text.end_line();
    }
}

/// Begins a line behind so many spaces. What doesn't fit goes on in the next line, behind as many.
fn begin_race_prose_line(text: &mut ProseText, indent: usize) {
    text.leave(indent);
    text.break_from_here();
}

/// Puts which locks a processor held.
fn put_race_prose_locks(text: &mut ProseText, locks: &[usize]) {
    let mut front = " held ";
    for lock in locks {
        text.put_number(front, *lock);
        front = ", ";
    }
    if locks.is_empty() {
        text.put(" held none");
    }
}
