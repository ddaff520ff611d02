//! What a picture tells.

ghost use Rattle.std.specs.Prelude.{◌<◌, IfSome};

use journal::{Event, Kind};

/// What a picture tells of a run's events and processors besides: what these lists lack isn't drawn.
#[derive(Clone, Copy)]
pub struct Details<'a> {
    /// For each event what is said of it, in words.
    pub notes: &'a [Vec<u8>],
    /// For each event the place of the store that it answers, where it is a load that answers one.
    pub reads: &'a [Option<usize>],
    /// For each event whether it is a load that misses a store before it.
    pub stale: &'a [bool],
    /// For each processor for what it waits where the run can't go on, in words; None where it waits for nothing.
    pub waits: &'a [Option<Vec<u8>>],
    /// For each processor the one other that could let it go on, where there is one.
    pub holders: &'a [Option<usize>],
}

/// Of what a picture is.
#[derive(Clone, Copy, PartialEq, Eq)]
pub enum Subject {
    /// A run of a script.
    Run,
    /// A trace that is faithful.
    FaithfulTrace,
    /// A trace up to its first lie, which is the last event.
    LyingTrace,
}

/// What a picture tells of a run or a trace.
#[derive(Clone, Copy)]
pub struct PictureStory<'a> {
    /// Of what it is.
    pub subject: Subject,
    /// The name of the file, where there is one; of a path only what stands behind its last `/` is shown.
    pub name: Option<&'a str>,
    /// How many processors there are, at most `judge::MOST_JUDGED_PROCESSORS`.
    pub processors: usize,
    /// The events in order.
    pub events: &'a [Event],
    /// For each event the places, counted from 0, of the other processors' events that let it through.
    pub incoming: &'a [Vec<usize>],
    /// The number of the first event: how many were cut off before it.
    pub first: u64,
    /// The places of the first race; None where there is none.
    pub race: Option<(usize, usize)>,
    /// Whether the run can't go on.
    pub halted: bool,
    /// What is told besides.
    pub details: Details<'a>,
}

impl PictureStory<'_> {
    /// The number of the event at this place.
    pub fn number(&self, place: usize) -> usize {
        match usize::try_from(self.first) {
            Ok(first) => first.saturating_add(place),
            Err(_) => place,
        }
    }

    /// What is said of the event at this place, in words; nothing where nothing is.
    pub fn note(&self, place: usize) -> &str {
        let details = self.details;
        match details.notes.get(place) {
            Some(note) => str::from_utf8(note.as_slice()).unwrap_or(""),
            None => "",
        }
    }

    /// Whether the event at this place is a load that misses a store.
    pub fn is_stale(&self, place: usize) -> bool {
        let stale = self.details.stale;
        match stale.get(place) {
            Some(is_stale) => *is_stale,
            None => false,
        }
    }

    /// The place of the store that the load at this place answers.
    pub fn read(&self, place: usize) -> Option<usize> {
        let reads = self.details.reads;
        match reads.get(place) {
            Some(read) => *read,
            None => None,
        }
    }

    /// Whether the event at this place is the trace's first lie.
    pub fn is_lie(&self, place: usize) -> bool {
        self.subject == Subject::LyingTrace && place.saturating_add(1) == self.events.len()
    }

    /// For what the processor waits, where the run can't go on, in words.
    pub fn wait(&self, processor: usize) -> Option<&str> {
        let details = self.details;
        match details.waits.get(processor) {
            Some(Some(wait)) => Some(str::from_utf8(wait.as_slice()).unwrap_or("")),
            _ => None,
        }
    }

    /// The one other processor that could let the processor go on, where there is one.
    pub fn holder(&self, processor: usize) -> Option<usize>
        ensures { IfSome result (λ holder. holder < self.now.processors) }
    {
        let holders = self.details.holders;
        match holders.get(processor) {
            Some(Some(holder)) if *holder < self.processors && *holder != processor => Some(
                *holder,
            ),
            _ => None,
        }
    }

    /// The last event of the processor.
    pub fn last(&self, processor: usize) -> Option<Kind> {
        let mut last = None;
        for event in self.events {
            if event.processor == processor {
                last = Some(event.kind);
            }
        }
        last
    }
}
