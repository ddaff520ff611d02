//! Where a journal is cut: at the last arrival of its last complete episode.
ghost use Rattle.std.specs.Prelude.{◌≡◌, ◌↔◌, ℕ, ◌+◌, ◌<◌, ◌≤◌, ◌^◌, ◌==◌, ◌&&◌, [], IsTrue, EachIndex, MatchOption};
ghost use Rattle.std.specs.Prelude.{cond, length, slice_index, take};
ghost use Rattle.base.specs.Prelude.{most_held, most_processors};
ghost use Rattle.journal.specs.Prelude.{event_arrives, EventProcessorsInRange, AreCutEpisodes};

use crate::event::Event;
use crate::event_kinds::event_kind_arrives;
use base::MOST_PROCESSORS;

/// The episodes of the barrier in a journal's events.
#[derive(Clone, Copy)]
pub(crate) struct Episodes {
    /// How often each processor has arrived.
    arrivals: [u32; MOST_PROCESSORS],
    /// How many events there are up to the last arrival of the last complete episode; None if no episode is
    /// complete.
    pub(crate) last: Option<usize>,
}

/// Whether each of the counts reaches this number.
fn all_arrived_at_episode(counts: &[u32], number: u32) -> bool
    ensures { IsTrue result ↔ EachIndex counts.now (λ k. number ≤ slice_index counts.now k) }
{
    counts.iter().all(|count| *count >= number)
}

/// Counts the event if it is an arrival, and says whether it is the last one of its episode: whether
/// every processor has arrived as often as the one that arrives.
#[inline]
fn completes_episode(arrivals: &mut [u32; MOST_PROCESSORS], processors: usize, event: Event) -> bool
    requires few { processors ≤ most_processors }
    requires processor { event.processor < processors }
    requires room { slice_index arrivals.old event.processor < 2 ^ 22 }
    ensures counts { (q : ℕ) → slice_index arrivals.new q
        ≡ slice_index arrivals.old q + cond ((event.processor == q) && event_arrives event.kind) 1 0 }
    ensures ends { IsTrue result ↔ (IsTrue (event_arrives event.kind)
        × ((q : ℕ) → q < processors → slice_index arrivals.new event.processor
        ≤ slice_index arrivals.new q)) }
{
    if !event_kind_arrives(event.kind) {
        return false;
    }
    arrivals[event.processor] += 1;
    let mine = arrivals[event.processor];
    all_arrived_at_episode(&arrivals[..processors], mine)
}

impl Episodes {
    /// Before the first event.
    pub(crate) fn new() -> Episodes
        ensures { (processors : ℕ) → AreCutEpisodes processors [] result }
    {
        Episodes {
            arrivals: [0; MOST_PROCESSORS],
            last: None,
        }
    }

    /// Takes note of the event at this place, the next one.
    #[inline]
    pub(crate) fn note(&mut self, processors: usize, events: &[Event], place: usize)
        requires place { place < length events.now }
        requires few { length events.now ≤ most_held }
        requires few_processors { processors ≤ most_processors }
        requires processors { EventProcessorsInRange processors events.now }
        requires so_far { AreCutEpisodes processors (take place events.now) self.old }
        ensures { AreCutEpisodes processors (take (place + 1) events.now) self.new }
    {
        if completes_episode(&mut self.arrivals, processors, events[place]) {
            self.last = Some(place + 1);
        }
    }

    /// Those of these events.
    pub(crate) fn of(processors: usize, events: &[Event]) -> Episodes
        requires few { length events.now ≤ most_held }
        requires few_processors { processors ≤ most_processors }
        requires processors { EventProcessorsInRange processors events.now }
        ensures { AreCutEpisodes processors events.now result }
    {
        let mut episodes = Episodes::new();
        for place in 0..events.len() {
            episodes.note(processors, events, place);
        }
        episodes
    }
}
