//! Histories whose numbers are within their sizes.
ghost use Rattle.std.specs.Prelude.{◌≡◌, ◌↔◌, ◌≤◌, ◌*◌, IfOk, IfSome, IsSome, IsTrue, MatchOption, drop, length};
ghost use Rattle.base.specs.Prelude.{most_held};
ghost use Rattle.journal.specs.Sizes.{addresses};
ghost use Rattle.journal.specs.Prelude.{EventAddressesInRange, IsFirstRace, EventProcessorsInRange, RaceFree};
ghost use Rattle.judge.specs.Prelude.{AreStreamedSizes, IsHistoryInSizes, IsSizedHistoryOfJournal, IsHistoryOfSizes, IsSizedHistory};
ghost use Rattle.judge.specs.Prelude.{most_in_sized_history, most_judged_processors, judged_sizes_of, whole_sized_history};

use crate::nearest_races::NearestRaces;
use crate::sizes::Sizes;
use base::MOST_HELD;
use journal::{Event, Journal};
use std::alloc::{AllocError, Global};
use std::marker::Model;

/// A history of some sizes that are judged: events whose numbers are within them, and no more than a journal holds. It need not
/// be one that a cluster can make.
///
/// If events were cut off before it, an arrival of each processor stands in front for them.
///
/// Contracts see a `SizedHistory` (specs/SizedHistory). What is true of each is said by `events` and `sizes`, so that whoever is
/// handed a history need not ask for it.
#[derive(Drop)]
pub struct History<'a> {
    sizes: Sizes,
    /// How many events were cut off.
    cut: u64,
    /// How many arrivals in front stand for them.
    opening: usize,
    events: &'a [Event],
}

impl<'a> Model for History<'a> {
    ghost use Rattle.judge.specs.SizedHistory.{SizedHistory};

    ghost Value = { SizedHistory };

    ghost use Rattle.judge.specs.HistoryInvariant.{HistoryInvariant, history_invariant_seen};

    ghost view = { history_invariant_seen };

    ghost invariant = { HistoryInvariant };
}

/// Whether the numbers of each event are within the sizes, which are judged.
fn is_history_within(sizes: Sizes, events: &[Event]) -> bool
    requires { AreStreamedSizes (judged_sizes_of sizes) }
    ensures { IsTrue result ↔ IsHistoryInSizes (judged_sizes_of sizes) events.now }
{
    events.iter().all(|event| sizes.have_event(*event))
}

impl<'a> History<'a> {
    /// The history of these events, of which nothing was cut off. None if the sizes aren't judged, if the events are more
    /// than `MOST_HELD`, or if one of them names a number past the sizes; else there is one.
    pub fn new(sizes: Sizes, events: &'a [Event]) -> Option<History<'a>>
        ensures fits { IsSome result ↔ IsSizedHistory (whole_sized_history sizes events.now) }
        ensures value { IfSome result (λ h. h ≡ whole_sized_history sizes events.now) }
    {
        if !sizes.are_streamed() || events.len() > MOST_HELD || !is_history_within(sizes, events) {
            return None;
        }
        Some(History {
            sizes,
            cut: 0,
            opening: 0,
            events,
        })
    }

    /// The history that the journal has, with what stands for events that were cut off. None if the sizes aren't judged, or
    /// if it isn't one of them; else there is one.
    pub fn of_journal(sizes: Sizes, journal: &'a Journal) -> Option<History<'a>>
        ensures fits { IsSome result ↔ IsHistoryOfSizes (judged_sizes_of sizes) journal.now }
        ensures value { IfSome result (IsSizedHistoryOfJournal sizes journal.now) }
    {
        let events = journal.history();
        if !sizes.are_streamed() || !is_history_within(sizes, events) {
            return None;
        }
        Some(History {
            sizes,
            cut: journal.cut_events(),
            opening: events.len() - journal.len(),
            events,
        })
    }

    /// Its sizes.
    pub fn sizes(&self) -> Sizes
        ensures value { result ≡ self.now.sizes }
        ensures judged { AreStreamedSizes (judged_sizes_of result) }
    {
        self.sizes
    }

    /// How many addresses there are.
    pub fn addresses(&self) -> usize
        ensures { result ≡ addresses (judged_sizes_of self.now.sizes) }
    {
        self.sizes.pages * self.sizes.words
    }

    /// How many events were cut off before it.
    pub fn cut_events(&self) -> u64
        ensures { result ≡ self.now.cut }
    {
        self.cut
    }

    /// How many arrivals in front stand for what was cut off.
    pub fn opening(&self) -> usize
        ensures value { result ≡ self.now.opening }
        ensures within { result ≤ length self.now.events }
    {
        self.opening
    }

    /// The events in order, with the arrivals in front.
    pub fn events(&self) -> &'a [Event]
        ensures value { result.now ≡ self.now.events }
        ensures few { length result.now ≤ most_in_sized_history }
        ensures few_processors { self.now.sizes.processors ≤ most_judged_processors }
        ensures within { IsHistoryInSizes (judged_sizes_of self.now.sizes) result.now }
        ensures processors { EventProcessorsInRange self.now.sizes.processors result.now }
        ensures addresses { EventAddressesInRange (addresses (judged_sizes_of self.now.sizes)) result.now }
    {
        self.events
    }

    /// The events that are left, without the arrivals in front.
    pub fn left(&self) -> &'a [Event]
        ensures value { result.now ≡ drop self.now.opening self.now.events }
        ensures few { length result.now ≤ most_held }
        ensures few_processors { self.now.sizes.processors ≤ most_judged_processors }
        ensures processors { EventProcessorsInRange self.now.sizes.processors result.now }
    {
        let events = self.events;
        &events[self.opening..]
    }

    /// The first race: the pair with the least second place and, among these, the least first one; None if there is none. The only
    /// error is running out of memory.
    ///
    /// An access takes time in the order of the processors. It takes memory as `NearestRaces` does.
    pub fn first_race(&self, alloc: Global) -> Result<Option<(usize, usize)>, AllocError>
        ensures { IfOk result (λ o. MatchOption o (RaceFree self.now.events)
            (λ r. IsFirstRace self.now.events r.0 r.1)) }
    {
        let events = self.events();
        let mut races = NearestRaces::new(alloc, self.sizes.processors, self.addresses())?;
        for place in 0..events.len() {
            let event = events[place];
            if let Some(first) = races.first(&events[..place], event) {
                return Ok(Some((first, place)));
            }
            races.note(event)?;
        }
        Ok(None)
    }
}
