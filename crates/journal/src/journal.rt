//! The journal: a list of events with room for more.
ghost use Rattle.std.specs.Prelude.{drop, vec_len, vec_capacity, ◌+◌, ◌≡◌, ◌-◌, ◌^◌, ◌<◌, ◌≤◌, ◌++◌, ◌∷◌, [], ◌↔◌};
ghost use Rattle.std.specs.Prelude.{IfOk, IfErr, OnOk, OnErr, IfSome, IsSome, IsTrue, MatchOption, length, replicate};
ghost use Rattle.std.specs.Prelude.{◌==◌, cond, max, option_copied, slice_get, take};
ghost use Rattle.base.specs.Prelude.{most_held, most_processors, most_cut};
ghost use Rattle.journal.specs.Prelude.{EventAddressInRange, EventAddressesInRange, new_log, ExplainedFromBase, Replays};
ghost use Rattle.journal.specs.Prelude.{memory_after, RaceFreeFromBase, IsFirstRaceFromBase, JournalWasCut, IsJournalCutRefusal, messages};
ghost use Rattle.journal.specs.Prelude.{records, words, IsOpening, IsEpisodeBaseFront, NoEpisodeBaseFront, IsKeptBaseState, base_of_kept_state};
ghost use Rattle.journal.specs.Prelude.{IsJournalHistory, journal_history_arrivals};

use crate::base_state::KeptBaseState;
use crate::cut::CutFault;
use crate::episodes::Episodes;
use crate::event::{Event, Kind};
use crate::race_epochs::first_race_of;
use crate::replay::replay_of;
use crate::traffic::{Traffic, traffic_after};
use base::MOST_CUT;
use std::alloc::{AllocError, Global};
use std::marker::Model;

/// The events of a cluster in the order in which they were handed in, at most `MOST_HELD` of them.
///
/// Contracts see it as a `Log`: the number of processors and of addresses, the events, and the room,
/// which is for how many more events memory is reserved.
#[derive(Drop)]
pub struct Journal {
    processors: usize,
    addresses: usize,
    /// An arrival of each processor, which stands for what was cut off, and then the events.
    events: Vec<Event>,
    room: usize,
    kept: KeptBaseState,
    /// What of the barrier stands behind the arrivals that stand for what was cut off.
    episodes: Episodes,
    /// The first race of the part that a cut was to cut off. A longer part has the same one.
    race: Option<(usize, usize)>,
}

impl Model for Journal {
    ghost use Rattle.journal.specs.Log.{Log};

    ghost Value = { Log };

    ghost use Rattle.journal.specs.JournalInvariant.{journal_invariant_log, JournalInvariant};

    ghost view = { journal_invariant_log };

    ghost invariant = { JournalInvariant };
}

/// An arrival of each processor. The only error is running out of memory.
fn journal_opening(alloc: Global, processors: usize) -> Result<Vec<Event>, AllocError>
    ensures { IfOk result (λ v. IsOpening processors v.items) }
{
    let mut events = Vec::new(alloc);
    for processor in 0..processors {
        let kind = Kind::Arrive;
        events.push(Event { processor, kind })?;
    }
    Ok(events)
}

/// Takes `count` events out from this place on.
fn remove_from_journal(events: &mut Vec<Event>, place: usize, count: usize)
    requires { place + count ≤ vec_len events.old }
    ensures items { events.new.items ≡ take place events.old.items
        ++ drop (place + count) events.old.items }
    ensures len { vec_len events.new + count ≡ vec_len events.old }
    ensures capacity { vec_capacity events.new ≡ vec_capacity events.old }
{
    let rest = &mut events[place..];
    rest.rotate_left(count);
    let len = events.len() - count;
    events.truncate(len);
}

impl Journal {
    /// An empty journal of a cluster of `processors` processors, at most `MOST_PROCESSORS`, and
    /// `addresses` addresses.
    /// The only error is running out of memory.
    pub fn new(alloc: Global, processors: usize, addresses: usize) -> Result<Journal, AllocError>
        requires { processors ≤ most_processors }
        ensures { IfOk result (λ j. j ≡ new_log processors addresses) }
    {
        Ok(Journal {
            processors,
            addresses,
            events: journal_opening(alloc, processors)?,
            room: 0,
            kept: KeptBaseState::new(alloc, addresses)?,
            episodes: Episodes::new(),
            race: None,
        })
    }

    /// How many events it has, at most `MOST_HELD`. What was cut off doesn't count.
    pub fn len(&self) -> usize
        ensures value { result ≡ length self.now.events }
        ensures limit { result ≤ most_held }
    {
        self.events.len() - self.processors
    }

    /// Whether it has no event.
    pub fn is_empty(&self) -> bool
        ensures { IsTrue result ↔ (length self.now.events ≡ 0) }
    {
        self.len() == 0
    }

    /// The event at place `i`, counted from 0; None past the end.
    pub fn at(&self, i: usize) -> Option<&Event>
        ensures { option_copied result ≡ slice_get self.now.events i }
    {
        let events = self.events();
        events.get(i)
    }

    /// The events in order. Their addresses are in range.
    pub fn events(&self) -> &[Event]
        ensures value { result.now ≡ self.now.events }
        ensures in_range { EventAddressesInRange self.now.addresses result.now }
    {
        let events = &self.events;
        &events[self.processors..]
    }

    /// Where the history begins: behind the arrivals of all processors if nothing was cut off, since then nobody has
    /// arrived before.
    fn first(&self) -> usize
        ensures value { result ≡ cond (self.now.base.cut == 0) self.now.processors 0 }
        ensures limit { result ≤ self.now.processors }
    {
        if self.kept.cut == 0 {
            self.processors
        } else {
            0
        }
    }

    /// The events in order, behind an arrival of each processor if something was cut off: these stand for it, since each
    /// processor had arrived and none gone on. It takes no memory.
    pub fn history(&self) -> &[Event]
        ensures value { IsJournalHistory self.now result.now }
        ensures few { journal_history_arrivals self.now ≤ most_processors }
    {
        let first = self.first();
        let events = &self.events;
        &events[first..]
    }

    /// The words of the memory after the events that were cut off; zeros if nothing was. It takes no
    /// memory.
    pub fn base(&self) -> &[u32]
        ensures { result.now ≡ self.now.base.memory }
    {
        let memory = &self.kept.memory;
        memory.as_slice()
    }

    /// How many events were cut off, in all cuts together, at most `MOST_CUT`. It takes no memory.
    pub fn cut_events(&self) -> u64
        ensures value { result ≡ self.now.base.cut }
        ensures limit { result ≤ most_cut }
    {
        self.kept.cut
    }

    /// Makes room for `additional` more events. If memory is refused, all is as before; it never is
    /// if there is room already.
    pub fn reserve(&mut self, additional: usize) -> Result<(), AllocError>
        ensures ok { OnOk result (self.new
            ≡ record self.old { room = max self.old.room additional }) }
        ensures err { OnErr result (self.new ≡ self.old) }
        ensures refused { OnErr result (self.old.room < additional) }
    {
        if additional > self.room {
            self.events.reserve(additional)?;
            self.room = additional;
        }
        Ok(())
    }

    /// Puts the event at the end. It takes no memory, since room is a condition.
    pub fn append(&mut self, event: Event)
        requires room { 0 < self.old.room }
        requires limit { length self.old.events < most_held }
        requires processor { event.processor < self.old.processors }
        requires address { EventAddressInRange self.old.addresses event.kind }
        ensures { self.new ≡ record self.old
            { events = self.old.events ++ event ∷ []; room = self.old.room - 1 } }
    {
        let Ok(()) = self.events.push(event) else {
            unreachable!("room is reserved")
        };
        self.room -= 1;
        let events = &self.events[self.processors..];
        let place = events.len() - 1;
        self.episodes.note(self.processors, events, place);
    }

    /// The same events in a journal of their own, with no room for more, and with what is kept of those cut
    /// off. The only error is running out of memory.
    pub fn copy(&self) -> Result<Journal, AllocError>
        ensures { IfOk result (λ j. j ≡ record self.now { room = 0 }) }
    {
        self.copy_with_room(0)
    }

    /// The same in a journal of its own, with room for `additional` more events, by one allocation for them.
    /// The only error is running out of memory.
    pub fn copy_with_room(&self, additional: usize) -> Result<Journal, AllocError>
        ensures { IfOk result (λ j. j ≡ record self.now { room = additional }) }
    {
        let len = self.events.len();
        let capacity = len.checked_add(additional).ok_or(AllocError)?;
        let mut events = Vec::with_capacity(*self.events.allocator(), capacity)?;
        let Ok(()) = events.extend_from_slice(&self.events) else {
            unreachable!("room is reserved")
        };
        Ok(Journal {
            processors: self.processors,
            addresses: self.addresses,
            events,
            room: additional,
            kept: self.kept.copy()?,
            episodes: self.episodes,
            race: self.race,
        })
    }

    /// Does the events to one flat memory in the journal's order, from the base: None if some load's
    /// reply isn't its word at that place, else the words at the end. The only error is running out of memory.
    pub fn replay(&self) -> Result<Option<Vec<u32>>, AllocError>
        ensures replays { IfOk result (λ o. IsSome o ↔ Replays self.now.base.memory self.now.events) }
        ensures memory { IfOk result (λ o. IfSome o
            (λ v. v.items ≡ memory_after self.now.base.memory self.now.events)) }
        ensures flat { IfOk result (λ o. ExplainedFromBase self.now.base self.now.events
            → RaceFreeFromBase self.now.base self.now.events → IsSome o) }
    {
        replay_of(*self.events.allocator(), self.base(), self.events())
    }

    /// The first race of the first `count` events.
    fn race_before(&self, count: usize) -> Result<Option<(usize, usize)>, AllocError>
        requires { count ≤ length self.now.events }
        ensures race { IfOk result (λ o. MatchOption o
            (RaceFreeFromBase self.now.base (take count self.now.events))
            (λ r. IsFirstRaceFromBase self.now.base (take count self.now.events) r.0 r.1)) }
        ensures in_range { EventAddressesInRange (length self.now.base.memory) self.now.events }
    {
        let first = self.first();
        let arrived = self.processors - first;
        let events = &self.events[first..self.processors + count];
        match first_race_of(
            *self.events.allocator(),
            self.processors,
            self.addresses,
            events,
        )? {
            Some((first, second)) => Ok(Some((first - arrived, second - arrived))),
            None => Ok(None),
        }
    }

    /// The first race of the events that are left: None if there is none, else the pair with the least
    /// second place and, among these, the least first one. The only error is running out of memory.
    ///
    /// Two accesses of one address race if one of them is a store, two processors make them, and
    /// neither happens before the other (Adve and Hill 1990).
    pub fn first_race(&self) -> Result<Option<(usize, usize)>, AllocError>
        ensures first { IfOk result (λ o. MatchOption o (RaceFreeFromBase self.now.base self.now.events)
            (λ r. IsFirstRaceFromBase self.now.base self.now.events r.0 r.1)) }
        ensures flat { IfOk result (λ o. IfSome o
            (λ r. ExplainedFromBase self.now.base self.now.events
            → Replays self.now.base.memory (take r.1 self.now.events))) }
    {
        self.race_before(self.len())
    }

    /// What all events cost, those cut off too. It takes no memory.
    pub fn traffic(&self) -> Traffic
        ensures messages { result.messages
            ≡ self.now.base.spent.messages + messages self.now.events }
        ensures records { result.records ≡ self.now.base.spent.records + records self.now.events }
        ensures words { result.words ≡ self.now.base.spent.words + words self.now.events }
    {
        traffic_after(self.kept.spent, self.events())
    }

    /// How many events a cut takes: None if no episode is complete. It takes no memory.
    fn part(&self) -> Option<usize>
        ensures place { MatchOption result (NoEpisodeBaseFront self.now.processors self.now.events)
            (λ n. IsEpisodeBaseFront self.now.processors self.now.events n) }
        ensures few { IfSome result (λ n. n ≤ most_held) }
    {
        self.episodes.last
    }

    /// The first race of the part that a cut takes, which is remembered.
    fn race_of_part(&mut self, count: usize) -> Result<Option<(usize, usize)>, AllocError>
        requires { IsEpisodeBaseFront self.old.processors self.old.events count }
        ensures same { self.new ≡ self.old }
        ensures race { IfOk result (λ o. MatchOption o
            (RaceFreeFromBase self.new.base (take count self.new.events))
            (λ r. IsFirstRaceFromBase self.new.base (take count self.new.events) r.0 r.1)) }
    {
        if let Some(race) = self.race {
            return Ok(Some(race));
        }
        let race = self.race_before(count)?;
        self.race = race;
        Ok(race)
    }

    /// Takes the first events off, of which this is kept.
    fn take_off(&mut self, taken: usize, kept: KeptBaseState)
        requires taken { taken ≤ length self.old.events }
        requires kept { IsKeptBaseState self.old.addresses kept }
        ensures { self.new ≡ record self.old { events = drop taken self.old.events; base = base_of_kept_state kept } }
    {
        remove_from_journal(&mut self.events, self.processors, taken);
        self.kept = kept;
        self.episodes = Episodes::of(self.processors, &self.events[self.processors..]);
        self.race = None;
    }

    /// Cuts off the events up to the last arrival of the last complete episode of the barrier, if they
    /// have no race, and keeps what they leave: the memory, the locks' holders, the flags that are set,
    /// their number and their cost.
    ///
    /// `Racy` names the first race of the part to be cut off. It comes after `NoEpisode` and `BaseFull`, as
    /// `NoMemory` does. After an error all is as before. What is cut off is gone through once for the race
    /// and once for what is kept; a lock's event looks through the locks that are held. `NoEpisode` and
    /// `BaseFull` take constant time, and so does `Racy` from the second time on.
    pub fn cut(&mut self) -> Result<(), CutFault>
        ensures ok { OnOk result (JournalWasCut self.old self.new) }
        ensures err { OnErr result (self.new ≡ self.old) }
        ensures fault { IfErr result (IsJournalCutRefusal self.old) }
    {
        let taken = self.part().ok_or(CutFault::NoEpisode)?;
        if self.cut_events() + taken as u64 > MOST_CUT {
            return Err(CutFault::BaseFull);
        }
        if let Some((first, second)) = self.race_of_part(taken)? {
            return Err(CutFault::Racy(first, second));
        }
        let kept = self.kept.after(&self.events()[..taken])?;
        self.take_off(taken, kept);
        Ok(())
    }
}
