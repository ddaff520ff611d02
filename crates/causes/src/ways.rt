//! Ways from one event to another, along edges.
ghost use Rattle.std.specs.Prelude.{◌≡◌, ◌↔◌, ℕ, ◌<◌, IsSome, IsTrue, IfOk, IfSome, MatchOption, length};
ghost use Rattle.journal.specs.Pasts.{UpTo};
ghost use Rattle.journal.specs.Prelude.{Edge};
ghost use Rattle.judge.specs.Prelude.{most_judged_processors};
ghost use Rattle.causes.specs.Prelude.{ArePathWays, EdgeFromOther, PathEntryIfAny, IsNews, IsPathWay};

use crate::hand_over_lists::hand_overs_by;
use crate::reaching::Reach;
use journal::Event;
use judge::History;
use std::alloc::{AllocError, Global};

/// What is looked up of a history to find ways in it, as often as one likes. The memory is in the order of the events times the
/// processors.
#[derive(Drop)]
pub struct Ways {
    reach: Reach,
    /// Of each event, the last of the news.
    hand_overs: Vec<Vec<usize>>,
}

impl Ways {
    /// What is looked up of this history. It takes time as `hand_overs` does. The only error is running out of memory.
    pub fn new(alloc: Global, history: &History<'_>) -> Result<Ways, AllocError>
        ensures { IfOk result (ArePathWays history.now.events) }
    {
        let reach = Reach::new(alloc, history)?;
        let hand_overs = hand_overs_by(alloc, &reach, history)?;
        Ok(Ways { reach, hand_overs })
    }

    /// The processor's first event that the one at `from` is, or happens before; None where there is none. It takes time in
    /// the order of the logarithm of the events.
    pub fn first(&self, events: &[Event], from: usize, processor: usize) -> Option<usize>
        requires tells { ArePathWays events.now self.now }
        requires from { from < length events.now }
        requires processor { processor < most_judged_processors }
        ensures { PathEntryIfAny events.now from processor result }
    {
        self.reach.first(events, from, processor)
    }

    /// Whether the event at `from` is the one at this place, or happens before it.
    fn reaches(&self, events: &[Event], from: usize, place: usize) -> bool
        requires tells { ArePathWays events.now self.now }
        requires from { from < length events.now }
        requires place { place < length events.now }
        ensures { IsTrue result ↔ UpTo events.now place from }
    {
        self.reach.reaches(events, from, place)
    }

    /// Of the news of the event at this place, one that the event at `from` reaches.
    fn entrance(&self, events: &[Event], from: usize, place: usize) -> Option<usize>
        requires tells { ArePathWays events.now self.now }
        requires from { from < length events.now }
        requires place { place < length events.now }
        ensures { MatchOption result ((i : ℕ) → IsNews events.now i place → ¬ UpTo events.now i from)
            (λ i. EdgeFromOther events.now i place × UpTo events.now i from) }
    {
        for entrance in &self.hand_overs[place] {
            if self.reaches(events, from, *entrance) {
                return Some(*entrance);
            }
        }
        None
    }

    /// The place before the one at `to` on a way from `from`; None where they are one.
    fn step_back(&self, events: &[Event], from: usize, to: usize) -> Option<usize>
        requires tells { ArePathWays events.now self.now }
        requires from { from < length events.now }
        requires to { to < length events.now }
        requires reached { UpTo events.now to from }
        ensures { MatchOption result (to ≡ from) (λ i. Edge events.now i to × UpTo events.now i from) }
    {
        let first = self.first(events, from, events[to].processor)?;
        if first < to {
            return Some(first);
        }
        self.entrance(events, from, to)
    }

    /// The way from the event at `from` to the one at `to`, which it reaches.
    fn lead(
        &self,
        alloc: Global,
        events: &[Event],
        from: usize,
        to: usize,
    ) -> Result<Vec<usize>, AllocError>
        requires tells { ArePathWays events.now self.now }
        requires from { from < length events.now }
        requires to { to < length events.now }
        requires reached { UpTo events.now to from }
        ensures { IfOk result (λ v. IsPathWay events.now from to v.items) }
    {
        let Some(before) = self.step_back(events, from, to) else {
            return Ok(vec![in alloc; to]?);
        };
        let mut places = self.lead(alloc, events, from, before)?;
        places.push(to)?;
        Ok(places)
    }

    /// The places of a way from the event at `from` to the one at `to` of the history, of which each has an edge to the
    /// next; `from` alone where they are one. None where `from` is not `to` and doesn't happen before it. The only error is
    /// running out of memory.
    ///
    /// Of each processor the way has at most two events: the first that `from` reaches, and the one by which it leaves
    /// the processor. It takes time in the order of the square of the number of processors times the logarithm of the events'.
    pub fn way(
        &self,
        alloc: Global,
        events: &[Event],
        from: usize,
        to: usize,
    ) -> Result<Option<Vec<usize>>, AllocError>
        requires tells { ArePathWays events.now self.now }
        requires from { from < length events.now }
        requires to { to < length events.now }
        ensures found { IfOk result (λ o. IsSome o ↔ UpTo events.now to from) }
        ensures way { IfOk result (λ o. IfSome o (λ v. IsPathWay events.now from to v.items)) }
    {
        if !self.reaches(events, from, to) {
            return Ok(None);
        }
        let places = self.lead(alloc, events, from, to)?;
        Ok(Some(places))
    }
}
