//! Episodes of the barrier.
ghost use Rattle.std.specs.Prelude.{ℕ, ◌≡◌, ◌≤◌, ◌<◌, ◌+◌, ◌↔◌, IsTrue, Some, List, [], length, replicate, slice_get};
ghost use Rattle.std.specs.Prelude.{count_by};
ghost use Rattle.std.specs.List.{list_all};
ghost use Rattle.base.specs.Prelude.{most_processors};
ghost use Rattle.vtime.specs.TicksAndJoins.{join};
ghost use Rattle.barrier.specs.BarrierEpisodes.{unmet_barrier_episodes, is_here_for_barrier_episode, barrier_episode_full, barrier_episode_with_one_more, barrier_episode_arrived, barrier_episode_departed, HasGatheredForBarrierEpisode, GathersForBarrierEpisode};

use base::MOST_PROCESSORS;
use smallvec::SmallVec;
use std::alloc::Global;
use std::marker::Model;
use std::mem;
use vtime::VTime;

/// Where a processor is.
#[derive(Clone, Copy, Debug, Default, PartialEq, Eq)]
pub enum Stage {
    /// It has never arrived, or has departed since.
    #[default]
    Away,
    /// It has arrived for the open episode.
    Here,
    /// The episode that it arrived for is complete, and it may depart.
    Free,
}

/// The barrier of all processors of a cluster.
///
/// An episode is complete when every processor has arrived. Then each may depart with the join of
/// the arrivals' timestamps (Keleher, Cox and Zwaenepoel 1992, section 3), and may arrive for the
/// next episode while others are still to depart. No call takes memory.
#[derive(Drop)]
pub struct Barrier {
    stages: SmallVec<Stage, MOST_PROCESSORS>,
    gathered: VTime,
    last: VTime,
}

impl Model for Barrier {
    ghost use Rattle.std.specs.Prelude.{◌≡◌, ◌≤◌, length};
    ghost use Rattle.base.specs.Limits.{most_processors};
    ghost use Rattle.barrier.specs.BarrierEpisodes.{BarrierEpisodes};

    ghost Value = { BarrierEpisodes };

    ghost view = { λ b. record { stages = b.stages.items; gathered = b.gathered; last = b.last } };

    ghost invariant = { λ b.
        let processors = length b.stages.items in
        (1 ≤ processors) × (processors ≤ most_processors)
        × (length b.gathered ≡ processors) × (length b.last ≡ processors) };
}

impl Barrier {
    /// The barrier of `processors` processors (1 to `MOST_PROCESSORS`), none of which has arrived.
    pub fn new(alloc: Global, processors: usize) -> Self
        requires some { 1 ≤ processors }
        requires most { processors ≤ most_processors }
        ensures value { result ≡ unmet_barrier_episodes processors }
        ensures gathers { HasGatheredForBarrierEpisode result [] }
    {
        Barrier {
            stages: SmallVec::from_elem(alloc, Stage::Away, processors).unwrap(),
            gathered: VTime::zero(alloc, processors),
            last: VTime::zero(alloc, processors),
        }
    }

    /// Lets a processor arrive with its timestamp, and answers whether the episode is complete now:
    /// exactly if all others had arrived before.
    pub fn arrive(&mut self, processor: usize, time: &VTime) -> bool
        requires away { slice_get self.old.stages processor ≡ Some Stage.Away }
        requires long { length time.now ≡ length self.old.stages }
        ensures barrier { self.new ≡ barrier_episode_arrived self.old processor time.now }
        ensures complete { IsTrue result ↔
            (count_by is_here_for_barrier_episode self.old.stages + 1 ≡ length self.old.stages) }
        ensures full { result ≡ barrier_episode_full (barrier_episode_with_one_more self.old processor time.now) }
        ensures same_length { length self.new.stages ≡ length self.old.stages }

        // Whichever arrivals led here, the time of a complete episode is the join of them all.
        ensures gathers { (times : List (List ℕ)) →
            HasGatheredForBarrierEpisode self.old times →
            GathersForBarrierEpisode result self.new time.now times }
    {
        self.stages[processor] = Stage::Here;
        self.gathered.join(time);
        let full = barrier_all_here(self.stages.as_slice());
        if full {
            mem::swap(&mut self.last, &mut self.gathered);
            self.gathered.clear();
            self.stages.as_mut_slice().fill(Stage::Free);
        }
        full
    }

    /// Whether the arrival of a processor that is away would complete the episode: `arrive` would
    /// answer the same, at whatever time.
    pub fn completes(&self, processor: usize) -> bool
        requires { slice_get self.now.stages processor ≡ Some Stage.Away }
        ensures complete { IsTrue result ↔
            (count_by is_here_for_barrier_episode self.now.stages + 1 ≡ length self.now.stages) }
        ensures full { (time : List ℕ) → result ≡ barrier_episode_full (barrier_episode_with_one_more self.now processor time) }
    {
        count_here(self.stages.as_slice()) + 1 == self.stages.len()
    }

    /// The time that the open episode would have if an arrival at the time `own` were its last: the join of
    /// its arrivals so far and `own`.
    pub fn time_with(&self, own: &VTime) -> VTime
        requires { length own.now ≡ length self.now.stages }
        ensures value { result ≡ join self.now.gathered own.now }
        ensures long { length result ≡ length self.now.stages }
    {
        let mut time = self.gathered.copy();
        time.join(own);
        time
    }

    /// Where a processor is.
    pub fn stage(&self, processor: usize) -> Stage
        requires { processor < length self.now.stages }
        ensures { slice_get self.now.stages processor ≡ Some result }
    {
        self.stages[processor]
    }

    /// Whether a processor has arrived and not departed since, and its episode is complete.
    pub fn ready(&self, processor: usize) -> bool
        requires { processor < length self.now.stages }
        ensures { IsTrue result ↔ (slice_get self.now.stages processor ≡ Some Stage.Free) }
    {
        self.stage(processor) == Stage::Free
    }

    /// The join of the last complete episode's arrivals: zero before the first.
    pub fn time(&self) -> &VTime
        ensures value { result.now ≡ self.now.last }
        ensures long { length result.now ≡ length self.now.stages }
    {
        &self.last
    }

    /// Lets a processor that is ready depart.
    pub fn depart(&mut self, processor: usize)
        requires { slice_get self.old.stages processor ≡ Some Stage.Free }
        ensures barrier { self.new ≡ barrier_episode_departed self.old processor }
        ensures gathers { (times : List (List ℕ)) → HasGatheredForBarrierEpisode self.old times
            → HasGatheredForBarrierEpisode self.new times }
    {
        self.stages[processor] = Stage::Away;
    }
}

fn count_here(stages: &[Stage]) -> usize
    ensures { result ≡ count_by is_here_for_barrier_episode stages.now }
{
    stages.iter().filter(|stage| **stage == Stage::Here).count()
}

fn barrier_all_here(stages: &[Stage]) -> bool
    ensures { result ≡ list_all is_here_for_barrier_episode stages.now }
{
    stages.iter().all(|stage| *stage == Stage::Here)
}
