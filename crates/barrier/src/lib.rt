//! The barrier: episodes at which all processors meet, and the join of their timestamps.
//!
//! - Contracts see a `Barrier` as `BarrierEpisodes` (where each processor is, the join so far, the last one), and
//!   speak of it by `barrier_episode_arrived`, `barrier_episode_departed` and `HasGatheredForBarrierEpisode` (specs/BarrierEpisodes).
//! - Proved: each call is what these words say; an episode is complete exactly at the last arrival, and its
//!   time is the join of all its arrivals; `completes` and `time_with` are what an arrival would make.
//! - Only tested: nothing. That no call takes memory is read off the code.
#![tactic(auto)]

mod barrier;

pub use barrier::{Barrier, Stage};
