//! What is found of a history.
ghost use Rattle.std.specs.Prelude.{◌↔◌, IsTrue};
ghost use Rattle.lrc_check.specs.Prelude.{AreCountsJudged};

use journal::Traffic;
use judge::locksets::LocksetWords;
use judge::{IllFormed, MemoryModel, Miscounted, Permitted};

/// By what a history is judged.
#[derive(Clone, Copy, Debug, PartialEq, Eq)]
pub struct Rules {
    /// What its loads owe.
    pub model: MemoryModel,
    /// Whether it is left out that a lock's asks are granted in their order, and that fetches count their gaps.
    pub lax: bool,
    /// Whether judging ends with the first race.
    pub ends_at_race: bool,
    /// Which words are told besides, of a faithful history without a race, whose accesses need a lock and have none.
    pub locksets: Option<LocksetWords>,
    /// Whether of a faithful history all words are told that race, each with its first race.
    pub all_races: bool,
}

/// Whether it is judged by these rules what fetches count: under `MemoryModel::LazyRelease` alone, and never lax.
pub fn are_counts_judged(model: MemoryModel, lax: bool) -> bool
    ensures { IsTrue result ↔ AreCountsJudged model lax }
{
    match model {
        MemoryModel::LazyRelease => !lax,
        _ => false,
    }
}

/// A load that answers what it may not.
#[derive(Debug, Drop)]
pub struct Unexplained {
    /// Its place in the history, counted from 0.
    pub place: usize,
    /// What it may answer.
    pub permitted: Permitted,
}

/// An event that no memory of the model makes after what stands before it.
#[derive(Debug, Drop)]
pub enum Lie {
    /// It may not follow what stands before it.
    IllFormed(IllFormed),
    /// It is a load of a value that it may not answer.
    Unexplained(Unexplained),
    /// It is a fetch that counts what it should not. This is told under `MemoryModel::LazyRelease` alone, and never lax.
    Miscounted(Miscounted),
}

/// Whether a history is faithful.
#[derive(Debug, Drop)]
pub enum TraceVerdict {
    /// It is: each of its events is one that a memory of the model can make.
    Faithful {
        /// What its events cost, by the counts that its own fetches tell.
        traffic: Traffic,
        /// How many loads weren't judged: under `MemoryModel::RaceFree` those from the first race on.
        unjudged: usize,
    },
    /// This is the first event that no such memory makes.
    Lie(Lie),
    /// Judging ended with the second event of the first race. What stands before that event is faithful.
    Racy,
}

/// What is found of a history.
#[derive(Debug, Drop)]
pub struct Checked {
    /// How many events were judged: all, or those up to the lie or the race and with it.
    pub count: usize,
    /// Of these, the nearest race: the places of the two accesses. An event that may not follow is not looked at for it.
    pub race: Option<(usize, usize)>,
    pub verdict: TraceVerdict,
}
