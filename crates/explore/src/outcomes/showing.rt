//! What there is to say of whether a run of a script can end with some words.
ghost use Rattle.std.specs.Prelude.{◌≡◌};
ghost use Rattle.explore.specs.EndingWords.{are_ending_words_settled};

use crate::outcomes::answer::{RacyEvents, ScriptOutcome};
use journal::Event;

/// A whole run, and what it shows.
#[derive(Drop)]
pub struct ShownRun {
    pub events: Vec<Event>,
    pub outcome: ScriptOutcome,
}

/// Whether a run ends with the words that were asked for.
#[derive(Drop)]
pub enum Showing {
    /// This one does, and no two accesses of it race.
    Shown(ShownRun),
    /// None does, and no two accesses race, whatever the order.
    Never,
    /// Two accesses can race.
    Racy(RacyEvents),
    /// No such run and no race was found, and the search was given up.
    Undecided,
}

/// What was found, and how long it took.
#[derive(Drop)]
pub struct ExploredUntil {
    /// How many states were found.
    pub states: usize,
    pub showing: Showing,
}

impl ExploredUntil {
    /// Whether nothing is open: the search wasn't given up.
    pub fn is_settled(&self) -> bool
        ensures { result ≡ are_ending_words_settled self.now.showing }
    {
        match &self.showing {
            Showing::Undecided => false,
            _ => true,
        }
    }
}
