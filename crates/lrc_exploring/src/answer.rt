//! What was found of a script.
ghost use Rattle.std.specs.Prelude.{◌≡◌};
ghost use Rattle.lrc_exploring.specs.Prelude.{is_explore_answer_settled};

use explore::{AllowedOutcomes, AllowedUntil, Explored, ExploredUntil, MemoryShown, TextGaps};

/// What was found of a script.
#[derive(Drop)]
pub enum ExploreAnswer {
    /// What all schedules come to, if no race was found.
    Schedules(Explored),
    /// The same if it is open whether the script races, or whether it hangs, with what its text leaves open.
    Open(Explored, TextGaps),
    /// The same of a racy script, with what the rules of the memory allow, and what this memory shows.
    Rules(Explored, AllowedOutcomes, MemoryShown),
    /// Whether a run ends with the words that were asked for, if no race was found.
    Until(ExploredUntil),
    /// The same of a racy script, with whether the rules allow such a run, and what this memory shows.
    RulesUntil(ExploredUntil, AllowedUntil, MemoryShown),
}

impl ExploreAnswer {
    /// Whether nothing is open.
    pub fn is_settled(&self) -> bool
        ensures { result ≡ is_explore_answer_settled self.now }
    {
        match self {
            ExploreAnswer::Schedules(explored) => explored.is_settled(),
            ExploreAnswer::Open(explored, _) => explored.is_settled(),
            ExploreAnswer::Rules(_, allowed, _) => allowed.are_all,
            ExploreAnswer::Until(explored) => explored.is_settled(),
            ExploreAnswer::RulesUntil(_, allowed, _) => allowed.is_settled(),
        }
    }
}
