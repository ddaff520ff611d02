//! What a search looks for.
ghost use Rattle.std.specs.Prelude.{◌↔◌, List, IsTrue};
ghost use Rattle.journal.specs.declared.event.Event.{Event as AnEvent};
ghost use Rattle.lrc_script.specs.Prelude.{Plan};
ghost use Rattle.explore.specs.Machines.{AreLawfulMachineSteps, IsMachineRunning, MachineKnows};
ghost use Rattle.explore.specs.EndingWords.{IsRunEndingWithWords};
ghost use Rattle.explore.specs.SearchGoals.{IsRunOfGoal};

use crate::prefixes::ScriptCall;
use crate::state::flat_state::FlatState;

/// What a search looks for.
#[derive(Clone, Copy)]
pub enum Goal<'a> {
    /// All that there is.
    All,
    /// A whole run that ends with these words, each at its address: the first one that is met.
    Until(&'a [(usize, u32)]),
}

/// Whether the state is whole and has these words.
fn has_until_words(state: &FlatState, steps: &[Vec<ScriptCall>], words: &[(usize, u32)]) -> bool
    requires { IsMachineRunning state.now steps.now }
    ensures { (s : Plan) (g : List AnEvent) → AreLawfulMachineSteps s steps.now → MachineKnows s g state.now
        → IsTrue result ↔ IsRunEndingWithWords s words.now g }
{
    state.is_whole(steps) && state.has_words(words)
}

impl Goal<'_> {
    /// Whether the state is what is looked for.
    pub fn is_met_by(self, state: &FlatState, steps: &[Vec<ScriptCall>]) -> bool
        requires { IsMachineRunning state.now steps.now }
        ensures { (s : Plan) (g : List AnEvent) → AreLawfulMachineSteps s steps.now → MachineKnows s g state.now
            → IsTrue result ↔ IsRunOfGoal s self.entry g }
    {
        match self {
            Goal::All => false,
            Goal::Until(words) => has_until_words(state, steps, words),
        }
    }
}
