//! One run of a script, as far as it goes.
ghost use Rattle.std.specs.Prelude.{◌≡◌, ◌↔◌, ◌<◌, ℕ, [], IfOk, IfSome, IsTrue, List, MatchOption, OnOk, length};
ghost use Rattle.journal.specs.declared.event.Event.{Event as AnEvent};
ghost use Rattle.journal.specs.declared.event.Kind.{Kind as AKind};
ghost use Rattle.journal.specs.Prelude.{IsFirstRace, RaceFree, did};
ghost use Rattle.lrc_script.specs.Prelude.{IsLawful, Plan, plan_of};
ghost use Rattle.conformance.specs.Follows.{Follows};
ghost use Rattle.explore.specs.declared.outcomes.telling.Detail.{Detail as ADetail};
ghost use Rattle.explore.specs.Explored.{IsExploredHang, IsExploredRacy, IsRunOfShownOutcome};
ghost use Rattle.explore.specs.Machines.{AreLawfulMachineSteps, IsMachineRunning, MachineKnows, MachineMayDo};
ghost use Rattle.explore.specs.OutcomeTelling.{outcome_telling_of_script};
ghost use Rattle.explore.specs.Prefixes.FlatBeginnings.{IsFlatBeginning, IsFlatBeginningHanging, IsFlatBeginningWhole};
ghost use Rattle.explore.specs.EndingWords.{IsRunEndingWithWords};
ghost use Rattle.explore.specs.WholeRuns.{HasRun, IsNextTurn, IsRunThrough, IsShownRunOf};

use crate::outcomes::answer::{Hang, RacyEvents, ScriptOutcome, ShownOutcome};
use crate::outcomes::showing::ShownRun;
use crate::outcomes::telling::Detail;
use crate::prefixes::ScriptCall;
use crate::search::neighbours::{are_neighbours_over, neighbour_nexts_of};
use crate::search::racing_history::{cut_racing_history, racing_history_race};
use crate::search::trial_order::TrialOrder;
use crate::state::flat_state::FlatState;
use crate::state::wait_code::ProcessorNumber;
use crate::text::lock_ranks::are_locks_ranked;
use base::MOST_PROCESSORS;
use journal::{Event, Kind};
use lrc_script::script::Script;
use std::alloc::{AllocError, Global};

/// The most rounds of a run, in each of which some processor gets on: no script has so many steps.
const MOST_ROUNDS: usize = 1 << 25;

/// A run, as far as it came.
#[derive(Drop)]
pub struct RunSoFar {
    state: FlatState,
    events: Vec<Event>,
    /// Of each event, in order, the processor that makes it.
    makers: Vec<ProcessorNumber>,
}

/// Who makes the next event of a run, by its place in the order in which processors are tried.
#[derive(Clone, Copy)]
pub struct NextTurn {
    place: usize,
    event: Event,
}

/// The first processor of this order that may make an event.
fn next_turn(
    state: &FlatState,
    steps: &[Vec<ScriptCall>],
    processors: &[usize; MOST_PROCESSORS],
) -> Option<NextTurn>
    requires { IsMachineRunning state.now steps.now }
    ensures { IfSome result (IsNextTurn steps.now state.now) }
{
    for place in 0..MOST_PROCESSORS {
        let processor = processors[place];
        if processor < steps.len() {
            if let Some(kind) = state.next(steps, processor) {
                let event = Event { processor, kind };
                return Some(NextTurn { place, event });
            }
        }
    }
    None
}

impl RunSoFar {
    /// Before the first event. The only error is running out of memory.
    pub fn new(alloc: Global, script: &Script, detail: Detail) -> Result<RunSoFar, AllocError>
        requires { IsLawful (plan_of script.now) }
        ensures through { IfOk result (IsRunThrough (plan_of script.now) []) }
        ensures telling { IfOk result (λ run. run.state.telling ≡ outcome_telling_of_script (plan_of script.now) detail) }
    {
        Ok(RunSoFar {
            state: FlatState::new(alloc, script, detail)?,
            events: Vec::new(alloc),
            makers: Vec::new(alloc),
        })
    }

    /// Does what the processor may do next. The only error is running out of memory.
    fn step(
        &mut self,
        steps: &[Vec<ScriptCall>],
        processor: usize,
        kind: Kind,
    ) -> Result<(), AllocError>
        requires { MachineMayDo self.old.state steps.now processor kind }
        ensures through { OnOk result ((s : Plan) (g : List AnEvent) → AreLawfulMachineSteps s steps.now → IsRunThrough s g self.old
            → IsFlatBeginning s (did g processor kind) → IsRunThrough s (did g processor kind) self.new) }
        ensures telling { OnOk result (self.new.state.telling ≡ self.old.state.telling) }
    {
        self.state.step(steps, processor, kind)?;
        self.makers.push(ProcessorNumber::of(processor))?;
        self.events.push(Event { processor, kind })?;
        Ok(())
    }

    /// Lets the processor do its steps until it has to wait. Whether it did one. The only error is running out of memory.
    fn go_on(&mut self, steps: &[Vec<ScriptCall>], processor: usize) -> Result<bool, AllocError>
        requires run { (s : Plan) × AreLawfulMachineSteps s steps.now × HasRun s self.old }
        requires processor { processor < length steps.now }
        ensures run { OnOk result ((s : Plan) → AreLawfulMachineSteps s steps.now → HasRun s self.old → HasRun s self.new) }
        ensures telling { OnOk result (self.new.state.telling ≡ self.old.state.telling) }
    {
        let row = &steps[processor];
        for done in 0..row.len() {
            match self.state.next(steps, processor) {
                Some(kind) => self.step(steps, processor, kind)?,
                None => return Ok(done > 0),
            }
        }
        Ok(true)
    }

    /// Lets each processor do its steps until it has to wait. Whether one did one. The only error is running out of memory.
    fn go_round(&mut self, steps: &[Vec<ScriptCall>]) -> Result<bool, AllocError>
        requires { (s : Plan) × AreLawfulMachineSteps s steps.now × HasRun s self.old }
        ensures run { OnOk result ((s : Plan) → AreLawfulMachineSteps s steps.now → HasRun s self.old → HasRun s self.new) }
        ensures telling { OnOk result (self.new.state.telling ≡ self.old.state.telling) }
    {
        let mut gets_on = false;
        for processor in 0..steps.len() {
            gets_on |= self.go_on(steps, processor)?;
        }
        Ok(gets_on)
    }

    /// Lets each processor in turn do its steps until it has to wait, again and again until nobody gets on. The only error is
    /// running out of memory.
    pub fn go_to_the_end(&mut self, steps: &[Vec<ScriptCall>]) -> Result<(), AllocError>
        requires { (s : Plan) × AreLawfulMachineSteps s steps.now × HasRun s self.old }
        ensures run { OnOk result ((s : Plan) → AreLawfulMachineSteps s steps.now → HasRun s self.old → HasRun s self.new) }
        ensures telling { OnOk result (self.new.state.telling ≡ self.old.state.telling) }
    {
        for _ in 0..MOST_ROUNDS {
            if !self.go_round(steps)? {
                return Ok(());
            }
        }
        Ok(())
    }

    /// Lets the first processor of this order that may make an event make it. Whether one did. The only error is running out of
    /// memory.
    fn take_turn(
        &mut self,
        steps: &[Vec<ScriptCall>],
        order: &mut TrialOrder,
    ) -> Result<bool, AllocError>
        requires { (s : Plan) × AreLawfulMachineSteps s steps.now × HasRun s self.old }
        ensures run { OnOk result ((s : Plan) → AreLawfulMachineSteps s steps.now → HasRun s self.old → HasRun s self.new) }
        ensures telling { OnOk result (self.new.state.telling ≡ self.old.state.telling) }
    {
        let Some(turn) = next_turn(&self.state, steps, &order.processors) else {
            return Ok(false);
        };
        self.step(steps, turn.event.processor, turn.event.kind)?;
        order.go_on(turn.place);
        Ok(true)
    }

    /// Goes on by turns in this order until nobody gets on. The only error is running out of memory.
    pub fn go_by(
        &mut self,
        steps: &[Vec<ScriptCall>],
        order: &mut TrialOrder,
    ) -> Result<(), AllocError>
        requires { (s : Plan) × AreLawfulMachineSteps s steps.now × HasRun s self.old }
        ensures run { OnOk result ((s : Plan) → AreLawfulMachineSteps s steps.now → HasRun s self.old → HasRun s self.new) }
        ensures telling { OnOk result (self.new.state.telling ≡ self.old.state.telling) }
    {
        for _ in 0..MOST_ROUNDS {
            if !self.take_turn(steps, order)? {
                return Ok(());
            }
        }
        Ok(())
    }

    /// Whether each processor has made all its calls.
    pub fn is_whole(&self, steps: &[Vec<ScriptCall>]) -> bool
        requires { (s : Plan) × AreLawfulMachineSteps s steps.now × HasRun s self.now }
        ensures { IsTrue result → (s : Plan) (g : List AnEvent) → AreLawfulMachineSteps s steps.now → IsRunThrough s g self.now
            → IsFlatBeginningWhole s g }
    {
        self.state.is_whole(steps)
    }

    /// Whether nobody may go on, and not all are done.
    pub fn is_stuck(&self, steps: &[Vec<ScriptCall>]) -> bool
        requires { (s : Plan) × AreLawfulMachineSteps s steps.now × HasRun s self.now }
        ensures { IsTrue result → (s : Plan) (g : List AnEvent) → AreLawfulMachineSteps s steps.now → IsRunThrough s g self.now
            → IsFlatBeginningHanging s g }
    {
        !self.state.is_whole(steps) && are_neighbours_over(&neighbour_nexts_of(&self.state, steps))
    }

    /// The places of the two accesses of its first race, if it has one. The only error is running out of memory.
    pub fn race(&self, alloc: Global, script: &Script) -> Result<Option<(usize, usize)>, AllocError>
        requires lawful { IsLawful (plan_of script.now) }
        requires run { HasRun (plan_of script.now) self.now }
        ensures { IfOk result (λ o. MatchOption o (RaceFree self.now.events.items) (λ r. IsFirstRace self.now.events.items r.0 r.1)) }
    {
        racing_history_race(alloc, script, &self.events)
    }

    /// Its events up to its first race, whose two accesses are at these places.
    pub fn into_racy(self, first: usize, second: usize) -> RacyEvents
        requires { IsFirstRace self.events.items first second }
        ensures { (s : Plan) → HasRun s self → IsExploredRacy s result }
    {
        let RunSoFar { events, .. } = self;
        cut_racing_history(events, first, second)
    }

    /// The run as a hang, since it is stuck. The only error is running out of memory.
    pub fn into_hang(self, alloc: Global, script: &Script) -> Result<Hang, AllocError>
        requires lawful { IsLawful (plan_of script.now) }
        requires hangs { (g : List AnEvent) × IsRunThrough (plan_of script.now) g self × IsFlatBeginningHanging (plan_of script.now) g }
        ensures { IfOk result (IsExploredHang (plan_of script.now)) }
    {
        let waits = self.state.waits(alloc, script.processors)?;
        let RunSoFar { events, .. } = self;
        Ok(Hang { events, waits })
    }

    /// Whether it came to its end with these words.
    pub fn ends_with(&self, steps: &[Vec<ScriptCall>], words: &[(usize, u32)]) -> bool
        requires { (s : Plan) × AreLawfulMachineSteps s steps.now × HasRun s self.now }
        ensures { IsTrue result → (s : Plan) (g : List AnEvent) → AreLawfulMachineSteps s steps.now → IsRunThrough s g self.now
            → IsRunEndingWithWords s words.now g }
    {
        self.state.is_whole(steps) && self.state.has_words(words)
    }

    /// A run that came to its end, with what it shows.
    pub fn into_shown_run(self) -> ShownRun
        ensures { (s : Plan) (g : List AnEvent) (d : ADetail) → IsRunThrough s g self → length s.sections ≡ s.processors → Follows s g
            → self.state.telling ≡ outcome_telling_of_script s d → IsShownRunOf s d g result }
    {
        let RunSoFar { state, events, .. } = self;
        let FlatState { replies, .. } = state;
        let outcome = ScriptOutcome { replies };
        ShownRun { events, outcome }
    }

    /// What a run that came to its end shows.
    pub fn into_outcome(self) -> ShownOutcome
        ensures { (s : Plan) (g : List AnEvent) (d : ADetail) → IsRunThrough s g self → length s.sections ≡ s.processors → Follows s g
            → self.state.telling ≡ outcome_telling_of_script s d → IsRunOfShownOutcome s d result }
    {
        let RunSoFar { state, makers, .. } = self;
        let FlatState { replies, .. } = state;
        ShownOutcome {
            outcome: ScriptOutcome { replies },
            makers,
        }
    }
}

/// Whether the script's text shows that each run comes to its end, if one does: its locks are ranked (`ranked_locks_law`).
pub fn never_gets_stuck_by_text(steps: &[Vec<ScriptCall>], ends: bool) -> bool
    requires { (s : Plan) × AreLawfulMachineSteps s steps.now }
    ensures { IsTrue result → (s : Plan) → AreLawfulMachineSteps s steps.now → (IsTrue ends → (w : List AnEvent) × IsFlatBeginningWhole s w)
        → (g : List AnEvent) → ¬ IsFlatBeginningHanging s g }
{
    ends && are_locks_ranked(steps)
}
