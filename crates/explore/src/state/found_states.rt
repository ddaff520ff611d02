//! The states that a search has found, and where each was found first.
ghost use Rattle.std.specs.Prelude.{MatchOption, None, slice_index_or, ◌≢◌, ◌≡◌, ◌+◌, ◌<◌, ◌≤◌, ◌++◌, [], ℕ, List, Some, IfOk, OnOk, length, map, reverse, slice_get};
ghost use Rattle.base.specs.Prelude.{most_processors};
ghost use Rattle.journal.specs.declared.event.Event.{Event as AnEvent};
ghost use Rattle.lrc_script.specs.Prelude.{IsLawful, Plan};
ghost use Rattle.explore.specs.declared.state.flat_state.FlatState.{FlatState as AMachine};
ghost use Rattle.explore.specs.declared.state.wait_code.ProcessorNumber.{ProcessorNumber as ANumber};
ghost use Rattle.explore.specs.CallTables.{IsCallTableOf, IsStateOfCalls};
ghost use Rattle.explore.specs.FoundStates.{AreEventsOfMakers, AreFoundStateMakers, AreFoundStates, AreFoundStatesKept, FoundStateAdded, HasRoomForStates, IsFoundStateAt, found_states};
ghost use Rattle.explore.specs.KeptStates.{AreOfOneSearch};
ghost use Rattle.explore.specs.NoFoundStates.{AreNoFoundStates};
ghost use Rattle.explore.specs.Origins.{most_origin_makers, state_origins};
ghost use Rattle.journal.specs.declared.event.Kind.{Kind as AKind};
ghost use Rattle.explore.specs.FollowedStates.{AreFollowedStates, IsFollowedState, IsLastNext, MayBeFollowedState, MayBeFollowedStateByEach};
ghost use Rattle.explore.specs.FreeChoice.{AreFreeChoiceTextFacts};
ghost use Rattle.explore.specs.StatesOfScript.{HasStatesOfScript};
ghost use Rattle.explore.specs.Machines.{AreLawfulMachineSteps, MachineKnows, MachinesInSameState};
ghost use Rattle.explore.specs.declared.outcomes.telling.Detail.{Detail as ADetail};
ghost use Rattle.explore.specs.OutcomeTelling.{outcome_telling_of_script};

use crate::prefixes::ScriptCall;
use crate::search::free_run::make_free_run;
use crate::state::call_table::CallTable;
use crate::state::flat_state::FlatState;
use crate::state::hasher::StateSet;
use crate::state::kept_state::{KeptState, StateParts};
use crate::state::origins::{MOST_MAKERS, Origins};
use crate::state::wait_code::ProcessorNumber;
use crate::text::facts::TextFacts;
use arrayvec::ArrayVec;
use indexmap::IndexSet;
use journal::{Event, Kind};
use std::alloc::{AllocError, Global};
use std::hash::BuildHasherDefault;

/// States, each once, in the order in which they were found.
#[derive(Drop)]
pub struct FoundStates {
    alloc: Global,
    /// The first state. By the makers of its events each other one can be made from it again.
    first: FlatState,
    parts: StateParts,
    states: StateSet<KeptState>,
    /// Where each state but the first one comes from.
    origins: Origins,
}

/// Adds these makers, the last one first.
fn push_found_state_makers(
    alloc: Global,
    makers: &mut Vec<ProcessorNumber>,
    more: &[ProcessorNumber],
) -> Result<(), AllocError>
    ensures { OnOk result (makers.new.items ≡ makers.old.items ++ reverse more.now) }
{
    let mut back = Vec::from_slice(alloc, more)?;
    back.reverse();
    makers.extend_from_slice(&back)
}

/// The events that these processors make from the first state on, one after the other. The only error is running out of memory.
fn events_of_makers(
    alloc: Global,
    first: FlatState,
    steps: &[Vec<ScriptCall>],
    makers: &[ProcessorNumber],
) -> Result<Vec<Event>, AllocError>
    requires { (s : Plan) × (es : List AnEvent) × AreEventsOfMakers s steps.now first es makers.now }
    ensures { IfOk result (λ v. (s : Plan) (es : List AnEvent) → AreEventsOfMakers s steps.now first es makers.now → v.items ≡ es) }
{
    let mut state = first;
    let mut events = Vec::with_capacity(alloc, makers.len())?;
    for maker in makers {
        let processor = maker.processor();
        let kind = state.next(steps, processor).unwrap();
        state.step(steps, processor, kind)?;
        events.push(Event { processor, kind })?;
    }
    Ok(events)
}

/// The last processor that may do something next.
fn last_next(nexts: &[Option<Kind>]) -> Option<usize>
    ensures { MatchOption result ((p : ℕ) (k : AKind) → slice_index_or nexts.now p None ≢ Some k) (IsLastNext nexts.now) }
{
    for behind in 0..nexts.len() {
        let processor = nexts.len() - 1 - behind;
        if let Some(_) = nexts[processor] {
            return Some(processor);
        }
    }
    None
}

impl FoundStates {
    /// Keeps the first state, where none is kept yet. The only error is running out of memory.
    fn keep_first(&mut self) -> Result<(), AllocError>
        requires none { AreNoFoundStates self.old }
        requires first { (s : Plan) × IsCallTableOf s self.old.parts.calls × MachineKnows s [] self.old.first }
        ensures found { OnOk result ((s : Plan) → IsCallTableOf s self.old.parts.calls → MachineKnows s [] self.old.first → AreFoundStates s self.new) }
        ensures first { OnOk result (self.new.first ≡ self.old.first) }
        ensures few { OnOk result (length (found_states self.new) ≤ 1) }
    {
        let kept = self.parts.keep(self.alloc, self.first.copy()?)?;
        self.states.insert_full(kept)?;
        Ok(())
    }

    /// The first state alone, of a script whose calls tell this. The only error is running out of memory.
    fn with_calls(
        alloc: Global,
        first: FlatState,
        calls: CallTable,
    ) -> Result<FoundStates, AllocError>
        requires { (s : Plan) × IsCallTableOf s calls × MachineKnows s [] first }
        ensures found { IfOk result (λ x. (s : Plan) → IsCallTableOf s calls → MachineKnows s [] first → AreFoundStates s x) }
        ensures telling { IfOk result (λ x. x.first.telling ≡ first.telling) }
        ensures few { IfOk result (λ x. length (found_states x) ≤ 1) }
    {
        let mut found = FoundStates {
            alloc,
            first,
            parts: StateParts::new(alloc, calls),
            states: IndexSet::with_hasher(alloc, BuildHasherDefault::new()),
            origins: Origins::new(alloc),
        };
        found.keep_first()?;
        Ok(found)
    }

    /// The first state alone, of a script whose steps are these. The only error is running out of memory.
    pub fn new(
        alloc: Global,
        first: FlatState,
        steps: &[Vec<ScriptCall>],
    ) -> Result<FoundStates, AllocError>
        requires { (s : Plan) × AreLawfulMachineSteps s steps.now × MachineKnows s [] first }
        ensures found { IfOk result (λ x. (s : Plan) → AreLawfulMachineSteps s steps.now → MachineKnows s [] first → AreFoundStates s x) }
        ensures telling { IfOk result (λ x. x.first.telling ≡ first.telling) }
        ensures few { IfOk result (λ x. length (found_states x) ≤ 1) }
    {
        let calls = CallTable::of_steps(alloc, steps)?;
        FoundStates::with_calls(alloc, first, calls)
    }

    /// How many states there are. A script has as many at least, by the same detail.
    pub fn len(&self) -> usize
        ensures count { result ≡ length (found_states self.now) }
        ensures states { (s : Plan) (d : ADetail) → AreFoundStates s self.now → self.now.first.telling ≡ outcome_telling_of_script s d
            → HasStatesOfScript s d result }
    {
        self.states.len()
    }

    /// The state at this place. The only error is running out of memory.
    pub fn at(&self, place: usize) -> Result<FlatState, AllocError>
        requires place { place < length (found_states self.now) }
        requires kept { AreFoundStatesKept self.now }
        ensures { IfOk result (IsFoundStateAt self.now place) }
    {
        self.parts.open(&self.first, &self.states[place])
    }

    /// Adds a state, if it is a new one, which comes from the one at this place by events of these processors. The only error is
    /// running out of memory, after which this may be of no use.
    fn add(
        &mut self,
        state: FlatState,
        from: usize,
        makers: &[ProcessorNumber],
    ) -> Result<(), AllocError>
        requires kept { AreFoundStatesKept self.old }
        requires long { length (found_states self.old) ≡ length (state_origins self.old.origins) + 1 }
        requires room { HasRoomForStates self.old 1 }
        requires known { IsStateOfCalls self.old.parts.calls state }
        requires of_one { AreOfOneSearch self.old.first state }
        requires from { from < length (found_states self.old) }
        requires makers { length makers.now ≤ most_origin_makers }
        ensures { OnOk result (FoundStateAdded self.old self.new state (record { from = from; makers = makers.now })) }
    {
        let kept = self.parts.keep(self.alloc, state)?;
        let (_, is_new) = self.states.insert_full(kept)?;
        if is_new {
            self.origins.push(from, makers)?;
        }
        Ok(())
    }

    /// Adds what the state at this place, which is given, comes to by the event, and then by free ones (`make_free_run`). The only
    /// error is running out of memory, after which this may be of no use.
    fn follow(
        &mut self,
        state: FlatState,
        steps: &[Vec<ScriptCall>],
        facts: &TextFacts,
        place: usize,
        event: Event,
    ) -> Result<(), AllocError>
        requires state { IsFoundStateAt self.old place state }
        requires facts { AreFreeChoiceTextFacts steps.now facts.now }
        requires room { HasRoomForStates self.old 1 }
        requires may { (s : Plan) × MayBeFollowedState s steps.now self.old place event.processor event.kind }
        ensures { OnOk result ((s : Plan) → MayBeFollowedState s steps.now self.old place event.processor event.kind
            → IsFollowedState s steps.now self.old self.new place event.processor event.kind) }
    {
        let mut state = state;
        state.step(steps, event.processor, event.kind)?;
        let mut makers = ArrayVec::<ProcessorNumber, MOST_MAKERS>::new();
        makers.push(ProcessorNumber::of(event.processor));
        make_free_run(&mut state, &mut makers, steps, facts)?;
        self.add(state, place, &makers)
    }

    /// Adds what the state at this place, which is given, comes to by each of these events, one of each processor, as `follow` does.
    /// The only error is running out of memory, after which this may be of no use.
    pub fn follow_all(
        &mut self,
        state: FlatState,
        steps: &[Vec<ScriptCall>],
        facts: &TextFacts,
        place: usize,
        nexts: &[Option<Kind>],
    ) -> Result<(), AllocError>
        requires state { IsFoundStateAt self.old place state }
        requires facts { AreFreeChoiceTextFacts steps.now facts.now }
        requires room { HasRoomForStates self.old (length nexts.now) }
        requires may { (s : Plan) × MayBeFollowedStateByEach s steps.now self.old place nexts.now }
        ensures { OnOk result ((s : Plan) → MayBeFollowedStateByEach s steps.now self.old place nexts.now
            → AreFollowedStates s steps.now self.old self.new place nexts.now (length nexts.now)) }
    {
        let Some(last) = last_next(nexts) else {
            return Ok(());
        };
        for processor in 0..last {
            if let Some(kind) = nexts[processor] {
                let event = Event { processor, kind };
                self.follow(state.copy()?, steps, facts, place, event)?;
            }
        }
        let Some(kind) = nexts[last] else {
            return Ok(());
        };
        let event = Event {
            processor: last,
            kind,
        };
        self.follow(state, steps, facts, place, event)
    }

    /// Of each event after which the state at this place was found, in order, the processor that makes it. The only error is
    /// running out of memory.
    pub fn makers_to(&self, alloc: Global, place: usize) -> Result<Vec<ProcessorNumber>, AllocError>
        requires place { place < length (found_states self.now) }
        requires found { (s : Plan) × AreFoundStates s self.now }
        ensures { IfOk result (λ v. (s : Plan) → AreFoundStates s self.now → (m : AMachine)
            → slice_get (found_states self.now) place ≡ Some m → AreFoundStateMakers s m v.items) }
    {
        let mut makers = Vec::new(alloc);
        let mut place = place;
        while place > 0 {
            push_found_state_makers(alloc, &mut makers, self.origins.makers(place - 1))?;
            place = self.origins.from(place - 1);
        }
        makers.reverse();
        Ok(makers)
    }

    /// The events after which the state at this place was found. The script's steps are these. The only error is running out of
    /// memory.
    pub fn events_to(
        &self,
        alloc: Global,
        steps: &[Vec<ScriptCall>],
        place: usize,
    ) -> Result<Vec<Event>, AllocError>
        requires place { place < length (found_states self.now) }
        requires found { (s : Plan) × AreLawfulMachineSteps s steps.now × AreFoundStates s self.now }
        ensures { IfOk result (λ v. (s : Plan) → AreLawfulMachineSteps s steps.now → AreFoundStates s self.now → (m : AMachine)
            → slice_get (found_states self.now) place ≡ Some m → MachineKnows s v.items m) }
    {
        let makers = self.makers_to(alloc, place)?;
        events_of_makers(alloc, self.first.copy()?, steps, &makers)
    }
}
