//! The search: each state of a script on one flat memory is looked at once.
ghost use Rattle.std.specs.Prelude.{◌≡◌, ◌↔◌, ◌+◌, ◌<◌, ◌≤◌, ◌++◌, ⊤, ℕ, IfOk, IfSome, OnOk, IsTrue, List, MatchOption, Bool, None, Option, false, length, map};
ghost use Rattle.std.specs.Global.{Vec as AVec};
ghost use Rattle.base.specs.Prelude.{most_processors};
ghost use Rattle.lrc_script.specs.Prelude.{IsLawful, Plan, plan_of};
ghost use Rattle.lrc_script.specs.Lawful.{plan_addresses};
ghost use Rattle.explore.specs.declared.prefixes.script_call.ScriptCall.{ScriptCall as AStep};
ghost use Rattle.explore.specs.Prefixes.Prelude.{AreFlatBeginningsRaceFree, IsFlatBeginningHanging};
ghost use Rattle.journal.specs.declared.event.Event.{Event as AnEvent};
ghost use Rattle.explore.specs.FreeChoice.{AreFreeChoiceTextFacts};
ghost use Rattle.explore.specs.Explored.{AreExploredOutcomes, IsExplored, IsExploredHang, IsExploredHanging, IsExploredRacy, IsExploredVerdict, IsRunOfShownOutcome, explored_outcome, shown_outcome};
ghost use Rattle.explore.specs.declared.outcomes.answer.ShownOutcome.{ShownOutcome as AShownOutcome};
ghost use Rattle.base.specs.InOrderOnce.{Has};
ghost use Rattle.explore.specs.FoundStates.{AreFoundStates, HasRoomForStates, IsFoundStateAt, KeepsFoundStates, found_states};
ghost use Rattle.explore.specs.Origins.{most_state_origins};
ghost use Rattle.explore.specs.Machines.{AreLawfulMachineSteps};
ghost use Rattle.explore.specs.SearchGoals.{IsRunOfGoal};
ghost use Rattle.explore.specs.StateRoom.{state_room_at_most};
ghost use Rattle.explore.specs.declared.outcomes.telling.Detail.{Detail as ADetail};
ghost use Rattle.explore.specs.OutcomeTelling.{outcome_telling_of_script};
ghost use Rattle.explore.specs.FlatSearch.{FlatSearchHasHang, IsFlatSearchedAt, AreFlatSearchNotes, FlatSearchedUpTo, HasMoreToFlatSearch};
ghost use Rattle.explore.specs.FlatSearch.{AreFlatSearchPlaces, IsFlatSearchHangingOpen, IsFlatSearchVerdictOpen, IsFlatSearched, MayNoteInFlatSearch};
ghost use Rattle.explore.specs.declared.search.Met.{Met as AMet};
ghost use Rattle.explore.specs.FlatSearchEnds.{IsFlatSearchEnd, IsFlatSearchedThrough, IsMetByFlatSearch};
ghost use Rattle.explore.specs.NotedOutcomes.{IsNotedOutcome, noted_outcomes};
ghost use Rattle.explore.specs.TextGuards.{AreGuardedByText};
ghost use Rattle.explore.specs.Trials.{AreTrialOutcomes, AreTrials, trial_outcome};

pub mod free_choice;
pub mod free_run;
pub mod neighbours;
pub mod persistent_set;
pub mod racing_history;
pub mod trial_order;
pub mod trials;
pub mod until;
pub mod whole_run;

use crate::goal::Goal;
use crate::outcomes::answer::{
    Explored, Hang, Hanging, RacyEvents, ScriptOutcome, ShownOutcome, Verdict,
};
use crate::outcomes::telling::Detail;
use crate::prefixes::{ScriptCall, script_calls_of_all};
use crate::progress::Progress;
use crate::search::free_choice::free_choice;
use crate::search::neighbours::{
    Neighbours, are_neighbours_over, neighbour_nexts_of, neighbours_in,
};
use crate::search::racing_history::racing_history;
use crate::search::trials::{Trials, trials_within};
use crate::search::whole_run::never_gets_stuck_by_text;
use crate::state::flat_state::FlatState;
use crate::state::found_states::FoundStates;
use crate::state::room::state_room_at_most;
use crate::state::wait_code::ProcessorNumber;
use crate::text::facts::{TextFacts, text_facts};
use crate::text::guards::{are_all_guarded, guarded_words_with_walk};
use crate::text::unguarded_words::are_all_kept_apart;
use indexmap::IndexMap;
use lrc_script::script::Script;
use std::alloc::{AllocError, Global};
use std::mem;

/// What a search has found so far.
#[derive(Drop)]
pub struct Search {
    pub(crate) found: FoundStates,
    /// What the whole runs among them show, each outcome with the place of a state that shows it.
    outcomes: IndexMap<ScriptOutcome, usize>,
    /// The place of a state that hangs.
    hang: Option<usize>,
}

/// What ends a search before all states were looked at.
#[derive(Clone, Copy)]
pub enum Met {
    /// The state at this place is what is looked for.
    Ending(usize),
    /// Two next events conflict.
    Conflict(Neighbours),
}

/// How a search ended.
#[derive(Clone, Copy)]
pub struct SearchEnd {
    /// How many states were found.
    pub states: usize,
    /// What ended it, if that was met.
    pub met: Option<Met>,
    /// Whether all states were looked at.
    pub through: bool,
}

impl SearchEnd {
    /// Whether the search was given up: nothing was met, and not all states were looked at.
    fn is_given_up(self) -> bool {
        self.met.is_none() && !self.through
    }
}

/// What a search has found but for outcomes.
#[derive(Drop)]
pub struct Findings {
    verdict: Verdict,
    hanging: Hanging,
}

/// Adds an outcome with the place of a state that shows it, if it is a new one. The only error is running out of memory.
fn note_search_outcome(
    outcomes: &mut IndexMap<ScriptOutcome, usize>,
    outcome: ScriptOutcome,
    place: usize,
) -> Result<(), AllocError>
    ensures { OnOk result (IsNotedOutcome outcomes.old.entries outcomes.new.entries (explored_outcome outcome) (λ shown_at. shown_at ≡ place)) }
{
    if !outcomes.contains_key(&outcome) {
        outcomes.insert(outcome, place)?;
    }
    Ok(())
}

/// Whether more states were found than were to be looked at.
fn is_search_past(states: usize, most: usize) -> bool
    ensures { IsTrue result ↔ (most < states) }
{
    states > most
}

/// Whether all states were looked at: nothing was met that ends a search, and no more states were found than were to be looked at.
fn is_search_through(met: Option<Met>, states: usize, most: usize) -> bool
    ensures { IsTrue result ↔ ((met ≡ None) × (states ≤ most)) }
{
    match met {
        Some(_) => false,
        None => states <= most,
    }
}

/// Whether the text shows that no schedule races: all words are guarded. If the search was given up, each two accesses are looked
/// at for that. The only error is running out of memory.
fn is_race_free_by_text(
    alloc: Global,
    script: &Script,
    steps: &[Vec<ScriptCall>],
    guarded: &[bool],
    given_up: bool,
) -> Result<bool, AllocError>
    requires steps { AreLawfulMachineSteps (plan_of script.now) steps.now }
    requires long { length guarded.now ≡ plan_addresses (plan_of script.now) }
    requires guarded { AreGuardedByText steps.now guarded.now }
    ensures { IfOk result (λ free. IsTrue free → AreFlatBeginningsRaceFree (plan_of script.now)) }
{
    if are_all_guarded(guarded) {
        return Ok(true);
    }
    if !given_up {
        return Ok(false);
    }
    let known = guarded_words_with_walk(alloc, script, steps)?;
    are_all_kept_apart(alloc, steps, &known)
}

/// The race that a trial met, if one did, as the verdict of a search that is given up.
fn verdict_of_trials(racy: Option<RacyEvents>) -> Verdict
    ensures verdict { (s : Plan) → IfSome racy (IsExploredRacy s) → IsExploredVerdict s result }
    ensures opens { (met : Option AMet) (through : Bool) → met ≡ None → through ≡ false → IsFlatSearchVerdictOpen met through result }
{
    match racy {
        Some(racy) => Verdict::Racy(racy),
        None => Verdict::Undecided,
    }
}

/// The hang that a trial met, if one did, of a search that met none and is given up.
fn hanging_of_trials(hang: Option<Hang>) -> Hanging
    ensures hanging { (s : Plan) → IfSome hang (IsExploredHang s) → IsExploredHanging s result }
    ensures opens { (through : Bool) → through ≡ false → IsFlatSearchHangingOpen through result }
{
    match hang {
        Some(hang) => Hanging::Hangs(hang),
        None => Hanging::Undecided,
    }
}

/// Puts what trials show at the end.
fn push_trial_outcomes(
    shown: &mut Vec<ShownOutcome>,
    outcomes: IndexMap<ScriptOutcome, Vec<ProcessorNumber>>,
) -> Result<(), AllocError>
    ensures { OnOk result (shown.new.items ≡ shown.old.items ++ map trial_outcome outcomes.entries) }
{
    for (outcome, makers) in outcomes {
        shown.push(ShownOutcome { outcome, makers })?;
    }
    Ok(())
}

/// These outcomes, each with a run that comes to the state at its place. The only error is running out of memory.
fn search_outcomes_with_runs(
    alloc: Global,
    found: &FoundStates,
    outcomes: IndexMap<ScriptOutcome, usize>,
) -> Result<Vec<ShownOutcome>, AllocError>
    requires { (s : Plan) × IsLawful s × AreFoundStates s found.now × AreFlatSearchPlaces s (found_states found.now) outcomes.entries }
    ensures listed { IfOk result (λ v. map shown_outcome v.items ≡ noted_outcomes outcomes.entries) }
    ensures runs { IfOk result (λ v. (s : Plan) (d : ADetail) → AreFoundStates s found.now
        → AreFlatSearchPlaces s (found_states found.now) outcomes.entries
        → found.now.first.telling ≡ outcome_telling_of_script s d → (x : AShownOutcome) → Has v.items x → IsRunOfShownOutcome s d x) }
{
    let mut shown = Vec::with_capacity(alloc, outcomes.len())?;
    for (outcome, place) in outcomes {
        let makers = found.makers_to(alloc, place)?;
        shown.push(ShownOutcome { outcome, makers })?;
    }
    Ok(shown)
}

impl Search {
    /// The first state alone. The only error is running out of memory.
    pub(crate) fn new(
        alloc: Global,
        script: &Script,
        steps: &[Vec<ScriptCall>],
        detail: Detail,
    ) -> Result<Search, AllocError>
        requires { AreLawfulMachineSteps (plan_of script.now) steps.now }
        ensures searched { IfOk result (λ x. (rows : List (AVec AStep)) → FlatSearchedUpTo (plan_of script.now) x rows 0) }
        ensures few { IfOk result (λ x. length (found_states x.found) ≤ 1) }
        ensures telling { IfOk result (λ x. x.found.first.telling ≡ outcome_telling_of_script (plan_of script.now) detail) }
    {
        Ok(Search {
            found: FoundStates::new(alloc, FlatState::new(alloc, script, detail)?, steps)?,
            outcomes: IndexMap::new(alloc),
            hang: None,
        })
    }

    /// Takes note of the state at this place, which is given, after which nothing may come next: it is whole, or it hangs.
    fn note_end(
        &mut self,
        state: &FlatState,
        steps: &[Vec<ScriptCall>],
        place: usize,
    ) -> Result<(), AllocError>
        requires state { IsFoundStateAt self.old.found place state.now }
        requires may { (s : Plan) × MayNoteInFlatSearch s self.old steps.now place }
        ensures found { OnOk result (self.new.found ≡ self.old.found) }
        ensures noted { OnOk result ((s : Plan) → MayNoteInFlatSearch s self.old steps.now place → AreFlatSearchNotes s self.new (place + 1)) }
    {
        if state.is_whole(steps) {
            let replies = state.replies()?;
            let outcome = ScriptOutcome { replies };
            return note_search_outcome(&mut self.outcomes, outcome, place);
        }
        self.hang = Some(self.hang.unwrap_or(place));
        Ok(())
    }

    /// Looks at the state at this place, which is given: the two events that conflict, if there are such; else what comes
    /// next is found, by one event that is free, by asks, or by all, and what there is to note is noted.
    fn look_at(
        &mut self,
        state: FlatState,
        steps: &[Vec<ScriptCall>],
        facts: &TextFacts,
        place: usize,
    ) -> Result<Option<Neighbours>, AllocError>
        requires state { IsFoundStateAt self.old.found place state }
        requires facts { AreFreeChoiceTextFacts steps.now facts.now }
        requires room { HasRoomForStates self.old.found most_processors }
        requires unvisited { (s : Plan) × HasMoreToFlatSearch s self.old steps.now place }
        ensures looked { IfOk result (λ o. (s : Plan) → HasMoreToFlatSearch s self.old steps.now place
            → IsFlatSearchedAt s self.new steps.now place o) }
        ensures found { IfOk result (λ _. (s : Plan) → HasMoreToFlatSearch s self.old steps.now place
            → KeepsFoundStates (found_states self.old.found) (found_states self.new.found)
            × (length (found_states self.new.found) ≤ length (found_states self.old.found) + most_processors)
            × (self.new.found.first.telling ≡ self.old.found.first.telling)) }
    {
        let nexts = neighbour_nexts_of(&state, steps);
        if let Some((first, second)) = neighbours_in(&nexts) {
            return Ok(Some(Neighbours {
                place,
                first,
                second,
            }));
        }
        let followed = free_choice(steps, &state, &nexts, facts);
        if are_neighbours_over(&nexts) {
            self.note_end(&state, steps, place)?;
        }
        self.found
            .follow_all(state, steps, facts, place, &followed)?;
        Ok(None)
    }

    /// Looks at each state that there is, until one is what is looked for, two events conflict or more than `most` states are
    /// found.
    fn look_at_all<P: Progress>(
        &mut self,
        steps: &[Vec<ScriptCall>],
        facts: &TextFacts,
        goal: Goal<'_>,
        most: usize,
        progress: &mut P,
    ) -> Result<Option<Met>, AllocError>
        requires facts { AreFreeChoiceTextFacts steps.now facts.now }
        requires room { most + most_processors ≤ most_state_origins }
        requires searched { (s : Plan) × AreLawfulMachineSteps s steps.now × FlatSearchedUpTo s self.old steps.now 0 }
        ensures looked { IfOk result (λ o. (s : Plan) → AreLawfulMachineSteps s steps.now → FlatSearchedUpTo s self.old steps.now 0
            → IsFlatSearchedThrough s self.new steps.now (IsRunOfGoal s goal.entry) most o) }
        ensures few { IfOk result (λ _. (s : Plan) → AreLawfulMachineSteps s steps.now → FlatSearchedUpTo s self.old steps.now 0
            → length (found_states self.old.found) ≤ 1 → length (found_states self.new.found) ≤ most + most_processors) }
        ensures telling { IfOk result (λ _. (s : Plan) → AreLawfulMachineSteps s steps.now → FlatSearchedUpTo s self.old steps.now 0
            → self.new.found.first.telling ≡ self.old.found.first.telling) }
    {
        for place in 0..most {
            let states = self.found.len();
            progress.found(states);
            if is_search_past(states, most) {
                return Ok(None);
            }
            if place == states {
                return Ok(None);
            }
            let state = self.found.at(place)?;
            if goal.is_met_by(&state, steps) {
                return Ok(Some(Met::Ending(place)));
            }
            if let Some(neighbours) = self.look_at(state, steps, facts, place)? {
                return Ok(Some(Met::Conflict(neighbours)));
            }
        }
        Ok(None)
    }

    /// The state at this place, as a hang. The only error is running out of memory.
    fn hang_at(
        &self,
        alloc: Global,
        script: &Script,
        steps: &[Vec<ScriptCall>],
        place: usize,
    ) -> Result<Hang, AllocError>
        requires steps { AreLawfulMachineSteps (plan_of script.now) steps.now }
        requires found { AreFoundStates (plan_of script.now) self.now.found }
        requires hangs { FlatSearchHasHang (plan_of script.now) (found_states self.now.found) place }
        ensures { IfOk result (IsExploredHang (plan_of script.now)) }
    {
        Ok(Hang {
            events: self.found.events_to(alloc, steps, place)?,
            waits: self.found.at(place)?.waits(alloc, script.processors)?,
        })
    }

    /// Whether a state hangs, if all states have been looked at or not; it may be known that none does, and a trial may have met a
    /// hang. The only error is running out of memory.
    fn hanging(
        &self,
        alloc: Global,
        script: &Script,
        steps: &[Vec<ScriptCall>],
        through: bool,
        never: bool,
        hang: Option<Hang>,
    ) -> Result<Hanging, AllocError>
        requires steps { AreLawfulMachineSteps (plan_of script.now) steps.now }
        requires hang { IfSome hang (IsExploredHang (plan_of script.now)) }
        requires never { IsTrue never → (g : List AnEvent) → ¬ IsFlatBeginningHanging (plan_of script.now) g }
        requires searched { IsFlatSearched (plan_of script.now) self.now steps.now through }
        ensures hanging { IfOk result (IsExploredHanging (plan_of script.now)) }
        ensures opens { IfOk result (IsFlatSearchHangingOpen through) }
    {
        match self.hang {
            Some(place) => Ok(Hanging::Hangs(self.hang_at(alloc, script, steps, place)?)),
            None if through | never => Ok(Hanging::Never),
            None => Ok(hanging_of_trials(hang)),
        }
    }

    /// Whether the script races, if a search for all that there is met this: it does if two events conflict; it may be known to be
    /// race-free, and a trial may have met a race. The only error is running out of memory.
    fn verdict(
        &self,
        alloc: Global,
        script: &Script,
        steps: &[Vec<ScriptCall>],
        met: Option<Met>,
        race_free: bool,
        racy: Option<RacyEvents>,
    ) -> Result<Verdict, AllocError>
        requires lawful { IsLawful (plan_of script.now) }
        requires racy { IfSome racy (IsExploredRacy (plan_of script.now)) }
        requires free { IsTrue race_free → AreFlatBeginningsRaceFree (plan_of script.now) }
        requires found { AreFoundStates (plan_of script.now) self.now.found }
        requires met { MatchOption met ⊤ (IsMetByFlatSearch (plan_of script.now) self.now steps.now (λ _. ⊥)) }
        ensures verdict { IfOk result (IsExploredVerdict (plan_of script.now)) }
        ensures opens { IfOk result (IsFlatSearchVerdictOpen met race_free) }
    {
        match met {
            Some(Met::Conflict(neighbours)) => {
                let racy = racing_history(alloc, script, steps, &self.found, neighbours)?;
                Ok(Verdict::Racy(racy))
            }
            // No state ends a search for all that there is.
            Some(Met::Ending(_)) => Ok(Verdict::Undecided),
            None if race_free => Ok(Verdict::RaceFree),
            None => Ok(verdict_of_trials(racy)),
        }
    }

    /// Whether the script races and whether it hangs, if the search ended so; it may be known to be race-free, and never to hang, and
    /// trials may have met a race and a hang. The only error is running out of memory.
    fn findings(
        &self,
        alloc: Global,
        script: &Script,
        steps: &[Vec<ScriptCall>],
        end: SearchEnd,
        race_free: bool,
        never: bool,
        racy: Option<RacyEvents>,
        hang: Option<Hang>,
    ) -> Result<Findings, AllocError>
        requires steps { AreLawfulMachineSteps (plan_of script.now) steps.now }
        requires racy { IfSome racy (IsExploredRacy (plan_of script.now)) }
        requires hang { IfSome hang (IsExploredHang (plan_of script.now)) }
        requires free { IsTrue race_free → AreFlatBeginningsRaceFree (plan_of script.now) }
        requires never { IsTrue never → (g : List AnEvent) → ¬ IsFlatBeginningHanging (plan_of script.now) g }
        requires ended { (most : ℕ) × IsFlatSearchEnd (plan_of script.now) self.now steps.now (λ _. ⊥) most end }
        ensures verdict { IfOk result (λ found. IsExploredVerdict (plan_of script.now) found.verdict) }
        ensures hanging { IfOk result (λ found. IsExploredHanging (plan_of script.now) found.hanging) }
        ensures verdict_opens { IfOk result (λ found. IsFlatSearchVerdictOpen end.met race_free found.verdict) }
        ensures hanging_opens { IfOk result (λ found. IsFlatSearchHangingOpen end.through found.hanging) }
    {
        let verdict = self.verdict(alloc, script, steps, end.met, race_free, racy)?;
        let hanging = self.hanging(alloc, script, steps, end.through, never, hang)?;
        Ok(Findings { verdict, hanging })
    }

    /// Looks at each state that there is, as `look_at_all` does, and says how that ended.
    pub(crate) fn look_to_the_end<P: Progress>(
        &mut self,
        steps: &[Vec<ScriptCall>],
        facts: &TextFacts,
        goal: Goal<'_>,
        most: usize,
        progress: &mut P,
    ) -> Result<SearchEnd, AllocError>
        requires facts { AreFreeChoiceTextFacts steps.now facts.now }
        requires room { most + most_processors ≤ most_state_origins }
        requires searched { (s : Plan) × AreLawfulMachineSteps s steps.now × FlatSearchedUpTo s self.old steps.now 0 }
        ensures ended { IfOk result (λ end. (s : Plan) → AreLawfulMachineSteps s steps.now → FlatSearchedUpTo s self.old steps.now 0
            → length (found_states self.old.found) ≤ 1 → IsFlatSearchEnd s self.new steps.now (IsRunOfGoal s goal.entry) most end) }
        ensures telling { IfOk result (λ _. (s : Plan) → AreLawfulMachineSteps s steps.now → FlatSearchedUpTo s self.old steps.now 0
            → self.new.found.first.telling ≡ self.old.found.first.telling) }
    {
        let met = self.look_at_all(steps, facts, goal, most, progress)?;
        let states = self.found.len();
        let through = is_search_through(met, states, most);
        Ok(SearchEnd {
            states,
            met,
            through,
        })
    }

    /// What whole runs show that were met, and what trials show beside: each outcome once, with a run. The search has none of them any
    /// more. The only error is running out of memory.
    fn outcomes_and(
        &mut self,
        alloc: Global,
        tried: IndexMap<ScriptOutcome, Vec<ProcessorNumber>>,
    ) -> Result<Vec<ShownOutcome>, AllocError>
        requires { (s : Plan) × IsLawful s × AreFoundStates s self.old.found
            × AreFlatSearchPlaces s (found_states self.old.found) self.old.outcomes.entries }
        ensures outcomes { IfOk result (λ v. (s : Plan) (d : ADetail) → AreExploredOutcomes s d (noted_outcomes self.old.outcomes.entries)
            → AreTrialOutcomes s d (noted_outcomes self.old.outcomes.entries) tried.entries → AreExploredOutcomes s d (map shown_outcome v.items)) }
        ensures all { IfOk result (λ v. (replies : List (List ℕ)) → Has (noted_outcomes self.old.outcomes.entries) replies
            → Has (map shown_outcome v.items) replies) }
        ensures runs { IfOk result (λ v. (s : Plan) (d : ADetail) → AreFoundStates s self.old.found
            → AreFlatSearchPlaces s (found_states self.old.found) self.old.outcomes.entries
            → self.old.found.first.telling ≡ outcome_telling_of_script s d
            → AreTrialOutcomes s d (noted_outcomes self.old.outcomes.entries) tried.entries
            → (x : AShownOutcome) → Has v.items x → IsRunOfShownOutcome s d x) }
        ensures tried { IfOk result (λ v. (replies : List (List ℕ)) → Has (noted_outcomes tried.entries) replies
            → Has (map shown_outcome v.items) replies) }
    {
        let outcomes = mem::replace(&mut self.outcomes, IndexMap::new(alloc));
        let mut shown = search_outcomes_with_runs(alloc, &self.found, outcomes)?;
        push_trial_outcomes(&mut shown, tried)?;
        Ok(shown)
    }

    /// What trials show if the search is given up: nothing was met, and not all states were looked at. The only error is running
    /// out of memory.
    fn trials_of_given_up(
        &self,
        alloc: Global,
        script: &Script,
        steps: &[Vec<ScriptCall>],
        detail: Detail,
        end: SearchEnd,
        race_free: bool,
        trials: usize,
    ) -> Result<Trials, AllocError>
        requires { AreLawfulMachineSteps (plan_of script.now) steps.now }
        ensures { IfOk result (AreTrials (plan_of script.now) detail (noted_outcomes self.now.outcomes.entries)) }
    {
        let mut tried = Trials::new(alloc);
        if !end.is_given_up() {
            return Ok(tried);
        }
        tried.try_all(
            alloc,
            script,
            steps,
            detail,
            &self.outcomes,
            race_free,
            trials,
        )?;
        Ok(tried)
    }

    /// What the search has found that ended so, and what trials show: it gives up its outcomes. It may be known to be race-free. The
    /// only error is running out of memory.
    fn answer_with(
        &mut self,
        alloc: Global,
        script: &Script,
        steps: &[Vec<ScriptCall>],
        end: SearchEnd,
        race_free: bool,
        tried: Trials,
    ) -> Result<Explored, AllocError>
        requires steps { AreLawfulMachineSteps (plan_of script.now) steps.now }
        requires free { IsTrue race_free → AreFlatBeginningsRaceFree (plan_of script.now) }
        requires through { IsTrue end.through → IsTrue race_free }
        requires ended { (most : ℕ) × IsFlatSearchEnd (plan_of script.now) self.old steps.now (λ _. ⊥) most end }
        requires tried { (d : ADetail) × AreTrials (plan_of script.now) d (noted_outcomes self.old.outcomes.entries) tried }
        ensures { IfOk result (λ answer. (d : ADetail) (most : ℕ)
            → IsFlatSearchEnd (plan_of script.now) self.old steps.now (λ _. ⊥) (state_room_at_most (plan_of script.now) d most) end
            → self.old.found.first.telling ≡ outcome_telling_of_script (plan_of script.now) d
            → AreTrials (plan_of script.now) d (noted_outcomes self.old.outcomes.entries) tried
            → IsExplored (plan_of script.now) d most answer) }
    {
        let Trials {
            racy,
            hang,
            ends,
            outcomes,
        } = tried;
        let never = never_gets_stuck_by_text(steps, ends);
        let findings = self.findings(alloc, script, steps, end, race_free, never, racy, hang)?;
        let outcomes = self.outcomes_and(alloc, outcomes)?;
        let Findings { verdict, hanging } = findings;
        Ok(Explored {
            states: end.states,
            verdict,
            hanging,
            outcomes,
            are_all: end.through,
        })
    }

    /// What the search has found that ended so, beside what so many trials show if it is given up: it gives up its outcomes. The only
    /// error is running out of memory.
    fn answer(
        &mut self,
        alloc: Global,
        script: &Script,
        steps: &[Vec<ScriptCall>],
        facts: &TextFacts,
        detail: Detail,
        end: SearchEnd,
        trials: usize,
    ) -> Result<Explored, AllocError>
        requires steps { AreLawfulMachineSteps (plan_of script.now) steps.now }
        requires long { length facts.now.guarded.items ≡ plan_addresses (plan_of script.now) }
        requires facts { AreFreeChoiceTextFacts steps.now facts.now }
        requires ended { (most : ℕ) × IsFlatSearchEnd (plan_of script.now) self.old steps.now (λ _. ⊥) most end }
        requires telling { self.old.found.first.telling ≡ outcome_telling_of_script (plan_of script.now) detail }
        ensures { IfOk result (λ answer. (most : ℕ)
            → IsFlatSearchEnd (plan_of script.now) self.old steps.now (λ _. ⊥) (state_room_at_most (plan_of script.now) detail most) end
            → IsExplored (plan_of script.now) detail most answer) }
    {
        let by_text = is_race_free_by_text(
            alloc,
            script,
            steps,
            &facts.guarded,
            end.is_given_up(),
        )?;
        let race_free = end.through | by_text;
        let tried = self.trials_of_given_up(alloc, script, steps, detail, end, race_free, trials)?;
        self.answer_with(alloc, script, steps, end, race_free, tried)
    }

    /// Looks at all states of the script as `explore` does, from the first one on.
    fn explored<P: Progress>(
        &mut self,
        alloc: Global,
        script: &Script,
        steps: &[Vec<ScriptCall>],
        facts: &TextFacts,
        detail: Detail,
        most: usize,
        progress: &mut P,
    ) -> Result<Explored, AllocError>
        requires steps { AreLawfulMachineSteps (plan_of script.now) steps.now }
        requires long { length facts.now.guarded.items ≡ plan_addresses (plan_of script.now) }
        requires facts { AreFreeChoiceTextFacts steps.now facts.now }
        requires searched { FlatSearchedUpTo (plan_of script.now) self.old steps.now 0 }
        requires few { length (found_states self.old.found) ≤ 1 }
        requires telling { self.old.found.first.telling ≡ outcome_telling_of_script (plan_of script.now) detail }
        ensures { IfOk result (IsExplored (plan_of script.now) detail most) }
    {
        let most = state_room_at_most(script, detail, most);
        let trials = trials_within(steps, most);
        let end = self.look_to_the_end(steps, facts, Goal::All, most, progress)?;
        self.answer(alloc, script, steps, facts, detail, end, trials)
    }
}

/// Looks at all states of the script as `explore` does, by its steps.
fn search_steps<P: Progress>(
    alloc: Global,
    script: &Script,
    steps: &[Vec<ScriptCall>],
    detail: Detail,
    most: usize,
    progress: &mut P,
) -> Result<Explored, AllocError>
    requires { AreLawfulMachineSteps (plan_of script.now) steps.now }
    ensures { IfOk result (IsExplored (plan_of script.now) detail most) }
{
    let facts = text_facts(alloc, script, steps)?;
    let mut search = Search::new(alloc, script, steps, detail)?;
    let explored = search.explored(alloc, script, steps, &facts, detail, most, progress);
    drop(search);
    explored
}

/// Looks at the states of the script on one flat memory, and says whether it races, whether it can hang, and what it can
/// show, told by this detail. If all words are guarded (`guarded_words`), it says race-free whatever it finds, and if the
/// text shows that no schedule hangs (`never_gets_stuck_by_text`), it says that. It ends at the first two accesses that
/// race, and gives up once it finds more than `most` states. Either way it says what it has found: a hang and outcomes that
/// it met are there. The only error is running out of memory.
///
/// If it gives up, it makes a few runs (`Trials`), no more than `most` states and one. A race or a hang that they show is told, and
/// outcomes of those without a race. So a hang or an outcome may be known of a script with many states.
///
/// It gives up, too, if it finds more states than fit (`state_room_size`): those of which each has as many words as the
/// memory, and the replies of the script's loads that are told, and which have 2^27 words together. So the memory that
/// it takes is bounded, whatever the script. While it looks, `progress` is told how many states were found.
///
/// A state is what each processor has done, with the replies that are told or that its next step adds to, the words, and who
/// waits for what. So the less is told, the fewer states there are. If some
/// processor may do next what commutes with all that others may do, that alone is followed (`free_choice`). Else the asks for free
/// locks of some processors are followed who don't go on by what others do until one of them asks. These are persistent sets
/// (Godefroid, Partial-order methods for the verification of concurrent systems, 1996). A state between events that are followed alone is passed over
/// (`make_free_run`).
/// Two accesses that conflict and may both come next make a race; if no state that was found has such, no run races, on one
/// flat memory or on the real one.
pub fn explore<P: Progress>(
    alloc: Global,
    script: &Script,
    detail: Detail,
    most: usize,
    progress: &mut P,
) -> Result<Explored, AllocError>
    requires { IsLawful (plan_of script.now) }
    ensures { IfOk result (IsExplored (plan_of script.now) detail most) }
{
    let steps = script_calls_of_all(alloc, script)?;
    search_steps(alloc, script, &steps, detail, most, progress)
}
