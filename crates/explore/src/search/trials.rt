//! Runs by a few orders of turns, which a search that is given up makes: what they show is known, however many states there are.
ghost use Rattle.std.specs.Prelude.{◌≡◌, ℕ, IfOk, IfSome, IsTrue, List, OnOk, false};
ghost use Rattle.journal.specs.declared.event.Event.{Event as AnEvent};
ghost use Rattle.lrc_script.specs.Prelude.{IsLawful, Plan, plan_of};
ghost use Rattle.explore.specs.declared.outcomes.telling.Detail.{Detail as ADetail};
ghost use Rattle.explore.specs.EndingWords.{IsEndingWordsShowing};
ghost use Rattle.explore.specs.Explored.{IsExploredRacy, IsRunOfShownOutcome, explored_outcome};
ghost use Rattle.explore.specs.Machines.{AreLawfulMachineSteps};
ghost use Rattle.explore.specs.NotedOutcomes.{IsNotedOutcome, noted_outcomes};
ghost use Rattle.explore.specs.OutcomeTelling.{outcome_telling_of_script};
ghost use Rattle.explore.specs.Prefixes.FlatBeginnings.{IsFlatBeginningWhole};
ghost use Rattle.explore.specs.Trials.{AreTrials};
ghost use Rattle.explore.specs.WholeRuns.{HasRun, IsRunThrough};

use crate::outcomes::answer::{Hang, RacyEvents, ScriptOutcome, ShownOutcome};
use crate::outcomes::showing::Showing;
use crate::outcomes::telling::Detail;
use crate::prefixes::ScriptCall;
use crate::search::trial_order::TrialOrder;
use crate::search::whole_run::RunSoFar;
use crate::state::wait_code::ProcessorNumber;
use indexmap::IndexMap;
use lrc_script::script::Script;
use std::alloc::{AllocError, Global};

/// The most trials beside the first.
const MOST_TRIALS: usize = 1000;

/// About how many events trials make together, if there are more than two.
const TRIAL_EVENTS: usize = 1 << 18;

/// What trials show: runs by a few orders of turns.
#[derive(Drop)]
pub struct Trials {
    /// The events of one up to its first race, if one races.
    pub racy: Option<RacyEvents>,
    /// The first that hangs, if one does.
    pub hang: Option<Hang>,
    /// Whether one comes to its end.
    pub ends: bool,
    /// What those show that come to their end and don't race, but for outcomes that were known, with who makes the events of one.
    pub outcomes: IndexMap<ScriptOutcome, Vec<ProcessorNumber>>,
}

/// About how many events a run of these steps has.
fn trial_events(steps: &[Vec<ScriptCall>]) -> usize {
    let mut events = 0usize;
    for row in steps {
        events = events.saturating_add(row.len());
    }
    events
}

/// How many trials a search makes beside the first that looks at so many states: no more than that, and as many as take about a tenth
/// of a second.
pub fn trials_within(steps: &[Vec<ScriptCall>], most: usize) -> usize {
    let fit = TRIAL_EVENTS / trial_events(steps).max(1);
    most.min(MOST_TRIALS).min(fit.max(2))
}

/// Adds an outcome with who makes the events of a run that shows it, if it is a new one. The only error is running out of memory.
fn note_trial_outcome(
    outcomes: &mut IndexMap<ScriptOutcome, Vec<ProcessorNumber>>,
    outcome: ScriptOutcome,
    makers: Vec<ProcessorNumber>,
) -> Result<(), AllocError>
    ensures { OnOk result (IsNotedOutcome outcomes.old.entries outcomes.new.entries (explored_outcome outcome) (λ shown_by. shown_by ≡ makers)) }
{
    if !outcomes.contains_key(&outcome) {
        outcomes.insert(outcome, makers)?;
    }
    Ok(())
}

impl Trials {
    /// None.
    pub fn new(alloc: Global) -> Trials
        ensures { (s : Plan) (d : ADetail) (known : List (List (List ℕ))) → AreTrials s d known result }
    {
        Trials {
            racy: None,
            hang: None,
            ends: false,
            outcomes: IndexMap::new(alloc),
        }
    }

    /// Takes note of what a whole run shows, unless it is known. The only error is running out of memory.
    fn note_outcome(
        &mut self,
        known: &IndexMap<ScriptOutcome, usize>,
        shown: ShownOutcome,
    ) -> Result<(), AllocError>
        ensures { OnOk result ((s : Plan) (d : ADetail) → AreTrials s d (noted_outcomes known.now.entries) self.old → IsRunOfShownOutcome s d shown
            → AreTrials s d (noted_outcomes known.now.entries) self.new) }
    {
        let ShownOutcome { outcome, makers } = shown;
        if known.contains_key(&outcome) {
            return Ok(());
        }
        note_trial_outcome(&mut self.outcomes, outcome, makers)
    }

    /// Takes note of how a run without a race ended. The only error is running out of memory.
    fn note_end(
        &mut self,
        alloc: Global,
        script: &Script,
        steps: &[Vec<ScriptCall>],
        known: &IndexMap<ScriptOutcome, usize>,
        run: RunSoFar,
    ) -> Result<(), AllocError>
        requires steps { AreLawfulMachineSteps (plan_of script.now) steps.now }
        requires run { HasRun (plan_of script.now) run }
        ensures { OnOk result ((d : ADetail) → AreTrials (plan_of script.now) d (noted_outcomes known.now.entries) self.old
            → run.state.telling ≡ outcome_telling_of_script (plan_of script.now) d
            → AreTrials (plan_of script.now) d (noted_outcomes known.now.entries) self.new) }
    {
        if run.is_whole(steps) {
            self.ends = true;
            return self.note_outcome(known, run.into_outcome());
        }
        if self.hang.is_some() {
            return Ok(());
        }
        if run.is_stuck(steps) {
            self.hang = Some(run.into_hang(alloc, script)?);
        }
        Ok(())
    }

    /// Takes note of what a run shows: a race, unless the script is known to have none, a hang or an outcome. The only error is running
    /// out of memory.
    fn note(
        &mut self,
        alloc: Global,
        script: &Script,
        steps: &[Vec<ScriptCall>],
        known: &IndexMap<ScriptOutcome, usize>,
        race_free: bool,
        run: RunSoFar,
    ) -> Result<(), AllocError>
        requires steps { AreLawfulMachineSteps (plan_of script.now) steps.now }
        requires run { HasRun (plan_of script.now) run }
        ensures { OnOk result ((d : ADetail) → AreTrials (plan_of script.now) d (noted_outcomes known.now.entries) self.old
            → run.state.telling ≡ outcome_telling_of_script (plan_of script.now) d
            → AreTrials (plan_of script.now) d (noted_outcomes known.now.entries) self.new) }
    {
        if race_free {
            return self.note_end(alloc, script, steps, known, run);
        }
        match run.race(alloc, script)? {
            Some(race) => {
                self.racy = Some(run.into_racy(race.0, race.1));
                Ok(())
            }
            None => self.note_end(alloc, script, steps, known, run),
        }
    }

    /// Makes the first trial, in which each processor in turn gets as far as it can. What it shows is noted if the script is known to
    /// be race-free. The only error is running out of memory.
    fn try_first(
        &mut self,
        alloc: Global,
        script: &Script,
        steps: &[Vec<ScriptCall>],
        detail: Detail,
        known: &IndexMap<ScriptOutcome, usize>,
        race_free: bool,
    ) -> Result<(), AllocError>
        requires { AreLawfulMachineSteps (plan_of script.now) steps.now }
        ensures { OnOk result (AreTrials (plan_of script.now) detail (noted_outcomes known.now.entries) self.old
            → AreTrials (plan_of script.now) detail (noted_outcomes known.now.entries) self.new) }
    {
        let mut run = RunSoFar::new(alloc, script, detail)?;
        run.go_to_the_end(steps)?;
        if !run.is_whole(steps) {
            return Ok(());
        }
        self.ends = true;
        if !race_free {
            return Ok(());
        }
        self.note_outcome(known, run.into_outcome())
    }

    /// Makes the trial of this number, of about so many events. The only error is running out of memory.
    fn try_one(
        &mut self,
        alloc: Global,
        script: &Script,
        steps: &[Vec<ScriptCall>],
        detail: Detail,
        known: &IndexMap<ScriptOutcome, usize>,
        race_free: bool,
        number: usize,
    ) -> Result<(), AllocError>
        requires { AreLawfulMachineSteps (plan_of script.now) steps.now }
        ensures { OnOk result (AreTrials (plan_of script.now) detail (noted_outcomes known.now.entries) self.old
            → AreTrials (plan_of script.now) detail (noted_outcomes known.now.entries) self.new) }
    {
        let mut order = TrialOrder::of_trial(number, trial_events(steps));
        let mut run = RunSoFar::new(alloc, script, detail)?;
        run.go_by(steps, &mut order)?;
        self.note(alloc, script, steps, known, race_free, run)
    }

    /// Makes the first trial and so many more, or until one races. The only error is running out of memory.
    pub fn try_all(
        &mut self,
        alloc: Global,
        script: &Script,
        steps: &[Vec<ScriptCall>],
        detail: Detail,
        known: &IndexMap<ScriptOutcome, usize>,
        race_free: bool,
        trials: usize,
    ) -> Result<(), AllocError>
        requires { AreLawfulMachineSteps (plan_of script.now) steps.now }
        ensures { OnOk result (AreTrials (plan_of script.now) detail (noted_outcomes known.now.entries) self.old
            → AreTrials (plan_of script.now) detail (noted_outcomes known.now.entries) self.new) }
    {
        self.try_first(alloc, script, steps, detail, known, race_free)?;
        for number in 0..trials {
            if self.racy.is_some() {
                return Ok(());
            }
            self.try_one(alloc, script, steps, detail, known, race_free, number)?;
        }
        Ok(())
    }
}

/// Whether a run races, or ends with these words; None if it does neither. The only error is running out of memory.
fn trial_showing(
    alloc: Global,
    script: &Script,
    steps: &[Vec<ScriptCall>],
    words: &[(usize, u32)],
    run: RunSoFar,
) -> Result<Option<Showing>, AllocError>
    requires steps { AreLawfulMachineSteps (plan_of script.now) steps.now }
    requires run { HasRun (plan_of script.now) run }
    ensures { IfOk result (λ o. (d : ADetail) → run.state.telling ≡ outcome_telling_of_script (plan_of script.now) d
        → IfSome o (IsEndingWordsShowing (plan_of script.now) d words.now)) }
{
    if let Some(race) = run.race(alloc, script)? {
        return Ok(Some(Showing::Racy(run.into_racy(race.0, race.1))));
    }
    if run.ends_with(steps, words) {
        return Ok(Some(Showing::Shown(run.into_shown_run())));
    }
    Ok(None)
}

/// Makes the trial of this number, and says whether it races or ends with these words.
fn try_for_words(
    alloc: Global,
    script: &Script,
    steps: &[Vec<ScriptCall>],
    detail: Detail,
    words: &[(usize, u32)],
    number: usize,
) -> Result<Option<Showing>, AllocError>
    requires { AreLawfulMachineSteps (plan_of script.now) steps.now }
    ensures { IfOk result (λ o. IfSome o (IsEndingWordsShowing (plan_of script.now) detail words.now)) }
{
    let mut order = TrialOrder::of_trial(number, trial_events(steps));
    let mut run = RunSoFar::new(alloc, script, detail)?;
    run.go_by(steps, &mut order)?;
    trial_showing(alloc, script, steps, words, run)
}

/// What so many trials show of whether a run ends with these words: the first that does, or that races. The only error is running out
/// of memory.
pub fn trials_for_words(
    alloc: Global,
    script: &Script,
    steps: &[Vec<ScriptCall>],
    detail: Detail,
    words: &[(usize, u32)],
    trials: usize,
) -> Result<Showing, AllocError>
    requires { AreLawfulMachineSteps (plan_of script.now) steps.now }
    ensures { IfOk result (IsEndingWordsShowing (plan_of script.now) detail words.now) }
{
    for number in 0..trials {
        if let Some(showing) = try_for_words(alloc, script, steps, detail, words, number)? {
            return Ok(showing);
        }
    }
    Ok(Showing::Undecided)
}
