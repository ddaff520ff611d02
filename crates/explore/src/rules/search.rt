//! The search by the rules of the memory alone: beginnings of runs are looked at, the longest first.
ghost use Rattle.std.specs.Prelude.{◌≡◌, ◌↔◌, ◌+◌, [], false, IfOk, IsTrue, OnOk, map};
ghost use Rattle.base.specs.InOrderOnce.{Has};
ghost use Rattle.lrc_script.specs.Prelude.{IsLawful, Plan, plan_of};
ghost use Rattle.explore.specs.AllowedRuns.{AreAllowedRunOutcomes, HasAllowedRunBeginnings, IsAllowedRunShowing, shown_run_outcome};
ghost use Rattle.explore.specs.declared.outcomes.showing.ShownRun.{ShownRun as AShownRun};
ghost use Rattle.explore.specs.Explored.{explored_outcome};
ghost use Rattle.explore.specs.AllowedBeginnings.{TellsAllowedBeginning, allowed_beginning_events};
ghost use Rattle.explore.specs.AllowedSearch.{AreAllowedSearchRuns, IsAllowedSearchFollowed, IsAllowedSearchStep, IsAllowedSearched, allowed_search_found};
ghost use Rattle.explore.specs.AllowedSearchEnds.{IsAllowedLooked, IsAllowedRunOfGoal, IsAllowedSearchedTo, IsAllowedSearchedWithout};
ghost use Rattle.explore.specs.declared.rules.search.AllowedEnd.TheVariants.{Through};
ghost use Rattle.explore.specs.NotedOutcomes.{IsNotedOutcome, noted_outcomes};
ghost use Rattle.explore.specs.Machines.{AreLawfulMachineSteps};
ghost use Rattle.explore.specs.declared.outcomes.telling.Detail.{Detail as ADetail};

use crate::goal::Goal;
use crate::outcomes::answer::ScriptOutcome;
use crate::outcomes::showing::ShownRun;
use crate::outcomes::telling::{Detail, OutcomeTelling};
use crate::prefixes::{ScriptCall, script_calls_of_all};
use crate::progress::Progress;
use crate::rules::answers::answer_sources;
use crate::rules::beginning::AllowedBeginning;
use crate::rules::choice::calls_followed;
use crate::rules::room::allowed_room_at_most;
use crate::rules::showing::AllowedOutcomes;
use crate::rules::words::is_goal_met;
use indexmap::IndexMap;
use journal::Event;
use lrc_script::script::Script;
use std::alloc::{AllocError, Global};

/// What a search by the rules has found so far.
#[derive(Drop)]
pub struct AllowedSearch {
    /// The beginnings that are still to be looked at, the next one last.
    pending: Vec<AllowedBeginning>,
    /// What the whole runs show that were met, each outcome with the events of a run that shows it.
    outcomes: IndexMap<ScriptOutcome, Vec<Event>>,
}

/// What ended a search.
#[derive(Drop)]
pub enum AllowedEnd {
    /// This is a run that was looked for.
    Ending(AllowedBeginning),
    /// All beginnings were looked at.
    Through,
    /// As many were looked at as were asked for, and there are more.
    GivenUp,
}

/// How far a search came.
#[derive(Drop)]
pub struct AllowedLooked {
    /// How many beginnings were looked at.
    pub beginnings: usize,
    /// What ended it.
    pub end: AllowedEnd,
}

impl AllowedEnd {
    /// Whether all beginnings were looked at.
    fn is_through(&self) -> bool
        ensures { IsTrue result ↔ (self.now ≡ Through) }
    {
        matches!(self, AllowedEnd::Through)
    }
}

/// Adds an outcome with the run that shows it, if it is a new one. The only error is running out of memory.
fn note_outcome(
    alloc: Global,
    outcomes: &mut IndexMap<ScriptOutcome, Vec<Event>>,
    outcome: ScriptOutcome,
    events: &[Event],
) -> Result<(), AllocError>
    ensures { OnOk result (IsNotedOutcome outcomes.old.entries outcomes.new.entries (explored_outcome outcome) (λ run. run.items ≡ events.now)) }
{
    if !outcomes.contains_key(&outcome) {
        let run = Vec::from_slice(alloc, events)?;
        outcomes.insert(outcome, run)?;
    }
    Ok(())
}

/// These outcomes as a list, each with its run. The only error is running out of memory.
fn outcomes_with_runs(
    alloc: Global,
    outcomes: IndexMap<ScriptOutcome, Vec<Event>>,
) -> Result<Vec<ShownRun>, AllocError>
    ensures listed { IfOk result (λ v. map shown_run_outcome v.items ≡ noted_outcomes outcomes.entries) }
    ensures runs { IfOk result (λ v. (s : Plan) (d : ADetail) → AreAllowedSearchRuns s d outcomes.entries
        → (x : AShownRun) → Has v.items x → IsAllowedRunShowing s d x.events.items (shown_run_outcome x)) }
{
    let mut shown = Vec::with_capacity(alloc, outcomes.len())?;
    for (outcome, events) in outcomes {
        shown.push(ShownRun { events, outcome })?;
    }
    Ok(shown)
}

impl AllowedSearch {
    /// Before the first event. The only error is running out of memory.
    pub fn new(alloc: Global) -> Result<AllowedSearch, AllocError>
        ensures searched { IfOk result (λ x. (s : Plan) (d : ADetail) → IsAllowedSearched s d 0 x) }
        ensures none { IfOk result (λ x. allowed_search_found x ≡ []) }
    {
        let mut pending = Vec::new(alloc);
        pending.push(AllowedBeginning::new(alloc))?;
        Ok(AllowedSearch {
            pending,
            outcomes: IndexMap::new(alloc),
        })
    }

    /// Adds what may come next after the beginning, which isn't whole.
    fn follow(
        &mut self,
        alloc: Global,
        script: &Script,
        steps: &[Vec<ScriptCall>],
        beginning: &AllowedBeginning,
    ) -> Result<(), AllocError>
        requires steps { AreLawfulMachineSteps (plan_of script.now) steps.now }
        requires told { TellsAllowedBeginning (plan_of script.now) beginning.now }
        ensures { OnOk result ((d : ADetail) → IsAllowedSearchFollowed (plan_of script.now) d (allowed_beginning_events beginning.now) self.old self.new) }
    {
        let sources = answer_sources(alloc, script, beginning.events())?;
        let calls = beginning.next_calls(steps);
        let chosen = calls_followed(&calls);
        beginning.follow_all(alloc, &sources, &chosen, &mut self.pending)
    }

    /// Looks at a beginning: what it shows, told by this detail, is noted if it is whole, else what may come next after it is to be
    /// looked at.
    fn look_at(
        &mut self,
        alloc: Global,
        script: &Script,
        steps: &[Vec<ScriptCall>],
        detail: Detail,
        beginning: &AllowedBeginning,
    ) -> Result<(), AllocError>
        requires steps { AreLawfulMachineSteps (plan_of script.now) steps.now }
        requires told { TellsAllowedBeginning (plan_of script.now) beginning.now }
        ensures { OnOk result (IsAllowedSearchStep (plan_of script.now) detail (allowed_beginning_events beginning.now) self.old self.new) }
    {
        if beginning.is_whole(steps) {
            let telling = OutcomeTelling::of_script(script, detail);
            let replies = beginning.replies(alloc, telling, steps)?;
            let outcome = ScriptOutcome { replies };
            let events = beginning.events();
            return note_outcome(alloc, &mut self.outcomes, outcome, events);
        }
        self.follow(alloc, script, steps, beginning)
    }

    /// Looks at so many beginnings, none of which has been looked at, or until one is a run that is looked for.
    pub fn look_at_all<P: Progress>(
        &mut self,
        alloc: Global,
        script: &Script,
        steps: &[Vec<ScriptCall>],
        detail: Detail,
        goal: Goal<'_>,
        most: usize,
        progress: &mut P,
    ) -> Result<AllowedLooked, AllocError>
        requires steps { AreLawfulMachineSteps (plan_of script.now) steps.now }
        requires searched { IsAllowedSearchedWithout (plan_of script.now) detail goal 0 self.old }
        ensures looked { IfOk result (IsAllowedLooked (plan_of script.now) (IsAllowedRunOfGoal (plan_of script.now) goal.entry) most) }
        ensures searched { IfOk result (λ looked. IsAllowedSearchedTo (plan_of script.now) detail self.new looked.beginnings looked.end) }
    {
        for looked in 0..most {
            progress.looked_at(looked);
            match self.pending.pop() {
                Some(beginning) => {
                    if is_goal_met(alloc, script, steps, &beginning, goal)? {
                        let beginnings = looked + 1;
                        let end = AllowedEnd::Ending(beginning);
                        return Ok(AllowedLooked { beginnings, end });
                    }
                    self.look_at(alloc, script, steps, detail, &beginning)?;
                }
                None => {
                    return Ok(AllowedLooked {
                        beginnings: looked,
                        end: AllowedEnd::Through,
                    });
                }
            }
        }
        let end = if self.pending.is_empty() {
            AllowedEnd::Through
        } else {
            AllowedEnd::GivenUp
        };
        Ok(AllowedLooked {
            beginnings: most,
            end,
        })
    }

    /// Looks at so many beginnings, or at all; says at how many, and whether these are all.
    fn look_for_all<P: Progress>(
        &mut self,
        alloc: Global,
        script: &Script,
        steps: &[Vec<ScriptCall>],
        detail: Detail,
        most: usize,
        progress: &mut P,
    ) -> Result<(usize, bool), AllocError>
        requires steps { AreLawfulMachineSteps (plan_of script.now) steps.now }
        requires searched { IsAllowedSearched (plan_of script.now) detail 0 self.old }
        ensures searched { IfOk result (λ looked. IsAllowedSearched (plan_of script.now) detail looked.0 self.new) }
        ensures all { IfOk result (λ looked. IsTrue looked.1 → self.new.pending.items ≡ []) }
        ensures given_up { IfOk result (λ looked. looked.1 ≡ false → HasAllowedRunBeginnings (plan_of script.now) (most + 1)) }
    {
        let looked = self.look_at_all(alloc, script, steps, detail, Goal::All, most, progress)?;
        Ok((looked.beginnings, looked.end.is_through()))
    }
}

/// Looks for all that runs of the script may show by the rules of the memory alone, told by this detail: each load answers
/// a latest store of its past, or 0 if its past has none. It gives up after `most` beginnings of runs, or after as many as
/// are done in some seconds (`allowed_room_size`). The only error is running out of memory.
///
/// Nothing is said of which of it this memory shows: that applies the records of intervals in the order in which these were
/// closed, and its processors fetch pages, which is left out here. While it looks, `progress` is told how many beginnings
/// were looked at.
///
/// If some processor may do next what commutes with all that others may do, that alone is followed (`calls_followed`): by
/// swaps of neighbours each run becomes one in which it comes first, and each load's past stays what it was. So accesses
/// are never ordered; what is, are asks, sets and awaits.
pub fn allowed_outcomes<P: Progress>(
    alloc: Global,
    script: &Script,
    detail: Detail,
    most: usize,
    progress: &mut P,
) -> Result<AllowedOutcomes, AllocError>
    requires { IsLawful (plan_of script.now) }
    ensures { IfOk result (AreAllowedRunOutcomes (plan_of script.now) detail most) }
{
    let steps = script_calls_of_all(alloc, script)?;
    let most = allowed_room_at_most(script, most);
    let mut search = AllowedSearch::new(alloc)?;
    let (beginnings, are_all) = search.look_for_all(alloc, script, &steps, detail, most, progress)?;
    Ok(AllowedOutcomes {
        beginnings,
        outcomes: outcomes_with_runs(alloc, search.outcomes)?,
        are_all,
    })
}
