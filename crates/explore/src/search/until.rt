//! The search for a run that ends with some words: it stops at the first one.
ghost use Rattle.std.specs.Prelude.{◌≡◌, ℕ, ◌≤◌, IfOk, IsTrue, List, length};
ghost use Rattle.lrc_script.specs.Prelude.{IsLawful, plan_of};
ghost use Rattle.explore.specs.FreeChoice.{AreFreeChoiceTextFacts};
ghost use Rattle.explore.specs.FoundStates.{AreFoundStates, found_states};
ghost use Rattle.explore.specs.Machines.{AreLawfulMachineSteps};
ghost use Rattle.explore.specs.FlatSearch.{FlatSearchedUpTo};
ghost use Rattle.explore.specs.FlatSearchEnds.{IsFlatSearchEnd, IsFlatSearchShowingOpen};
ghost use Rattle.explore.specs.SearchGoals.{IsGoalMetAt};
ghost use Rattle.explore.specs.declared.outcomes.telling.Detail.{Detail as ADetail};
ghost use Rattle.explore.specs.OutcomeTelling.{outcome_telling_of_script};
ghost use Rattle.explore.specs.EndingWords.{IsExploredUntil, IsEndingWordsShowing, IsRunEndingWithWords, are_ending_words_settled};

use crate::goal::Goal;
use crate::outcomes::answer::ScriptOutcome;
use crate::outcomes::showing::{ExploredUntil, Showing, ShownRun};
use crate::outcomes::telling::Detail;
use crate::prefixes::{ScriptCall, script_calls_of_all};
use crate::progress::Progress;
use crate::search::racing_history::{cut_racing_history, racing_history, racing_history_race};
use crate::search::trials::{trials_for_words, trials_within};
use crate::search::{Met, Search, SearchEnd};
use crate::state::found_states::FoundStates;
use crate::state::room::state_room_at_most;
use crate::text::facts::{TextFacts, text_facts};
use lrc_script::script::Script;
use std::alloc::{AllocError, Global};

/// The run to the state at this place, which ends with these words; or its first race, if it has one.
fn run_until_words(
    alloc: Global,
    script: &Script,
    steps: &[Vec<ScriptCall>],
    found: &FoundStates,
    place: usize,
) -> Result<Showing, AllocError>
    requires steps { AreLawfulMachineSteps (plan_of script.now) steps.now }
    requires found { AreFoundStates (plan_of script.now) found.now }
    requires ends { (words : List (ℕ × ℕ)) × IsGoalMetAt (plan_of script.now) (IsRunEndingWithWords (plan_of script.now) words) (found_states found.now) place }
    ensures showing { IfOk result (λ showing. (words : List (ℕ × ℕ)) (d : ADetail)
        → IsGoalMetAt (plan_of script.now) (IsRunEndingWithWords (plan_of script.now) words) (found_states found.now) place
        → found.now.first.telling ≡ outcome_telling_of_script (plan_of script.now) d → IsEndingWordsShowing (plan_of script.now) d words showing) }
    ensures settled { IfOk result (λ showing. IsTrue (are_ending_words_settled showing)) }
{
    let events = found.events_to(alloc, steps, place)?;
    if let Some(race) = racing_history_race(alloc, script, &events)? {
        return Ok(Showing::Racy(cut_racing_history(events, race.0, race.1)));
    }
    let replies = found.at(place)?.replies()?;
    let outcome = ScriptOutcome { replies };
    Ok(Showing::Shown(ShownRun { events, outcome }))
}

/// What a search for some words found that ended so, or what so many trials show if it is given up.
fn until_showing_of(
    alloc: Global,
    script: &Script,
    steps: &[Vec<ScriptCall>],
    detail: Detail,
    words: &[(usize, u32)],
    search: &Search,
    end: SearchEnd,
    trials: usize,
) -> Result<Showing, AllocError>
    requires steps { AreLawfulMachineSteps (plan_of script.now) steps.now }
    requires ended { (most : ℕ)
        × IsFlatSearchEnd (plan_of script.now) search.now steps.now (IsRunEndingWithWords (plan_of script.now) words.now) most end }
    requires telling { search.now.found.first.telling ≡ outcome_telling_of_script (plan_of script.now) detail }
    ensures showing { IfOk result (IsEndingWordsShowing (plan_of script.now) detail words.now) }
    ensures opens { IfOk result (IsFlatSearchShowingOpen end) }
{
    match end.met {
        Some(Met::Ending(place)) => run_until_words(alloc, script, steps, &search.found, place),
        Some(Met::Conflict(neighbours)) => {
            let racy = racing_history(alloc, script, steps, &search.found, neighbours)?;
            Ok(Showing::Racy(racy))
        }
        None if end.through => Ok(Showing::Never),
        None => trials_for_words(alloc, script, steps, detail, words, trials),
    }
}

/// Looks at the states of the script as `explore_until` does, from the first one on, which this search has.
fn until_by_search<P: Progress>(
    search: &mut Search,
    alloc: Global,
    script: &Script,
    steps: &[Vec<ScriptCall>],
    facts: &TextFacts,
    detail: Detail,
    words: &[(usize, u32)],
    most: usize,
    progress: &mut P,
) -> Result<ExploredUntil, AllocError>
    requires steps { AreLawfulMachineSteps (plan_of script.now) steps.now }
    requires facts { AreFreeChoiceTextFacts steps.now facts.now }
    requires searched { FlatSearchedUpTo (plan_of script.now) search.old steps.now 0 }
    requires few { length (found_states search.old.found) ≤ 1 }
    requires telling { search.old.found.first.telling ≡ outcome_telling_of_script (plan_of script.now) detail }
    ensures { IfOk result (IsExploredUntil (plan_of script.now) detail words.now most) }
{
    let most = state_room_at_most(script, detail, most);
    let trials = trials_within(steps, most);
    let end = search.look_to_the_end(steps, facts, Goal::Until(words), most, progress)?;
    let showing = until_showing_of(alloc, script, steps, detail, words, search, end, trials)?;
    Ok(ExploredUntil {
        states: end.states,
        showing,
    })
}

/// Looks at the states of the script as `explore_until` does, by its steps.
fn until_by_steps<P: Progress>(
    alloc: Global,
    script: &Script,
    steps: &[Vec<ScriptCall>],
    detail: Detail,
    words: &[(usize, u32)],
    most: usize,
    progress: &mut P,
) -> Result<ExploredUntil, AllocError>
    requires { AreLawfulMachineSteps (plan_of script.now) steps.now }
    ensures { IfOk result (IsExploredUntil (plan_of script.now) detail words.now most) }
{
    let facts = text_facts(alloc, script, steps)?;
    let mut search = Search::new(alloc, script, steps, detail)?;
    let explored = until_by_search(
        &mut search,
        alloc,
        script,
        steps,
        &facts,
        detail,
        words,
        most,
        progress,
    );
    drop(search);
    explored
}

/// Looks at the states of the script on one flat memory as `explore` does, until a whole run ends with these words, each at
/// its address: then it tells that run, and what it shows by this detail. It ends, too, at the first two accesses that
/// race, and tells them: what a racy script shows isn't what runs on one flat memory show. If it comes to its end, no run
/// ends with these words, and none races. It gives up as `explore` does, and then makes a few runs, of which one may end with the
/// words or race. The only error is running out of memory.
pub fn explore_until<P: Progress>(
    alloc: Global,
    script: &Script,
    detail: Detail,
    words: &[(usize, u32)],
    most: usize,
    progress: &mut P,
) -> Result<ExploredUntil, AllocError>
    requires { IsLawful (plan_of script.now) }
    ensures { IfOk result (IsExploredUntil (plan_of script.now) detail words.now most) }
{
    let steps = script_calls_of_all(alloc, script)?;
    until_by_steps(alloc, script, &steps, detail, words, most, progress)
}
