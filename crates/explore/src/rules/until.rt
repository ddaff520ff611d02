//! The search by the rules of the memory alone for a run that ends with some words: it stops at the first one.
ghost use Rattle.std.specs.Prelude.{◌≡◌, ℕ, List, IfOk};
ghost use Rattle.lrc_script.specs.Prelude.{IsLawful, plan_of};
ghost use Rattle.explore.specs.AllowedBeginnings.{TellsAllowedBeginning, allowed_beginning_events};
ghost use Rattle.explore.specs.AllowedUntil.{IsAllowedUntil, IsAllowedUntilRun, IsAllowedUntilShowing, IsAllowedUntilShown};
ghost use Rattle.explore.specs.AllowedSearchEnds.{IsAllowedEnd, IsAllowedLooked};
ghost use Rattle.explore.specs.AllowedRoom.{allowed_room_at_most};
ghost use Rattle.explore.specs.Machines.{AreLawfulMachineSteps};

use crate::goal::Goal;
use crate::outcomes::answer::ScriptOutcome;
use crate::outcomes::showing::ShownRun;
use crate::outcomes::telling::{Detail, OutcomeTelling};
use crate::prefixes::{ScriptCall, script_calls_of_all};
use crate::progress::Progress;
use crate::rules::beginning::AllowedBeginning;
use crate::rules::room::allowed_room_at_most;
use crate::rules::search::{AllowedEnd, AllowedLooked, AllowedSearch};
use crate::rules::showing::{AllowedShowing, AllowedUntil};
use lrc_script::script::Script;
use std::alloc::{AllocError, Global};

/// Looks at so many beginnings, or until a whole run ends with these words.
fn look_until<P: Progress>(
    alloc: Global,
    script: &Script,
    steps: &[Vec<ScriptCall>],
    words: &[(usize, u32)],
    most: usize,
    progress: &mut P,
) -> Result<AllowedLooked, AllocError>
    requires { AreLawfulMachineSteps (plan_of script.now) steps.now }
    ensures { IfOk result (IsAllowedLooked (plan_of script.now) (IsAllowedUntilRun (plan_of script.now) words.now) most) }
{
    let mut search = AllowedSearch::new(alloc)?;
    let goal = Goal::Until(words);
    let looked = search.look_at_all(alloc, script, steps, Detail::Words, goal, most, progress);
    drop(search);
    looked
}

/// The run that the beginning is, with what it shows, told by this detail.
fn until_run(
    alloc: Global,
    script: &Script,
    steps: &[Vec<ScriptCall>],
    detail: Detail,
    beginning: AllowedBeginning,
) -> Result<ShownRun, AllocError>
    requires steps { AreLawfulMachineSteps (plan_of script.now) steps.now }
    requires told { TellsAllowedBeginning (plan_of script.now) beginning }
    ensures { IfOk result (λ run. (words : List (ℕ × ℕ)) → IsAllowedUntilRun (plan_of script.now) words (allowed_beginning_events beginning)
        → IsAllowedUntilShown (plan_of script.now) detail words run) }
{
    let telling = OutcomeTelling::of_script(script, detail);
    let replies = beginning.replies(alloc, telling, steps)?;
    Ok(ShownRun {
        events: beginning.into_events(),
        outcome: ScriptOutcome { replies },
    })
}

/// What is to be said of a search that ended so.
fn until_showing(
    alloc: Global,
    script: &Script,
    steps: &[Vec<ScriptCall>],
    detail: Detail,
    end: AllowedEnd,
) -> Result<AllowedShowing, AllocError>
    requires steps { AreLawfulMachineSteps (plan_of script.now) steps.now }
    requires ended { (words : List (ℕ × ℕ)) × (most : ℕ) × IsAllowedEnd (plan_of script.now) (IsAllowedUntilRun (plan_of script.now) words) (allowed_room_at_most (plan_of script.now) most) end }
    ensures { IfOk result (λ showing. (words : List (ℕ × ℕ)) (most : ℕ)
        → IsAllowedEnd (plan_of script.now) (IsAllowedUntilRun (plan_of script.now) words) (allowed_room_at_most (plan_of script.now) most) end
        → IsAllowedUntilShowing (plan_of script.now) detail words most showing) }
{
    match end {
        AllowedEnd::Ending(beginning) => {
            let run = until_run(alloc, script, steps, detail, beginning)?;
            Ok(AllowedShowing::Shown(run))
        }
        AllowedEnd::Through => Ok(AllowedShowing::Never),
        AllowedEnd::GivenUp => Ok(AllowedShowing::Undecided),
    }
}

/// Looks for a run of the script that the rules of the memory alone allow, as `allowed_outcomes` does, and that ends with these words, each at
/// its address: then it tells that run, and what it shows by this detail. If it comes to its end, the rules allow no such run. It gives up as
/// `allowed_outcomes` does, and tells `progress` as much. The only error is running out of memory.
///
/// A run ends with a word at an address if each load by which processor 0 shows that address at the end answers the word. So none does at an address
/// that the script doesn't show, and none ends with two words at one address. Nothing is said of whether this memory shows the run.
pub fn allowed_until<P: Progress>(
    alloc: Global,
    script: &Script,
    detail: Detail,
    words: &[(usize, u32)],
    most: usize,
    progress: &mut P,
) -> Result<AllowedUntil, AllocError>
    requires { IsLawful (plan_of script.now) }
    ensures { IfOk result (IsAllowedUntil (plan_of script.now) detail words.now most) }
{
    let steps = script_calls_of_all(alloc, script)?;
    let most = allowed_room_at_most(script, most);
    let looked = look_until(alloc, script, &steps, words, most, progress)?;
    let showing = until_showing(alloc, script, &steps, detail, looked.end)?;
    Ok(AllowedUntil {
        beginnings: looked.beginnings,
        showing,
    })
}
