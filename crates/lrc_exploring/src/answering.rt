//! What the options ask for is looked for in a script.
ghost use Rattle.std.specs.Prelude.{◌≡◌, ◌≢◌, ◌↔◌, [], IfErr, IfOk, IsTrue};
ghost use Rattle.conformance.specs.declared.script_runner.LockChoice.TheVariants.{Ticket};
ghost use Rattle.lrc_script.specs.Prelude.{IsLawful, Plan, plan_of};
ghost use Rattle.explore.specs.AllowedRuns.{AreAllowedRunOutcomes};
ghost use Rattle.explore.specs.AllowedUntil.{IsAllowedUntil};
ghost use Rattle.explore.specs.MemoryShown.{IsMemoryShown};
ghost use Rattle.lrc_options.specs.declared.options.ExploreOptions.{ExploreOptions as Options};
ghost use Rattle.lrc_commands.specs.Prelude.{IsCommandExitStatusOfInput};
ghost use Rattle.lrc_exploring.specs.Prelude.{AreSchedulesExplored, IsExploreAnswerTo, IsRacyShowing, IsRacyVerdict, IsScheduleAnswerTo, explore_detail};

use crate::answer::ExploreAnswer;
use crate::stages::{explore_detail, schedules_explored};
use crate::unshown::refuse_unshown;
use conformance::ScriptRunner;
use explore::{
    AllowedOutcomes, AllowedUntil, Explored, Hanging, MemoryShown, Progress, Showing, Verdict,
    allowed_outcomes, allowed_until, explore_until, text_gaps, what_memory_shows,
};
use lrc_commands::Study;
use lrc_commands::fault::CommandFault;
use lrc_options::options::ExploreOptions;
use lrc_script::script::Script;
use std::alloc::{AllocError, Global};
use std::sync::Wait;

/// Whether a schedule races.
fn is_racy_verdict(verdict: &Verdict) -> bool
    ensures { IsTrue result ↔ IsRacyVerdict verdict.now }
{
    match verdict {
        Verdict::Racy(_) => true,
        _ => false,
    }
}

/// Whether a schedule races that was met as words were looked for.
fn is_racy_showing(showing: &Showing) -> bool
    ensures { IsTrue result ↔ IsRacyShowing showing.now }
{
    match showing {
        Showing::Racy(_) => true,
        _ => false,
    }
}

/// What the rules of the memory allow of a racy script, and what this memory shows of that.
fn what_rules_allow<T: ScriptRunner, R: Wait, P: Progress>(
    study: &Study<'_, T, R>,
    options: &ExploreOptions,
    script: &Script,
    progress: &mut P,
) -> Result<(AllowedOutcomes, MemoryShown), CommandFault>
    requires { IsLawful (plan_of script.now) }
    ensures allowed { IfOk result (λ x. AreAllowedRunOutcomes (plan_of script.now) (explore_detail options.now.outcomes) options.now.most x.0) }
    ensures shown { IfOk result (λ x. IsMemoryShown (λ s turns end. T.followed s Ticket turns end) (plan_of script.now)
        (explore_detail options.now.outcomes) x.1) }
    ensures runs { IfErr result (λ fault. IsCommandExitStatusOfInput fault → ⊥) }
{
    let detail = explore_detail(options.outcomes);
    let most = options.most as usize;
    let allowed = allowed_outcomes(study.alloc, script, detail, most, progress)?;
    let enough = if allowed.are_all {
        allowed.outcomes.len()
    } else {
        usize::MAX
    };
    match what_memory_shows(
        study.runs,
        study.rt,
        study.alloc,
        script,
        detail,
        most,
        enough,
    ) {
        Ok(shown) => Ok((allowed, shown)),
        Err(error) => Err(CommandFault::from(error)),
    }
}

/// Whether the rules of the memory allow a run of a racy script that ends with the words, and what this memory shows.
fn what_rules_allow_until<T: ScriptRunner, R: Wait, P: Progress>(
    study: &Study<'_, T, R>,
    options: &ExploreOptions,
    script: &Script,
    progress: &mut P,
) -> Result<(AllowedUntil, MemoryShown), CommandFault>
    requires { IsLawful (plan_of script.now) }
    ensures allowed { IfOk result (λ x. IsAllowedUntil (plan_of script.now) (explore_detail options.now.outcomes) options.now.until.items
        options.now.most x.0) }
    ensures shown { IfOk result (λ x. IsMemoryShown (λ s turns end. T.followed s Ticket turns end) (plan_of script.now)
        (explore_detail options.now.outcomes) x.1) }
    ensures runs { IfErr result (λ fault. IsCommandExitStatusOfInput fault → ⊥) }
{
    let detail = explore_detail(options.outcomes);
    let most = options.most as usize;
    let allowed = allowed_until(study.alloc, script, detail, &options.until, most, progress)?;
    match what_memory_shows(
        study.runs,
        study.rt,
        study.alloc,
        script,
        detail,
        most,
        usize::MAX,
    ) {
        Ok(shown) => Ok((allowed, shown)),
        Err(error) => Err(CommandFault::from(error)),
    }
}

/// Whether it is open whether a schedule races.
fn is_undecided(verdict: &Verdict) -> bool {
    match verdict {
        Verdict::Undecided => true,
        _ => false,
    }
}

/// Whether it is open whether a schedule hangs.
fn is_hang_undecided(hanging: &Hanging) -> bool {
    match hanging {
        Hanging::Undecided => true,
        _ => false,
    }
}

/// What was found of a script that no schedule was found to race, and what its text leaves open if something is.
fn answer_with_gaps(
    alloc: Global,
    script: &Script,
    explored: Explored,
) -> Result<ExploreAnswer, AllocError>
    requires { IsLawful (plan_of script.now) }
    ensures { IfOk result (λ answer. (o : Options) → AreSchedulesExplored o (plan_of script.now) explored
        → (¬ IsRacyVerdict explored.verdict) → IsScheduleAnswerTo o (plan_of script.now) answer) }
{
    if !is_undecided(&explored.verdict) && !is_hang_undecided(&explored.hanging) {
        return Ok(ExploreAnswer::Schedules(explored));
    }
    match text_gaps(alloc, script) {
        Ok(gaps) => Ok(ExploreAnswer::Open(explored, gaps)),
        Err(error) => Err(error),
    }
}

/// Looks at all schedules of the script, and if it is racy for what the rules of the memory allow.
fn answer_of_schedules<T: ScriptRunner, R: Wait, P: Progress>(
    study: &Study<'_, T, R>,
    options: &ExploreOptions,
    script: &Script,
    progress: &mut P,
) -> Result<ExploreAnswer, CommandFault>
    requires lawful { IsLawful (plan_of script.now) }
    requires all { options.now.until.items ≡ [] }
    ensures answer { IfOk result (IsExploreAnswerTo (λ s turns end. T.followed s Ticket turns end) options.now (plan_of script.now)) }
    ensures runs { IfErr result (λ fault. IsCommandExitStatusOfInput fault → ⊥) }
{
    let explored = schedules_explored(study.alloc, script, options, progress)?;
    if !is_racy_verdict(&explored.verdict) {
        let answer = answer_with_gaps(study.alloc, script, explored)?;
        return Ok(answer);
    }
    match what_rules_allow(study, options, script, progress) {
        Ok((allowed, shown)) => Ok(ExploreAnswer::Rules(explored, allowed, shown)),
        Err(fault) => Err(fault),
    }
}

/// Looks for a run of the script that ends with the words, and if it is racy for one that the rules of the memory allow.
fn answer_until<T: ScriptRunner, R: Wait, P: Progress>(
    study: &Study<'_, T, R>,
    options: &ExploreOptions,
    script: &Script,
    progress: &mut P,
) -> Result<ExploreAnswer, CommandFault>
    requires lawful { IsLawful (plan_of script.now) }
    requires some { options.now.until.items ≢ [] }
    ensures answer { IfOk result (IsExploreAnswerTo (λ s turns end. T.followed s Ticket turns end) options.now (plan_of script.now)) }
    ensures runs { IfErr result (λ fault. IsCommandExitStatusOfInput fault → ⊥) }
{
    let words = options.until.as_slice();
    refuse_unshown(script, words)?;
    let detail = explore_detail(options.outcomes);
    let explored = explore_until(
        study.alloc,
        script,
        detail,
        words,
        options.most as usize,
        progress,
    )?;
    if !is_racy_showing(&explored.showing) {
        return Ok(ExploreAnswer::Until(explored));
    }
    match what_rules_allow_until(study, options, script, progress) {
        Ok((allowed, shown)) => Ok(ExploreAnswer::RulesUntil(explored, allowed, shown)),
        Err(fault) => Err(fault),
    }
}

/// Looks for what the options ask for.
pub(crate) fn answer<T: ScriptRunner, R: Wait, P: Progress>(
    study: &Study<'_, T, R>,
    options: &ExploreOptions,
    script: &Script,
    progress: &mut P,
) -> Result<ExploreAnswer, CommandFault>
    requires { IsLawful (plan_of script.now) }
    ensures answer { IfOk result (IsExploreAnswerTo (λ s turns end. T.followed s Ticket turns end) options.now (plan_of script.now)) }
    ensures runs { IfErr result (λ fault. IsCommandExitStatusOfInput fault → ⊥) }
{
    if options.until.is_empty() {
        answer_of_schedules(study, options, script, progress)
    } else {
        answer_until(study, options, script, progress)
    }
}
