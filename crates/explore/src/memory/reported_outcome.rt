//! What a whole run shows, as its report tells it.
ghost use Rattle.std.specs.Prelude.{◌≡◌, ◌≢◌, ℕ, ◌==◌, [], List, IfOk, cond, map};
ghost use Rattle.journal.specs.declared.event.Event.{Event};
ghost use Rattle.lrc_script.specs.Prelude.{IsLawful, plan_of};
ghost use Rattle.conformance.specs.CutInstructions.{HasNoCutInstruction};
ghost use Rattle.conformance.specs.ScriptReports.{IsScriptReport, ScriptReportHasHistory};
ghost use Rattle.explore.specs.declared.outcomes.telling.Detail.TheVariants as told;
ghost use Rattle.explore.specs.Explored.{explored_outcome};
ghost use Rattle.explore.specs.OutcomeTelling.{AreOutcomeTellingReplies, outcome_telling_of_script};

use crate::outcomes::answer::ScriptOutcome;
use crate::outcomes::of_run::outcome_of_run;
use crate::outcomes::telling::Detail;
use lrc_report::Report;
use lrc_script::script::Script;
use std::alloc::{AllocError, Global};

/// What is told of a processor by the words alone: the words at the end, if it is the one that shows them.
fn words_told_of(
    alloc: Global,
    shown: &[(usize, u32)],
    processor: usize,
) -> Result<Vec<u32>, AllocError>
    ensures { IfOk result (λ v. v.items ≡ cond (processor == 0) (map (λ (x : ℕ × ℕ). x.1) shown.now) []) }
{
    let mut words = Vec::new(alloc);
    if processor == 0 {
        for index in 0..shown.len() {
            words.push(shown[index].1)?;
        }
    }
    Ok(words)
}

/// What a whole run of the script shows by the words alone. The only error is running out of memory.
fn outcome_of_words(
    alloc: Global,
    script: &Script,
    report: &Report,
) -> Result<ScriptOutcome, AllocError>
    requires { IsLawful (plan_of script.now) }
    ensures { IfOk result (λ o. (h : List Event) → ScriptReportHasHistory (plan_of script.now) report.now h
        → AreOutcomeTellingReplies (plan_of script.now) (outcome_telling_of_script (plan_of script.now) told.Words) h
        (explored_outcome o)) }
{
    let mut replies = Vec::new(alloc);
    for processor in 0..script.processors {
        replies.push(words_told_of(alloc, &report.shown, processor)?)?;
    }
    Ok(ScriptOutcome { replies })
}

/// What a whole run of the script shows, told by this detail: by its last words, or by its journal, from which nothing may be
/// cut off then. The only error is running out of memory.
pub fn outcome_of_report(
    alloc: Global,
    script: &Script,
    detail: Detail,
    report: &Report,
) -> Result<ScriptOutcome, AllocError>
    requires lawful { IsLawful (plan_of script.now) }
    requires uncut { detail ≢ told.Words → HasNoCutInstruction (plan_of script.now) }
    requires report { IsScriptReport (plan_of script.now) report.now }
    ensures { IfOk result (λ o. (x : IsScriptReport (plan_of script.now) report.now)
        → AreOutcomeTellingReplies (plan_of script.now) (outcome_telling_of_script (plan_of script.now) detail) x.history
        (explored_outcome o)) }
{
    match detail {
        Detail::Words => outcome_of_words(alloc, script, report),
        _ => outcome_of_run(alloc, script, detail, report.journal.events()),
    }
}
