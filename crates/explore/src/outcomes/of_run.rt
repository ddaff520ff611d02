//! What a run shows, whichever memory made it.
ghost use Rattle.std.specs.Prelude.{IfOk};
ghost use Rattle.lrc_script.specs.Prelude.{IsLawful, plan_of};
ghost use Rattle.conformance.specs.Follows.{Follows};
ghost use Rattle.explore.specs.Explored.{explored_outcome};
ghost use Rattle.explore.specs.OutcomeTelling.{AreOutcomeTellingReplies, outcome_telling_of_script};

use crate::outcomes::answer::ScriptOutcome;
use crate::outcomes::telling::{Detail, OutcomeTelling};
use crate::prefixes::script_calls_of_all;
use crate::rules::calls::replies_of_all;
use journal::Event;
use lrc_script::script::Script;
use std::alloc::{AllocError, Global};

/// What a whole run of the script shows, told by this detail. Its fetches show nothing. The only error is running out of memory.
pub fn outcome_of_run(
    alloc: Global,
    script: &Script,
    detail: Detail,
    events: &[Event],
) -> Result<ScriptOutcome, AllocError>
    requires lawful { IsLawful (plan_of script.now) }
    requires follows { Follows (plan_of script.now) events.now }
    ensures { IfOk result (λ o. AreOutcomeTellingReplies (plan_of script.now)
        (outcome_telling_of_script (plan_of script.now) detail) events.now (explored_outcome o)) }
{
    let steps = script_calls_of_all(alloc, script)?;
    let telling = OutcomeTelling::of_script(script, detail);
    let replies = replies_of_all(alloc, telling, events, &steps)?;
    Ok(ScriptOutcome { replies })
}
