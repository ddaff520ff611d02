//! The line of a schedule.
ghost use Rattle.std.specs.Prelude.{◌≡◌, IfOk, OnOk, List, string_bytes, ◌++◌, ℕ};
ghost use Rattle.lrc_explore.specs.Prelude.{IsExploreTextOfSchedule, explore_text_schedule};

use crate::schedule_turns::schedule_of_events;
use conformance::Schedule;
use journal::Event;
use lrc_script::script::Script;
use std::alloc::{AllocError, Global};

/// The line of a schedule. The only error is running out of memory.
pub fn schedule_line(alloc: Global, schedule: &Schedule) -> Result<String, AllocError>
    ensures { IfOk result (λ line. string_bytes line ≡ explore_text_schedule schedule.now.turns.items) }
{
    let mut line = String::from_str(alloc, "  schedule ")?;
    schedule.put(&mut line)?;
    line.push_str("\n")?;
    Ok(line)
}

/// The line of a schedule that comes to these events. The only error is running out of memory.
pub fn schedule_line_of_events(
    alloc: Global,
    script: &Script,
    events: &[Event],
) -> Result<String, AllocError>
    ensures { IfOk result (λ line. IsExploreTextOfSchedule (string_bytes line)) }
{
    let schedule = schedule_of_events(alloc, script, events)?;
    schedule_line(alloc, &schedule)
}
