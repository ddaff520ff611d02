//! What looks at all schedules of a script.

pub use explore::{
    AllowedOutcomes, AllowedShowing, AllowedUntil, Detail, Explored, ExploredUntil, Hang, Hanging,
    MemoryShowing, MemoryShown, MemoryUntil, Progress, RacyEvents, ScriptOutcome, Showing,
    ShownOutcome, ShownRun, Silent, Verdict, allowed_outcomes, allowed_until, explore,
    explore_until, what_memory_shows,
};
