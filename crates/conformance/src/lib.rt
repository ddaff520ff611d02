//! When a history of events follows a script, and what a run of a script is: definitions, their laws, faults, and the trait
//! `ScriptRunner` of what runs scripts.
//!
//! **What contracts see.** A history follows a script's plan (`Follows`) if each processor's calls, its fetches
//! aside, are what its section says, the closing barrier, and at processor 0 the loads of the shown addresses. It is a
//! flat run of the script (`IsFlatRun`) if it is well formed besides, and replays on one flat memory.
//!
//! **What is proved** (module `laws`). Each well formed history that follows a script is, except for values, a flat run
//! of it with the same races (`IsRecomputedFlat`); if the script is lawful, of one only. So if no flat run of a script
//! without fetches has a race (`NeverRacesFlat`), no history that follows it has one, and one whose loads are explained
//! replays. By turns (`IsEndByOrderedTurns`): the same turns of a script make the same of two histories, except for values
//! (`AreSameTurns`). Two runs of a lawful script to their ends by turns in the same orders have one history (`AreSameEnds`),
//! and their reports have the same verdict, shown words and traffic (`AreSameReports`).
#![tactic(auto)]

mod cause;
mod ended;
pub mod laws;
mod progress;
mod schedule;
mod script_runner;

pub use cause::{Cause, RunFault};
pub use ended::{Ended, Halt};
pub use progress::TurnProgress;
pub use schedule::{DrawnRun, MOST_TURNS, Misfit, Schedule, ScheduleFault};
pub use script_runner::{LockChoice, ScriptRunner};
