//! Runs of scripts on a cluster: each processor on a thread of its own, or all by turns on one.
//!
//! **What contracts see.** A script as its plan. A `Report` (of `lrc_report`) is one of the plan (`IsScriptReport`) if its
//! journal has the plan's sizes and holds what is left of a history, after some of it was cut off. That history is well formed
//! and explained and follows the plan, and each fetch comes right before an access that wants its page. The verdict,
//! the shown words and the traffic are those of the whole history (`ScriptReportHasHistory`).
//!
//! **What is proved.** Whatever the lock, the order of the threads and the seed: a report that is answered is one of
//! the plan, and its cluster has the lock that was asked for. Its history's replies can be recomputed on one flat memory,
//! with the same races; if the script never races there, the verdict is race-free and the history replays (module `laws`).
//! Which fault a run tells, of those that its processors met. By turns: each round is in the order that the seed draws, by the generator's own definitions. The
//! processors come to what their turns make of them, and the history is made of what the turns hand in, one after another.
//! A take that came too early found its processor not ready by it. If a run by turns says that it can't go on, its history
//! is a deadlock: each processor waits, and none is ready.
//! By a schedule, given or answered of turns that were drawn, the same holds of its turns and of the rounds after them.
//! Drawn turns are those that the seed draws, each from its own order. A `cut` of a script is a call of its processor. A run
//! that says Stuck has looked as often as it was asked, or was told that what it waits for can't come.
//!
//! **What is only tested** (in `tests/program`, `test_lrc`): that no run is refused needlessly, and that its threads get on side by
//! side. That the gate is asked before each instruction, that nobody sleeps for ever, and when a full block is handed in.
#![tactic(auto)]

mod cluster_run;
mod course;
mod gate;
pub mod laws;
mod on_cluster;
mod orders;
mod run_ending;
mod run_faults;
mod shown;
mod steps;
mod walk;

pub use cluster_run::{run, run_with};
pub use conformance::{Cause, Ended, Halt, RunFault};
pub use gate::{Gate, Open, Stopped};
pub use on_cluster::OnCluster;
pub use orders::order;
pub use steps::{
    step, step_as_far, step_as_far_with, step_drawn, step_drawn_with, step_scheduled,
    step_scheduled_with, step_with,
};
