//! What the program `lrc` does with a trace, and with a script beside running it: it judges a trace or tells it, samples a
//! script's runs, and explains one of them.
//!
//! These are the commands that study a script or a trace, but for `explore`, which crate `lrc_exploring` has. They stand apart
//! from `lrc_program`, which has `run` and `step`, so that a program with these two alone stands on fewer crates.
//!
//! **What contracts see.** A reader by the bytes that it has left, a writer by those that it was given
//! (`contents`). Scripts are run by whatever has the contract `ScriptRunner`.
//!
//! **What is proved.** `run_check_command` judges a trace: it returns 0 only if the source had the text of a faithful one,
//! 6 only if it had one that isn't faithful, 2 only if it had none. `run_tell_command` returns so of a trace that it tells.
//! `run_sample_command` returns 0 only if all that the source had is a script's text, and it was run by as many seeds as were
//! asked for and with that lock. Then the text of what that came to was written, and nothing else
//! (`IsSampleCommandOnSource`). `run_explain_command` answers 0 only if a run of the source's
//! script came to its end and was told, 3 only if one that can't go on was told so far (`IsExplainCommandOnSource`). These
//! answer 2 only if the source had no script's text. Each fault has its status (`command_exit_status_of`).
//!
//! **What is only tested**, by whole runs of the program. The texts of faults, which fault is met, that `explain` uses the
//! lock and the seed that the words ask for, the picture, and that no call allocates without need. No contract sees what a
//! file or a standard stream has.
#![tactic(auto)]

pub mod checking;
mod drawing;
pub mod explaining;
pub mod fault;
pub mod left_out;
mod locks;
pub mod refused_line;
pub mod sampling;
mod study;
pub mod telling;
mod trace_hint;

pub use study::Study;
