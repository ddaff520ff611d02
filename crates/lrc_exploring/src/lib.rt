//! The command `explore`: all schedules of a script are looked at, or a run is looked for that ends with given words, and what
//! was found is told as text or as JSON.
//!
//! It stands apart from `lrc_commands`, which is proved beside crate `explore`.
//!
//! **What contracts see.** A reader by the bytes that it has left, a writer by those that it was given (`contents`). What was
//! found is plain data, an `ExploreAnswer`. Scripts are run by whatever has the contract `ScriptRunner`.
//!
//! **What is proved.** `run_explore_command` returns 0 only if all schedules of the source's script were looked at, or a run with
//! the words that were given was looked for. It returns 7 only if that was given up. In both cases what was found was written
//! (`ExploreCommandWritten`). It returns 2 only if the source had no script's text. Of a racy script the answer has what the
//! rules of the memory allow, and outcomes that this memory shows, each with a schedule that shows it (`IsExploreAnswerTo`). Of a
//! script of which something is open it has what its text leaves open (`AreTextGaps`).
//!
//! **What is only tested** (cases of `tests/program`): which objects JSON has, and the texts of faults.
#![tactic(auto)]

mod answer;
mod answering;
pub mod exploring;
mod json;
mod stages;
mod unshown;
mod writing;

pub use answer::ExploreAnswer;
