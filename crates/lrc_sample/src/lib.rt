//! What a script may come to: it is run by turns of many schedules, and each kind of result is told once.
//!
//! **What contracts see.** The `SampleOutcomeAnswers` of a run as plain lists (`SampleAnswers`), everything else as it is.
//!
//! **What is proved.** `sample` tells of the script's runs on the lock that is asked for (`IsSampleOfRuns`): `step_by` made the
//! first, of no turns, and `step_drawn` then one by each seed in order (`CameBySampleRunSeed`). Each outcome that these runs came to has
//! one line, with how often it came, where first, and that run's schedule, which shows it; the lines count every run. The
//! most frequent stands first, and of as frequent ones the one that came first. The answers are those of a report of the
//! script's run by that schedule; a run that is stuck is a deadlock. Module `laws`: each line counts a run at least, the run
//! that it tells came to its outcome and none before it did, and a script that never races on one flat memory has no racy
//! outcome.
//!
//! **What is only tested** (in `tests/program`): that other faults than being stuck end a sample, and that the text is one write.
#![tactic(auto)]

pub mod detail;
mod jobs;
pub mod laws;
pub mod outcome;
mod sampled_run;
pub mod sampling;
mod tally;
pub mod text;

pub use sampled_run::{SampledRun, SampledScript};
pub use tally::TallyLine;
