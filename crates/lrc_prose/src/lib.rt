//! What the commands that study a history say of it in sentences: a text that is put together piece by piece, what an event
//! did, and a race.
//!
//! **What is only tested** (in `tests/texts`, and by whole runs of the program `lrc`): all of it.
#![tactic(auto)]

pub mod label;
pub mod numbers;
pub mod racing;
pub mod text;
