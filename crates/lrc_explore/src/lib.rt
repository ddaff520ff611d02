//! The text of the command `lrc explore`: what all schedules of a script come to.
//!
//! **What contracts see.** `IsExploreText` (specs/ExploreTexts): by the verdict, which line a text begins with, and which
//! it ends with. `IsShowingText` (specs/Showings): the same of whether a run ends with words. A writer by the bytes that it
//! was given (`contents`).
//!
//! **What is proved.** `render` answers Ok only if it wrote one text that begins with the verdict's line and ends with how
//! many states were found. Of a racy script the lines between are those of the events that were found, as `lrc_report`
//! prints a journal's, of the two that race, of a schedule, and of a hang that was met. Of another they begin with how many
//! outcomes were found, and whether these are all, and end with whether a schedule hangs, with its events. After NoMemory
//! nothing was written. `render_allowed_text` answers Ok only if it wrote the text of a racy script with how many outcomes
//! the rules allow after it, and whether these are all. `render_allowed_showing_text` answers Ok only if it wrote the text
//! of a racy script. That says whether this memory shows a run that ends with the words, with a schedule, or the rules alone
//! allow one, with its events. `render_showing_text`
//! answers Ok only if it wrote the text of what was found: its first line says whether a run ends with the words, and one
//! of the others names a schedule. `unshown_asked_address` finds an asked word that the script doesn't show.
//!
//! **What is only tested**: the lines of outcomes and of who waits, that `step` comes by a run's schedule to what is told
//! of it (cases of `tests/program`, and `tests/exploring`), and that the text is one write.
#![tactic(auto)]

mod allowed_showing_text;
mod allowed_text;
mod answered_stores;
mod asking;
mod explored_events;
mod explored_text;
mod fault;
mod hanging;
mod numbers;
mod open_text;
mod outcomes;
mod schedule_lines;
mod schedule_turns;
pub mod schedules;
mod script_lines;
mod showing_text;

pub use allowed_showing_text::render_allowed_showing_text;
pub use allowed_text::render_allowed_text;
pub use answered_stores::{RunAnswer, run_answers};
pub use asking::unshown_asked_address;
pub use explored_text::render;
pub use fault::ExploreFault;
pub use open_text::render_open_text;
pub use outcomes::{sorted_run_outcomes, sorted_shown_outcomes};
pub use schedule_turns::{schedule_of_events, schedule_of_makers};
pub use script_lines::{ScriptStepLine, script_step_line};
pub use showing_text::render_showing_text;
