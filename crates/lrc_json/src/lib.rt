//! JSON that commands print: an object a line, which `told` names. Here are members, events and outcomes, and what `check` and
//! `sample` print with `--json`.
//!
//! **What contracts see.** A writer by the bytes that it was given (`contents`). Objects and lists as far as they are put together
//! (`members_so_far`, `items_so_far`); if memory ran out nothing is said of them.
//!
//! **What is proved.** Each function that writes answers Ok only if a text was written, whole. After NoMemory nothing was written.
//! `write_sampled_json` writes what the runs came to, and nothing else (`json_of_sample`). `write_checked_json` writes what was found
//! of a trace (`IsCheckedJson`): each race that is told, a lie, words without a lock, and how judging ended. No object has a float.
//!
//! **What is only tested** (cases of `tests/program`): of a lie the text why an event may not follow, and which stores a load may
//! answer.
#![tactic(auto)]

mod checked;
pub mod events;
mod fault;
pub mod members;
pub mod outcomes;
pub mod output;
mod sampled;

pub use checked::write_checked_json;
pub use fault::JsonFault;
pub use sampled::write_sampled_json;
