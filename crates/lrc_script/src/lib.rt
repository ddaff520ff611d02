//! Scripts of a cluster: what they say, their exact text, and the reader of that text.
//!
//! **What contracts see.** A `Script` is seen as a `Plan` (`plan_of`): its numbers, its sections as lists of
//! instructions, its shown addresses. `IsLawful` says which plans are scripts, `text` what their bytes are.
//! `IsScriptFault` says what a fault says of the bytes.
//!
//! **What is proved.** `script::parse` returns a script only if it is lawful and the bytes are its text,
//! and a fault only if they are no lawful script's, with its line. `Display` writes the text, of at most
//! `MOST_BYTES` bytes (module `laws`).
//!
//! **What is only tested** (in `tests/texts`): which fault is answered among several on one line, the texts of the
//! faults, and that no call allocates without need: at the limits of a script, for long lines and for each number.
#![tactic(auto)]

mod display;
pub mod fault;
pub mod laws;
pub mod line;
mod read_so_far;
pub mod script;
mod section;
mod uneven_barriers;
