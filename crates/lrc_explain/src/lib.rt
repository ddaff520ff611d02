//! The text of the command `lrc explain`: a run of a script by turns, or a trace, told for a person.
//!
//! **What contracts see.** `explain_text_end` of specs/ExplainTexts: the lines that a report's text consists of without its journal, and
//! nothing of a run that can't go on. A writer by the bytes that it was given (`contents`).
//!
//! **What is proved.** `render` answers Ok only where it wrote a text that ends with `explain_text_end`: the shown words, the
//! verdict and the traffic, byte for byte as `lrc_report` prints them. After NoMemory nothing was written.
//! `render_explained_trace` answers Ok only where it wrote a text that ends with what was found of the trace.
//! The loads' sources, the ways to them, the race and the records that are told are those of crate `causes`.
//!
//! **What is only tested** (in `tests/texts` and `tests/program`): the rest of the text, which `lrc_prose` puts together, and that it is one write.
#![tactic(auto)]

mod chronicle;
mod columns;
mod earlier;
mod extent;
mod fault;
mod findings;
mod halting;
mod held_now;
mod journey;
mod marked_processors;
mod notes;
mod page_copy;
mod rendering;
mod rivals;
mod sketching;
mod stale_copies;
mod strays;
mod told_history;
mod told_state;

pub use extent::Extent;
pub use fault::ExplainFault;
pub use rendering::{render, render_explained_trace};
pub use sketching::{Sketch, sketch_run, sketch_trace};
pub use told_history::ToldHistory;
