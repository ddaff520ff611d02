//! Traces: journals from any system, given as text, and the reader of that text.
//!
//! A trace's text is a line of its sizes, as a script's first line, and then a line for each event, as a report prints
//! them: `event 8 1 fetch 0 1 1 1`, numbered from 0, each with its line feed, and nothing else. What stands on a line
//! behind two spaces in a row is its label (module `labels`).
//!
//! **What contracts see.** A `Trace` as it is; its sizes as the journal's. `IsLawfulTrace` says which sizes
//! and events a trace may have, `trace_text` what its bytes are, `bare` what a text is without its labels. `IsTraceFault` says
//! what a fault says of such bytes. Of a `Reader`, `IsFedTextOf` says which bytes it was fed, and which events and labels it
//! let go of. `HasReadFedText` says of which bytes it has the first lines' events, also where a line after them was refused.
//!
//! **What is proved.** A `Reader` is fed a text in pieces. It answers a trace only if that is one and the bytes of all pieces
//! are its text, and a fault only if they are no trace's, with the first line that isn't due. It does so also if it lets go of
//! what was taken of it. A piece has a fault only if no trace has a text that begins so; the reader then has the events of all
//! lines before that one. Module `laws`: no two traces have one text. What is printed of
//! a journal is, after its sizes, the text of a trace of its events if nothing was cut off. If something was, it is refused as
//! a cut journal's. A well formed journal is a trace.
//!
//! **What is only tested** (in `tests/texts`): which fault is answered among several on one line, the texts of the
//! faults, and that memory isn't wanted needlessly.

mod event_name;
pub mod fault;
mod head;
pub mod labels;
pub mod laws;
mod range;
pub mod reader;
pub mod trace;
mod trace_event;
mod trace_lines;
