//! A run's report, and its text.
//!
//! **What contracts see.** A `Report` as it is; `report_text` is its text, with its journal if that is asked for. A
//! writer by the bytes that it was given (`contents`).
//!
//! **What is proved.** `render` writes the text of a report and nothing else; after a fault a beginning of it.
//!
//! **What is only tested** (in `tests/program`; of a flush in `test_lrc`). That many lines are few writes, and that a fault comes exactly if a write
//! fails.
#![tactic(auto)]

mod pending;
pub mod render;
mod report;
mod report_line;

pub use report::Report;
pub use report_line::ReportLine;
