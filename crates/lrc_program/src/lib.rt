//! What the program `lrc` does with a script: reads it, has it run, and writes the report or says why there is none.
//!
//! **What contracts see.** A reader by the bytes that it has left, a writer by those that it was given
//! (`contents`). A run's `Report` is one of a script's plan (`IsScriptReport` of `conformance`). What its text is, and what
//! options the words give, `lrc_report` and `lrc_options` say. Scripts are run by whatever has the contract `ScriptRunner`. So
//! this is proved beside `lrc_run`, which the program's main hands in.
//!
//! **What is proved.** `program` returns 0 only if all that it could read is a script's text, and that script was run
//! as the options ask (`IsServedAsAsked`). Then the text of its report was written, and nothing else (`IsServed`). It returns 2
//! only if it is no script's text (`IsServedWithoutScript`). At any status but 4 a report is written whole or not at all. Each
//! fault has its status (`program_exit_status_of`).
//!
//! **What is only tested**, by whole runs of the program. The texts of faults, help and usage, and which fault is met. That
//! what runs scripts makes use of the lock, the tries and the seed that it is handed. That no call allocates without
//! need. No contract sees what a file or a standard stream has.
#![tactic(auto)]

pub mod fault;
mod files;
pub mod hints;
pub mod program;
mod program_words;
pub mod reasons;

pub use files::{ProgramSource, ProgramStreams, program_file_named, run_program_file};
pub use program_words::{answer_program_words, program_words_of, refuse_program_words};
