//! The options of the program `lrc`, by the words of its command line: which script is to be run, and how.
//!
//! **What contracts see.** `Options` as they are; `AreOptionsGivenByRules` says what options the words give, by the matches
//! that clap states for a simple command. `AreScriptOptionsGiven` says it of a program that has `run` and `step` alone.
//!
//! **What is proved.** If `options` or `script_options` returns options, the words give them. If it returns a fault, the
//! words have one of that kind, or memory ran out. A question for help or the version is such a fault.
//!
//! **What is only tested**, by whole runs of the program `lrc`. The texts of faults and help, and which of its words a
//! fault names.
#![tactic(auto)]

mod clap_commands;
mod clashes;
pub mod command_line;
mod final_words;
mod help;
mod misuse;
pub mod options;
pub mod page_words;
pub mod ranges;
pub mod script_words;
