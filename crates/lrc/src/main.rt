//! `lrc`: runs scripts of a shared memory, and prints the final words, a race verdict and the traffic. It explains a run,
//! samples the runs of a script, looks at all its schedules, and judges or tells a trace.
//!
//! Crate `lrc_program` says how a script is run, and what is proved of that; `lrc_commands` and `lrc_exploring` have the other
//! commands. What runs scripts is handed in here.
#![tactic(auto)]

mod studies;
mod terminal;

use crate::studies::study_file;
use lrc_options::command_line::options;
use lrc_program::{answer_program_words, program_words_of, refuse_program_words};
use std::process::ExitCode;
use std::sync::Wait;
use std::thread::Threads;

/// Does what the words ask for.
fn start_lrc<R: Threads + Wait + Sync>(rt: &HostRuntime, handle: &R, words: &[String]) -> u8 {
    match options(rt.alloc(), words) {
        Ok(asked) => study_file(rt, handle, &asked),
        Err(error) => answer_program_words(rt, &error),
    }
}

fn main(rt: HostRuntime) -> ExitCode {
    let status = match program_words_of(&rt) {
        Ok(words) => start_lrc(&rt, &rt, &words),
        Err(fault) => refuse_program_words(&rt, fault),
    };
    ExitCode::from(status)
}
