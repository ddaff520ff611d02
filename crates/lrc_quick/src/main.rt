//! `lrc_quick`: the commands `run` and `step` of `lrc`, alone.
//!
//! It stands on fewer crates than `lrc`, so it is proved sooner. `./lrc` builds it if one of these commands is the
//! first that is given.
#![tactic(auto)]

use lrc_options::script_words::script_options;
use lrc_program::{answer_program_words, program_words_of, refuse_program_words, run_program_file};
use lrc_run::OnCluster;
use std::process::ExitCode;
use std::sync::Wait;
use std::thread::Threads;

/// The exit status if another command is asked for.
const NOT_HERE: u8 = 5;

/// The commands of `lrc` that this program lacks.
const STUDIES: [&str; 4] = ["explain", "sample", "explore", "check"];

/// Says that this program has no such command.
fn say_not_in_lrc_quick(rt: &HostRuntime) -> u8 {
    let _ = eprintln!(rt;
        "lrc: this program has run and step alone\n  ./lrc prove builds the one that has the other commands"
    );
    NOT_HERE
}

/// Whether the words ask for a command that this program lacks.
fn is_study(words: &[String]) -> bool {
    match words.get(1) {
        Some(command) => STUDIES.iter().any(|study| *study == command.as_str()),
        None => false,
    }
}

/// Does what the words ask for.
fn start_lrc_quick<R: Threads + Wait + Sync>(rt: &HostRuntime, handle: &R, words: &[String]) -> u8 {
    if is_study(words) {
        return say_not_in_lrc_quick(rt);
    }
    match script_options(rt.alloc(), words) {
        Ok(options) => run_program_file(rt, handle, &OnCluster, &options),
        Err(error) => answer_program_words(rt, &error),
    }
}

fn main(rt: HostRuntime) -> ExitCode {
    let status = match program_words_of(&rt) {
        Ok(words) => start_lrc_quick(&rt, &rt, &words),
        Err(fault) => refuse_program_words(&rt, fault),
    };
    ExitCode::from(status)
}
