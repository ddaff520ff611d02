//! The program's words.

use crate::fault::ProgramFault;
use crate::program::program_says;
use crate::reasons::say_reason;
use clap::Error;
use clap::error::ErrorKind;
use std::io;

/// Says why the program ends before it has words to go by, and answers its status.
pub fn refuse_program_words(rt: &HostRuntime, fault: ProgramFault) -> u8 {
    program_says(rt.alloc(), None, fault, &mut rt.stderr())
}

/// Prints clap's answer to the words: help and the version to standard output, faults to standard error.
pub fn answer_program_words(rt: &HostRuntime, error: &Error) -> u8 {
    if error.kind() == ErrorKind::OutOfMemory {
        return refuse_program_words(rt, ProgramFault::NoMemory);
    }
    let printed = error.print(rt);
    match (error.exit_code(), printed) {
        (0, Ok(())) => 0,
        (0, Err(reason)) => {
            let status = refuse_program_words(rt, ProgramFault::Output);
            say_reason(rt.alloc(), Some(reason), &mut rt.stderr());
            status
        }
        _ => 5,
    }
}

/// The program's words, its name first.
pub fn program_words_of(rt: &HostRuntime) -> Result<Vec<String>, ProgramFault> {
    match std::env::args(rt) {
        Ok(words) => Ok(words.collect(rt.alloc())?),
        Err(error) if error.kind() == io::ErrorKind::OutOfMemory => Err(ProgramFault::NoMemory),
        Err(error) => Err(ProgramFault::Words(error)),
    }
}
