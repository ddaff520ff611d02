//! The file that the words name, or standard input, and where answers go.
ghost use Rattle.std.specs.Prelude.{◌<◌};

use crate::fault::ProgramFault;
use crate::program::{program, program_says};
use crate::reasons::{KeepsReason, say_reason};
use conformance::ScriptRunner;
use lrc_options::options::Options;
use std::fs::File;
use std::io;
use std::io::{Read, Stderr, Stdin, Stdout};
use std::sync::Wait;
use std::thread::Threads;

/// The file to open, or None for standard input: no file is given, or `-`.
pub fn program_file_named(file: &Option<String>) -> Option<&str> {
    match file.as_deref() {
        Some("-") | None => None,
        Some(path) => Some(path),
    }
}

/// What a script or a trace is read from.
#[derive(Drop)]
pub enum ProgramSource {
    /// A file.
    File(File),
    /// Standard input.
    Input(Stdin),
}

impl ProgramSource {
    /// The file of this name, or standard input if no file or `-` is named.
    pub fn open(rt: &HostRuntime, file: Option<&str>) -> io::Result<ProgramSource> {
        match file {
            None | Some("-") => Ok(ProgramSource::Input(rt.stdin())),
            Some(path) => match File::open(rt, path) {
                Ok(file) => Ok(ProgramSource::File(file)),
                Err(error) => Err(error),
            },
        }
    }
}

impl Read for ProgramSource {
    fn read(&mut self, bytes: &mut [u8]) -> io::Result<usize> {
        match self {
            ProgramSource::File(file) => file.read(bytes),
            ProgramSource::Input(input) => input.read(bytes),
        }
    }
}

/// What a command reads from and writes to.
#[derive(Drop)]
pub struct ProgramStreams {
    pub source: ProgramSource,
    pub out: KeepsReason<Stdout>,
    pub err: Stderr,
}

impl ProgramStreams {
    /// With the file of this name, or standard input if no file or `-` is named. If it can't be opened, says so on standard
    /// error, and gives the exit status of that.
    pub fn open(rt: &HostRuntime, file: Option<&str>) -> Result<ProgramStreams, u8> {
        match ProgramSource::open(rt, file) {
            Ok(source) => Ok(ProgramStreams {
                source,
                out: KeepsReason::new(rt.stdout()),
                err: rt.stderr(),
            }),
            Err(error) => Err(program_says(
                rt.alloc(),
                file,
                ProgramFault::from(error),
                &mut rt.stderr(),
            )),
        }
    }

    /// Says why standard output failed, if it did.
    pub fn say_reason(&mut self, rt: &HostRuntime) {
        say_reason(rt.alloc(), self.out.reason(), &mut self.err);
    }
}

/// Runs the script of the file, or of standard input if no file or `-` is given, and answers the status. The handle is what
/// threads are started by.
pub fn run_program_file<T: ScriptRunner, R: Threads + Wait + Sync>(
    rt: &HostRuntime,
    handle: &R,
    runs: &T,
    options: &Options,
) -> u8
    requires { 0 < options.now.tries }
{
    let mut streams = match ProgramStreams::open(rt, options.file.as_deref()) {
        Ok(streams) => streams,
        Err(status) => return status,
    };
    let status = program(
        runs,
        handle,
        rt.alloc(),
        options,
        &mut streams.source,
        &mut streams.out,
        &mut streams.err,
    );
    streams.say_reason(rt);
    status
}
