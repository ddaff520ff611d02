//! Each command, with its file.
ghost use Rattle.std.specs.Prelude.{◌≡◌, ◌<◌};
ghost use Rattle.lrc_options.specs.declared.options.Asked.TheVariants.{Script};
ghost use Rattle.lrc_options.specs.declared.options.Options.{Options};

use crate::terminal::TerminalProgress;
use lrc_commands::Study;
use lrc_commands::checking::run_check_command;
use lrc_commands::explaining::run_explain_command;
use lrc_commands::left_out::read_left_out;
use lrc_commands::sampling::run_sample_command;
use lrc_commands::telling::run_tell_command;
use lrc_exploring::exploring::run_explore_command;
use lrc_options::options::{Asked, FollowOptions, TraceOptions};
use lrc_pages::pages_command::run_pages_command;
use lrc_program::fault::ProgramFault;
use lrc_program::program::{program, program_says};
use lrc_program::{ProgramSource, ProgramStreams};
use lrc_run::OnCluster;
use lrc_tester::draw_command::run_draw_command;
use lrc_tester::follows_command::run_follows_command;
use std::io::{Read, Write};
use std::sync::Wait;
use std::thread::Threads;

/// Tells whether a trace follows its script, which is opened here.
fn follow<S: Read, W: Write, E: Write>(
    rt: &HostRuntime,
    options: &FollowOptions,
    trace: &mut S,
    out: &mut W,
    err: &mut E,
) -> u8 {
    let alloc = rt.alloc();
    match ProgramSource::open(rt, options.script.as_deref()) {
        Ok(mut script) => run_follows_command(alloc, options, &mut script, trace, out, err),
        Err(error) => {
            let fault = ProgramFault::from(error);
            program_says(alloc, options.script.as_deref(), fault, err)
        }
    }
}

/// The texts by which races are left out, of the file that names them, which is opened here.
fn left_out(rt: &HostRuntime, file: Option<&str>) -> Result<Vec<Vec<u8>>, ProgramFault> {
    let alloc = rt.alloc();
    if file.is_none() {
        return Ok(Vec::new(alloc));
    }
    let mut source = ProgramSource::open(rt, file)?;
    read_left_out(alloc, &mut source)
}

/// Judges a trace.
fn check<S: Read, W: Write, E: Write>(
    rt: &HostRuntime,
    options: &TraceOptions,
    source: &mut S,
    out: &mut W,
    err: &mut E,
) -> u8 {
    let alloc = rt.alloc();
    match left_out(rt, options.suppress.as_deref()) {
        Ok(left_out) => run_check_command(alloc, options, left_out, source, out, err),
        Err(fault) => program_says(alloc, options.suppress.as_deref(), fault, err),
    }
}

/// Does what is asked for with what the streams give, and answers the status. The handle is what threads are started by.
fn study<R: Threads + Wait + Sync>(
    rt: &HostRuntime,
    handle: &R,
    asked: &Asked,
    streams: &mut ProgramStreams,
) -> u8
    requires { (o : Options) → asked.now ≡ Script o → 0 < o.tries }
{
    let alloc = rt.alloc();
    let ProgramStreams { source, out, err } = streams;
    let study = Study {
        runs: &OnCluster,
        rt: handle,
        alloc,
    };
    match asked {
        Asked::Script(options) => program(&OnCluster, handle, alloc, options, source, out, err),
        Asked::Explain(options) => run_explain_command(&study, options, source, out, err),
        Asked::Tell(options) => run_tell_command(alloc, options, source, out, err),
        Asked::Sample(options) => {
            let mut progress = TerminalProgress::new(rt, u64::from(options.seeds) + 1);
            run_sample_command(&study, options, source, out, err, &mut progress)
        }
        Asked::Explore(options) => {
            let mut progress = TerminalProgress::new(rt, 0);
            run_explore_command(&study, options, source, out, err, &mut progress)
        }
        Asked::Trace(options) => check(rt, options, source, out, err),
        Asked::Draw(options) => run_draw_command(alloc, options, out, err),
        Asked::Follow(options) => follow(rt, options, source, out, err),
        Asked::Pages(options) => run_pages_command(alloc, options, source, out, err),
    }
}

/// Does what is asked for with the file that is named, or with standard input if no file or `-` is.
pub(crate) fn study_file<R: Threads + Wait + Sync>(
    rt: &HostRuntime,
    handle: &R,
    asked: &Asked,
) -> u8
    requires { (o : Options) → asked.now ≡ Script o → 0 < o.tries }
{
    let mut streams = match ProgramStreams::open(rt, asked.file()) {
        Ok(streams) => streams,
        Err(status) => return status,
    };
    let status = study(rt, handle, asked, &mut streams);
    streams.say_reason(rt);
    status
}
