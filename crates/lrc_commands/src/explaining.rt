//! The program that explains a script's run, over its reader and its writers.
ghost use Rattle.std.specs.Prelude.{◌≡◌, ◌≢◌, IfErr, IfOk, OnOk, is_some, false, true};
ghost use Rattle.std.specs.Io.KnownBytes.{Keeps};
ghost use Rattle.lrc_script.specs.Prelude.{IsLawful, plan_of};
ghost use Rattle.lrc_program.specs.Prelude.{IsServedWithoutScript};
ghost use Rattle.lrc_commands.specs.Prelude.{IsCommandExitStatusBeforeAnswer, IsExplainCommandEnd, IsExplainCommandOnSource, IsCommandExitStatusOfInput, IsExplainCommandRun, ExplainCommandWritten};
ghost use Rattle.lrc_commands.specs.Prelude.{is_explain_command_halted};

use crate::drawing::{DrawingStyle, draw};
use crate::fault::{CommandFault, HALTED};
use crate::locks::command_lock_of;
use crate::study::Study;
use causes::Part;
use conformance::{Cause, Ended, RunFault, Schedule, ScriptRunner};
use journal::Journal;
use judge::{History, Sizes};
use lrc_explain::{Extent, render};
use lrc_options::options::{ExplainOptions, ShowOptions};
use lrc_program::fault::ProgramFault;
use lrc_program::program::{program_reads_script, program_says_line};
use lrc_program::program_file_named;
use lrc_script::script::Script;
use std::alloc::{AllocError, Global};
use std::io::{Read, Write};
use std::sync::Wait;

/// The line that standard error gets of a run that can't go on; None if it ended.
fn explain_command_halt_line(
    alloc: Global,
    file: Option<&str>,
    ended: &Ended,
) -> Result<Option<String>, AllocError>
    ensures { IfOk result (λ line. is_some line ≡ is_explain_command_halted ended.now) }
{
    match ended {
        Ended::Whole(_) => Ok(None),
        Ended::Halted(halt) => {
            let fault = ProgramFault::from(RunFault {
                processor: halt.processor,
                cause: Cause::Stuck,
            });
            Ok(Some(fault.line(alloc, file)?))
        }
    }
}

/// The part of the history that is told or drawn.
fn explain_command_part(showing: &ShowOptions) -> Part {
    Part {
        first: showing.events.first,
        end: showing.events.end,
        processors: showing.processors,
    }
}

/// How much of the history is told, with its pages or without.
pub(crate) fn explain_command_extent(showing: &ShowOptions, pages: bool) -> Extent {
    Extent {
        part: explain_command_part(showing),
        pages,
        state: showing.state,
    }
}

/// How the history of the file of this name is drawn.
pub(crate) fn explain_command_drawing<'a>(
    name: Option<&'a str>,
    showing: &ShowOptions,
) -> DrawingStyle<'a> {
    DrawingStyle {
        name,
        part: explain_command_part(showing),
        is_page: showing.page,
    }
}

/// The sizes of the script's memory.
fn explain_command_sizes(script: &Script) -> Sizes {
    Sizes {
        processors: script.processors,
        pages: script.pages,
        words: script.words,
        locks: script.locks,
        flags: script.flags,
    }
}

/// The journal of the run, and whether the run can't go on.
fn explain_command_journal(ended: &Ended) -> (&Journal, bool) {
    match ended {
        Ended::Whole(report) => (&report.journal, false),
        Ended::Halted(halt) => (&halt.journal, true),
    }
}

/// Tells how a run of the script ended, or draws it.
fn explain_command_prints_end<W: Write>(
    alloc: Global,
    options: &ExplainOptions,
    script: &Script,
    ended: &Ended,
    out: &mut W,
) -> Result<(), CommandFault>
    ensures told { OnOk result (ExplainCommandWritten options.now.showing.picture
        (W.contents out.old) (W.contents out.new) ended.now) }
    ensures runs { IfErr result (λ fault. IsCommandExitStatusOfInput fault → ⊥) }
    ensures early { IfErr result
        (λ fault. IsCommandExitStatusBeforeAnswer fault → Keeps (W.contents out.old) (W.contents out.new)) }
{
    let (journal, halted) = explain_command_journal(ended);
    let Some(history) = History::of_journal(explain_command_sizes(script), journal) else {
        return Err(CommandFault::Untold);
    };
    if options.showing.picture {
        let drawing = explain_command_drawing(program_file_named(&options.file), &options.showing);
        return draw(alloc, &drawing, journal, &history, halted, out);
    }
    let extent = explain_command_extent(&options.showing, true);
    render(alloc, &history, &extent, ended, out)?;
    Ok(())
}

/// Runs a script by turns, as the options say.
fn explain_command_end<T: ScriptRunner, R: Wait>(
    study: &Study<'_, T, R>,
    options: &ExplainOptions,
    script: &Script,
) -> Result<Ended, CommandFault>
    requires { IsLawful (plan_of script.now) }
    ensures end { IfOk result (IsExplainCommandEnd options.now (plan_of script.now)) }
    ensures runs { IfErr result (λ fault. IsCommandExitStatusOfInput fault → ⊥) }
{
    let Study { runs, rt, alloc } = *study;
    let lock = command_lock_of(options.ticket);
    match options.schedule.as_deref() {
        Some(text) => {
            let schedule = Schedule::parse(alloc, text)?;
            Ok(runs.step_by(rt, alloc, script, lock, &schedule)?)
        }
        None => Ok(runs.step_as_far(rt, alloc, script, lock, options.seed)?),
    }
}

/// Tells how a run of the script ended, or draws it. Answers the line that standard error gets if it can't go on: there is memory
/// for that before anything is written.
fn explain_command_tells_end<W: Write>(
    alloc: Global,
    options: &ExplainOptions,
    script: &Script,
    ended: &Ended,
    out: &mut W,
) -> Result<Option<String>, CommandFault>
    ensures halted { IfOk result (λ line. is_some line ≡ is_explain_command_halted ended.now) }
    ensures told { IfOk result (λ _. ExplainCommandWritten options.now.showing.picture
        (W.contents out.old) (W.contents out.new) ended.now) }
    ensures runs { IfErr result (λ fault. IsCommandExitStatusOfInput fault → ⊥) }
    ensures early { IfErr result
        (λ fault. IsCommandExitStatusBeforeAnswer fault → Keeps (W.contents out.old) (W.contents out.new)) }
{
    let line = explain_command_halt_line(alloc, options.file.as_deref(), ended)?;
    explain_command_prints_end(alloc, options, script, ended, out)?;
    Ok(line)
}

/// Runs a script and tells the run, or draws it. Answers the line that standard error gets if it can't go on.
fn explain_command_prints_run<T: ScriptRunner, R: Wait, W: Write>(
    study: &Study<'_, T, R>,
    options: &ExplainOptions,
    script: &Script,
    out: &mut W,
) -> Result<Option<String>, CommandFault>
    requires { IsLawful (plan_of script.now) }
    ensures told { IfOk result (λ line. IsExplainCommandRun options.now.showing.picture (is_some line)
        options.now (plan_of script.now) (W.contents out.old) (W.contents out.new)) }
    ensures runs { IfErr result (λ fault. IsCommandExitStatusOfInput fault → ⊥) }
    ensures early { IfErr result
        (λ fault. IsCommandExitStatusBeforeAnswer fault → Keeps (W.contents out.old) (W.contents out.new)) }
{
    let ended = explain_command_end(study, options, script)?;
    let told = explain_command_tells_end(study.alloc, options, script, &ended, out);
    drop(ended);
    told
}

/// Reads a script, runs it and tells the run, or draws it.
fn explain_command_on_script<T: ScriptRunner, R: Wait, S: Read, W: Write>(
    study: &Study<'_, T, R>,
    options: &ExplainOptions,
    source: &mut S,
    refused: &mut Vec<u8>,
    out: &mut W,
) -> Result<Option<String>, CommandFault>
    ensures explained { IfOk result (λ line. IsExplainCommandOnSource options.now.showing.picture (is_some line)
        options.now (S.remaining source.old) (W.contents out.old) (W.contents out.new)) }
    ensures refused { IfErr result (λ fault. IsCommandExitStatusOfInput fault → IsServedWithoutScript (S.remaining source.old)) }
    ensures early { IfErr result
        (λ fault. IsCommandExitStatusBeforeAnswer fault → Keeps (W.contents out.old) (W.contents out.new)) }
{
    let script = program_reads_script(study.alloc, source, refused)?;
    explain_command_prints_run(study, options, &script, out)
}

/// Runs the script of `source` by turns as the options say, and tells the run on `out`, or draws it there. If there is
/// none, or if it can't go on, one line goes to `err`. Answers the exit status. The file that the options name isn't
/// opened here.
pub fn run_explain_command<T: ScriptRunner, R: Wait, S: Read, W: Write, E: Write>(
    study: &Study<'_, T, R>,
    options: &ExplainOptions,
    source: &mut S,
    out: &mut W,
    err: &mut E,
) -> u8
    // The script that was read was run by turns to its end, and the run was told whole.
    ensures whole { result ≡ 0 → IsExplainCommandOnSource options.now.showing.picture false
        options.now
        (S.remaining source.old) (W.contents out.old) (W.contents out.new) }
    // It was run so as far as it goes, and can't go on; so far it was told whole.
    ensures halted { result ≡ 3 → IsExplainCommandOnSource options.now.showing.picture true
        options.now
        (S.remaining source.old) (W.contents out.old) (W.contents out.new) }
    // What is refused as a script is none.
    ensures refused { result ≡ 2 → IsServedWithoutScript (S.remaining source.old) }
    // At any status but 4, a run is told whole or not at all.
    ensures early { result ≢ 0 → result ≢ 3 → result ≢ 4
        → Keeps (W.contents out.old) (W.contents out.new) }
    // Of a run that ended, no line goes to the error output.
    ensures quiet { result ≡ 0 → Keeps (E.contents err.old) (E.contents err.new) }
{
    let mut refused = Vec::new(study.alloc);
    match explain_command_on_script(study, options, source, &mut refused, out) {
        Ok(None) => 0,
        Ok(Some(line)) => program_says_line(Ok(line), HALTED, err),
        Err(fault) => fault
            .of_told()
            .say(study.alloc, options.file.as_deref(), &refused, err),
    }
}
