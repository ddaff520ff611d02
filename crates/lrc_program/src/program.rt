//! The program over its reader and its writers.
ghost use Rattle.std.specs.Prelude.{ℕ, ◌≡◌, ◌≢◌, ◌<◌, ◌⊎◌, IfErr, IfOk, List, Ok, OnOk};
ghost use Rattle.std.specs.Io.KnownBytes.{Keeps};
ghost use Rattle.lrc_script.specs.Prelude.{IsLawful, plan_of};
ghost use Rattle.conformance.specs.Prelude.{IsScriptReport, IsScheduleText};
ghost use Rattle.conformance.specs.declared.ended.Ended.TheVariants.{Whole};
ghost use Rattle.lrc_program.specs.Prelude.{IsServedAsAsked, IsServedByTurns, IsServedWithoutScript, IsServedReportPrinted, IsServedScriptRead, IsServed, IsProgramExitStatusBeforeOutput};
ghost use Rattle.lrc_program.specs.Prelude.{IsProgramExitStatusOfScript, IsProgramExitStatusOf, served_lock_chosen};

use crate::fault::ProgramFault;
use conformance::{Cause, Ended, LockChoice, RunFault, Schedule, ScriptRunner};
use lrc_options::options::Options;
use lrc_report::Report;
use lrc_report::render::render;
use lrc_script::script::{MOST_BYTES, Script, parse};
use std::alloc::{AllocError, Global};
use std::io::{Read, Write};
use std::sync::Wait;
use std::thread::Threads;

/// One byte more than the longest script has: what is longer is refused without its rest.
const MOST_READ: u64 = MOST_BYTES as u64 + 1;

/// The lock that the options ask for.
fn program_lock(options: &Options) -> LockChoice
    ensures { result ≡ served_lock_chosen options.now }
{
    if options.ticket {
        LockChoice::Ticket
    } else {
        LockChoice::Array
    }
}

/// Has the script run by the turns of the schedule that this text gives.
fn program_scheduled_report<T: ScriptRunner, R: Wait>(
    runs: &T,
    rt: &R,
    alloc: Global,
    script: &Script,
    lock: LockChoice,
    text: &str,
) -> Result<Report, ProgramFault>
    requires { IsLawful (plan_of script.now) }
    ensures report { IfOk result (IsScriptReport (plan_of script.now)) }
    ensures followed { IfOk result (λ report. (turns : List ℕ) × IsScheduleText text.now turns
        × T.followed (plan_of script.now) lock turns (Ok (Whole report))) }
    ensures runs { IfErr result (λ fault. IsProgramExitStatusOfScript fault → ⊥) }
{
    let schedule = Schedule::parse(alloc, text)?;
    let ended = runs.step_by(rt, alloc, script, lock, &schedule)?;
    match ended {
        Ended::Whole(report) => Ok(report),
        Ended::Halted(halt) => Err(ProgramFault::from(RunFault {
            processor: halt.processor,
            cause: Cause::Stuck,
        })),
    }
}

/// Has the script run by turns as the options say.
fn program_stepped_report<T: ScriptRunner, R: Wait>(
    runs: &T,
    rt: &R,
    alloc: Global,
    options: &Options,
    script: &Script,
) -> Result<Report, ProgramFault>
    requires { IsLawful (plan_of script.now) }
    ensures report { IfOk result (IsScriptReport (plan_of script.now)) }
    ensures asked { IfOk result (IsServedByTurns T.stepped T.followed options.now (plan_of script.now)) }
    ensures runs { IfErr result (λ fault. IsProgramExitStatusOfScript fault → ⊥) }
{
    let lock = program_lock(options);
    match options.schedule.as_deref() {
        Some(text) => program_scheduled_report(runs, rt, alloc, script, lock, text),
        None => Ok(runs.step(rt, alloc, script, lock, options.seed)?),
    }
}

/// Has the script run as the options say.
fn program_report<T: ScriptRunner, R: Threads + Wait + Sync>(
    runs: &T,
    rt: &R,
    alloc: Global,
    options: &Options,
    script: &Script,
) -> Result<Report, ProgramFault>
    requires tries { 0 < options.now.tries }
    requires lawful { IsLawful (plan_of script.now) }
    ensures report { IfOk result (IsScriptReport (plan_of script.now)) }
    ensures asked { IfOk result (IsServedAsAsked T.ran T.stepped T.followed options.now (plan_of script.now)) }
    ensures runs { IfErr result (λ fault. IsProgramExitStatusOfScript fault → ⊥) }
{
    if options.step {
        return program_stepped_report(runs, rt, alloc, options, script);
    }
    Ok(runs.run(rt, alloc, script, program_lock(options), options.tries)?)
}

/// Reads a script: all that the source has. If that is no script's text, it is handed out as `refused`, so far as it was read.
pub fn program_reads_script<S: Read>(
    alloc: Global,
    source: &mut S,
    refused: &mut Vec<u8>,
) -> Result<Script, ProgramFault>
    ensures read { IfOk result (λ s. IsServedScriptRead (S.remaining source.old) (plan_of s)) }
    ensures refused { IfErr result (λ fault. IsProgramExitStatusOfScript fault → IsServedWithoutScript (S.remaining source.old)) }
{
    let mut bytes = Vec::new(alloc);
    source.take(MOST_READ).read_to_end(&mut bytes)?;
    match parse(alloc, &bytes) {
        Ok(script) => Ok(script),
        Err(fault) => {
            *refused = bytes;
            Err(ProgramFault::from(fault))
        }
    }
}

/// Runs a script and writes its report. It stands apart from the reading since nothing is to be dropped if the run
/// ends with a fault.
fn program_prints_report<T: ScriptRunner, R: Threads + Wait + Sync, W: Write>(
    runs: &T,
    rt: &R,
    alloc: Global,
    options: &Options,
    script: &Script,
    out: &mut W,
) -> Result<(), ProgramFault>
    requires tries { 0 < options.now.tries }
    requires lawful { IsLawful (plan_of script.now) }
    ensures printed { OnOk result (IsServedReportPrinted (IsServedAsAsked T.ran T.stepped T.followed options.now) options.now.journal (plan_of script.now)
        (W.contents out.old) (W.contents out.new)) }
    ensures early { IfErr result
        (λ fault. IsProgramExitStatusBeforeOutput fault → Keeps (W.contents out.old) (W.contents out.new)) }
    ensures runs { IfErr result (λ fault. IsProgramExitStatusOfScript fault → ⊥) }
{
    let report = program_report(runs, rt, alloc, options, script)?;
    render(&report, options.journal, out)?;
    Ok(())
}

/// Reads a script, runs it and writes its report.
fn program_runs_script<T: ScriptRunner, R: Threads + Wait + Sync, S: Read, W: Write>(
    runs: &T,
    rt: &R,
    alloc: Global,
    options: &Options,
    source: &mut S,
    refused: &mut Vec<u8>,
    out: &mut W,
) -> Result<(), ProgramFault>
    requires { 0 < options.now.tries }
    ensures served { OnOk result (IsServed (IsServedAsAsked T.ran T.stepped T.followed options.now) options.now.journal
        (S.remaining source.old) (W.contents out.old) (W.contents out.new)) }
    ensures refused { IfErr result (λ fault. IsProgramExitStatusOfScript fault → IsServedWithoutScript (S.remaining source.old)) }
    ensures early { IfErr result
        (λ fault. IsProgramExitStatusBeforeOutput fault → Keeps (W.contents out.old) (W.contents out.new)) }
{
    let script = program_reads_script(alloc, source, refused)?;
    program_prints_report(runs, rt, alloc, options, &script, out)
}

/// Says the line on `err` in one write, and answers the status. If there was no memory for the line, it says that,
/// with the status of that.
pub fn program_says_line<E: Write>(line: Result<String, AllocError>, status: u8, err: &mut E) -> u8
    ensures { (result ≡ status) ⊎ (result ≡ 4) }
{
    // If standard error takes nothing, the status still tells.
    match line {
        Ok(line) => {
            let _ = err.write_all(line.as_bytes());
            status
        }
        Err(_) => {
            let _ = err.write_all(b"lrc: out of memory\n");
            ProgramFault::NoMemory.status()
        }
    }
}

/// Says on `err` in one write why the program ends without a report on the file's script, and answers the fault's
/// exit status. If there is no memory for the line, it says that, with the status of that.
pub fn program_says<E: Write>(
    alloc: Global,
    file: Option<&str>,
    fault: ProgramFault,
    err: &mut E,
) -> u8
    ensures { IsProgramExitStatusOf fault result }
{
    program_says_line(fault.line(alloc, file), fault.status(), err)
}

/// The same of a script that has these bytes: if the fault is its own, the lines about that follow.
pub fn program_says_of_script<E: Write>(
    alloc: Global,
    file: Option<&str>,
    script: &[u8],
    fault: ProgramFault,
    err: &mut E,
) -> u8
    ensures { IsProgramExitStatusOf fault result }
{
    program_says_line(fault.lines(alloc, file, script), fault.status(), err)
}

/// Runs the script of `source` as the options say: writes its report to `out`, or why there is none to `err`, and
/// answers the exit status. The file that the options name isn't opened here.
pub fn program<T: ScriptRunner, R: Threads + Wait + Sync, S: Read, W: Write, E: Write>(
    runs: &T,
    rt: &R,
    alloc: Global,
    options: &Options,
    source: &mut S,
    out: &mut W,
    err: &mut E,
) -> u8
    requires { 0 < options.now.tries }
    // The script that was read was run as the options ask, and the report of that run was written, whole.
    ensures served { result ≡ 0 → IsServed (IsServedAsAsked T.ran T.stepped T.followed options.now) options.now.journal
        (S.remaining source.old) (W.contents out.old) (W.contents out.new) }
    // What is refused as a script is none.
    ensures refused { result ≡ 2 → IsServedWithoutScript (S.remaining source.old) }
    // At any status but 4, a report is written whole or not at all.
    ensures early { result ≢ 0 → result ≢ 4 → Keeps (W.contents out.old) (W.contents out.new) }
    // If it was written, no line goes to the error output.
    ensures quiet { result ≡ 0 → Keeps (E.contents err.old) (E.contents err.new) }
{
    let mut refused = Vec::new(alloc);
    match program_runs_script(runs, rt, alloc, options, source, &mut refused, out) {
        Ok(()) => 0,
        Err(fault) => program_says_of_script(alloc, options.file.as_deref(), &refused, fault, err),
    }
}
