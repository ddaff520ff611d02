//! The program that samples scripts, over its reader and its writers.
ghost use Rattle.std.specs.Prelude.{◌≡◌, ◌≢◌, ◌+◌, IfErr, OnOk};
ghost use Rattle.std.specs.Io.KnownBytes.{Keeps};
ghost use Rattle.lrc_script.specs.Prelude.{IsLawful, plan_of};
ghost use Rattle.lrc_program.specs.Prelude.{IsServedWithoutScript};
ghost use Rattle.lrc_sample.specs.Prelude.{CameBySampleRunSeed};
ghost use Rattle.lrc_commands.specs.Prelude.{IsCommandExitStatusBeforeAnswer, IsCommandExitStatusOfInput, IsSampleCommandAnswer, IsSampleCommandWritten, IsSampleCommandOnSource, sample_command_detail, sample_command_lock};

use crate::fault::CommandFault;
use crate::locks::command_lock_of;
use crate::study::Study;
use conformance::ScriptRunner;
use lrc_json::write_sampled_json;
use lrc_options::options::{OutcomeDetail, SampleOptions};
use lrc_program::program::program_reads_script;
use lrc_sample::SampledScript;
use lrc_sample::detail::SampleDetail;
use lrc_sample::sampling::{SampleProgress, Sampled, sample};
use lrc_sample::text::render;
use lrc_script::script::Script;
use std::alloc::Global;
use std::io::{Read, Write};
use std::sync::Wait;
use std::thread::Threads;

/// What outcomes tell, by the options.
fn sample_command_detail(outcomes: OutcomeDetail) -> SampleDetail
    ensures { result ≡ sample_command_detail outcomes }
{
    match outcomes {
        OutcomeDetail::Words => SampleDetail::Words,
        OutcomeDetail::Loads => SampleDetail::Loads,
        OutcomeDetail::All => SampleDetail::All,
    }
}

/// Writes what a script's runs came to, as text or as JSON.
fn sample_command_writes<W: Write>(
    alloc: Global,
    json: bool,
    sampled: &Sampled,
    out: &mut W,
) -> Result<(), CommandFault>
    ensures written { OnOk result (IsSampleCommandAnswer json (W.contents out.old) (W.contents out.new) sampled.now) }
    ensures runs { IfErr result (λ fault. IsCommandExitStatusOfInput fault → ⊥) }
    ensures early { IfErr result
        (λ fault. IsCommandExitStatusBeforeAnswer fault → Keeps (W.contents out.old) (W.contents out.new)) }
{
    if json {
        return Ok(write_sampled_json(alloc, sampled, out)?);
    }
    Ok(render(alloc, sampled, out)?)
}

/// Runs a script under the seeds that the options ask for, and writes what that came to.
fn sample_command_prints<
    T: ScriptRunner + Sync,
    R: Threads + Wait + Sync,
    W: Write,
    P: SampleProgress,
>(
    study: &Study<'_, T, R>,
    options: &SampleOptions,
    script: &Script,
    out: &mut W,
    progress: &mut P,
) -> Result<(), CommandFault>
    requires { IsLawful (plan_of script.now) }
    ensures written { OnOk result (IsSampleCommandWritten (CameBySampleRunSeed T.followed T.drawn (sample_command_lock options.now.ticket))
        (sample_command_detail options.now.outcomes) (options.now.seeds + 1) options.now.json (plan_of script.now) (W.contents out.old) (W.contents out.new)) }
    ensures runs { IfErr result (λ fault. IsCommandExitStatusOfInput fault → ⊥) }
    ensures early { IfErr result
        (λ fault. IsCommandExitStatusBeforeAnswer fault → Keeps (W.contents out.old) (W.contents out.new)) }
{
    let lock = command_lock_of(options.ticket);
    let detail = sample_command_detail(options.outcomes);
    let Study { runs, rt, alloc } = *study;
    let asked = SampledScript {
        alloc,
        script,
        lock,
        detail,
    };
    let jobs = options.jobs.unwrap_or(1);
    let sampled = sample(runs, rt, asked, jobs, options.seeds, progress)?;
    sample_command_writes(alloc, options.json, &sampled, out)
}

/// Reads a script, runs it under the seeds that the options ask for, and writes what that came to.
fn sample_command_on_script<
    T: ScriptRunner + Sync,
    R: Threads + Wait + Sync,
    S: Read,
    W: Write,
    P: SampleProgress,
>(
    study: &Study<'_, T, R>,
    options: &SampleOptions,
    source: &mut S,
    refused: &mut Vec<u8>,
    out: &mut W,
    progress: &mut P,
) -> Result<(), CommandFault>
    ensures sampled { OnOk result (IsSampleCommandOnSource (CameBySampleRunSeed T.followed T.drawn (sample_command_lock options.now.ticket))
        (sample_command_detail options.now.outcomes) (options.now.seeds + 1) options.now.json (S.remaining source.old) (W.contents out.old) (W.contents out.new)) }
    ensures refused { IfErr result (λ fault. IsCommandExitStatusOfInput fault → IsServedWithoutScript (S.remaining source.old)) }
    ensures early { IfErr result
        (λ fault. IsCommandExitStatusBeforeAnswer fault → Keeps (W.contents out.old) (W.contents out.new)) }
{
    let script = program_reads_script(study.alloc, source, refused)?;
    sample_command_prints(study, options, &script, out, progress)
}

/// Runs the script of `source` in rounds, and by the turns that as many seeds as the options say draw: writes what that came
/// to to `out`, or one line to `err`, and answers the exit status. The file that the options name isn't opened here. `progress` is
/// told how many runs are done.
pub fn run_sample_command<
    T: ScriptRunner + Sync,
    R: Threads + Wait + Sync,
    S: Read,
    W: Write,
    E: Write,
    P: SampleProgress,
>(
    study: &Study<'_, T, R>,
    options: &SampleOptions,
    source: &mut S,
    out: &mut W,
    err: &mut E,
    progress: &mut P,
) -> u8
    // The script that was read was run once by each of so many seeds and once without, with the lock that was asked for, and
    // what that came to was written, whole, in the detail that was asked for: as text, or as JSON if that was asked for.
    ensures sampled { result ≡ 0 → IsSampleCommandOnSource (CameBySampleRunSeed T.followed T.drawn (sample_command_lock options.now.ticket))
        (sample_command_detail options.now.outcomes) (options.now.seeds + 1) options.now.json (S.remaining source.old) (W.contents out.old) (W.contents out.new) }
    // What is refused as a script is none.
    ensures refused { result ≡ 2 → IsServedWithoutScript (S.remaining source.old) }
    // At any status but 4, the text is written whole or not at all.
    ensures early { result ≢ 0 → result ≢ 4 → Keeps (W.contents out.old) (W.contents out.new) }
    // If it was written, no line goes to the error output.
    ensures quiet { result ≡ 0 → Keeps (E.contents err.old) (E.contents err.new) }
{
    let mut refused = Vec::new(study.alloc);
    match sample_command_on_script(study, options, source, &mut refused, out, progress) {
        Ok(()) => 0,
        Err(fault) => fault.say(study.alloc, options.file.as_deref(), &refused, err),
    }
}
