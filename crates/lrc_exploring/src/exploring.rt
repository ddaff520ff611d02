//! The program that looks at all schedules of a script, over its reader and its writers.
ghost use Rattle.std.specs.Prelude.{◌≡◌, ◌≢◌, IfErr, IfOk, false, true};
ghost use Rattle.std.specs.Io.KnownBytes.{Keeps};
ghost use Rattle.conformance.specs.declared.script_runner.LockChoice.TheVariants.{Ticket};
ghost use Rattle.lrc_program.specs.Prelude.{IsServedWithoutScript};
ghost use Rattle.lrc_commands.specs.Prelude.{IsCommandExitStatusBeforeAnswer, IsCommandExitStatusOfInput};
ghost use Rattle.lrc_script.specs.Prelude.{IsLawful, plan_of};
ghost use Rattle.lrc_exploring.specs.Prelude.{ExploreAnswerTold, ExploreCommandWritten};

use crate::answering::answer;
use crate::writing::tell_answer;
use conformance::ScriptRunner;
use explore::Progress;
use lrc_commands::Study;
use lrc_commands::fault::CommandFault;
use lrc_options::options::ExploreOptions;
use lrc_program::program::program_reads_script;
use lrc_script::script::Script;
use std::io::{Read, Write};
use std::sync::Wait;

/// The exit status if the search was given up.
const UNDECIDED: u8 = 7;

/// Looks for what the options ask for, and writes what was found. Answers whether nothing is open.
fn explore_script<T: ScriptRunner, R: Wait, W: Write, P: Progress>(
    study: &Study<'_, T, R>,
    options: &ExploreOptions,
    script: &Script,
    out: &mut W,
    progress: &mut P,
) -> Result<bool, CommandFault>
    requires { IsLawful (plan_of script.now) }
    ensures told { IfOk result (λ decided. ExploreAnswerTold (λ s turns end. T.followed s Ticket turns end) options.now decided
        (plan_of script.now) (W.contents out.old) (W.contents out.new)) }
    ensures runs { IfErr result (λ fault. IsCommandExitStatusOfInput fault → ⊥) }
    ensures early { IfErr result
        (λ fault. IsCommandExitStatusBeforeAnswer fault → Keeps (W.contents out.old) (W.contents out.new)) }
{
    let found = answer(study, options, script, progress)?;
    let told = tell_answer(study.alloc, options, script, &found, out);
    drop(found);
    told
}

/// Reads a script, looks for what the options ask for, and writes what was found. Answers whether nothing is open.
fn explore_source<T: ScriptRunner, R: Wait, S: Read, W: Write, P: Progress>(
    study: &Study<'_, T, R>,
    options: &ExploreOptions,
    source: &mut S,
    refused: &mut Vec<u8>,
    out: &mut W,
    progress: &mut P,
) -> Result<bool, CommandFault>
    ensures searched { IfOk result (λ decided. ExploreCommandWritten (λ s turns end. T.followed s Ticket turns end) options.now decided
        (S.remaining source.old) (W.contents out.old) (W.contents out.new)) }
    ensures refused { IfErr result (λ fault. IsCommandExitStatusOfInput fault → IsServedWithoutScript (S.remaining source.old)) }
    ensures early { IfErr result
        (λ fault. IsCommandExitStatusBeforeAnswer fault → Keeps (W.contents out.old) (W.contents out.new)) }
{
    let script = program_reads_script(study.alloc, source, refused)?;
    explore_script(study, options, &script, out, progress)
}

/// Looks at all schedules of the script of `source`, and for what the rules of the memory allow if it is racy. If the options give
/// words, it looks for a run that ends with these. It writes what was found to `out`, or why nothing was to `err`, and returns the
/// exit status. The file that the options name isn't opened here. `progress` is told now and then how far the search is.
pub fn run_explore_command<T: ScriptRunner, R: Wait, S: Read, W: Write, E: Write, P: Progress>(
    study: &Study<'_, T, R>,
    options: &ExploreOptions,
    source: &mut S,
    out: &mut W,
    err: &mut E,
    progress: &mut P,
) -> u8
    // What the options ask for was looked for in the script that was read, to its end, and what was found was written, whole.
    ensures decided { result ≡ 0 → ExploreCommandWritten (λ s turns end. T.followed s Ticket turns end) options.now true (S.remaining source.old)
        (W.contents out.old) (W.contents out.new) }
    // The search was given up after as many states as the options say, or as fit, and what it had found was written.
    ensures undecided { result ≡ 7 → ExploreCommandWritten (λ s turns end. T.followed s Ticket turns end) options.now false (S.remaining source.old)
        (W.contents out.old) (W.contents out.new) }
    // What is refused as a script is none.
    ensures refused { result ≡ 2 → IsServedWithoutScript (S.remaining source.old) }
    // At any status but 4, the text is written whole or not at all.
    ensures early { result ≢ 0 → result ≢ 7 → result ≢ 4
        → Keeps (W.contents out.old) (W.contents out.new) }
    // If it was written, no line goes to the error output.
    ensures quiet { result ≡ 0 → Keeps (E.contents err.old) (E.contents err.new) }
    ensures quiet_too { result ≡ 7 → Keeps (E.contents err.old) (E.contents err.new) }
{
    let mut refused = Vec::new(study.alloc);
    match explore_source(study, options, source, &mut refused, out, progress) {
        Ok(true) => 0,
        Ok(false) => UNDECIDED,
        Err(fault) => fault.say(study.alloc, options.file.as_deref(), &refused, err),
    }
}
