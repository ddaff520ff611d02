//! What was found is written, as text or as JSON.
ghost use Rattle.std.specs.Prelude.{◌≡◌, ℕ, List, Err, IfErr, IfOk, OnOk};
ghost use Rattle.std.specs.Io.KnownBytes.{Appends, Keeps};
ghost use Rattle.lrc_explore.specs.Prelude.{ExploreTextUnwritten};
ghost use Rattle.lrc_explore.specs.declared.fault.ExploreFault.TheVariants as text;
ghost use Rattle.lrc_json.specs.declared.fault.JsonFault.TheVariants.{NoMemory};
ghost use Rattle.lrc_commands.specs.Prelude.{IsCommandExitStatusBeforeAnswer, IsCommandExitStatusOfInput};
ghost use Rattle.lrc_exploring.specs.Prelude.{ExploreAnswerTextWritten, ExploreAnswerWritten, IsExploreAnswerJson, is_explore_answer_settled};

use crate::answer::ExploreAnswer;
use crate::json::allowed::write_allowed_json;
use crate::json::allowed_showing::write_allowed_showing_json;
use crate::json::explored::write_explored_json;
use crate::json::open::write_open_json;
use crate::json::showing::write_showing_json;
use lrc_commands::fault::CommandFault;
use lrc_explore::{
    ExploreFault, render, render_allowed_showing_text, render_allowed_text, render_open_text,
    render_showing_text,
};
use lrc_json::JsonFault;
use lrc_options::options::ExploreOptions;
use lrc_program::fault::ProgramFault;
use lrc_script::script::Script;
use std::alloc::Global;
use std::io::Write;

/// Writes the text of what was found.
fn write_text<W: Write>(
    alloc: Global,
    options: &ExploreOptions,
    script: &Script,
    answer: &ExploreAnswer,
    out: &mut W,
) -> Result<(), ExploreFault>
    ensures written { OnOk result (ExploreAnswerTextWritten answer.now (W.contents out.old) (W.contents out.new)) }
    ensures unwritten { IfErr result (ExploreTextUnwritten (W.contents out.old) (W.contents out.new)) }
{
    match answer {
        ExploreAnswer::Schedules(explored) => render(alloc, script, explored, out),
        ExploreAnswer::Open(explored, gaps) => {
            render_open_text(alloc, script, explored, gaps, out)
        }
        ExploreAnswer::Rules(explored, allowed, shown) => {
            render_allowed_text(alloc, script, explored, allowed, shown, out)
        }
        ExploreAnswer::Until(explored) => render_showing_text(alloc, script, explored, out),
        ExploreAnswer::RulesUntil(explored, allowed, shown) => {
            let until = shown.until(&script.shown, &options.until);
            render_allowed_showing_text(alloc, script, explored, allowed, &until, out)
        }
    }
}

/// Writes JSON of what was found.
fn write_json<W: Write>(
    alloc: Global,
    options: &ExploreOptions,
    script: &Script,
    answer: &ExploreAnswer,
    out: &mut W,
) -> Result<(), JsonFault>
    ensures written { OnOk result ((json : List ℕ) × IsExploreAnswerJson answer.now json × Appends (W.contents out.old) (W.contents out.new) json) }
    ensures unwritten { result ≡ Err NoMemory → W.contents out.new ≡ W.contents out.old }
{
    match answer {
        ExploreAnswer::Schedules(explored) => write_explored_json(alloc, script, explored, out),
        ExploreAnswer::Open(explored, gaps) => {
            write_open_json(alloc, script, explored, gaps, out)
        }
        ExploreAnswer::Rules(explored, allowed, shown) => {
            write_allowed_json(alloc, script, explored, allowed, shown, out)
        }
        ExploreAnswer::Until(explored) => write_showing_json(alloc, script, explored, out),
        ExploreAnswer::RulesUntil(explored, allowed, shown) => {
            let until = shown.until(&script.shown, &options.until);
            write_allowed_showing_json(alloc, script, explored, allowed, &until, out)
        }
    }
}

/// Why there is no answer, if the text couldn't be written.
fn text_fault(fault: ExploreFault) -> CommandFault
    ensures runs { IsCommandExitStatusOfInput result → ⊥ }
    ensures early { IsCommandExitStatusBeforeAnswer result → fault ≡ text.NoMemory }
{
    match fault {
        ExploreFault::Output => CommandFault::Program(ProgramFault::Output),
        ExploreFault::NoMemory => CommandFault::Program(ProgramFault::NoMemory),
    }
}

/// Writes what was found, as text or as JSON.
fn write_answer<W: Write>(
    alloc: Global,
    options: &ExploreOptions,
    script: &Script,
    answer: &ExploreAnswer,
    out: &mut W,
) -> Result<(), CommandFault>
    ensures written { OnOk result (ExploreAnswerWritten options.now.json answer.now (W.contents out.old) (W.contents out.new)) }
    ensures runs { IfErr result (λ fault. IsCommandExitStatusOfInput fault → ⊥) }
    ensures early { IfErr result
        (λ fault. IsCommandExitStatusBeforeAnswer fault → Keeps (W.contents out.old) (W.contents out.new)) }
{
    if options.json {
        return Ok(write_json(alloc, options, script, answer, out)?);
    }
    match write_text(alloc, options, script, answer, out) {
        Ok(()) => Ok(()),
        Err(fault) => Err(text_fault(fault)),
    }
}

/// Writes what was found, as text or as JSON. Answers whether nothing is open.
pub(crate) fn tell_answer<W: Write>(
    alloc: Global,
    options: &ExploreOptions,
    script: &Script,
    answer: &ExploreAnswer,
    out: &mut W,
) -> Result<bool, CommandFault>
    ensures settled { IfOk result (λ settled. settled ≡ is_explore_answer_settled answer.now) }
    ensures written { IfOk result (λ _. ExploreAnswerWritten options.now.json answer.now (W.contents out.old) (W.contents out.new)) }
    ensures runs { IfErr result (λ fault. IsCommandExitStatusOfInput fault → ⊥) }
    ensures early { IfErr result
        (λ fault. IsCommandExitStatusBeforeAnswer fault → Keeps (W.contents out.old) (W.contents out.new)) }
{
    write_answer(alloc, options, script, answer, out)?;
    Ok(answer.is_settled())
}
