//! The command that tells whether a trace follows its script, over its readers and its writers.
ghost use Rattle.std.specs.Prelude.{◌≡◌, ◌↔◌, ◌⊎◌, IfErr, IfOk, IsTrue, false, true};
ghost use Rattle.std.specs.Io.KnownBytes.{Appends, Keeps};
ghost use Rattle.lrc_check.specs.Traces.Sizes.{trace_sizes_of};
ghost use Rattle.lrc_script.specs.Prelude.{plan_of};
ghost use Rattle.conformance.specs.Follows.{Follows, plan_sizes};
ghost use Rattle.lrc_commands.specs.Prelude.{IsCommandExitStatusOfInput, IsTraceCommandOnNone};
ghost use Rattle.lrc_program.specs.Prelude.{IsServedWithoutScript};
ghost use Rattle.lrc_tester.specs.Commands.{IsFollowingTrace, IsFollowsAnswer, IsFollowsCommandDone};
ghost use Rattle.lrc_tester.specs.declared.following.Following.TheVariants as following;
ghost use Rattle.lrc_tester.specs.declared.follows_command.Answer.TheVariants as answer;

use crate::following::{Following, follow};
use crate::next_text::{push_event, push_next};
use journal::Event;
use lrc_check::traces::trace::{Trace, TraceSizes};
use lrc_commands::checking::check_command_reads_all;
use lrc_commands::fault::CommandFault;
use lrc_commands::refused_line::RefusedLine;
use lrc_options::options::FollowOptions;
use lrc_program::program::program_reads_script;
use lrc_script::script::Script;
use std::alloc::{AllocError, Global};
use std::io::{Read, Write};

/// The exit status if the trace doesn't follow the script.
const STRAYS: u8 = 6;

/// What is said of a trace and a script.
#[derive(Clone, Copy)]
enum Answer {
    /// They have other sizes.
    OtherSizes,
    /// They have the same ones.
    Following(Following),
}

/// Whether the trace has the script's sizes.
fn has_sizes(script: &Script, sizes: TraceSizes) -> bool
    ensures { IsTrue result ↔ (plan_sizes (plan_of script.now) ≡ trace_sizes_of sizes) }
{
    let is_cluster = script.processors == sizes.processors;
    let is_memory = script.pages == sizes.pages && script.words == sizes.words;
    is_cluster && is_memory && script.locks == sizes.locks && script.flags == sizes.flags
}

impl Answer {
    /// Whether the trace follows the script.
    fn follows(self) -> bool
        ensures { IsTrue result ↔ (self ≡ answer.Following following.Follows) }
    {
        match self {
            Answer::Following(Following::Follows) => true,
            _ => false,
        }
    }

    /// The first line that is printed.
    fn line(self, alloc: Global) -> Result<String, AllocError> {
        match self {
            Answer::OtherSizes => String::from_str(alloc, "other sizes\n"),
            Answer::Following(Following::Follows) => String::from_str(alloc, "follows\n"),
            Answer::Following(Following::Strays(place, _)) => {
                format!(in alloc; "strays {place}\n")
            }
            Answer::Following(Following::Unfinished(processor, _)) => {
                format!(in alloc; "unfinished {processor}\n")
            }
        }
    }

    /// Adds what the next lines say: the event that strays, and what its processor does next by the script.
    fn push_more(
        self,
        alloc: Global,
        text: &mut Vec<u8>,
        script: &Script,
        events: &[Event],
    ) -> Result<(), AllocError> {
        match self {
            Answer::Following(Following::Strays(place, next)) => {
                push_event(text, place, events)?;
                match events.get(place) {
                    Some(event) => push_next(alloc, text, script, event.processor, next),
                    None => Ok(()),
                }
            }
            Answer::Following(Following::Unfinished(processor, next)) => {
                push_next(alloc, text, script, processor, next)
            }
            _ => Ok(()),
        }
    }

    /// What is printed.
    fn text(self, alloc: Global, script: &Script, events: &[Event]) -> Result<Vec<u8>, AllocError> {
        let line = self.line(alloc)?;
        let mut text = Vec::new(alloc);
        text.extend_from_slice(line.as_bytes())?;
        self.push_more(alloc, &mut text, script, events)?;
        Ok(text)
    }
}

/// What is to be said of the trace.
fn answer_of(alloc: Global, script: &Script, trace: &Trace) -> Result<Answer, AllocError>
    ensures { IfOk result (λ a. (a ≡ answer.Following following.Follows)
        ↔ IsFollowingTrace (plan_of script.now) (trace_sizes_of trace.now.sizes) trace.now.events.items) }
{
    if !has_sizes(script, trace.sizes) {
        return Ok(Answer::OtherSizes);
    }
    Ok(Answer::Following(follow(alloc, script, &trace.events)?))
}

/// Writes the text, and flushes the writer.
fn write_text<W: Write>(text: &[u8], out: &mut W) -> Result<(), CommandFault>
    ensures runs { IfErr result (λ fault. IsCommandExitStatusOfInput fault → ⊥) }
{
    out.write_all(text)?;
    out.flush()?;
    Ok(())
}

/// Writes what is to be said of the trace: whether it follows the script.
fn write_answer<W: Write>(
    alloc: Global,
    script: &Script,
    trace: &Trace,
    out: &mut W,
) -> Result<bool, CommandFault>
    ensures done { IfOk result (λ follows. IsTrue follows
        ↔ IsFollowingTrace (plan_of script.now) (trace_sizes_of trace.now.sizes) trace.now.events.items) }
    ensures runs { IfErr result (λ fault. IsCommandExitStatusOfInput fault → ⊥) }
{
    let answer = answer_of(alloc, script, trace)?;
    let text = answer.text(alloc, script, &trace.events)?;
    write_text(&text, out)?;
    Ok(answer.follows())
}

/// Reads a script and a trace, and writes whether the trace follows the script: whether it does.
fn follow_sources<S: Read, T: Read, W: Write>(
    alloc: Global,
    script: &mut S,
    trace: &mut T,
    refused: (&mut Vec<u8>, &mut RefusedLine),
    out: &mut W,
) -> Result<bool, CommandFault>
    ensures done { IfOk result (λ follows. IsFollowsCommandDone follows (S.remaining script.old) (T.remaining trace.old)) }
    ensures refused { IfErr result (λ fault. IsCommandExitStatusOfInput fault
        → IsServedWithoutScript (S.remaining script.old) ⊎ IsTraceCommandOnNone false (T.remaining trace.old)) }
{
    let script = program_reads_script(alloc, script, refused.0)?;
    let labelled = check_command_reads_all(alloc, trace, false, refused.1)?;
    let follows = write_answer(alloc, &script, &labelled.trace, out)?;
    Ok(follows)
}

/// Tells on `out` whether the trace of `trace` follows the script of `script`, or on `err` why not; answers the exit status. The files
/// that the options name aren't opened here.
pub fn run_follows_command<S: Read, T: Read, W: Write, E: Write>(
    alloc: Global,
    options: &FollowOptions,
    script: &mut S,
    trace: &mut T,
    out: &mut W,
    err: &mut E,
) -> u8
    // The sources had a script and a trace of its sizes, which follows it.
    ensures follows { result ≡ 0 → IsFollowsCommandDone true (S.remaining script.old) (T.remaining trace.old) }
    // They had a script and a trace, which doesn't.
    ensures strays { result ≡ 6 → IsFollowsCommandDone false (S.remaining script.old) (T.remaining trace.old) }
    // What is refused is no script, or no trace.
    ensures refused { result ≡ 2 → IsServedWithoutScript (S.remaining script.old) ⊎ IsTraceCommandOnNone false (T.remaining trace.old) }
    // If it was told, no line goes to the error output.
    ensures quiet { (result ≡ 0) ⊎ (result ≡ 6) → Keeps (E.contents err.old) (E.contents err.new) }
{
    let (mut bytes, mut line) = (Vec::new(alloc), RefusedLine::new(alloc));
    match follow_sources(alloc, script, trace, (&mut bytes, &mut line), out) {
        Ok(true) => 0,
        Ok(false) => STRAYS,
        Err(CommandFault::Trace(number, fault)) => {
            let fault = CommandFault::Trace(number, fault);
            fault.say_of_trace(alloc, options.trace.as_deref(), &line, err)
        }
        Err(fault) => fault.say(alloc, options.script.as_deref(), &bytes, err),
    }
}
