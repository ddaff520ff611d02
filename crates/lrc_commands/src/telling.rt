//! The program that tells traces, over its reader and its writers.
ghost use Rattle.std.specs.Prelude.{◌≡◌, ◌≢◌, ◌⊎◌, IfErr, IfOk};
ghost use Rattle.std.specs.Io.KnownBytes.{Keeps};
ghost use Rattle.lrc_commands.specs.Prelude.{IsTraceCommandOnFaithful, IsCommandExitStatusOfInput, IsTraceCommandOnNone, IsCommandExitStatusBeforeAnswer};
ghost use Rattle.lrc_commands.specs.Prelude.{IsTraceCommandOnHeld, IsTraceCommandToldAs, IsTraceCommandOnUnfaithful, trace_command_model};

use crate::checking::{UNFAITHFUL, check_command_model, check_command_reads_all};
use crate::drawing::draw_trace;
use crate::explaining::{explain_command_drawing, explain_command_extent};
use crate::fault::CommandFault;
use crate::refused_line::RefusedLine;
use judge::Sizes;
use lrc_check::{ToldTrace, can_trace_be_held, tell_trace};
use lrc_explain::{ToldHistory, render_explained_trace};
use lrc_options::options::{TellOptions, TraceModel};
use lrc_program::program_file_named;
use std::alloc::Global;
use std::io::{Read, Write};

/// Whether the pages of a trace are told: if it is judged by this memory's own model, and has its sizes. Each event that takes is
/// looked at for each page.
fn tell_command_tells_pages(model: TraceModel, sizes: Sizes) -> bool {
    match model {
        TraceModel::LazyRelease => sizes.are_small(),
        _ => false,
    }
}

/// Writes what is told of a trace, or draws it.
fn tell_command_prints<W: Write>(
    alloc: Global,
    options: &TellOptions,
    told: &ToldTrace<'_>,
    out: &mut W,
) -> Result<(), CommandFault>
    ensures runs { IfErr result (λ fault. IsCommandExitStatusOfInput fault → ⊥) }
    ensures early { IfErr result
        (λ fault. IsCommandExitStatusBeforeAnswer fault → Keeps (W.contents out.old) (W.contents out.new)) }
{
    let pages = tell_command_tells_pages(options.model, told.history.sizes());
    let history = ToldHistory {
        history: &told.history,
        labels: &told.labels,
        lie: told.lie.as_deref(),
    };
    if options.showing.picture {
        let drawing = explain_command_drawing(program_file_named(&options.file), &options.showing);
        return draw_trace(alloc, &drawing, told, &history, pages, out);
    }
    let extent = explain_command_extent(&options.showing, pages);
    render_explained_trace(alloc, &history, &extent, &told.verdict, out)?;
    Ok(())
}

/// Reads a trace, judges it and tells it, or draws it: whether it lies. One with more events than are held isn't told.
fn tell_command_on_source<S: Read, W: Write>(
    alloc: Global,
    options: &TellOptions,
    source: &mut S,
    refused: &mut RefusedLine,
    out: &mut W,
) -> Result<bool, CommandFault>
    ensures told { IfOk result (λ lies.
        IsTraceCommandToldAs lies (trace_command_model options.now.model) options.now.lax options.now.unfinished (S.remaining source.old)) }
    ensures held { IfOk result (λ _. IsTraceCommandOnHeld options.now.unfinished (S.remaining source.old)) }
    ensures refused { IfErr result (λ fault. IsCommandExitStatusOfInput fault → IsTraceCommandOnNone options.now.unfinished (S.remaining source.old)) }
    ensures early { IfErr result
        (λ fault. IsCommandExitStatusBeforeAnswer fault → Keeps (W.contents out.old) (W.contents out.new)) }
{
    let labelled = check_command_reads_all(alloc, source, options.unfinished, refused)?;
    if !can_trace_be_held(&labelled.trace) {
        return Err(CommandFault::Large);
    }
    let told = tell_trace(
        alloc,
        &labelled,
        check_command_model(options.model),
        options.lax,
    )?;
    let printed = tell_command_prints(alloc, options, &told, out);
    let lies = told.lie.is_some();
    drop(told);
    drop(labelled);
    printed?;
    Ok(lies)
}

/// Tells the trace of `source` on `out` up to its first lie, or draws it there, as the options say; of what is no trace one
/// line goes to `err`. Answers the exit status. The file that the options name isn't opened here.
pub fn run_tell_command<S: Read, W: Write, E: Write>(
    alloc: Global,
    options: &TellOptions,
    source: &mut S,
    out: &mut W,
    err: &mut E,
) -> u8
    // The source had a trace, and it is faithful: all of it was told.
    ensures faithful { result ≡ 0
        → IsTraceCommandOnFaithful (trace_command_model options.now.model) options.now.lax options.now.unfinished (S.remaining source.old) }
    // The source had a trace, and it is not.
    ensures unfaithful { result ≡ 6
        → IsTraceCommandOnUnfaithful (trace_command_model options.now.model) options.now.lax options.now.unfinished (S.remaining source.old) }
    // What is told is a trace of no more events than are held.
    ensures held { (result ≡ 0) ⊎ (result ≡ 6) → IsTraceCommandOnHeld options.now.unfinished (S.remaining source.old) }
    // What is refused as a trace is none.
    ensures refused { result ≡ 2 → IsTraceCommandOnNone options.now.unfinished (S.remaining source.old) }
    // At any status but 4, a trace is told whole or not at all.
    ensures early { result ≢ 0 → result ≢ 6 → result ≢ 4 → Keeps (W.contents out.old) (W.contents out.new) }
    // If a trace was told, no line goes to the error output.
    ensures quiet { (result ≡ 0) ⊎ (result ≡ 6) → Keeps (E.contents err.old) (E.contents err.new) }
{
    let mut refused = RefusedLine::new(alloc);
    match tell_command_on_source(alloc, options, source, &mut refused, out) {
        Ok(false) => 0,
        Ok(true) => UNFAITHFUL,
        Err(fault) => {
            fault.say_of_trace(alloc, program_file_named(&options.file), &refused, err)
        }
    }
}
