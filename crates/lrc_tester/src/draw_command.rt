//! The command that draws a script, over its writers.
ghost use Rattle.std.specs.Prelude.{ℕ, ◌≡◌, ◌≢◌, ◌<◌, ◌^◌, IfErr, IfOk, None, OnOk, Some, string_bytes};
ghost use Rattle.std.specs.Io.KnownBytes.{Appends, Keeps};
ghost use Rattle.lrc_script.specs.Prelude.{IsLawful, Plan, plan_of, text};
ghost use Rattle.lrc_tester.specs.Commands.{AreSizesLeftOut, HasAskedSizes, IsScriptDrawn, drawn_pattern, drawn_seed, pattern_of_name};
ghost use Rattle.lrc_tester.specs.Patterns.{HasGivenSizes, without_sizes};
ghost use Rattle.lrc_tester.specs.declared.tester.DrawFault.TheVariants as why;

use crate::pattern::Pattern;
use crate::sizes::GivenSizes;
use crate::tester::{DrawFault, draw};
use lrc_options::options::DrawOptions;
use lrc_program::program::program_says_line;
use lrc_script::script::Script;
use std::alloc::Global;
use std::io::Write;

/// The exit status if no such script was drawn.
const NOT_DRAWN: u8 = 5;

/// The exit status if memory ran out, or a write failed.
const FAILED: u8 = 4;

/// The pattern of this name; the mixed one, if none has it.
fn pattern_named(name: &str) -> Pattern
    ensures { result ≡ pattern_of_name name.now }
{
    if name == "guarded" {
        Pattern::Guarded
    } else if name == "free" {
        Pattern::Free
    } else if name == "chains" {
        Pattern::Chains
    } else if name == "sharing" {
        Pattern::Sharing
    } else if name == "barriers" {
        Pattern::Barriers
    } else if name == "nested" {
        Pattern::Nested
    } else if name == "flags" {
        Pattern::Flags
    } else if name == "silences" {
        Pattern::Silences
    } else {
        Pattern::Mixed
    }
}

/// The pattern that the options give.
fn pattern_given(options: &DrawOptions) -> Pattern
    ensures { result ≡ drawn_pattern options.now }
{
    match options.pattern.as_deref() {
        Some(name) => pattern_named(name),
        None => Pattern::Mixed,
    }
}

/// A size that is given.
fn size(given: Option<u64>) -> Option<u32>
    ensures none { given ≡ None → result ≡ None }
    ensures some { (n : ℕ) → given ≡ Some n → n < 2 ^ 32 → result ≡ Some n }
{
    match given {
        Some(size) => u32::try_from(size).ok(),
        None => None,
    }
}

/// The sizes that the options give.
fn sizes_given(options: &DrawOptions) -> GivenSizes
    ensures none { AreSizesLeftOut options.now → result ≡ without_sizes }
    ensures some { (s : Plan) → HasGivenSizes (drawn_pattern options.now) result s → HasAskedSizes options.now s }
{
    GivenSizes {
        processors: size(options.processors),
        pages: size(options.pages),
        words: size(options.words),
        locks: size(options.locks),
        flags: size(options.flags),
        length: size(options.length),
    }
}

/// Writes the script's text, and flushes the writer.
fn write_script<W: Write>(alloc: Global, script: &Script, out: &mut W) -> Result<(), DrawFault>
    ensures written { OnOk result (Appends (W.contents out.old) (W.contents out.new) (text (plan_of script.now))) }
    ensures early { IfErr result (λ e. e ≢ why.Output → Keeps (W.contents out.old) (W.contents out.new)) }
{
    let text = script.to_string(alloc)?;
    match out.write_all(text.as_bytes()) {
        Ok(()) => match out.flush() {
            Ok(()) => Ok(()),
            Err(_) => Err(DrawFault::Output),
        },
        Err(_) => Err(DrawFault::Output),
    }
}

/// The seed that the options give, or 0.
fn seed_given(options: &DrawOptions) -> u64
    ensures { result ≡ drawn_seed options.now }
{
    match options.seed {
        Some(seed) => seed,
        None => 0,
    }
}

/// Draws a script, and writes it.
fn draw_to<W: Write>(alloc: Global, options: &DrawOptions, out: &mut W) -> Result<(), DrawFault>
    ensures drawn { OnOk result (IsScriptDrawn options.now (W.contents out.old) (W.contents out.new)) }
    ensures early { IfErr result (λ e. e ≢ why.Output → Keeps (W.contents out.old) (W.contents out.new)) }
{
    let seed = seed_given(options);
    let script = draw(alloc, pattern_given(options), seed, sizes_given(options))?;
    write_script(alloc, &script, out)
}

/// The exit status of a fault.
fn status(fault: DrawFault) -> u8
    ensures drawn { result ≡ 5 → fault ≡ why.NotDrawn }
    ensures done { result ≢ 0 }
{
    match fault {
        DrawFault::NotDrawn => NOT_DRAWN,
        DrawFault::NoMemory | DrawFault::Output => FAILED,
    }
}

/// Draws the script that the options ask for, and writes it to `out`, or a line why not to `err`; answers the exit status.
pub fn run_draw_command<W: Write, E: Write>(
    alloc: Global,
    options: &DrawOptions,
    out: &mut W,
    err: &mut E,
) -> u8
    // A lawful script was written that never hangs, and never races if its pattern promises so.
    ensures drawn { result ≡ 0 → IsScriptDrawn options.now (W.contents out.old) (W.contents out.new) }
    // If no such script was drawn, nothing is written.
    ensures early { result ≡ 5 → Keeps (W.contents out.old) (W.contents out.new) }
    // If one was, no line goes to the error output.
    ensures quiet { result ≡ 0 → Keeps (E.contents err.old) (E.contents err.new) }
{
    match draw_to(alloc, options, out) {
        Ok(()) => 0,
        Err(fault) => {
            let line = format!(in alloc; "lrc: {fault}\n");
            program_says_line(line, status(fault), err)
        }
    }
}
