//! What a processor does next by its script, after so many calls.
ghost use Rattle.std.specs.Prelude.{◌≡◌, List, [], Some, length, slice_get};
ghost use Rattle.lrc_script.specs.Prelude.{plan_of};
ghost use Rattle.lrc_script.specs.declared.script.Instruction.{Instruction as AnInstruction};
ghost use Rattle.explore.specs.Prefixes.ScriptCalls.{script_calls_of_one, script_calls_shown_by};
ghost use Rattle.lrc_tester.specs.Following.{IsNextAfter};

use lrc_script::script::{Instruction, Script};

/// What a processor does next by its script.
#[derive(Clone, Copy)]
pub enum Next {
    /// The instruction at this index of its section, or the rest of that.
    Instruction(usize),
    /// The closing barrier, or the rest of that.
    Closing,
    /// The load of the shown address at this index.
    Shown(usize),
    /// Nothing.
    Nothing,
}

/// How many calls the instruction makes.
fn count_of_calls(instruction: Instruction) -> usize
    ensures { result ≡ length (script_calls_of_one instruction) }
{
    match instruction {
        Instruction::Cut => 0,
        Instruction::Add(..)
        | Instruction::Acquire(_)
        | Instruction::Barrier
        | Instruction::Await(_) => 2,
        _ => 1,
    }
}

/// What comes after the section's instructions, if so many calls are made after them and so many addresses are shown.
fn next_at_end(made: usize, shown: usize) -> Next
    ensures { IsNextAfter [] shown made result }
{
    if made < 2 {
        return Next::Closing;
    }
    if made - 2 < shown {
        Next::Shown(made - 2)
    } else {
        Next::Nothing
    }
}

/// What a processor with this section does next after so many calls, if it shows so many addresses.
fn next_in_section(section: &[Instruction], shown: usize, made: usize) -> Next
    ensures { IsNextAfter section.now shown made result }
{
    let mut left = made;
    for index in 0..section.len() {
        let calls = count_of_calls(section[index]);
        if left < calls {
            return Next::Instruction(index);
        }
        left -= calls;
    }
    next_at_end(left, shown)
}

/// What the processor does next after so many calls; nothing, if it has no section.
pub(crate) fn next_of(script: &Script, processor: usize, made: usize) -> Next
    ensures { (section : List AnInstruction) → slice_get (plan_of script.now).sections processor ≡ Some section
        → IsNextAfter section (length (script_calls_shown_by (plan_of script.now) processor)) made result }
{
    let shown = if processor == 0 {
        script.shown.len()
    } else {
        0
    };
    match script.sections.get(processor) {
        Some(section) => next_in_section(section, shown, made),
        None => Next::Nothing,
    }
}
