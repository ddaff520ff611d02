//! The text of a script.
ghost use Rattle.std.specs.Prelude.{Some, ◌++◌, ◌∷◌, [], map};
ghost use Rattle.std.specs.Fmt.{WritesOnOk};
ghost use Rattle.std.specs.List.{flat_map};
ghost use Rattle.lrc_script.specs.Prelude.{plan_of, script_line_spaced, script_line_bytes, script_line_text, script_cluster_line, script_section_line};
ghost use Rattle.lrc_script.specs.Prelude.{script_instruction_line, text};

use crate::script::{Instruction, Script};
use std::fmt;

/// Writes a word, and each number with a space before it.
fn display_line<W: fmt::Write>(
    f: &mut fmt::Formatter<W>,
    word: &str,
    numbers: &[usize],
) -> fmt::Result
    ensures { WritesOnOk W.write_str_gives f.old result (word.now ++ flat_map script_line_spaced numbers.now)
        f.new }
{
    f.write_str(word)?;
    for number in numbers {
        write!(f, " {number}")?;
    }
    Ok(())
}

impl fmt::Display for Instruction {
    ghost output = { λ i. Some (script_line_bytes (script_instruction_line i)) };

    fn fmt<W: fmt::Write>(&self, f: &mut fmt::Formatter<W>) -> fmt::Result {
        match *self {
            Instruction::Load(address) => display_line(f, "load", &[address]),
            Instruction::Store(address, value) => display_line(
                f,
                "store",
                &[address, value as usize],
            ),
            Instruction::Add(address, value) => display_line(f, "add", &[address, value as usize]),
            Instruction::Acquire(lock) => display_line(f, "acquire", &[lock]),
            Instruction::Release(lock) => display_line(f, "release", &[lock]),
            Instruction::Barrier => f.write_str("barrier"),
            Instruction::Set(flag) => display_line(f, "set", &[flag]),
            Instruction::Await(flag) => display_line(f, "await", &[flag]),
            Instruction::Cut => f.write_str("cut"),
        }
    }
}

/// Writes the `cluster` line: no flags are written with four numbers.
fn display_head_line<W: fmt::Write>(f: &mut fmt::Formatter<W>, script: &Script) -> fmt::Result
    ensures { WritesOnOk W.write_str_gives f.old result
        (script_line_text (script_cluster_line (plan_of script.now))) f.new }
{
    let sizes = [script.processors, script.pages, script.words, script.locks];
    display_line(f, "cluster", &sizes)?;
    let flags = script.flags;
    if flags != 0 {
        write!(f, " {flags}")?;
    }
    f.write_str("\n")
}

/// Writes the lines of a section's instructions.
fn display_instructions<W: fmt::Write>(
    f: &mut fmt::Formatter<W>,
    instructions: &[Instruction],
) -> fmt::Result
    ensures { WritesOnOk W.write_str_gives f.old result
        (flat_map script_line_text (map script_instruction_line instructions.now)) f.new }
{
    for instruction in instructions {
        writeln!(f, "{instruction}")?;
    }
    Ok(())
}

/// Writes the lines of a section.
fn display_section<W: fmt::Write>(
    f: &mut fmt::Formatter<W>,
    k: usize,
    instructions: &[Instruction],
) -> fmt::Result
    ensures { WritesOnOk W.write_str_gives f.old result (script_line_text (script_section_line k)
        ++ flat_map script_line_text (map script_instruction_line instructions.now)) f.new }
{
    display_line(f, "p", &[k])?;
    f.write_str("\n")?;
    display_instructions(f, instructions)
}

impl fmt::Display for Script {
    ghost output = { λ s. Some (text (plan_of s)) };

    fn fmt<W: fmt::Write>(&self, f: &mut fmt::Formatter<W>) -> fmt::Result {
        display_head_line(f, self)?;
        for (k, section) in self.sections.iter().enumerate() {
            display_section(f, k, section)?;
        }
        display_line(f, "show", &self.shown)?;
        f.write_str("\n")
    }
}
