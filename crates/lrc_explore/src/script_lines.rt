//! The lines of a script's text at which its processors make their steps.

use lrc_script::script::{Instruction, Script};

/// A line of a script's text: its number, counted from 1, and the instruction that stands there.
#[derive(Clone, Copy)]
pub struct ScriptStepLine {
    pub line: usize,
    pub instruction: Instruction,
}

/// How many steps the instruction has.
fn steps_of_instruction(instruction: Instruction) -> usize {
    match instruction {
        Instruction::Add(..)
        | Instruction::Acquire(_)
        | Instruction::Barrier
        | Instruction::Await(_) => 2,
        Instruction::Cut => 0,
        _ => 1,
    }
}

/// The number of the line `p P` of this processor. The line `cluster` is the first, and each section before has a line more than
/// instructions.
fn section_line(script: &Script, processor: usize) -> usize {
    let mut line: usize = 2;
    for section in script.sections.iter().take(processor) {
        line = line.saturating_add(section.len()).saturating_add(1);
    }
    line
}

/// The place of the instruction that makes the step at this place of the section's.
fn instruction_of_step(section: &[Instruction], place: usize) -> Option<usize> {
    let mut left = place;
    for (number, instruction) in section.iter().enumerate() {
        let steps = steps_of_instruction(*instruction);
        if left < steps {
            return Some(number);
        }
        left -= steps;
    }
    None
}

/// The line at which the processor makes the step at this place of its steps. There is none for the closing barrier and the loads
/// after it.
pub fn script_step_line(script: &Script, processor: usize, place: usize) -> Option<ScriptStepLine> {
    let section = script.sections.get(processor)?;
    let number = instruction_of_step(section, place)?;
    let instruction = section.get(number)?;
    Some(ScriptStepLine {
        line: section_line(script, processor)
            .saturating_add(number)
            .saturating_add(1),
        instruction: *instruction,
    })
}
