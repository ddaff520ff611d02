//! What is said of a trace that strays: lines after the first, each with two spaces in front.

use crate::next::Next;
use journal::Event;
use lrc_report::ReportLine;
use lrc_report::render::render_report_event;
use lrc_script::script::{Instruction, Script};
use std::alloc::{AllocError, Global};

/// The number of the script's line that has this instruction, counted from 1: before it are the line of the sizes, and for each
/// section its head and its instructions.
fn line_number(script: &Script, processor: usize, index: usize) -> usize {
    let mut line: usize = 3;
    for section in script.sections.iter().take(processor) {
        line = line.saturating_add(section.len()).saturating_add(1);
    }
    line.saturating_add(index)
}

/// The instruction at this index of the processor's section, if it is there.
fn instruction_at(script: &Script, processor: usize, index: usize) -> Option<Instruction> {
    let section = script.sections.get(processor)?;
    section.get(index).copied()
}

/// Adds these words.
fn push_words(text: &mut Vec<u8>, words: &str) -> Result<(), AllocError> {
    text.extend_from_slice(words.as_bytes())
}

/// Adds the line of the event at this place, as the trace has it.
pub(crate) fn push_event(
    text: &mut Vec<u8>,
    place: usize,
    events: &[Event],
) -> Result<(), AllocError> {
    if let Some(event) = events.get(place) {
        let mut line = ReportLine::new();
        render_report_event(&mut line, place as u64, event);
        push_words(text, "  ")?;
        text.extend_from_slice(line.bytes())?;
    }
    Ok(())
}

/// What the processor does next by its script: a line of the script, or what comes after its section.
fn told_next(
    alloc: Global,
    script: &Script,
    processor: usize,
    next: Next,
) -> Result<String, AllocError> {
    match next {
        Next::Instruction(index) => {
            let line = line_number(script, processor, index);
            match instruction_at(script, processor, index) {
                Some(instruction) => format!(in alloc; "line {line}: {instruction}"),
                None => format!(in alloc; "line {line}"),
            }
        }
        Next::Closing => String::from_str(alloc, "the closing barrier"),
        Next::Shown(index) => match script.shown.get(index) {
            Some(address) => format!(in alloc; "the shown address {address}"),
            None => String::from_str(alloc, "the shown addresses"),
        },
        Next::Nothing => String::from_str(alloc, "its end"),
    }
}

/// Adds the line that says what the processor does next by its script.
pub(crate) fn push_next(
    alloc: Global,
    text: &mut Vec<u8>,
    script: &Script,
    processor: usize,
    next: Next,
) -> Result<(), AllocError> {
    let told = told_next(alloc, script, processor, next)?;
    let line = format!(in alloc; "  p{processor} is at {told}\n")?;
    push_words(text, &line)
}
