//! The lines about a script's fault.
ghost use Rattle.std.specs.Prelude.{◌≡◌, ◌++◌, IfOk, OnOk, string_bytes};
ghost use Rattle.lrc_program.specs.Hints.Prelude.{IsHintExcerpt, excerpt_place_text};

use crate::hints::advice::{FaultyLine, advice_on_faulty_word, hint_advice};
use crate::hints::excerpt::{excerpt_line_at, put_excerpt};
use lrc_script::fault::ScriptFault;
use std::alloc::{AllocError, Global};

/// The script's file, as Rust writes a string, or standard input.
fn hint_source_name(alloc: Global, file: Option<&str>) -> Result<String, AllocError> {
    match file {
        Some(file) => format!(in alloc; "  {file:?}"),
        None => format!(in alloc; "  standard input"),
    }
}

/// Adds the number of a line, and of a byte in it, both counted from 1.
fn put_hint_place(text: &mut String, line: usize, byte: usize) -> Result<(), AllocError>
    ensures { OnOk result (string_bytes text.new ≡ string_bytes text.old ++ excerpt_place_text line byte) }
{
    write!(text, ":{line}:{byte}\n")
}

/// The lines about a fault that the reader of scripts found in this line, counted from 1: where it is, the line as it stands
/// with a caret under the word, what may stand there, and the likely cause. Each begins with two spaces. At most 72 bytes of
/// the line are shown, those that aren't ASCII signs as question marks. The only error is running out of memory.
pub fn hint(
    alloc: Global,
    file: Option<&str>,
    script: &[u8],
    number: usize,
    fault: ScriptFault,
) -> Result<String, AllocError>
    ensures { IfOk result (λ text. IsHintExcerpt script.now number (string_bytes text)) }
{
    let line = excerpt_line_at(script, number);
    let faulty = FaultyLine {
        script,
        line,
        number,
        fault,
    };
    let at = advice_on_faulty_word(alloc, faulty).min(line.len());
    let advice = hint_advice(alloc, faulty)?;
    let mut text = hint_source_name(alloc, file)?;
    put_hint_place(&mut text, number, at + 1)?;
    put_excerpt(&mut text, line, at)?;
    text.push_str(&advice)?;
    Ok(text)
}
