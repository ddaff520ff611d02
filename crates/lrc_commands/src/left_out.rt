//! The texts by which races of a program's trace are left out.

use crate::checking::{PIECE, check_command_reads_some, room};
use lrc_program::fault::ProgramFault;
use lrc_script::line::split_line;
use std::alloc::{AllocError, Global};
use std::io::Read;

/// All that the source has.
fn left_out_text<S: Read>(alloc: Global, source: &mut S) -> Result<Vec<u8>, ProgramFault> {
    let mut piece = room(alloc, PIECE)?;
    let mut text = Vec::new(alloc);
    for _ in 0..u64::MAX {
        let count = check_command_reads_some(source, &mut piece)?;
        if count == 0 {
            return Ok(text);
        }
        text.extend_from_slice(&piece[..count])?;
    }
    Ok(text)
}

/// Adds the line, unless it is empty or begins with `#`. The only error is running out of memory.
fn add_left_out_line(
    alloc: Global,
    lines: &mut Vec<Vec<u8>>,
    line: &[u8],
) -> Result<(), AllocError> {
    if line.is_empty() || line.starts_with(b"#") {
        return Ok(());
    }
    let mut text = Vec::with_capacity(alloc, line.len())?;
    text.extend_from_slice(line)?;
    lines.push(text)?;
    Ok(())
}

/// The lines of the text, but for empty ones and those that begin with `#`. The only error is running out of memory.
fn left_out_lines(alloc: Global, text: &[u8]) -> Result<Vec<Vec<u8>>, AllocError> {
    let mut lines = Vec::new(alloc);
    let mut rest = text;
    for _ in 0..text.len() {
        let Some((line, behind)) = split_line(rest) else {
            break;
        };
        add_left_out_line(alloc, &mut lines, line)?;
        rest = behind;
    }
    add_left_out_line(alloc, &mut lines, rest)?;
    Ok(lines)
}

/// The texts that the source has: each of its lines, but for empty ones and those that begin with `#`.
///
/// # Errors
///
/// `Unreadable` if the source can't be read, `NoMemory` if a growth was refused.
pub fn read_left_out<S: Read>(alloc: Global, source: &mut S) -> Result<Vec<Vec<u8>>, ProgramFault> {
    let text = left_out_text(alloc, source)?;
    let lines = left_out_lines(alloc, &text)?;
    Ok(lines)
}
