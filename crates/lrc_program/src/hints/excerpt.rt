//! A line of a script, with a caret under a word.
ghost use Rattle.std.specs.Prelude.{◌≡◌, ◌≤◌, ◌++◌, OnOk, length, map, replicate, string_bytes};
ghost use Rattle.lrc_script.specs.Prelude.{script_line_space};
ghost use Rattle.lrc_program.specs.Hints.Prelude.{excerpt_caret_text, excerpt_text, excerpt_line_at, excerpt_rest_text, excerpt_shown_text, excerpt_sign_of};

use lrc_script::line::split_script_line_at;
use std::alloc::AllocError;

/// The most bytes of a line that are shown.
const MOST_SIGNS: usize = 72;

/// Of a line in which the word begins so far behind the first byte, or farther, not all that stands before the word is shown.
const FAR: usize = 60;

/// How many bytes before such a word are shown.
const BEFORE: usize = 40;

/// The line of this number, counted from 1, without its line feed; empty if there is none.
pub(crate) fn excerpt_line_at(text: &[u8], number: usize) -> &[u8]
    ensures { result.now ≡ excerpt_line_at text.now number }
{
    let before = number.saturating_sub(1);
    let mut rest = text;
    for _ in 0..before {
        match split_script_line_at(rest, b'\n').1 {
            Some(after) => rest = after,
            None => return &[],
        }
    }
    split_script_line_at(rest, b'\n').0
}

/// How a byte is shown: an ASCII sign as itself, any other byte as a question mark.
fn excerpt_sign_of(byte: u8) -> char
    ensures { result ≡ excerpt_sign_of byte }
{
    if b' ' <= byte && byte <= b'~' {
        char::from(byte)
    } else {
        '?'
    }
}

/// Adds the bytes as they are shown.
fn put_excerpt_signs(text: &mut String, bytes: &[u8]) -> Result<(), AllocError>
    ensures { OnOk result (string_bytes text.new ≡ string_bytes text.old ++ map excerpt_sign_of bytes.now) }
{
    for byte in bytes {
        text.push(excerpt_sign_of(*byte))?;
    }
    Ok(())
}

/// Adds so many spaces.
fn put_excerpt_spaces(text: &mut String, count: usize) -> Result<(), AllocError>
    ensures { OnOk result (string_bytes text.new ≡ string_bytes text.old ++ replicate count script_line_space) }
{
    for _ in 0..count {
        text.push(' ')?;
    }
    Ok(())
}

/// Adds the first bytes of what is left of a line, and dots if there are more.
fn put_excerpt_rest(text: &mut String, rest: &[u8]) -> Result<(), AllocError>
    ensures { OnOk result (string_bytes text.new ≡ string_bytes text.old ++ excerpt_rest_text rest.now) }
{
    if rest.len() <= MOST_SIGNS {
        put_excerpt_signs(text, rest)?;
        return text.push_str("\n");
    }
    let first = &rest[..MOST_SIGNS];
    put_excerpt_signs(text, first)?;
    text.push_str("..\n")
}

/// Adds what is shown of a line in which a word begins behind so many bytes, with dots where it is cut.
fn put_excerpt_shown(text: &mut String, line: &[u8], at: usize) -> Result<(), AllocError>
    requires { at ≤ length line.now }
    ensures { OnOk result (string_bytes text.new ≡ string_bytes text.old ++ excerpt_shown_text line.now at) }
{
    if at < FAR {
        text.push_str("  ")?;
        return put_excerpt_rest(text, line);
    }
    text.push_str("  ..")?;
    put_excerpt_rest(text, &line[at - BEFORE..])
}

/// Adds a caret under that word's first byte.
fn put_excerpt_caret(text: &mut String, at: usize) -> Result<(), AllocError>
    ensures { OnOk result (string_bytes text.new ≡ string_bytes text.old ++ excerpt_caret_text at) }
{
    put_excerpt_spaces(text, if at < FAR { at + 2 } else { BEFORE + 4 })?;
    text.push_str("^\n")
}

/// Adds a line, as far as it is shown, and below it a caret under the word that begins behind so many bytes. Of an empty line
/// nothing is shown.
pub(crate) fn put_excerpt(text: &mut String, line: &[u8], at: usize) -> Result<(), AllocError>
    requires { at ≤ length line.now }
    ensures { OnOk result (string_bytes text.new ≡ string_bytes text.old ++ excerpt_text line.now at) }
{
    match line {
        [] => Ok(()),
        [_, ..] => {
            put_excerpt_shown(text, line, at)?;
            put_excerpt_caret(text, at)
        }
    }
}
