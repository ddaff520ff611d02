//! What is said of a faulty line: what may stand there, and the likely cause.

use crate::hints::amiss::{
    Amiss, amiss_in, amiss_not_a_number, amiss_not_a_size, amiss_number_not_below, amiss_word_at,
    is_event_line, place_of_amiss,
};
use crate::hints::excerpt::excerpt_line_at;
use crate::hints::forms::{Form, form_meant};
use base::{MOST_FLAGS, MOST_LOCKS, MOST_PAGES, MOST_PROCESSORS, MOST_WORDS};
use lrc_script::fault::ScriptFault;
use lrc_script::line::split_script_line_at;
use lrc_script::script::{MOST_INSTRUCTIONS, MOST_SHOWN, read_script_sizes};
use std::alloc::{AllocError, Global};

/// A line of a script that has a fault.
#[derive(Clone, Copy)]
pub(crate) struct FaultyLine<'a> {
    /// The script's bytes, and the line's, which has this number, counted from 1.
    pub(crate) script: &'a [u8],
    pub(crate) line: &'a [u8],
    pub(crate) number: usize,
    pub(crate) fault: ScriptFault,
}

/// How many of each a script has; none of each if its sizes can't be read.
#[derive(Clone, Copy)]
struct Bounds {
    processors: usize,
    addresses: usize,
    locks: usize,
    flags: usize,
}

/// Those that the script's first line gives.
fn advice_bounds_of(alloc: Global, script: &[u8]) -> Bounds {
    match read_script_sizes(alloc, excerpt_line_at(script, 1)) {
        Ok(sizes) => Bounds {
            processors: sizes.processors,
            addresses: sizes.pages.saturating_mul(sizes.words),
            locks: sizes.locks,
            flags: sizes.flags,
        },
        Err(_) => Bounds {
            processors: 0,
            addresses: 0,
            locks: 0,
            flags: 0,
        },
    }
}

/// How many sections begin before the line.
fn advice_sections_before(at: FaultyLine<'_>) -> usize {
    at.script
        .split(|byte| *byte == b'\n')
        .take(at.number.saturating_sub(1))
        .filter(|line| line.starts_with(b"p "))
        .count()
}

/// Adds which line is due there.
fn put_due_advice(text: &mut String, at: FaultyLine<'_>, bounds: Bounds) -> Result<(), AllocError> {
    if at.number == 1 {
        return text.push_str("  expected cluster PROCESSORS PAGES WORDS LOCKS [FLAGS]\n");
    }
    if at.number == 2 {
        return text.push_str("  expected p 0\n");
    }
    if excerpt_line_at(at.script, at.number.saturating_sub(1)).starts_with(b"show ") {
        return text.push_str("  expected no line behind show\n");
    }
    let section = advice_sections_before(at);
    if section < bounds.processors {
        write!(text, "  expected an instruction, or p {section}\n")
    } else {
        text.push_str("  expected an instruction, or show ADDRESS ..\n")
    }
}

/// Adds that one of so many is expected.
fn put_bound_advice(text: &mut String, what: &str, count: usize) -> Result<(), AllocError> {
    if count == 0 {
        return text.push_str("  the script has none\n");
    }
    let last = count - 1;
    write!(text, "  expected {what} from 0 to {last}\n")
}

/// Adds that one of the known words is meant, if one is near.
fn put_meant_advice(alloc: Global, text: &mut String, line: &[u8]) -> Result<(), AllocError> {
    let (word, _) = split_script_line_at(line, b' ');
    match form_meant(alloc, word)? {
        Some(known) => write!(text, "  is {known} meant?\n"),
        None => Ok(()),
    }
}

/// What is likely the cause that a line isn't understood, or has a word that is no number.
fn advice_cause_of(amiss: Amiss) -> &'static str {
    match amiss {
        Amiss::Mark => "  the file begins with a byte order mark\n",
        Amiss::Blank => "  scripts have no blank lines\n",
        Amiss::Comment(_) => "  scripts have no comments\n",
        Amiss::Return => "  the line ends with CR LF: lines end with LF alone\n",
        Amiss::Tab(_) => "  a tab stands there: one space stands between two words\n",
        Amiss::Indented => "  lines aren't indented\n",
        Amiss::Spaces(_) => "  one space stands between two words, and none at the end\n",
        Amiss::Unknown | Amiss::Count(_) | Amiss::Event | Amiss::Misplaced => "",
    }
}

/// Whether a line of this form may stand there: the first one alone is `cluster`, and `show` comes after all sections.
fn is_form_due(form: Form, at: FaultyLine<'_>, bounds: Bounds) -> bool {
    let sections = advice_sections_before(at);
    match form.word {
        "cluster" => at.number == 1,
        "p" => at.number > 1 && sections < bounds.processors,
        "show" => at.number > 1 && sections >= bounds.processors,
        _ => at.number > 2,
    }
}

/// What is amiss in the line: one whose form isn't due there is misplaced, however many words it has.
fn amiss_at(at: FaultyLine<'_>, bounds: Bounds) -> Amiss {
    match amiss_in(at.line) {
        Amiss::Count(form) if !is_form_due(form, at, bounds) => Amiss::Misplaced,
        amiss => amiss,
    }
}

/// Whether the text is a trace: its second line is an event's.
fn is_trace(script: &[u8]) -> bool {
    is_event_line(excerpt_line_at(script, 2))
}

/// Adds that the text is a trace, if it is one: whether it is.
fn put_trace_advice(text: &mut String, at: FaultyLine<'_>) -> Result<bool, AllocError> {
    if !is_trace(at.script) {
        return Ok(false);
    }
    text.push_str(
        "  this is a trace: lrc check FILE judges it, and lrc explain --trace FILE tells it\n",
    )?;
    Ok(true)
}

/// Adds what is said of a line that isn't understood.
fn put_line_advice(
    alloc: Global,
    text: &mut String,
    at: FaultyLine<'_>,
    bounds: Bounds,
) -> Result<(), AllocError> {
    if put_trace_advice(text, at)? {
        return Ok(());
    }
    let amiss = amiss_at(at, bounds);
    match amiss {
        Amiss::Count(form) => {
            let written = form.written;
            write!(text, "  expected {written}\n")
        }
        Amiss::Misplaced => put_due_advice(text, at, bounds),
        Amiss::Event | Amiss::Unknown => {
            put_due_advice(text, at, bounds)?;
            put_meant_advice(alloc, text, at.line)
        }
        _ => text.push_str(advice_cause_of(amiss)),
    }
}

/// Whether the word is of digits alone.
fn is_of_digits(word: &[u8]) -> bool {
    !word.is_empty() && word.iter().all(|byte| byte.is_ascii_digit())
}

/// Adds what is said of a word that is no number.
fn put_number_advice(text: &mut String, at: FaultyLine<'_>) -> Result<(), AllocError> {
    text.push_str("  expected a number from 0 to 4294967295\n")?;
    if at.line.ends_with(b"\r") {
        return text.push_str(advice_cause_of(Amiss::Return));
    }
    let place = amiss_not_a_number(at.line).min(at.line.len());
    let (word, _) = split_script_line_at(&at.line[place..], b' ');
    if word.starts_with(b"0") && is_of_digits(word) {
        return text.push_str("  numbers have no leading zeros\n");
    }
    Ok(())
}

/// Adds what is said of a text that ends too early.
fn put_end_advice(text: &mut String, at: FaultyLine<'_>, bounds: Bounds) -> Result<(), AllocError> {
    if at.line.is_empty() {
        return put_due_advice(text, at, bounds);
    }
    text.push_str("  expected a line feed at the end of the line\n")
}

/// Adds what is said of too many instructions or addresses.
fn put_count_advice(text: &mut String, at: FaultyLine<'_>) -> Result<(), AllocError> {
    if at.line.starts_with(b"show ") {
        write!(text, "  expected {MOST_SHOWN} addresses at most\n")
    } else {
        write!(
            text,
            "  expected {MOST_INSTRUCTIONS} instructions at most\n"
        )
    }
}

/// Adds what is said of sizes that are out of range. A trace may have greater ones.
fn put_size_advice(text: &mut String, at: FaultyLine<'_>) -> Result<(), AllocError> {
    if put_trace_advice(text, at)? {
        return Ok(());
    }
    write!(
        text,
        "  expected 1 to {MOST_PROCESSORS} processors, 1 to {MOST_PAGES} pages, 1 to {MOST_WORDS} words, 0 to {MOST_LOCKS} locks, 1 to {MOST_FLAGS} flags\n"
    )
}

/// Adds what may stand there, and the likely cause.
fn put_advice(alloc: Global, text: &mut String, at: FaultyLine<'_>) -> Result<(), AllocError> {
    let bounds = advice_bounds_of(alloc, at.script);
    match at.fault {
        ScriptFault::Truncated => put_end_advice(text, at, bounds),
        ScriptFault::BadLine => put_line_advice(alloc, text, at, bounds),
        ScriptFault::BadNumber => put_number_advice(text, at),
        ScriptFault::BadSize => put_size_advice(text, at),
        ScriptFault::OutOfRange => put_bound_advice(text, "an address", bounds.addresses),
        ScriptFault::BadLock => put_bound_advice(text, "a lock", bounds.locks),
        ScriptFault::BadFlag => put_bound_advice(text, "a flag", bounds.flags),
        ScriptFault::AlreadyHeld => text.push_str(
            "  expected a lock that the section doesn't hold\n",
        ),
        ScriptFault::NotHeld => text.push_str("  expected a lock that the section holds\n"),
        ScriptFault::TooLong => put_count_advice(text, at),
        ScriptFault::Uneven => text.push_str(
            "  expected a section with as many barriers as section 0\n",
        ),
        ScriptFault::NoMemory => Ok(()),
    }
}

/// What may stand there, and the likely cause, each in a line that begins with two spaces.
pub(crate) fn hint_advice(alloc: Global, at: FaultyLine<'_>) -> Result<String, AllocError> {
    let mut text = String::new(alloc);
    put_advice(alloc, &mut text, at)?;
    Ok(text)
}

/// Behind how many bytes of the line the faulty word begins.
pub(crate) fn advice_on_faulty_word(alloc: Global, at: FaultyLine<'_>) -> usize {
    match at.fault {
        ScriptFault::Truncated => at.line.len(),
        ScriptFault::BadLine => place_of_amiss(
            amiss_at(at, advice_bounds_of(alloc, at.script)),
            at.line,
        ),
        ScriptFault::BadNumber => amiss_not_a_number(at.line),
        ScriptFault::BadSize => amiss_not_a_size(at.line),
        ScriptFault::OutOfRange => amiss_number_not_below(
            at.line,
            advice_bounds_of(alloc, at.script).addresses,
        ),
        ScriptFault::BadLock
        | ScriptFault::BadFlag
        | ScriptFault::AlreadyHeld
        | ScriptFault::NotHeld
        | ScriptFault::Uneven => amiss_word_at(at.line, 1),
        ScriptFault::TooLong if at.line.starts_with(b"show ") => amiss_word_at(
            at.line,
            MOST_SHOWN + 1,
        ),
        ScriptFault::TooLong | ScriptFault::NoMemory => 0,
    }
}
