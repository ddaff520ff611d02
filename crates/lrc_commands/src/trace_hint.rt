//! What standard error gets of a trace's fault: the line, its text with a caret under the word, and what may stand there. All
//! but the fault itself are guesses for a reader.

use crate::refused_line::RefusedLine;
use lrc_check::traces::fault::TraceFault;
use lrc_check::traces::trace::TraceSizes;
use lrc_script::line::number as read_number;
use std::alloc::{AllocError, Global};

/// The most bytes of a line that are shown.
const MOST_SHOWN: usize = 72;

/// Of a line in which the word begins so far behind the first byte, or farther, not all that stands before the word is shown.
const FAR: usize = 60;

/// How many bytes before such a word are shown.
const BEFORE: usize = 40;

/// What the first line has to be.
const HEAD: &str = "expected cluster PROCESSORS PAGES WORDS LOCKS [FLAGS]";

/// The first words of a script's lines that a trace has not.
const OF_SCRIPTS: [&str; 12] = [
    "p", "load", "store", "add", "acquire", "release", "barrier", "set", "await", "cut", "show",
    "flush",
];

/// The words of a line, and at which byte each begins.
#[derive(Drop)]
struct LineWords<'a> {
    line: &'a [u8],
    at: usize,
}

impl<'a> LineWords<'a> {
    /// The next word, with the byte where it begins; None at the line's end.
    fn next_word(&mut self) -> Option<(usize, &'a [u8])> {
        let rest = self.line.get(self.at..)?;
        let at = self.at;
        let length = rest
            .iter()
            .position(|byte| *byte == b' ')
            .unwrap_or(rest.len());
        self.at = at.saturating_add(length).saturating_add(1);
        let word = rest.get(..length)?;
        Some((at, word))
    }
}

/// The word of this number, counted from 0, and the byte where it begins; the line's end if there are fewer.
fn word_at(line: &[u8], number: usize) -> (usize, &[u8]) {
    let mut words = LineWords { line, at: 0 };
    for _ in 0..number {
        if words.next_word().is_none() {
            return (line.len(), b"");
        }
    }
    words.next_word().unwrap_or((line.len(), b""))
}

/// The number of the first word, from this one on, that stands in a number's place and isn't one.
fn first_bad_number(line: &[u8], first: usize, name: usize) -> usize {
    for number in first..first.saturating_add(8) {
        if number != name && read_number(word_at(line, number).1).is_none() {
            return number;
        }
    }
    first
}

/// Whether two spaces in a row, or one at its end, separate the line's words.
fn is_badly_separated(line: &[u8]) -> bool {
    line.first() == Some(&b' ') || line.last() == Some(&b' ')
}

/// Whether the line begins as one of a script's behind the first does.
fn is_of_script(line: &[u8]) -> bool {
    let word = word_at(line, 0).1;
    OF_SCRIPTS.iter().any(|name| name.as_bytes() == word)
}

/// Whether the line is one of a report that isn't an event's.
fn is_of_report(line: &[u8]) -> bool {
    let word = word_at(line, 0).1;
    word == b"word".as_slice() || word == b"verdict".as_slice() || word == b"traffic".as_slice()
}

/// What an event's line has behind this name; None if no event has the name.
fn form_of(name: &[u8]) -> Option<&'static str> {
    match str::from_utf8(name) {
        Ok("load") => Some("load ADDRESS WORD"),
        Ok("store") => Some("store ADDRESS WORD"),
        Ok("fetch") => Some("fetch PAGE WRITERS RECORDS WORDS"),
        Ok("ask") => Some("ask LOCK"),
        Ok("acquire") => Some("acquire LOCK"),
        Ok("release") => Some("release LOCK"),
        Ok("set") => Some("set FLAG"),
        Ok("watch") => Some("watch FLAG"),
        Ok("await") => Some("await FLAG"),
        Ok("arrive") => Some("arrive"),
        Ok("depart") => Some("depart"),
        _ => None,
    }
}

/// What is said of a line that isn't understood.
fn advice_on_form(alloc: Global, line: &[u8], number: usize) -> Result<String, AllocError> {
    if number == 1 {
        return String::from_str(alloc, HEAD);
    }
    if is_of_script(line) {
        return String::from_str(
            alloc,
            "this is a script, and no trace: lrc run, step, explain, sample and explore take it",
        );
    }
    if is_of_report(line) {
        return String::from_str(
            alloc,
            "this is a report: the script's first line and the lines `event ..` of a run with --journal are a trace",
        );
    }
    if is_badly_separated(line) {
        return String::from_str(
            alloc,
            "one space stands between two words, and none at the end",
        );
    }
    match form_of(word_at(line, 3).1) {
        Some(form) => format!(in alloc; "expected event NUMBER PROCESSOR {form}"),
        None => String::from_str(
            alloc,
            "expected event NUMBER PROCESSOR, and load, store, fetch, ask, acquire, release, arrive, depart, set, watch or await",
        ),
    }
}

/// What is said of a number that has to be below `count`.
fn advice_on_range(alloc: Global, what: &str, count: usize) -> Result<String, AllocError> {
    if count == 0 {
        return format!(in alloc; "the first line has no {what}s");
    }
    let last = count - 1;
    format!(in alloc; "expected a {what} from 0 to {last}, by the first line")
}

/// What is said of an address or a page.
fn advice_on_place(alloc: Global, line: &[u8], sizes: TraceSizes) -> Result<String, AllocError> {
    if word_at(line, 3).1 == b"fetch".as_slice() {
        advice_on_range(alloc, "page", sizes.pages)
    } else {
        let last = sizes.pages.saturating_mul(sizes.words).saturating_sub(1);
        format!(in alloc; "expected an address from 0 to {last}, by the first line")
    }
}

/// What is said of a fault that goes by the trace's sizes.
fn advice_by_sizes(
    alloc: Global,
    line: &[u8],
    fault: TraceFault,
    sizes: TraceSizes,
) -> Result<String, AllocError> {
    match fault {
        TraceFault::BadProcessor => advice_on_range(alloc, "processor", sizes.processors),
        TraceFault::OutOfRange => advice_on_place(alloc, line, sizes),
        TraceFault::BadLock => advice_on_range(alloc, "lock", sizes.locks),
        TraceFault::BadFlag => advice_on_range(alloc, "flag", sizes.flags),
        _ => String::from_str(alloc, "at most 2147483647 events"),
    }
}

/// What may stand there, or the likely cause.
fn trace_advice(
    alloc: Global,
    told: usize,
    fault: TraceFault,
    refused: &RefusedLine,
) -> Result<String, AllocError> {
    match (fault, refused.sizes()) {
        (TraceFault::Truncated, None) => String::from_str(alloc, HEAD),
        (TraceFault::Truncated, Some(_)) => String::from_str(
            alloc,
            "the trace ends in the midst of this line: with --unfinished what stands before it is judged",
        ),
        (TraceFault::Cut, _) => String::from_str(
            alloc,
            "the run let go of its first events: no trace without them",
        ),
        (TraceFault::BadLine, _) => advice_on_form(alloc, refused.bytes(), told),
        (TraceFault::BadNumber, _) => String::from_str(
            alloc,
            "expected a number from 0 to 4294967295",
        ),
        (TraceFault::BadSize, _) => String::from_str(
            alloc,
            "a trace has 1 to 256 processors, 1 to 1048576 addresses (pages times words), 65536 locks and flags at most;\n  without flags their number is left out",
        ),
        (TraceFault::BadPlace, _) => {
            let place = told.saturating_sub(2);
            format!(in alloc;
                "expected event {place}: events are numbered from 0, each by how many stand before it"
            )
        }
        (_, Some(sizes)) => advice_by_sizes(alloc, refused.bytes(), fault, sizes),
        (_, None) => Ok(String::new(alloc)),
    }
}

/// The number of the word that the fault is of, counted from 0.
fn faulty_word(line: &[u8], number: usize, fault: TraceFault) -> usize {
    match fault {
        TraceFault::BadLine if number > 1 && word_at(line, 0).1 == b"event".as_slice() => 3,
        TraceFault::BadNumber if number == 1 => first_bad_number(line, 1, 0),
        TraceFault::BadNumber => first_bad_number(line, 1, 3),
        TraceFault::BadSize | TraceFault::BadPlace => 1,
        TraceFault::BadProcessor => 2,
        TraceFault::OutOfRange | TraceFault::BadLock | TraceFault::BadFlag => 4,
        _ => 0,
    }
}

/// At which byte of the line the caret stands.
fn caret_at(line: &[u8], number: usize, fault: TraceFault) -> usize {
    match fault {
        TraceFault::Truncated => line.len(),
        _ => word_at(line, faulty_word(line, number, fault)).0,
    }
}

/// Adds what is shown of the bytes: the first ones, those that aren't ASCII signs as question marks.
fn put_shown(text: &mut String, bytes: &[u8]) -> Result<(), AllocError> {
    for byte in bytes.iter().take(MOST_SHOWN) {
        let sign = if b' ' <= *byte && *byte <= b'~' {
            char::from(*byte)
        } else {
            '?'
        };
        text.push(sign)?;
    }
    if bytes.len() > MOST_SHOWN {
        text.push_str("..")?;
    }
    text.push_str("\n")
}

/// Adds a caret behind so many spaces.
fn put_caret(text: &mut String, spaces: usize) -> Result<(), AllocError> {
    for _ in 0..spaces {
        text.push(' ')?;
    }
    text.push_str("^\n")
}

/// Adds the line, and below it a caret under its byte at this index. Of a line whose byte is far behind the first one, not all
/// that stands before it is shown.
fn put_excerpt(text: &mut String, line: &[u8], at: usize) -> Result<(), AllocError> {
    if line.is_empty() {
        return Ok(());
    }
    if at < FAR {
        text.push_str("  ")?;
        put_shown(text, line)?;
        return put_caret(text, at + 2);
    }
    text.push_str("  ..")?;
    put_shown(text, line.get(at - BEFORE..).unwrap_or(b""))?;
    put_caret(text, BEFORE + 4)
}

/// The file's name, as Rust writes a string, or standard input.
fn source_name(alloc: Global, file: Option<&str>) -> Result<String, AllocError> {
    match file {
        Some(file) => format!(in alloc; "{file:?}"),
        None => String::from_str(alloc, "standard input"),
    }
}

/// What standard error gets of this fault of a trace in the line that is this one, counted from 1, among those that aren't passed
/// over: the fault and the line's number, where it stands, its text with a caret, and what may stand there. The only error is
/// running out of memory.
pub(crate) fn trace_fault_lines(
    alloc: Global,
    file: Option<&str>,
    told: usize,
    fault: TraceFault,
    refused: &RefusedLine,
) -> Result<String, AllocError> {
    let number = refused.number(told);
    let line = refused.bytes();
    let at = caret_at(line, told, fault);
    let column = at.saturating_add(1);
    let name = source_name(alloc, file)?;
    let advice = trace_advice(alloc, told, fault, refused)?;
    let mut text = format!(in alloc; "lrc: line {number}: {fault}\n  {name}:{number}:{column}\n")?;
    put_excerpt(&mut text, line, at)?;
    if !advice.is_empty() {
        let said = format!(in alloc; "  {advice}\n")?;
        text.push_str(&said)?;
    }
    Ok(text)
}
