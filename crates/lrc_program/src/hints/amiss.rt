//! Which word of a line is at fault.

use crate::hints::forms::{Form, form_of};
use base::{MOST_FLAGS, MOST_LOCKS, MOST_PAGES, MOST_PROCESSORS, MOST_WORDS};
use lrc_script::line::{number, number_count, split_script_line_at};

/// What is amiss in a line that isn't understood.
#[derive(Clone, Copy)]
pub(crate) enum Amiss {
    /// It begins with a byte order mark.
    Mark,
    /// It has no byte.
    Blank,
    /// It is an event's, as traces have them.
    Event,
    /// A comment begins with this word, counted from 0.
    Comment(usize),
    /// It ends with a carriage return.
    Return,
    /// It has a tab behind so many bytes.
    Tab(usize),
    /// It begins with a space.
    Indented,
    /// This word, counted from 0, has no byte: two spaces stand there, or one at the end.
    Spaces(usize),
    /// No line begins with its first word.
    Unknown,
    /// A line of this form has another number of words.
    Count(Form),
    /// No such line is due there, or its section isn't.
    Misplaced,
}

/// Whether the word begins a comment, as other languages write them.
fn is_amiss_comment(word: &[u8]) -> bool {
    word.starts_with(b"#") || word.starts_with(b"//") || word.starts_with(b";")
}

/// The first word that begins a comment.
fn amiss_comment(line: &[u8]) -> Option<usize> {
    line.split(|byte| *byte == b' ')
        .position(|word| is_amiss_comment(word))
}

/// The first word that has no byte.
fn amiss_empty_word(line: &[u8]) -> Option<usize> {
    line.split(|byte| *byte == b' ')
        .position(|word| word.is_empty())
}

/// What is amiss with the words of a line.
fn amiss_of_words(line: &[u8]) -> Amiss {
    let (word, words) = split_script_line_at(line, b' ');
    let Some(form) = form_of(word) else {
        return Amiss::Unknown;
    };
    let count = number_count(words);
    if form.least <= count && count <= form.most {
        Amiss::Misplaced
    } else {
        Amiss::Count(form)
    }
}

/// What is amiss with how the words of a line are set apart, if something is.
fn amiss_of_spaces(line: &[u8]) -> Option<Amiss> {
    if line.ends_with(b"\r") {
        return Some(Amiss::Return);
    }
    if let Some(at) = line.iter().position(|byte| *byte == b'\t') {
        return Some(Amiss::Tab(at));
    }
    if line.starts_with(b" ") {
        return Some(Amiss::Indented);
    }
    match amiss_empty_word(line) {
        Some(word) => Some(Amiss::Spaces(word)),
        None => None,
    }
}

/// Whether the line is an event's, as traces have them.
pub(crate) fn is_event_line(line: &[u8]) -> bool {
    line.starts_with(b"event ")
}

/// What is amiss in a line that isn't understood.
pub(crate) fn amiss_in(line: &[u8]) -> Amiss {
    if line.is_empty() {
        return Amiss::Blank;
    }
    if line.starts_with(b"\xef\xbb\xbf") {
        return Amiss::Mark;
    }
    if is_event_line(line) {
        return Amiss::Event;
    }
    if let Some(word) = amiss_comment(line) {
        return Amiss::Comment(word);
    }
    match amiss_of_spaces(line) {
        Some(amiss) => amiss,
        None => amiss_of_words(line),
    }
}

/// Behind how many bytes this word begins, counted from 0; the line's length if it has fewer.
pub(crate) fn amiss_word_at(line: &[u8], word: usize) -> usize {
    let mut rest = line;
    for _ in 0..word {
        match split_script_line_at(rest, b' ').1 {
            Some(after) => rest = after,
            None => return line.len(),
        }
    }
    line.len().saturating_sub(rest.len())
}

/// Where a line that isn't understood is at fault: behind how many bytes.
pub(crate) fn place_of_amiss(amiss: Amiss, line: &[u8]) -> usize {
    match amiss {
        Amiss::Mark | Amiss::Blank | Amiss::Event | Amiss::Indented | Amiss::Unknown => 0,
        Amiss::Comment(word) | Amiss::Spaces(word) => amiss_word_at(line, word),
        Amiss::Return => line.len().saturating_sub(1),
        Amiss::Tab(at) => at,
        Amiss::Count(form) => amiss_word_at(line, form.most.saturating_add(1)),
        Amiss::Misplaced => amiss_word_at(line, if line.starts_with(b"p ") { 1 } else { 0 }),
    }
}

/// Where the first word behind the first one is no number.
pub(crate) fn amiss_not_a_number(line: &[u8]) -> usize {
    match line
        .split(|byte| *byte == b' ')
        .skip(1)
        .position(|word| number(word).is_none())
    {
        Some(place) => amiss_word_at(line, place.saturating_add(1)),
        None => 0,
    }
}

/// Where the first number stands that is so great or greater.
pub(crate) fn amiss_number_not_below(line: &[u8], count: usize) -> usize {
    let place = line.split(|byte| *byte == b' ').position(|word| number(word).is_some_and(
        |number| number as usize >= count,
    ));
    match place {
        Some(place) => amiss_word_at(line, place),
        None => 0,
    }
}

/// The least and the most of each size of the `cluster` line.
const SIZES: [(usize, usize); 5] = [
    (1, MOST_PROCESSORS),
    (1, MOST_PAGES),
    (1, MOST_WORDS),
    (0, MOST_LOCKS),
    (1, MOST_FLAGS),
];

/// Whether the word is a size of these bounds.
fn is_size(word: &[u8], least: usize, most: usize) -> bool {
    match number(word) {
        Some(size) => least <= size as usize && size as usize <= most,
        None => false,
    }
}

/// Where the first size stands that is out of range.
pub(crate) fn amiss_not_a_size(line: &[u8]) -> usize {
    let place = line
        .split(|byte| *byte == b' ')
        .skip(1)
        .zip(SIZES)
        .position(|(word, (least, most))| !is_size(word, least, most));
    match place {
        Some(place) => amiss_word_at(line, place.saturating_add(1)),
        None => 0,
    }
}
