//! The forms of a script's lines.

use lrc_script::script::MOST_SHOWN;
use std::alloc::{AllocError, Global};
use strsim::generic_levenshtein;

/// The longest word that is compared with the known ones.
const MOST_LETTERS: usize = 12;

/// The form of a line: its first word, how many numbers stand behind that, at least and at most, and how it is written.
#[derive(Clone, Copy)]
pub(crate) struct Form {
    pub(crate) word: &'static str,
    pub(crate) least: usize,
    pub(crate) most: usize,
    pub(crate) written: &'static str,
}

/// A form whose line has so many numbers.
macro_rules! form {
    ($word:literal, $least:expr, $most:expr, $written:literal) => {
        Form {
            word: $word,
            least: $least,
            most: $most,
            written: $written,
        }
    };
}

/// The forms of all lines.
const FORMS: [Form; 12] = [
    form!(
        "cluster",
        4,
        5,
        "cluster PROCESSORS PAGES WORDS LOCKS [FLAGS]"
    ),
    form!("p", 1, 1, "p SECTION"),
    form!("load", 1, 1, "load ADDRESS"),
    form!("store", 2, 2, "store ADDRESS VALUE"),
    form!("add", 2, 2, "add ADDRESS VALUE"),
    form!("acquire", 1, 1, "acquire LOCK"),
    form!("release", 1, 1, "release LOCK"),
    form!("barrier", 0, 0, "barrier"),
    form!("set", 1, 1, "set FLAG"),
    form!("await", 1, 1, "await FLAG"),
    form!("cut", 0, 0, "cut"),
    form!("show", 1, MOST_SHOWN, "show ADDRESS .."),
];

/// The form of lines that begin with this word.
pub(crate) fn form_of(word: &[u8]) -> Option<Form> {
    FORMS
        .iter()
        .find(|form| form.word.as_bytes() == word)
        .copied()
}

/// How many letters have to be changed, added or left out to make the one word of the other; in capitals it is the same.
fn form_edits(alloc: Global, word: &[u8], known: &str) -> Result<usize, AllocError> {
    if word.eq_ignore_ascii_case(known.as_bytes()) {
        return Ok(0);
    }
    generic_levenshtein(alloc, word, known.as_bytes())
}

/// The known word that is likely meant: the nearest, if a third of its letters are to be edited at most.
pub(crate) fn form_meant(alloc: Global, word: &[u8]) -> Result<Option<&'static str>, AllocError> {
    if word.len() > MOST_LETTERS {
        return Ok(None);
    }
    let (mut nearest, mut fewest) = (None, MOST_LETTERS);
    for form in FORMS {
        let edits = form_edits(alloc, word, form.word)?;
        if edits < fewest && edits <= form.word.len() / 3 {
            nearest = Some(form.word);
            fewest = edits;
        }
    }
    Ok(nearest)
}
