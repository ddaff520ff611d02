//! One line of a script: a keyword, and numbers with one space before each.
ghost use Rattle.std.specs.Prelude.{◌≡◌, ℕ, ◌<◌, List, ◌∷◌, [], length, IfSome, IfNone, MatchOption};
ghost use Rattle.std.specs.List.{list_all};
ghost use Rattle.std.specs.Str.{bytes_eq};
ghost use Rattle.lrc_script.specs.Prelude.{HasNoLineFeed, LineReadGives, IsLineReadOff, parts_of_read_line, parts_behind_in_read_line, line_read_word_has_bytes, line_read_keyword, script_line_space};
ghost use Rattle.lrc_script.specs.Prelude.{line_read_digit_sum, line_read_number, line_read_few, line_read_numbers_after};
ghost use Rattle.lrc_script.specs.Prelude.{LineReadBeginsWithNumber, LineReadBeginsWithNoNumber, line_read_may_begin_number};

use crate::fault::ScriptFault;
use memchr::memchr;
use smallvec::SmallVec;
use std::alloc::Global;

/// The first word of a line.
#[derive(Clone, Copy)]
pub enum LineKeyword {
    Cluster,
    Section,
    Load,
    Store,
    Add,
    Acquire,
    Release,
    Barrier,
    Set,
    Await,
    Cut,
    Show,
}

/// Whether the word is written so.
fn is_keyword(word: &[u8], keyword: &str) -> bool
    ensures { result ≡ bytes_eq word.now keyword.now }
{
    word == keyword.as_bytes()
}

impl LineKeyword {
    /// The keyword that is written so.
    pub fn of(word: &[u8]) -> Option<LineKeyword>
        ensures { result ≡ line_read_keyword word.now }
    {
        if is_keyword(word, "cluster") {
            Some(LineKeyword::Cluster)
        } else if is_keyword(word, "p") {
            Some(LineKeyword::Section)
        } else if is_keyword(word, "load") {
            Some(LineKeyword::Load)
        } else if is_keyword(word, "store") {
            Some(LineKeyword::Store)
        } else if is_keyword(word, "add") {
            Some(LineKeyword::Add)
        } else if is_keyword(word, "acquire") {
            Some(LineKeyword::Acquire)
        } else if is_keyword(word, "release") {
            Some(LineKeyword::Release)
        } else if is_keyword(word, "barrier") {
            Some(LineKeyword::Barrier)
        } else if is_keyword(word, "set") {
            Some(LineKeyword::Set)
        } else if is_keyword(word, "await") {
            Some(LineKeyword::Await)
        } else if is_keyword(word, "cut") {
            Some(LineKeyword::Cut)
        } else if is_keyword(word, "show") {
            Some(LineKeyword::Show)
        } else {
            None
        }
    }
}

/// The numbers of a line. All lines but `show` have at most five.
pub type Numbers = SmallVec<u32, 5>;

/// What stands before the first such byte, and what stands after it.
pub fn split_script_line_at(bytes: &[u8], separator: u8) -> (&[u8], Option<&[u8]>)
    ensures parts { parts_of_read_line separator bytes.now ≡ result.0.now ∷ parts_behind_in_read_line separator result.1 }
    ensures shorter { IfSome result.1 (λ rest. length rest.now < length bytes.now) }
{
    match bytes.iter().position(|byte| *byte == separator) {
        Some(at) => (&bytes[..at], Some(&bytes[at + 1..])),
        None => (bytes, None),
    }
}

/// The first line without its line feed, and the bytes after it, if there is a line feed.
pub fn split_line(bytes: &[u8]) -> Option<(&[u8], &[u8])>
    ensures { MatchOption result (HasNoLineFeed bytes.now) (λ x. IsLineReadOff bytes.now x.0.now x.1.now) }
{
    let at = memchr(b'\n', bytes)?;
    Some((&bytes[..at], &bytes[at + 1..]))
}

/// Whether exactly one space separates the words, with none at the beginning or end.
pub fn is_script_line_separated(line: &[u8]) -> bool
    ensures { result ≡ list_all line_read_word_has_bytes (parts_of_read_line script_line_space line.now) }
{
    line.split(|byte| *byte == b' ')
        .all(|word| !word.is_empty())
}

/// How many words these are.
pub fn number_count(words: Option<&[u8]>) -> usize
    ensures { result ≡ length (parts_behind_in_read_line script_line_space words.entry) }
{
    match words {
        Some(line) => line.split(|byte| *byte == b' ').count(),
        None => 0,
    }
}

/// The number below 2^32 that digits write, summed as they come.
fn sum_of_digits(word: &[u8]) -> Option<u32>
    ensures { result ≡ line_read_digit_sum word.now }
{
    let mut sum: u32 = 0;
    for byte in word {
        if !byte.is_ascii_digit() {
            return None;
        }
        sum = sum.checked_mul(10)?.checked_add(u32::from(*byte - b'0'))?;
    }
    Some(sum)
}

/// The number that is written so: in decimal, with no leading zero, below 2^32.
pub fn number(word: &[u8]) -> Option<u32>
    ensures { result ≡ line_read_number word.now }
{
    match word {
        [] => None,
        [b'0', _, ..] => None,
        _ => sum_of_digits(word),
    }
}

/// Whether a number may begin here: there is a word, and no zero at its front.
fn may_begin_number(line: &[u8]) -> bool
    ensures { result ≡ line_read_may_begin_number line.now }
{
    match line {
        [] | [b' ', ..] => false,
        [b'0', next, ..] => *next == b' ',
        _ => true,
    }
}

/// The number that the first word is, and what stands behind the space after it. Each byte is looked at once.
fn first_number(line: &[u8]) -> Option<(u32, Option<&[u8]>)>
    ensures { MatchOption result (LineReadBeginsWithNoNumber line.now)
        (λ x. LineReadBeginsWithNumber line.now x.0 (parts_behind_in_read_line script_line_space x.1)) }
{
    if !may_begin_number(line) {
        return None;
    }
    let mut sum: u32 = 0;
    for (at, byte) in line.iter().enumerate() {
        if *byte == b' ' {
            return Some((sum, Some(&line[at + 1..])));
        }
        if !byte.is_ascii_digit() {
            return None;
        }
        sum = sum.checked_mul(10)?.checked_add(u32::from(*byte - b'0'))?;
    }
    Some((sum, None))
}

/// The numbers of a line that has two at most, as all instructions have.
#[derive(Clone, Copy)]
pub enum FewOnLine {
    Zero,
    One([u32; 1]),
    Two([u32; 2]),
}

impl FewOnLine {
    pub fn as_slice(&self) -> &[u32]
        ensures { result.now ≡ line_read_few self.now }
    {
        match self {
            FewOnLine::Zero => &[],
            FewOnLine::One(numbers) => numbers,
            FewOnLine::Two(numbers) => numbers,
        }
    }
}

/// The numbers that the words are, if they are numbers and two at most.
pub fn few_numbers(words: Option<&[u8]>) -> Option<FewOnLine>
    ensures numbers { IfSome result (λ few. line_read_numbers_after [] (parts_behind_in_read_line script_line_space words.entry)
        ≡ Ok (line_read_few few)) }
    ensures others { IfNone result ((ns : List ℕ)
        → line_read_numbers_after [] (parts_behind_in_read_line script_line_space words.entry) ≡ Ok ns → 2 < length ns) }
{
    let Some(line) = words else {
        return Some(FewOnLine::Zero);
    };
    let (first, rest) = first_number(line)?;
    let Some(line) = rest else {
        return Some(FewOnLine::One([first]));
    };
    let (second, rest) = first_number(line)?;
    match rest {
        None => Some(FewOnLine::Two([first, second])),
        Some(_) => None,
    }
}

/// The numbers that the words are.
pub fn read_numbers(alloc: Global, words: Option<&[u8]>) -> Result<Numbers, ScriptFault>
    ensures { LineReadGives (λ ns. ns.items) result (line_read_numbers_after [] (parts_behind_in_read_line script_line_space words.entry)) }
{
    let mut numbers = SmallVec::new(alloc);
    let mut rest = words;
    while let Some(line) = rest {
        let (word, after) = split_script_line_at(line, b' ');
        let Some(number) = number(word) else {
            return Err(ScriptFault::BadNumber);
        };
        numbers.push(number)?;
        rest = after;
    }
    Ok(numbers)
}
