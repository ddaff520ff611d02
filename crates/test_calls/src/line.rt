//! The lines of a list.

use crate::names::ListName;
use journal::{Event, Kind};
use test_crews::crews::Call;

/// What a line asks for.
#[derive(Clone, Copy)]
pub enum Action {
    /// Nothing: the line is empty, or a comment.
    Nothing,
    /// This is done.
    Do(Deed),
    /// The processor's call, that many times.
    Repeat(usize, usize, Call),
    /// What is seen of the processor.
    See(usize, Question),
    /// A call of the book by the processor.
    Tell(usize, Call),
    /// What is seen of the book, of the processor.
    Look(usize, BookQuestion),
    /// What is read of the journal at hand.
    Read(Reading),
}

/// What changes the cluster, the book or the journal at hand.
#[derive(Clone, Copy)]
pub enum Deed {
    /// A cluster, by how many processors, pages, words a page, locks and flags it has.
    Open([usize; 5]),
    /// The processor's call.
    Make(usize, Call),
    /// The cluster's end.
    Finish,
    /// A book, by the same sizes.
    OpenBook([usize; 5]),
    /// The book's end.
    EndBook,
    /// A journal, by how many processors and addresses it has.
    Begin(usize, usize),
    /// An event at its end, at this place.
    Append(u64, Event),
    /// A cut of the journal.
    Cut,
}

/// What is seen of a processor.
#[derive(Clone, Copy)]
pub enum Question {
    Page(usize),
    Valid(usize),
    Holds(usize),
    Time,
    Waiting,
    Room,
    Number,
}

/// What is seen of a book.
#[derive(Clone, Copy)]
pub enum BookQuestion {
    /// How many notices of the page a take by the processor would bring.
    Due(usize),
    /// The number of its first interval that is kept.
    First,
    /// Whether nobody can go on.
    Deadlock,
}

/// What is read of a journal.
#[derive(Clone, Copy)]
pub enum Reading {
    Events,
    Count,
    At(usize),
    Replay,
    Race,
    Traffic,
    Base,
    Gone,
}

/// More words than a line has that asks for something.
const MOST_WORDS: usize = 9;

/// The first words of a line, and empty ones behind its last.
type Words<'l> = [&'l str; MOST_WORDS];

/// A name, and the numbers behind it.
#[derive(Clone, Copy)]
struct Phrase {
    name: ListName,
    numbers: [usize; 5],
    count: usize,
}

/// The words of a line.
fn words_of<'l>(line: &'l str) -> Words<'l> {
    let mut rest = line.split_ascii_whitespace();
    let mut words = [""; MOST_WORDS];
    for place in 0..MOST_WORDS {
        words[place] = rest.next().unwrap_or("");
    }
    words
}

/// A word that is a number.
fn number(word: &str) -> Option<usize> {
    word.parse::<usize>().ok()
}

/// What a page has at an address.
fn value(number: usize) -> Option<u32> {
    u32::try_from(number).ok()
}

/// The words as a name and numbers, up to the first that is empty.
fn phrase_of(name: &str, words: &[&str]) -> Option<Phrase> {
    let mut numbers = [0; 5];
    let mut count = 0_usize;
    for word in words {
        if word.is_empty() {
            break;
        }
        *numbers.get_mut(count)? = number(word)?;
        count = count.saturating_add(1);
    }
    Some(Phrase {
        name: ListName::of(name)?,
        numbers,
        count,
    })
}

/// A store of what the number says.
fn store(address: usize, number: usize) -> Option<Call> {
    Some(Call::Store(address, value(number)?))
}

/// The call of this name, with these numbers.
fn call_of(phrase: Phrase) -> Option<Call> {
    let [first, second, ..] = phrase.numbers;
    match (phrase.name, phrase.count) {
        (ListName::Load, 1) => Some(Call::Load(first)),
        (ListName::Store, 2) => store(first, second),
        (ListName::Fetch, 1) => Some(Call::Fetch(first)),
        (ListName::Ask, 1) => Some(Call::Ask(first)),
        (ListName::Release, 1) => Some(Call::Release(first)),
        (ListName::Arrive, 0) => Some(Call::Arrive),
        (ListName::Set, 1) => Some(Call::Set(first)),
        (ListName::Watch, 1) => Some(Call::Watch(first)),
        (ListName::Take, 0) => Some(Call::Take),
        (ListName::Flush, 0) => Some(Call::Flush),
        (ListName::Audit, 0) => Some(Call::Audit),
        (ListName::Cut, 0) => Some(Call::Cut),
        _ => None,
    }
}

/// The question of this name, with these numbers.
fn question_of(phrase: Phrase) -> Option<Question> {
    let [first, ..] = phrase.numbers;
    match (phrase.name, phrase.count) {
        (ListName::Page, 1) => Some(Question::Page(first)),
        (ListName::Valid, 1) => Some(Question::Valid(first)),
        (ListName::Holds, 1) => Some(Question::Holds(first)),
        (ListName::Time, 0) => Some(Question::Time),
        (ListName::Waiting, 0) => Some(Question::Waiting),
        (ListName::Room, 0) => Some(Question::Room),
        (ListName::Number, 0) => Some(Question::Number),
        _ => None,
    }
}

/// The question of a book of this name, with these numbers.
fn book_question_of(phrase: Phrase) -> Option<BookQuestion> {
    let [first, ..] = phrase.numbers;
    match (phrase.name, phrase.count) {
        (ListName::Due, 1) => Some(BookQuestion::Due(first)),
        (ListName::First, 0) => Some(BookQuestion::First),
        (ListName::Deadlock, 0) => Some(BookQuestion::Deadlock),
        _ => None,
    }
}

/// What is read of the journal at hand.
fn reading_of(phrase: Phrase) -> Option<Reading> {
    let [first, ..] = phrase.numbers;
    match (phrase.name, phrase.count) {
        (ListName::Events, 0) => Some(Reading::Events),
        (ListName::Count, 0) => Some(Reading::Count),
        (ListName::At, 1) => Some(Reading::At(first)),
        (ListName::Replay, 0) => Some(Reading::Replay),
        (ListName::Race, 0) => Some(Reading::Race),
        (ListName::Traffic, 0) => Some(Reading::Traffic),
        (ListName::Base, 0) => Some(Reading::Base),
        (ListName::Gone, 0) => Some(Reading::Gone),
        _ => None,
    }
}

/// The deed of this name, with these numbers; a cluster or a book has no flags where none are given.
fn deed_of(phrase: Phrase) -> Option<Deed> {
    let [first, second, ..] = phrase.numbers;
    match (phrase.name, phrase.count) {
        (ListName::Cluster, 4 | 5) => Some(Deed::Open(phrase.numbers)),
        (ListName::Finish, 0) => Some(Deed::Finish),
        (ListName::Book, 4 | 5) => Some(Deed::OpenBook(phrase.numbers)),
        (ListName::End, 0) => Some(Deed::EndBook),
        (ListName::Journal, 2) => Some(Deed::Begin(first, second)),
        (ListName::Cut, 0) => Some(Deed::Cut),
        _ => None,
    }
}

/// A load of what the number says, in a journal.
fn loaded(address: usize, number: usize) -> Option<Kind> {
    Some(Kind::Load(address, value(number)?))
}

/// A store of it.
fn stored(address: usize, number: usize) -> Option<Kind> {
    Some(Kind::Store(address, value(number)?))
}

/// A fetch: the page, and how many writers, records and words.
fn fetched([page, writers, records, words, _]: [usize; 5]) -> Option<Kind> {
    Some(Kind::Fetch {
        writers: value(writers)?,
        page,
        records: value(records)?,
        words: value(words)?,
    })
}

/// What an event did.
fn kind_of(phrase: Phrase) -> Option<Kind> {
    let [first, second, ..] = phrase.numbers;
    match (phrase.name, phrase.count) {
        (ListName::Load, 2) => loaded(first, second),
        (ListName::Store, 2) => stored(first, second),
        (ListName::Fetch, 4) => fetched(phrase.numbers),
        (ListName::Ask, 1) => Some(Kind::Ask(first)),
        (ListName::Acquire, 1) => Some(Kind::Acquire(first)),
        (ListName::Release, 1) => Some(Kind::Release(first)),
        (ListName::Arrive, 0) => Some(Kind::Arrive),
        (ListName::Depart, 0) => Some(Kind::Depart),
        (ListName::Set, 1) => Some(Kind::Set(first)),
        (ListName::Watch, 1) => Some(Kind::Watch(first)),
        (ListName::Await, 1) => Some(Kind::Await(first)),
        _ => None,
    }
}

/// The processor's number in its name.
fn processor_of(name: &str) -> Option<usize> {
    number(name.strip_prefix("p")?)
}

/// The processor's number in its name as one of a book.
fn book_processor_of(name: &str) -> Option<usize> {
    number(name.strip_prefix("b")?)
}

/// What the line of a processor asks for: a question, or a call.
fn of_processor(p: usize, phrase: Phrase) -> Option<Action> {
    match question_of(phrase) {
        Some(question) => Some(Action::See(p, question)),
        None => Some(Action::Do(Deed::Make(p, call_of(phrase)?))),
    }
}

/// What the line of a book's processor asks for: a question, or a call.
fn of_book(p: usize, phrase: Phrase) -> Option<Action> {
    match book_question_of(phrase) {
        Some(question) => Some(Action::Look(p, question)),
        None => Some(Action::Tell(p, call_of(phrase)?)),
    }
}

/// What a line of a name with numbers asks for.
fn of_name(phrase: Phrase) -> Option<Action> {
    match deed_of(phrase) {
        Some(deed) => Some(Action::Do(deed)),
        None => Some(Action::Read(reading_of(phrase)?)),
    }
}

/// A call of the processor with this name, so often.
fn repeat(times: &str, name: &str, phrase: Phrase) -> Option<Action> {
    let times = number(times)?;
    let p = processor_of(name)?;
    Some(Action::Repeat(times, p, call_of(phrase)?))
}

/// An event at its place, of the processor with this number.
fn append(place: &str, processor: &str, phrase: Phrase) -> Option<Action> {
    let place = number(place)? as u64;
    let processor = number(processor)?;
    let kind = kind_of(phrase)?;
    Some(Action::Do(Deed::Append(place, Event { processor, kind })))
}

/// What a line asks for whose first word is the name of a processor, or has numbers behind it.
fn begun_with(name: &str, words: Words) -> Option<Action> {
    match (processor_of(name), book_processor_of(name)) {
        (Some(p), _) => of_processor(p, phrase_of(words[1], &words[2..])?),
        (None, Some(p)) => of_book(p, phrase_of(words[1], &words[2..])?),
        (None, None) => of_name(phrase_of(name, &words[1..])?),
    }
}

/// What the line asks for; None where that is nothing that the program does.
pub fn action_of(line: &str) -> Option<Action> {
    let words = words_of(line);
    match words[0] {
        "" => Some(Action::Nothing),
        "repeat" => repeat(words[1], words[2], phrase_of(words[3], &words[4..])?),
        "event" => append(words[1], words[2], phrase_of(words[3], &words[4..])?),
        name if name.starts_with('#') => Some(Action::Nothing),
        name => begun_with(name, words),
    }
}
