//! What a line does, and how it answers.
ghost use Rattle.std.specs.Prelude.{◌≤◌, ◌^◌};

use crate::answer::{Said, Turns};
use crate::desk::Desk;
use crate::fault::ListFault;
use crate::line::{BookQuestion, Deed, Question, Reading};
use crate::print::{say, say_event, say_events, say_message, say_numbers, say_turns, say_whether};
use book::Refused;
use cluster::{BookTurn, Processor};
use journal::Journal;
use std::io;
use std::io::Write;
use std::sync::Wait;
use test_crews::crews::Call;

/// What a write comes to.
fn written(outcome: io::Result<()>) -> Result<(), ListFault> {
    match outcome {
        Ok(()) => Ok(()),
        Err(_) => Err(ListFault::Output),
    }
}

/// Does the deed, and says what came of it.
pub fn perform<T: BookTurn + Drop, R: Wait, W: Write>(
    desk: &mut Desk<'_, T, R>,
    out: &mut W,
    deed: Deed,
) -> Result<(), ListFault>
    requires { T.ENTRIES ≤ 2 ^ 40 }
{
    let said = desk.perform(deed)?;
    written(say(out, said))
}

/// Does the deed that many times.
pub fn repeat<T: BookTurn + Drop, R: Wait, W: Write>(
    desk: &mut Desk<'_, T, R>,
    out: &mut W,
    times: usize,
    deed: Deed,
) -> Result<(), ListFault>
    requires { T.ENTRIES ≤ 2 ^ 40 }
{
    let mut turns = Turns {
        said: Said::Done,
        count: 0,
    };
    for _ in 0..times {
        let said = desk.perform(deed)?;
        turns = after(out, turns, said)?;
    }
    written(say_turns(out, turns, "\n"))
}

/// The answers in turn after one more; those before it are printed where it is another.
fn after<W: Write>(out: &mut W, turns: Turns, said: Said) -> Result<Turns, ListFault> {
    if turns.count == 0 || turns.said == said {
        let count = turns.count.saturating_add(1);
        return Ok(Turns { said, count });
    }
    written(say_turns(out, turns, ", "))?;
    Ok(Turns { said, count: 1 })
}

/// Answers what is seen of the processor.
pub fn see<T: BookTurn + Drop, R: Wait, W: Write>(
    desk: &Desk<'_, T, R>,
    out: &mut W,
    p: usize,
    question: Question,
) -> Result<(), ListFault> {
    match desk.processor(p)? {
        Some(processor) => written(say_seen(processor, out, question)),
        None => written(say(out, Said::Refused(Refused::OutOfRange))),
    }
}

/// Answers what is seen of a processor.
fn say_seen<T: BookTurn, W: Write>(
    processor: &Processor<T>,
    out: &mut W,
    question: Question,
) -> io::Result<()> {
    match question {
        Question::Page(page) => match processor.page(page) {
            Some(words) => say_numbers(out, words),
            None => say(out, "stale"),
        },
        Question::Valid(page) => say_whether(out, processor.is_valid(page)),
        Question::Holds(lock) => say_whether(out, processor.holds(lock)),
        Question::Time => say_numbers(out, processor.timestamp().entries()),
        Question::Waiting => say_whether(out, processor.waiting()),
        Question::Room => say(out, processor.room()),
        Question::Number => say(out, processor.number()),
    }
}

/// Makes a call of the book, and says what came of it.
pub fn tell<T: BookTurn + Drop, R: Wait, W: Write>(
    desk: &mut Desk<'_, T, R>,
    out: &mut W,
    p: usize,
    call: Call,
) -> Result<(), ListFault> {
    match desk.tell(p, call)? {
        Ok(Some(message)) => written(say_message(out, &message)),
        Ok(None) => written(say(out, Said::Done)),
        Err(refused) => written(say(out, Said::Refused(refused))),
    }
}

/// Answers what is seen of the book.
pub fn look<T: BookTurn + Drop, R: Wait, W: Write>(
    desk: &Desk<'_, T, R>,
    out: &mut W,
    p: usize,
    question: BookQuestion,
) -> Result<(), ListFault> {
    let told = desk.told()?;
    let found = match question {
        BookQuestion::Due(page) => told.due(p, page).map(|count| count as u64),
        BookQuestion::First => told.first(p),
        BookQuestion::Deadlock => return written(say_whether(out, told.is_deadlocked())),
    };
    match found {
        Some(number) => written(say(out, number)),
        None => written(say(out, Said::Refused(Refused::OutOfRange))),
    }
}

/// Answers what is read of the journal at hand. What is refused memory is read once more if that is asked for.
pub fn read<T: BookTurn + Drop, R: Wait, W: Write>(
    desk: &Desk<'_, T, R>,
    out: &mut W,
    reading: Reading,
) -> Result<(), ListFault> {
    let journal = desk.journal()?;
    match read_once(journal, out, reading) {
        Err(ListFault::NoMemory) if desk.again() => read_once(journal, out, reading),
        outcome => outcome,
    }
}

/// Answers what is read of the journal.
fn read_once<W: Write>(journal: &Journal, out: &mut W, reading: Reading) -> Result<(), ListFault> {
    match reading {
        Reading::Replay => match journal.replay() {
            Ok(memory) => written(say_memory(out, memory)),
            Err(_) => Err(ListFault::NoMemory),
        },
        Reading::Race => match journal.first_race() {
            Ok(race) => written(say_race(out, race)),
            Err(_) => Err(ListFault::NoMemory),
        },
        _ => written(say_kept(journal, out, reading)),
    }
}

/// Answers the memory at the journal's end, or none where it doesn't replay.
fn say_memory<W: Write>(out: &mut W, memory: Option<Vec<u32>>) -> io::Result<()> {
    match memory {
        Some(words) => say_numbers(out, &words),
        None => say(out, "none"),
    }
}

/// Answers the places of the journal's first race, or none.
fn say_race<W: Write>(out: &mut W, race: Option<(usize, usize)>) -> io::Result<()> {
    match race {
        Some((first, second)) => say_numbers(out, &[first, second]),
        None => say(out, "none"),
    }
}

/// Answers what the journal's events cost.
fn say_traffic<W: Write>(out: &mut W, journal: &Journal) -> io::Result<()> {
    let traffic = journal.traffic();
    say_numbers(out, &[traffic.messages, traffic.records, traffic.words])
}

/// Answers the event at a place of what is left.
fn say_at<W: Write>(out: &mut W, journal: &Journal, place: usize) -> io::Result<()> {
    match journal.at(place) {
        Some(event) => say_event(out, place as u64, event),
        None => say(out, "none"),
    }
}

/// Answers what is read of the journal without memory.
fn say_kept<W: Write>(journal: &Journal, out: &mut W, reading: Reading) -> io::Result<()> {
    match reading {
        Reading::Events => say_events(out, journal.cut_events(), journal.events()),
        Reading::At(place) => say_at(out, journal, place),
        Reading::Traffic => say_traffic(out, journal),
        Reading::Base => say_numbers(out, journal.base()),
        Reading::Gone => say(out, journal.cut_events()),
        _ => say(out, journal.len()),
    }
}
