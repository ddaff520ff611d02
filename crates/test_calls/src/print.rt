//! The texts of answers.

use crate::answer::Turns;
use interval::{Notice, Sent};
use journal::Event;
use lrc_report::ReportLine;
use lrc_report::render::render_report_event;
use std::io::Write;
use std::{fmt, io};
use transit::Message;

/// What is answered, on a line of its own.
pub fn say<W: Write, X: fmt::Display + Copy>(out: &mut W, answer: X) -> io::Result<()> {
    writeln!(out, "{answer}")
}

/// What calls said in turn, and what ends it.
pub fn say_turns<W: Write>(out: &mut W, turns: Turns, end: &str) -> io::Result<()> {
    let Turns { said, count } = turns;
    write!(out, "{said} x{count}{end}")
}

/// A yes or a no.
pub fn say_whether<W: Write>(out: &mut W, is_so: bool) -> io::Result<()> {
    say(out, if is_so { "yes" } else { "no" })
}

/// Numbers, with a space between two.
pub fn say_numbers<W: Write, N: fmt::Display>(out: &mut W, numbers: &[N]) -> io::Result<()> {
    let mut gap = "";
    for number in numbers {
        write!(out, "{gap}{number}")?;
        gap = " ";
    }
    writeln!(out)
}

/// An event at its place, as the journal of `lrc` is printed.
pub fn say_event<W: Write>(out: &mut W, place: u64, event: &Event) -> io::Result<()> {
    let mut line = ReportLine::new();
    render_report_event(&mut line, place, event);
    out.write_all(line.bytes())
}

/// How many events, and a line for each, behind four spaces.
pub fn say_events<W: Write>(out: &mut W, first: u64, events: &[Event]) -> io::Result<()> {
    say(out, events.len())?;
    let mut place = first;
    for event in events {
        write!(out, "    ")?;
        say_event(out, place, event)?;
        place = place.wrapping_add(1);
    }
    Ok(())
}

/// A record that a message brings: its page, its interval, that one's place in the closing order, and its words.
fn say_sent<W: Write>(out: &mut W, sent: &Sent) -> io::Result<()> {
    let Notice {
        page,
        owner,
        number,
    } = sent.notice;
    write!(out, "; page {page} p{owner}:{number} at {}", sent.place)?;
    for (offset, word) in sent.content.words() {
        write!(out, " {offset}={word}")?;
    }
    Ok(())
}

/// What a message is called.
fn name_of(message: &Message) -> &'static str {
    match message {
        Message::Grant { .. } => "grant",
        Message::Departure { .. } => "departure",
        Message::Signal { .. } => "signal",
    }
}

/// A message: its name, its timestamp, and each record that comes with it.
pub fn say_message<W: Write>(out: &mut W, message: &Message) -> io::Result<()> {
    write!(out, "{}", name_of(message))?;
    for entry in message.time().entries() {
        write!(out, " {entry}")?;
    }
    for sent in message.notices() {
        say_sent(out, sent)?;
    }
    writeln!(out)
}
