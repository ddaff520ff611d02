//! `calls [--ticket] [--few] [--again] [--blind] [FILE]`: makes the calls of a list, a line each, and prints what each answers.
//!
//! The list is a file's, or standard input's. A line is one of these:
//!
//!     `cluster P N W L [G]`  opens a cluster of P processors, N pages of W words, L locks and G flags
//!     `p0 CALL`              a call of processor 0: `ask 0`, `take`, `release 0`, `arrive`, `set 0`, `watch 0`, `flush`,
//!                            `load 3`, `store 3 7`, `fetch 1`, `cut`, `audit`
//!     `p0 QUESTION`          what is seen of it: `page 0`, `valid 0`, `holds 0`, `time`, `waiting`, `room`, `number`
//!     `repeat N p0 CALL`     the call, N times
//!     `finish`               ends the cluster
//!     `book P N W L [G]`     begins a book of such sizes, with the history that tells it
//!     `b0 CALL`              a call of it by processor 0, as above without `fetch`; a load (of 0) or a store comes with the next
//!     `b0 QUESTION`          `due 0`: how many notices of page 0 a take would bring; `first`: its first interval that is kept;
//!                            `deadlock`: whether nobody can go on
//!     `end`                  ends the book
//!     `journal P A`          begins a journal of P processors and A addresses
//!     `event N P KIND ..`    puts an event at its end, at place N, as the journal of `lrc` is printed
//!     `cut`                  cuts that journal
//!     `events`, `count`, `at N`, `replay`, `race`, `traffic`, `base`, `gone`
//!                            what is read of the journal at hand: the one begun last, or answered last by `audit`, `finish` or `end`
//!
//! An answer is `ok`, what is asked for, or the name of the refusal. `repeat` answers how often in turn each came, as
//! `ok x256, BlockFull x1`; after `events` there is a line for each event, behind four spaces. A refused call leaves what
//! is seen of its processor as it was; where it doesn't, its answer says so. A take of a book answers the message: its name, its
//! timestamp, and for each record the page, its interval, its place in the closing order, and its words.
//!
//! `--ticket` takes the ticket lock in place of the array lock, and `--few` one with 4096 entries a processor. With
//! `--again` a call that is refused memory is made once more, and only the second answer is printed. With `--blind` nobody
//! looks whether a refused call left what is seen: looking takes memory, and so a call takes no more than it needs.
//!
//! The status is 0; 2 at a line that is no call; 4 where memory or the output fails; 5 at wrong words or no such file.
#![tactic(auto)]

ghost use Rattle.std.specs.Prelude.{◌≤◌, ◌^◌};

mod answer;
mod desk;
mod fault;
mod following;
mod kept;
mod line;
mod look;
mod names;
mod options;
mod print;
mod told_book;
mod written;

use crate::desk::Desk;
use crate::fault::ListFault;
use crate::following::{look, perform, read, repeat, see, tell};
use crate::line::{Action, Deed, action_of};
use crate::options::{ListOptions, options_of};
use book::Book;
use cluster::{BookLock, BookTurn, Rule, TicketBookLock};
use std::alloc::Global;
use std::io::{BufWriter, Stdout, Write};
use std::process::ExitCode;
use std::sync::Wait;
use std::{fs, io};
use turn::{ArrayLock, TicketLock};

/// An array lock that each processor may enter only a few times.
type FewArray = ArrayLock<Book, Rule, 4096>;

/// The same with tickets.
type FewTickets = TicketLock<Book, Rule, 4096>;

/// Does a line, which may have nothing in it.
fn follow<T: BookTurn + Drop, R: Wait, W: Write>(
    desk: &mut Desk<'_, T, R>,
    out: &mut W,
    line: &str,
) -> Result<(), ListFault>
    requires { T.ENTRIES ≤ 2 ^ 40 }
{
    match action_of(line) {
        None => Err(ListFault::NoCall),
        Some(Action::Nothing) => Ok(()),
        Some(Action::Do(deed)) => perform(desk, out, deed),
        Some(Action::Repeat(times, p, call)) => repeat(desk, out, times, Deed::Make(p, call)),
        Some(Action::See(p, question)) => see(desk, out, p, question),
        Some(Action::Tell(p, call)) => tell(desk, out, p, call),
        Some(Action::Look(p, question)) => look(desk, out, p, question),
        Some(Action::Read(reading)) => read(desk, out, reading),
    }
}

/// Does each line; where one fails, answers its number too.
fn follow_all<T: BookTurn + Drop, R: Wait, W: Write>(
    desk: &mut Desk<'_, T, R>,
    out: &mut W,
    text: &str,
) -> Result<(), (usize, ListFault)>
    requires { T.ENTRIES ≤ 2 ^ 40 }
{
    for (index, line) in text.lines().enumerate() {
        if let Err(fault) = follow(desk, out, line) {
            return Err((index, fault));
        }
    }
    Ok(())
}

/// Says why the program ends early, and answers the status.
fn refuse(rt: &HostRuntime, line: usize, fault: ListFault) -> u8 {
    let number = line.saturating_add(1);
    let text = fault.text();
    let mut err = rt.stderr();
    let _ = match fault {
        ListFault::NoMemory | ListFault::Output => writeln!(err, "calls: {text}"),
        _ => writeln!(err, "calls: line {number}: {text}"),
    };
    fault.status()
}

/// Does the list with a lock of this type. The handle is what waits for a lock.
fn serve<T: BookTurn + Drop, R: Wait>(
    alloc: Global,
    handle: &R,
    out: &mut BufWriter<Stdout>,
    options: &ListOptions,
    text: &str,
) -> Result<(), (usize, ListFault)>
    requires { T.ENTRIES ≤ 2 ^ 40 }
{
    let mut desk = Desk::<T, R>::new(handle, alloc, options.again, options.blind);
    follow_all(&mut desk, out, text)
}

/// Does the list with the lock that is asked for.
fn serve_by<R: Wait>(
    alloc: Global,
    handle: &R,
    options: &ListOptions,
    out: &mut BufWriter<Stdout>,
    text: &str,
) -> Result<(), (usize, ListFault)> {
    match (options.few, options.ticket) {
        (false, false) => serve::<BookLock, R>(alloc, handle, out, options, text),
        (false, true) => serve::<TicketBookLock, R>(alloc, handle, out, options, text),
        (true, false) => serve::<FewArray, R>(alloc, handle, out, options, text),
        (true, true) => serve::<FewTickets, R>(alloc, handle, out, options, text),
    }
}

/// Writes what is left to write, and answers the status.
fn conclude(
    rt: &HostRuntime,
    out: &mut BufWriter<Stdout>,
    outcome: Result<(), (usize, ListFault)>,
) -> u8 {
    let is_written = out.flush().is_ok();
    match outcome {
        Err((line, fault)) => refuse(rt, line, fault),
        Ok(()) if is_written => 0,
        Ok(()) => refuse(rt, 0, ListFault::Output),
    }
}

/// The list's text.
fn text_of(rt: &HostRuntime, file: Option<&str>) -> io::Result<String> {
    match file {
        Some(path) => fs::read_to_string(rt, path),
        None => io::read_to_string(rt.alloc(), rt.stdin()),
    }
}

/// Reads the list and does it.
fn start<R: Wait>(rt: &HostRuntime, handle: &R, words: &[String]) -> io::Result<u8> {
    let Some(options) = options_of(words) else {
        writeln!(
            rt.stderr(),
            "usage: calls [--ticket] [--few] [--again] [--blind] [FILE]"
        )?;
        return Ok(5);
    };
    let text = text_of(rt, options.file)?;
    let mut out = BufWriter::new(rt.alloc(), rt.stdout())?;
    let outcome = serve_by(rt.alloc(), handle, &options, &mut out, &text);
    Ok(conclude(rt, &mut out, outcome))
}

/// Reads the program's words, and does what they ask for.
fn read_words<R: Wait>(rt: &HostRuntime, handle: &R) -> io::Result<u8> {
    let words: Vec<String> = std::env::args(rt)?.collect(rt.alloc())?;
    start(rt, handle, &words)
}

/// The status where nothing was done.
fn status_of(rt: &HostRuntime, error: &io::Error) -> u8 {
    if error.kind() == io::ErrorKind::OutOfMemory {
        return refuse(rt, 0, ListFault::NoMemory);
    }
    let _ = writeln!(rt.stderr(), "calls: the list cannot be read");
    5
}

fn main(rt: HostRuntime) -> ExitCode {
    let status = match read_words(&rt, &rt) {
        Ok(status) => status,
        Err(error) => status_of(&rt, &error),
    };
    ExitCode::from(status)
}
