//! Prints a report.
ghost use Rattle.std.specs.Prelude.{◌≡◌, ◌≤◌, ◌<◌, ◌+◌, ◌^◌, ◌++◌, Some, codes, false, length};
ghost use Rattle.std.specs.Fmt.{decimal};
ghost use Rattle.std.specs.List.{flat_map};
ghost use Rattle.lrc_report.specs.Prelude.{report_word_text, report_verdict_text, report_traffic_text, report_cut_text, report_kind_text, report_event_text};
ghost use Rattle.lrc_report.specs.Prelude.{report_events_text, report_summary_text, report_left_text, report_journal_text, report_text, WritesThroughOrFails};
ghost use Rattle.lrc_report.specs.Prelude.{WritesThrough, most_kind};

use crate::pending::Pending;
use crate::report::Report;
use crate::report_line::ReportLine;
use journal::{Event, Journal, Kind, Traffic};
use std::io::Write;
use thiserror::Error;

/// A write failed or took no byte.
#[derive(Clone, Copy, Debug, PartialEq, Eq, Error)]
#[error("output failed")]
pub struct OutFault;

/// Writes the line of a shown address.
fn render_report_word<W: Write>(
    out: &mut W,
    pending: &mut Pending,
    address: usize,
    word: u32,
) -> Result<(), OutFault>
    ensures { WritesThrough (W.contents out.old) (W.contents out.new) pending.old pending.new
        (report_word_text (address, word)) result }
{
    let mut line = ReportLine::new();
    line.put(b" ", u64::from(word));
    line.put(b"word ", address as u64);
    pending.take(out, line.bytes())
}

/// Writes a line for each shown address.
fn render_report_words<W: Write>(
    out: &mut W,
    pending: &mut Pending,
    shown: &[(usize, u32)],
) -> Result<(), OutFault>
    ensures { WritesThrough (W.contents out.old) (W.contents out.new) pending.old pending.new
        (flat_map report_word_text shown.now) result }
{
    for (address, word) in shown {
        render_report_word(out, pending, *address, *word)?;
    }
    Ok(())
}

/// Writes the line of the verdict.
fn render_report_verdict<W: Write>(
    out: &mut W,
    pending: &mut Pending,
    racy: bool,
) -> Result<(), OutFault>
    ensures { WritesThrough (W.contents out.old) (W.contents out.new) pending.old pending.new
        (report_verdict_text racy) result }
{
    if racy {
        pending.take(out, b"verdict racy\n")
    } else {
        pending.take(out, b"verdict race-free\n")
    }
}

/// Writes the line of the traffic.
fn render_report_traffic<W: Write>(
    out: &mut W,
    pending: &mut Pending,
    traffic: Traffic,
) -> Result<(), OutFault>
    ensures { WritesThrough (W.contents out.old) (W.contents out.new) pending.old pending.new
        (report_traffic_text traffic) result }
{
    let mut line = ReportLine::new();
    line.put(b" ", traffic.words);
    line.put(b" ", traffic.records);
    line.put(b"traffic ", traffic.messages);
    pending.take(out, line.bytes())
}

/// Puts what is said of an access: its name, its address and its word.
#[inline]
fn render_report_access(line: &mut ReportLine, name: &[u8], address: usize, word: u32)
    requires begun { line.old ≡ codes "\n" }
    requires name { length name.now ≤ 9 }
    ensures text { line.new ≡ name.now ++ decimal address ++ codes " " ++ decimal word
        ++ codes "\n" }
    ensures length { length line.new ≤ most_kind }
{
    line.put(b" ", u64::from(word));
    line.put(name, address as u64);
}

/// Puts what is said of a lock's or a flag's event: its name and the number.
#[inline]
fn render_report_numbered(line: &mut ReportLine, name: &[u8], number: usize)
    requires begun { line.old ≡ codes "\n" }
    requires name { length name.now ≤ 9 }
    ensures text { line.new ≡ name.now ++ decimal number ++ codes "\n" }
    ensures length { length line.new ≤ most_kind }
{
    line.put(name, number as u64);
}

/// Puts what is said of a fetch: the page, and how many writers, records and words.
fn render_report_fetch(line: &mut ReportLine, page: usize, writers: u32, records: u32, words: u32)
    requires { line.old ≡ codes "\n" }
    ensures text { line.new ≡ codes " fetch " ++ decimal page ++ codes " " ++ decimal writers
        ++ codes " " ++ decimal records ++ codes " " ++ decimal words ++ codes "\n" }
    ensures length { length line.new ≤ most_kind }
{
    line.put(b" ", u64::from(words));
    line.put(b" ", u64::from(records));
    line.put(b" ", u64::from(writers));
    line.put(b" fetch ", page as u64);
}

/// Puts what is said of an event without a number: its name.
#[inline]
fn render_report_name(line: &mut ReportLine, name: &[u8])
    requires begun { line.old ≡ codes "\n" }
    requires name { length name.now ≤ 9 }
    ensures text { line.new ≡ name.now ++ codes "\n" }
    ensures length { length line.new ≤ most_kind }
{
    line.put_text(name);
}

/// Puts what an event did.
#[inline]
fn render_report_kind(line: &mut ReportLine, kind: Kind)
    requires { line.old ≡ codes "\n" }
    ensures text { line.new ≡ report_kind_text kind }
    ensures length { length line.new ≤ most_kind }
{
    match kind {
        Kind::Load(address, word) => render_report_access(line, b" load ", address, word),
        Kind::Store(address, word) => render_report_access(line, b" store ", address, word),
        Kind::Fetch {
            writers,
            page,
            records,
            words,
        } => render_report_fetch(line, page, writers, records, words),
        Kind::Ask(lock) => render_report_numbered(line, b" ask ", lock),
        Kind::Acquire(lock) => render_report_numbered(line, b" acquire ", lock),
        Kind::Release(lock) => render_report_numbered(line, b" release ", lock),
        Kind::Arrive => render_report_name(line, b" arrive"),
        Kind::Depart => render_report_name(line, b" depart"),
        Kind::Set(flag) => render_report_numbered(line, b" set ", flag),
        Kind::Watch(flag) => render_report_numbered(line, b" watch ", flag),
        Kind::Await(flag) => render_report_numbered(line, b" await ", flag),
    }
}

/// Makes the line of the event at a place, as a journal has it: `event PLACE PROCESSOR KIND ..`.
#[inline]
pub fn render_report_event(line: &mut ReportLine, place: u64, event: &Event)
    ensures { line.new ≡ report_event_text place event.now }
{
    line.clear();
    render_report_kind(line, event.kind);
    line.put(b" ", event.processor as u64);
    line.put(b"event ", place);
}

/// Writes a line for each event, the first at this place.
pub fn render_report_events<W: Write>(
    out: &mut W,
    pending: &mut Pending,
    first: u64,
    events: &[Event],
) -> Result<(), OutFault>
    requires { first + length events.now < 2 ^ 64 }
    ensures { WritesThrough (W.contents out.old) (W.contents out.new) pending.old pending.new
        (report_events_text first events.now) result }
{
    let mut line = ReportLine::new();
    for (index, event) in events.iter().enumerate() {
        render_report_event(&mut line, first + index as u64, event);
        pending.take(out, line.bytes())?;
    }
    Ok(())
}

/// Writes how many events were cut off, if any was.
fn render_report_cut<W: Write>(out: &mut W, pending: &mut Pending, cut: u64) -> Result<(), OutFault>
    ensures { WritesThrough (W.contents out.old) (W.contents out.new) pending.old pending.new (report_cut_text cut)
        result }
{
    if cut == 0 {
        return Ok(());
    }
    let mut line = ReportLine::new();
    line.put(b"cut ", cut);
    pending.take(out, line.bytes())
}

/// Writes the shown words, the verdict and the traffic.
fn render_report_summary<W: Write>(
    out: &mut W,
    pending: &mut Pending,
    report: &Report,
) -> Result<(), OutFault>
    ensures { WritesThrough (W.contents out.old) (W.contents out.new) pending.old pending.new
        (report_summary_text report.now) result }
{
    render_report_words(out, pending, &report.shown)?;
    render_report_verdict(out, pending, report.racy)?;
    render_report_traffic(out, pending, report.traffic)
}

/// Writes how many events were cut off, if any was, and a line for each that is left.
fn render_report_left<W: Write>(
    out: &mut W,
    pending: &mut Pending,
    journal: &Journal,
) -> Result<(), OutFault>
    ensures { WritesThrough (W.contents out.old) (W.contents out.new) pending.old pending.new
        (report_left_text journal.now) result }
{
    let cut = journal.cut_events();
    render_report_cut(out, pending, cut)?;
    let events = &journal.events()[..journal.len()];
    render_report_events(out, pending, cut, events)
}

/// Writes the lines of the journal, if they are asked for.
fn render_report_journal<W: Write>(
    out: &mut W,
    pending: &mut Pending,
    report: &Report,
    journal: bool,
) -> Result<(), OutFault>
    ensures { WritesThrough (W.contents out.old) (W.contents out.new) pending.old pending.new
        (report_journal_text report.now journal) result }
{
    if journal {
        render_report_left(out, pending, &report.journal)
    } else {
        Ok(())
    }
}

/// Writes the bytes that wait, and has the writer pass on what it still keeps.
fn finish<W: Write>(out: &mut W, pending: &mut Pending) -> Result<(), OutFault>
    ensures { WritesThroughOrFails (W.contents out.old) (W.contents out.new) pending.old result }
{
    pending.flush(out)?;
    match out.flush() {
        Ok(()) => Ok(()),
        Err(_) => Err(OutFault),
    }
}

/// Writes the report: a line `word ADDRESS VALUE` for each shown address, the verdict and the traffic. If the
/// journal is asked for, a line `cut NUMBER` follows if events were cut off, and a line for each event that is left,
/// numbered from there. It writes some thousand bytes at a time, then flushes the writer, and takes no memory.
///
/// # Errors
///
/// OutFault if a write fails or takes no byte, or the flush fails; a beginning of the text was written then.
pub fn render<W: Write>(report: &Report, journal: bool, out: &mut W) -> Result<(), OutFault>
    ensures { WritesThroughOrFails (W.contents out.old) (W.contents out.new) (report_text report.now journal)
        result }
{
    let mut pending = Pending::new();
    render_report_summary(out, &mut pending, report)?;
    render_report_journal(out, &mut pending, report, journal)?;
    finish(out, &mut pending)
}

/// Adds the report's lines, without those of its journal, to a text.
///
/// # Errors
///
/// OutFault if memory for the text was refused; a beginning of the lines was added then.
pub fn render_report_bytes(text: &mut Vec<u8>, report: &Report) -> Result<(), OutFault>
    ensures { WritesThroughOrFails (Some text.old.items) (Some text.new.items) (report_text report.now false) result }
{
    render(report, false, text)
}
