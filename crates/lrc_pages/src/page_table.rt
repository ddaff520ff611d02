//! What a trace costs on pages, as a table and as JSON.
ghost use Rattle.std.specs.Prelude.{ℕ, IfErr, List, OnOk};
ghost use Rattle.std.specs.Io.KnownBytes.{Appends};
ghost use Rattle.lrc_commands.specs.Prelude.{IsCommandExitStatusOfInput};

use crate::eager_pages::EagerTraffic;
use crate::output::write_pages_text;
use crate::page_row::PageRow;
use crate::page_watch::LabelWait;
use crate::pages_picture::write_pages_picture;
use crate::processor_set::ProcessorSet;
use crate::text_table::{TextTable, number_word, table_word};
use crate::top_pages::TopPage;
use judge::MOST_JUDGED_PROCESSORS;
use lrc_commands::fault::CommandFault;
use lrc_json::members::{Members, Values};
use lrc_json::output::JsonLines;
use lrc_options::options::PagesOptions;
use std::alloc::{AllocError, Global};
use std::io::Write;

/// How far the tables of pages and of labels stand to the right.
const INDENT: usize = 4;

/// What stands over each column.
const HEADS: [&str; 10] = [
    "page words",
    "messages",
    "locks",
    "flags",
    "barrier",
    "fetch",
    "fetches",
    "records",
    "words",
    "pages",
];

/// The same, where eager release consistency is told.
const EAGER_HEADS: [&str; 11] = [
    "page words",
    "messages",
    "locks",
    "flags",
    "barrier",
    "notices",
    "fetch",
    "fetches",
    "records",
    "words",
    "pages",
];

/// What stands over each column of the pages.
const PAGE_HEADS: [&str; 6] = ["page", "fetches", "useless", "words", "writers", "readers"];

/// What stands over each column of the labels.
const LABEL_HEADS: [&str; 2] = ["messages", "label"];

/// Adds the words of these numbers. The only error is running out of memory.
fn put_number_words(
    line: &mut Vec<String>,
    alloc: Global,
    numbers: &[u64],
) -> Result<(), AllocError> {
    for number in numbers {
        line.push(number_word(alloc, *number)?)?;
    }
    Ok(())
}

/// The line of a row.
fn page_row_line(alloc: Global, row: &PageRow, is_eager: bool) -> Result<Vec<String>, AllocError> {
    let traffic = row.traffic;
    let handed = [
        row.words as u64,
        row.messages,
        traffic.locks,
        traffic.flags,
        traffic.barriers,
    ];
    let fetched = [
        traffic.answers,
        traffic.fetches,
        traffic.records,
        traffic.words,
        row.touched as u64,
    ];
    let mut line = Vec::new(alloc);
    put_number_words(&mut line, alloc, &handed)?;
    if is_eager {
        put_number_words(&mut line, alloc, &[0])?;
    }
    put_number_words(&mut line, alloc, &fetched)?;
    Ok(line)
}

/// The line of what eager release consistency costs.
fn eager_line(alloc: Global, eager: &EagerTraffic) -> Result<Vec<String>, AllocError> {
    let mut line = Vec::new(alloc);
    line.push(table_word(alloc, "eager")?)?;
    let numbers = [
        eager.messages(),
        eager.locks,
        eager.flags,
        eager.barriers,
        eager.notices,
        eager.answers,
        eager.fetches,
    ];
    put_number_words(&mut line, alloc, &numbers)?;
    line.push(table_word(alloc, "-")?)?;
    line.push(number_word(alloc, eager.words)?)?;
    line.push(table_word(alloc, "-")?)?;
    Ok(line)
}

/// The numbers of the processors that are marked, with commas between, and two dots between the ends of three and more in a row; a
/// stroke if none is. The only error is running out of memory.
fn marked_processors(alloc: Global, marked: &ProcessorSet) -> Result<String, AllocError> {
    let mut text = String::new(alloc);
    let mut next = 0;
    for _ in 0..MOST_JUDGED_PROCESSORS {
        let Some((first, run)) = marked.run_from(next) else {
            break;
        };
        put_processor_run(&mut text, alloc, first, run)?;
        next = first.saturating_add(run);
    }
    if text.is_empty() {
        text.push_str("-")?;
    }
    Ok(text)
}

/// Adds so many processors in a row, the first of which has this number.
fn put_processor_run(
    text: &mut String,
    alloc: Global,
    first: usize,
    run: usize,
) -> Result<(), AllocError> {
    let last = first.saturating_add(run.saturating_sub(1));
    let comma = if text.is_empty() { "" } else { "," };
    let words = match run {
        0 | 1 => format!(in alloc; "{comma}{first}")?,
        2 => format!(in alloc; "{comma}{first},{last}")?,
        _ => format!(in alloc; "{comma}{first}..{last}")?,
    };
    text.push_str(&words)
}

/// The line of a page.
fn top_page_line(alloc: Global, page: &TopPage) -> Result<Vec<String>, AllocError> {
    let numbers = [
        page.page as u64,
        page.fetches,
        page.used.useless,
        page.words,
    ];
    let mut line = Vec::new(alloc);
    put_number_words(&mut line, alloc, &numbers)?;
    line.push(marked_processors(alloc, &page.used.writers)?)?;
    line.push(marked_processors(alloc, &page.used.readers)?)?;
    Ok(line)
}

/// Adds the table of these pages, if there are any.
fn put_top_pages(text: &mut String, alloc: Global, pages: &[TopPage]) -> Result<(), AllocError> {
    if pages.is_empty() {
        return Ok(());
    }
    let mut table = TextTable::new(alloc, 4);
    table.put_words(alloc, &PAGE_HEADS)?;
    for page in pages {
        table.put(top_page_line(alloc, page)?)?;
    }
    table.put_all(text, INDENT)
}

/// Adds the table of these labels, if there are any.
fn put_labels(text: &mut String, alloc: Global, labels: &[LabelWait]) -> Result<(), AllocError> {
    if labels.is_empty() {
        return Ok(());
    }
    let mut table = TextTable::new(alloc, 1);
    table.put_words(alloc, &LABEL_HEADS)?;
    for wait in labels {
        let mut line = Vec::new(alloc);
        line.push(number_word(alloc, wait.messages)?)?;
        line.push(table_word(alloc, &wait.label)?)?;
        table.put(line)?;
    }
    table.put_all(text, INDENT)
}

/// The table of the rows: a line of heads, and a line for each, with another one if eager release consistency is told.
fn page_row_table(
    alloc: Global,
    rows: &[PageRow],
    is_eager: bool,
) -> Result<TextTable, AllocError> {
    let mut table = TextTable::new(alloc, EAGER_HEADS.len());
    if is_eager {
        table.put_words(alloc, &EAGER_HEADS)?;
    } else {
        table.put_words(alloc, &HEADS)?;
    }
    for row in rows {
        table.put(page_row_line(alloc, row, is_eager)?)?;
        if let Some(eager) = &row.eager {
            table.put(eager_line(alloc, eager)?)?;
        }
    }
    Ok(table)
}

/// The table, and after each row the tables of its pages and labels.
fn page_table(alloc: Global, rows: &[PageRow], is_eager: bool) -> Result<String, AllocError> {
    let table = page_row_table(alloc, rows, is_eager)?;
    let mut text = String::new(alloc);
    let put = put_page_rows(&mut text, alloc, rows, &table, if is_eager { 2 } else { 1 });
    drop(table);
    match put {
        Ok(()) => Ok(text),
        Err(error) => Err(error),
    }
}

/// Puts the table's head, and of each row so many of its lines, its pages and its labels. The only error is running out of memory.
fn put_page_rows(
    text: &mut String,
    alloc: Global,
    rows: &[PageRow],
    table: &TextTable,
    lines: usize,
) -> Result<(), AllocError> {
    table.put_line(text, 0, 0)?;
    let mut place: usize = 1;
    for row in rows {
        for _ in 0..lines {
            table.put_line(text, place, 0)?;
            place = place.saturating_add(1);
        }
        put_top_pages(text, alloc, &row.top)?;
        put_labels(text, alloc, &row.labels)?;
    }
    Ok(())
}

/// The numbers of the processors that are marked, as a list.
fn marked_processors_json(alloc: Global, marked: &ProcessorSet) -> Result<Values, AllocError> {
    let mut numbers = Vec::new(alloc);
    for processor in 0..MOST_JUDGED_PROCESSORS {
        if marked.has(processor) {
            numbers.push(processor)?;
        }
    }
    Ok(Values::of_numbers(alloc, &numbers))
}

/// The object of a page.
fn top_page_json(alloc: Global, page: &TopPage) -> Result<Members, AllocError> {
    let mut members = Members::new(alloc);
    members.put_number("page", page.page);
    members.put_count("fetches", page.fetches);
    members.put_count("useless", page.used.useless);
    members.put_count("words", page.words);
    members.put_list(
        "writers",
        marked_processors_json(alloc, &page.used.writers)?,
    );
    members.put_list(
        "readers",
        marked_processors_json(alloc, &page.used.readers)?,
    );
    Ok(members)
}

/// The list of the pages.
fn top_pages_json(alloc: Global, pages: &[TopPage]) -> Result<Values, AllocError> {
    let mut list = Values::new(alloc);
    for page in pages {
        list.put_object(top_page_json(alloc, page)?);
    }
    Ok(list)
}

/// The list of the labels.
fn labels_json(alloc: Global, labels: &[LabelWait]) -> Values {
    let mut list = Values::new(alloc);
    for wait in labels {
        let mut members = Members::new(alloc);
        members.put_count("messages", wait.messages);
        members.put_text("label", &wait.label);
        list.put_object(members);
    }
    list
}

/// The object of what eager release consistency costs.
fn eager_json(alloc: Global, eager: &EagerTraffic) -> Members {
    let mut members = Members::new(alloc);
    members.put_count("messages", eager.messages());
    members.put_count("locks", eager.locks);
    members.put_count("flags", eager.flags);
    members.put_count("barrier", eager.barriers);
    members.put_count("notices", eager.notices);
    members.put_count("fetch", eager.answers);
    members.put_count("fetches", eager.fetches);
    members.put_count("words", eager.words);
    members
}

/// The object of a row's costs.
fn page_costs_json(alloc: Global, row: &PageRow) -> Members {
    let mut members = Members::telling(alloc, "pages");
    members.put_number("page_words", row.words);
    members.put_count("messages", row.messages);
    members.put_count("locks", row.traffic.locks);
    members.put_count("flags", row.traffic.flags);
    members.put_count("barrier", row.traffic.barriers);
    members.put_count("fetch", row.traffic.answers);
    members.put_count("fetches", row.traffic.fetches);
    members.put_count("records", row.traffic.records);
    members.put_count("words", row.traffic.words);
    members.put_number("pages", row.touched);
    members
}

/// The object of a row, with its pages and labels if they are asked for.
fn page_row_json(alloc: Global, row: &PageRow, has_top: bool) -> Result<Members, AllocError> {
    let mut members = page_costs_json(alloc, row);
    if let Some(eager) = &row.eager {
        members.put_object("eager", eager_json(alloc, eager));
    }
    if has_top {
        members.put_list("top", top_pages_json(alloc, &row.top)?);
        members.put_list("labels", labels_json(alloc, &row.labels));
    }
    Ok(members)
}

/// Writes the rows as JSON, an object a line.
fn write_page_rows_json<W: Write>(
    alloc: Global,
    has_top: bool,
    rows: &[PageRow],
    out: &mut W,
) -> Result<(), CommandFault>
    ensures written { OnOk result ((text : List ℕ) × Appends (W.contents out.old) (W.contents out.new) text) }
    ensures runs { IfErr result (λ fault. IsCommandExitStatusOfInput fault → ⊥) }
{
    let mut lines = JsonLines::new(alloc);
    for row in rows {
        lines.put(page_row_json(alloc, row, has_top)?);
    }
    lines.write(out)?;
    Ok(())
}

/// Writes the rows as a table.
fn write_page_table<W: Write>(
    alloc: Global,
    is_eager: bool,
    rows: &[PageRow],
    out: &mut W,
) -> Result<(), CommandFault>
    ensures written { OnOk result ((text : List ℕ) × Appends (W.contents out.old) (W.contents out.new) text) }
    ensures runs { IfErr result (λ fault. IsCommandExitStatusOfInput fault → ⊥) }
{
    let text = page_table(alloc, rows, is_eager)?;
    write_pages_text(text.as_bytes(), out)
}

/// Writes the rows, as a table, as JSON or as a picture, with what the options ask for, and flushes the writer.
pub(crate) fn write_page_rows<W: Write>(
    alloc: Global,
    options: &PagesOptions,
    rows: &[PageRow],
    out: &mut W,
) -> Result<(), CommandFault>
    ensures written { OnOk result ((text : List ℕ) × Appends (W.contents out.old) (W.contents out.new) text) }
    ensures runs { IfErr result (λ fault. IsCommandExitStatusOfInput fault → ⊥) }
{
    if options.svg {
        write_pages_picture(alloc, options.eager, rows, out)
    } else if options.json {
        write_page_rows_json(alloc, options.top.is_some(), rows, out)
    } else {
        write_page_table(alloc, options.eager, rows, out)
    }
}
