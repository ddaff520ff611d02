//! The state of a run before its first event, as tables. A cell's name is a letter and a number: `t` a processor's timestamp,
//! `s` for what it waits, `l` a lock, `f` a flag; with a second number `c` a processor's copy of a page, `w` its word at an
//! address.

use crate::cutout::Cutout;
use crate::svg::Svg;
use journal::{Event, Kind};
use judge::Sizes;
use std::alloc::{AllocError, Global};

/// What isn't known where something was cut off.
const UNKNOWN: &str = "?";

/// The memory before a page's first event.
#[derive(Clone, Copy)]
pub struct StartMemory<'a> {
    /// Its sizes; without pages if copies aren't told.
    pub sizes: Sizes,
    /// Whether timestamps are told.
    pub has_times: bool,
    /// Its words.
    pub words: &'a [u32],
    /// Whether events were cut off before, so that some of its state isn't known.
    pub is_cut: bool,
}

/// A page of memory: its number, its first address, and its words before the first event.
#[derive(Clone, Copy)]
struct MemoryPage<'a> {
    page: usize,
    first: usize,
    words: &'a [u32],
}

/// Puts a cell of this name, with these words in it.
fn put_panel_cell(text: &mut Svg, letter: &str, number: usize, words: &str) {
    text.put("<td class=\"text\" id=\"");
    text.put_number(letter, number);
    text.put("\">");
    text.put(words);
    text.put("</td>");
}

/// Begins a row of this name.
fn begin_panel_row(text: &mut Svg, name: &str, number: usize) {
    text.put("<tr><th class=\"text\">");
    text.put_number(name, number);
    text.put("</th>");
}

/// Begins a table with this caption.
fn begin_panel_table(text: &mut Svg, caption: &str) {
    text.put("<table>\n<caption>");
    text.put(caption);
    text.put("</caption>\n");
}

/// Puts the timestamp of a processor that has heard of nothing.
fn put_panel_zeros(text: &mut Svg, processors: usize) {
    for processor in 0..processors {
        text.put(if processor == 0 { "0" } else { " 0" });
    }
}

/// Puts the cell of the processor's timestamp, of so many processors.
fn put_panel_time(text: &mut Svg, processor: usize, processors: usize) {
    text.put_number("<td class=\"text\" id=\"t", processor);
    text.put("\">");
    put_panel_zeros(text, processors);
    text.put("</td>");
}

/// Puts the processors that are drawn: their timestamps, if these are told, and for what they wait.
fn put_panel_processors(text: &mut Svg, start: StartMemory<'_>, cutout: &Cutout) {
    begin_panel_table(text, "processors");
    text.put("<tr><th></th>");
    if start.has_times {
        text.put("<th class=\"text\">timestamp</th>");
    }
    text.put("<th class=\"text\">waits, or may take</th></tr>\n");
    for processor in &cutout.lanes {
        begin_panel_row(text, "p", *processor);
        if start.has_times {
            put_panel_time(text, *processor, start.sizes.processors);
        }
        put_panel_cell(text, "s", *processor, "");
        text.put("</tr>\n");
    }
    text.put("</table>\n");
}

/// Puts the locks.
fn put_panel_locks(text: &mut Svg, start: StartMemory<'_>) {
    if start.sizes.locks == 0 {
        return;
    }
    begin_panel_table(text, "locks");
    for lock in 0..start.sizes.locks {
        begin_panel_row(text, "lock ", lock);
        put_panel_cell(text, "l", lock, if start.is_cut { UNKNOWN } else { "free" });
        text.put("</tr>\n");
    }
    text.put("</table>\n");
}

/// Puts the flags.
fn put_panel_flags(text: &mut Svg, start: StartMemory<'_>) {
    if start.sizes.flags == 0 {
        return;
    }
    begin_panel_table(text, "flags");
    for flag in 0..start.sizes.flags {
        begin_panel_row(text, "flag ", flag);
        put_panel_cell(text, "f", flag, if start.is_cut { UNKNOWN } else { "" });
        text.put("</tr>\n");
    }
    text.put("</table>\n");
}

/// Puts the addresses of the page, above its copies.
fn put_panel_addresses(text: &mut Svg, page: MemoryPage<'_>) {
    text.put_number("<table>\n<caption>page ", page.page);
    text.put("</caption>\n<tr><th></th><th class=\"text\">copy</th>");
    for offset in 0..page.words.len() {
        text.put_number("<th>", page.first.saturating_add(offset));
        text.put("</th>");
    }
    text.put("</tr>\n");
}

/// Puts a processor's copy of the page: valid, or where something was cut off of unknown state.
fn put_panel_copy(text: &mut Svg, page: MemoryPage<'_>, processor: usize, is_cut: bool) {
    begin_panel_row(text, "p", processor);
    text.put(if is_cut {
        "<td class=\"text\""
    } else {
        "<td class=\"valid\""
    });
    text.put_number(" id=\"c", processor);
    text.put_number(".", page.page);
    text.put("\">");
    text.put(if is_cut { UNKNOWN } else { "valid" });
    text.put("</td>");
    for (offset, word) in page.words.iter().enumerate() {
        text.put_number("<td id=\"w", processor);
        text.put_number(".", page.first.saturating_add(offset));
        text.put_number("\">", *word as usize);
        text.put("</td>");
    }
    text.put("</tr>\n");
}

/// Puts the copies of the page.
fn put_panel_page(text: &mut Svg, is_cut: bool, cutout: &Cutout, page: MemoryPage<'_>) {
    put_panel_addresses(text, page);
    for processor in &cutout.lanes {
        put_panel_copy(text, page, *processor, is_cut);
    }
    text.put("</table>\n");
}

/// The page that an event of this kind is of, where a page has so many words.
fn panel_page_of(kind: Kind, words: usize) -> Option<usize> {
    match kind {
        Kind::Load(address, _) | Kind::Store(address, _) => address.checked_div(words),
        Kind::Fetch { page, .. } => Some(page),
        _ => None,
    }
}

/// Whether each page is accessed or fetched by some event. The only error is running out of memory.
fn pages_touched_in_panel(
    alloc: Global,
    sizes: Sizes,
    events: &[Event],
) -> Result<Vec<bool>, AllocError> {
    let mut touched = vec![in alloc; false; sizes.pages]?;
    for event in events {
        if let Some(page) = panel_page_of(event.kind, sizes.words)
            && let Some(is_touched) = touched.get_mut(page)
        {
            *is_touched = true;
        }
    }
    Ok(touched)
}

/// Puts the copies of the pages that some event accesses or fetches. The only error is running out of memory.
fn put_panel_pages(
    text: &mut Svg,
    alloc: Global,
    start: StartMemory<'_>,
    cutout: &Cutout,
    events: &[Event],
) -> Result<(), AllocError> {
    let StartMemory {
        sizes,
        words,
        is_cut,
        ..
    } = start;
    for (page, is_touched) in pages_touched_in_panel(alloc, sizes, events)?
        .iter()
        .enumerate()
    {
        let first = page.saturating_mul(sizes.words);
        if *is_touched && let Some(words) = words.get(first..first.saturating_add(sizes.words)) {
            put_panel_page(text, is_cut, cutout, MemoryPage { page, first, words });
        }
    }
    Ok(())
}

/// Puts the state before the first of these events. The only error is running out of memory.
pub fn put_panel(
    text: &mut Svg,
    alloc: Global,
    start: StartMemory<'_>,
    cutout: &Cutout,
    events: &[Event],
) -> Result<(), AllocError> {
    put_panel_processors(text, start, cutout);
    put_panel_locks(text, start);
    put_panel_flags(text, start);
    put_panel_pages(text, alloc, start, cutout, events)
}
