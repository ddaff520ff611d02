//! The picture of what a trace costs on pages, as one SVG file, which a browser opens without anything else.
ghost use Rattle.std.specs.Prelude.{ℕ, IfErr, List, OnOk};
ghost use Rattle.std.specs.Io.KnownBytes.{Appends};
ghost use Rattle.lrc_commands.specs.Prelude.{IsCommandExitStatusOfInput};

use crate::cost_bars::{cost_bars_height, put_cost_bars};
use crate::output::write_pages_text;
use crate::page_map::{page_map_height, put_page_map};
use crate::page_row::PageRow;
use crate::page_svg::PageSvg;
use crate::pages_style::PAGES_STYLE;
use lrc_commands::fault::CommandFault;
use std::alloc::{AllocError, Global};
use std::io::Write;

/// How wide a picture is, in pixels.
const WIDTH: usize = 900;

/// How far down the bars begin.
const BARS: usize = 58;

/// What is left free between the bars and the map, and below the map.
const GAP: usize = 24;

/// How far down the map begins, if there are so many rows.
fn picture_map_top(rows: &[PageRow], is_eager: bool) -> usize {
    cost_bars_height(rows.len(), is_eager).saturating_add(BARS + GAP)
}

/// Puts what the file begins with: its size, its title, how all looks, and the ground.
fn put_picture_opening(text: &mut PageSvg, height: usize) {
    text.put_number(
        "<svg xmlns=\"http://www.w3.org/2000/svg\" role=\"img\" width=\"",
        WIDTH,
    );
    text.put_number("\" height=\"", height);
    text.put_number("\" viewBox=\"0 0 ", WIDTH);
    text.put_number(" ", height);
    text.put("\">\n<title>What a trace costs, by page size</title>\n");
    text.put(PAGES_STYLE);
    text.put("<rect class=\"page\" width=\"100%\" height=\"100%\"/>\n");
    text.put_words("title", 16, 24, "What the trace costs, by page size");
}

/// Puts the picture of these rows: bars, and the map of the first one.
fn put_pages_picture(text: &mut PageSvg, rows: &[PageRow], is_eager: bool) {
    let map_top = picture_map_top(rows, is_eager);
    let height = match rows.first() {
        Some(row) => map_top.saturating_add(page_map_height(row)),
        None => map_top,
    };
    put_picture_opening(text, height);
    put_cost_bars(text, rows, is_eager, BARS);
    if let Some(row) = rows.first() {
        put_page_map(text, row, map_top);
    }
    text.put("</svg>\n");
}

/// The text of the picture. The only error is running out of memory.
fn pages_picture(alloc: Global, rows: &[PageRow], is_eager: bool) -> Result<String, AllocError> {
    let mut text = PageSvg::new(alloc);
    put_pages_picture(&mut text, rows, is_eager);
    text.finish()
}

/// Writes the rows as a picture. The text is made whole first and then written.
pub(crate) fn write_pages_picture<W: Write>(
    alloc: Global,
    is_eager: bool,
    rows: &[PageRow],
    out: &mut W,
) -> Result<(), CommandFault>
    ensures written { OnOk result ((text : List ℕ) × Appends (W.contents out.old) (W.contents out.new) text) }
    ensures runs { IfErr result (λ fault. IsCommandExitStatusOfInput fault → ⊥) }
{
    let text = pages_picture(alloc, rows, is_eager)?;
    write_pages_text(text.as_bytes(), out)
}
