//! The map of a picture of pages: who stores in the pages that are fetched most, and who loads from them. Nothing is proved of it
//! beyond that it is safe.

use crate::page_cells::PageCell;
use crate::page_row::PageRow;
use crate::page_svg::{Area, PageSvg};
use crate::top_pages::TopPage;

/// Where the cells begin, in pixels.
const LEFT: usize = 132;

/// How wide all cells are at most together.
const REACH: usize = 528;

/// How wide a cell is at most.
const WIDEST: usize = 36;

/// From this width on each processor's number has room above its cells.
const ROOMY: usize = 18;

/// How high a half of a cell is: that of stores, and that of loads.
const HALF: usize = 8;

/// From a page to the next.
const STEP: usize = 20;

/// How far down the pages begin, from the top of the map.
const FIRST: usize = 92;

/// What is left free below the last page.
const BELOW: usize = 10;

/// From a column of numbers to the next.
const COLUMN: usize = 76;

/// Which step of strength shows so many accesses: none, below 10, below 100, below 1,000, or more.
fn map_strength_of(count: u32) -> usize {
    match count {
        0 => 0,
        1..=9 => 1,
        10..=99 => 2,
        100..=999 => 3,
        _ => 4,
    }
}

/// The class of a half of a cell with stores of this strength.
fn map_store_class(strength: usize) -> &'static str {
    match strength {
        1 => "store few",
        2 => "store some",
        3 => "store many",
        _ => "store",
    }
}

/// The same with loads.
fn map_load_class(strength: usize) -> &'static str {
    match strength {
        1 => "load few",
        2 => "load some",
        3 => "load many",
        _ => "load",
    }
}

/// Where the cells of a map are.
#[derive(Clone, Copy)]
struct MapGrid {
    processors: usize,
    /// From a processor's cells to the next one's.
    step: usize,
}

impl MapGrid {
    /// That of so many processors.
    fn of(processors: usize) -> MapGrid {
        let step = match REACH.checked_div(processors) {
            Some(step) => step.min(WIDEST),
            None => WIDEST,
        };
        MapGrid { processors, step }
    }

    /// Where the cells of this processor begin.
    fn x(self, processor: usize) -> usize {
        LEFT.saturating_add(self.step.saturating_mul(processor))
    }

    /// Where the numbers of this column end.
    fn column(self, place: usize) -> usize {
        self.x(self.processors)
            .saturating_add(COLUMN.saturating_mul(place))
    }

    /// The half of a cell that begins at this height.
    fn half(self, processor: usize, y: usize) -> Area {
        Area {
            x: self.x(processor).saturating_add(1),
            y,
            width: self.step.saturating_sub(2),
            height: HALF,
        }
    }

    /// Puts the processors' numbers at this height: each, or each fourth if there is no room.
    fn put_processors(self, text: &mut PageSvg, y: usize) {
        for processor in 0..self.processors {
            if self.step >= ROOMY || processor % 4 == 0 {
                let x = self.x(processor).saturating_add(self.step / 2);
                text.put_number_words("small", x, y, processor);
            }
        }
    }

    /// Puts what stands over the columns, at this height.
    fn put_heads(self, text: &mut PageSvg, y: usize) {
        text.put_words("end faint", LEFT - 24, y, "page");
        self.put_processors(text, y);
        text.put_words("end faint", self.column(1), y, "fetches");
        text.put_words("end faint", self.column(2), y, "useless");
        text.put_words("end faint", self.column(3), y, "words");
    }

    /// Puts what hovering over a cell tells.
    fn put_title(self, text: &mut PageSvg, page: usize, processor: usize, cell: PageCell) {
        text.put_number("<title>page ", page);
        text.put_number(", processor ", processor);
        text.put_number(": stores ", cell.stores);
        text.put_number(", loads ", cell.loads);
        text.put("</title>\n");
    }

    /// Puts a cell, if the processor does something on the page: its upper half for stores, its lower one for loads.
    fn put_cell(self, text: &mut PageSvg, page: usize, processor: usize, cell: PageCell, y: usize) {
        if cell.stores == 0 && cell.loads == 0 {
            return;
        }
        text.put("<g>\n");
        self.put_title(text, page, processor, cell);
        if cell.stores > 0 {
            let class = map_store_class(map_strength_of(cell.stores));
            text.put_area(class, self.half(processor, y));
        }
        if cell.loads > 0 {
            let class = map_load_class(map_strength_of(cell.loads));
            text.put_area(class, self.half(processor, y.saturating_add(HALF)));
        }
        text.put("</g>\n");
    }

    /// Puts the ground of a page's cells.
    fn put_ground(self, text: &mut PageSvg, y: usize) {
        let area = Area {
            x: LEFT,
            y,
            width: self.step.saturating_mul(self.processors),
            height: 2 * HALF,
        };
        text.put_area("row", area);
    }

    /// Puts the numbers of a page, and its mark if it is falsely shared.
    fn put_numbers(self, text: &mut PageSvg, page: &TopPage, middle: usize) {
        let useless = page.used.useless;
        text.put_number("<g>\n<title>page ", page.page);
        text.put_number(": fetches ", page.fetches);
        text.put_number(", useless ", useless);
        text.put_number(", words ", page.words);
        text.put("</title>\n");
        if useless > 0 {
            put_map_mark(text, LEFT - 11, middle);
        }
        text.put_number_words("end", LEFT - 24, middle, page.page);
        text.put_number_words("end", self.column(1), middle, page.fetches);
        let class = if useless > 0 { "warn" } else { "end" };
        text.put_number_words(class, self.column(2), middle, useless);
        text.put_number_words("end", self.column(3), middle, page.words);
        text.put("</g>\n");
    }

    /// Puts a page at this height, with these cells.
    fn put_page(self, text: &mut PageSvg, page: &TopPage, cells: &[PageCell], y: usize) {
        self.put_ground(text, y);
        self.put_numbers(text, page, y.saturating_add(HALF));
        for (processor, cell) in cells.iter().enumerate() {
            self.put_cell(text, page.page, processor, *cell, y);
        }
    }
}

/// Puts the mark of a page that is falsely shared.
fn put_map_mark(text: &mut PageSvg, x: usize, y: usize) {
    text.put_number("<use href=\"#shared\" x=\"", x);
    text.put_number("\" y=\"", y);
    text.put("\"/>\n");
}

/// Puts the steps of strength from here on, of stores or of loads, and what they mean.
fn put_map_strengths(text: &mut PageSvg, x: usize, y: usize, stores: bool) {
    let mut left = x;
    for strength in 1..5usize {
        let area = Area {
            x: left,
            y,
            width: 14,
            height: HALF,
        };
        let class = if stores {
            map_store_class(strength)
        } else {
            map_load_class(strength)
        };
        text.put_area(class, area);
        left = left.saturating_add(16);
    }
}

/// Puts what cells mean, below this height.
fn put_map_legend(text: &mut PageSvg, top: usize) {
    let y = top.saturating_add(22);
    put_map_strengths(text, LEFT, y.saturating_sub(HALF), true);
    put_map_strengths(text, LEFT, y, false);
    text.put_words(
        "key",
        LEFT + 72,
        y,
        "stores above, loads below; darker from 10, 100 and 1000 on",
    );
    let below = y.saturating_add(22);
    put_map_mark(text, LEFT + 6, below);
    text.put_words(
        "key",
        LEFT + 72,
        below,
        "falsely shared: some fetches bring nothing that is accessed",
    );
}

/// How high the map of this row is.
pub(crate) fn page_map_height(row: &PageRow) -> usize {
    if row.top.is_empty() {
        return STEP;
    }
    row.top
        .len()
        .saturating_mul(STEP)
        .saturating_add(FIRST + BELOW)
}

/// Puts the pages of this row below this height.
fn put_map_pages(text: &mut PageSvg, row: &PageRow, top: usize) {
    let processors = match row.cells.first() {
        Some(cells) => cells.len(),
        None => 0,
    };
    let grid = MapGrid::of(processors);
    let mut y = top.saturating_add(FIRST);
    grid.put_heads(text, y.saturating_sub(14));
    for (page, cells) in row.top.iter().zip(row.cells.iter()) {
        grid.put_page(text, page, cells, y);
        y = y.saturating_add(STEP);
    }
}

/// Puts the map of this row below this height.
pub(crate) fn put_page_map(text: &mut PageSvg, row: &PageRow, top: usize) {
    text.open_words("head", 16, top);
    if row.top.is_empty() {
        text.put_word_count("No page of ", row.words);
        text.put(" is fetched");
        text.close_words();
        return;
    }
    text.put_word_count("Pages of ", row.words);
    text.put(" that are fetched most, by processor");
    text.close_words();
    put_map_legend(text, top);
    put_map_pages(text, row, top);
}
