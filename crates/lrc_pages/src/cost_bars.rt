//! The bars of a picture of pages: messages and words by page size. Nothing is proved of it beyond that it is safe.

use crate::eager_pages::EagerTraffic;
use crate::page_row::PageRow;
use crate::page_svg::{Area, PageSvg};

/// Where the bars of messages begin, and how far they reach, in pixels.
const MESSAGES: (usize, usize) = (132, 350);

/// Where the bars of words begin, and how far they reach.
const WORDS: (usize, usize) = (600, 200);

/// How far down the first bar begins, from the top of all bars.
const FIRST: usize = 14;

/// How high a bar is.
const HEIGHT: usize = 20;

/// From a bar to the bar of the same size below it.
const STEP: usize = 23;

/// What is left free after the bars of a size.
const GAP: usize = 10;

/// How high the legend is.
const LEGEND: usize = 30;

/// How wide a sign is.
const SIGN: usize = 8;

/// A part of a bar: what it stands for, which is also how it looks, and how many there are.
#[derive(Clone, Copy)]
struct BarPart {
    class: &'static str,
    name: &'static str,
    count: u64,
}

/// A bar: what it tells of pages of which size, and where it is.
#[derive(Clone, Copy)]
struct CostBar {
    page_words: usize,
    is_eager: bool,
    unit: &'static str,
    x: usize,
    y: usize,
    /// How far a bar reaches that has this count.
    reach: usize,
    most: u64,
}

/// The part that looks as it is called.
fn bar_part_of(name: &'static str, count: u64) -> BarPart {
    BarPart {
        class: name,
        name,
        count,
    }
}

/// The messages of a row, by what they are for.
fn message_bar_parts(row: &PageRow) -> [BarPart; 4] {
    [
        bar_part_of("locks", row.traffic.locks),
        bar_part_of("flags", row.traffic.flags),
        bar_part_of("barrier", row.traffic.barriers),
        bar_part_of("fetch", row.traffic.answers),
    ]
}

/// The messages of eager release consistency, by what they are for.
fn eager_message_bar_parts(eager: &EagerTraffic) -> [BarPart; 5] {
    [
        bar_part_of("locks", eager.locks),
        bar_part_of("flags", eager.flags),
        bar_part_of("barrier", eager.barriers),
        bar_part_of("notices", eager.notices),
        bar_part_of("fetch", eager.answers),
    ]
}

/// The words that the fetches of a row bring: those of useful fetches, and of useless ones.
fn word_bar_parts(row: &PageRow) -> [BarPart; 2] {
    [
        bar_part_of(
            "useful",
            row.traffic.words.saturating_sub(row.useless_words),
        ),
        bar_part_of("useless", row.useless_words),
    ]
}

/// The words that fetches bring under eager release consistency.
fn eager_word_bar_parts(eager: &EagerTraffic) -> [BarPart; 1] {
    [BarPart {
        class: "whole",
        name: "whole pages",
        count: eager.words,
    }]
}

/// The most messages that a bar tells of.
fn most_messages_of_bars(rows: &[PageRow]) -> u64 {
    let mut most = 0;
    for row in rows {
        most = row.messages.max(most);
        if let Some(eager) = &row.eager {
            most = eager.messages().max(most);
        }
    }
    most
}

/// The most words that a bar tells of.
fn most_words_of_bars(rows: &[PageRow]) -> u64 {
    let mut most = 0;
    for row in rows {
        most = row.traffic.words.max(most);
        if let Some(eager) = &row.eager {
            most = eager.words.max(most);
        }
    }
    most
}

/// How many signs the number has.
fn bar_signs_of(number: u64) -> usize {
    let mut rest = number / 10;
    let mut signs: usize = 1;
    for _ in 0..19 {
        if rest == 0 {
            break;
        }
        rest /= 10;
        signs = signs.saturating_add(1);
    }
    signs
}

impl CostBar {
    /// How far right so many reach.
    fn end(self, count: u64) -> usize {
        let reach = count
            .saturating_mul(self.reach as u64)
            .checked_div(self.most);
        let reach = usize::try_from(reach.unwrap_or(0)).unwrap_or(self.reach);
        self.x.saturating_add(reach)
    }

    /// The middle of its height.
    fn middle(self) -> usize {
        self.y.saturating_add(HEIGHT / 2)
    }

    /// Puts what hovering over a part tells.
    fn put_title(self, text: &mut PageSvg, part: BarPart) {
        text.put_number("<title>page words ", self.page_words);
        text.put(if self.is_eager { ", eager, " } else { ", " });
        text.put(self.unit);
        text.put(", ");
        text.put(part.name);
        text.put_number(": ", part.count);
        text.put("</title>\n");
    }

    /// Puts a part from here to there, with its number if there is room for it.
    fn put_part(self, text: &mut PageSvg, part: BarPart, from: usize, to: usize) {
        let width = to.saturating_sub(from);
        let area = Area {
            x: from,
            y: self.y,
            width,
            height: HEIGHT,
        };
        text.put("<g>\n");
        self.put_title(text, part);
        text.put_area(part.class, area);
        if width > bar_signs_of(part.count).saturating_mul(SIGN) {
            let x = from.saturating_add(width / 2);
            text.put_number_words("part", x, self.middle(), part.count);
        }
        text.put("</g>\n");
    }

    /// Puts the bar of these parts, and their sum at its end.
    fn put(self, text: &mut PageSvg, parts: &[BarPart]) {
        let mut x = self.x;
        let mut sum: u64 = 0;
        for part in parts {
            if part.count > 0 {
                sum = sum.saturating_add(part.count);
                let to = self.end(sum).max(x.saturating_add(1));
                self.put_part(text, *part, x, to);
                x = to;
            }
        }
        text.put_number_words("head", x.saturating_add(6), self.middle(), sum);
    }
}

/// Where the bars of a picture are, and what the longest ones tell.
#[derive(Clone, Copy)]
struct BarGround {
    messages: u64,
    words: u64,
    is_eager: bool,
}

impl BarGround {
    /// That of these rows.
    fn of(rows: &[PageRow], is_eager: bool) -> BarGround {
        BarGround {
            messages: most_messages_of_bars(rows),
            words: most_words_of_bars(rows),
            is_eager,
        }
    }

    /// From the first bar of a size to that of the next one.
    fn pitch(self) -> usize {
        if self.is_eager {
            2 * STEP + GAP
        } else {
            STEP + GAP
        }
    }

    /// A bar of messages at this height.
    fn messages(self, page_words: usize, y: usize) -> CostBar {
        CostBar {
            page_words,
            is_eager: false,
            unit: "messages",
            x: MESSAGES.0,
            y,
            reach: MESSAGES.1,
            most: self.messages,
        }
    }

    /// A bar of words at this height.
    fn words(self, page_words: usize, y: usize) -> CostBar {
        CostBar {
            unit: "words",
            x: WORDS.0,
            reach: WORDS.1,
            most: self.words,
            ..self.messages(page_words, y)
        }
    }

    /// Puts the bars of eager release consistency at this height.
    fn put_eager(self, text: &mut PageSvg, page_words: usize, eager: &EagerTraffic, y: usize) {
        let messages = CostBar {
            is_eager: true,
            ..self.messages(page_words, y)
        };
        let words = CostBar {
            is_eager: true,
            ..self.words(page_words, y)
        };
        text.put_words("end", MESSAGES.0 - 10, messages.middle(), "eager");
        messages.put(text, &eager_message_bar_parts(eager));
        words.put(text, &eager_word_bar_parts(eager));
    }

    /// Puts the bars of a row at this height.
    fn put_row(self, text: &mut PageSvg, row: &PageRow, y: usize) {
        let messages = self.messages(row.words, y);
        text.open_words("end", MESSAGES.0 - 10, messages.middle());
        text.put_word_count("", row.words);
        text.close_words();
        messages.put(text, &message_bar_parts(row));
        self.words(row.words, y).put(text, &word_bar_parts(row));
        if let Some(eager) = &row.eager {
            self.put_eager(text, row.words, eager, y.saturating_add(STEP));
        }
    }

    /// Puts what the parts of bars mean, at this height.
    fn put_legend(self, text: &mut PageSvg, y: usize) {
        let x = MESSAGES.0;
        text.put_swatch("locks", x, y, "locks");
        text.put_swatch("flags", x + 84, y, "flags");
        text.put_swatch("barrier", x + 168, y, "barrier");
        text.put_swatch("fetch", x + 268, y, "fetch");
        text.put_swatch("useful", WORDS.0, y, "useful");
        text.put_swatch("useless", WORDS.0 + 80, y, "useless");
        if self.is_eager {
            text.put_swatch("notices", x + 352, y, "notices");
            text.put_swatch("whole", WORDS.0 + 170, y, "whole pages");
        }
    }
}

/// How high the bars of so many rows are, with their legend.
pub(crate) fn cost_bars_height(rows: usize, is_eager: bool) -> usize {
    let ground = BarGround::of(&[], is_eager);
    rows.saturating_mul(ground.pitch())
        .saturating_add(FIRST + LEGEND)
}

/// Puts the bars of these rows below this height.
pub(crate) fn put_cost_bars(text: &mut PageSvg, rows: &[PageRow], is_eager: bool, top: usize) {
    let ground = BarGround::of(rows, is_eager);
    let mut y = top.saturating_add(FIRST);
    text.put_words("end faint", MESSAGES.0 - 10, top, "a page");
    text.put_words("head", MESSAGES.0, top, "messages");
    text.put_words("head", WORDS.0, top, "words that fetches bring");
    for row in rows {
        ground.put_row(text, row, y);
        y = y.saturating_add(ground.pitch());
    }
    ground.put_legend(text, y.saturating_add(8));
}
