//! Those of a picture that wait, where the run can't go on: a cross for each, for what it waits, and an arrow to who could
//! let it go on.
ghost use Rattle.std.specs.Prelude.{◌≤◌, vec_len};

use crate::cutout::Cutout;
use crate::elements::{
    HALF_ROW, WordStyle, close_path_element, close_words_element, open_path_element,
    open_words_element, put_mark_element,
};
use crate::picture_grid::{PictureGrid, Point};
use crate::story::PictureStory;
use crate::svg::Svg;
use journal::Kind;

/// How far right of a cross an arrow leaves it, and how far left of it another one comes, in pixels.
const ASIDE: usize = 4;

/// How far below a cross arrows leave it and come to it, in pixels.
const BELOW: usize = 9;

/// From a line of words to the next, in pixels.
const LINE: usize = 16;

/// A processor that waits.
#[derive(Clone, Copy)]
struct Waiter<'a> {
    processor: usize,
    /// For what, in words.
    hint: &'a str,
    /// Its last event.
    last: Option<Kind>,
}

/// Puts for what a processor waits whose last event is of this kind, shortly.
fn put_waiter_cross_words(text: &mut Svg, last: Option<Kind>) {
    match last {
        Some(Kind::Ask(lock)) => text.put_number("waits: lock ", lock),
        Some(Kind::Watch(flag)) => text.put_number("waits: flag ", flag),
        Some(Kind::Arrive) => text.put("waits: barrier"),
        _ => text.put("waits"),
    }
}

/// Puts the cross of a processor that waits at this point, and there for what.
fn put_waiter_cross(
    text: &mut Svg,
    grid: PictureGrid,
    at: Point,
    words_at: Point,
    waiter: Waiter<'_>,
) {
    text.put_number("<g>\n<title>p", waiter.processor);
    text.put(" ");
    text.put_escaped(waiter.hint);
    text.put("</title>\n");
    put_mark_element(text, "waiting", "stop", at);
    open_words_element(text, WordStyle::Label, words_at);
    if grid.side != 0 {
        text.put_number("p", waiter.processor);
        text.put(" ");
    }
    put_waiter_cross_words(text, waiter.last);
    close_words_element(text);
    text.put("</g>\n");
}

/// Puts a cross for each processor that waits, in this row. In the column of labels their words stand below each other.
pub fn put_each_waiter_cross(
    text: &mut Svg,
    grid: PictureGrid,
    row: usize,
    story: &PictureStory<'_>,
    cutout: &Cutout,
)
    requires row { row ≤ grid.rows }
    requires lanes { vec_len cutout.now.lanes ≤ grid.lanes }
{
    let mut below: usize = 0;
    for lane in 0..cutout.lanes.len() {
        let processor = cutout.processor(lane);
        if let Some(hint) = story.wait(processor) {
            let at = grid.point(lane, row);
            let mut words_at = grid.label_point(at);
            if grid.side != 0 {
                words_at.y = words_at.y.saturating_add(below);
            }
            below = below.saturating_add(LINE);
            let waiter = Waiter {
                processor,
                hint,
                last: story.last(processor),
            };
            put_waiter_cross(text, grid, at, words_at, waiter);
        }
    }
}

/// How many arrows there are.
pub fn waiter_cross_holder_count(story: &PictureStory<'_>, cutout: &Cutout) -> usize {
    let mut count: usize = 0;
    for lane in 0..cutout.lanes.len() {
        if cutout.holder(story, lane).is_some() {
            count = count.saturating_add(1);
        }
    }
    count
}

/// How much is below the crosses, in pixels: the arrows between them, and in the column of labels what is said of them.
pub fn waiter_cross_height(grid: PictureGrid, story: &PictureStory<'_>, cutout: &Cutout) -> usize {
    let arrows = waiter_cross_holder_count(story, cutout).saturating_mul(HALF_ROW);
    if story.halted && cutout.has_end && grid.side != 0 {
        return arrows.max(grid.lanes.saturating_mul(LINE));
    }
    arrows
}

/// Puts an arrow from one cross to another, so far below them.
fn put_waiter_cross_holder(text: &mut Svg, from: Point, to: Point, below: usize) {
    let start = Point {
        x: from.x.saturating_add(ASIDE),
        y: from.y.saturating_add(BELOW),
    };
    open_path_element(text, "holder", start);
    text.put_number("V", from.y.saturating_add(below));
    text.put_number("H", to.x.saturating_sub(ASIDE));
    text.put_number("V", to.y.saturating_add(BELOW));
    close_path_element(text);
}

/// Puts the arrows between the crosses of this row, each at a depth of its own.
pub fn put_waiter_cross_holders(
    text: &mut Svg,
    grid: PictureGrid,
    row: usize,
    story: &PictureStory<'_>,
    cutout: &Cutout,
)
    requires row { row ≤ grid.rows }
    requires lanes { vec_len cutout.now.lanes ≤ grid.lanes }
{
    let mut below = HALF_ROW;
    for lane in 0..cutout.lanes.len() {
        if let Some(to) = cutout.holder(story, lane) {
            below = below.saturating_add(HALF_ROW);
            put_waiter_cross_holder(text, grid.point(lane, row), grid.point(to, row), below);
        }
    }
}
