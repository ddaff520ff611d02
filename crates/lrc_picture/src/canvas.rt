//! The text of a picture's file.
ghost use Rattle.std.specs.Prelude.{◌≡◌, ◌<◌, ◌≤◌, All, length, vec_len};
ghost use Rattle.causes.specs.declared.part.Part.{Part};
ghost use Rattle.lrc_picture.specs.Prelude.{IsCutout, IsPictureLayoutOf};

use crate::arrows::{Arrow, Way};
use crate::bars::Bar;
use crate::cutout::Cutout;
use crate::edges::put_picture_edges;
use crate::elements::{
    HALF_ROW, WordStyle, close_path_element, close_words_element, open_path_element,
    open_words_element, put_line_element, put_mark_element, put_words_element,
};
use crate::headline::{put_headline_title, put_styled_headline};
use crate::label::put_picture_label;
use crate::legend::{legend_height, put_legend};
use crate::looks::LOOKS;
use crate::marks::{Mark, MarkShape};
use crate::picture_grid::{PictureGrid, Point};
use crate::picture_layout::DiagramLayout;
use crate::story::PictureStory;
use crate::svg::Svg;
use crate::waiter_cross::{put_each_waiter_cross, put_waiter_cross_holders, waiter_cross_height};
use journal::Event;
use std::alloc::{AllocError, Global};

/// How wide a picture is at least, so that its legend fits.
const LEAST_WIDTH: usize = 440;

/// How far down the names of the processors stand, in pixels.
const NAMES: usize = 56;

/// How far right the numbers of the events end, in pixels.
const NUMBERS: usize = 56;

/// How far a bar reaches past the lines of the first and the last processor, in pixels.
const PAST: usize = 10;

/// How far left of a processor's line arrows come down to it, in pixels.
const CHANNEL: usize = 18;

/// How far left of a mark's middle the tip of an arrow to it is, in pixels.
const TIP: usize = 6;

/// The name of a mark that looks so.
fn canvas_mark_name(shape: MarkShape) -> &'static str {
    match shape {
        MarkShape::Disc => "disc",
        MarkShape::Ring => "ring",
        MarkShape::Dash => "dash",
        MarkShape::Frame => "frame",
        MarkShape::Block => "block",
        MarkShape::Wedge => "wedge",
    }
}

/// Puts what the file begins with: its size, its title, how all looks, and the ground.
fn put_canvas_opening(
    text: &mut Svg,
    width: usize,
    height: usize,
    story: &PictureStory<'_>,
    cutout: &Cutout,
) {
    text.put_number(
        "<svg xmlns=\"http://www.w3.org/2000/svg\" role=\"img\" width=\"",
        width,
    );
    text.put_number("\" height=\"", height);
    text.put_number("\" viewBox=\"0 0 ", width);
    text.put_number(" ", height);
    text.put("\">\n");
    put_headline_title(text, story, cutout);
    text.put(LOOKS);
    text.put("<rect class=\"page\" width=\"100%\" height=\"100%\"/>\n");
    put_styled_headline(text, story, cutout);
}

/// Puts a processor's line, and its name above, with this in front of its number.
fn put_lane_on_canvas(text: &mut Svg, front: &str, x: usize, end: usize, processor: usize) {
    open_words_element(text, WordStyle::Head, Point { x, y: NAMES });
    text.put_number(front, processor);
    close_words_element(text);
    let top = Point { x, y: NAMES + 8 };
    put_line_element(text, "lane", top, Point { x, y: end });
}

/// Puts the processors' lines, down to this row.
fn put_lanes_on_canvas(text: &mut Svg, grid: PictureGrid, row: usize, cutout: &Cutout)
    requires row { row ≤ grid.rows }
    requires lanes { vec_len cutout.now.lanes ≤ grid.lanes }
{
    let front = if grid.side == 0 { "processor " } else { "p" };
    for lane in 0..cutout.lanes.len() {
        put_lane_on_canvas(
            text,
            front,
            grid.lane_x(lane),
            grid.row_y(row),
            cutout.processor(lane),
        );
    }
}

/// Puts a bar, half a row below its row.
fn put_bar_on_canvas(text: &mut Svg, bar: Bar) {
    let y = bar.from.y.saturating_add(HALF_ROW);
    let from = Point {
        x: bar.from.x.saturating_sub(PAST),
        y,
    };
    let to = Point {
        x: bar.to.x.saturating_add(PAST),
        y,
    };
    put_line_element(text, "barrier", from, to);
}

/// Puts the bars.
fn put_bars_on_canvas(text: &mut Svg, bars: &[Bar]) {
    for bar in bars {
        put_bar_on_canvas(text, *bar);
    }
}

/// The class of an arrow that looks so.
fn canvas_arrow_class(way: Way) -> &'static str {
    match way {
        Way::Lock => "lock",
        Way::Flag => "flag",
    }
}

/// Puts an arrow: between two rows to the other processor's line, down to the left of it, and to the mark. So it touches no
/// other mark and no label.
fn put_arrow_on_canvas(text: &mut Svg, arrow: Arrow) {
    open_path_element(text, canvas_arrow_class(arrow.way), arrow.from);
    text.put_number("V", arrow.from.y.saturating_add(HALF_ROW));
    text.put_number("H", arrow.to.x.saturating_sub(CHANNEL));
    text.put_number("V", arrow.to.y);
    text.put_number("H", arrow.to.x.saturating_sub(TIP));
    close_path_element(text);
}

/// Puts the arrows.
fn put_arrows_on_canvas(text: &mut Svg, arrows: &[Arrow]) {
    for arrow in arrows {
        put_arrow_on_canvas(text, *arrow);
    }
}

/// Puts a race of the events at these points: a line between them, a frame round each, and a word.
fn put_race_on_canvas(text: &mut Svg, first: Point, second: Point) {
    put_line_element(text, "race", first, second);
    put_mark_element(text, "racing", "racing", first);
    put_mark_element(text, "racing", "racing", second);
    put_words_element(text, WordStyle::Race, second, "race");
}

/// Puts the first race, if both of its accesses are drawn.
fn put_first_race_on_canvas(text: &mut Svg, marks: &[Mark], race: Option<(usize, usize)>) {
    if let Some((first, second)) = race
        && let Some(from) = marks.get(first)
        && let Some(to) = marks.get(second)
    {
        put_race_on_canvas(text, from.at, to.at);
    }
}

/// Puts what hovering over an event tells: its number, its processor, what it did, and what is said of it.
fn put_told_on_canvas(text: &mut Svg, number: usize, event: Event, note: &str) {
    text.put_number("<title>event ", number);
    text.put_number(" (p", event.processor);
    text.put(": ");
    put_picture_label(text, event.kind);
    text.put(")");
    if !note.is_empty() {
        text.put("\n");
        text.put_escaped(note);
    }
    text.put("</title>\n");
}

/// Puts the number of an event, left of all lines.
fn put_event_number_on_canvas(text: &mut Svg, number: usize, y: usize) {
    open_words_element(text, WordStyle::Number, Point { x: NUMBERS, y });
    text.put_number("", number);
    close_words_element(text);
}

/// Puts the label of an event with this mark: in the column of labels behind its processor's name.
fn put_event_label_on_canvas(text: &mut Svg, grid: PictureGrid, mark: Mark, event: Event) {
    open_words_element(text, WordStyle::Label, grid.label_point(mark.at));
    if grid.side != 0 {
        text.put_number("p", event.processor);
        text.put(" ");
    }
    put_picture_label(text, event.kind);
    close_words_element(text);
}

/// Puts the event at this place of the run: its number, its mark and its label.
fn put_event_on_canvas(
    text: &mut Svg,
    grid: PictureGrid,
    story: &PictureStory<'_>,
    place: usize,
    mark: Mark,
    event: Event,
) {
    let number = story.number(place);
    text.put("<g>\n");
    put_told_on_canvas(text, number, event, story.note(place));
    put_event_number_on_canvas(text, number, mark.at.y);
    put_mark_element(text, "mark", canvas_mark_name(mark.shape), mark.at);
    if story.is_stale(place) {
        put_mark_element(text, "stale", "slash", mark.at);
    }
    if story.is_lie(place) {
        put_mark_element(text, "lie", "stop", mark.at);
    }
    put_event_label_on_canvas(text, grid, mark, event);
    text.put("</g>\n");
}

/// Puts the events.
fn put_events_on_canvas(
    text: &mut Svg,
    grid: PictureGrid,
    story: &PictureStory<'_>,
    cutout: &Cutout,
    marks: &[Mark],
)
    requires places { All (λ k. k < length story.now.events.now) cutout.now.places.items }
    requires marks { length marks.now ≡ vec_len cutout.now.places }
{
    for row in 0..cutout.places.len() {
        let place = cutout.places[row];
        put_event_on_canvas(text, grid, story, place, marks[row], story.events[place]);
    }
}

/// Puts what lies below the marks: the processors' lines, bars and arrows, edges, and the first race.
fn put_canvas_ground(
    text: &mut Svg,
    layout: &DiagramLayout,
    story: &PictureStory<'_>,
    cutout: &Cutout,
)
    requires { IsPictureLayoutOf (vec_len cutout.now.lanes) cutout.now.events.items layout.now }
{
    put_lanes_on_canvas(text, layout.grid, cutout.events.len(), cutout);
    put_bars_on_canvas(text, &layout.bars);
    put_picture_edges(text, story, cutout, &layout.marks);
    put_arrows_on_canvas(text, &layout.arrows);
    put_first_race_on_canvas(text, &layout.marks, cutout.race(story));
}

/// Puts what stands on the ground: events, and where the run can't go on who waits.
fn put_canvas_figures(
    text: &mut Svg,
    layout: &DiagramLayout,
    story: &PictureStory<'_>,
    cutout: &Cutout,
)
    requires layout { IsPictureLayoutOf (vec_len cutout.now.lanes) cutout.now.events.items layout.now }
    requires cutout { (part : Part) × IsCutout part story.now.processors story.now.events.now cutout.now }
{
    put_events_on_canvas(text, layout.grid, story, cutout, &layout.marks);
    if story.halted && cutout.has_end {
        put_each_waiter_cross(text, layout.grid, cutout.events.len(), story, cutout);
        put_waiter_cross_holders(text, layout.grid, cutout.events.len(), story, cutout);
    }
}

/// Below which height the legend stands.
fn canvas_legend_top(layout: &DiagramLayout, story: &PictureStory<'_>, cutout: &Cutout) -> usize {
    layout
        .grid
        .height()
        .saturating_add(waiter_cross_height(layout.grid, story, cutout))
}

/// Puts the picture of what is drawn of this story.
pub fn put_picture_on_canvas(
    text: &mut Svg,
    layout: &DiagramLayout,
    story: &PictureStory<'_>,
    cutout: &Cutout,
)
    requires layout { IsPictureLayoutOf (vec_len cutout.now.lanes) cutout.now.events.items layout.now }
    requires cutout { (part : Part) × IsCutout part story.now.processors story.now.events.now cutout.now }
{
    let top = canvas_legend_top(layout, story, cutout);
    let height = top
        .saturating_add(legend_height(layout, story, cutout))
        .saturating_add(2 * HALF_ROW);
    let width = layout.grid.width().max(LEAST_WIDTH);
    put_canvas_opening(text, width, height, story, cutout);
    put_canvas_ground(text, layout, story, cutout);
    put_canvas_figures(text, layout, story, cutout);
    put_legend(text, layout, story, cutout, top);
    text.put("</svg>\n");
}

/// The text of the picture of what is drawn of this story. The only error is running out of memory.
pub fn canvas_text_of(
    alloc: Global,
    layout: &DiagramLayout,
    story: &PictureStory<'_>,
    cutout: &Cutout,
) -> Result<String, AllocError>
    requires layout { IsPictureLayoutOf (vec_len cutout.now.lanes) cutout.now.events.items layout.now }
    requires cutout { (part : Part) × IsCutout part story.now.processors story.now.events.now cutout.now }
{
    let mut text = Svg::new(alloc);
    put_picture_on_canvas(&mut text, layout, story, cutout);
    text.finish()
}
