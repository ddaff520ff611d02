//! The edges of a picture: from each store to the loads that answer it.

use crate::cutout::Cutout;
use crate::elements::{close_path_element, open_path_element};
use crate::marks::Mark;
use crate::picture_grid::Point;
use crate::story::PictureStory;
use crate::svg::Svg;

/// How far to the left an edge along one processor's line bends, in pixels, twice over.
const BEND: usize = 32;

/// Puts how an edge goes on to this point: straight, but along one processor's line in a bow to its left.
fn put_picture_edge_end(text: &mut Svg, from: Point, to: Point) {
    if from.x == to.x {
        text.put_number("Q", from.x.saturating_sub(BEND));
        text.put_number(" ", from.y.saturating_add(to.y) / 2);
        text.put_number(" ", to.x);
    } else {
        text.put_number("L", to.x);
    }
    text.put_number(" ", to.y);
}

/// Puts an edge between these points as a path of this class.
fn put_picture_edge_path(text: &mut Svg, class: &str, from: Point, to: Point) {
    open_path_element(text, class, from);
    put_picture_edge_end(text, from, to);
    close_path_element(text);
}

/// Puts the edge to the load of this number at this point from the store: thin, and where one points near to it strong.
fn put_picture_edge(text: &mut Svg, load: usize, at: Point, store: usize, from: Point) {
    text.put_number("<g class=\"reads\"><title>event ", load);
    text.put_number(" answers event ", store);
    text.put("</title>\n");
    put_picture_edge_path(text, "edge", from, at);
    put_picture_edge_path(text, "near", from, at);
    text.put("</g>\n");
}

/// The point of the mark of the event at this place, where it is drawn.
fn picture_edge_point_at(cutout: &Cutout, marks: &[Mark], place: usize) -> Option<Point> {
    match marks.get(cutout.row(place)?) {
        Some(mark) => Some(mark.at),
        None => None,
    }
}

/// Puts an edge to the load at this place from the store that it answers, if both are drawn.
fn put_picture_edge_of_read(
    text: &mut Svg,
    story: &PictureStory<'_>,
    cutout: &Cutout,
    marks: &[Mark],
    place: usize,
    store: usize,
) {
    if let Some(to) = picture_edge_point_at(cutout, marks, place)
        && let Some(from) = picture_edge_point_at(cutout, marks, store)
    {
        put_picture_edge(text, story.number(place), to, story.number(store), from);
    }
}

/// Puts an edge to each load from the store that it answers.
pub fn put_picture_edges(
    text: &mut Svg,
    story: &PictureStory<'_>,
    cutout: &Cutout,
    marks: &[Mark],
) {
    for (place, read) in story.details.reads.iter().enumerate() {
        if let Some(store) = read {
            put_picture_edge_of_read(text, story, cutout, marks, place, *store);
        }
    }
}
