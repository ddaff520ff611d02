//! The legend of a picture: it explains the signs that occur there, and no others.

use crate::arrows::Way;
use crate::cutout::Cutout;
use crate::elements::{WordStyle, put_line_element, put_mark_element, put_words_element};
use crate::marks::MarkShape;
use crate::picture_grid::Point;
use crate::picture_layout::DiagramLayout;
use crate::story::PictureStory;
use crate::svg::Svg;
use crate::waiter_cross::waiter_cross_holder_count;

/// From a row of the legend to the next, in pixels.
const ROW: usize = 24;

/// Where the middle of the signs is.
const LEFT: usize = 48;

/// How far a sign that is a line reaches to each side of its middle.
const REACH: usize = 18;

/// A sign of a picture.
#[derive(Clone, Copy)]
enum Sign {
    Store,
    Load,
    Stale,
    Fetch,
    LetsOn,
    BeginsToWait,
    GoesOn,
    Reads,
    Lock,
    Flag,
    Barrier,
    Race,
    Lie,
    Waits,
    Holder,
}

/// All signs, in the legend's order.
const SIGNS: [Sign; 15] = [
    Sign::Store,
    Sign::Load,
    Sign::Stale,
    Sign::Fetch,
    Sign::LetsOn,
    Sign::BeginsToWait,
    Sign::GoesOn,
    Sign::Reads,
    Sign::Lock,
    Sign::Flag,
    Sign::Barrier,
    Sign::Race,
    Sign::Lie,
    Sign::Waits,
    Sign::Holder,
];

/// What the legend says of a sign.
fn legend_meaning(sign: Sign) -> &'static str {
    match sign {
        Sign::Store => "store ADDRESS &lt;- WORD",
        Sign::Load => "load ADDRESS -> WORD",
        Sign::Stale => "stale: it misses a store before it",
        Sign::Fetch => "fetch PAGE (writers, records, words)",
        Sign::LetsOn => "lets others on: release, set, arrive",
        Sign::BeginsToWait => "begins to wait: ask, watch",
        Sign::GoesOn => "goes on: acquire, await, depart",
        Sign::Reads => "from a store to a load of its word",
        Sign::Lock => "a release hands on news by a lock",
        Sign::Flag => "a set hands on news by a flag",
        Sign::Barrier => "barrier: all have arrived",
        Sign::Race => "race: nothing orders the two",
        Sign::Lie => "lie: no such memory does this",
        Sign::Waits => "waits, and nothing comes",
        Sign::Holder => "who could let it go on",
    }
}

/// Whether a mark of this shape occurs.
fn legend_has_mark(layout: &DiagramLayout, shape: MarkShape) -> bool {
    for mark in &layout.marks {
        if mark.shape == shape {
            return true;
        }
    }
    false
}

/// Whether an arrow that looks so occurs.
fn legend_has_arrow(layout: &DiagramLayout, way: Way) -> bool {
    for arrow in &layout.arrows {
        if arrow.way == way {
            return true;
        }
    }
    false
}

/// Whether some load that is drawn is stale.
fn legend_has_stale(story: &PictureStory<'_>, cutout: &Cutout) -> bool {
    for place in &cutout.places {
        if story.is_stale(*place) {
            return true;
        }
    }
    false
}

/// Whether the trace's lie is drawn.
fn legend_has_lie(story: &PictureStory<'_>, cutout: &Cutout) -> bool {
    match cutout.places.last() {
        Some(place) => story.is_lie(*place),
        None => false,
    }
}

/// Whether some load that is drawn answers a store that is.
fn legend_has_reads(story: &PictureStory<'_>, cutout: &Cutout) -> bool {
    for place in &cutout.places {
        if let Some(store) = story.read(*place)
            && cutout.row(store).is_some()
        {
            return true;
        }
    }
    false
}

/// Whether the sign occurs.
fn occurs_in_legend(
    sign: Sign,
    layout: &DiagramLayout,
    story: &PictureStory<'_>,
    cutout: &Cutout,
) -> bool {
    match sign {
        Sign::Store => legend_has_mark(layout, MarkShape::Disc),
        Sign::Load => legend_has_mark(layout, MarkShape::Ring),
        Sign::Stale => legend_has_stale(story, cutout),
        Sign::Fetch => legend_has_mark(layout, MarkShape::Dash),
        Sign::LetsOn => legend_has_mark(layout, MarkShape::Block),
        Sign::BeginsToWait => legend_has_mark(layout, MarkShape::Frame),
        Sign::GoesOn => legend_has_mark(layout, MarkShape::Wedge),
        Sign::Reads => legend_has_reads(story, cutout),
        Sign::Lock => legend_has_arrow(layout, Way::Lock),
        Sign::Flag => legend_has_arrow(layout, Way::Flag),
        Sign::Barrier => !layout.bars.is_empty(),
        Sign::Race => cutout.race(story).is_some(),
        Sign::Lie => legend_has_lie(story, cutout),
        Sign::Waits => story.halted && cutout.has_end,
        Sign::Holder => waiter_cross_holder_count(story, cutout) > 0,
    }
}

/// Puts a sign that is a mark.
fn put_legend_sign_mark(text: &mut Svg, name: &str, y: usize) {
    put_mark_element(text, "sign", name, Point { x: LEFT, y });
}

/// Puts a sign that is a line of this class.
fn put_legend_sign_line(text: &mut Svg, class: &str, y: usize) {
    let from = Point { x: LEFT - REACH, y };
    put_line_element(text, class, from, Point { x: LEFT + REACH, y });
}

/// Puts a sign at this height.
fn put_legend_sign(text: &mut Svg, sign: Sign, y: usize) {
    match sign {
        Sign::Store => put_legend_sign_mark(text, "disc", y),
        Sign::Load => put_legend_sign_mark(text, "ring", y),
        Sign::Stale => {
            put_legend_sign_mark(text, "ring", y);
            put_legend_sign_mark(text, "slash", y);
        }
        Sign::Fetch => put_legend_sign_mark(text, "dash", y),
        Sign::LetsOn => put_legend_sign_mark(text, "block", y),
        Sign::BeginsToWait => put_legend_sign_mark(text, "frame", y),
        Sign::GoesOn => put_legend_sign_mark(text, "wedge", y),
        Sign::Reads => put_legend_sign_line(text, "edge", y),
        Sign::Lock => put_legend_sign_line(text, "lock", y),
        Sign::Flag => put_legend_sign_line(text, "flag", y),
        Sign::Barrier => put_legend_sign_line(text, "barrier", y),
        Sign::Race => put_legend_sign_line(text, "race", y),
        Sign::Lie | Sign::Waits => put_legend_sign_mark(text, "stop", y),
        Sign::Holder => put_legend_sign_line(text, "holder", y),
    }
}

/// How high the legend is.
pub fn legend_height(layout: &DiagramLayout, story: &PictureStory<'_>, cutout: &Cutout) -> usize {
    let mut height: usize = 0;
    for sign in &SIGNS {
        if occurs_in_legend(*sign, layout, story, cutout) {
            height = height.saturating_add(ROW);
        }
    }
    height
}

/// Puts the legend below this height: each sign that occurs, and what it means.
pub fn put_legend(
    text: &mut Svg,
    layout: &DiagramLayout,
    story: &PictureStory<'_>,
    cutout: &Cutout,
    top: usize,
) {
    let mut y = top;
    text.put("<g class=\"legend\">\n");
    for sign in &SIGNS {
        if occurs_in_legend(*sign, layout, story, cutout) {
            y = y.saturating_add(ROW);
            put_legend_sign(text, *sign, y);
            put_words_element(
                text,
                WordStyle::Label,
                Point { x: LEFT + REACH, y },
                legend_meaning(*sign),
            );
        }
    }
    text.put("</g>\n");
}
