//! What stands at the head of a picture: the file's name, and the verdict.

use crate::cutout::Cutout;
use crate::elements::{WordStyle, close_words_element, open_words_element};
use crate::picture_grid::Point;
use crate::story::{PictureStory, Subject};
use crate::svg::Svg;

/// Where the head stands.
const AT: Point = Point { x: 16, y: 24 };

/// Puts how many there are: the words for one, or for any other number.
fn put_headline_count(text: &mut Svg, count: usize, one: &str, many: &str) {
    text.put_number("", count);
    text.put(if count == 1 { one } else { many });
}

/// What it is called.
fn headline_subject_name(subject: Subject) -> &'static str {
    match subject {
        Subject::Run => "run",
        Subject::FaithfulTrace | Subject::LyingTrace => "trace",
    }
}

/// Whether all of the run is drawn.
fn headline_is_of_whole(story: &PictureStory<'_>, cutout: &Cutout) -> bool {
    cutout.lanes.len() == story.processors && cutout.places.len() == story.events.len()
}

/// Puts the title of the file: what the picture is of.
pub fn put_headline_title(text: &mut Svg, story: &PictureStory<'_>, cutout: &Cutout) {
    text.put(if headline_is_of_whole(story, cutout) {
        "<title>A "
    } else {
        "<title>Part of a "
    });
    text.put(headline_subject_name(story.subject));
    text.put(" of ");
    put_headline_count(
        text,
        story.processors,
        " processor and ",
        " processors and ",
    );
    put_headline_count(text, story.events.len(), " event, ", " events, ");
    text.put(match story.race {
        Some(_) => "with a race",
        None => "without a race",
    });
    text.put(match (story.subject, story.halted) {
        (Subject::LyingTrace, _) => ", that ends with a lie</title>\n",
        (_, true) => ", that can't go on</title>\n",
        (_, false) => "</title>\n",
    });
}

/// Puts the name of the file at this path, and a colon. Standard input has none: its path is `-`.
fn put_headline_name(text: &mut Svg, path: &str) {
    if path == "-" {
        return;
    }
    let mut name = path.as_bytes();
    for part in path.as_bytes().split(|byte| *byte == b'/') {
        name = part;
    }
    text.put_escaped(str::from_utf8(name).unwrap_or(""));
    text.put(": ");
}

/// What a run came to.
fn headline_run_verdict(is_racy: bool, halted: bool) -> &'static str {
    match (is_racy, halted) {
        (true, false) => "racy",
        (false, false) => "race-free",
        (true, true) => "racy, and can't go on",
        (false, true) => "can't go on",
    }
}

/// What a trace was found to be.
fn headline_trace_verdict(is_racy: bool, is_faithful: bool) -> &'static str {
    match (is_racy, is_faithful) {
        (true, true) => "racy, faithful",
        (false, true) => "race-free, faithful",
        (true, false) => "racy, unfaithful",
        (false, false) => "unfaithful",
    }
}

/// What it came to.
fn verdict(story: &PictureStory<'_>) -> &'static str {
    let is_racy = story.race.is_some();
    match story.subject {
        Subject::Run => headline_run_verdict(is_racy, story.halted),
        Subject::FaithfulTrace => headline_trace_verdict(is_racy, true),
        Subject::LyingTrace => headline_trace_verdict(is_racy, false),
    }
}

/// Puts the headline: the file's name, where it has one, the verdict, and whether only a part is drawn.
pub fn put_headline(text: &mut Svg, story: &PictureStory<'_>, cutout: &Cutout) {
    if let Some(path) = story.name {
        put_headline_name(text, path);
    }
    text.put(verdict(story));
    if !headline_is_of_whole(story, cutout) {
        text.put(" (part of the ");
        text.put(headline_subject_name(story.subject));
        text.put(")");
    }
}

/// Puts the head of the picture: its headline.
pub fn put_styled_headline(text: &mut Svg, story: &PictureStory<'_>, cutout: &Cutout) {
    open_words_element(text, WordStyle::Title, AT);
    put_headline(text, story, cutout);
    close_words_element(text);
}
