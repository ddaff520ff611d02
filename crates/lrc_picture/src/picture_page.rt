//! Writes the page of a run: its picture, and its state after any of its events, in one HTML file that wants no other.
ghost use Rattle.std.specs.Prelude.{◌≡◌, Err};
ghost use Rattle.causes.specs.declared.part.Part.{Part};
ghost use Rattle.lrc_picture.specs.Prelude.{HasPictureLayout, IsCutout};

use crate::canvas::put_picture_on_canvas;
use crate::changes::{RunChanges, do_changes_tell_copies, sizes_in_changes};
use crate::cutout::{Cutout, cutout_of, cutout_part_from};
use crate::headline::put_headline;
use crate::page_looks::{PAGE_LOOKS, PAGE_SCRIPT};
use crate::panel::{StartMemory, put_panel};
use crate::picture::{PictureFault, write_picture};
use crate::step_entries::put_step_entries;
use crate::story::PictureStory;
use crate::svg::Svg;
use causes::Part;
use judge::History;
use std::alloc::{AllocError, Global};
use std::io::Write;

/// What a page tells of a run's state.
#[derive(Clone, Copy)]
pub struct PicturePageState<'a> {
    /// The run's history, with what stands for events that were cut off.
    pub history: &'a History<'a>,
    /// The words of the memory before the first event.
    pub words: &'a [u32],
    /// What each event of the history changes.
    pub changes: &'a RunChanges,
}

impl<'a> PicturePageState<'a> {
    /// The memory before the first event.
    fn start(&self) -> StartMemory<'a> {
        let sizes = self.history.sizes();
        StartMemory {
            sizes: sizes_in_changes(sizes),
            has_times: do_changes_tell_copies(sizes),
            words: self.words,
            is_cut: self.history.cut_events() > 0,
        }
    }
}

/// Puts what the file begins with.
fn put_picture_page_top(text: &mut Svg, story: &PictureStory<'_>, cutout: &Cutout) {
    text.put("<!DOCTYPE html>\n<html lang=\"en\">\n<head>\n<meta charset=\"utf-8\">\n");
    text.put("<meta name=\"viewport\" content=\"width=device-width\">\n<title>");
    put_headline(text, story, cutout);
    text.put("</title>\n");
    text.put(PAGE_LOOKS);
    text.put("</head>\n<body>\n<main>\n<div id=\"picture\">\n");
}

/// Puts between which numbers one steps: from before the part's first event to behind its last one.
fn put_picture_page_range(text: &mut Svg, story: &PictureStory<'_>, cutout: &Cutout) {
    let first = cutout.places.first().copied().unwrap_or(0);
    let end = match cutout.places.last() {
        Some(last) => last.saturating_add(1),
        None => 0,
    };
    text.put_number(" min=\"", story.number(first));
    text.put_number("\" max=\"", story.number(end));
    text.put_number("\" value=\"", story.number(first));
    text.put("\"");
}

/// Puts what one steps with.
fn put_picture_page_controls(text: &mut Svg, story: &PictureStory<'_>, cutout: &Cutout) {
    text.put("</div>\n<div id=\"state\">\n<div id=\"controls\">\n");
    text.put("<input type=\"range\" id=\"at\" aria-label=\"after how many events\"");
    put_picture_page_range(text, story, cutout);
    text.put(
        ">\n<p id=\"keys\">arrow keys: an event on or back; Page Up, Page Down: ten; Home, End</p>\n",
    );
    text.put("<output id=\"told\" for=\"at\">before the first event</output>\n");
    text.put(
        "<noscript><p>Stepping wants a script: this is the state before the first event.</p></noscript>\n</div>\n",
    );
}

/// Puts what the events change, and the script that shows it.
fn put_picture_page_end(text: &mut Svg, story: &PictureStory<'_>, state: &PicturePageState<'_>) {
    text.put("</div>\n</main>\n<script type=\"application/json\" id=\"steps\"");
    text.put_number(" data-first=\"", story.number(0));
    text.put_number("\" data-opening=\"", state.history.opening());
    text.put("\">");
    put_step_entries(
        text,
        state.history.events(),
        state.changes,
        state.history.sizes().processors,
    );
    text.put("</script>\n");
    text.put(PAGE_SCRIPT);
    text.put("</body>\n</html>\n");
}

/// The text of the page of what is drawn of the story. The only error is running out of memory.
fn picture_page_text_of(
    alloc: Global,
    story: &PictureStory<'_>,
    state: &PicturePageState<'_>,
    cutout: &Cutout,
) -> Result<String, AllocError>
    requires { (part : Part) × IsCutout part story.now.processors story.now.events.now cutout.now }
{
    let layout = cutout.picture_layout_of(alloc)?;
    let mut text = Svg::new(alloc);
    put_picture_page_top(&mut text, story, cutout);
    put_picture_on_canvas(&mut text, &layout, story, cutout);
    drop(layout);
    put_picture_page_controls(&mut text, story, cutout);
    put_panel(&mut text, alloc, state.start(), cutout, story.events)?;
    put_picture_page_end(&mut text, story, state);
    text.finish()
}

/// The text of the page of this part of the story. The only error is running out of memory.
fn picture_page_of(
    alloc: Global,
    story: &PictureStory<'_>,
    part: &Part,
    state: &PicturePageState<'_>,
) -> Result<String, AllocError>
    requires { HasPictureLayout story.now.processors story.now.events.now story.now.incoming.now }
{
    let part = cutout_part_from(part, story.number(0));
    let cutout = cutout_of(alloc, story, &part)?;
    let text = picture_page_text_of(alloc, story, state, &cutout);
    drop(cutout);
    text
}

/// Writes the page of this part of the story as an HTML file, and flushes the writer. It has the picture, and below or beside
/// it the state of the processors that are drawn, after any of the part's events: it is stepped through by keys or a slider.
/// The text is made whole first and then written; after `NoMemory` nothing was written, after `Output` a beginning of it.
///
/// It takes time and memory in the order of the events, of the places that let them through, and of what they change.
pub fn render_picture_page<W: Write>(
    alloc: Global,
    story: &PictureStory<'_>,
    part: &Part,
    state: &PicturePageState<'_>,
    out: &mut W,
) -> Result<(), PictureFault>
    requires drawn { HasPictureLayout story.now.processors story.now.events.now story.now.incoming.now }
    ensures no_memory { result ≡ Err PictureFault.NoMemory → W.contents out.new ≡ W.contents out.old }
{
    let Ok(text) = picture_page_of(alloc, story, part, state) else {
        return Err(PictureFault::NoMemory);
    };
    write_picture(text.as_str(), out)
}
