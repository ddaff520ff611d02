//! Writes a run's picture.
ghost use Rattle.std.specs.Prelude.{◌≡◌, ◌≢◌, Err};
ghost use Rattle.lrc_picture.specs.Prelude.{HasPictureLayout};

use crate::canvas::canvas_text_of;
use crate::cutout::{cutout_of, cutout_part_from};
use crate::story::PictureStory;
use causes::Part;
use std::alloc::{AllocError, Global};
use std::io::Write;
use thiserror::Error;

/// Why the picture wasn't written whole.
#[derive(Clone, Copy, Debug, PartialEq, Eq, Error)]
pub enum PictureFault {
    /// A write failed or took no byte, or the flush failed.
    #[error("output failed")]
    Output,
    /// A growth was refused.
    #[error("out of memory")]
    NoMemory,
}

/// The text of the picture of this part of the story. The only error is running out of memory.
fn picture_of(alloc: Global, story: &PictureStory<'_>, part: &Part) -> Result<String, AllocError>
    requires drawn { HasPictureLayout story.now.processors story.now.events.now story.now.incoming.now }
{
    let part = cutout_part_from(part, story.number(0));
    let cutout = cutout_of(alloc, story, &part)?;
    let layout = cutout.picture_layout_of(alloc)?;
    canvas_text_of(alloc, &layout, story, &cutout)
}

/// Writes the text, and flushes the writer.
pub(crate) fn write_picture<W: Write>(text: &str, out: &mut W) -> Result<(), PictureFault>
    ensures { result ≢ Err PictureFault.NoMemory }
{
    match out.write_all(text.as_bytes()) {
        Ok(()) => {}
        Err(_) => return Err(PictureFault::Output),
    }
    match out.flush() {
        Ok(()) => Ok(()),
        Err(_) => Err(PictureFault::Output),
    }
}

/// Writes the picture of this part of the story as an SVG file, and flushes the writer. The part's places are the events'
/// numbers. What lies outside of it isn't drawn, nor an arrow or an edge that comes from there. The text is made whole first and then written; after
/// `NoMemory` nothing was written, after `Output` a beginning of it.
///
/// It takes time and memory in the order of the events and of the places that let them through.
pub fn render<W: Write>(
    alloc: Global,
    story: &PictureStory<'_>,
    part: &Part,
    out: &mut W,
) -> Result<(), PictureFault>
    requires drawn { HasPictureLayout story.now.processors story.now.events.now story.now.incoming.now }
    ensures no_memory { result ≡ Err PictureFault.NoMemory → W.contents out.new ≡ W.contents out.old }
{
    let Ok(text) = picture_of(alloc, story, part) else {
        return Err(PictureFault::NoMemory);
    };
    write_picture(text.as_str(), out)
}
