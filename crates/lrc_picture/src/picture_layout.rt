//! The layout of a picture: what stands where.
ghost use Rattle.std.specs.Prelude.{◌<◌, ◌≤◌, All, IfOk, length};
ghost use Rattle.base.specs.Prelude.{most_held};
ghost use Rattle.judge.specs.Prelude.{most_judged_processors};
ghost use Rattle.lrc_picture.specs.Prelude.{HasPictureLayout, IsPictureLayoutGrid, IsPictureLayoutOf};

use crate::arrows::{Arrow, arrows};
use crate::bars::{Bar, bars};
use crate::label::widest_picture_label;
use crate::marks::{Mark, picture_marks};
use crate::picture_grid::PictureGrid;
use journal::Event;
use std::alloc::{AllocError, Global};

/// What stands where in a picture.
#[derive(Drop)]
pub struct DiagramLayout {
    pub grid: PictureGrid,
    /// A mark for each event, in order.
    pub marks: Vec<Mark>,
    /// The arrows to events that were let through by another processor's.
    pub arrows: Vec<Arrow>,
    /// The bars of the barrier.
    pub bars: Vec<Bar>,
}

/// How many characters a lane's head has at most, and what is said of a processor that waits.
const HEAD: usize = 14;

/// How wide a character is at most, in pixels.
const CHARACTER: usize = 8;

/// The room between a lane and its labels and behind these, in pixels.
const GAP: usize = 40;

/// How far lanes without labels are from each other, in pixels.
const NARROW: usize = 44;

/// The room in front of a label in the column of labels, and for its processor's name, in pixels.
const NAMED: usize = 80;

/// How wide lanes with labels are together at most, in pixels: so a page has them all in its width.
const MOST_WIDE: usize = 1024;

/// The grid of the picture of these events. The only error is running out of memory.
fn picture_layout_grid(
    alloc: Global,
    processors: usize,
    events: &[Event],
) -> Result<PictureGrid, AllocError>
    requires few { length events.now ≤ most_held }
    requires few_processors { processors ≤ most_judged_processors }
    ensures { IfOk result (IsPictureLayoutGrid processors events.now) }
{
    let label = widest_picture_label(alloc, events)?;
    let wide = GAP + label.max(HEAD) * CHARACTER;
    let (step, side) = if processors * wide <= MOST_WIDE {
        (wide, 0)
    } else {
        (NARROW, NAMED + label * CHARACTER)
    };
    Ok(PictureGrid {
        lanes: processors,
        rows: events.len() + 1,
        step,
        side,
    })
}

/// The layout of the picture of these events of so many processors: `incoming` names for each event the places of those
/// that let it through, `episodes` those below which all have arrived at the barrier. The only error is running out of
/// memory. It takes time in the order of the events and the places.
pub fn picture_layout_of(
    alloc: Global,
    processors: usize,
    events: &[Event],
    incoming: &[Vec<usize>],
    episodes: &[usize],
) -> Result<DiagramLayout, AllocError>
    requires drawn { HasPictureLayout processors events.now incoming.now }
    requires episodes { All (λ k. k < length events.now) episodes.now }
    ensures { IfOk result (IsPictureLayoutOf processors events.now) }
{
    let grid = picture_layout_grid(alloc, processors, events)?;
    let marks = picture_marks(alloc, grid, events)?;
    let arrows = arrows(alloc, grid, events, incoming)?;
    let bars = bars(alloc, grid, episodes)?;
    Ok(DiagramLayout {
        grid,
        marks,
        arrows,
        bars,
    })
}
