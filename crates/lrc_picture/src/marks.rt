//! The marks of a picture.
ghost use Rattle.std.specs.Prelude.{◌≡◌, ◌<◌, ◌≤◌, IfOk, length};
ghost use Rattle.journal.specs.Prelude.{EventProcessorsInRange};
ghost use Rattle.lrc_picture.specs.Prelude.{ArePictureMarks, picture_mark_for, picture_mark_shape_for};

use crate::picture_grid::{PictureGrid, Point};
use journal::{Event, Kind};
use std::alloc::{AllocError, Global};

/// How a mark looks.
#[derive(Clone, Copy, Debug, PartialEq, Eq)]
pub enum MarkShape {
    /// A circle, filled: a store.
    Disc,
    /// A circle: a load.
    Ring,
    /// A short bar: a fetch.
    Dash,
    /// A square: an event that begins to wait.
    Frame,
    /// A square, filled: an event that others wait for.
    Block,
    /// A triangle: the end of a wait.
    Wedge,
}

/// The mark of an event.
#[derive(Clone, Copy, Debug, PartialEq, Eq)]
pub struct Mark {
    pub at: Point,
    pub shape: MarkShape,
}

/// How the mark of such an event looks.
fn picture_mark_shape_of(kind: Kind) -> MarkShape
    ensures { result ≡ picture_mark_shape_for kind }
{
    match kind {
        Kind::Store(_, _) => MarkShape::Disc,
        Kind::Load(_, _) => MarkShape::Ring,
        Kind::Fetch { .. } => MarkShape::Dash,
        Kind::Ask(_) | Kind::Watch(_) => MarkShape::Frame,
        Kind::Release(_) | Kind::Set(_) | Kind::Arrive => MarkShape::Block,
        Kind::Acquire(_) | Kind::Await(_) | Kind::Depart => MarkShape::Wedge,
    }
}

/// The mark of the event in this row.
fn picture_mark_of(grid: PictureGrid, row: usize, event: Event) -> Mark
    requires lane { event.processor ≤ grid.lanes }
    requires row { row ≤ grid.rows }
    ensures { result ≡ picture_mark_for grid row event }
{
    Mark {
        at: grid.point(event.processor, row),
        shape: picture_mark_shape_of(event.kind),
    }
}

/// The marks of the events in order, each in a row of its own on its processor's line. The only error is running out of
/// memory.
pub fn picture_marks(
    alloc: Global,
    grid: PictureGrid,
    events: &[Event],
) -> Result<Vec<Mark>, AllocError>
    requires lanes { EventProcessorsInRange grid.lanes events.now }
    requires rows { length events.now ≤ grid.rows }
    ensures { IfOk result (λ v. ArePictureMarks grid events.now v.items) }
{
    let mut marks = Vec::with_capacity(alloc, events.len())?;
    for row in 0..events.len() {
        marks.push(picture_mark_of(grid, row, events[row]))?;
    }
    Ok(marks)
}
