//! The arrows of a picture: by what events that waited were let through.
ghost use Rattle.std.specs.Prelude.{◌≡◌, ◌≤◌, ◌<◌, All, length};
ghost use Rattle.journal.specs.Prelude.{EventProcessorsInRange};
ghost use Rattle.lrc_picture.specs.Prelude.{AreArrowPlaces, arrow_for, arrow_way_for};

use crate::picture_grid::{PictureGrid, Point};
use journal::{Event, Kind};
use std::alloc::{AllocError, Global};

/// How an arrow looks.
#[derive(Clone, Copy, Debug, PartialEq, Eq)]
pub enum Way {
    /// From a release to an acquire.
    Lock,
    /// From a set to an await.
    Flag,
}

/// An arrow from the mark of one event to that of another.
#[derive(Clone, Copy, Debug, PartialEq, Eq)]
pub struct Arrow {
    /// Where it begins.
    pub from: Point,
    /// Where its head is.
    pub to: Point,
    /// How it looks.
    pub way: Way,
}

/// How the arrows to such an event look. A departure has none, since a bar stands for them.
fn arrow_way_of(kind: Kind) -> Option<Way>
    ensures { result ≡ arrow_way_for kind }
{
    match kind {
        Kind::Acquire(_) => Some(Way::Lock),
        Kind::Await(_) => Some(Way::Flag),
        _ => None,
    }
}

/// The arrow to the second event, in the second row, from the first one.
fn arrow_of(grid: PictureGrid, row: usize, from: Event, to_row: usize, to: Event, way: Way) -> Arrow
    requires from { from.processor ≤ grid.lanes }
    requires row { row ≤ grid.rows }
    requires to { to.processor ≤ grid.lanes }
    requires to_row { to_row ≤ grid.rows }
    ensures { result ≡ arrow_for grid row from to_row to way }
{
    Arrow {
        from: grid.point(from.processor, row),
        to: grid.point(to.processor, to_row),
        way,
    }
}

/// Adds an arrow to the event in this row from each of these places. The only error is running out of memory.
fn add_arrows(
    arrows: &mut Vec<Arrow>,
    grid: PictureGrid,
    events: &[Event],
    places: &[usize],
    row: usize,
    way: Way,
) -> Result<(), AllocError>
    requires lanes { EventProcessorsInRange grid.lanes events.now }
    requires rows { length events.now ≤ grid.rows }
    requires row { row < length events.now }
    requires places { All (λ i. i < length events.now) places.now }
{
    let to = events[row];
    for place in places {
        let from = events[*place];
        arrows.push(arrow_of(grid, *place, from, row, to, way))?;
    }
    Ok(())
}

/// The arrows to the events that acquire a lock or await a flag, each from the places that its row names. The only error is
/// running out of memory.
pub fn arrows(
    alloc: Global,
    grid: PictureGrid,
    events: &[Event],
    incoming: &[Vec<usize>],
) -> Result<Vec<Arrow>, AllocError>
    requires lanes { EventProcessorsInRange grid.lanes events.now }
    requires rows { length events.now ≤ grid.rows }
    requires places { AreArrowPlaces (length events.now) incoming.now }
{
    let mut arrows = Vec::new(alloc);
    for row in 0..events.len() {
        if let Some(way) = arrow_way_of(events[row].kind) {
            add_arrows(&mut arrows, grid, events, &incoming[row], row, way)?;
        }
    }
    Ok(arrows)
}
