//! The bars of a picture: one for each episode of the barrier that is complete.
ghost use Rattle.std.specs.Prelude.{◌≡◌, ◌<◌, ◌≤◌, All, IfOk, map};
ghost use Rattle.lrc_picture.specs.Prelude.{bar_for};

use crate::picture_grid::{PictureGrid, Point};
use std::alloc::{AllocError, Global};

/// A line from one point to another.
#[derive(Clone, Copy, Debug, PartialEq, Eq)]
pub struct Bar {
    pub from: Point,
    pub to: Point,
}

/// The bar in this row, from the first lane to the last one.
fn bar_across(grid: PictureGrid, row: usize) -> Bar
    requires { row ≤ grid.rows }
    ensures { result ≡ bar_for grid row }
{
    Bar {
        from: grid.point(0, row),
        to: grid.point(grid.lanes.saturating_sub(1), row),
    }
}

/// A bar in each of these rows: it is drawn below that row. The only error is running out of memory.
pub fn bars(alloc: Global, grid: PictureGrid, rows: &[usize]) -> Result<Vec<Bar>, AllocError>
    requires { All (λ r. r < grid.rows) rows.now }
    ensures { IfOk result (λ v. v.items ≡ map (bar_for grid) rows.now) }
{
    let mut bars = Vec::new(alloc);
    for row in rows {
        bars.push(bar_across(grid, *row))?;
    }
    Ok(bars)
}
