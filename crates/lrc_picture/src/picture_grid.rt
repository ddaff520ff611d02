//! Where the lanes and rows of a picture lie, in pixels.
ghost use Rattle.std.specs.Prelude.{◌≡◌, ◌≢◌, ◌≤◌, ◌^◌};
ghost use Rattle.judge.specs.Prelude.{most_judged_processors};

/// A point of the picture, in pixels from its left upper corner.
#[derive(Clone, Copy, Debug, PartialEq, Eq)]
pub struct Point {
    /// To the right.
    pub x: usize,
    /// Downwards.
    pub y: usize,
}

/// How many lanes and rows a picture has, and how far the lanes are from each other. A lane is a processor's line, with the
/// labels to its right if there is no column of labels; a row is an event's.
#[derive(Clone, Copy, Debug, PartialEq, Eq)]
pub struct PictureGrid {
    /// How many lanes there are.
    pub lanes: usize,
    /// How many rows there are.
    pub rows: usize,
    /// From a lane to the next, in pixels.
    pub step: usize,
    /// How wide the column of labels is that stands right of all lanes, in pixels; 0 where each label stands right of its
    /// mark.
    pub side: usize,
    pub ghost lanes_few: { lanes ≤ most_judged_processors },
    pub ghost rows_few: { rows ≤ 2 ^ 22 },
    pub ghost step_small: { step ≤ 2 ^ 12 },
    pub ghost side_small: { side ≤ 2 ^ 12 },
}

/// Where the first lane is.
const LEFT: usize = 104;

/// Where the first row is.
const TOP: usize = 88;

/// From a row to the next.
const ROW: usize = 24;

/// What is right of the last lane.
const RIGHT: usize = 16;

/// What is below the last row.
const BOTTOM: usize = 16;

impl PictureGrid {
    ghost use Rattle.lrc_picture.specs.PictureGrid.{picture_grid_crossing, picture_grid_height, picture_grid_width, picture_grid_x_of, picture_grid_y_of};

    /// Where the line of this processor is; for the number of lanes, where the last lane ends.
    pub fn lane_x(self, processor: usize) -> usize
        requires { processor ≤ self.lanes }
        ensures { result ≡ picture_grid_x_of self processor }
    {
        LEFT + processor * self.step
    }

    /// Where the events of this row are.
    pub fn row_y(self, row: usize) -> usize
        requires { row ≤ self.rows }
        ensures { result ≡ picture_grid_y_of self row }
    {
        TOP + row * ROW
    }

    /// Where the line of this processor and this row meet.
    pub fn point(self, processor: usize, row: usize) -> Point
        requires lane { processor ≤ self.lanes }
        requires row { row ≤ self.rows }
        ensures { result ≡ picture_grid_crossing self processor row }
    {
        Point {
            x: self.lane_x(processor),
            y: self.row_y(row),
        }
    }

    /// How wide the picture is.
    pub fn width(self) -> usize
        ensures { result ≡ picture_grid_width self }
    {
        self.lane_x(self.lanes) + self.side + RIGHT
    }

    /// Where the label of a mark at this point stands: there, or in the column of labels.
    pub fn label_point(self, at: Point) -> Point
        ensures beside { self.side ≡ 0 → result ≡ at }
        ensures aside { self.side ≢ 0 → result ≡ record { x = picture_grid_x_of self self.lanes; y = at.y } }
    {
        if self.side == 0 {
            return at;
        }
        Point {
            x: self.lane_x(self.lanes),
            y: at.y,
        }
    }

    /// How high the picture is, without its legend.
    pub fn height(self) -> usize
        ensures { result ≡ picture_grid_height self }
    {
        self.row_y(self.rows) + BOTTOM
    }
}
