// Where the parts of a run's drawing stand, in pixels: steps from left to right, and below each other
// the columns' numbers, the brackets of the groups, a lane for each process, and the rows.
ghost use Rattle.std.specs.Prelude.{◌≡◌};
ghost use Rattle.pictures.specs.Places.{column_x, drawing_height, lane_y, row_y, sheet_width};

use crate::types::Frame;

// The left edge of a column.
pub fn column_x(column: u32) -> u64
    ensures { result ≡ column_x column }
{
    72 * column as u64
}

// The upper edge of a process's lane.
pub fn lane_y(process: u32) -> u64
    ensures { result ≡ lane_y process }
{
    56 + 40 * process as u64
}

// What is so far below the lanes.
pub fn row_y(frame: Frame, below: u32) -> u64
    ensures { result ≡ row_y frame below }
{
    lane_y(frame.processes) + below as u64
}

// How wide the drawing is: the columns, and one behind them.
pub fn sheet_width(frame: Frame) -> u64
    ensures { result ≡ sheet_width frame }
{
    column_x(frame.columns) + 72
}

// How high it is.
pub fn drawing_height(frame: Frame) -> u64
    ensures { result ≡ drawing_height frame }
{
    if frame.has_files {
        row_y(frame, 222)
    } else {
        row_y(frame, 106)
    }
}
