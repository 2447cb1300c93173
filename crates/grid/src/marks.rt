// Marks: closed, open and exit squares, and whether marks and inflow rows are as they must be.
ghost use Rattle.std.specs.Prelude.{◌≡◌, ◌*◌, ◌+◌, ◌<◌, ◌≤◌, length};
ghost use Rattle.grid.specs.Squares.{OnSquare};
ghost use Rattle.grid.specs.Marks.{ClosedJudged, ExitJudged, InflowSquaresJudged, Marked, MarksJudged, inflow_square_fine, inflow_words, mark_fine};

use crate::squares::{Shape, next_column, on_rim, square_at, squares_of};
use reckon::numbers::number;
use reckon::tables::INFLOW_WIDTH;

const CLOSED: u8 = 0;

const EXIT: u8 = 2;

// Whether a square is closed.
pub fn is_closed(marks: &[u8], square: usize) -> bool
    requires { square < length marks.now }
    ensures { ClosedJudged marks.now square result }
{
    marks[square] == CLOSED
}

// Whether a square is an exit.
pub fn is_exit(marks: &[u8], square: usize) -> bool
    requires { square < length marks.now }
    ensures { ExitJudged marks.now square result }
{
    marks[square] == EXIT
}

// Whether a square's mark is none above 2, and no exit off the rim.
fn mark_fine(shape: Shape, marks: &[u8], square: usize, column: usize) -> bool
    requires { (OnSquare shape square column) × (square < length marks.now) }
    ensures { result ≡ mark_fine shape marks.now square }
{
    let mark = marks[square];
    if EXIT < mark {
        return false;
    }
    if mark == EXIT {
        return on_rim(shape, square, column);
    }
    true
}

// Whether every square's mark is fine.
pub fn marks_fine(shape: Shape, marks: &[u8]) -> bool
    requires { Marked shape marks.now }
    ensures { MarksJudged shape marks.now result }
{
    let mut column = 0;
    for square in 0..squares_of(shape) {
        if !mark_fine(shape, marks, square, column) {
            return false;
        }
        column = next_column(shape, column);
    }
    true
}

// Whether the square of inflow row j is on the grid and not closed.
fn inflow_square_fine(shape: Shape, marks: &[u8], rows: &[u32], j: usize) -> bool
    requires { (Marked shape marks.now) × (inflow_words * j + inflow_words ≤ length rows.now) }
    ensures { result ≡ inflow_square_fine shape marks.now rows.now j }
{
    let row = number(rows, INFLOW_WIDTH * j) as usize;
    let column = number(rows, INFLOW_WIDTH * j + 1) as usize;
    if shape.rows <= row {
        return false;
    }
    if shape.columns <= column {
        return false;
    }
    if is_closed(marks, square_at(shape, row, column)) {
        return false;
    }
    true
}

// Whether the square of every inflow row is on the grid and not closed.
pub fn inflow_squares_fine(shape: Shape, marks: &[u8], rows: &[u32]) -> bool
    requires { Marked shape marks.now }
    ensures { InflowSquaresJudged shape marks.now rows.now result }
{
    for j in 0..rows.len() / INFLOW_WIDTH {
        if !inflow_square_fine(shape, marks, rows, j) {
            return false;
        }
    }
    true
}
