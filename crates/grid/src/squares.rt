// The squares of a grid, row by row from the north, and the square on a side of one. No division: a walk over the squares carries
// the column.
ghost use Rattle.std.specs.Prelude.{◌<◌};
ghost use Rattle.grid.specs.Squares.{BesideOn, ShapeInRange, NextColumn, OnGrid, OppositeOf, RimJudged, ShapeJudged, SquareFound, SquaresOf, OnSquare, sides};

#[derive(Clone, Copy)]
pub struct Shape {
    pub rows: usize,
    pub columns: usize,
}

pub const NORTH: usize = 0;

pub const EAST: usize = 1;

pub const SOUTH: usize = 2;

pub const WEST: usize = 3;

// The most rows, and the most columns.
pub const MOST_ALONG: usize = 64;

// The most squares that a grid has: rooms of one number a square are this long.
pub const MOST_SQUARES: usize = MOST_ALONG * MOST_ALONG;

// Whether there are 1 to 64 rows and 1 to 64 columns.
pub fn shape_fine(shape: Shape) -> bool
    ensures { ShapeJudged shape result }
{
    let rows = shape.rows;
    let columns = shape.columns;
    if rows == 0 {
        return false;
    }
    if MOST_ALONG < rows {
        return false;
    }
    if columns == 0 {
        return false;
    }
    if MOST_ALONG < columns {
        return false;
    }
    true
}

// The number of squares.
pub fn squares_of(shape: Shape) -> usize
    requires { ShapeInRange shape }
    ensures { SquaresOf shape result }
{
    shape.rows * shape.columns
}

// The square in a row and a column.
pub fn square_at(shape: Shape, row: usize, column: usize) -> usize
    requires { OnGrid shape row column }
    ensures { SquareFound shape row column result }
{
    row * shape.columns + column
}

// The column of the square after one in a column.
pub fn next_column(shape: Shape, column: usize) -> usize
    requires { (ShapeInRange shape) × (column < shape.columns) }
    ensures { NextColumn shape column result }
{
    let next = column + 1;
    let columns = shape.columns;
    if next == columns {
        return 0;
    }
    next
}

// The square on a side of a square that stands in a column, or the number of squares where there is none.
pub fn beside_on(shape: Shape, square: usize, column: usize, side: usize) -> usize
    requires { (OnSquare shape square column) × (side < sides) }
    ensures { BesideOn shape square side result }
{
    let columns = shape.columns;
    let none = squares_of(shape);
    if side == NORTH {
        if columns <= square {
            return square - columns;
        }
        return none;
    }
    if side == EAST {
        if column + 1 == columns {
            return none;
        }
        return square + 1;
    }
    if side == SOUTH {
        let at = square + columns;
        if at < none {
            return at;
        }
        return none;
    }
    if column == 0 {
        return none;
    }
    square - 1
}

// The side that lies across from a side.
pub fn opposite_side(side: usize) -> usize
    requires { side < sides }
    ensures { OppositeOf side result }
{
    if side < SOUTH {
        return side + 2;
    }
    side - 2
}

// Whether a square that stands in a column has a side with no square.
pub fn on_rim(shape: Shape, square: usize, column: usize) -> bool
    requires { OnSquare shape square column }
    ensures { RimJudged shape square result }
{
    let columns = shape.columns;
    if square < columns {
        return true;
    }
    if column + 1 == columns {
        return true;
    }
    if column == 0 {
        return true;
    }
    if squares_of(shape) <= square + columns {
        return true;
    }
    false
}
