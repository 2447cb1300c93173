// A grid's text put into a lent room: its header, and its squares.
ghost use Rattle.std.specs.Prelude.{◌≡◌, ◌+◌, ◌≤◌, ◌<◌, ◌^◌, length};
ghost use Rattle.reckon.specs.Lists.{joined};
ghost use Rattle.grid.specs.Squares.{ShapeInRange, squares};
ghost use Rattle.text.specs.Writing.{Wrote, decimal};
ghost use Rattle.raster.specs.Raster.{PutGrid, entry_text, grid_text, head_line_text, head_text};
ghost use Rattle.raster.specs.Inner.Steps.{gap_byte, value_text};

use crate::amounts::{Scale, put_amount};
use crate::reading::{SPACE, last_in_row};
use grid::marks::is_closed;
use grid::squares::{Shape, squares_of};
use reckon::numbers::number;
use text::reading::NEWLINE;
use text::writing::{put_byte, put_number, put_word};

// A line of the header: a word, a space, a number.
fn put_head_line(room: &mut [u8], at: usize, word: &[u8], n: u64) -> usize
    requires { at + length (head_line_text word.now (decimal n)) ≤ length room.old }
    ensures { Wrote (head_line_text word.now (decimal n)) at room.old room.new result }
{
    let a = put_word(room, at, word);
    let b = put_byte(room, a, SPACE);
    let c = put_number(room, b, n);
    put_byte(room, c, NEWLINE)
}

// The six lines of the header.
fn put_head(room: &mut [u8], at: usize, shape: Shape, side: u64) -> usize
    requires { at + length (head_text shape side) ≤ length room.old }
    ensures { Wrote (head_text shape side) at room.old room.new result }
{
    let a = put_head_line(room, at, b"ncols", shape.columns as u64);
    let b = put_head_line(room, a, b"nrows", shape.rows as u64);
    let c = put_head_line(room, b, b"xllcorner", 0);
    let d = put_head_line(room, c, b"yllcorner", 0);
    let e = put_head_line(room, d, b"cellsize", side);
    put_word(room, e, b"NODATA_value -9999\n")
}

// What stands for a square: `-9999` where it is closed, else its number.
fn put_value(
    room: &mut [u8],
    at: usize,
    marks: &[u8],
    values: &[u32],
    square: usize,
    scale: Scale,
) -> usize
    requires square_in_bounds { (square < length marks.now) × (square < length values.now) }
    requires square_in_bounds_2 { at + length (value_text scale marks.now values.now square) ≤ length room.old }
    ensures { Wrote (value_text scale marks.now values.now square) at room.old room.new result }
{
    if is_closed(marks, square) {
        return put_word(room, at, b"-9999");
    }
    put_amount(room, at, number(values, square), scale)
}

// The byte after a square: a newline after the last of a row, else a space.
fn gap_after(columns: usize, square: usize) -> u8
    requires { (0 < columns) × (square + 1 < 2 ^ 64) }
    ensures { result ≡ gap_byte columns square }
{
    if last_in_row(columns, square) {
        return NEWLINE;
    }
    SPACE
}

// A square, and what parts it from the next.
fn put_entry(
    room: &mut [u8],
    at: usize,
    columns: usize,
    marks: &[u8],
    values: &[u32],
    square: usize,
    scale: Scale,
) -> usize
    requires columns_nonzero { (0 < columns) × (square + 1 < 2 ^ 64) × (square < length marks.now) × (square < length values.now) }
    requires square_in_bounds { at + length (entry_text scale columns marks.now values.now square) ≤ length room.old }
    ensures { Wrote (entry_text scale columns marks.now values.now square) at room.old room.new result }
{
    let end = put_value(room, at, marks, values, square, scale);
    put_byte(room, end, gap_after(columns, square))
}

// The squares, row by row from the north.
fn put_entries(
    room: &mut [u8],
    at: usize,
    shape: Shape,
    marks: &[u8],
    values: &[u32],
    scale: Scale,
) -> usize
    requires shape_in_range { (ShapeInRange shape) × (squares shape ≤ length marks.now) × (squares shape ≤ length values.now) }
    requires values_in_bounds { at + length (joined (squares shape) (entry_text scale shape.columns marks.now values.now)) ≤ length room.old }
    ensures { Wrote (joined (squares shape) (entry_text scale shape.columns marks.now values.now)) at room.old room.new result }
{
    let columns = shape.columns;
    let squares = squares_of(shape);
    let mut next = at;
    for square in 0..squares {
        next = put_entry(room, next, columns, marks, values, square, scale);
    }
    next
}

// A grid of one number a square.
pub fn put_grid(
    room: &mut [u8],
    at: usize,
    shape: Shape,
    side: u64,
    marks: &[u8],
    values: &[u32],
    scale: Scale,
) -> usize
    requires shape_in_range { (ShapeInRange shape) × (squares shape ≤ length marks.now) × (squares shape ≤ length values.now) }
    requires side_in_bounds { at + length (grid_text scale shape marks.now values.now side) ≤ length room.old }
    ensures { PutGrid scale shape marks.now values.now side at room.old room.new result }
{
    let next = put_head(room, at, shape, side);
    put_entries(room, next, shape, marks, values, scale)
}
