// A frame as text: its figures, what the hatches run at, and the depths row by row, a closed square as `x`.
ghost use Rattle.std.specs.Prelude.{◌+◌, ◌<◌, ◌≤◌, length};
ghost use Rattle.reckon.specs.Lists.{joined};
ghost use Rattle.grid.specs.Squares.{ShapeInRange, squares};
ghost use Rattle.text.specs.Writing.{Wrote};
ghost use Rattle.frames.specs.Frame.{PutFrame, figures_text, frame_text, rates_text, row_text, rows_text, square_text};

use grid::marks::is_closed;
use grid::squares::Shape;
use reckon::numbers::number;
use text::reading::NEWLINE;
use text::writing::{put_byte, put_field, put_line, put_word};

// What a frame says beside rates and depths: steps standing, clock, length held, outflow, total soaked, steps kept, room for as many, water on squares
// not closed, water at the start, and what tables and hatches gave the standing steps.
#[derive(Clone, Copy)]
pub struct Figures {
    pub steps: u64,
    pub clock: u64,
    pub length: u64,
    pub outflow: u64,
    pub soaked: u64,
    pub kept: u64,
    pub room: u64,
    pub on_ground: u64,
    pub start: u64,
    pub given: u64,
}

// A square's field.
fn put_square(out: &mut [u8], at: usize, marks: &[u8], depths: &[u32], square: usize) -> usize
    requires { (square < length marks.now) × (square < length depths.now) × (at + length (square_text marks.now depths.now square) ≤ length out.old) }
    ensures { Wrote (square_text marks.now depths.now square) at out.old out.new result }
{
    if is_closed(marks, square) {
        return put_word(out, at, b"\tx");
    }
    put_field(out, at, number(depths, square))
}

// The fields of so many squares from one on.
fn put_squares(
    out: &mut [u8],
    at: usize,
    marks: &[u8],
    depths: &[u32],
    first: usize,
    columns: usize,
) -> usize
    requires columns_in_bounds { (first + columns ≤ length marks.now) × (first + columns ≤ length depths.now) }
    requires c_in_bounds { at + length (joined columns (λ c. square_text marks.now depths.now (first + c))) ≤ length out.old }
    ensures { Wrote (joined columns (λ c. square_text marks.now depths.now (first + c))) at out.old out.new result }
{
    let mut next = at;
    for column in 0..columns {
        next = put_square(out, next, marks, depths, first + column);
    }
    next
}

// A row's line.
fn put_row(
    out: &mut [u8],
    at: usize,
    marks: &[u8],
    depths: &[u32],
    first: usize,
    columns: usize,
) -> usize
    requires columns_in_bounds { (first + columns ≤ length marks.now) × (first + columns ≤ length depths.now) }
    requires first_in_bounds { at + length (row_text marks.now depths.now columns first) ≤ length out.old }
    ensures { Wrote (row_text marks.now depths.now columns first) at out.old out.new result }
{
    let next = put_word(out, at, b"row");
    let end = put_squares(out, next, marks, depths, first, columns);
    put_byte(out, end, NEWLINE)
}

// The lines of all rows.
fn put_rows(out: &mut [u8], at: usize, shape: Shape, marks: &[u8], depths: &[u32]) -> usize
    requires shape_in_range { (ShapeInRange shape) × (squares shape ≤ length marks.now) × (squares shape ≤ length depths.now) }
    requires depths_in_bounds { at + length (rows_text shape marks.now depths.now) ≤ length out.old }
    ensures { Wrote (rows_text shape marks.now depths.now) at out.old out.new result }
{
    let rows = shape.rows;
    let columns = shape.columns;
    let mut next = at;
    for row in 0..rows {
        next = put_row(out, next, marks, depths, row * columns, columns);
    }
    next
}

// The figures' line.
fn put_figures(out: &mut [u8], at: usize, figures: Figures) -> usize
    requires { at + length (figures_text figures) ≤ length out.old }
    ensures { Wrote (figures_text figures) at out.old out.new result }
{
    let values = [
        figures.steps,
        figures.clock,
        figures.length,
        figures.outflow,
        figures.soaked,
        figures.kept,
        figures.room,
        figures.on_ground,
        figures.start,
        figures.given,
    ];
    put_line(out, at, b"frame", &values)
}

// The rates' line.
fn put_rates(out: &mut [u8], at: usize, litres: [u32; 9]) -> usize
    requires { at + length (rates_text litres) ≤ length out.old }
    ensures { Wrote (rates_text litres) at out.old out.new result }
{
    let values = litres.map(|rate| rate as u64);
    put_line(out, at, b"rates", &values)
}

// A frame into a room at a place; the place after it.
pub fn put_frame(
    out: &mut [u8],
    at: usize,
    figures: Figures,
    litres: [u32; 9],
    shape: Shape,
    marks: &[u8],
    depths: &[u32],
) -> usize
    requires shape_in_range { (ShapeInRange shape) × (squares shape ≤ length marks.now) × (squares shape ≤ length depths.now) }
    requires depths_in_bounds { at + length (frame_text figures litres shape marks.now depths.now) ≤ length out.old }
    ensures { PutFrame figures litres shape marks.now depths.now at out.old out.new result }
{
    let first = put_figures(out, at, figures);
    let second = put_rates(out, first, litres);
    put_rows(out, second, shape, marks, depths)
}
