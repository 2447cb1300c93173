// Lines of a sheet into rooms, one after the other with the position carried, so that each byte is passed once.
ghost use Rattle.std.specs.Prelude.{◌≡◌, true, ◌+◌, ◌*◌, ◌<◌, ◌≤◌, eqb, length, set, take};
ghost use Rattle.reckon.specs.Tests.{pick};
ghost use Rattle.reckon.specs.Lists.{placed};
ghost use Rattle.grid.specs.Squares.{ShapeInRange, squares};
ghost use Rattle.text.specs.Reading.{most_fields};
ghost use Rattle.text.specs.Inner.Standing.{plain};
ghost use Rattle.sheet.specs.Sheet.{cells_rooms, rows_read, table_rows};
ghost use Rattle.sheet.specs.Inner.Reading.{CellsRead, RowsCounted};

use crate::lines::{CellLine, cell_line};
use grid::squares::{Shape, squares_of};
use reckon::copying::copy_into;
use text::reading::line_of;

// How many lines were read, and where the line after them starts.
#[derive(Clone, Copy)]
pub struct Scan {
    pub count: usize,
    pub next: usize,
}

// What a line says of a square into the rooms: the mark, and bed, roughness, soak rate and depth where it is not
// closed.
fn put_cell(
    cell: CellLine,
    square: usize,
    marks: &mut [u8],
    beds: &mut [u32],
    roughness: &mut [u32],
    rates: &mut [u32],
    depths: &mut [u32],
)
    requires { (square < length marks.old) × (square < length beds.old) × (square < length roughness.old) × (square < length rates.old) × (square < length depths.old) }
    ensures { (marks.new ≡ set marks.old square cell.mark)
        × (beds.new ≡ pick (eqb cell.mark 0) beds.old (set beds.old square cell.bed))
        × (roughness.new ≡ pick (eqb cell.mark 0) roughness.old (set roughness.old square cell.roughness))
        × (rates.new ≡ pick (eqb cell.mark 0) rates.old (set rates.old square cell.rate))
        × (depths.new ≡ pick (eqb cell.mark 0) depths.old (set depths.old square cell.depth)) }
{
    marks[square] = cell.mark;
    if cell.mark == 0 {
        return;
    }
    beds[square] = cell.bed;
    roughness[square] = cell.roughness;
    rates[square] = cell.rate;
    depths[square] = cell.depth;
}

// The cell lines from a position on, into rooms, up to the first that cannot be read.
pub(crate) fn fill_cells(
    text: &[u8],
    at: usize,
    shape: Shape,
    marks: &mut [u8],
    beds: &mut [u32],
    roughness: &mut [u32],
    rates: &mut [u32],
    depths: &mut [u32],
) -> Scan
    requires shape_in_range { ShapeInRange shape }
    requires shape_in_bounds { (squares shape ≤ length marks.old) × (squares shape ≤ length beds.old) × (squares shape ≤ length roughness.old) × (squares shape ≤ length rates.old) × (squares shape ≤ length depths.old) }
    ensures { CellsRead text.now at shape result (cells_rooms marks.old beds.old roughness.old rates.old depths.old) (cells_rooms marks.new beds.new roughness.new rates.new depths.new) }
{
    let squares = squares_of(shape);
    let columns = shape.columns;
    let mut next = at;
    for square in 0..squares {
        let Some(cell) = cell_line(text, next, square / columns, square % columns) else {
            return Scan {
                count: square,
                next: next,
            };
        };
        put_cell(cell, square, marks, beds, roughness, rates, depths);
        next = cell.next;
    }
    Scan {
        count: squares,
        next: next,
    }
}

// How many lines of a table stand from a position on.
pub fn count_rows(text: &[u8], at: usize, word: &[u8], width: usize) -> Scan
    requires { (width ≤ most_fields) × (plain word.now ≡ true) }
    ensures { RowsCounted text.now at word.now width result }
{
    let mut next = at;
    let mut count: usize = 0;
    while let Some(line) = line_of(text, next, word, width) {
        next = line.next;
        count += 1;
    }
    Scan { count, next }
}

// The first numbers of a line into a room.
fn put_row(values: &[u32], width: usize, at: usize, room: &mut [u32])
    requires { (width ≤ length values.now) × (at + width ≤ length room.old) }
    ensures { room.new ≡ placed room.old at (take width values.now) }
{
    copy_into(&values[..width], room, at);
}

// Some of the lines of a table, as many as are asked for, into its room.
pub fn fill_rows(text: &[u8], at: usize, word: &[u8], width: usize, count: usize, room: &mut [u32])
    requires width_le_most_fields { (width ≤ most_fields) × (plain word.now ≡ true) }
    requires count_bound { (count ≤ rows_read text.now at word.now width) × (width * count ≤ length room.old) }
    ensures { room.new ≡ placed room.old 0 (table_rows text.now at word.now width count) }
{
    let mut next = at;
    for row in 0..count {
        let Some(line) = line_of(text, next, word, width) else {
            return;
        };
        put_row(&line.values, width, width * row, room);
        next = line.next;
    }
}
