// What the repair tool prints of a text: the whole program short of its input and output.
ghost use Rattle.std.specs.Prelude.{◌≡◌, not, ◌+◌, ◌≤◌, ◌<◌, length, set};
ghost use Rattle.reckon.specs.Tests.{pick};
ghost use Rattle.reckon.specs.Lists.{filled};
ghost use Rattle.text.specs.Writing.{Wrote};
ghost use Rattle.holes.specs.Rounds.{no_bed};
ghost use Rattle.sheet.specs.Sheet.{grid_or};
ghost use Rattle.holes.specs.Holes.{hole_at, is_hole, looked_in};
ghost use Rattle.holes.specs.Repaired.{PrintsRepair, given_text, hole_text, most_repaired};
ghost use Rattle.holes.specs.Inner.Steps.{Looked, PutsRepaired, Repairable, listed};

use crate::holes::{cells_at, hole_at, put_with_beds};
use crate::rounds::{NO_BED, fill_rounds};
use answer::printing::put_refused;
use grid::squares::{Shape, shape_fine, squares_of};
use programs::limits::{MOST_TEXT, PROGRAM_SQUARES};
use programs::reading::read_within;
use reckon::numbers::number;
use reckon::tables::{INFLOW_ROOM, RAIN_ROOM};
use sheet::lines::{GridLine, grid_line};
use sheet::reading::Sheet;
use text::lines::next_line;
use text::reading::NEWLINE;
use text::writing::{put_byte, put_field, put_fields, put_number, put_word};

// The bytes that always suffice for what is printed.
pub const REPAIR_ROOM: usize = 131_072;

// A bed that is not known for a square whose line has a hole.
fn mark_hole(text: &[u8], start: usize, row: usize, column: usize, beds: &mut [u32], square: usize)
    requires { square < length beds.old }
    ensures { beds.new ≡ pick (not (hole_at text.now start row column)) beds.old (set beds.old square no_bed) }
{
    let Some(_spot) = hole_at(text, start, row, column) else {
        return;
    };
    beds[square] = NO_BED;
}

// The same of all squares of a text.
fn mark_holes(text: &[u8], columns: usize, squares: usize, beds: &mut [u32])
    requires { (Looked text.now columns squares) × (squares ≤ length beds.old) }
    ensures { beds.new ≡ filled squares (λ i. not (is_hole text.now i)) (λ i. no_bed) beds.old }
{
    let mut start = cells_at(text);
    for square in 0..squares {
        mark_hole(
            text,
            start,
            square / columns,
            square % columns,
            beds,
            square,
        );
        start = next_line(text, start);
    }
}

// The line of a hole: row, column, bed given and round, or `-` for both.
fn put_given(out: &mut [u8], at: usize, row: usize, column: usize, bed: u64, turn: u64) -> usize
    requires { at + length (given_text row column bed turn) ≤ length out.old }
    ensures { Wrote (given_text row column bed turn) at out.old out.new result }
{
    let first = put_number(out, at, row as u64);
    let second = put_field(out, first, column as u64);
    if bed == NO_BED as u64 {
        return put_word(out, second, b"\t-\t-\n");
    }
    let given = [bed, turn];
    let end = put_fields(out, second, &given);
    put_byte(out, end, NEWLINE)
}

// The same of the square whose line is at a position, nothing where it has no hole.
fn put_hole(
    out: &mut [u8],
    at: usize,
    text: &[u8],
    start: usize,
    row: usize,
    column: usize,
    bed: u64,
    turn: u64,
) -> usize
    requires { at + length (hole_text text.now start row column bed turn) ≤ length out.old }
    ensures { Wrote (hole_text text.now start row column bed turn) at out.old out.new result }
{
    let Some(_spot) = hole_at(text, start, row, column) else {
        return at;
    };
    put_given(out, at, row, column, bed, turn)
}

// The lines of all holes.
fn put_list(
    out: &mut [u8],
    at: usize,
    text: &[u8],
    columns: usize,
    squares: usize,
    beds: &[u32],
    turns: &[u32],
) -> usize
    requires looked { (Looked text.now columns squares) × (squares ≤ length beds.now) × (squares ≤ length turns.now) }
    requires turns_in_bounds { at + length (listed text.now beds.now turns.now) ≤ length out.old }
    ensures { Wrote (listed text.now beds.now turns.now) at out.old out.new result }
{
    let mut start = cells_at(text);
    let mut next = at;
    for square in 0..squares {
        let bed = number(beds, square);
        let turn = number(turns, square);
        next = put_hole(
            out,
            next,
            text,
            start,
            square / columns,
            square % columns,
            bed,
            turn,
        );
        start = next_line(text, start);
    }
    next
}

// The shape that line 1 says, one of no squares where it cannot be read.
fn shape_in(top: Option<GridLine>) -> Shape
    ensures { result ≡ (grid_or top).shape }
{
    match top {
        Some(top) => top.shape,
        None => Shape {
            rows: 0,
            columns: 0,
        },
    }
}

// How many squares' lines are looked at: none where line 1 cannot be read or its shape is refused.
fn looked_in(top: Option<GridLine>) -> usize
    ensures { result ≡ looked_in top }
{
    let Some(top) = top else {
        return 0;
    };
    if !shape_fine(top.shape) {
        return 0;
    }
    let squares = squares_of(top.shape);
    if PROGRAM_SQUARES < squares {
        return 0;
    }
    squares
}

// The repaired sheet and the list, by what the ordinary reader found.
fn put_repaired(out: &mut [u8], text: &[u8], shape: Shape, marks: &[u8], beds: &mut [u32]) -> usize
    requires { (Repairable text.now shape marks.now beds.old) × (most_repaired ≤ length out.old) }
    ensures { PutsRepaired text.now marks.now beds.old out.old out.new result }
{
    let mut turns = [0u32; PROGRAM_SQUARES];
    let mut before = [0u32; PROGRAM_SQUARES];
    let columns = shape.columns;
    let squares = squares_of(shape);
    mark_holes(text, columns, squares, beds);
    fill_rounds(shape, marks, beds, &mut turns, &mut before[..squares]);
    let next = put_with_beds(out, text, columns, squares, beds);
    put_list(out, next, text, columns, squares, beds, &turns)
}

// What is printed of a text, at the start of out; the answer is its length.
// No `Printer`: what it reads is a text of its own making, and it goes by the marks and beds of that alone.
pub fn repair_of(text: &[u8], out: &mut [u8; REPAIR_ROOM]) -> usize
    ensures { PrintsRepair text.now out.old out.new result }
{
    if MOST_TEXT < text.len() {
        return put_refused(out, 0, 12, 0);
    }
    let top = grid_line(text);
    let shape = shape_in(top);
    let squares = looked_in(top);
    let zeros = [0u32; PROGRAM_SQUARES];
    let mut plugged = [0u8; MOST_TEXT];
    let length = put_with_beds(&mut plugged, text, shape.columns, squares, &zeros);
    let mut marks = [0u8; PROGRAM_SQUARES];
    let mut beds = [0u32; PROGRAM_SQUARES];
    let mut roughness = [0u32; PROGRAM_SQUARES];
    let mut rates = [0u32; PROGRAM_SQUARES];
    let mut depths = [0u32; PROGRAM_SQUARES];
    let mut rain = [0u32; RAIN_ROOM];
    let mut inflow = [0u32; INFLOW_ROOM];
    let sheet = read_within(
        &plugged[..length],
        MOST_TEXT,
        &mut marks,
        &mut beds,
        &mut roughness,
        &mut rates,
        &mut depths,
        &mut rain,
        &mut inflow,
    );
    match sheet {
        Sheet::Refused(number, line) => put_refused(out, 0, number, line),
        Sheet::Read(_heading) => put_repaired(
            out,
            text,
            shape,
            &marks[..squares],
            &mut beds[..squares],
        ),
    }
}
