// The kinds of line of a sheet, each with its fields in their order.
ghost use Rattle.std.specs.Prelude.{◌≡◌, ◌+◌};
ghost use Rattle.sheet.specs.Lines.{cell_line, closed_cell, grid_line, marked_cell, open_cell, run_line};

use grid::squares::Shape;
use rule::rules::Rules;
use text::reading::{NEWLINE, TAB, byte_is, fields_at, line_of, rest_of_line, word_at};

// Marks.
const CLOSED: u8 = 0;

const OPEN: u8 = 1;

const EXIT: u8 = 2;

// Line 1: the shape and the side D.
#[derive(Clone, Copy)]
pub struct GridLine {
    pub shape: Shape,
    pub side: u64,
    pub next: usize,
}

// Line 2: all of the rules, and the end of the run.
#[derive(Clone, Copy)]
pub struct RunLine {
    pub rules: Rules,
    pub end: u64,
    pub next: usize,
}

// A square's line. A closed square has no bed, roughness, depth or soak rate: 0 stands for each.
#[derive(Clone, Copy)]
pub struct CellLine {
    pub mark: u8,
    pub bed: u32,
    pub roughness: u32,
    pub depth: u32,
    pub rate: u32,
    pub next: usize,
}

// `grid` rows columns D.
const GRID_FIELDS: usize = 3;

pub fn grid_line(text: &[u8]) -> Option<GridLine>
    ensures { result ≡ grid_line text.now }
{
    let line = line_of(text, 0, b"grid", GRID_FIELDS)?;
    let values = line.values;
    Some(GridLine {
        shape: Shape {
            rows: values[0] as usize,
            columns: values[1] as usize,
        },
        side: values[2] as u64,
        next: line.next,
    })
}

// `run` q shortest longest U end; line 1 tells D.
const RUN_FIELDS: usize = 7;

pub fn run_line(text: &[u8], at: usize, side: u64) -> Option<RunLine>
    ensures { result ≡ run_line text.now at side }
{
    let line = line_of(text, at, b"run", RUN_FIELDS)?;
    let values = line.values;
    Some(RunLine {
        rules: Rules {
            square_side: side,
            tolerance: values[0] as u64,
            shortest: values[1] as u64,
            longest: values[2] as u64,
            update: values[3] as u64,
            edge: values[5] as u64,
            edition: values[6] as u64,
        },
        end: values[4] as u64,
        next: line.next,
    })
}

// After the mark of a closed square: the end of the line.
fn closed_cell(text: &[u8], at: usize) -> Option<CellLine>
    ensures { result ≡ closed_cell text.now at }
{
    if !byte_is(text, at, NEWLINE) {
        return None;
    }
    Some(CellLine {
        mark: CLOSED,
        bed: 0,
        roughness: 0,
        depth: 0,
        rate: 0,
        next: at + 1,
    })
}

// After the mark of a square not closed: bed, roughness, depth, soak rate, and the end of the line.
const OPEN_FIELDS: usize = 4;

fn open_cell(text: &[u8], at: usize, mark: u8) -> Option<CellLine>
    ensures { result ≡ open_cell text.now at mark }
{
    let rest = rest_of_line(text, at, OPEN_FIELDS)?;
    let values = rest.values;
    Some(CellLine {
        mark,
        bed: values[0],
        roughness: values[1],
        depth: values[2],
        rate: values[3],
        next: rest.next,
    })
}

// From the mark on: a tab, `x`, `o` or `e`, and the rest by the mark.
fn marked_cell(text: &[u8], at: usize) -> Option<CellLine>
    ensures { result ≡ marked_cell text.now at }
{
    if !byte_is(text, at, TAB) {
        return None;
    }
    if byte_is(text, at + 1, b'x') {
        return closed_cell(text, at + 2);
    }
    if byte_is(text, at + 1, b'o') {
        return open_cell(text, at + 2, OPEN);
    }
    if byte_is(text, at + 1, b'e') {
        return open_cell(text, at + 2, EXIT);
    }
    None
}

// `cell` row column mark bed roughness depth rate, for the square in a row and a column; an `x` line ends after its mark.
const PLACE_FIELDS: usize = 2;

pub(crate) fn cell_line(text: &[u8], at: usize, row: usize, column: usize) -> Option<CellLine>
    ensures { result ≡ cell_line text.now at row column }
{
    if !word_at(text, at, b"cell") {
        return None;
    }
    let place = fields_at(text, at + 4, PLACE_FIELDS)?;
    let values = place.values;
    if values[0] as usize != row {
        return None;
    }
    if values[1] as usize != column {
        return None;
    }
    marked_cell(text, place.next)
}
