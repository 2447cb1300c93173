// A note read line by line: a sheet, each `cell` line ended after its mark.
ghost use Rattle.std.specs.Prelude.{◌≡◌, ◌<◌, ◌≤◌, length};
ghost use Rattle.text.specs.Reading.{most_number, word_at};
ghost use Rattle.survey.specs.Sets.{mark_line};
ghost use Rattle.survey.specs.Inner.Notes.{MarksCounted, NoteRead, mark_at};

use crate::texts::put_mark_line;
use grid::squares::Shape;
use reckon::tables::{INFLOW_WIDTH, RAIN_WIDTH};
use rule::rules::Rules;
use sheet::lines::{grid_line, run_line};
use sheet::reading::Heading;
use sheet::rooms::{Scan, count_rows};
use text::lines::next_line;
use text::reading::word_at;

// Enough for the line of any square: `cell`, two numbers, a letter, their tabs and the newline.
const LINE_ROOM: usize = 64;

// No mark.
const NO_MARK: u8 = 3;

// The line of the first square, from 1.
const FIRST_CELL_LINE: usize = 3;

// The line of a square with a mark stands at a position.
fn line_stands(text: &[u8], at: usize, columns: usize, square: usize, mark: u8) -> bool
    requires { (0 < columns) × (mark < 3) }
    ensures { result ≡ word_at text.now at (mark_line columns square mark) }
{
    let mut room = [0u8; LINE_ROOM];
    let end = put_mark_line(&mut room, 0, columns, square, mark);
    word_at(text, at, &room[..end])
}

// The mark of the line at a position, read as that of a square: NO_MARK where it is no such line.
pub(crate) fn mark_at(text: &[u8], at: usize, columns: usize, square: usize) -> u8
    requires { 0 < columns }
    ensures { result ≡ mark_at text.now at columns square }
{
    if line_stands(text, at, columns, square, 0) {
        return 0;
    }
    if line_stands(text, at, columns, square, 1) {
        return 1;
    }
    if line_stands(text, at, columns, square, 2) {
        return 2;
    }
    NO_MARK
}

// The lines of the squares from a position on, up to the first that cannot be read.
fn count_marks(text: &[u8], at: usize, shape: Shape) -> Scan
    requires { (at ≤ length text.now) × (shape.rows ≤ most_number) × (shape.columns ≤ most_number) }
    ensures { MarksCounted text.now at shape result }
{
    let columns = shape.columns;
    let squares = shape.rows * columns;
    let mut next = at;
    for square in 0..squares {
        if mark_at(text, next, columns, square) == NO_MARK {
            return Scan {
                count: square,
                next: next,
            };
        }
        next = next_line(text, next);
    }
    Scan {
        count: squares,
        next: next,
    }
}

// What a note says but for its marks: the first line that cannot be read, 0 for none; its heading, and where its squares and tables start.
#[derive(Clone, Copy)]
pub(crate) struct Note {
    pub(crate) bad: usize,
    pub(crate) heading: Heading,
    pub(crate) cells_at: usize,
    pub(crate) rain_at: usize,
    pub(crate) inflow_at: usize,
}

// A note whose line of this number cannot be read.
fn bad_note(line: usize) -> Note
    ensures { result.bad ≡ line }
{
    Note {
        bad: line,
        heading: Heading {
            shape: Shape {
                rows: 0,
                columns: 0,
            },
            rules: Rules {
                square_side: 0,
                tolerance: 0,
                shortest: 0,
                longest: 0,
                update: 0,
                edge: 0,
                edition: 0,
            },
            end: 0,
            rain_rows: 0,
            inflow_rows: 0,
        },
        cells_at: 0,
        rain_at: 0,
        inflow_at: 0,
    }
}

// All of a note.
pub(crate) fn read_note(text: &[u8]) -> Note
    ensures { NoteRead text.now result }
{
    let Some(top) = grid_line(text) else {
        return bad_note(1);
    };
    let Some(run) = run_line(text, top.next, top.side) else {
        return bad_note(2);
    };
    let shape = top.shape;
    let squares = shape.rows * shape.columns;
    let cells = count_marks(text, run.next, shape);
    if cells.count < squares {
        return bad_note(cells.count + FIRST_CELL_LINE);
    }
    let rain = count_rows(text, cells.next, b"rain", RAIN_WIDTH);
    let inflow = count_rows(text, rain.next, b"inflow", INFLOW_WIDTH);
    if inflow.next < text.len() {
        return bad_note(squares + rain.count + inflow.count + FIRST_CELL_LINE);
    }
    let rules = run.rules;
    Note {
        bad: 0,
        heading: Heading {
            shape: shape,
            rules: rules,
            end: run.end,
            rain_rows: rain.count,
            inflow_rows: inflow.count,
        },
        cells_at: run.next,
        rain_at: cells.next,
        inflow_at: rain.next,
    }
}
