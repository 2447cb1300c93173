// The `?` beds of a sheet's text, and the text with other beds in their places.
ghost use Rattle.std.specs.Prelude.{◌≡◌, ◌+◌, ◌≤◌, length};
ghost use Rattle.text.specs.Writing.{Wrote};
ghost use Rattle.sheet.specs.Sheet.{cells_at};
ghost use Rattle.holes.specs.Holes.{line_with};
ghost use Rattle.holes.specs.Repaired.{bed_text};
ghost use Rattle.holes.specs.Inner.Steps.{Looked, beds_put, cells_put, hole_in, place_text};

use crate::rounds::NO_BED;
use reckon::numbers::number;
use text::lines::next_line;
use text::reading::word_at;
use text::writing::{put_byte, put_fields, put_number, put_word};

// Enough for what any square's line begins with: `cell`, two numbers and their tabs.
const PLACE_ROOM: usize = 64;

// What a square's line begins with, up to the tab before its mark.
fn put_place(room: &mut [u8], row: usize, column: usize) -> usize
    requires { length (place_text row column) ≤ length room.old }
    ensures { Wrote (place_text row column) 0 room.old room.new result }
{
    let place = [row as u64, column as u64];
    let word = put_word(room, 0, b"cell");
    let fields = put_fields(room, word, &place);
    put_word(room, fields, b"\t")
}

// The hole of the line at a position, read as that of the square in a row and a column.
pub(crate) fn hole_at(text: &[u8], at: usize, row: usize, column: usize) -> Option<usize>
    ensures { result ≡ hole_in text.now at row column }
{
    let mut room = [0u8; PLACE_ROOM];
    let length = put_place(&mut room, row, column);
    if !word_at(text, at, &room[..length]) {
        return None;
    }
    let after = at + length;
    if word_at(text, after, b"o\t?\t") {
        return Some(after + 2);
    }
    if word_at(text, after, b"e\t?\t") {
        return Some(after + 2);
    }
    None
}

// A bed in its place, `?` where it is not known.
fn put_bed(out: &mut [u8], at: usize, bed: u64) -> usize
    requires { at + length (bed_text bed) ≤ length out.old }
    ensures { Wrote (bed_text bed) at out.old out.new result }
{
    if bed == NO_BED as u64 {
        return put_byte(out, at, b'?');
    }
    put_number(out, at, bed)
}

// The line at a position, read as that of the square in a row and a column, with a bed for its hole.
fn put_line_with(
    out: &mut [u8],
    at: usize,
    text: &[u8],
    start: usize,
    row: usize,
    column: usize,
    bed: u64,
) -> usize
    requires start_in_bounds { start ≤ length text.now }
    requires bed_in_bounds { at + length (line_with text.now start row column (bed_text bed)) ≤ length out.old }
    ensures { Wrote (line_with text.now start row column (bed_text bed)) at out.old out.new result }
{
    let end = next_line(text, start);
    let Some(spot) = hole_at(text, start, row, column) else {
        return put_word(out, at, &text[start..end]);
    };
    let before = put_word(out, at, &text[start..spot]);
    let next = put_bed(out, before, bed);
    let rest = spot + 1;
    put_word(out, next, &text[rest..end])
}

// The lines of a text's squares with a bed for each hole, and the rest of the text after them.
fn put_from(
    out: &mut [u8],
    at: usize,
    text: &[u8],
    cells: usize,
    columns: usize,
    squares: usize,
    beds: &[u32],
) -> usize
    requires looked { (Looked text.now columns squares) × (squares ≤ length beds.now) × (cells ≡ cells_at text.now) }
    requires beds_in_bounds { at + length (cells_put text.now beds.now) ≤ length out.old }
    ensures { Wrote (cells_put text.now beds.now) at out.old out.new result }
{
    let mut start = cells;
    let mut next = at;
    for square in 0..squares {
        let bed = number(beds, square);
        next = put_line_with(
            out,
            next,
            text,
            start,
            square / columns,
            square % columns,
            bed,
        );
        start = next_line(text, start);
    }
    put_word(out, next, &text[start..])
}

// Where the line of the first square starts.
pub(crate) fn cells_at(text: &[u8]) -> usize
    ensures { result ≡ cells_at text.now }
{
    next_line(text, next_line(text, 0))
}

// A text with a bed for each hole of its squares, at the start of out.
pub(crate) fn put_with_beds(
    out: &mut [u8],
    text: &[u8],
    columns: usize,
    squares: usize,
    beds: &[u32],
) -> usize
    requires looked { (Looked text.now columns squares) × (squares ≤ length beds.now) }
    requires beds_in_bounds { length (beds_put text.now beds.now) ≤ length out.old }
    ensures { Wrote (beds_put text.now beds.now) 0 out.old out.new result }
{
    let cells = cells_at(text);
    let next = put_word(out, 0, &text[..cells]);
    put_from(out, next, text, cells, columns, squares, beds)
}
