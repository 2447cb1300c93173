// Reading a grid: its header, and its squares one after the other with the position carried, so that each byte is passed once.
ghost use Rattle.std.specs.Prelude.{◌≡◌, true, false, ◌+◌, ◌<◌, ◌≤◌, ◌^◌, MatchResult};
ghost use Rattle.reckon.specs.Tests.{pick};
ghost use Rattle.text.specs.Reading.{is_byte, most_number, newline};
ghost use Rattle.raster.specs.Amounts.{amount_at};
ghost use Rattle.raster.specs.Raster.{EntryRead, GridJudged, HeadRead, bare_entry, grid_bad, head_line, last_in_row, line_end_after, line_number, no_data_at, only_zero, past_gap, past_spaces};
ghost use Rattle.raster.specs.Inner.Steps.{Stops, value_start};

use crate::amounts::{Scale, amount_at};
use grid::squares::Shape;
use text::reading::{NEWLINE, Number, byte_is, word_at};

pub(crate) const SPACE: u8 = 32;

// The bytes of `-9999`.
const NO_DATA_LENGTH: usize = 5;

// What the six lines of a header say, and the position after them.
#[derive(Clone, Copy)]
pub struct Head {
    pub shape: Shape,
    pub side: u64,
    pub next: usize,
}

// What stands for a square: its number, or none where it is `-9999`; and the position of the next square.
#[derive(Clone, Copy)]
pub struct Entry {
    pub value: Option<u32>,
    pub next: usize,
}

// The position after the spaces at a position.
fn past_spaces(text: &[u8], at: usize) -> usize
    ensures { result ≡ past_spaces text.now at }
{
    let mut p = at;
    while byte_is(text, p, SPACE) {
        p += 1;
    }
    p
}

// A number, and then the end of the line.
fn line_end_after(text: &[u8], number: Option<Number>) -> Option<Number>
    ensures { result ≡ line_end_after text.now number }
{
    let number = number?;
    let end = number.next;
    if !byte_is(text, end, NEWLINE) {
        return None;
    }
    Some(Number {
        next: end + 1,
        ..number
    })
}

// `-9999` as a number is read: 0 stands for it.
fn no_data_at(text: &[u8], at: usize) -> Option<Number>
    ensures { result ≡ no_data_at text.now at }
{
    if !word_at(text, at, b"-9999") {
        return None;
    }
    Some(Number {
        value: 0,
        next: at + NO_DATA_LENGTH,
    })
}

// Where the value of a line of the header starts: after its word and one or more spaces; the position itself where they are not there.
fn value_start(text: &[u8], at: usize, word: &[u8]) -> usize
    ensures { result ≡ value_start text.now at word.now }
{
    if !word_at(text, at, word) {
        return at;
    }
    let after = at + word.len();
    if !byte_is(text, after, SPACE) {
        return at;
    }
    past_spaces(text, after)
}

// A line of the header whose value is a number.
fn head_line(text: &[u8], at: usize, word: &[u8], scale: Scale) -> Option<Number>
    ensures { result ≡ head_line text.now at word.now (amount_at scale text.now) }
{
    let start = value_start(text, at, word);
    if start == at {
        return None;
    }
    line_end_after(text, amount_at(text, start, scale))
}

// A corner's line, whose value is 0.
fn corner_line(text: &[u8], at: usize, word: &[u8]) -> Option<Number>
    ensures { result ≡ only_zero (head_line text.now at word.now (amount_at Scale.Metres text.now)) }
{
    let corner = head_line(text, at, word, Scale::Metres)?;
    if corner.value != 0 {
        return None;
    }
    Some(corner)
}

// The line that tells what stands at closed squares.
fn no_data_line(text: &[u8], at: usize, word: &[u8]) -> Option<Number>
    ensures { result ≡ head_line text.now at word.now (no_data_at text.now) }
{
    let start = value_start(text, at, word);
    if start == at {
        return None;
    }
    line_end_after(text, no_data_at(text, start))
}

// The six lines of a header; where they cannot be read, the position of the line that stopped it.
pub fn head_of(text: &[u8]) -> Result<Head, usize>
    ensures { HeadRead text.now result }
{
    let columns = head_line(text, 0, b"ncols", Scale::Whole).ok_or(0usize)?;
    let rows = head_line(text, columns.next, b"nrows", Scale::Whole).ok_or(columns.next)?;
    let x = corner_line(text, rows.next, b"xllcorner").ok_or(rows.next)?;
    let y = corner_line(text, x.next, b"yllcorner").ok_or(x.next)?;
    let side = head_line(text, y.next, b"cellsize", Scale::Whole).ok_or(y.next)?;
    let no_data = no_data_line(text, side.next, b"NODATA_value").ok_or(side.next)?;
    Ok(Head {
        shape: Shape {
            rows: rows.value as usize,
            columns: columns.value as usize,
        },
        side: side.value as u64,
        next: no_data.next,
    })
}

// What stands at a position for a square, without what parts it from the next.
fn bare_entry(text: &[u8], at: usize, scale: Scale) -> Option<Entry>
    ensures { result ≡ bare_entry scale text.now at }
{
    if word_at(text, at, b"-9999") {
        return Some(Entry {
            value: None,
            next: at + NO_DATA_LENGTH,
        });
    }
    let amount = amount_at(text, at, scale)?;
    Some(Entry {
        value: Some(amount.value),
        next: amount.next,
    })
}

// After a square that ends at a position: a newline after the last of a row, else one or more spaces; the position itself where they are not
// there.
fn past_gap(text: &[u8], last: bool, at: usize) -> usize
    ensures { result ≡ past_gap text.now last at }
{
    if !last {
        return past_spaces(text, at);
    }
    if byte_is(text, at, NEWLINE) {
        return at + 1;
    }
    at
}

// The square at a position, the last of its row or not, with what parts it from the next.
pub fn entry_at(text: &[u8], at: usize, scale: Scale, last: bool) -> Option<Entry>
    ensures { EntryRead scale text.now at last result }
{
    let entry = bare_entry(text, at, scale)?;
    let next = past_gap(text, last, entry.next);
    if next <= entry.next {
        return None;
    }
    Some(Entry { next, ..entry })
}

// Whether a square is the last of its row.
pub(crate) fn last_in_row(columns: usize, square: usize) -> bool
    requires { (0 < columns) × (square + 1 < 2 ^ 64) }
    ensures { result ≡ last_in_row columns square }
{
    (square + 1) % columns == 0
}

// The position after a grid's squares, the first of them at a position; where one cannot be read, its own.
fn squares_end(text: &[u8], at: usize, shape: Shape, scale: Scale) -> Result<usize, usize>
    requires { (shape.rows ≤ most_number) × (shape.columns ≤ most_number) }
    ensures { MatchResult result (Stops scale text.now at shape true) (Stops scale text.now at shape false) }
{
    let columns = shape.columns;
    let mut next = at;
    for square in 0..shape.rows * columns {
        let entry = entry_at(text, next, scale, last_in_row(columns, square)).ok_or(next)?;
        next = entry.next;
    }
    Ok(next)
}

// How many lines end at a position: one or none.
fn line_ends(text: &[u8], at: usize) -> usize
    ensures { result ≡ pick (is_byte text.now at newline) 1 0 }
{
    if byte_is(text, at, NEWLINE) {
        return 1;
    }
    0
}

// The line, from 1, that a position stands in.
fn line_number(text: &[u8], at: usize) -> usize
    ensures { result ≡ line_number text.now at }
{
    let mut line: usize = 1;
    for i in 0..at {
        line += line_ends(text, i);
    }
    line
}

// A header is read, all squares after it, and the text ends there; else where the reading stops.
fn all_read(text: &[u8], scale: Scale) -> Result<(), usize>
    ensures { MatchResult result (λ u. grid_bad scale text.now ≡ 0) (λ at. grid_bad scale text.now ≡ line_number text.now at) }
{
    let head = head_of(text)?;
    let end = squares_end(text, head.next, head.shape, scale)?;
    if end < text.len() {
        return Err(end);
    }
    Ok(())
}

// The line of a grid that cannot be read, 0 where all can.
pub fn grid_bad(text: &[u8], scale: Scale) -> usize
    ensures { GridJudged scale text.now result }
{
    match all_read(text, scale) {
        Ok(()) => 0,
        Err(at) => line_number(text, at),
    }
}
