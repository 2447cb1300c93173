// What a table of rain or of inflow has table_gives by a clock, and whether a table is in range.
// Rain rows: from, to, rate. Inflow rows: row, column, from, to, litres.
ghost use Rattle.std.specs.Prelude.{◌≡◌, ◌+◌, ◌*◌, ◌/◌, ◌≤◌, ◌<◌, length, get_or};
ghost use Rattle.reckon.specs.Tests.{pick};
ghost use Rattle.reckon.specs.Ranges.{most_side, last_clock, most_litres, most_rain};
ghost use Rattle.reckon.specs.Tables.{rain_kind, inflow_kind, ran, row_start, row_gives, on_square, row_fine, table_fine, RainJudged, InflowJudged, RowOn, RainBy, InflowBy, RainAdded, InflowAdded};
ghost use Rattle.reckon.specs.Inner.Fits.{Fits};

use crate::numbers::{lesser, number};
use crate::ranges::{LAST_CLOCK, MOST_LITRES, MOST_RAIN, MOST_TABLE_ROWS};

// A kind of table: how many numbers a row has, how many of them stand before its from, the most that its last may be.
#[derive(Clone, Copy)]
pub struct Kind {
    pub width: usize,
    pub lead: usize,
    pub most: u64,
}

// What rows have given, summed: by the start of a step and by its end.
#[derive(Clone, Copy)]
struct Sums {
    start: u64,
    end: u64,
}

// The numbers of a row.
pub const RAIN_WIDTH: usize = 3;

pub const INFLOW_WIDTH: usize = 5;

// The numbers of a room for the most rows of each.
pub const RAIN_ROOM: usize = RAIN_WIDTH * MOST_TABLE_ROWS;

pub const INFLOW_ROOM: usize = INFLOW_WIDTH * MOST_TABLE_ROWS;

// The numbers of an inflow row before its from: row and column.
const INFLOW_LEAD: usize = 2;

const RAIN: Kind = Kind {
    width: RAIN_WIDTH,
    lead: 0,
    most: MOST_RAIN,
};

const INFLOW: Kind = Kind {
    width: INFLOW_WIDTH,
    lead: INFLOW_LEAD,
    most: MOST_LITRES,
};

// The ms of an hour.
pub(crate) const HOUR: u64 = 3_600_000;

// How long a row has run by clock t.
fn row_ran(from: u64, to: u64, t: u64) -> u64
    ensures { result ≡ ran from to t }
{
    lesser(t, to).saturating_sub(from)
}

// What the row whose from, to and amount stand at a place has table_gives by clock t.
fn row_gives(rows: &[u32], at: usize, t: u64) -> u64
    requires { (at + 2 < length rows.now) × (get_or rows.now (at + 2) 0 ≤ most_rain) × (t ≤ last_clock) }
    ensures { result ≡ row_gives rows.now at t }
{
    let from = number(rows, at);
    let to = number(rows, at + 1);
    let amount = number(rows, at + 2);
    amount * row_ran(from, to, t)
}

// Rain by clock t, in µm.
pub fn rain_by(rows: &[u32], t: u64) -> u64
    requires { Fits rain_kind rows.now t }
    ensures { RainBy rows.now t result }
{
    let mut sum: u64 = 0;
    for j in 0..rows.len() / RAIN_WIDTH {
        sum += row_gives(rows, RAIN_WIDTH * j, t);
    }
    sum / HOUR
}

// Whether row j of an inflow table is for the square at row r, column c.
pub fn row_on(rows: &[u32], j: usize, r: u64, c: u64) -> bool
    requires { j < length rows.now / inflow_kind.width }
    ensures { RowOn rows.now j r c result }
{
    if number(rows, INFLOW_WIDTH * j) != r {
        return false;
    }
    number(rows, INFLOW_WIDTH * j + 1) == c
}

// What row j of an inflow table adds to the sum of the square at row r, column c.
fn inflow_row(rows: &[u32], j: usize, r: u64, c: u64, t: u64) -> u64
    requires { (j < length rows.now / inflow_kind.width) × Fits inflow_kind rows.now t }
    ensures { result ≡ pick (on_square rows.now r c j) (row_gives rows.now (row_start inflow_kind j) t) 0 }
{
    if !row_on(rows, j, r, c) {
        return 0;
    }
    row_gives(rows, INFLOW_WIDTH * j + INFLOW_LEAD, t)
}

// Inflow by clock t on the square at row r, column c, in µm over a square of the table_gives side.
pub fn inflow_by(rows: &[u32], r: u64, c: u64, side: u64, t: u64) -> u64
    requires fits { Fits inflow_kind rows.now t }
    requires side_nonzero { (0 < side) × (side ≤ most_side) }
    ensures { InflowBy rows.now r c side t result }
{
    let mut sum: u64 = 0;
    for j in 0..rows.len() / INFLOW_WIDTH {
        sum += inflow_row(rows, j, r, c, t);
    }
    sum / (side * side)
}

// What rain adds between two clocks.
pub fn rain_added(rows: &[u32], start: u64, end: u64) -> u64
    requires fits { Fits rain_kind rows.now end }
    requires start_le_end { start ≤ end }
    ensures { RainAdded rows.now start end result }
{
    rain_by(rows, end) - rain_by(rows, start)
}

// The sums with what row j of an inflow table has given the square at row r, column c by each clock: nothing where the row is for another.
fn sums_with(sums: Sums, rows: &[u32], j: usize, r: u64, c: u64, start: u64, end: u64) -> Sums
    requires j_in_bounds { (j < length rows.now / inflow_kind.width) × (Fits inflow_kind rows.now start) × (Fits inflow_kind rows.now end) }
    requires start_bound { (sums.start ≤ j * (most_litres * last_clock)) × (sums.end ≤ j * (most_litres * last_clock)) }
    ensures { (result.start ≡ sums.start + pick (on_square rows.now r c j) (row_gives rows.now (row_start inflow_kind j) start) 0) × (result.end ≡ sums.end + pick (on_square rows.now r c j) (row_gives rows.now (row_start inflow_kind j) end) 0) }
{
    if !row_on(rows, j, r, c) {
        return sums;
    }
    let at = INFLOW_WIDTH * j + INFLOW_LEAD;
    Sums {
        start: sums.start + row_gives(rows, at, start),
        end: sums.end + row_gives(rows, at, end),
    }
}

// What inflow adds between two clocks on the square at row r, column c: one walk over the rows sums what they have given by both.
pub fn inflow_added(rows: &[u32], r: u64, c: u64, side: u64, start: u64, end: u64) -> u64
    requires fits { Fits inflow_kind rows.now end }
    requires start_le_end { (start ≤ end) × (0 < side) × (side ≤ most_side) }
    ensures { InflowAdded rows.now r c side start end result }
{
    let mut sums = Sums { start: 0, end: 0 };
    for j in 0..rows.len() / INFLOW_WIDTH {
        sums = sums_with(sums, rows, j, r, c, start, end);
    }
    sums.end / (side * side) - sums.start / (side * side)
}

// The row whose from, to and amount stand at a place is in range.
fn row_fine(most: u64, rows: &[u32], at: usize) -> bool
    requires { at + 2 < length rows.now }
    ensures { result ≡ row_fine most rows.now at }
{
    let to = number(rows, at + 1);
    if to < number(rows, at) {
        return false;
    }
    if LAST_CLOCK < to {
        return false;
    }
    number(rows, at + 2) <= most
}

// Whole rows, at most 64 of them, each in range.
fn table_fine(kind: Kind, rows: &[u32]) -> bool
    requires { (kind.lead + 3 ≡ kind.width) × (kind.width ≤ inflow_kind.width) }
    ensures { result ≡ table_fine kind rows.now }
{
    let width = kind.width;
    let n = rows.len() / width;
    if rows.len() % width != 0 {
        return false;
    }
    if MOST_TABLE_ROWS < n {
        return false;
    }
    for j in 0..n {
        if !row_fine(kind.most, rows, width * j + kind.lead) {
            return false;
        }
    }
    true
}

pub fn rain_fine(rows: &[u32]) -> bool
    ensures { RainJudged rows.now result }
{
    table_fine(RAIN, rows)
}

pub fn inflow_fine(rows: &[u32]) -> bool
    ensures { InflowJudged rows.now result }
{
    table_fine(INFLOW, rows)
}
