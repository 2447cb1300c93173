// What a step adds to each square: rain, worked once a step, and inflow, worked once for each of its rows.
ghost use Rattle.std.specs.Prelude.{◌≡◌, true, ◌/◌, ◌≤◌, ◌<◌, length};
ghost use Rattle.reckon.specs.Tests.{all_below};
ghost use Rattle.reckon.specs.Ranges.{most_side};
ghost use Rattle.reckon.specs.Tables.{inflow_added, inflow_kind, on_square};
ghost use Rattle.reckon.specs.Inner.Fits.{Fits};
ghost use Rattle.grid.specs.Squares.{squares};
ghost use Rattle.grid.specs.Marks.{closed, inflow_words};
ghost use Rattle.ledger.specs.Runs.{plan};
ghost use Rattle.adding.specs.Inner.Added.{Between, PouredAll, PouredRow, Pours, RainedAll, WaterAdded, poured_once, row_alone, rows_apart, tables};

use crate::way::Way;
use grid::marks::is_closed;
use grid::squares::square_at;
use reckon::numbers::number;
use reckon::ranges::MOST_DEPTH;
use reckon::tables::{INFLOW_WIDTH, inflow_added, rain_added, row_on};

// Whether every square is closed.
fn all_closed(marks: &[u8]) -> bool
    ensures { result ≡ all_below (length marks.now) (closed marks.now) }
{
    for square in 0..marks.len() {
        if !is_closed(marks, square) {
            return false;
        }
    }
    true
}

// Stores the rain at every square, unless a square not closed could not hold it. What stands at a
// closed square of the room decides nothing, so no mark is looked at.
fn rain_all(marks: &[u8], rain: u64, room: &mut [u32]) -> bool
    requires { length room.old ≡ length marks.now }
    ensures { RainedAll marks.now rain room.old result room.new }
{
    if (MOST_DEPTH as u64) < rain {
        return all_closed(marks);
    }
    room.fill(rain as u32);
    true
}

// Whether no row before inflow row j is for the square of row j.
fn row_alone(inflow: &[u32], j: usize) -> bool
    requires { j < length inflow.now / inflow_words }
    ensures { result ≡ row_alone inflow.now j }
{
    let row = number(inflow, INFLOW_WIDTH * j);
    let column = number(inflow, INFLOW_WIDTH * j + 1);
    for k in 0..j {
        if row_on(inflow, k, row, column) {
            return false;
        }
    }
    true
}

// Whether no two inflow rows are for the same square: then what is added to a row's square is that row's alone.
pub fn rows_apart(inflow: &[u32]) -> bool
    ensures { result ≡ rows_apart inflow.now }
{
    for j in 0..inflow.len() / INFLOW_WIDTH {
        if !row_alone(inflow, j) {
            return false;
        }
    }
    true
}

// What inflow adds to the square of inflow row j: where the rows stand apart, what that row adds; else a sum over all rows.
fn poured(
    inflow: &[u32],
    apart: bool,
    j: usize,
    row: u64,
    column: u64,
    side: u64,
    start: u64,
    end: u64,
) -> u64
    requires apart_value { (apart ≡ rows_apart inflow.now) × (j < length inflow.now / inflow_words) × (on_square inflow.now row column j ≡ true) }
    requires fits { (Fits inflow_kind inflow.now end) × (start ≤ end) × (0 < side) × (side ≤ most_side) }
    ensures { result ≡ inflow_added inflow.now row column side start end }
{
    if !apart {
        return inflow_added(inflow, row, column, side, start, end);
    }
    let at = INFLOW_WIDTH * j;
    let past = at + INFLOW_WIDTH;
    let alone = &inflow[at..past];
    inflow_added(alone, row, column, side, start, end)
}

// Whether no row before inflow row j is for the same square, which is known where the rows stand apart.
fn row_first(inflow: &[u32], apart: bool, j: usize) -> bool
    requires { (apart ≡ rows_apart inflow.now) × (j < length inflow.now / inflow_words) }
    ensures { result ≡ row_alone inflow.now j }
{
    if apart {
        return true;
    }
    row_alone(inflow, j)
}

// What inflow adds to the square of inflow row j, each square counted once: nothing where a row before it is for the same square.
pub fn poured_once(inflow: &[u32], apart: bool, j: usize, side: u64, start: u64, end: u64) -> u64
    requires apart_value { (apart ≡ rows_apart inflow.now) × (j < length inflow.now / inflow_words) }
    requires fits { (Fits inflow_kind inflow.now end) × (start ≤ end) × (0 < side) × (side ≤ most_side) }
    ensures { result ≡ poured_once inflow.now side start end j }
{
    if !row_first(inflow, apart, j) {
        return 0;
    }
    let row = number(inflow, INFLOW_WIDTH * j);
    let column = number(inflow, INFLOW_WIDTH * j + 1);
    poured(inflow, apart, j, row, column, side, start, end)
}

// Stores what is added to the square of inflow row j, unless that could not hold it.
fn pour_row(
    way: Way,
    inflow: &[u32],
    start: u64,
    end: u64,
    rain: u64,
    j: usize,
    room: &mut [u32],
) -> bool
    requires { (Pours way.shape way.rules inflow.now start end rain) × (length room.old ≡ squares way.shape) × (j < length inflow.now / inflow_words) × (way.apart ≡ rows_apart inflow.now) }
    ensures { PouredRow way.shape way.rules inflow.now start end rain j room.old result room.new }
{
    let row = number(inflow, INFLOW_WIDTH * j);
    let column = number(inflow, INFLOW_WIDTH * j + 1);
    let amount = rain
        + poured(
            inflow,
            way.apart,
            j,
            row,
            column,
            way.rules.square_side,
            start,
            end,
        );
    if (MOST_DEPTH as u64) < amount {
        return false;
    }
    let square = square_at(way.shape, row as usize, column as usize);
    room[square] = amount as u32;
    true
}

// Stores what is added to the squares of all inflow rows.
fn pour_all(way: Way, inflow: &[u32], start: u64, end: u64, rain: u64, room: &mut [u32]) -> bool
    requires { (Pours way.shape way.rules inflow.now start end rain) × (length room.old ≡ squares way.shape) × (way.apart ≡ rows_apart inflow.now) }
    ensures { PouredAll way.shape way.rules inflow.now start end rain room.old result room.new }
{
    for j in 0..inflow.len() / INFLOW_WIDTH {
        if !pour_row(way, inflow, start, end, rain, j, room) {
            return false;
        }
    }
    true
}

// Stores what a step from start to end adds to each square not closed; false where a square could not hold it. The caller knows whether the rows
// stand apart: tables do not change while a run goes on.
pub fn add_water(
    way: Way,
    marks: &[u8],
    rain: &[u32],
    inflow: &[u32],
    start: u64,
    end: u64,
    room: &mut [u32],
) -> bool
    requires between { Between (plan way.shape marks.now) (tables way.rules rain.now inflow.now) start end }
    requires room_len { length room.old ≡ squares way.shape }
    requires apart_value { way.apart ≡ rows_apart inflow.now }
    ensures { WaterAdded (plan way.shape marks.now) (tables way.rules rain.now inflow.now) start end room.old result room.new }
{
    let fallen = rain_added(rain, start, end);
    if !rain_all(marks, fallen, room) {
        return false;
    }
    pour_all(way, inflow, start, end, fallen, room)
}
