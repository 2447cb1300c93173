// The water account as numbers: the water on the ground, and what rain and hatches give between two clocks.
//   water_on      the water on all squares not closed
//   tables_give   what the tables give all squares not closed

#![tactic(auto)]

ghost use Rattle.std.specs.Prelude.{◌≡◌, ◌*◌, ◌≤◌, ◌<◌, get_or, length};
ghost use Rattle.reckon.specs.Tests.{pick};
ghost use Rattle.reckon.specs.Ranges.{most_side};
ghost use Rattle.reckon.specs.Tables.{inflow_kind};
ghost use Rattle.reckon.specs.Inner.Fits.{Fits};
ghost use Rattle.grid.specs.Squares.{ShapeInRange, squares};
ghost use Rattle.grid.specs.Marks.{closed};
ghost use Rattle.ledger.specs.Runs.{plan};
ghost use Rattle.ledger.specs.Checks.{WaterLent};
ghost use Rattle.adding.specs.Inner.Added.{Between, rows_apart, tables};
ghost use Rattle.account.specs.Account.{TablesGive, WaterOn};
ghost use Rattle.account.specs.Inner.Given.{inflow_gives, most_fallen, open_squares};

use adding::added::poured_once;
use adding::way::Way;
use grid::marks::is_closed;
use grid::squares::{Shape, squares_of};
use reckon::numbers::number;
use reckon::tables::{INFLOW_WIDTH, rain_added};

// A square's water, 0 where it is closed. It is read before the mark is tested, so that a sum of many goes without a branch.
fn water_in(marks: &[u8], depths: &[u32], square: usize) -> u64
    requires { (square < length marks.now) × (square < length depths.now) }
    ensures { result ≡ pick (closed marks.now square) 0 (get_or depths.now square 0) }
{
    let depth = number(depths, square);
    if is_closed(marks, square) {
        return 0;
    }
    depth
}

// The water on all squares not closed, in µm over one square.
pub fn water_on(shape: Shape, marks: &[u8], depths: &[u32]) -> u64
    requires { WaterLent (plan shape marks.now) depths.now depths.now }
    ensures { WaterOn (plan shape marks.now) depths.now result }
{
    let mut sum: u64 = 0;
    for square in 0..squares_of(shape) {
        sum += water_in(marks, depths, square);
    }
    sum
}

// 1 for a square that is not closed.
fn one_if_open(marks: &[u8], square: usize) -> u64
    requires { square < length marks.now }
    ensures { result ≡ pick (closed marks.now square) 0 1 }
{
    if is_closed(marks, square) {
        return 0;
    }
    1
}

// How many squares are not closed.
fn open_squares(shape: Shape, marks: &[u8]) -> u64
    requires { (ShapeInRange shape) × (length marks.now ≡ squares shape) }
    ensures { result ≡ open_squares (plan shape marks.now) }
{
    let mut count: u64 = 0;
    for square in 0..squares_of(shape) {
        count += one_if_open(marks, square);
    }
    count
}

// What rain gives all squares not closed, where so much fell on each. Mostly it does not rain, and none is counted.
fn rain_gives(shape: Shape, marks: &[u8], fallen: u64) -> u64
    requires { (ShapeInRange shape) × (length marks.now ≡ squares shape) × (fallen ≤ most_fallen) }
    ensures { result ≡ fallen * open_squares (plan shape marks.now) }
{
    if fallen == 0 {
        return 0;
    }
    fallen * open_squares(shape, marks)
}

// What inflow gives all squares, row by row.
fn inflow_gives(inflow: &[u32], apart: bool, side: u64, start: u64, end: u64) -> u64
    requires { (apart ≡ rows_apart inflow.now) × (Fits inflow_kind inflow.now end) × (start ≤ end) × (0 < side) × (side ≤ most_side) }
    ensures { result ≡ inflow_gives inflow.now side start end }
{
    let mut sum: u64 = 0;
    for j in 0..inflow.len() / INFLOW_WIDTH {
        sum += poured_once(inflow, apart, j, side, start, end);
    }
    sum
}

// What rain and inflow give all squares not closed between two clocks, in µm over one square. The caller knows whether the rows stand apart.
pub fn tables_give(
    way: Way,
    marks: &[u8],
    rain: &[u32],
    inflow: &[u32],
    start: u64,
    end: u64,
) -> u64
    requires between { Between (plan way.shape marks.now) (tables way.rules rain.now inflow.now) start end }
    requires apart_value { way.apart ≡ rows_apart inflow.now }
    ensures { TablesGive (plan way.shape marks.now) (tables way.rules rain.now inflow.now) start end result }
{
    let fallen = rain_added(rain, start, end);
    let poured = inflow_gives(inflow, way.apart, way.rules.square_side, start, end);
    rain_gives(way.shape, marks, fallen) + poured
}
