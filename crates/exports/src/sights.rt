// The flow arrow of a square, and the wet rows with their count.
ghost use Rattle.std.specs.Prelude.{◌≡◌, length};
ghost use Rattle.ledger.specs.Runs.{plan};
ghost use Rattle.sight.specs.Arrows.{view};
ghost use Rattle.exports.specs.Numbers.{count_size, run_value_from, shape_from, speeds_size};
ghost use Rattle.exports.specs.Sights.{ExportsArrow, ExportsWet, sight_number, speeds_in, wet_number_of};
ghost use Rattle.exports.specs.Inner.Slices.{count_in};

use crate::inputs::{run_from, shape_from};
use crate::sizes::{COUNT_NUMBERS, NOT_ITS_SIZE, RUN_NUMBERS, SPEED_NUMBERS};
use sight::arrows::{Sight, arrow};
use sight::wet_rows::{Wet, wet_rows};

// What is seen where nothing is refused: a moving square's speeds have been written; the others are past every refusal's number.
const MOVING: u32 = 0;

const CLOSED: u32 = 101;

const DRY: u32 = 102;

const STILL: u32 = 103;

// A sight's number; a moving square's speeds, east and north in m/s, go into the slice.
fn tell_sight(sight: Sight, speeds: &mut [f64]) -> u32
    requires { length speeds.old ≡ speeds_size }
    ensures { (result ≡ sight_number sight) × (speeds.new ≡ speeds_in sight speeds.old) }
{
    match sight {
        Sight::Refused(number) => number,
        Sight::Closed => CLOSED,
        Sight::Dry => DRY,
        Sight::Still => STILL,
        Sight::Moving(arrow) => {
            speeds[0] = arrow.east;
            speeds[1] = arrow.north;
            MOVING
        }
    }
}

// The flow arrow of the square in a row and a column, after the newest step kept.
pub fn flood_arrow(
    rows: usize,
    columns: usize,
    square_side: u64,
    marks: &[u8],
    depths: &[u32],
    records: &[u32],
    run: &[u64],
    row: usize,
    column: usize,
    speeds: &mut [f64],
) -> u32
    ensures { ExportsArrow (plan (shape_from rows columns) marks.now) square_side (view depths.now records.now (run_value_from run.now)) row column run.now speeds.old result speeds.new }
{
    if run.len() != RUN_NUMBERS {
        return NOT_ITS_SIZE;
    }
    if speeds.len() != SPEED_NUMBERS {
        return NOT_ITS_SIZE;
    }
    let sight = arrow(
        shape_from(rows, columns),
        square_side,
        run_from(run),
        marks,
        depths,
        records,
        row,
        column,
    );
    tell_sight(sight, speeds)
}

// An answer's number; a count goes into the slice.
fn tell_wet(wet: Wet, count: &mut [u64]) -> u32
    requires { length count.old ≡ count_size }
    ensures { (result ≡ wet_number_of wet) × (count.new ≡ count_in wet count.old) }
{
    match wet {
        Wet::Refused(number) => number,
        Wet::Count(squares) => {
            count[0] = squares;
            0
        }
    }
}

// The wet rows, and their count.
pub fn flood_wet_rows(
    rows: usize,
    columns: usize,
    marks: &[u8],
    depths: &[u32],
    wet_depth: u32,
    wet: &mut [u64],
    count: &mut [u64],
) -> u32
    ensures { ExportsWet (plan (shape_from rows columns) marks.now) depths.now wet_depth wet.old count.old result wet.new count.new }
{
    if count.len() != COUNT_NUMBERS {
        return NOT_ITS_SIZE;
    }
    let answer = wet_rows(shape_from(rows, columns), marks, depths, wet_depth, wet);
    tell_wet(answer, count)
}
