// The checks that several calls share: one number a square, the water of every square, the times of a record.
ghost use Rattle.std.specs.Prelude.{◌≡◌, ◌||◌, ◌<◌, ◌≤◌, get_or, length};
ghost use Rattle.reckon.specs.Ranges.{water_fine};
ghost use Rattle.grid.specs.Squares.{ShapeInRange};
ghost use Rattle.grid.specs.Marks.{closed};
ghost use Rattle.ledger.specs.Runs.{plan};
ghost use Rattle.ledger.specs.Record.{head_words};
ghost use Rattle.ledger.specs.Checks.{OneEach, TimesJudged, WaterLent, WatersJudged};

use crate::record::{held_before, lasted};
use grid::marks::is_closed;
use grid::squares::{Shape, squares_of};
use reckon::ranges::{MOST_LENGTH, water_fine};

// Whether there is one number a square.
pub fn one_each(shape: Shape, numbers: usize) -> bool
    requires { ShapeInRange shape }
    ensures { OneEach shape numbers result }
{
    numbers == squares_of(shape)
}

// Refusal 3 for one square.
fn square_fine(marks: &[u8], depths: &[u32], lasts: &[u32], square: usize) -> bool
    requires { (square < length marks.now) × (square < length depths.now) × (square < length lasts.now) }
    ensures { result ≡ (closed marks.now square || water_fine (get_or depths.now square 0) (get_or lasts.now square 0)) }
{
    if is_closed(marks, square) {
        return true;
    }
    water_fine(depths[square], lasts[square])
}

// Refusal 3: depth and last leaving of every square not closed are in range.
pub fn waters_fine(shape: Shape, marks: &[u8], depths: &[u32], lasts: &[u32]) -> bool
    requires { WaterLent (plan shape marks.now) depths.now lasts.now }
    ensures { WatersJudged (plan shape marks.now) depths.now lasts.now result }
{
    for square in 0..squares_of(shape) {
        if !square_fine(marks, depths, lasts, square) {
            return false;
        }
    }
    true
}

// Refusal 11: length held and time lasted are 1 to 60,000.
pub fn times_fine(rec: &[u32]) -> bool
    requires { head_words ≤ length rec.now }
    ensures { TimesJudged rec.now result }
{
    let held = held_before(rec);
    let lasts = lasted(rec);
    if held < 1 {
        return false;
    }
    if MOST_LENGTH < held {
        return false;
    }
    if lasts < 1 {
        return false;
    }
    lasts <= MOST_LENGTH
}
