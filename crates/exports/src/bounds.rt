// The most and the least steps of a run, before it is made.
ghost use Rattle.std.specs.Prelude.{◌≡◌, length};
ghost use Rattle.exports.specs.Bounds.{ExportsBounds, bounds_told, figures_in};
ghost use Rattle.exports.specs.Numbers.{bounds_size};

use crate::inputs::rules_from;
use crate::sizes::{BOUNDS_NUMBERS, NOT_ITS_SIZE, RULES_NUMBERS};
use checks::bounds::{Bounds, step_bounds};

// What is told where nothing is refused: both figures have been written; or, past every refusal's number, the clock is no multiple of U or
// the end comes before it.
const BOUNDED: u32 = 0;

const NOT_BOUNDED: u32 = 104;

// An answer's number; both figures, the most first, go into the slice.
fn tell_bounds(answer: Bounds, bounds: &mut [u64]) -> u32
    requires { length bounds.old ≡ bounds_size }
    ensures { (result ≡ bounds_told answer) × (bounds.new ≡ figures_in answer bounds.old) }
{
    match answer {
        Bounds::Refused(number) => number,
        Bounds::NotBounded => NOT_BOUNDED,
        Bounds::Bounded(figures) => {
            bounds[0] = figures.most;
            bounds[1] = figures.least;
            BOUNDED
        }
    }
}

// The most and the least steps of a run from a clock to an end, before it is made.
pub fn flood_step_bounds(rules: &[u64], clock: u64, end: u64, bounds: &mut [u64]) -> u32
    ensures { ExportsBounds clock end rules.now bounds.old result bounds.new }
{
    if rules.len() != RULES_NUMBERS {
        return NOT_ITS_SIZE;
    }
    if bounds.len() != BOUNDS_NUMBERS {
        return NOT_ITS_SIZE;
    }
    let answer = step_bounds(rules_from(rules), clock, end);
    tell_bounds(answer, bounds)
}
