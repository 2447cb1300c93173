// What is printed, put into a lent room at a place: a refusal, and a world.
ghost use Rattle.std.specs.Prelude.{◌≡◌, [], ◌∷◌, ◌+◌, ◌<◌, ◌≤◌, length};
ghost use Rattle.grid.specs.Squares.{ShapeInRange, squares};
ghost use Rattle.ledger.specs.Runs.{plan};
ghost use Rattle.text.specs.Writing.{Wrote, line_text};
ghost use Rattle.answer.specs.Printed.{PutRefused, PutTotals, PutWorld, cell_text, cells_text, made_text, most_refused, totals_text};

use grid::marks::is_closed;
use grid::squares::{Shape, squares_of};
use ledger::runs::Run;
use reckon::numbers::number;
use text::writing::put_line;

// The line of a refusal.
pub fn put_refused(out: &mut [u8], at: usize, refusal: u32, line: usize) -> usize
    requires { at + most_refused ≤ length out.old }
    ensures { PutRefused refusal line at out.old out.new result }
{
    let values = [refusal as u64, line as u64];
    put_line(out, at, b"refused", &values)
}

// The line of a square, none where it is closed.
fn put_square(
    out: &mut [u8],
    at: usize,
    shape: Shape,
    marks: &[u8],
    depths: &[u32],
    square: usize,
) -> usize
    requires shape_in_range { (ShapeInRange shape) × (square < length marks.now) × (square < length depths.now) }
    requires square_in_bounds { at + length (cell_text (plan shape marks.now) depths.now square) ≤ length out.old }
    ensures { Wrote (cell_text (plan shape marks.now) depths.now square) at out.old out.new result }
{
    if is_closed(marks, square) {
        return at;
    }
    let columns = shape.columns;
    let values = [
        (square / columns) as u64,
        (square % columns) as u64,
        number(depths, square),
    ];
    put_line(out, at, b"cell", &values)
}

// The lines of all squares.
fn put_squares(out: &mut [u8], at: usize, shape: Shape, marks: &[u8], depths: &[u32]) -> usize
    requires shape_in_range { (ShapeInRange shape) × (squares shape ≡ length marks.now) × (squares shape ≡ length depths.now) }
    requires depths_in_bounds { at + length (cells_text (plan shape marks.now) depths.now) ≤ length out.old }
    ensures { Wrote (cells_text (plan shape marks.now) depths.now) at out.old out.new result }
{
    let squares = squares_of(shape);
    let mut next = at;
    for square in 0..squares {
        next = put_square(out, next, shape, marks, depths, square);
    }
    next
}

// A line of a word and one number.
fn put_total(out: &mut [u8], at: usize, word: &[u8], total: u64) -> usize
    requires { at + length (line_text word.now (total ∷ [])) ≤ length out.old }
    ensures { Wrote (line_text word.now (total ∷ [])) at out.old out.new result }
{
    let values = [total];
    put_line(out, at, word, &values)
}

// Outflow, what soaked, steps made and clock.
pub fn put_totals(out: &mut [u8], at: usize, run: Run, steps: u64) -> usize
    requires { at + length (totals_text run steps) ≤ length out.old }
    ensures { PutTotals run steps at out.old out.new result }
{
    let first = put_total(out, at, b"out", run.outflow);
    let second = put_total(out, first, b"soak", run.soaked);
    let third = put_total(out, second, b"steps", steps);
    put_total(out, third, b"clock", run.clock)
}

// A world after so many steps: each square not closed with its depth, then the totals.
pub fn put_world(
    out: &mut [u8],
    at: usize,
    shape: Shape,
    marks: &[u8],
    depths: &[u32],
    run: Run,
    steps: u64,
) -> usize
    requires shape_in_range { (ShapeInRange shape) × (squares shape ≡ length marks.now) × (squares shape ≡ length depths.now) }
    requires steps_in_bounds { at + length (made_text (plan shape marks.now) depths.now run steps) ≤ length out.old }
    ensures { PutWorld (plan shape marks.now) depths.now run steps at out.old out.new result }
{
    let next = put_squares(out, at, shape, marks, depths);
    put_totals(out, next, run, steps)
}
