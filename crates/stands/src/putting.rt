// The text of a state, put into a lent room at a place.
ghost use Rattle.std.specs.Prelude.{◌≡◌, [], ◌∷◌, ℕ, ◌*◌, ◌+◌, ◌<◌, ◌≤◌, length};
ghost use Rattle.reckon.specs.Tests.{pick};
ghost use Rattle.grid.specs.Squares.{ShapeInRange, most_squares, squares};
ghost use Rattle.ledger.specs.Runs.{plan};
ghost use Rattle.text.specs.Writing.{line_text};
ghost use Rattle.hatches.specs.Lines.{hatch_word};
ghost use Rattle.hatches.specs.Log.{most_hatches};
ghost use Rattle.stands.specs.Texts.{PutStand, first_text, hatch_text, hatches_text, head_text, most_stand, square_text, squares_text, total_text};
ghost use Rattle.stands.specs.Inner.Putting.{PutWithin, most_first, most_hatch, most_hatch_lines, most_head, most_square, most_total, most_word};

use crate::saved::{HALF, Saved};
use grid::marks::is_closed;
use grid::squares::{Shape, squares_of};
use hatches::log::{Hatches, MOST_HATCHES};
use reckon::numbers::number;
use text::writing::put_line;

// The bytes that always suffice for the text of a state.
pub const MOST_STAND: usize = 123_532;

// 1 for yes and 0 for no.
fn as_number(is: bool) -> u64
    ensures { result ≡ pick {A = ℕ} is 1 0 }
{
    if is {
        return 1;
    }
    0
}

// A line of a word and one number of 64 bits.
fn put_total(out: &mut [u8], at: usize, word: &[u8], total: u64) -> usize
    requires { (length word.now ≤ most_word) × (at + most_total ≤ length out.old) }
    ensures { PutWithin most_total (total_text word.now total) at out.old out.new result }
{
    let values = [total / HALF, total % HALF];
    put_line(out, at, word, &values)
}

// The line `stand`.
fn put_first(out: &mut [u8], at: usize, saved: Saved) -> usize
    requires { at + most_first ≤ length out.old }
    ensures { PutWithin most_first (first_text saved) at out.old out.new result }
{
    let log = saved.log;
    let run = log.run;
    let opening = as_number(log.opening);
    let values = [log.steps, run.clock, run.length, opening];
    put_line(out, at, b"stand", &values)
}

// The lines before the hatches.
fn put_head(out: &mut [u8], at: usize, saved: Saved) -> usize
    requires { at + most_head ≤ length out.old }
    ensures { PutWithin most_head (head_text saved) at out.old out.new result }
{
    let log = saved.log;
    let run = log.run;
    let first = put_first(out, at, saved);
    let second = put_total(out, first, b"out", run.outflow);
    let third = put_total(out, second, b"soak", run.soaked);
    let fourth = put_total(out, third, b"start", saved.start);
    put_total(out, fourth, b"given", saved.given)
}

// The line of a hatch that is named.
fn put_named(out: &mut [u8], at: usize, hatch: usize, row: u32, column: u32, litres: u32) -> usize
    requires { (hatch < most_hatches) × (at + most_hatch ≤ length out.old) }
    ensures { PutWithin most_hatch (line_text hatch_word ((hatch + 1) ∷ row ∷ column ∷ litres ∷ [])) at out.old out.new result }
{
    let values = [hatch as u64 + 1, row as u64, column as u64, litres as u64];
    put_line(out, at, b"hatch", &values)
}

// The line of a hatch, none where it is not named.
fn put_hatch(out: &mut [u8], at: usize, hatches: Hatches, litres: [u32; 9], hatch: usize) -> usize
    requires { (hatch < most_hatches) × (at + most_hatch ≤ length out.old) }
    ensures { PutWithin most_hatch (hatch_text hatches litres hatch) at out.old out.new result }
{
    let named = hatches.named;
    if !named[hatch] {
        return at;
    }
    let rows = hatches.rows;
    let columns = hatches.columns;
    put_named(out, at, hatch, rows[hatch], columns[hatch], litres[hatch])
}

// The lines of all hatches.
fn put_hatches(out: &mut [u8], at: usize, hatches: Hatches, litres: [u32; 9]) -> usize
    requires { at + most_hatch_lines ≤ length out.old }
    ensures { PutWithin most_hatch_lines (hatches_text hatches litres) at out.old out.new result }
{
    let mut next = at;
    for hatch in 0..MOST_HATCHES {
        next = put_hatch(out, next, hatches, litres, hatch);
    }
    next
}

// The line of a square, none where it is closed.
fn put_square(
    out: &mut [u8],
    at: usize,
    shape: Shape,
    marks: &[u8],
    depths: &[u32],
    lasts: &[u32],
    square: usize,
) -> usize
    requires { (square < most_squares) × (square < length marks.now) × (square < length depths.now) × (square < length lasts.now) × (at + most_square ≤ length out.old) }
    ensures { PutWithin most_square (square_text (plan shape marks.now) depths.now lasts.now square) at out.old out.new result }
{
    if is_closed(marks, square) {
        return at;
    }
    let values = [square as u64, number(depths, square), number(lasts, square)];
    put_line(out, at, b"at", &values)
}

// The lines of all squares.
fn put_squares(
    out: &mut [u8],
    at: usize,
    shape: Shape,
    marks: &[u8],
    depths: &[u32],
    lasts: &[u32],
) -> usize
    requires shape_in_range { (ShapeInRange shape) × (squares shape ≤ length marks.now) × (squares shape ≤ length depths.now) × (squares shape ≤ length lasts.now) }
    requires shape_in_bounds { at + most_square * squares shape ≤ length out.old }
    ensures { PutWithin (most_square * squares shape) (squares_text (plan shape marks.now) depths.now lasts.now) at out.old out.new result }
{
    let squares = squares_of(shape);
    let mut next = at;
    for square in 0..squares {
        next = put_square(out, next, shape, marks, depths, lasts, square);
    }
    next
}

// The whole state.
pub fn put_stand(
    out: &mut [u8],
    at: usize,
    shape: Shape,
    marks: &[u8],
    depths: &[u32],
    lasts: &[u32],
    saved: Saved,
) -> usize
    requires shape_in_range { (ShapeInRange shape) × (squares shape ≤ length marks.now) × (squares shape ≤ length depths.now) × (squares shape ≤ length lasts.now) }
    requires most_stand_in_bounds { at + most_stand ≤ length out.old }
    ensures { PutStand (plan shape marks.now) depths.now lasts.now saved at out.old out.new result }
{
    let log = saved.log;
    let hatches = log.hatches;
    let litres = log.litres;
    let head = put_head(out, at, saved);
    let named = put_hatches(out, head, hatches, litres);
    put_squares(out, named, shape, marks, depths, lasts)
}
